//! What of the crates below those above take through this one.

pub use mq_net_apart::below::conflict;
