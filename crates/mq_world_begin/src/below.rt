//! What of the crates below those above take through this one.

pub use mq_begin::NetFault;
