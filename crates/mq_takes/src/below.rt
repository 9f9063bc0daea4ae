//! What of the crates below those above take through this one.

pub use mq_turn_parts::{Turn, timeout};
