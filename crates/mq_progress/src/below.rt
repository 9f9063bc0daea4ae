//! What of the crates below those above take through this one.

pub use mq_lines::{deadline_of, wait_of};
