//! What of the crates below those above take through this one.

pub use mq_restart::below::are_distinct;
pub use mq_restart::{LogRead, Unbegun, Unreturned, begin, bodies_are_bytes};
pub use mq_told::LogTold;
