//! What of the crates below those above take through this one.

pub use mq_fill::{dead_message, dest_at, is_inhibited, max_depth, max_length, names_of, queue_at};
pub use mq_scan::Met;
pub use mq_unit::{Effects, can_be_kept};
