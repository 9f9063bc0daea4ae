//! What of the crates below those above take through this one.

pub use mq_unit::below::{Buffer, Operation, objects_front, unit_front};
pub use mq_unit::{Effects, Ended, can_be_kept};
