//! What of the crates below those above take through this one.

pub use mq_core::{
    Core, Parts, StoppedWrite, is_unfit_output, make_put_room, put_bytes, return_room,
};
pub use mq_get::below::{
    Effects, can_be_kept, dead_message, dest_at, is_inhibited, max_depth, max_length, names_of,
    queue_at,
};
pub use mq_get::mqget;
pub use mq_record::moved_front;
