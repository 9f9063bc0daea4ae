//! What of the crates below those above take through this one.

pub use mq_index::IndexedQueue;
pub use mq_place::{LocalRows, Queues, is_past};
pub use mq_sides::below::{Effects, Ended, Operation, can_be_kept, objects_front};
pub use mq_sides::{
    KeptBatch, KeptReceiver, KeptSender, batch_of, drop_side, receiver_data, seizure_of, sender_of,
    swap_side, undo_side,
};
pub use mq_trigger::below::{Live, Seat};
pub use mq_trigger::trigger_message;
