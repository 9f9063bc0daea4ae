//! What of the crates below those above take through this one.

pub use mq_record::below::{
    Batch, Ident, InDoubt, Place, ReceiverData, ReceiverSide, Seizure, SenderData, SenderSide,
    Unit, copy_doubt,
};
pub use mq_record::{Buffer, Operation, objects_front, unit_front};
