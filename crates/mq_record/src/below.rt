//! What of the crates below those above take through this one.

pub use mq_base::{Items, NoMemory};
pub use mq_calls::below::{InDoubt, ReceiverData, SenderData, Unit, copy_doubt};
pub use mq_calls::{Batch, Delta, Did, Item, LogRecord, ReceiverSide, Seizure, SenderSide, Why};
pub use mq_message::{Ident, Message, Place};
