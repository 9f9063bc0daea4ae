//! What a body of the log says.

use mq_calls::LogRecord;
use mq_message::Bytes;

/// What a command in the log does to the objects: it gives an object or the manager all its
/// attributes, or deletes an object.
#[derive(Clone, Copy, PartialEq, Eq)]
pub enum Operation {
    Set,
    Delete,
}

/// A record as its body has it: a change of objects is the text of a command (MQSC).
#[derive(Drop)]
pub enum WrittenRecord {
    Objects { operation: Operation, text: Bytes },
    /// Any other record; never one that changes objects.
    Other(LogRecord),
}
