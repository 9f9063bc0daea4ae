//! What happened at one manager: its opening, its entries in order, and its marks.
use crate::calls::Entry;
use mq_calls::Image;
use mq_calls::below::{Items, QName};

/// A step's end.
#[derive(Clone, Copy)]
pub struct Mark {
    /// The number of entries then.
    pub entries: u64,
    /// Whether the step was a PUMP or a HANDLE that ended idle.
    pub idle: bool,
}

/// What happened at one manager since its first start.
#[derive(Drop)]
pub struct History {
    /// 1 to 8: one above the manager's place in the scenario.
    pub number: u8,
    pub name: QName,
    /// What its first start read of the log.
    pub opening: Image,
    /// The log's length in bytes then, before its Started record.
    pub length: u64,
    /// The moment with which it began, in milliseconds since 1970.
    pub moment: u64,
    /// In order; their stamps rise.
    pub entries: Items<Entry>,
    /// One for each step of the scenario that is done, in order.
    pub marks: Items<Mark>,
}
