//! What a log keeps of a manager.

use crate::state::{ReceiverSide, SenderSide};
use mq_disk::below::{Items, QName};
use mq_queue::Row;
use mq_resolve::below::Definitions;

/// A local queue as a log keeps it: its rows that last, in order of place. Their arrivals are 0, for a log knows none.
#[derive(Drop)]
pub struct Shelf {
    pub name: QName,
    pub rows: Items<Row>,
}

/// What a log keeps of a manager.
#[derive(Drop)]
pub struct Image {
    pub definitions: Definitions,
    /// One for each local queue, in order of definition.
    pub shelves: Items<Shelf>,
    /// In order of the channels' names, one a channel.
    pub senders: Items<SenderSide>,
    /// In order of the channels' names, one a channel.
    pub receivers: Items<ReceiverSide>,
    /// The greatest one that was started, 0 for none.
    pub incarnation: u64,
}
