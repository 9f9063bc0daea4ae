//! Items: frames on their way, as bytes with a stamp.
use mq_message::Bytes;

/// A frame on its way: its bytes, and the stamp of the event that offered it.
#[derive(Drop)]
pub struct Item {
    /// By Lamport's clock; on a wire at most 2^60.
    pub stamp: u64,
    /// One encoded frame, or what a fault has made of it.
    pub bytes: Bytes,
}

/// A push that found the direction full; the item comes back.
#[derive(Drop)]
pub struct Full {
    /// The item that wasn't pushed.
    pub item: Item,
}
