//! What the two ends of a channel harden, and what a sender sees of its transmission queue.
ghost use Rattle.std.specs.Prelude.{◌≡◌, IfOk};

use crate::unit::Unit;
use mq_message::Ident;
use mq_message::below::{Items, QName};
use std::alloc::{AllocError, Global};

/// An end of a channel.
#[derive(Clone, Copy, PartialEq, Eq)]
pub enum End {
    Sender,
    Receiver,
}

/// A unit that was prepared and isn't settled: the transmission queue that it was taken from, its messages, and the
/// last sequence number with it.
#[derive(Drop)]
pub struct InDoubt {
    pub unit: Unit,
    pub queue: QName,
    pub idents: Items<Ident>,
    pub last: u32,
}

/// What a running sender keeps of a unit in doubt: its name, and the last sequence number with it.
#[derive(Clone, Copy, PartialEq, Eq)]
pub struct Doubt {
    pub unit: Unit,
    pub last: u32,
}

/// What a sender has hardened. `last` is the last sequence number without the unit in doubt; `force` says that an
/// operator has set it since the last prepared unit.
#[derive(Drop)]
pub struct SenderData {
    pub partner: QName,
    pub session: u64,
    pub last: u32,
    pub force: bool,
    pub in_doubt: Option<InDoubt>,
}

/// What a receiver has hardened: its present session, closed or not, and the last unit that it committed, with its
/// last sequence number (LSTLUWID and LSTSEQNO).
#[derive(Drop)]
pub struct ReceiverData {
    pub partner: QName,
    pub session: u64,
    pub closed: bool,
    pub unit: Unit,
    pub last: u32,
}

/// What one manager has hardened of a channel. It has both where a channel's direction was turned round between runs.
#[derive(Drop)]
pub struct ChannelData {
    pub sender: Option<SenderData>,
    pub receiver: Option<ReceiverData>,
}

/// What a sender sees of its transmission queue: whether gets are enabled, whether free rows have expired, and how
/// many rows are free.
#[derive(Clone, Copy)]
pub struct Stock {
    pub enabled: bool,
    pub expired: bool,
    pub free: u64,
}

/// A copy of what is in doubt, or `AllocError` where memory is short.
pub fn copy_doubt(alloc: Global, doubt: &Option<InDoubt>) -> Result<Option<InDoubt>, AllocError>
    ensures { IfOk result (λ copy. copy ≡ doubt.now) }
{
    match doubt {
        None => Ok(None),
        Some(doubt) => {
            let idents = Items::from_slice(alloc, doubt.idents.as_slice())?;
            Ok(Some(InDoubt {
                unit: doubt.unit,
                queue: doubt.queue,
                idents,
                last: doubt.last,
            }))
        }
    }
}
