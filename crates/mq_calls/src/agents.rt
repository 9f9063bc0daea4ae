//! What channel ends and the dead-letter handler ask of a manager, and why it is not done (this project's choice).

use mq_disk::below::{Items, QName};
use mq_queue::below::Message;
use mq_resolve::below::Reason;
use mq_sync::{End, Unit};

/// Why a call of a channel end or of the handler was not done. `Disk` and `Cut` take the manager
/// down, `NoMemory` changes nothing.
#[derive(Clone, Copy)]
pub enum AgentStop {
    Disk,
    Cut,
    NoMemory,
}

/// Why a sender cannot open its transmission queue.
#[derive(Clone, Copy)]
pub enum SeizeFault {
    /// XMITQ names no local queue of USAGE(XMITQ).
    BadQueue,
    /// It is open for input, or a unit, or another channel holds a row.
    QueueInUse,
    NoMemory,
}

/// Why a batch was not prepared.
#[derive(Clone, Copy)]
pub enum PrepareFault {
    /// The log lacks the room.
    NoRoom,
    Stop(AgentStop),
}

/// Why messages were not placed.
#[derive(Clone, Copy)]
pub enum PlaceFault {
    Refused(Reason),
    Stop(AgentStop),
}

/// What a channel end hardens beside its messages.
#[derive(Clone, Copy)]
pub enum Note {
    Session {
        partner: QName,
        session: u64,
    },
    Resolved {
        unit: Unit,
        commit: bool,
        operator: bool,
    },
    Bound {
        partner: QName,
        session: u64,
        last: u32,
    },
    Closed {
        session: u64,
    },
    SeqSet {
        end: End,
        last: u32,
    },
}

/// Messages in the order of their batch. The route of each has the names that came with it.
pub type Messages = Items<Message>;
