//! What a frame says (this project's choice); what it is for is told by distributed queuing, "Safety of
//! messages".

use mq_message::below::Items;
use mq_message::{Dest, Message};
use std::alloc::AllocError;

/// What one end of a channel tells the other.
#[derive(Drop)]
pub struct Frame {
    /// The stamp of the entry that offered it.
    pub stamp: u64,
    /// The session that the sender of the channel is in, counted from 1.
    pub session: u64,
    /// What it says.
    pub kind: FrameKind,
}

/// The six kinds of frames. Units of work are numbered from 1 within their session.
#[derive(Drop)]
pub enum FrameKind {
    /// The sender asks for a session. With `force` the receiver takes over its last sequence number.
    Bind {
        /// The sender's last sequence number, 0 to 999,999,999.
        last: u32,
        /// Set by a RESET, until a unit is prepared.
        force: bool,
    },
    /// The receiver is bound; its last unit of work and last sequence number.
    Status {
        /// The session of that unit, 0 where none was committed.
        unit_session: u64,
        /// Its number in that session, 0 where none was committed.
        unit_n: u64,
        /// The receiver's last sequence number, 0 to 999,999,999.
        last: u32,
    },
    /// The message of that index, from 1, in unit `n`, with its sequence number and where it goes.
    Msg {
        n: u64,
        /// From 1 on.
        index: u32,
        /// 1 to SEQWRAP.
        number: u32,
        /// RemoteQName and RemoteQMgrName of its transmission header.
        dest: Dest,
        /// Without a route.
        message: Message,
    },
    /// Unit `n` is prepared: it has `count` messages, and the last sequence number is `last`.
    End {
        n: u64,
        /// 1 to BATCHSZ.
        count: u32,
        /// That of its last message.
        last: u32,
    },
    /// The receiver has committed unit `n`.
    Ack {
        n: u64,
    },
    /// The receiver refuses unit `n`, with the reason code.
    Err {
        n: u64,
        /// One of the manual's reason codes.
        reason: u32,
    },
}

/// What an end of a channel sees when it looks for an item.
#[derive(Drop)]
pub enum Seen {
    /// No item waits.
    Nothing,
    /// An item whose bytes are no frame.
    Spoiled,
    /// An item whose bytes are this frame.
    Frame(Frame),
}

/// A list of frames.
pub type Frames = Items<Frame>;

/// Why a decoder gave no frames.
#[derive(Clone, Copy)]
pub enum FrameFault {
    /// No continuation of the bytes is a list of frames. The number of bytes, since the last reset,
    /// before the first one after which this is so.
    BadFrame(u64),
    /// There was no memory; nothing has changed.
    NoMemory,
}
