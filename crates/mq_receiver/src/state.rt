//! The state of a receiver. Source: distributed queuing, "Channel states"; sessions and units are this
//! project's own.

use mq_sync::Unit;

/// A frame that a receiver owes and hasn't pushed yet.
#[derive(Clone, Copy, PartialEq, Eq)]
pub enum Owed {
    /// The session is bound; the last unit and the last sequence number.
    Status {
        /// Counted from 1.
        session: u64,
        /// The last unit that was committed; number 0 where none was.
        unit: Unit,
        /// 0 to 999,999,999.
        last: u32,
    },
    /// The unit is committed.
    Ack(Unit),
    /// The unit is refused, with the reason code, and its session closed.
    Err {
        unit: Unit,
        /// One of the manual's reason codes.
        reason: u32,
    },
}

/// Where a receiver stands.
#[derive(Clone, Copy)]
pub enum ReceiverState {
    /// No session is bound: since its manager started, or since the session was closed.
    Inactive,
    /// Stopped by an operator.
    Stopped,
    /// The kept session is bound.
    Bound {
        /// The latest unit begun in it, counted from 1; 0 for none.
        latest: u64,
        /// How many of its messages came.
        came: u32,
    },
}

/// A receiver. What is hardened of it is its session, its last unit and its last sequence number.
#[derive(Clone, Copy)]
pub struct Receiver {
    pub state: ReceiverState,
    /// The frame that it owes, if there is one.
    pub owes: Option<Owed>,
    /// The session bound last, counted from 1; 0 before the first.
    pub session: u64,
    /// The last unit that was committed; number 0 where none was.
    pub unit: Unit,
    /// The last sequence number, 0 to 999,999,999.
    pub last: u32,
}
