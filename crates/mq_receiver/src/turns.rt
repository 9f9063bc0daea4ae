//! What a turn of a receiver does, and what came of it.

use mq_sync::Unit;

/// What a receiver's turn does.
#[derive(Clone, Copy, PartialEq, Eq)]
pub enum ReceiverDoes {
    /// Nothing; no item waits.
    Still,
    /// Pops the item that waits.
    Ignore,
    /// Pushes the frame that is owed.
    PushOwed,
    /// Pops BIND and hardens its session as bound.
    Bind,
    /// Pops MSG and keeps its message.
    Keep,
    /// Pops END, places the messages of this unit and hardens it as received.
    Place(Unit),
    /// Pops END of the last unit, which is acknowledged again.
    Again,
    /// Pops a spoiled frame and hardens the bound session as closed.
    Close,
}

/// What came of a turn.
#[derive(Clone, Copy)]
pub enum ReceiverOut {
    Done,
    /// The cable refused the push.
    Full,
    /// The batch can't be placed, for this reason code; it goes with `Place` alone.
    Refused(u32),
}
