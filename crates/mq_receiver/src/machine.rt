//! Start, stop and restart of a receiver, the frame that it owes, and what is read of it.

ghost use Rattle.std.specs.Prelude.{◌≡◌, option_copied};
ghost use Rattle.mq_receiver.specs.States.{receiver_of, started, stopped, halted, numbered, is_bound, is_stopped, unit_begun, messages_came, owed_frame};

use crate::state::{Owed, Receiver, ReceiverState};
use mq_frame::{Frame, FrameKind};
use mq_sync::{ReceiverData, Unit};

impl Owed {
    /// The frame that is owed.
    pub fn frame(&self, stamp: u64) -> Frame
        ensures { result ≡ owed_frame stamp self.now }
    {
        match *self {
            Owed::Status {
                session,
                unit,
                last,
            } => Frame {
                stamp,
                session,
                kind: FrameKind::Status {
                    unit_session: unit.session,
                    unit_n: unit.n,
                    last,
                },
            },
            Owed::Ack(unit) => Frame {
                stamp,
                session: unit.session,
                kind: FrameKind::Ack { n: unit.n },
            },
            Owed::Err { unit, reason } => Frame {
                stamp,
                session: unit.session,
                kind: FrameKind::Err { n: unit.n, reason },
            },
        }
    }
}

impl Receiver {
    /// The receiver of what is hardened, when its manager has started; nothing was hardened where there is none.
    pub fn of(hardened: Option<&ReceiverData>) -> Receiver
        ensures { result ≡ receiver_of (option_copied hardened.entry) }
    {
        match hardened {
            Some(hardened) => Receiver {
                state: ReceiverState::Inactive,
                owes: None,
                session: hardened.session,
                unit: hardened.unit,
                last: hardened.last,
            },
            None => Receiver {
                state: ReceiverState::Inactive,
                owes: None,
                session: 0,
                unit: Unit::none(),
                last: 0,
            },
        }
    }

    /// An operator's START of a receiver that isn't bound. A frame that is owed is still owed.
    /// Source: MQSC reference, START CHANNEL.
    pub fn start(&mut self)
        ensures { self.new ≡ started self.old }
    {
        self.state = ReceiverState::Inactive;
    }

    /// An operator's STOP, once the session is hardened as closed. A frame that is owed is still owed.
    /// Source: MQSC reference, STOP CHANNEL.
    pub fn stop(&mut self)
        ensures { self.new ≡ stopped self.old }
    {
        self.state = ReceiverState::Stopped;
    }

    /// The manager has stopped: the receiver is inactive, and owes nothing.
    pub fn halt(&mut self)
        ensures { self.new ≡ halted self.old }
    {
        self.state = ReceiverState::Inactive;
        self.owes = None;
    }

    /// An operator's RESET: the last sequence number.
    /// Source: MQSC reference, RESET CHANNEL.
    pub fn set_last(&mut self, last: u32)
        ensures { self.new ≡ numbered last self.old }
    {
        self.last = last;
    }

    /// A session is bound.
    pub fn is_bound(&self) -> bool
        ensures { result ≡ is_bound self.now.state }
    {
        matches!(self.state, ReceiverState::Bound { .. })
    }

    /// An operator has stopped the receiver.
    pub fn is_stopped(&self) -> bool
        ensures { result ≡ is_stopped self.now.state }
    {
        matches!(self.state, ReceiverState::Stopped)
    }

    /// The frame that is owed, if there is one.
    pub fn owes(&self) -> Option<Owed>
        ensures { result ≡ self.now.owes }
    {
        self.owes
    }

    /// The latest unit begun in the kept session; number 0 where none is.
    pub fn unit(&self) -> Unit
        ensures { result ≡ unit_begun self.now }
    {
        let n = match self.state {
            ReceiverState::Bound { latest, .. } => latest,
            _ => 0,
        };
        Unit {
            session: self.session,
            n,
        }
    }

    /// How many messages of the latest unit came.
    pub fn came(&self) -> u32
        ensures { result ≡ messages_came self.now.state }
    {
        match self.state {
            ReceiverState::Bound { came, .. } => came,
            _ => 0,
        }
    }
}
