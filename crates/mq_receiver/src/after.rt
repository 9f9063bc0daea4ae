//! The state after a turn.

ghost use Rattle.std.specs.Prelude.{◌≡◌};
ghost use Rattle.mq_receiver.specs.After.{bound_to, done_after, kept_kind, kind_last, last_by, number_bound, received, refused_after, receiver_after};

use crate::state::{Owed, Receiver, ReceiverState};
use crate::turns::{ReceiverDoes, ReceiverOut};
use mq_frame::{Frame, FrameKind, Seen};
use mq_sync::Unit;

impl Receiver {
    /// The state after a turn; `seen` is the item that the turn saw. A refused push changes nothing; a batch that
    /// can't be placed leaves the session closed, and ERR owed.
    pub fn done(&mut self, does: &ReceiverDoes, seen: &Seen, out: &ReceiverOut)
        ensures { self.new ≡ receiver_after self.old does.now seen.now out.now }
    {
        match out {
            ReceiverOut::Full => {}
            ReceiverOut::Refused(reason) => *self = self.refused(does, *reason),
            ReceiverOut::Done => *self = self.after(does, seen),
        }
    }

    fn refused(&self, does: &ReceiverDoes, reason: u32) -> Receiver
        ensures { result ≡ refused_after self.now does.now reason }
    {
        match *does {
            ReceiverDoes::Place(unit) => Receiver {
                state: ReceiverState::Inactive,
                owes: Some(Owed::Err { unit, reason }),
                ..*self
            },
            _ => *self,
        }
    }

    fn after(&self, does: &ReceiverDoes, seen: &Seen) -> Receiver
        ensures { result ≡ done_after self.now does.now seen.now }
    {
        match *does {
            ReceiverDoes::Still | ReceiverDoes::Ignore => *self,
            ReceiverDoes::PushOwed => Receiver {
                owes: None,
                ..*self
            },
            ReceiverDoes::Bind => self.bound(seen),
            ReceiverDoes::Keep => self.kept(seen),
            ReceiverDoes::Place(unit) => self.received(unit, seen),
            ReceiverDoes::Again => Receiver {
                owes: Some(Owed::Ack(self.unit)),
                ..*self
            },
            ReceiverDoes::Close => Receiver {
                state: ReceiverState::Inactive,
                ..*self
            },
        }
    }

    /// BIND is hardened: its session is bound, and STATUS owed.
    fn bound(&self, seen: &Seen) -> Receiver
        ensures { result ≡ done_after self.now ReceiverDoes.Bind seen.now }
    {
        match seen {
            Seen::Frame(frame) => self.bound_to(frame.session, self.number_bound(frame)),
            _ => *self,
        }
    }

    fn number_bound(&self, frame: &Frame) -> u32
        ensures { result ≡ number_bound self.now.last frame.now.kind }
    {
        match &frame.kind {
            FrameKind::Bind { last, force: true } => *last,
            _ => self.last,
        }
    }

    fn bound_to(&self, session: u64, last: u32) -> Receiver
        ensures { result ≡ bound_to session last self.now }
    {
        Receiver {
            state: ReceiverState::Bound { latest: 0, came: 0 },
            owes: Some(Owed::Status {
                session,
                unit: self.unit,
                last,
            }),
            session,
            unit: self.unit,
            last,
        }
    }

    fn kept(&self, seen: &Seen) -> Receiver
        ensures { result ≡ done_after self.now ReceiverDoes.Keep seen.now }
    {
        match seen {
            Seen::Frame(frame) => self.kept_of(frame),
            _ => *self,
        }
    }

    fn kept_of(&self, frame: &Frame) -> Receiver
        ensures { result ≡ kept_kind frame.now.kind self.now }
    {
        match &frame.kind {
            FrameKind::Msg { n, index, .. } => Receiver {
                state: ReceiverState::Bound {
                    latest: *n,
                    came: *index,
                },
                ..*self
            },
            _ => *self,
        }
    }

    fn received(&self, unit: Unit, seen: &Seen) -> Receiver
        ensures { result ≡ received unit seen.now self.now }
    {
        Receiver {
            owes: Some(Owed::Ack(unit)),
            unit,
            last: self.last_by(seen),
            ..*self
        }
    }

    /// END's last sequence number.
    fn last_by(&self, seen: &Seen) -> u32
        ensures { result ≡ last_by seen.now self.now.last }
    {
        match seen {
            Seen::Frame(frame) => last_of(frame, self.last),
            _ => self.last,
        }
    }
}

fn last_of(frame: &Frame, otherwise: u32) -> u32
    ensures { result ≡ kind_last otherwise frame.now.kind }
{
    match &frame.kind {
        FrameKind::End { last, .. } => *last,
        _ => otherwise,
    }
}
