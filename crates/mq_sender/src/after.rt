//! The state after a turn.

ghost use Rattle.std.specs.Prelude.{◌≡◌};
ghost use Rattle.mq_sender.specs.After.{settled, agreed, done_after, number_sent, sender_after};

use crate::state::{Kept, Sender, SenderState, StopCause};
use crate::turns::{SenderDoes, SenderOut};
use mq_sync::{Doubt, Settle};

/// The reason code for a log that has no room.
const RESOURCE_PROBLEM: u32 = 2102;

impl Kept {
    /// The unit in doubt is settled: a commit takes its last sequence number over.
    fn settled(&self, settle: Option<Settle>) -> Kept
        ensures { result ≡ settled settle self.now }
    {
        let last = match (settle, self.doubt) {
            (Some(Settle::Commit), Some(doubt)) => doubt.last,
            _ => self.last,
        };
        let doubt = match settle {
            Some(_) => None,
            None => self.doubt,
        };
        Kept {
            last,
            doubt,
            ..*self
        }
    }
}

/// Running, or stopped where the two ends' last numbers differ.
fn agreed(own: u32, partner: u32) -> SenderState
    ensures { result ≡ agreed own partner }
{
    if own == partner {
        SenderState::Running
    } else {
        SenderState::Stopped(StopCause::SequenceError { own, partner })
    }
}

impl Sender {
    /// The state after a turn. A refused push changes nothing; where the log has no room for the unit, the sender is
    /// stopped by 2102.
    pub fn done(&mut self, does: &SenderDoes, out: &SenderOut)
        ensures { self.new ≡ sender_after self.old does.now out.now }
    {
        match out {
            SenderOut::Full => {}
            SenderOut::NoRoom => {
                self.state = SenderState::Stopped(StopCause::Reason(RESOURCE_PROBLEM));
            }
            SenderOut::Done => *self = self.after(does),
        }
    }

    fn after(&self, does: &SenderDoes) -> Sender
        ensures { result ≡ done_after self.now does.now }
    {
        match *does {
            SenderDoes::Still | SenderDoes::Ignore | SenderDoes::Expire => *self,
            SenderDoes::HardenSession(session) => self.hardened(session),
            SenderDoes::PushBind => self.at(SenderState::Binding),
            SenderDoes::Begin { n, count } => Sender {
                begun: n,
                count,
                ..self.sent(1)
            },
            SenderDoes::PushMsg(index) => self.sent(index),
            SenderDoes::Prepare => self.prepared(),
            SenderDoes::PushEnd => self.at(SenderState::Waiting),
            SenderDoes::Bound { settle, partner } => self.bound(settle, partner),
            SenderDoes::Commit => self.settled(Settle::Commit, SenderState::Running),
            SenderDoes::Backout(reason) => self.settled(
                Settle::Backout,
                SenderState::Stopped(StopCause::Reason(reason)),
            ),
        }
    }

    fn at(&self, state: SenderState) -> Sender
        ensures { result ≡ record self.now { state = state } }
    {
        Sender { state, ..*self }
    }

    fn hardened(&self, session: u64) -> Sender
        ensures { result ≡ done_after self.now (SenderDoes.HardenSession session) }
    {
        Sender {
            state: SenderState::Hailing,
            kept: Kept {
                session,
                ..self.kept
            },
            begun: 0,
            count: 0,
            ..*self
        }
    }

    /// One message more is sent, of that index.
    fn sent(&self, index: u32) -> Sender
        ensures { result ≡ done_after self.now (SenderDoes.PushMsg index) }
    {
        self.at(SenderState::Sending {
            sent: index,
            number: self.next_number(),
        })
    }

    fn number_sent(&self) -> u32
        ensures { result ≡ number_sent self.now.state self.now.kept.last }
    {
        match self.state {
            SenderState::Sending { number, .. } => number,
            _ => self.kept.last,
        }
    }

    fn prepared(&self) -> Sender
        ensures { result ≡ done_after self.now SenderDoes.Prepare }
    {
        let doubt = Doubt {
            unit: self.unit(),
            last: self.number_sent(),
        };
        Sender {
            state: SenderState::Ready,
            kept: Kept {
                force: false,
                doubt: Some(doubt),
                ..self.kept
            },
            ..*self
        }
    }

    fn bound(&self, settle: Option<Settle>, partner: u32) -> Sender
        ensures { result ≡ done_after self.now (SenderDoes.Bound settle partner) }
    {
        let kept = self.kept.settled(settle);
        Sender {
            state: agreed(kept.last, partner),
            tries: 0,
            kept,
            ..*self
        }
    }

    fn settled(&self, settle: Settle, state: SenderState) -> Sender
        ensures { result ≡ record self.now { state = state; kept = settled (Some settle) self.now.kept } }
    {
        Sender {
            state,
            kept: self.kept.settled(Some(settle)),
            ..*self
        }
    }
}
