//! The turn table: what a sender does next.

ghost use Rattle.std.specs.Prelude.{◌≡◌, ◌+◌, ◌^◌, ◌<◌, min};
ghost use Rattle.mq_frame.specs.declared.frame.Seen.TheVariants as items;
ghost use Rattle.mq_sync.specs.declared.data.Stock.{Stock as StockValue};
ghost use Rattle.mq_sender.specs.Table.{sender_next, is_binding, is_waiting, names_doubt, settled_by, taken};

use crate::state::{Sender, SenderState};
use crate::turns::SenderDoes;
use mq_frame::{Frame, FrameKind, Seen};
use mq_sync::{Settle, Stock, Unit, settle_of};

impl Sender {
    /// What the next turn does: the first line of the turn table that applies (this project's choice). The numbers
    /// of sessions and units have room for one more.
    pub fn next(&self, seen: &Seen, stock: &Stock) -> SenderDoes
        requires sessions { self.now.kept.session + 1 < 2 ^ 64 }
        requires units { self.now.begun + 1 < 2 ^ 64 }
        ensures { result ≡ sender_next self.now seen.now stock.now }
    {
        match seen {
            Seen::Nothing => self.own_turn(stock),
            Seen::Spoiled => SenderDoes::Ignore,
            Seen::Frame(frame) => self.answered(frame),
        }
    }

    /// The lines on an item that waits.
    fn answered(&self, frame: &Frame) -> SenderDoes
        ensures { (stock : StockValue) → result ≡ sender_next self.now (items.Frame frame.now) stock }
    {
        match &frame.kind {
            FrameKind::Status {
                unit_session,
                unit_n,
                last,
            } => {
                if frame.session == self.kept.session && self.is_binding() {
                    SenderDoes::Bound {
                        settle: self.settled_by(Unit {
                            session: *unit_session,
                            n: *unit_n,
                        }),
                        partner: *last,
                    }
                } else {
                    SenderDoes::Ignore
                }
            }
            FrameKind::Ack { n } => {
                if self.is_waiting() && self.names_doubt(frame.session, *n) {
                    SenderDoes::Commit
                } else {
                    SenderDoes::Ignore
                }
            }
            FrameKind::Err { n, reason } => {
                if self.is_waiting() && self.names_doubt(frame.session, *n) {
                    SenderDoes::Backout(*reason)
                } else {
                    SenderDoes::Ignore
                }
            }
            _ => SenderDoes::Ignore,
        }
    }

    /// The lines without an item.
    fn own_turn(&self, stock: &Stock) -> SenderDoes
        requires sessions { self.now.kept.session + 1 < 2 ^ 64 }
        requires units { self.now.begun + 1 < 2 ^ 64 }
        ensures { result ≡ sender_next self.now items.Nothing stock.now }
    {
        match self.state {
            SenderState::Starting => SenderDoes::HardenSession(self.kept.session + 1),
            SenderState::Hailing => SenderDoes::PushBind,
            SenderState::Running => self.takes(stock),
            SenderState::Sending { sent, .. } => {
                if sent < self.count {
                    SenderDoes::PushMsg(sent + 1)
                } else {
                    SenderDoes::Prepare
                }
            }
            SenderState::Ready => SenderDoes::PushEnd,
            _ => SenderDoes::Still,
        }
    }

    /// A running sender and its transmission queue.
    fn takes(&self, stock: &Stock) -> SenderDoes
        requires units { self.now.begun + 1 < 2 ^ 64 }
        ensures { result ≡ taken self.now stock.now }
    {
        if !stock.enabled {
            SenderDoes::Still
        } else if stock.expired {
            SenderDoes::Expire
        } else if stock.free > 0 {
            SenderDoes::Begin {
                n: self.begun + 1,
                count: least(self.limits.batch_size, stock.free),
            }
        } else {
            SenderDoes::Still
        }
    }

    fn is_binding(&self) -> bool
        ensures { result ≡ is_binding self.now.state }
    {
        matches!(self.state, SenderState::Binding)
    }

    fn is_waiting(&self) -> bool
        ensures { result ≡ is_waiting self.now.state }
    {
        matches!(self.state, SenderState::Waiting)
    }

    /// The unit in doubt is that unit.
    fn names_doubt(&self, session: u64, n: u64) -> bool
        ensures { result ≡ names_doubt self.now.kept.doubt session n }
    {
        match &self.kept.doubt {
            Some(doubt) => doubt.unit.session == session && doubt.unit.n == n,
            None => false,
        }
    }

    /// How the receiver's last unit settles a unit in doubt.
    fn settled_by(&self, last: Unit) -> Option<Settle>
        ensures { result ≡ settled_by self.now.kept.doubt last }
    {
        match &self.kept.doubt {
            Some(doubt) => Some(settle_of(doubt.unit, last)),
            None => None,
        }
    }
}

/// The lesser of BATCHSZ and the free rows.
fn least(batch_size: u32, free: u64) -> u32
    ensures { result ≡ min batch_size free }
{
    match u32::try_from(free) {
        Ok(free) => batch_size.min(free),
        Err(_) => batch_size,
    }
}
