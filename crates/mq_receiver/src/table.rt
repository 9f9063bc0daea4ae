//! The turn table: what a receiver does next.

ghost use Rattle.std.specs.Prelude.{◌≡◌, false, is_some};
ghost use Rattle.mq_frame.specs.declared.frame.Seen.TheVariants as items;
ghost use Rattle.mq_receiver.specs.Table.{continued, ended, of_session, receiver_next};

use crate::state::{Receiver, ReceiverState};
use crate::turns::ReceiverDoes;
use mq_frame::{Frame, FrameKind, Seen};
use mq_sync::Unit;

impl Receiver {
    /// What the next turn does: the first line of the turn table that applies (this project's choice). `defined`
    /// says that the end's definition is there.
    pub fn next(&self, seen: &Seen, defined: bool) -> ReceiverDoes
        ensures { result ≡ receiver_next self.now seen.now defined }
    {
        if self.owes.is_some() {
            return ReceiverDoes::PushOwed;
        }
        match seen {
            Seen::Nothing => ReceiverDoes::Still,
            Seen::Spoiled => {
                if self.is_bound() {
                    ReceiverDoes::Close
                } else {
                    ReceiverDoes::Ignore
                }
            }
            Seen::Frame(frame) => self.takes(frame, defined),
        }
    }

    /// The lines on a whole frame, where nothing is owed.
    fn takes(&self, frame: &Frame, defined: bool) -> ReceiverDoes
        requires { is_some self.now.owes ≡ false }
        ensures { result ≡ receiver_next self.now (items.Frame frame.now) defined }
    {
        match &frame.kind {
            FrameKind::Bind { .. } => {
                if frame.session > self.session && defined && !self.is_stopped() {
                    ReceiverDoes::Bind
                } else {
                    ReceiverDoes::Ignore
                }
            }
            FrameKind::Msg { n, index, .. } => {
                if self.is_of_session(frame) && self.is_continued(*n, *index) {
                    ReceiverDoes::Keep
                } else {
                    ReceiverDoes::Ignore
                }
            }
            FrameKind::End { n, count, .. } => {
                if self.is_of_session(frame) {
                    self.ends(*n, *count)
                } else {
                    ReceiverDoes::Ignore
                }
            }
            _ => ReceiverDoes::Ignore,
        }
    }

    /// END of the bound session.
    fn ends(&self, n: u64, count: u32) -> ReceiverDoes
        ensures { result ≡ ended self.now n count }
    {
        let unit = Unit {
            session: self.session,
            n,
        };
        if unit == self.unit {
            ReceiverDoes::Again
        } else if n == self.unit().n && count == self.came() {
            ReceiverDoes::Place(unit)
        } else {
            ReceiverDoes::Ignore
        }
    }

    /// The frame is of the bound session.
    fn is_of_session(&self, frame: &Frame) -> bool
        ensures { result ≡ of_session self.now frame.now }
    {
        self.is_bound() && frame.session == self.session
    }

    /// Message 1 of a unit above the latest, or the next message of the latest.
    fn is_continued(&self, n: u64, index: u32) -> bool
        ensures { result ≡ continued self.now n index }
    {
        let latest = self.unit().n;
        if index == 1 && latest < n {
            return true;
        }
        n == latest && index > 0 && index - 1 == self.came()
    }
}
