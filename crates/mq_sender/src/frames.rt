//! The frames that a sender pushes.

ghost use Rattle.std.specs.Prelude.{◌≡◌};
ghost use Rattle.mq_sender.specs.After.{number_next};
ghost use Rattle.mq_sender.specs.Frames.{bind_frame, message_frame, end_frame};

use crate::state::{Sender, SenderState};
use mq_frame::below::{Dest, Message};
use mq_frame::{Frame, FrameKind};
use mq_sync::next_number;

impl Sender {
    /// BIND of the hardened session.
    pub fn bind_frame(&self, stamp: u64) -> Frame
        ensures { result ≡ bind_frame stamp self.now }
    {
        Frame {
            stamp,
            session: self.kept.session,
            kind: FrameKind::Bind {
                last: self.kept.last,
                force: self.kept.force,
            },
        }
    }

    /// The sequence number of the message that is pushed next.
    pub fn next_number(&self) -> u32
        ensures { result ≡ number_next self.now }
    {
        let last = match self.state {
            SenderState::Sending { number, .. } => number,
            _ => self.kept.last,
        };
        next_number(last, self.limits.sequence_wrap)
    }

    /// MSG `index`, from 1, of unit `n`, with the next sequence number.
    pub fn message_frame(
        &self,
        stamp: u64,
        n: u64,
        index: u32,
        dest: Dest,
        message: Message,
    ) -> Frame
        ensures { result ≡ message_frame stamp self.now n index dest message }
    {
        Frame {
            stamp,
            session: self.kept.session,
            kind: FrameKind::Msg {
                n,
                index,
                number: self.next_number(),
                dest,
                message,
            },
        }
    }

    /// END of the unit that is prepared, with its count and its last sequence number.
    pub fn end_frame(&self, stamp: u64) -> Frame
        ensures { result ≡ end_frame stamp self.now }
    {
        let last = match &self.kept.doubt {
            Some(doubt) => doubt.last,
            None => self.kept.last,
        };
        Frame {
            stamp,
            session: self.kept.session,
            kind: FrameKind::End {
                n: self.begun,
                count: self.count,
                last,
            },
        }
    }
}
