//! Start, stop and timeout of a sender, and what is read of it.

ghost use Rattle.std.specs.Prelude.{◌≡◌};
ghost use Rattle.mq_sender.specs.States.{new_sender, started, stopped, halted, is_running, awaits, timed_out, unit_begun};

use crate::state::{Kept, Limits, Sender, SenderState, StopCause};
use mq_sync::Unit;

impl Sender {
    /// A sender that was never started.
    pub fn new() -> Sender
        ensures { result ≡ new_sender }
    {
        Sender {
            state: SenderState::Inactive,
            tries: 0,
            kept: Kept::of(None),
            begun: 0,
            count: 0,
            limits: Limits {
                batch_size: 1,
                sequence_wrap: 1,
                short_retry: 0,
            },
        }
    }

    /// An operator's START, from what is hardened and from the channel's definition. The tries are 0.
    /// Source: MQSC reference, START CHANNEL.
    pub fn start(&mut self, kept: Kept, limits: Limits)
        ensures { self.new ≡ started kept limits }
    {
        *self = Sender {
            state: SenderState::Starting,
            tries: 0,
            kept,
            begun: 0,
            count: 0,
            limits,
        };
    }

    /// An operator's STOP.
    /// Source: MQSC reference, STOP CHANNEL.
    pub fn stop(&mut self)
        ensures { self.new ≡ stopped self.old }
    {
        self.state = SenderState::Stopped(StopCause::Operator);
    }

    /// The manager has stopped: the sender is inactive.
    pub fn halt(&mut self)
        ensures { self.new ≡ halted self.old }
    {
        self.state = SenderState::Inactive;
    }

    /// Neither inactive nor stopped.
    pub fn is_running(&self) -> bool
        ensures { result ≡ is_running self.now.state }
    {
        !matches!(self.state, SenderState::Inactive | SenderState::Stopped(_))
    }

    /// An answer is awaited: a timeout may come.
    pub fn awaits(&self) -> bool
        ensures { result ≡ awaits self.now.state }
    {
        matches!(self.state, SenderState::Binding | SenderState::Waiting)
    }

    /// A timeout: with all tries used the sender stops, else it starts anew with one try more. False exactly where no
    /// answer is awaited; nothing changes then. A unit in doubt stays in doubt.
    /// Source: distributed queuing, short retry count (this project's choice of when a timeout may come: at any moment).
    pub fn timeout(&mut self) -> bool
        ensures answer { result ≡ awaits self.old.state }
        ensures after { self.new ≡ timed_out self.old }
    {
        if !self.awaits() {
            return false;
        }
        if self.tries < self.limits.short_retry {
            self.tries += 1;
            self.state = SenderState::Starting;
        } else {
            self.state = SenderState::Stopped(StopCause::NoAnswer);
        }
        true
    }

    /// The hardened session.
    pub fn session(&self) -> u64
        ensures { result ≡ self.now.kept.session }
    {
        self.kept.session
    }

    /// The latest unit begun in the session; number 0 where none is.
    pub fn unit(&self) -> Unit
        ensures { result ≡ unit_begun self.now }
    {
        Unit {
            session: self.kept.session,
            n: self.begun,
        }
    }

    /// The number of messages of the latest unit begun.
    pub fn count(&self) -> u32
        ensures { result ≡ self.now.count }
    {
        self.count
    }
}
