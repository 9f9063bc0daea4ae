//! One queue manager as its calls work on it.
ghost use Rattle.std.specs.Prelude.{◌≡◌};
ghost use Rattle.mq_calls.specs.Reads.{is_up};
ghost use Rattle.mq_core.specs.Values.{begun_call};

use crate::parts::Parts;
use mq_disk::{Disk, Stop};
use mq_sides::below::Effects;
use std::marker::Model;

/// One queue manager as its calls work on it. Contracts see it as the plain manager, what its last
/// call did, what stopped that call's write, and the bodies of its log. Its fields are for the crates
/// of the calls: each of their functions leaves the parts tied to one another.
#[derive(Drop)]
pub struct Core<D: Disk> {
    /// Its parts, tied to one another between calls.
    pub parts: Parts<D>,
    /// What the last call did.
    pub effects: Effects,
    /// What stopped its write.
    pub stopped: Option<Stop>,
}

impl<D: Disk> Model for Core<D> {
    ghost use Rattle.mq_core.specs.Values.{CoreValue, bodies_in};
    ghost use Rattle.mq_core.specs.Views.{plain_of};
    ghost use Rattle.mq_core.specs.Ties.{Tied};

    ghost Value = { CoreValue };

    ghost view = { λ m. record { plain = plain_of m.parts; delta = m.effects.dids; stopped = m.stopped; faults = m.parts.log.faults; log = bodies_in m.parts.log } };

    ghost invariant = { λ m. Tied m.parts };
}

impl<D: Disk> Core<D> {
    /// Whether the manager is up. It takes no memory.
    pub fn is_up(&self) -> bool
        ensures { result ≡ is_up self.now.plain.running }
    {
        self.parts.is_up()
    }

    /// A call begins: it has changed nothing yet. It takes no memory.
    pub fn begin_call(&mut self)
        ensures { self.new ≡ begun_call self.old }
    {
        self.effects.clear();
        self.stopped = None;
    }
}
