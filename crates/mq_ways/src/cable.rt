//! A cable in one thread.
ghost use Rattle.std.specs.Prelude.{◌≡◌, IfOk};
ghost use Rattle.mq_ways.specs.Ways.{IsNew};

use mq_base::NoMemory;
use mq_cable::{Faults, Items, Near, Offers};
use std::alloc::Global;
use std::marker::Model;

/// The two directions of a cable.
#[derive(Drop)]
pub struct Cable {
    /// As the sender sees them: it writes the one towards the receiver, and reads the other.
    pub wire: Near,
    /// What the sender offered, with the scripted faults on it.
    pub out: Offers,
    /// What the receiver offered.
    pub back: Offers,
}

impl Model for Cable {
    ghost use Rattle.mq_ways.specs.Ways.{CableState};

    ghost Value = { CableState };

    ghost view = { λ c. record { out = record { items = c.wire.write; offers = c.out }; back = record { items = c.wire.read; offers = c.back } } };
}

impl Cable {
    /// A cable on which nothing was offered, with its scripted faults.
    ///
    /// # Errors
    ///
    /// No memory.
    pub fn new(alloc: Global, out: Faults, back: Faults) -> Result<Cable, NoMemory>
        ensures out { IfOk result (λ cable. IsNew out cable.out) }
        ensures back { IfOk result (λ cable. IsNew back cable.back) }
    {
        let write = Items::new(alloc)?;
        let read = Items::new(alloc)?;
        Ok(Cable {
            wire: Near {
                read,
                write,
                fulls: 0,
                empties: 0,
            },
            out: Offers::new(alloc, out),
            back: Offers::new(alloc, back),
        })
    }
}
