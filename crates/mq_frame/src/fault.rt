//! Why bytes give no frame.

ghost use Rattle.std.specs.Prelude.{◌≡◌};
ghost use Rattle.mq_frame.specs.declared.fault.Stop.TheVariants as stops;

use std::alloc::AllocError;

/// Why a piece of a frame can't be read from the front of some bytes.
#[derive(Clone, Copy)]
pub enum Miss {
    /// They end before it does.
    Short,
    /// From the first byte that can't stand there on, so many bytes are left.
    Wrong(usize),
}

/// Why a frame wasn't made of some bytes.
#[derive(Clone, Copy)]
pub enum Stop {
    NoMemory,
    /// The bytes are none, or not yet.
    Miss(Miss),
}

impl From<Miss> for Stop {
    ghost from_gives = { λ m e. e ≡ stops.Miss m };

    fn from(miss: Miss) -> Stop {
        Stop::Miss(miss)
    }
}

impl From<AllocError> for Stop {
    ghost from_gives = { λ _ e. e ≡ stops.NoMemory };

    fn from(_: AllocError) -> Stop {
        Stop::NoMemory
    }
}
