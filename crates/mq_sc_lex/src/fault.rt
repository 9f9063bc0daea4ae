//! Why a text has no commands.

ghost use Rattle.std.specs.Prelude.{◌≡◌};
ghost use Rattle.mq_sc_lex.specs.declared.fault.LexFault.TheVariants.{NoMemory};

use std::alloc::AllocError;
use thiserror::Error;

/// Why a text has no commands.
#[derive(Clone, Copy, Debug, Error)]
pub enum LexFault {
    /// A quote on this line, counted from 1, is not closed on its command.
    #[error("line {0}: a quote is not closed")]
    OpenQuote(usize),
    /// The last line goes on, and no line follows.
    #[error("the last line is continued")]
    OpenContinuation,
    /// Memory ran out.
    #[error("out of memory")]
    NoMemory,
}

impl From<AllocError> for LexFault {
    ghost from_gives = { λ _ e. e ≡ NoMemory };

    fn from(_: AllocError) -> Self {
        LexFault::NoMemory
    }
}
