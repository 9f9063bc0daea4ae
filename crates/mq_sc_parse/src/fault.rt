//! Why a line is no command.

ghost use Rattle.std.specs.Prelude.{◌≡◌};
ghost use Rattle.mq_sc_parse.specs.declared.fault.ScFault.TheVariants.{NoMemory};

use mq_sc_lex::Span;
use std::alloc::AllocError;
use thiserror::Error;

/// Why a line is no command, with the place of the token at fault. The first cause in this order is
/// told, and of one cause the first place.
#[derive(Clone, Copy, Debug, Error)]
pub enum ScFault {
    /// The first word is no verb.
    #[error("unknown verb at {0:?}")]
    UnknownVerb(Span),
    /// No object that goes with the verb.
    #[error("unknown object at {0:?}")]
    UnknownObject(Span),
    /// The object is not followed by one name in brackets that is not blank.
    #[error("a name is missing at {0:?}")]
    MissingName(Span),
    /// A keyword that the verb doesn't have for this object, or for the CHLTYPE that the command gives.
    #[error("unknown keyword at {0:?}")]
    UnknownKeyword(Span),
    /// A keyword that came before, itself, its opposite or its synonym.
    #[error("a repeated keyword at {0:?}")]
    Repeated(Span),
    /// A value that the keyword may not have; a keyword that is needed is missing (at the last token).
    #[error("a bad value at {0:?}")]
    BadValue(Span),
    /// Memory ran out.
    #[error("out of memory")]
    NoMemory,
}

impl From<AllocError> for ScFault {
    ghost from_gives = { λ _ e. e ≡ NoMemory };

    fn from(_: AllocError) -> Self {
        ScFault::NoMemory
    }
}
