//! Why a text is no rules table.

ghost use Rattle.std.specs.Prelude.{◌≡◌};
ghost use Rattle.mq_rules_text.specs.Faults.{fault_at};

use std::alloc::AllocError;
use thiserror::Error;

/// Why a text is no rules table: the first line at fault. Lines are counted from 1; the line is that
/// on which its entry begins, and of an open quote the one on which the quote stands.
#[derive(Clone, Copy, Debug, PartialEq, Eq, Error)]
pub enum RulesFault {
    /// It isn't made of keywords with a value in brackets.
    #[error("line {0}: not a list of KEYWORD(value)")]
    BadLine(usize),
    /// A word that is no keyword here, or one given twice.
    #[error("line {0}: a keyword that can't stand here")]
    BadKeyword(usize),
    /// A value that its keyword doesn't take.
    #[error("line {0}: a value that its keyword doesn't take")]
    BadValue(usize),
    /// A rule without ACTION.
    #[error("line {0}: a rule without ACTION")]
    NoAction(usize),
    /// ACTION(FWD) without FWDQ.
    #[error("line {0}: ACTION(FWD) without FWDQ")]
    FwdqMissing(usize),
    /// Memory ran out.
    #[error("out of memory")]
    NoMemory,
}

/// What is wrong with an entry.
#[derive(Clone, Copy)]
pub enum Flaw {
    /// It isn't a list of KEYWORD(value).
    Form,
    /// A word that is no keyword of such an entry, or one given twice.
    Keyword,
    /// A value that its keyword doesn't take.
    Value,
    /// No ACTION.
    Action,
    /// ACTION(FWD) without FWDQ.
    Target,
    /// Memory ran out.
    Memory,
}

impl From<AllocError> for Flaw {
    ghost use Rattle.std.specs.Prelude.{◌≡◌};
    ghost use Rattle.mq_rules_text.specs.declared.fault.Flaw.TheVariants.{Memory};

    ghost from_gives = { λ _ e. e ≡ Memory };

    fn from(_: AllocError) -> Self {
        Flaw::Memory
    }
}

impl From<AllocError> for RulesFault {
    ghost use Rattle.std.specs.Prelude.{◌≡◌};
    ghost use Rattle.mq_rules_text.specs.declared.fault.RulesFault.TheVariants.{NoMemory};

    ghost from_gives = { λ _ e. e ≡ NoMemory };

    fn from(_: AllocError) -> Self {
        RulesFault::NoMemory
    }
}

/// The fault of an entry that begins on a line.
pub fn fault_at(line: usize, flaw: Flaw) -> RulesFault
    ensures { result ≡ fault_at line flaw }
{
    match flaw {
        Flaw::Form => RulesFault::BadLine(line),
        Flaw::Keyword => RulesFault::BadKeyword(line),
        Flaw::Value => RulesFault::BadValue(line),
        Flaw::Action => RulesFault::NoAction(line),
        Flaw::Target => RulesFault::FwdqMissing(line),
        Flaw::Memory => RulesFault::NoMemory,
    }
}
