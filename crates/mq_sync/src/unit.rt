//! Units of a channel and their settlement. Source: distributed queuing, in-doubt channels; the names of units
//! are this project's own.

ghost use Rattle.std.specs.Prelude.{◌≡◌, ◌↔◌, Some};
ghost use Rattle.mq_sync.specs.Units.{settlement, unit_text};

use std::fmt;

/// A unit of a channel: the batch number `n` of a session, from 1 in each session. (0, 0) is none.
#[derive(Clone, Copy, PartialEq, Eq)]
pub struct Unit {
    pub session: u64,
    pub n: u64,
}

impl Unit {
    /// The name that stands for no unit.
    pub fn none() -> Unit
        ensures session { result.session ≡ 0 }
        ensures number { result.n ≡ 0 }
    {
        Unit { session: 0, n: 0 }
    }
}

impl fmt::Display for Unit {
    ghost output = { λ u. Some (unit_text u) };

    fn fmt<W: fmt::Write>(&self, f: &mut fmt::Formatter<W>) -> fmt::Result {
        let (session, n) = (self.session, self.n);
        write!(f, "{session}.{n}")
    }
}

/// What becomes of a unit in doubt.
#[derive(Clone, Copy, PartialEq, Eq)]
pub enum Settle {
    Commit,
    Backout,
}

/// A unit in doubt is committed exactly where it is the last one that its receiver committed. No memory is taken.
/// Source: distributed queuing, in-doubt channels (the partner's LSTLUWID against the own CURLUWID).
pub fn settle_of(in_doubt: Unit, last: Unit) -> Settle
    ensures value { result ≡ settlement in_doubt last }
    ensures commit { (result ≡ Settle.Commit) ↔ (in_doubt ≡ last) }
{
    if in_doubt == last {
        Settle::Commit
    } else {
        Settle::Backout
    }
}
