//! The rule of a direction that threads share, and what its passes know.
use crossbeam_queue::RuledArrayQueue;
use crossbeam_queue::protocol::{Join, Lesson, Outcome, Protocol, Split};
use mq_cable::Item;
use std::collections::LinkedList;

/// What a pass of a direction may do, what it has pushed and what it has popped. No value of it is made: it is what a
/// pass knows, and stands in proofs alone.
pub struct PassView {
    /// Whether it may push.
    pub pushes: bool,
    /// Whether it may pop.
    pub pops: bool,
    /// All items pushed, in order, where it may push.
    pub sent: LinkedList<Item>,
    /// All items popped, in order, where it may pop.
    pub received: LinkedList<Item>,
}

/// The rule of a direction: what was received, and then what it holds, is what was sent; no stamp is above 2^60.
pub struct PipeRule;

impl Protocol<Item, PassView> for PipeRule {
    ghost use Rattle.std.specs.Prelude.{true, []};
    ghost use Rattle.mq_ruled.specs.Rule.{knows, InOrder};

    ghost holds = { InOrder };

    ghost first = { knows true true [] [] };
}

/// One pass pushes and the other pops.
pub struct Roles;

impl Split<PassView> for Roles {
    ghost use Rattle.std.specs.Prelude.{true, false, []};
    ghost use Rattle.mq_ruled.specs.Rule.{knows};

    ghost left = { λ v. knows true false v.sent [] };

    ghost right = { λ v. knows false true [] v.received };
}

impl Join<PassView> for Roles {
    ghost use Rattle.std.specs.Prelude.{true, false, []};
    ghost use Rattle.mq_ruled.specs.Rule.{knows};

    ghost both = { λ v w. knows true true v.sent w.received };

    ghost spent = { knows false false [] [] };
}

/// Two passes that both push, which cannot be.
pub struct Clash;

impl Join<PassView> for Clash {
    ghost use Rattle.std.specs.Prelude.{true, false, [], ◌∷◌};
    ghost use Rattle.mq_ruled.specs.Rule.{knows, no_item};

    ghost both = { λ v w. knows true true [] (no_item ∷ []) };

    ghost spent = { knows false false [] [] };
}

/// A push, and what a refused one learns.
pub struct Pushes;

impl Outcome<Item, PassView> for Pushes {
    ghost use Rattle.mq_ruled.specs.Rule.{Pushed};

    ghost then = { Pushed };
}

impl Lesson<Item, PassView> for Pushes {
    ghost use Rattle.mq_ruled.specs.Rule.{Known};

    ghost fact = { Known };
}

/// A pop, and what one learns that finds nothing.
pub struct Pops;

impl Outcome<Item, PassView> for Pops {
    ghost use Rattle.mq_ruled.specs.Rule.{Popped};

    ghost then = { Popped };
}

impl Lesson<Item, PassView> for Pops {
    ghost use Rattle.mq_ruled.specs.Rule.{Known};

    ghost fact = { Known };
}

/// One direction that threads share.
pub type Pipe = RuledArrayQueue<Item, PassView, PipeRule>;
