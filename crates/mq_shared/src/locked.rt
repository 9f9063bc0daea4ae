//! What lies under a lock of a phase: a node with its ends and its scripts, and what its type keeps of them.
ghost use Rattle.std.specs.Prelude.{◌≡◌, ◌<◌, ◌^◌, IfSome, false, length, slice_get};
ghost use Rattle.std.specs.Bool.{OnTrue};
ghost use Rattle.mq_acts.specs.from_events.Events.{MayAct};
ghost use Rattle.mq_shared.specs.Held.{Kept, KeptOwn};

use crate::held::HeldScript;
use crate::trying::{Tried, try_line, try_timeout, try_turn};
use mq_acts::below::Node;
use mq_base::{Items, NoMemory};
use mq_disk::Disk;
use mq_split::HeldEnd;
use mq_takes::below::Turn;
use std::marker::{Brand, Model, PhantomData};
use std::sync::Wait;

/// With what a phase began. All its locks share this name.
pub trait PhaseName {
    ghost use Rattle.mq_shared.specs.Held.{Begun};

    ghost begun: { Begun };
}

impl PhaseName for Brand {
    ghost use Rattle.std.specs.Prelude.{[]};

    ghost begun = { record { nodes = []; lines = []; outs = []; backs = []; tries = []; ends = []; scripts = [] } };
}

/// A node under its lock, with the ends of its cables and its scripts of the phase. Each call is one event at most, with the trigger turns
/// behind it.
#[derive(Drop)]
pub struct Locked<'a, P: PhaseName, D: Disk, R: Wait> {
    manager: u16,
    node: Node<D>,
    ends: Items<HeldEnd<'a, R>>,
    scripts: Items<HeldScript<'a>>,
    wants: bool,
    of: PhantomData<P>,
}

impl<'a, P: PhaseName, D: Disk, R: Wait> Model for Locked<'a, P, D, R> {
    ghost use Rattle.mq_shared.specs.Held.{Held, Kept, KeptOwn};

    ghost Value = { Held };

    ghost view = { λ s. record { manager = s.manager; node = s.node; ends = s.ends; scripts = s.scripts; wants = s.wants } };

    ghost invariant = { λ s. Kept P.begun (record { manager = s.manager; node = s.node; ends = s.ends; scripts = s.scripts; wants = s.wants })
        × KeptOwn D.tells P.begun (record { manager = s.manager; node = s.node; ends = s.ends; scripts = s.scripts; wants = s.wants }) };
}

/// The parts of what lay under a lock.
#[derive(Drop)]
pub struct Unlocked<'a, D: Disk, R: Wait> {
    /// The manager's place in the scenario.
    pub manager: u16,
    pub node: Node<D>,
    pub ends: Items<HeldEnd<'a, R>>,
    pub scripts: Items<HeldScript<'a>>,
    /// Whether an event found no memory.
    pub wants: bool,
}

/// Whether an event more may happen: none found no memory, and the node has not made all its events.
fn may_go<D: Disk>(wants: bool, node: &Node<D>) -> bool
    ensures { OnTrue result ((wants ≡ false) × MayAct node.now) }
{
    !wants && !node.is_spent()
}

/// An end by its place, where it may take a turn.
fn may_turn<R: Wait>(ends: &Items<HeldEnd<'_, R>>, at: usize) -> bool
    ensures { OnTrue result ((at < length ends.now) × IfSome (slice_get ends.now at) (λ e. e.offers.number < 2 ^ 48)) }
{
    match ends.get(at) {
        None => false,
        Some(end) => end.offers.number() < 1 << 48,
    }
}

impl<'a, P: PhaseName, D: Disk, R: Wait> Locked<'a, P, D, R> {
    /// A node goes under its lock.
    pub fn new(
        manager: u16,
        node: Node<D>,
        ends: Items<HeldEnd<'a, R>>,
        scripts: Items<HeldScript<'a>>,
    ) -> Locked<'a, P, D, R>
        requires kept { Kept P.begun (record { manager = manager; node = node; ends = ends; scripts = scripts; wants = false }) }
        requires own { KeptOwn D.tells P.begun (record { manager = manager; node = node; ends = ends; scripts = scripts; wants = false }) }
        ensures { result ≡ record { manager = manager; node = node; ends = ends.entry; scripts = scripts.entry; wants = false } }
    {
        Locked {
            manager,
            node,
            ends,
            scripts,
            wants: false,
            of: PhantomData,
        }
    }

    #[tactic(auto, using(crate::proofs::KeptLaws::served_at))]
    /// Tries the next line of a script, by its place here. Ended as well where nothing more may happen.
    pub fn advance(&mut self, at: usize) -> Result<Tried, NoMemory> {
        if !may_go(self.wants, &self.node) {
            return Ok(Tried::Ended);
        }
        if at >= self.scripts.len() {
            return Ok(Tried::Ended);
        }
        self.node.facts();
        let tried = try_line(&mut self.node, self.scripts.at_mut(at));
        self.node.facts();
        self.wants = tried.is_err();
        tried
    }

    #[tactic(auto, using(crate::proofs::KeptLaws::served_at))]
    /// A turn of an end, by its place here. Still as well where nothing more may happen.
    pub fn turn(&mut self, at: usize) -> Result<Turn, NoMemory> {
        if !may_go(self.wants, &self.node) {
            return Ok(Turn::Still);
        }
        if !may_turn(&self.ends, at) {
            return Ok(Turn::Still);
        }
        self.node.facts();
        let turn = try_turn(&mut self.node, self.ends.at_mut(at));
        self.node.facts();
        self.wants = turn.is_err();
        turn
    }

    #[tactic(auto, using(crate::proofs::KeptLaws::served_at))]
    /// A timeout of the sender's end of a cable. Still as well where nothing more may happen.
    pub fn time_out(&mut self, cable: u16) -> Turn {
        if !may_go(self.wants, &self.node) {
            return Turn::Still;
        }
        self.node.facts();
        let turn = try_timeout(&mut self.node, cable);
        self.node.facts();
        turn
    }

    /// The parts, and what is known of them.
    pub fn into_parts(self) -> Unlocked<'a, D, R>
        ensures kept { Kept P.begun self.entry }
        ensures own { KeptOwn D.tells P.begun self.entry }
        ensures parts { self.entry ≡ record { manager = result.manager; node = result.node; ends = result.ends; scripts = result.scripts; wants = result.wants } }
    {
        let Locked {
            manager,
            node,
            ends,
            scripts,
            wants,
            of: _,
        } = self;
        Unlocked {
            manager,
            node,
            ends,
            scripts,
            wants,
        }
    }
}
