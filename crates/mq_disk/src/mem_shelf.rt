//! Disks in memory by name.
ghost use Rattle.std.specs.Prelude.{◌≡◌, ◌≤◌, ◌↔◌, ◌++◌, ℕ, List, [], ◌∷◌, false, None, IsTrue, IsOk, IfSome, IfOk, OnOk, OnErr, IsErrOf};
ghost use Rattle.mq_base.specs.Outside.{raised, Rose};
ghost use Rattle.mq_base.specs.Memory.{is_failing};
ghost use Rattle.mq_disk.specs.declared.shelf.Side.{Side};
ghost use Rattle.mq_disk.specs.Shelves.{IsOf, FirstAt, Stands};

use crate::counted::{fault, is_failing};
use crate::{Disk, Shelf, Side, TakeFault};
use mq_base::{NoMemory, QName};
use std::alloc::Global;
use std::marker::Model;

/// A disk and where it stands.
#[derive(Drop)]
pub struct Slot<D> {
    name: QName,
    side: Side,
    disk: D,
}

/// A shelf of disks that were put there. A disk that was taken is there no more. The takes that a list names fail,
/// counted from 0, and the takes of a disk that isn't there.
#[derive(Drop)]
pub struct MemShelf<D: Disk> {
    slots: Vec<Slot<D>>,
    failing: Vec<u64>,
    calls: u64,
    faults: u64,
}

impl<D: Disk> Model for MemShelf<D> {
    ghost use Rattle.std.specs.Prelude.{List, ℕ};
    ghost use Rattle.mq_disk.specs.Shelves.{AllFresh, ShelfState};

    ghost Value = { ShelfState D };

    ghost view = { λ s. record { slots = s.slots.items; failing = s.failing.items; calls = s.calls; faults = s.faults } };

    ghost invariant = { λ s. AllFresh D.faults s.slots.items };
}

impl<D> Slot<D> {
    fn is_of(&self, name: &QName, side: Side) -> bool
        ensures { IsTrue result ↔ IsOf self.now name.now side }
    {
        self.name == *name && self.side == side
    }
}

// The place of the first disk of that name and side.
fn find<D>(slots: &[Slot<D>], name: &QName, side: Side) -> Option<usize>
    ensures found { IfSome result (λ place. FirstAt slots.now name.now side place) }
    ensures nowhere { result ≡ None → (place : ℕ) → FirstAt slots.now name.now side place → ⊥ }
{
    let mut place = 0;
    for slot in slots {
        if slot.is_of(name, side) {
            return Some(place);
        }
        place += 1;
    }
    None
}

impl<D: Disk> MemShelf<D> {
    /// An empty shelf. The listed takes fail.
    pub fn new(alloc: Global, failing: Vec<u64>) -> Self
        ensures { result ≡ record { slots = []; failing = failing.items; calls = 0; faults = 0 } }
    {
        MemShelf {
            slots: Vec::new(alloc),
            failing,
            calls: 0,
            faults: 0,
        }
    }

    /// Puts a disk that hasn't failed behind the others.
    pub fn put(&mut self, name: QName, side: Side, disk: D) -> Result<(), NoMemory>
        requires { D.faults disk ≡ 0 }
        ensures ok { OnOk result (self.new ≡ record self.old { slots = self.old.slots ++ record { name = name; side = side; disk = disk } ∷ [] }) }
        ensures err { OnErr result (self.new ≡ self.old) }
    {
        self.slots.push(Slot { name, side, disk })?;
        Ok(())
    }
}

impl<D: Disk> Shelf for MemShelf<D> {
    type D = D;

    ghost holds = { λ s name side bytes. Stands D.seen s.slots name side bytes };

    ghost faults = { λ s. s.faults };

    fn take(&mut self, name: &QName, side: Side) -> Result<D, TakeFault>
        ensures fresh { IfOk result (λ d. D.faults d ≡ 0) }
        ensures bytes { IfOk result (λ d. (b : List ℕ) → Stands D.seen self.old.slots name.now side b → D.seen d ≡ b) }
        ensures others { (n : List ℕ) (s : Side) (b : List ℕ) → ((n ≡ name.now) × (s ≡ side) → ⊥) → Stands D.seen self.old.slots n s b → Stands D.seen self.new.slots n s b }
        ensures refused { OnErr result ((n : List ℕ) (s : Side) (b : List ℕ) → Stands D.seen self.old.slots n s b → Stands D.seen self.new.slots n s b) }
        ensures later { self.old.faults ≤ self.new.faults }
        ensures failed { IsErrOf result TakeFault.Failed → Rose self.old.faults self.new.faults }
        ensures there { is_failing self.old.failing self.old.calls ≡ false → (b : List ℕ) → Stands D.seen self.old.slots name.now side b → IsOk result }
        ensures counted { self.new ≡ record self.old { slots = self.new.slots; calls = raised self.old.calls; faults = self.new.faults } }
    {
        if is_failing(&self.failing, &mut self.calls) {
            fault(&mut self.faults);
            return Err(TakeFault::Failed);
        }
        match find(&self.slots, name, side) {
            Some(place) => Ok(self.slots.remove(place).disk),
            None => {
                fault(&mut self.faults);
                Err(TakeFault::Failed)
            }
        }
    }
}
