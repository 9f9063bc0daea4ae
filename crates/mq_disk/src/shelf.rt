//! Where the disks of managers stand.
ghost use Rattle.std.specs.Prelude.{◌≡◌, ◌≤◌, ℕ, List, IfOk, OnErr, IsErrOf};
ghost use Rattle.mq_base.specs.Outside.{Rose};
ghost use Rattle.mq_disk.specs.declared.shelf.Side.{Side};

use crate::Disk;
use mq_base::QName;

/// A manager has two disks for its log. Side A is the first.
#[derive(Clone, Copy, PartialEq, Eq)]
pub enum Side {
    /// The first, in the file `NAME.a.qlog`.
    A,
    /// The second, in the file `NAME.b.qlog`.
    B,
}

/// Why a disk wasn't taken.
#[derive(Clone, Copy, Debug)]
pub enum TakeFault {
    /// There is no such disk, or it can't be opened. The shelf's count of faults rose.
    Failed,
    /// The memory of the disk or of its place on the shelf couldn't be taken.
    NoMemory,
}

/// Where the disks of managers stand.
pub trait Shelf {
    /// The disks of the shelf.
    type D: Disk;

    /// The bytes that the disk of a manager's side has, where the shelf tells them.
    ghost holds: { Self → List ℕ → Side → List ℕ → Type 0 };

    /// How often the shelf has failed, up to the last value of a u64.
    ghost faults: { Self → ℕ };

    /// Takes the disk of a manager's side. Its count of faults is 0.
    fn take(&mut self, name: &QName, side: Side) -> Result<Self::D, TakeFault>
        ensures fresh { IfOk result (λ d. Self.D.faults d ≡ 0) }
        ensures bytes { IfOk result (λ d. (b : List ℕ) → holds self.old name.now side b → Self.D.seen d ≡ b) }
        ensures others { (n : List ℕ) (s : Side) (b : List ℕ) → ((n ≡ name.now) × (s ≡ side) → ⊥) → holds self.old n s b → holds self.new n s b }
        ensures refused { OnErr result ((n : List ℕ) (s : Side) (b : List ℕ) → holds self.old n s b → holds self.new n s b) }
        ensures later { faults self.old ≤ faults self.new }
        ensures failed { IsErrOf result TakeFault.Failed → Rose (faults self.old) (faults self.new) };
}
