//! Writes that are on the disk when they return.
ghost use Rattle.std.specs.Prelude.{◌≡◌, ◌⊎◌, ◌+◌, ◌^◌, ◌≤◌, ◌<◌, max, ℕ, List, [], ◌∷◌, ◌++◌, length, take, drop, false, OnOk, OnErr, IsErrOf};
ghost use Rattle.mq_disk.specs.from_base.Outside.{Rose};
ghost use Rattle.mq_disk.specs.Disk.{Only, Torn, overwritten};
ghost use Rattle.mq_disk.specs.Stops.{Ends};
ghost use Rattle.mq_log.specs.Force.{StagedOrOpened};

use crate::scan::OPEN;
use mq_disk::{Cutter, Disk, Stop};

// Writes a piece and syncs.
fn write_synced<D: Disk>(disk: &mut Cutter<D>, place: u64, piece: &[u8]) -> Result<(), Stop>
    requires inside { place ≤ D.size disk.old.inner }
    requires settled { D.tells → Only (D.seen disk.old.inner) (D.may_leave disk.old.inner) }
    ensures ends { Ends 2 disk.old.armed disk.old.stopped result disk.new.armed disk.new.stopped }
    ensures size { OnOk result (D.size disk.new.inner ≡ max (D.size disk.old.inner) (place + length piece.now)) }
    ensures written { D.tells → OnOk result (D.seen disk.new.inner ≡ overwritten (D.seen disk.old.inner) place piece.now) }
    ensures durable { D.tells → OnOk result (Only (D.seen disk.new.inner) (D.may_leave disk.new.inner)) }
    ensures torn { D.tells → OnErr result ((c : List ℕ) → D.may_leave disk.new.inner c → (c ≡ D.seen disk.old.inner) ⊎ Torn place (length piece.now) (D.seen disk.old.inner) c) }
    ensures later { D.faults disk.old.inner ≤ D.faults disk.new.inner }
    ensures disk { IsErrOf result Stop.Disk → Rose (D.faults disk.old.inner) (D.faults disk.new.inner) }
{
    disk.write_at(place, piece)?;
    disk.sync()?;
    Ok(())
}

/// Writes a piece behind the gate at this place, and then opens the gate: four device calls.
pub fn force<D: Disk>(disk: &mut Cutter<D>, place: u64, piece: &[u8]) -> Result<(), Stop>
    requires inside { place + 1 ≤ D.size disk.old.inner }
    requires fits { place + 1 < 2 ^ 64 }
    requires settled { D.tells → Only (D.seen disk.old.inner) (D.may_leave disk.old.inner) }
    ensures ends { Ends 4 disk.old.armed disk.old.stopped result disk.new.armed disk.new.stopped }
    ensures size { OnOk result (place + 1 + length piece.now ≤ D.size disk.new.inner) }
    ensures written { D.tells → OnOk result (take (place + 1 + length piece.now) (D.seen disk.new.inner) ≡ take place (D.seen disk.old.inner) ++ 165 ∷ piece.now) }
    ensures durable { D.tells → OnOk result (Only (D.seen disk.new.inner) (D.may_leave disk.new.inner)) }
    ensures images { D.tells → OnErr result ((c : List ℕ) → D.may_leave disk.new.inner c → StagedOrOpened place piece.now (D.seen disk.old.inner) c) }
    ensures later { D.faults disk.old.inner ≤ D.faults disk.new.inner }
    ensures disk { IsErrOf result Stop.Disk → Rose (D.faults disk.old.inner) (D.faults disk.new.inner) }
{
    write_synced(disk, place + 1, piece)?;
    write_synced(disk, place, &[OPEN])?;
    Ok(())
}
