//! The start of a log: its bytes are read, or an empty log is made.
ghost use Rattle.std.specs.Prelude.{◌≡◌, ◌⊎◌, ◌+◌, ◌-◌, ◌≤◌, ◌<◌, min, max, ℕ, List, [], ◌∷◌, length, take, true, false, OnOk, OnErr, IfOk, IfErr, IsErrOf, vec_len};
ghost use Rattle.mq_disk.specs.from_base.Outside.{Rose};
ghost use Rattle.mq_disk.specs.Disk.{Only, NothingNew};
ghost use Rattle.mq_disk.specs.Stops.{Within};
ghost use Rattle.mq_log.specs.declared.open.StartFault.TheVariants.{NoMemory, Disk};
ghost use Rattle.mq_log.specs.Bodies.{IsLog};
ghost use Rattle.mq_log.specs.State.{front_bodies};
ghost use Rattle.mq_log.specs.Sound.{Sound};
ghost use Rattle.mq_log.specs.Open.{IsBadOf, IsNotBad, Reads, StartEnds, start_calls};

use crate::scan::{Gate, scan};
use mq_disk::{Cutter, Disk, Failed, Stop};
use std::alloc::{AllocError, AllocFailed, Global};

/// How many bytes one call reads at most.
const PIECE: usize = 4096;

/// Why a log can't be started.
#[derive(Clone, Copy, Debug, PartialEq, Eq)]
pub enum StartFault {
    /// The disk failed, and its count of faults rose.
    Disk,
    /// A cut was armed for one of the calls.
    Cut,
    /// The bytes aren't a log: behind the open gate at this place the length, the body or the next gate don't fit.
    BadLog(u64),
    /// The memory for the bytes of the log couldn't be taken.
    NoMemory,
}

impl From<AllocError> for StartFault {
    ghost from_gives = { λ _ e. e ≡ NoMemory };

    fn from(_: AllocError) -> Self {
        StartFault::NoMemory
    }
}

impl<T: Drop> From<AllocFailed<T>> for StartFault {
    ghost from_gives = { λ _ e. e ≡ NoMemory };

    fn from(_: AllocFailed<T>) -> Self {
        StartFault::NoMemory
    }
}

impl From<Failed> for StartFault {
    ghost from_gives = { λ _ e. e ≡ Disk };

    fn from(_: Failed) -> Self {
        StartFault::Disk
    }
}

impl From<Stop> for StartFault {
    ghost use Rattle.mq_log.specs.Open.{fault_of};

    ghost from_gives = { λ s e. e ≡ fault_of s };

    fn from(stop: Stop) -> Self {
        match stop {
            Stop::Cut => StartFault::Cut,
            Stop::Disk => StartFault::Disk,
        }
    }
}

// An empty log: one closed gate.
fn fresh<D: Disk>(disk: &mut Cutter<D>) -> Result<(), Stop>
    requires passes { disk.old.stopped ≡ false }
    requires settled { D.tells → Only (D.seen disk.old.inner) (D.may_leave disk.old.inner) }
    requires short { D.tells → length (D.seen disk.old.inner) ≤ 1 }
    ensures ends { Within 2 disk.old.armed disk.old.stopped result disk.new.armed disk.new.stopped }
    ensures size { OnOk result (D.size disk.new.inner ≡ 1) }
    ensures written { D.tells → OnOk result (D.seen disk.new.inner ≡ 0 ∷ []) }
    ensures durable { D.tells → OnOk result (Only (D.seen disk.new.inner) (D.may_leave disk.new.inner)) }
    ensures images { D.tells → (c : List ℕ) → D.may_leave disk.new.inner c → (d : List ℕ) × D.may_leave disk.old.inner d × (length c ≤ 1) }
    ensures later { D.faults disk.old.inner ≤ D.faults disk.new.inner }
    ensures disk { IsErrOf result Stop.Disk → Rose (D.faults disk.old.inner) (D.faults disk.new.inner) }
{
    disk.cut(0)?;
    disk.write_at(0, &[0])?;
    disk.sync()?;
    Ok(())
}

// Makes an empty log on a disk that holds none.
fn fresh_log<D: Disk>(alloc: Global, disk: &mut Cutter<D>) -> Result<Vec<u8>, StartFault>
    requires passes { disk.old.stopped ≡ false }
    requires settled { D.tells → Only (D.seen disk.old.inner) (D.may_leave disk.old.inner) }
    requires short { D.tells → length (D.seen disk.old.inner) ≤ 1 }
    ensures sound { IfOk result (λ bytes. Sound D.tells (D.size disk.new.inner) (D.seen disk.new.inner) (D.may_leave disk.new.inner) disk.new.stopped bytes.items (vec_len bytes - 1) true) }
    ensures read { D.tells → IfOk result (λ bytes. IsLog (D.seen disk.old.inner) (front_bodies (vec_len bytes - 1) bytes.items)) }
    ensures images { D.tells → Reads (D.may_leave disk.old.inner) (D.may_leave disk.new.inner) }
    ensures one { IfOk result (λ bytes. vec_len bytes ≡ 1) }
    ensures ends { StartEnds 2 0 disk.old.armed disk.old.stopped result disk.new.armed disk.new.stopped }
    ensures bad { IfErr result IsNotBad }
    ensures later { D.faults disk.old.inner ≤ D.faults disk.new.inner }
    ensures disk { IsErrOf result StartFault.Disk → Rose (D.faults disk.old.inner) (D.faults disk.new.inner) }
{
    let bytes = [0].to_vec(alloc)?;
    fresh(disk)?;
    Ok(bytes)
}

// Reads the next piece behind what was read.
fn read_more<D: Disk>(
    disk: &mut Cutter<D>,
    bytes: &mut Vec<u8>,
    size: u64,
) -> Result<(), StartFault>
    requires passes { disk.old.stopped ≡ false }
    requires size { size ≡ D.size disk.old.inner }
    requires left { length bytes.old.items < size }
    ensures read { D.tells → bytes.old.items ≡ take (length bytes.old.items) (D.seen disk.old.inner) → OnOk result (bytes.new.items ≡ take (length bytes.new.items) (D.seen disk.old.inner)) }
    ensures front { OnOk result (take (length bytes.old.items) bytes.new.items ≡ bytes.old.items) }
    ensures longer { OnOk result ((length bytes.old.items < length bytes.new.items) × (length bytes.new.items ≤ size)) }
    ensures size { D.size disk.new.inner ≡ D.size disk.old.inner }
    ensures seen { D.tells → D.seen disk.new.inner ≡ D.seen disk.old.inner }
    ensures crash { D.tells → NothingNew (D.may_leave disk.old.inner) (D.may_leave disk.new.inner) }
    ensures ends { StartEnds 0 0 disk.old.armed disk.old.stopped result disk.new.armed disk.new.stopped }
    ensures bad { IfErr result IsNotBad }
    ensures later { D.faults disk.old.inner ≤ D.faults disk.new.inner }
    ensures disk { IsErrOf result StartFault.Disk → Rose (D.faults disk.old.inner) (D.faults disk.new.inner) }
{
    let from = bytes.len() as u64;
    let mut piece = [0u8; PIECE];
    let more = (PIECE as u64).min(size - from) as usize;
    let part = &mut piece[..more];
    disk.read_at(from, part)?;
    bytes.extend_from_slice(part)?;
    Ok(())
}

// No byte, with room for so many where there is memory for them; without it they are read into a list that grows.
fn with_room(alloc: Global, size: u64) -> Vec<u8>
    ensures items { result.items ≡ [] }
    ensures len { vec_len result ≡ 0 }
{
    let mut bytes = Vec::new(alloc);
    if bytes.reserve(size as usize).is_err() {
        return bytes;
    }
    bytes
}

// Reads the log of a disk of this size, once and in pieces, up to the first gate that isn't open.
fn read_log<D: Disk>(alloc: Global, disk: &mut Cutter<D>, size: u64) -> Result<Vec<u8>, StartFault>
    requires passes { disk.old.stopped ≡ false }
    requires settled { D.tells → Only (D.seen disk.old.inner) (D.may_leave disk.old.inner) }
    requires size { size ≡ D.size disk.old.inner }
    requires some { 1 < size }
    ensures sound { IfOk result (λ bytes. Sound D.tells (D.size disk.new.inner) (D.seen disk.new.inner) (D.may_leave disk.new.inner) disk.new.stopped bytes.items (vec_len bytes - 1) true) }
    ensures read { D.tells → IfOk result (λ bytes. IsLog (D.seen disk.old.inner) (front_bodies (vec_len bytes - 1) bytes.items)) }
    ensures crash { D.tells → NothingNew (D.may_leave disk.old.inner) (D.may_leave disk.new.inner) }
    ensures ends { StartEnds 0 0 disk.old.armed disk.old.stopped result disk.new.armed disk.new.stopped }
    ensures bad { D.tells → IfErr result (IsBadOf (D.seen disk.old.inner)) }
    ensures later { D.faults disk.old.inner ≤ D.faults disk.new.inner }
    ensures disk { IsErrOf result StartFault.Disk → Rose (D.faults disk.old.inner) (D.faults disk.new.inner) }
{
    let mut bytes = with_room(alloc, size);
    let mut at = 0;
    'reading: loop {
        read_more(disk, &mut bytes, size)?;
        match scan(&bytes, at, size) {
            Gate::Closed(end) => {
                bytes.truncate(end + 1);
                return Ok(bytes);
            }
            Gate::Bad(place) => return Err(StartFault::BadLog(place as u64)),
            Gate::More(gate) => at = gate,
        }
    }
}

/// Reads the log that stands on a disk, and makes an empty one where there is none.
pub fn open_log<D: Disk>(alloc: Global, disk: &mut Cutter<D>) -> Result<Vec<u8>, StartFault>
    ensures sound { IfOk result (λ bytes. Sound D.tells (D.size disk.new.inner) (D.seen disk.new.inner) (D.may_leave disk.new.inner) disk.new.stopped bytes.items (vec_len bytes - 1) true) }
    ensures read { D.tells → IfOk result (λ bytes. IsLog (D.seen disk.old.inner) (front_bodies (vec_len bytes - 1) bytes.items)) }
    ensures images { D.tells → Reads (D.may_leave disk.old.inner) (D.may_leave disk.new.inner) }
    ensures few { IfOk result (λ bytes. D.size disk.old.inner < 2 → vec_len bytes ≡ 1) }
    ensures ends { StartEnds (start_calls (D.size disk.old.inner)) 1 disk.old.armed disk.old.stopped result disk.new.armed disk.new.stopped }
    ensures bad { D.tells → IfErr result (IsBadOf (D.seen disk.old.inner)) }
    ensures later { D.faults disk.old.inner ≤ D.faults disk.new.inner }
    ensures disk { IsErrOf result StartFault.Disk → Rose (D.faults disk.old.inner) (D.faults disk.new.inner) }
{
    disk.sync()?;
    let size = disk.len()?;
    if size < 2 {
        fresh_log(alloc, disk)
    } else {
        read_log(alloc, disk, size)
    }
}
