//! A manager's first start.
ghost use Rattle.std.specs.Prelude.{◌≡◌, ◌+◌, ◌^◌, ◌<◌, ◌≤◌, ℕ, List, false, IfErr, MatchResult};
ghost use Rattle.mq_log.specs.Open.{Reads};
ghost use Rattle.mq_log.specs.State.{IsLogOf};
ghost use Rattle.mq_spec_manager.specs.Words.{last_moment};
ghost use Rattle.mq_calls.specs.declared.commands.BeginFault.TheVariants as faults;
ghost use Rattle.mq_calls.specs.State.{Given};
ghost use Rattle.mq_spec_log.specs.Applies.Start.{First};
ghost use Rattle.mq_restart.specs.Begun.{given_by, begin_fault, recovered_fault, IsOpened, HasOpened, BeginsFrom, IsReadFrom, HasBegun, HasNotBegun, LeavesLog, LeavesAsWas};

use crate::aside::make_room;
use crate::images::built_of;
use crate::parts::core_of;
use mq_base::{NoMemory, QName};
use mq_calls::BeginFault;
use mq_disk::{Cutter, Disk, Stop};
use mq_log::{Log, StartFault};
use mq_rebuild::Built;
use mq_record::started_bytes;
use mq_recover::{RecoverFault, Start};
use mq_redo::below::Core;
use std::alloc::Global;

/// A manager that was not begun, with its disk for a later start.
#[derive(Drop)]
pub struct Unbegun<D: Disk> {
    /// Why it was not.
    pub fault: BeginFault,
    /// The disk.
    pub disk: Cutter<D>,
}

// (where no cut is armed, none is met)
fn begin_fault(fault: StartFault) -> BeginFault
    ensures { result ≡ begin_fault fault }
{
    match fault {
        StartFault::Disk => BeginFault::Disk,
        StartFault::Cut => BeginFault::Disk,
        StartFault::BadLog(place) => BeginFault::BadLog(place),
        StartFault::NoMemory => BeginFault::NoMemory,
    }
}

// (so of its write)
fn stop_fault(stop: Stop) -> BeginFault
    ensures { result ≡ faults.Disk }
{
    match stop {
        Stop::Cut => BeginFault::Disk,
        Stop::Disk => BeginFault::Disk,
    }
}

fn recover_fault(fault: RecoverFault) -> BeginFault
    ensures { result ≡ recovered_fault fault }
{
    match fault {
        RecoverFault::BadRecord(place) => BeginFault::BadLog(place),
        RecoverFault::NoMemory => BeginFault::NoMemory,
    }
}

fn handed_back<D: Disk>(fault: BeginFault, log: Log<D>) -> Unbegun<D>
    ensures fault { result.fault ≡ fault }
    ensures faults { D.faults result.disk.inner ≡ log.faults }
    ensures left { D.tells → (c : List ℕ) → D.may_leave result.disk.inner c → IsLogOf log.bodies log.pending c }
{
    Unbegun {
        fault,
        disk: log.end(),
    }
}

/// The log of a first start.
fn opened<D: Disk>(alloc: Global, disk: Cutter<D>, max: u64) -> Result<Log<D>, Unbegun<D>>
    requires armed { disk.armed ≡ 0 }
    requires passes { disk.stopped ≡ false }
    ensures opened { MatchResult result (λ log. HasOpened D.tells (D.seen disk.inner) (D.faults disk.inner) max log) (λ e. (g : Given) → HasNotBegun D.tells (D.seen disk.inner) g (D.faults disk.inner) e.fault (D.faults e.disk.inner)) }
    ensures left { D.tells → IfErr result (λ e. Reads (D.may_leave disk.inner) (D.may_leave e.disk.inner)) }
{
    match Log::start(alloc, disk, max) {
        Ok(log) => Ok(log),
        Err(unstarted) => {
            let fault = begin_fault(unstarted.fault);
            Err(Unbegun {
                fault,
                disk: unstarted.disk,
            })
        }
    }
}

/// The Started record of a manager that was built is forced, and it is up.
fn begin_built<D: Disk>(
    alloc: Global,
    number: u8,
    name: &QName,
    moment: u64,
    built: Built,
    mut log: Log<D>,
) -> Result<Core<D>, Unbegun<D>>
    requires opened { IsOpened log.max log }
    requires max { log.max < 2 ^ 32 }
    requires moment { moment ≤ last_moment }
    requires read { IsReadFrom (given_by number name.now log.max) First log.bodies built }
    ensures begun { MatchResult result (λ core. BeginsFrom D.tells log (given_by number name.now log.max) moment core) (λ e. (seen : List ℕ) → HasNotBegun D.tells seen (given_by number name.now log.max) log.faults e.fault (D.faults e.disk.inner)) }
    ensures left { D.tells → IfErr result (λ e. LeavesLog (given_by number name.now log.max) log.bodies e.fault (D.may_leave e.disk.inner)) }
{
    match make_room(&mut log, &built) {
        Ok(()) => {}
        Err(NoMemory) => return Err(handed_back(BeginFault::NoMemory, log)),
    }
    let record = started_bytes(number, name, built.incarnation + 1);
    match log.append_forced(&record) {
        Ok(()) => Ok(core_of(alloc, number, name, moment, built, log)),
        Err(stop) => {
            let fault = stop_fault(stop);
            Err(handed_back(fault, log))
        }
    }
}

/// A manager's first start, of the log on a disk: it has what its log tells, and its own Started record behind it. On an
/// empty disk there is no log, and the manager begins with nothing.
///
/// # Errors
///
/// `Disk` only where the disk's count of faults rose; `BadLog`, where the disk tells its bytes, only where these are no log
/// of this manager, with the place of the gate at fault; `NoMemory`. The disk is handed back: what a crash may leave of it is what it
/// might have left before, or the log that stood there, with the Started record behind it only where its write was stopped.
pub fn begin<D: Disk>(
    alloc: Global,
    number: u8,
    name: &QName,
    disk: Cutter<D>,
    max: u64,
    moment: u64,
) -> Result<Core<D>, Unbegun<D>>
    requires low { 1 ≤ number }
    requires high { number ≤ 8 }
    requires max { max ≤ 268435456 }
    requires moment { moment ≤ last_moment }
    requires armed { disk.armed ≡ 0 }
    requires passes { disk.stopped ≡ false }
    ensures begun { MatchResult result (λ core. HasBegun D.tells (D.seen disk.inner) (D.faults disk.inner) (given_by number name.now max) moment core) (λ e. HasNotBegun D.tells (D.seen disk.inner) (given_by number name.now max) (D.faults disk.inner) e.fault (D.faults e.disk.inner)) }
    ensures left { D.tells → IfErr result (λ e. LeavesAsWas (D.may_leave disk.inner) (D.seen disk.inner) (given_by number name.now max) e.fault (D.may_leave e.disk.inner)) }
{
    let log = match opened(alloc, disk, max) {
        Ok(log) => log,
        Err(unbegun) => return Err(unbegun),
    };
    match built_of(alloc, number, name, Start::First, &log) {
        Ok(built) => match begin_built(alloc, number, name, moment, built, log) {
            Ok(core) => Ok(core),
            Err(unbegun) => Err(unbegun),
        },
        Err(fault) => {
            let fault = recover_fault(fault);
            Err(handed_back(fault, log))
        }
    }
}
