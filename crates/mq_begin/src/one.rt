//! One manager begins over a shelf.
ghost use Rattle.std.specs.Prelude.{◌≡◌, ◌<◌, ◌≤◌, ◌+◌, ℕ, List, MatchResult, option_map};
ghost use Rattle.mq_spec_manager.specs.Words.{last_moment};
ghost use Rattle.mq_disk.specs.declared.shelf.Side.{Side};
ghost use Rattle.mq_disk.specs.declared.shelf.Side.TheVariants as sides;
ghost use Rattle.mq_begin.specs.Begun.{BeginsOn, Refuses, given_at, net_fault, taken_fault};

use crate::faults::NetFault;
use mq_calls::BeginFault;
use mq_disk::{Cutter, Disk, Shelf, Side, TakeFault};
use mq_history::ManagerLine;
use mq_manager::Manager;
use std::alloc::Global;

/// A manager that was not begun, with its disk, if that was taken.
#[derive(Drop)]
pub(crate) struct Refused<D: Disk> {
    pub fault: NetFault,
    pub disk: Option<D>,
}

fn net_fault(place: u16, fault: BeginFault) -> NetFault
    ensures { result ≡ net_fault place fault }
{
    match fault {
        BeginFault::Disk => NetFault::DiskFault,
        BeginFault::BadLog(gate) => NetFault::BadLog(place, gate),
        BeginFault::NoMemory => NetFault::NoMemory,
    }
}

fn take_fault(fault: TakeFault) -> NetFault
    ensures { result ≡ taken_fault fault }
{
    match fault {
        TakeFault::Failed => NetFault::DiskFault,
        TakeFault::NoMemory => NetFault::NoMemory,
    }
}

/// Takes the disk of a manager and begins it from the log there.
pub(crate) fn begin_one<H: Shelf>(
    alloc: Global,
    shelf: &mut H,
    place: u16,
    line: &ManagerLine,
    moment: u64,
) -> Result<Manager<H::D>, Refused<H::D>>
    requires place { place < 8 }
    requires max { line.now.log_max ≤ 268435456 }
    requires moment { moment ≤ last_moment }
    ensures told { MatchResult result (λ m. BeginsOn H.D.tells (λ b. H.holds shelf.old line.now.name sides.A b) (given_at place line.now) moment m) (λ e. Refuses H.D.tells (λ b. H.holds shelf.old line.now.name sides.A b) place (given_at place line.now) (H.faults shelf.old) (H.faults shelf.new) (option_map H.D.faults e.disk) e.fault) }
    ensures others { (n : List ℕ) (s : Side) (b : List ℕ) → ((n ≡ line.now.name) × (s ≡ sides.A) → ⊥) → H.holds shelf.old n s b → H.holds shelf.new n s b }
    ensures later { H.faults shelf.old ≤ H.faults shelf.new }
{
    let disk = match shelf.take(&line.name, Side::A) {
        Ok(disk) => disk,
        Err(fault) => {
            return Err(Refused {
                fault: take_fault(fault),
                disk: None,
            });
        }
    };
    let number = place as u8 + 1;
    match Manager::begin(
        alloc,
        number,
        &line.name,
        Cutter::new(disk),
        u64::from(line.log_max),
        moment,
    ) {
        Ok(manager) => Ok(manager),
        Err(unbegun) => {
            let fault = net_fault(place, unbegun.fault);
            Err(Refused {
                fault,
                disk: Some(unbegun.disk.inner),
            })
        }
    }
}
