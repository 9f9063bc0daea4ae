//! The managers of a scenario begin over a shelf.
ghost use Rattle.std.specs.Prelude.{◌≡◌, ◌+◌, ◌<◌, ◌≤◌, [], MatchResult, map, vec_len, vec_capacity};
ghost use Rattle.mq_begin.specs.declared.faults.NetFault.TheVariants as faults;
ghost use Rattle.mq_history.specs.Scenarios.{IsScenario};
ghost use Rattle.mq_disk.specs.declared.shelf.Side.TheVariants as sides;
ghost use Rattle.mq_begin.specs.Begun.{NotBegan, moment_or};
ghost use Rattle.mq_world_begin.specs.Rested.{Began};

use crate::opened::{histories_of, owns_of};
use crate::rested::Rested;
use mq_begin::{Begun, NetFault, NoNet, begin_managers, disks_of};
use mq_disk::{Disk, Shelf};
use mq_history::Scenario;
use std::alloc::Global;
use std::snapshot::Snapshot;

/// There was no memory for what is kept beside managers that had begun: their disks.
fn no_memory<D: Disk>(begun: Begun<D>) -> NoNet<D>
    requires none { begun.disks.items ≡ [] }
    requires room { vec_len begun.disks + vec_len begun.managers < vec_capacity begun.disks }
    ensures fault { result.fault ≡ faults.NoMemory }
    ensures counts { map D.faults result.disks.items ≡ map (λ m. m.faults) begun.managers.items }
{
    let Begun { managers, disks } = begun;
    NoNet {
        fault: NetFault::NoMemory,
        disks: disks_of(managers, disks),
    }
}

/// The managers of a scenario begin over a shelf, in its order, each from the log on its own disk, with the ends of its channels. None has
/// done anything.
///
/// # Errors
///
/// The first fault: the shelf or a disk failed, a manager's bytes are no log of it, or there was no memory. The disks that
/// were taken are handed back.
pub fn begin_at_rest<H: Shelf>(
    alloc: Global,
    scenario: &Scenario,
    shelf: &mut H,
    start: u64,
) -> Result<Rested<H::D>, NoNet<H::D>>
    requires scenario { IsScenario scenario.now }
    ensures told { MatchResult result (λ rested. Began H.D.tells (λ n b. H.holds shelf.old n sides.A b) scenario.now (moment_or scenario.now.moment start) rested) (λ e. NotBegan H.D.tells (λ n b. H.holds shelf.old n sides.A b) (moment_or scenario.now.moment start) scenario.now.managers (H.faults shelf.old) (H.faults shelf.new) (map H.D.faults e.disks.items) e.fault) }
    ensures later { H.faults shelf.old ≤ H.faults shelf.new }
{
    let begun = match begin_managers(alloc, scenario, shelf, start) {
        Ok(begun) => begun,
        Err(refused) => return Err(refused),
    };
    let histories = match histories_of(alloc, begun.managers.as_slice()) {
        Ok(histories) => histories,
        Err(_) => return Err(no_memory(begun)),
    };
    let owns = match owns_of(alloc, scenario, begun.managers.as_slice()) {
        Ok(owns) => owns,
        Err(_) => return Err(no_memory(begun)),
    };
    let Begun { managers, disks } = begun;
    Ok(Rested {
        scenario: Snapshot::of(scenario),
        managers,
        owns,
        histories,
        disks,
    })
}
