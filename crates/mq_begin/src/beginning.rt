//! All managers of a scenario begin over a shelf, in the scenario's order.
ghost use Rattle.std.specs.Prelude.{◌≡◌, ◌+◌, ◌++◌, [], ◌<◌, ◌≤◌, ◌∷◌, IfOk, length, map, option_map, option_to_list, MatchResult, vec_len, vec_capacity};
ghost use Rattle.mq_history.specs.Scenarios.{IsScenario};
ghost use Rattle.mq_disk.specs.declared.shelf.Side.TheVariants as sides;
ghost use Rattle.mq_begin.specs.declared.faults.NetFault.TheVariants as faults;
ghost use Rattle.mq_begin.specs.Begun.{AllBegan, NotBegan, moment_or};

use crate::faults::{Begun, NetFault, NoNet};
use crate::one::{Refused, begin_one};
use mq_disk::{Cutter, Disk, Shelf};
use mq_history::Scenario;
use mq_manager::Manager;
use mq_manager::below::{Core, Parts};
use std::alloc::Global;

/// The moment with which the managers begin: that of the scenario, if it has one, or that of the start, which is taken as
/// 253,300,000,000,000 where it is above that.
pub fn first_moment(scenario: &Scenario, start: u64) -> u64
    ensures { result ≡ moment_or scenario.now.moment start }
{
    match scenario.moment {
        Some(moment) => moment,
        None => start.min(253_300_000_000_000),
    }
}

/// The disk under the log of these parts; each other part is dropped by one call.
fn disk_in<D: Disk>(parts: Parts<D>) -> D
    ensures { D.faults result ≡ parts.log.faults }
{
    let Parts {
        alloc: _,
        number: _,
        name: _,
        mode,
        defs,
        queues,
        live,
        ends,
        moment: _,
        incarnation: _,
        idents: _,
        log,
        body,
    } = parts;
    drop(mode);
    drop(defs);
    drop(queues);
    drop(live);
    drop(ends);
    drop(body);
    let Cutter {
        inner,
        armed: _,
        stopped: _,
    } = log.end();
    inner
}

/// The disk of a manager. It takes no memory.
fn disk_of<D: Disk>(manager: Manager<D>) -> D
    ensures { D.faults result ≡ manager.faults }
{
    let Manager {
        core,
        read: _,
        told,
    } = manager;
    drop(told);
    let Core {
        parts,
        effects,
        stopped: _,
    } = core;
    drop(effects);
    disk_in(parts)
}

/// One disk more, in room that was taken.
fn with_disk<D: Disk>(mut disks: Vec<D>, disk: D) -> Vec<D>
    requires room { vec_len disks < vec_capacity disks }
    ensures items { result.items ≡ disks.items ++ disk ∷ [] }
    ensures len { vec_len result ≡ vec_len disks + 1 }
    ensures capacity { vec_capacity result ≡ vec_capacity disks }
{
    disks.push_reserved(disk);
    disks
}

/// One manager more, likewise.
fn with_manager<D: Disk>(mut managers: Vec<Manager<D>>, manager: Manager<D>) -> Vec<Manager<D>>
    requires room { vec_len managers < vec_capacity managers }
    ensures items { result.items ≡ managers.items ++ manager ∷ [] }
    ensures len { vec_len result ≡ vec_len managers + 1 }
    ensures capacity { vec_capacity result ≡ vec_capacity managers }
{
    managers.push_reserved(manager);
    managers
}

/// The disk of the manager that was not begun, if it was taken, behind the others.
fn with_own<D: Disk>(disks: Vec<D>, own: Option<D>) -> Vec<D>
    requires room { vec_len disks < vec_capacity disks }
    ensures { result.items ≡ disks.items ++ option_to_list own }
{
    match own {
        Some(disk) => with_disk(disks, disk),
        None => disks,
    }
}

/// The disks of managers, in their order, in room that was taken. It takes no memory.
pub fn disks_of<D: Disk>(managers: Vec<Manager<D>>, disks: Vec<D>) -> Vec<D>
    requires none { disks.items ≡ [] }
    requires room { vec_len disks + vec_len managers < vec_capacity disks }
    ensures faults { map D.faults result.items ≡ map (λ m. m.faults) managers.items }
    ensures room { vec_len result < vec_capacity result }
{
    let mut left = managers;
    left.reverse();
    let mut disks = disks;
    while let Some(manager) = left.pop() {
        disks = with_disk(disks, disk_of(manager));
    }
    disks
}

/// The disks of managers that had begun, in their order, and that of the one that did not, if it was taken.
fn hand_back<D: Disk>(managers: Vec<Manager<D>>, disks: Vec<D>, refused: Refused<D>) -> NoNet<D>
    requires none { disks.items ≡ [] }
    requires room { vec_len disks + vec_len managers < vec_capacity disks }
    ensures fault { result.fault ≡ refused.fault }
    ensures counts { map D.faults result.disks.items ≡ map (λ m. m.faults) managers.items ++ option_to_list (option_map D.faults refused.disk) }
{
    let Refused { fault, disk } = refused;
    let disks = with_own(disks_of(managers, disks), disk);
    NoNet { fault, disks }
}

/// Nothing was taken.
fn no_room<D: Disk>(alloc: Global) -> NoNet<D>
    ensures fault { result.fault ≡ faults.NoMemory }
    ensures none { result.disks.items ≡ [] }
{
    NoNet {
        fault: NetFault::NoMemory,
        disks: Vec::new(alloc),
    }
}

/// Begins the managers of a scenario in its order, each over its own disk of the shelf.
///
/// # Errors
///
/// The first fault: the shelf or a disk failed, a manager's bytes are no log of it, or there was no memory. The disks that
/// were taken are handed back.
pub fn begin_managers<H: Shelf>(
    alloc: Global,
    scenario: &Scenario,
    shelf: &mut H,
    start: u64,
) -> Result<Begun<H::D>, NoNet<H::D>>
    requires scenario { IsScenario scenario.now }
    ensures told { MatchResult result (λ begun. AllBegan H.D.tells (λ n b. H.holds shelf.old n sides.A b) (moment_or scenario.now.moment start) 0 scenario.now.managers begun.managers.items) (λ e. NotBegan H.D.tells (λ n b. H.holds shelf.old n sides.A b) (moment_or scenario.now.moment start) scenario.now.managers (H.faults shelf.old) (H.faults shelf.new) (map H.D.faults e.disks.items) e.fault) }
    ensures room { IfOk result (λ begun. (begun.disks.items ≡ []) × (vec_len begun.managers ≡ length scenario.now.managers) × (vec_len begun.disks + vec_len begun.managers < vec_capacity begun.disks)) }
    ensures later { H.faults shelf.old ≤ H.faults shelf.new }
{
    let moment = first_moment(scenario, start);
    let count = scenario.managers.len();
    let mut managers = match Vec::with_capacity(alloc, count) {
        Ok(managers) => managers,
        Err(_) => return Err(no_room(alloc)),
    };
    let disks = match Vec::with_capacity(alloc, count + 1) {
        Ok(disks) => disks,
        Err(_) => return Err(no_room(alloc)),
    };
    for line in scenario.managers.as_slice() {
        match begin_one(alloc, shelf, managers.len() as u16, line, moment) {
            Ok(manager) => managers = with_manager(managers, manager),
            Err(refused) => return Err(hand_back(managers, disks, refused)),
        }
    }
    Ok(Begun { managers, disks })
}
