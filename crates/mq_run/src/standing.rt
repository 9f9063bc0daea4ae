//! How managers at rest stand, and the ends of their cables.
ghost use Rattle.std.specs.Prelude.{◌≡◌, ◌≤◌, ◌++◌, ◌∷◌, [], IfOk, OnOk, length, map};
ghost use Rattle.mq_run.specs.Words as words;

use mq_base::{Items, NoMemory};
use mq_core::Core;
use mq_disk::Disk;
use mq_history::{CableLine, Scenario};
use mq_law_ran::below::{manager_standing, receiver_standing, sender_standing};
use mq_net_stands::{CableStanding, ManagerStanding, ReceiverStanding, SenderStanding, Standing};
use mq_world::Rested;
use std::alloc::Global;

fn put_manager<D: Disk>(
    out: &mut Items<ManagerStanding>,
    alloc: Global,
    core: &Core<D>,
) -> Result<(), NoMemory>
    ensures { OnOk result (out.new ≡ out.old ++ words.manager_stands core.now ∷ []) }
{
    let standing = manager_standing(alloc, core)?;
    out.push(standing)?;
    Ok(())
}

fn put_managers<D: Disk>(
    alloc: Global,
    rested: &Rested<D>,
) -> Result<Items<ManagerStanding>, NoMemory>
    ensures { IfOk result (λ ms. ms ≡ map words.manager_stands rested.now.managers) }
{
    let mut managers = Items::new(alloc);
    for manager in rested.managers.as_slice() {
        put_manager(&mut managers, alloc, &manager.core)?;
    }
    Ok(managers)
}

/// How the sender's end of a cable stands at its manager.
fn sender_at<D: Disk>(rested: &Rested<D>, cable: u16, line: &CableLine) -> Option<SenderStanding>
    ensures { result ≡ words.sender_standing cable line.now.channel (words.node_at_rest rested.now line.now.sender) }
{
    let Some(manager) = rested.managers.get(line.sender as usize) else {
        return None;
    };
    match rested.owns.get(line.sender as usize) {
        None => None,
        Some(own) => sender_standing(&manager.core, own, cable, &line.channel),
    }
}

/// And the receiver's at its own.
fn receiver_at<D: Disk>(
    rested: &Rested<D>,
    cable: u16,
    line: &CableLine,
) -> Option<ReceiverStanding>
    ensures { result ≡ words.receiver_standing cable line.now.channel (words.node_at_rest rested.now line.now.receiver) }
{
    let Some(manager) = rested.managers.get(line.receiver as usize) else {
        return None;
    };
    match rested.owns.get(line.receiver as usize) {
        None => None,
        Some(own) => receiver_standing(&manager.core, own, cable, &line.channel),
    }
}

fn put_cable<D: Disk>(
    out: &mut Items<CableStanding>,
    rested: &Rested<D>,
    cable: u16,
    line: &CableLine,
) -> Result<(), NoMemory>
    ensures { OnOk result (out.new ≡ out.old ++ words.cable_stands rested.now cable line.now ∷ []) }
{
    let sender = sender_at(rested, cable, line);
    let receiver = receiver_at(rested, cable, line);
    out.push(CableStanding {
        channel: line.channel,
        sender,
        receiver,
    })?;
    Ok(())
}

fn put_cables<D: Disk>(
    alloc: Global,
    rested: &Rested<D>,
    lines: &[CableLine],
) -> Result<Items<CableStanding>, NoMemory>
    requires few { length lines.now ≤ 65536 }
    ensures { IfOk result (λ cs. cs ≡ words.cables_stand rested.now 0 lines.now) }
{
    let mut cables = Items::new(alloc);
    for (cable, line) in lines.iter().enumerate() {
        put_cable(&mut cables, rested, cable as u16, line)?;
    }
    Ok(cables)
}

/// How the managers of a scenario stand at rest, and the ends of its cables.
pub fn standing_at_rest<D: Disk>(
    alloc: Global,
    scenario: &Scenario,
    rested: &Rested<D>,
) -> Result<Standing, NoMemory>
    requires few { length scenario.now.cables ≤ 65536 }
    ensures { IfOk result (λ s. s ≡ words.stands_at_rest scenario.now rested.now) }
{
    let managers = put_managers(alloc, rested)?;
    let cables = put_cables(alloc, rested, scenario.cables.as_slice())?;
    Ok(Standing { managers, cables })
}
