//! The ends of a node's channels, as its manager begins.
ghost use Rattle.std.specs.Prelude.{◌≡◌, ◌∷◌, ◌≤◌, ◌<◌, [], All, IfOk, length, map, option_copied, option_to_list, slice_get};
ghost use Rattle.mq_history.specs.Scenarios.{IsCable};
ghost use Rattle.mq_calls.specs.Words.{receiver_data};
ghost use Rattle.mq_spec_node.specs.Words.{end_begun};
ghost use Rattle.mq_spec_network.specs.Given.{end_at, name_or, receives_at, sends_from};
ghost use Rattle.mq_owned.specs.Owned.{begun_from};

use mq_base::{ChName, Items, NoMemory, QName};
use mq_calls::Messages;
use mq_core::Core;
use mq_disk::Disk;
use mq_history::{CableLine, ManagerLine, Scenario};
use mq_own::{ChannelEnd, EndKind, ReceiverEnd, SenderEnd};
use mq_receiver::Receiver;
use mq_sender::Sender;
use mq_sides::receiver_of;
use mq_sync::ReceiverData;
use std::alloc::Global;

/// The name of a manager.
fn name_of(managers: &Items<ManagerLine>, manager: u16) -> QName
    requires there { manager < length managers.now }
    ensures { result ≡ name_or (slice_get managers.now manager) }
{
    match managers.get(usize::from(manager)) {
        Some(line) => line.name,
        None => unreachable!(),
    }
}

/// What the receiver of a channel has hardened.
fn hardened<'a, D: Disk>(core: &'a Core<D>, channel: &ChName) -> Option<&'a ReceiverData>
    ensures { option_copied result ≡ receiver_data channel.now core.now.plain }
{
    receiver_of(&core.parts.ends.receivers, channel)
}

/// The sender end of a cable, which was never started.
fn sends(scenario: &Scenario, cable: u16, line: &CableLine) -> ChannelEnd
    requires there { line.now.receiver < length scenario.now.managers }
    ensures { result ∷ [] ≡ sends_from scenario.now cable line.now }
{
    ChannelEnd {
        kind: EndKind::Sends(SenderEnd {
            cable,
            channel: line.channel,
            partner: name_of(&scenario.managers, line.receiver),
            machine: Sender::new(),
        }),
    }
}

/// The receiver end of a cable, which has what is hardened.
fn receives<D: Disk>(
    alloc: Global,
    scenario: &Scenario,
    core: &Core<D>,
    cable: u16,
    line: &CableLine,
) -> ChannelEnd
    requires there { line.now.sender < length scenario.now.managers }
    ensures { result ∷ [] ≡ map (end_begun core.now.plain) (receives_at scenario.now cable line.now) }
{
    ChannelEnd {
        kind: EndKind::Receives(ReceiverEnd {
            cable,
            channel: line.channel,
            partner: name_of(&scenario.managers, line.sender),
            machine: Receiver::of(hardened(core, &line.channel)),
            kept: Messages::new(alloc),
        }),
    }
}

/// The end of a cable at a manager, if it has one there.
fn end_of<D: Disk>(
    alloc: Global,
    scenario: &Scenario,
    manager: u16,
    core: &Core<D>,
    cable: u16,
    line: &CableLine,
) -> Option<ChannelEnd>
    requires cable { IsCable scenario.now line.now }
    ensures { option_to_list result ≡ map (end_begun core.now.plain) (end_at scenario.now manager cable line.now) }
{
    if line.sender == manager {
        return Some(sends(scenario, cable, line));
    }
    if line.receiver == manager {
        return Some(receives(alloc, scenario, core, cable, line));
    }
    None
}

/// The ends of a manager's channels, by their cables' places in the scenario.
///
/// # Errors
///
/// No memory.
pub fn ends_of<D: Disk>(
    alloc: Global,
    scenario: &Scenario,
    manager: u16,
    core: &Core<D>,
) -> Result<Items<ChannelEnd>, NoMemory>
    requires few { length scenario.now.cables ≤ 32 }
    requires cables { All (IsCable scenario.now) scenario.now.cables }
    ensures { IfOk result (λ ends. ends ≡ begun_from core.now.plain scenario.now manager 0 scenario.now.cables) }
{
    let mut ends = Items::new(alloc);
    for (number, line) in scenario.cables.as_slice().iter().enumerate() {
        if let Some(end) = end_of(alloc, scenario, manager, core, number as u16, line) {
            ends.push(end)?;
        }
    }
    Ok(ends)
}
