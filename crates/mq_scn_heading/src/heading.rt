//! What the lines of the heading say, and those with which sections, scripts and monitors begin.

ghost use Rattle.std.specs.Prelude.{◌≡◌, ◌≤◌, IfOk, position, bytes_eq};
ghost use Rattle.mq_scn_lines.specs.Words.{texts_of};
ghost use Rattle.mq_scn_lines.specs.Faults.{Reads, both};
ghost use Rattle.mq_scn_heading.specs.Cables.{cable_faults};
ghost use Rattle.mq_scn_heading.specs.Heading.{alone, moment_line, new_manager, log_max_in, log_max, manager_line, new_channel, channel_place, ends_of, connected, cabled, cable_with, cable_line, owned, labelled, mqsc_line, rules_line, script_line, queue_in, monitored, monitor_with, monitor_line, part_line, part_read};
ghost use Rattle.mq_scn_heading.specs.declared.heading.PartLine.TheVariants.{Network, Steps};

use crate::cables::cable_faults;
use crate::lookup::{manager_at, manager_place, new_label};
use crate::parts::{PartWord, Stage, allowed};
use mq_base::{ChName, Label, QName};
use mq_cable::Faults;
use mq_history::{CableLine, ManagerLine, MonitorLine, Scenario};
use mq_scn_lines::{
    Limit, LineFault, both, bracketed, channel_in, is_open, name_in, ranged, words_of,
};
use std::alloc::Global;

/// What the line says with which a part begins.
#[derive(Drop)]
pub enum PartLine {
    Network,
    /// Milliseconds since 1970.
    Moment(u64),
    Manager(ManagerLine),
    Cable(CableLine),
    /// The label, and the place of the manager.
    Mqsc(Label, u16),
    Rules(Label, u16),
    Script(Label, u16),
    Monitor(MonitorLine),
    Steps,
}

/// NETWORK.
fn network_line(words: &[&[u8]]) -> Result<PartLine, LineFault>
    ensures { result ≡ alone Network (texts_of words.now) }
{
    match words {
        [] => Ok(PartLine::Network),
        _ => Err(LineFault::Form),
    }
}

/// STEPS.
fn steps_line(words: &[&[u8]]) -> Result<PartLine, LineFault>
    ensures { result ≡ alone Steps (texts_of words.now) }
{
    match words {
        [] => Ok(PartLine::Steps),
        _ => Err(LineFault::Form),
    }
}

/// MOMENT n.
fn moment_line(words: &[&[u8]]) -> Result<PartLine, LineFault>
    ensures { result ≡ moment_line (texts_of words.now) }
{
    match words {
        [word] => match ranged(word, 0, 253_300_000_000_000, LineFault::Number) {
            Ok(moment) => Ok(PartLine::Moment(moment)),
            Err(fault) => Err(fault),
        },
        _ => Err(LineFault::Form),
    }
}

/// A name that no manager has yet.
fn new_manager(scenario: &Scenario, word: &[u8]) -> Result<QName, LineFault>
    ensures { result ≡ new_manager scenario.now.managers word.now }
{
    match name_in(word) {
        Err(fault) => Err(fault),
        Ok(name) => match manager_place(scenario.managers.as_slice(), &name) {
            Some(_) => Err(LineFault::Twice),
            None => Ok(name),
        },
    }
}

/// LOGMAX(n).
fn log_max_in(word: &[u8]) -> Result<u64, LineFault>
    ensures value { result ≡ log_max_in word.now }
    ensures range { IfOk result (λ n. n ≤ 268435456) }
{
    match bracketed(word, b"LOGMAX(") {
        Some(text) => ranged(text, 4096, 268_435_456, LineFault::Limit(Limit::LogMax)),
        None => Err(LineFault::Form),
    }
}

/// The largest length of a log in bytes, 268,435,456 where the line gives none.
fn log_max(words: &[&[u8]]) -> Result<u32, LineFault>
    ensures { result ≡ log_max (texts_of words.now) }
{
    match words {
        [] => Ok(268_435_456),
        [word] => match log_max_in(word) {
            Ok(most) => Ok(most as u32),
            Err(fault) => Err(fault),
        },
        _ => Err(LineFault::Form),
    }
}

/// QMGR name [LOGMAX(n)].
fn manager_line(scenario: &Scenario, words: &[&[u8]]) -> Result<PartLine, LineFault>
    ensures { result ≡ manager_line scenario.now.managers (texts_of words.now) }
{
    let [word, rest @ ..] = words else {
        return Err(LineFault::Form);
    };
    match both(new_manager(scenario, word), log_max(rest)) {
        Ok((name, log_max)) => Ok(PartLine::Manager(ManagerLine { name, log_max })),
        Err(fault) => Err(fault),
    }
}

fn channel_place(cables: &[CableLine], channel: &ChName) -> Option<usize>
    ensures { result ≡ channel_place channel.now cables.now }
{
    cables
        .iter()
        .position(|cable| cable.channel.text() == channel.text())
}

/// A name of a channel that no cable has yet.
fn new_channel(scenario: &Scenario, word: &[u8]) -> Result<ChName, LineFault>
    ensures { result ≡ new_channel scenario.now.cables word.now }
{
    match channel_in(word) {
        Err(fault) => Err(fault),
        Ok(channel) => match channel_place(scenario.cables.as_slice(), &channel) {
            Some(_) => Err(LineFault::Twice),
            None => Ok(channel),
        },
    }
}

/// The sender and the receiver of a cable, which differ.
fn ends_of(scenario: &Scenario, sender: &[u8], receiver: &[u8]) -> Result<(u16, u16), LineFault>
    ensures { result ≡ ends_of scenario.now.managers sender.now receiver.now }
{
    match both(manager_at(scenario, sender), manager_at(scenario, receiver)) {
        Err(fault) => Err(fault),
        Ok((sender, receiver)) => {
            if sender == receiver {
                Err(LineFault::Twice)
            } else {
                Ok((sender, receiver))
            }
        }
    }
}

/// The channel, and its two ends.
#[tactic(auto, unfolding(crate::specs::Heading::connected))]
fn connected(
    scenario: &Scenario,
    channel: &[u8],
    sender: &[u8],
    receiver: &[u8],
) -> Result<(ChName, (u16, u16)), LineFault>
    ensures { result ≡ connected scenario.now channel.now sender.now receiver.now }
{
    both(
        new_channel(scenario, channel),
        ends_of(scenario, sender, receiver),
    )
}

fn whole_cable(
    alloc: Global,
    ends: Result<(ChName, (u16, u16)), LineFault>,
    words: &[&[u8]],
) -> Result<PartLine, LineFault>
    ensures { Reads result (cabled (both ends (cable_faults (texts_of words.now)))) }
{
    match both(ends, cable_faults(alloc, words)) {
        Err(fault) => Err(fault),
        Ok(((channel, (sender, receiver)), (out, back))) => Ok(PartLine::Cable(CableLine {
            channel,
            sender,
            receiver,
            out,
            back,
        })),
    }
}

#[tactic(auto, unfolding(crate::specs::Heading::cable_with))]
fn cable_with(
    alloc: Global,
    scenario: &Scenario,
    channel: &[u8],
    sender: &[u8],
    receiver: &[u8],
    words: &[&[u8]],
) -> Result<PartLine, LineFault>
    ensures { Reads result (cable_with scenario.now channel.now sender.now receiver.now (texts_of words.now)) }
{
    let ends = connected(scenario, channel, sender, receiver);
    whole_cable(alloc, ends, words)
}

/// CABLE channel sender receiver [OUT faults] [BACK faults].
fn cable_line(alloc: Global, scenario: &Scenario, words: &[&[u8]]) -> Result<PartLine, LineFault>
    ensures { Reads result (cable_line scenario.now (texts_of words.now)) }
{
    match words {
        [] => Err(LineFault::Form),
        [_] => Err(LineFault::Form),
        [_, _] => Err(LineFault::Form),
        [channel, sender, receiver, rest @ ..] => {
            cable_with(alloc, scenario, channel, sender, receiver, rest)
        }
    }
}

/// A label that is new, and a manager.
#[tactic(auto, unfolding(crate::specs::Heading::owned))]
fn owned(scenario: &Scenario, label: &[u8], manager: &[u8]) -> Result<(Label, u16), LineFault>
    ensures { result ≡ owned scenario.now label.now manager.now }
{
    both(new_label(scenario, label), manager_at(scenario, manager))
}

fn labelled(scenario: &Scenario, words: &[&[u8]]) -> Result<(Label, u16), LineFault>
    ensures { result ≡ labelled scenario.now (texts_of words.now) }
{
    match words {
        [label, manager] => owned(scenario, label, manager),
        _ => Err(LineFault::Form),
    }
}

/// MQSC label manager.
fn mqsc_line(scenario: &Scenario, words: &[&[u8]]) -> Result<PartLine, LineFault>
    ensures { result ≡ mqsc_line scenario.now (texts_of words.now) }
{
    match labelled(scenario, words) {
        Ok((label, manager)) => Ok(PartLine::Mqsc(label, manager)),
        Err(fault) => Err(fault),
    }
}

/// RULES label manager.
fn rules_line(scenario: &Scenario, words: &[&[u8]]) -> Result<PartLine, LineFault>
    ensures { result ≡ rules_line scenario.now (texts_of words.now) }
{
    match labelled(scenario, words) {
        Ok((label, manager)) => Ok(PartLine::Rules(label, manager)),
        Err(fault) => Err(fault),
    }
}

/// SCRIPT label manager.
fn script_line(scenario: &Scenario, words: &[&[u8]]) -> Result<PartLine, LineFault>
    ensures { result ≡ script_line scenario.now (texts_of words.now) }
{
    match labelled(scenario, words) {
        Ok((label, manager)) => Ok(PartLine::Script(label, manager)),
        Err(fault) => Err(fault),
    }
}

/// QUEUE(name), where a name is needed.
fn queue_in(word: &[u8]) -> Result<QName, LineFault>
    ensures { result ≡ queue_in word.now }
{
    match bracketed(word, b"QUEUE(") {
        Some(text) => name_in(text),
        None => Err(LineFault::Form),
    }
}

fn monitored(read: Result<((Label, u16), QName), LineFault>) -> Result<PartLine, LineFault>
    ensures { result ≡ monitored read }
{
    match read {
        Err(fault) => Err(fault),
        Ok(((label, manager), queue)) => Ok(PartLine::Monitor(MonitorLine {
            label,
            manager,
            queue,
        })),
    }
}

#[tactic(auto, unfolding(crate::specs::Heading::monitor_with))]
fn monitor_with(
    scenario: &Scenario,
    label: &[u8],
    manager: &[u8],
    queue: &[u8],
) -> Result<PartLine, LineFault>
    ensures { result ≡ monitor_with scenario.now label.now manager.now queue.now }
{
    monitored(both(owned(scenario, label, manager), queue_in(queue)))
}

/// MONITOR label manager QUEUE(name).
fn monitor_line(scenario: &Scenario, words: &[&[u8]]) -> Result<PartLine, LineFault>
    ensures { result ≡ monitor_line scenario.now (texts_of words.now) }
{
    match words {
        [] => Err(LineFault::Form),
        [_] => Err(LineFault::Form),
        [_, _] => Err(LineFault::Form),
        [label, manager, queue] => monitor_with(scenario, label, manager, queue),
        [_, _, _, _, ..] => Err(LineFault::Form),
    }
}

#[tactic(auto, unfolding(crate::specs::Heading::part_line))]
fn part_line(
    alloc: Global,
    scenario: &Scenario,
    word: PartWord,
    words: &[&[u8]],
) -> Result<PartLine, LineFault>
    ensures { Reads result (part_line scenario.now word (texts_of words.now)) }
{
    match word {
        PartWord::Network => network_line(words),
        PartWord::Moment => moment_line(words),
        PartWord::Manager => manager_line(scenario, words),
        PartWord::Cable => cable_line(alloc, scenario, words),
        PartWord::Mqsc => mqsc_line(scenario, words),
        PartWord::Rules => rules_line(scenario, words),
        PartWord::Script => script_line(scenario, words),
        PartWord::Monitor => monitor_line(scenario, words),
        PartWord::Steps => steps_line(words),
    }
}

/// What the line says with which a part begins, and the stage behind it, where the text behind its word is this one.
///
/// # Errors
///
/// The first of its faults in the order of `LineFault`.
#[tactic(auto, unfolding(crate::specs::Heading::part_read))]
pub fn part_read(
    alloc: Global,
    scenario: &Scenario,
    stage: Stage,
    word: PartWord,
    rest: &[u8],
) -> Result<(Stage, PartLine), LineFault>
    ensures { Reads result (part_read scenario.now stage word rest.now) }
{
    if is_open(rest) {
        return Err(LineFault::Form);
    }
    let words = words_of(alloc, rest)?;
    let line = part_line(alloc, scenario, word, words.as_slice());
    both(allowed(scenario, stage, word), line)
}
