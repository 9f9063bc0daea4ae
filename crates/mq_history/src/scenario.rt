//! A scenario: managers, cables, sections of commands, rules tables, scripts, monitors and steps.
use crate::scripts::ScriptLine;
use mq_cable::Faults;
use mq_calls::below::{ChName, Items, Label, QName};
use mq_rules::Table;
use mq_sc_parse::Command;

/// A QMGR line.
#[derive(Clone, Copy)]
pub struct ManagerLine {
    pub name: QName,
    /// LOGMAX, the most bytes that its log may have: 4,096 to 268,435,456.
    pub log_max: u32,
}

/// A CABLE line. Managers are places in the scenario, from 0.
#[derive(Drop)]
pub struct CableLine {
    pub channel: ChName,
    /// The manager that has the sender end.
    pub sender: u16,
    /// The manager that has the receiver end, another one.
    pub receiver: u16,
    /// The scripted faults on the frames that the sender offers.
    pub out: Faults,
    /// The scripted faults on the frames that the receiver offers.
    pub back: Faults,
}

/// An MQSC section.
#[derive(Drop)]
pub struct Section {
    pub label: Label,
    /// The manager's place, from 0.
    pub manager: u16,
    pub commands: Items<Command>,
}

/// A SCRIPT section.
#[derive(Drop)]
pub struct ScriptPart {
    pub label: Label,
    /// The manager's place, from 0.
    pub manager: u16,
    pub lines: Items<ScriptLine>,
}

/// A RULES section.
#[derive(Drop)]
pub struct RulesPart {
    pub label: Label,
    /// The manager's place, from 0.
    pub manager: u16,
    pub table: Table,
}

/// A MONITOR line.
#[derive(Clone, Copy)]
pub struct MonitorLine {
    pub label: Label,
    /// The manager's place, from 0.
    pub manager: u16,
    /// The initiation queue that it opens.
    pub queue: QName,
}

/// A step. Sections, scripts, rules tables, monitors and managers are places in the scenario, from 0.
#[derive(Drop)]
pub enum Step {
    /// The commands of a section.
    Obey(u16),
    /// One command at a manager.
    Do(u16, Command),
    /// So many lines of a script, or all that are left.
    Run(u16, Option<u32>),
    /// Two or more scripts at once, none twice.
    Phase(Items<u16>),
    /// So many turns of channel ends, 1 to 100,000, or until nothing can change.
    Pump(u32),
    /// Of a rules table so many turns of its handler, 1 to 100,000, or until it is idle.
    Handle(u16, u32),
    /// A monitor connects and opens its queue.
    Watch(u16),
    /// So many turns of a monitor, 1 to 100,000, or until it finds no message.
    Serve(u16, u32),
    /// A stop of a manager.
    Crash(u16),
    Restart(u16),
    /// At a manager the k-th device call from now on is stopped, k 1 to 1000.
    Cut(u16, u32),
    /// All moments advance by so many milliseconds, 0 to 999,999,999.
    Clock(u64),
}

/// A scenario.
#[derive(Drop)]
pub struct Scenario {
    /// The moment with which its managers begin, in milliseconds since 1970, 0 to 253,300,000,000,000; none where
    /// the run's own counts.
    pub moment: Option<u64>,
    /// 1 to 8.
    pub managers: Items<ManagerLine>,
    /// Up to 32.
    pub cables: Items<CableLine>,
    /// Up to 64 with the rules tables.
    pub sections: Items<Section>,
    pub rules: Items<RulesPart>,
    /// Up to 64.
    pub scripts: Items<ScriptPart>,
    /// Up to 16.
    pub monitors: Items<MonitorLine>,
    /// Up to 3,000.
    pub steps: Items<Step>,
}
