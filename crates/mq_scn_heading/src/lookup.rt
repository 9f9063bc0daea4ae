//! What the heading and the sections of a scenario declare: managers by name, the others by label.

ghost use Rattle.std.specs.Prelude.{◌≡◌, ◌||◌};
ghost use Rattle.mq_scn_heading.specs.Lookup.{known, manager_place, section_place, rules_place, script_place, monitor_place, manager_at, section_at, rules_at, script_at, monitor_at, is_declared, new_label, own_name};

use mq_base::{Label, QName};
use mq_history::{ManagerLine, MonitorLine, RulesPart, Scenario, ScriptPart, Section};
use mq_scn_lines::{LineFault, label_in, name_in};

/// A place that was found.
fn known(place: Option<usize>) -> Result<u16, LineFault>
    ensures { result ≡ known place }
{
    match place {
        Some(at) if at < 65_536 => Ok(at as u16),
        _ => Err(LineFault::Unknown),
    }
}

/// The place of a manager by its name.
pub fn manager_place(managers: &[ManagerLine], name: &QName) -> Option<usize>
    ensures { result ≡ manager_place name.now managers.now }
{
    managers
        .iter()
        .position(|manager| manager.name.text() == name.text())
}

/// The manager that a word names.
pub fn manager_at(scenario: &Scenario, word: &[u8]) -> Result<u16, LineFault>
    ensures { result ≡ manager_at scenario.now.managers word.now }
{
    match name_in(word) {
        Ok(name) => known(manager_place(scenario.managers.as_slice(), &name)),
        Err(fault) => Err(fault),
    }
}

fn section_place(sections: &[Section], label: &Label) -> Option<usize>
    ensures { result ≡ section_place label.now sections.now }
{
    sections
        .iter()
        .position(|section| section.label.text() == label.text())
}

fn rules_place(rules: &[RulesPart], label: &Label) -> Option<usize>
    ensures { result ≡ rules_place label.now rules.now }
{
    rules
        .iter()
        .position(|part| part.label.text() == label.text())
}

fn script_place(scripts: &[ScriptPart], label: &Label) -> Option<usize>
    ensures { result ≡ script_place label.now scripts.now }
{
    scripts
        .iter()
        .position(|script| script.label.text() == label.text())
}

fn monitor_place(monitors: &[MonitorLine], label: &Label) -> Option<usize>
    ensures { result ≡ monitor_place label.now monitors.now }
{
    monitors
        .iter()
        .position(|monitor| monitor.label.text() == label.text())
}

/// The MQSC section whose label a word is.
pub fn section_at(scenario: &Scenario, word: &[u8]) -> Result<u16, LineFault>
    ensures { result ≡ section_at scenario.now.sections word.now }
{
    match label_in(word) {
        Ok(label) => known(section_place(scenario.sections.as_slice(), &label)),
        Err(fault) => Err(fault),
    }
}

/// The RULES section whose label a word is.
pub fn rules_at(scenario: &Scenario, word: &[u8]) -> Result<u16, LineFault>
    ensures { result ≡ rules_at scenario.now.rules word.now }
{
    match label_in(word) {
        Ok(label) => known(rules_place(scenario.rules.as_slice(), &label)),
        Err(fault) => Err(fault),
    }
}

/// The script whose label a word is.
pub fn script_at(scenario: &Scenario, word: &[u8]) -> Result<u16, LineFault>
    ensures { result ≡ script_at scenario.now.scripts word.now }
{
    match label_in(word) {
        Ok(label) => known(script_place(scenario.scripts.as_slice(), &label)),
        Err(fault) => Err(fault),
    }
}

/// The monitor whose label a word is.
pub fn monitor_at(scenario: &Scenario, word: &[u8]) -> Result<u16, LineFault>
    ensures { result ≡ monitor_at scenario.now.monitors word.now }
{
    match label_in(word) {
        Ok(label) => known(monitor_place(scenario.monitors.as_slice(), &label)),
        Err(fault) => Err(fault),
    }
}

/// Whether a label stands for a section, a rules table, a script or a monitor.
fn is_declared(scenario: &Scenario, label: &Label) -> bool
    ensures { result ≡ is_declared label.now scenario.now }
{
    section_place(scenario.sections.as_slice(), label).is_some()
        || rules_place(scenario.rules.as_slice(), label).is_some()
        || script_place(scenario.scripts.as_slice(), label).is_some()
        || monitor_place(scenario.monitors.as_slice(), label).is_some()
}

/// The label that a word is, which no part has yet.
pub fn new_label(scenario: &Scenario, word: &[u8]) -> Result<Label, LineFault>
    ensures { result ≡ new_label scenario.now word.now }
{
    match label_in(word) {
        Ok(label) => {
            if is_declared(scenario, &label) {
                Err(LineFault::Twice)
            } else {
                Ok(label)
            }
        }
        Err(fault) => Err(fault),
    }
}

/// The name of the manager at a place.
pub fn own_name(managers: &[ManagerLine], place: u16) -> QName
    ensures { result ≡ own_name managers.now place }
{
    match managers.get(place as usize) {
        Some(manager) => manager.name,
        None => QName::blank(),
    }
}
