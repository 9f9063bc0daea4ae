//! Whole texts of scenarios, line by line.

ghost use Rattle.std.specs.Prelude.{◌≡◌, Ok};
ghost use Rattle.mq_text.specs.Lines.{lines_of};
ghost use Rattle.mq_scn_lines.specs.Faults.{Reads};
ghost use Rattle.mq_scn_text.specs.Faults.{Gives};
ghost use Rattle.mq_scn_text.specs.Reading.{nothing_read, is_only, is_comment, is_skipped, opened, with_moment, with_manager, with_cable, with_monitor, gone_inside, with_section, with_rules, script_closed, line_said, step_done, part_added, part_line_read, outside_read, mqsc_line_read, rules_line_read, script_line_read, skipped_or_script, step_room, step_read, step_line_read, skipped_or_step, inside_read, section_cut, line_read, lines_read, is_whole, ended, scenario_of};

use crate::fault::{Cause, ScenarioFault, fault_at};
use crate::scripts::{Script, new_script, put_len, script_added, script_read};
use crate::sections::{Opened, line_in, mqsc_cut, mqsc_ended, rules_cut, rules_ended, text_added};
use mq_base::{Items, Label};
use mq_history::{
    CableLine, ManagerLine, MonitorLine, RulesPart, Scenario, ScriptLine, Section, Step,
};
use mq_scn_heading::{PartLine, Stage, own_name, part_read, part_word_of, step_line};
use mq_scn_lines::{Limit, LineFault, both, first_word};
use mq_text::next_line;
use std::alloc::Global;

/// In which part the lines stand that come next.
#[derive(Drop)]
pub enum Inside {
    Nothing,
    Mqsc(Opened),
    Rules(Opened),
    Script(Script),
    Steps,
}

/// What was read so far.
#[derive(Drop)]
pub struct Reading {
    /// How many lines were read.
    pub lines: u32,
    pub stage: Stage,
    pub inside: Inside,
    /// How many bytes are left of the limit of all bodies.
    pub left: u64,
    pub scenario: Scenario,
}

/// The reading before the first line.
pub fn nothing_read(alloc: Global) -> Reading
    ensures { result ≡ nothing_read }
{
    Reading {
        lines: 0,
        stage: Stage::Start,
        inside: Inside::Nothing,
        left: 67_108_864,
        scenario: Scenario {
            moment: None,
            managers: Items::new(alloc),
            cables: Items::new(alloc),
            sections: Items::new(alloc),
            rules: Items::new(alloc),
            scripts: Items::new(alloc),
            monitors: Items::new(alloc),
            steps: Items::new(alloc),
        },
    }
}

/// Whether a line has this one word.
fn is_only(word: &[u8], line: &[u8]) -> bool
    ensures { result ≡ is_only word.now line.now }
{
    match first_word(line) {
        None => false,
        Some((first, rest)) => first == word && first_word(rest).is_none(),
    }
}

fn is_comment(line: &[u8]) -> bool
    ensures { result ≡ is_comment line.now }
{
    match line {
        [b'*', ..] => true,
        _ => false,
    }
}

/// Whether a line is blank or a comment.
fn is_skipped(line: &[u8]) -> bool
    ensures { result ≡ is_skipped line.now }
{
    is_comment(line) || first_word(line).is_none()
}

/// An empty section whose first line is that of a number.
fn opened(alloc: Global, label: Label, manager: u16, first: u32) -> Opened
    ensures { result ≡ opened label manager first }
{
    Opened {
        label,
        manager,
        first,
        text: Items::new(alloc),
    }
}

fn with_moment(reading: Reading, moment: u64) -> Reading
    ensures { result ≡ with_moment moment reading }
{
    let mut reading = reading;
    reading.scenario.moment = Some(moment);
    reading
}

fn with_manager(reading: Reading, manager: ManagerLine) -> Result<Reading, ScenarioFault>
    ensures { Gives result (Ok (with_manager manager reading)) }
{
    let mut reading = reading;
    reading.scenario.managers.push(manager)?;
    Ok(reading)
}

fn with_cable(reading: Reading, cable: CableLine) -> Result<Reading, ScenarioFault>
    ensures { Gives result (Ok (with_cable cable reading)) }
{
    let mut reading = reading;
    reading.scenario.cables.push(cable)?;
    Ok(reading)
}

fn with_monitor(reading: Reading, monitor: MonitorLine) -> Result<Reading, ScenarioFault>
    ensures { Gives result (Ok (with_monitor monitor reading)) }
{
    let mut reading = reading;
    reading.scenario.monitors.push(monitor)?;
    Ok(reading)
}

fn gone_inside(reading: Reading, inside: Inside) -> Reading
    ensures { result ≡ gone_inside inside reading }
{
    let mut reading = reading;
    reading.inside = inside;
    reading
}

/// Adds what a part's first line says, which has that number.
fn part_added(
    alloc: Global,
    reading: Reading,
    part: PartLine,
    number: u32,
) -> Result<Reading, ScenarioFault>
    ensures { Gives result (Ok (part_added number part reading)) }
{
    match part {
        PartLine::Network => Ok(reading),
        PartLine::Moment(moment) => Ok(with_moment(reading, moment)),
        PartLine::Manager(manager) => with_manager(reading, manager),
        PartLine::Cable(cable) => with_cable(reading, cable),
        PartLine::Mqsc(label, manager) => {
            let section = opened(alloc, label, manager, number);
            Ok(gone_inside(reading, Inside::Mqsc(section)))
        }
        PartLine::Rules(label, manager) => {
            let section = opened(alloc, label, manager, number);
            Ok(gone_inside(reading, Inside::Rules(section)))
        }
        PartLine::Script(label, manager) => {
            let script = new_script(alloc, label, manager);
            Ok(gone_inside(reading, Inside::Script(script)))
        }
        PartLine::Monitor(monitor) => with_monitor(reading, monitor),
        PartLine::Steps => Ok(gone_inside(reading, Inside::Steps)),
    }
}

/// A line outside sections, scripts and steps that isn't skipped.
#[tactic(auto, unfolding(crate::specs::Reading::part_line_read))]
fn part_line_read(
    alloc: Global,
    reading: Reading,
    line: &[u8],
    number: u32,
) -> Result<Reading, ScenarioFault>
    ensures { Gives result (part_line_read number line.now reading) }
{
    let Some((first, rest)) = first_word(line) else {
        return Err(ScenarioFault::BadLine(number, Cause::Form));
    };
    let Some(word) = part_word_of(first) else {
        return Err(ScenarioFault::BadLine(number, Cause::Form));
    };
    match part_read(alloc, &reading.scenario, reading.stage, word, rest) {
        Err(fault) => Err(fault_at(number, fault)),
        Ok((stage, part)) => {
            let mut reading = reading;
            reading.stage = stage;
            part_added(alloc, reading, part, number)
        }
    }
}

#[tactic(auto, unfolding(crate::specs::Reading::outside_read))]
fn outside_read(
    alloc: Global,
    reading: Reading,
    line: &[u8],
    number: u32,
) -> Result<Reading, ScenarioFault>
    ensures { Gives result (outside_read number line.now reading) }
{
    if is_skipped(line) {
        return Ok(reading);
    }
    part_line_read(alloc, reading, line, number)
}

fn with_section(reading: Reading, section: Section) -> Result<Reading, ScenarioFault>
    ensures { Gives result (with_section reading section) }
{
    let mut reading = reading;
    reading.scenario.sections.push(section)?;
    reading.inside = Inside::Nothing;
    Ok(reading)
}

/// A line of an MQSC section, or its end.
#[tactic(auto, unfolding(crate::specs::Reading::mqsc_line_read))]
fn mqsc_line_read(
    alloc: Global,
    reading: Reading,
    section: Opened,
    line: &[u8],
    number: u32,
) -> Result<Reading, ScenarioFault>
    ensures { Gives result (mqsc_line_read number line.now section reading) }
{
    if is_only(b"ENDMQSC", line) {
        let whole = mqsc_ended(alloc, section, number)?;
        return with_section(reading, whole);
    }
    let more = text_added(section, line)?;
    Ok(gone_inside(reading, Inside::Mqsc(more)))
}

fn with_rules(reading: Reading, part: RulesPart) -> Result<Reading, ScenarioFault>
    ensures { Gives result (with_rules reading part) }
{
    let mut reading = reading;
    reading.scenario.rules.push(part)?;
    reading.inside = Inside::Nothing;
    Ok(reading)
}

/// A line of a RULES section, or its end.
#[tactic(auto, unfolding(crate::specs::Reading::rules_line_read))]
fn rules_line_read(
    alloc: Global,
    reading: Reading,
    section: Opened,
    line: &[u8],
) -> Result<Reading, ScenarioFault>
    ensures { Gives result (rules_line_read line.now section reading) }
{
    if is_only(b"ENDRULES", line) {
        let own = own_name(reading.scenario.managers.as_slice(), section.manager);
        let part = rules_ended(alloc, section, &own)?;
        return with_rules(reading, part);
    }
    let more = text_added(section, line)?;
    Ok(gone_inside(reading, Inside::Rules(more)))
}

fn script_closed(reading: Reading, script: Script) -> Result<Reading, ScenarioFault>
    ensures { Gives result (Ok (script_closed script reading)) }
{
    let mut reading = reading;
    reading.scenario.scripts.push(script.part)?;
    reading.inside = Inside::Nothing;
    Ok(reading)
}

/// The script with one more line, whose body counts.
fn line_said(reading: Reading, script: Script, line: ScriptLine) -> Result<Reading, ScenarioFault>
    ensures { Gives result (Ok (line_said line script reading)) }
{
    let mut reading = reading;
    reading.left = reading.left.saturating_sub(put_len(&line));
    reading.inside = Inside::Script(script_added(script, line)?);
    Ok(reading)
}

/// A line of a script, or its end.
#[tactic(auto, unfolding(crate::specs::Reading::script_line_read))]
fn script_line_read(
    alloc: Global,
    reading: Reading,
    script: Script,
    line: &[u8],
    number: u32,
) -> Result<Reading, ScenarioFault>
    ensures { Gives result (script_line_read number line.now script reading) }
{
    if is_only(b"ENDSCRIPT", line) {
        return script_closed(reading, script);
    }
    match script_read(alloc, &script, line, reading.left) {
        Err(fault) => Err(fault_at(number, fault)),
        Ok(said) => line_said(reading, script, said),
    }
}

/// Whether there is room for one more step.
fn step_room(count: usize) -> Result<(), LineFault>
    ensures { result ≡ step_room count }
{
    if count < 3_000 {
        Ok(())
    } else {
        Err(LineFault::Limit(Limit::Steps))
    }
}

#[tactic(auto, unfolding(crate::specs::Reading::step_read))]
fn step_read(alloc: Global, scenario: &Scenario, line: &[u8]) -> Result<((), Step), LineFault>
    ensures { Reads result (step_read scenario.now line.now) }
{
    let step = step_line(alloc, scenario, line);
    both(step_room(scenario.steps.len()), step)
}

fn step_done(reading: Reading, step: Step) -> Result<Reading, ScenarioFault>
    ensures { Gives result (Ok (step_done step reading)) }
{
    let mut reading = reading;
    reading.scenario.steps.push(step)?;
    reading.inside = Inside::Steps;
    Ok(reading)
}

/// A line of the steps, or their end.
#[tactic(auto, unfolding(crate::specs::Reading::step_line_read))]
fn step_line_read(
    alloc: Global,
    reading: Reading,
    line: &[u8],
    number: u32,
) -> Result<Reading, ScenarioFault>
    ensures { Gives result (step_line_read number line.now reading) }
{
    if is_only(b"ENDSTEPS", line) {
        return Ok(gone_inside(reading, Inside::Nothing));
    }
    match step_read(alloc, &reading.scenario, line) {
        Err(fault) => Err(fault_at(number, fault)),
        Ok(((), step)) => step_done(reading, step),
    }
}

#[tactic(auto, unfolding(crate::specs::Reading::skipped_or_script))]
fn skipped_or_script(
    alloc: Global,
    reading: Reading,
    script: Script,
    line: &[u8],
    number: u32,
) -> Result<Reading, ScenarioFault>
    ensures { Gives result (skipped_or_script number line.now script reading) }
{
    if is_skipped(line) {
        return Ok(gone_inside(reading, Inside::Script(script)));
    }
    script_line_read(alloc, reading, script, line, number)
}

#[tactic(auto, unfolding(crate::specs::Reading::skipped_or_step))]
fn skipped_or_step(
    alloc: Global,
    reading: Reading,
    line: &[u8],
    number: u32,
) -> Result<Reading, ScenarioFault>
    ensures { Gives result (skipped_or_step number line.now reading) }
{
    if is_skipped(line) {
        return Ok(gone_inside(reading, Inside::Steps));
    }
    step_line_read(alloc, reading, line, number)
}

/// A line in the part in which it stands.
fn inside_read(
    alloc: Global,
    reading: Reading,
    line: &[u8],
    number: u32,
) -> Result<Reading, ScenarioFault>
    ensures { Gives result (inside_read number line.now reading) }
{
    let Reading {
        lines,
        stage,
        inside,
        left,
        scenario,
    } = reading;
    let outside = Reading {
        lines,
        stage,
        inside: Inside::Nothing,
        left,
        scenario,
    };
    match inside {
        Inside::Nothing => outside_read(alloc, outside, line, number),
        Inside::Mqsc(section) => mqsc_line_read(alloc, outside, section, line, number),
        Inside::Rules(section) => rules_line_read(alloc, outside, section, line),
        Inside::Script(script) => skipped_or_script(alloc, outside, script, line, number),
        Inside::Steps => skipped_or_step(alloc, outside, line, number),
    }
}

/// The fault of a section that no line ends, if the lines stand in one and it has a fault.
#[tactic(auto, unfolding(crate::specs::Reading::section_cut))]
fn section_cut(alloc: Global, inside: &Inside, scenario: &Scenario) -> Result<(), ScenarioFault>
    ensures { Gives result (section_cut inside.now scenario.now) }
{
    match inside {
        Inside::Mqsc(section) => mqsc_cut(alloc, section),
        Inside::Rules(section) => {
            let own = own_name(scenario.managers.as_slice(), section.manager);
            rules_cut(alloc, section, &own)
        }
        Inside::Nothing | Inside::Script(_) | Inside::Steps => Ok(()),
    }
}

/// Reads one more line.
///
/// # Errors
///
/// The fault of the line, as `read_scenario` tells it; `NoMemory`.
#[tactic(auto, unfolding(crate::specs::Reading::line_read))]
pub fn line_read(alloc: Global, reading: Reading, line: &[u8]) -> Result<Reading, ScenarioFault>
    ensures { Gives result (line_read line.now reading) }
{
    if reading.lines >= 40_000 {
        section_cut(alloc, &reading.inside, &reading.scenario)?;
        return Err(ScenarioFault::Limit(40_001, Limit::Lines));
    }
    let mut reading = reading;
    let number = reading.lines + 1;
    reading.lines = number;
    inside_read(alloc, reading, line, number)
}

fn is_whole(reading: &Reading) -> bool
    ensures { result ≡ is_whole reading.now }
{
    reading.stage == Stage::Steps && matches!(reading.inside, Inside::Nothing)
}

/// The scenario that was read, where its steps have ended.
fn ended(alloc: Global, reading: Reading) -> Result<Scenario, ScenarioFault>
    ensures { Gives result (ended reading) }
{
    if is_whole(&reading) {
        return Ok(reading.scenario);
    }
    section_cut(alloc, &reading.inside, &reading.scenario)?;
    Err(ScenarioFault::BadLine(line_in(reading.lines, 1), Cause::Ending))
}

fn lines_read(alloc: Global, text: &[u8]) -> Result<Reading, ScenarioFault>
    ensures { Gives result (lines_read (lines_of text.now) nothing_read) }
{
    let mut reading = nothing_read(alloc);
    let mut rest = text;
    'reading: while let Some((line, behind)) = next_line(rest) {
        reading = line_read(alloc, reading, line)?;
        rest = behind;
    }
    Ok(reading)
}

/// The scenario of a text. Source: this project's scenario language (docs/SCENARIOS.md).
///
/// # Errors
///
/// The first line that can't stand in a scenario, counted from 1, and of its faults the first in this order: the limit
/// `Lines`, `Form`, the other limits in the order of `Limit`, `Name`, `Unknown`, `Twice`, `Number`, `Order`, `Mqsc`,
/// `Rules`. Where the bytes end before ENDSTEPS, `Ending` at the line after the last. And `NoMemory`.
#[tactic(auto, unfolding(crate::specs::Reading::scenario_of))]
pub fn read_scenario(alloc: Global, bytes: &[u8]) -> Result<Scenario, ScenarioFault>
    ensures { Gives result (scenario_of bytes.now) }
{
    let reading = lines_read(alloc, bytes)?;
    ended(alloc, reading)
}
