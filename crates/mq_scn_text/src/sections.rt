//! The lines of MQSC and RULES sections: their text, and what it says.

ghost use Rattle.std.specs.Prelude.{◌≡◌, ◌++◌, ◌∷◌, [], IfOk};
ghost use Rattle.mq_scn_text.specs.Faults.{Gives};
ghost use Rattle.mq_scn_text.specs.Sections.{line_in, command_fault, text_fault, rules_fault, command_at, commands_from, line_read, joined_from, section_read, mqsc_ended, rules_ended, mqsc_cut, rules_cut, text_added, last_in, goes_on_from, before_last};

use crate::fault::{Cause, ScenarioFault};
use mq_base::{Items, Label, QName};
use mq_history::{RulesPart, Section};
use mq_rules_text::{RulesFault, table};
use mq_sc_lex::{Joined, LexFault, Line, Mark, join_lines, line_commands};
use mq_sc_parse::{Command, ScFault, parse};
use mq_scn_lines::MqscFault;
use std::alloc::{AllocError, Global};

/// A section whose end wasn't read yet.
#[derive(Drop)]
pub struct Opened {
    pub label: Label,
    /// The place of its manager.
    pub manager: u16,
    /// The number of its first line, counted from 1: that before its text.
    pub first: u32,
    /// Its lines so far, each with a line feed.
    pub text: Items<u8>,
}

/// What the text of an MQSC section says, and whether its last line goes on.
#[derive(Drop)]
pub struct SectionRead {
    pub commands: Items<Command>,
    pub unfinished: bool,
}

/// The number in the scenario of a section's line.
pub fn line_in(first: u32, line: usize) -> u32
    ensures { result ≡ line_in first line }
{
    let number = (first as u64).saturating_add(line as u64);
    if number < 4_294_967_295 {
        number as u32
    } else {
        4_294_967_295
    }
}

/// The fault of a line that is no command.
fn command_fault(first: u32, fault: ScFault) -> ScenarioFault
    ensures { result ≡ command_fault first fault }
{
    let line = match fault {
        ScFault::NoMemory => return ScenarioFault::NoMemory,
        ScFault::UnknownVerb(span) => span.line,
        ScFault::UnknownObject(span) => span.line,
        ScFault::MissingName(span) => span.line,
        ScFault::UnknownKeyword(span) => span.line,
        ScFault::Repeated(span) => span.line,
        ScFault::BadValue(span) => span.line,
    };
    ScenarioFault::BadLine(line_in(first, line), Cause::Mqsc(MqscFault::Command(fault)))
}

/// The fault of a line that has no commands.
fn text_fault(first: u32, fault: LexFault) -> ScenarioFault
    ensures { result ≡ text_fault first fault }
{
    match fault {
        LexFault::NoMemory => ScenarioFault::NoMemory,
        LexFault::OpenQuote(line) => {
            ScenarioFault::BadLine(line_in(first, line), Cause::Mqsc(MqscFault::OpenQuote))
        }
        LexFault::OpenContinuation => {
            ScenarioFault::BadLine(first, Cause::Mqsc(MqscFault::OpenContinuation))
        }
    }
}

/// The fault of a text that is no rules table.
fn rules_fault(first: u32, fault: RulesFault) -> ScenarioFault
    ensures { result ≡ rules_fault first fault }
{
    let line = match fault {
        RulesFault::NoMemory => return ScenarioFault::NoMemory,
        RulesFault::BadLine(line) => line,
        RulesFault::BadKeyword(line) => line,
        RulesFault::BadValue(line) => line,
        RulesFault::NoAction(line) => line,
        RulesFault::FwdqMissing(line) => line,
    };
    ScenarioFault::BadLine(line_in(first, line), Cause::Rules(fault))
}

/// The command of a line of tokens.
fn command_at(alloc: Global, first: u32, line: &Line) -> Result<Command, ScenarioFault>
    ensures { Gives result (command_at first line.now) }
{
    match parse(alloc, line) {
        Ok(command) => Ok(command),
        Err(fault) => Err(command_fault(first, fault)),
    }
}

/// The commands of lines of tokens, behind those before them.
fn commands_read(
    alloc: Global,
    first: u32,
    before: Items<Command>,
    lines: &[Line],
) -> Result<Items<Command>, ScenarioFault>
    ensures { Gives result (commands_from first before lines.now) }
{
    let mut commands = before;
    let mut rest = lines;
    'reading: while let [line, behind @ ..] = rest {
        let command = command_at(alloc, first, line)?;
        commands.push(command)?;
        rest = behind;
    }
    Ok(commands)
}

/// The commands of a joined line, behind those before them.
fn line_read(
    alloc: Global,
    first: u32,
    before: Items<Command>,
    marks: &[Mark],
) -> Result<Items<Command>, ScenarioFault>
    ensures { Gives result (line_read first before marks.now) }
{
    match line_commands(alloc, marks) {
        Ok(lines) => commands_read(alloc, first, before, lines.as_slice()),
        Err(fault) => Err(text_fault(first, fault)),
    }
}

fn joined_read(
    alloc: Global,
    first: u32,
    lines: &[Items<Mark>],
) -> Result<Items<Command>, ScenarioFault>
    ensures { Gives result (joined_from first [] lines.now) }
{
    let mut commands = Items::new(alloc);
    let mut rest = lines;
    'reading: while let [marks, behind @ ..] = rest {
        commands = line_read(alloc, first, commands, marks.as_slice())?;
        rest = behind;
    }
    Ok(commands)
}

/// What the text of an MQSC section says.
#[tactic(auto, unfolding(crate::specs::Sections::section_read))]
fn section_read(alloc: Global, first: u32, text: &[u8]) -> Result<SectionRead, ScenarioFault>
    ensures { Gives result (section_read first text.now) }
{
    let joined = join_lines(alloc, text)?;
    let commands = joined_read(alloc, first, joined.lines.as_slice())?;
    Ok(SectionRead {
        commands,
        unfinished: joined.unfinished,
    })
}

/// The section with one more line.
pub fn text_added(opened: Opened, line: &[u8]) -> Result<Opened, AllocError>
    ensures { IfOk result (λ o. o ≡ text_added line.now opened) }
{
    let mut opened = opened;
    opened.text.extend_from_slice(line)?;
    opened.text.push(b'\n')?;
    Ok(opened)
}

/// The section that ends with the line of that number.
#[tactic(auto, unfolding(crate::specs::Sections::mqsc_ended))]
pub fn mqsc_ended(alloc: Global, opened: Opened, number: u32) -> Result<Section, ScenarioFault>
    ensures { Gives result (mqsc_ended number opened) }
{
    let read = section_read(alloc, opened.first, opened.text.as_slice())?;
    if read.unfinished {
        return Err(ScenarioFault::BadLine(number, Cause::Mqsc(MqscFault::OpenContinuation)));
    }
    Ok(Section {
        label: opened.label,
        manager: opened.manager,
        commands: read.commands,
    })
}

/// The rules section of a manager of that name.
#[tactic(auto, unfolding(crate::specs::Sections::rules_ended))]
pub fn rules_ended(alloc: Global, opened: Opened, own: &QName) -> Result<RulesPart, ScenarioFault>
    ensures { Gives result (rules_ended own.now opened) }
{
    match table(alloc, opened.text.as_slice(), own) {
        Ok(table) => Ok(RulesPart {
            label: opened.label,
            manager: opened.manager,
            table,
        }),
        Err(fault) => Err(rules_fault(opened.first, fault)),
    }
}

/// The line from which on the last one goes on where the text ends, if it does and no quote is open in it.
fn last_in(alloc: Global, marks: &[Mark]) -> Result<Option<usize>, ScenarioFault>
    ensures { Gives result (Ok (last_in marks.now)) }
{
    let [first, ..] = marks else {
        return Ok(None);
    };
    match line_commands(alloc, marks) {
        Ok(_) => Ok(Some(first.line)),
        Err(LexFault::NoMemory) => Err(ScenarioFault::NoMemory),
        Err(LexFault::OpenQuote(_)) => Ok(None),
        Err(LexFault::OpenContinuation) => Ok(Some(first.line)),
    }
}

/// The same of lines that were joined.
fn goes_on_from(alloc: Global, joined: &Joined) -> Result<Option<usize>, ScenarioFault>
    ensures { Gives result (Ok (goes_on_from joined.now)) }
{
    if !joined.unfinished {
        return Ok(None);
    }
    match joined.lines.as_slice().last() {
        Some(marks) => last_in(alloc, marks.as_slice()),
        None => Ok(None),
    }
}

/// The fault of a text, unless it is in a line that goes on where the text ends, from this line of the section on.
fn before_last(first: u32, last: Option<usize>, fault: ScenarioFault) -> Result<(), ScenarioFault>
    ensures { result ≡ before_last first last fault }
{
    match last {
        None => Err(fault),
        Some(from) => match fault {
            ScenarioFault::BadLine(line, cause) => {
                if line < line_in(first, from) {
                    Err(ScenarioFault::BadLine(line, cause))
                } else {
                    Ok(())
                }
            }
            ScenarioFault::Limit(line, limit) => Err(ScenarioFault::Limit(line, limit)),
            ScenarioFault::NoMemory => Err(ScenarioFault::NoMemory),
        },
    }
}

/// The fault of an MQSC section that no line ends, if it has one.
#[tactic(auto, unfolding(crate::specs::Sections::mqsc_cut))]
pub fn mqsc_cut(alloc: Global, opened: &Opened) -> Result<(), ScenarioFault>
    ensures { Gives result (mqsc_cut opened.now) }
{
    let joined = join_lines(alloc, opened.text.as_slice())?;
    let last = goes_on_from(alloc, &joined)?;
    match section_read(alloc, opened.first, opened.text.as_slice()) {
        Ok(_) => Ok(()),
        Err(fault) => before_last(opened.first, last, fault),
    }
}

/// The text with an empty line behind it, so that its last line goes on no further.
fn with_empty_line(alloc: Global, text: &[u8]) -> Result<Items<u8>, AllocError>
    ensures { IfOk result (λ t. t ≡ text.now ++ 10 ∷ []) }
{
    let mut whole = Items::from_slice(alloc, text)?;
    whole.push(b'\n')?;
    Ok(whole)
}

/// The fault of a rules section that no line ends, if it has one.
#[tactic(auto, unfolding(crate::specs::Sections::rules_cut))]
pub fn rules_cut(alloc: Global, opened: &Opened, own: &QName) -> Result<(), ScenarioFault>
    ensures { Gives result (rules_cut own.now opened.now) }
{
    let joined = join_lines(alloc, opened.text.as_slice())?;
    let last = goes_on_from(alloc, &joined)?;
    let text = with_empty_line(alloc, opened.text.as_slice())?;
    match table(alloc, text.as_slice(), own) {
        Ok(_) => Ok(()),
        Err(fault) => before_last(opened.first, last, rules_fault(opened.first, fault)),
    }
}
