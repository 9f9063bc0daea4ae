//! The rules table of a text, entry by entry.

ghost use Rattle.std.specs.Prelude.{◌≡◌, ◌<◌, ◌^◌, length};
ghost use Rattle.mq_text.specs.Lines.{lines_of};
ghost use Rattle.mq_rules_text.specs.Faults.{Reads, Gives};
ghost use Rattle.mq_rules_text.specs.Tables.{entry_said, pairs_said, entry_read, entries_read, rules_fault, line_read, first_line, lines_read, nothing_read, table_of};

use crate::control::{control_of, default_control};
use crate::draft::rule_of;
use crate::fault::{Flaw, RulesFault, fault_at};
use crate::pairs::{Pair, has_control, pairs_of};
use mq_base::{Items, QName};
use mq_rules::Table;
use mq_sc_lex::{LexFault, Line, Mark, join_lines, line_commands};
use mq_text::next_line;
use std::alloc::Global;

/// The table so far, and whether an entry was read.
#[derive(Drop)]
pub struct Reading {
    pub begun: bool,
    pub table: Table,
}

fn nothing_read(alloc: Global) -> Reading
    ensures { result ≡ nothing_read }
{
    let control = default_control();
    Reading {
        begun: false,
        table: Table {
            input_q: control.input_q,
            retry_interval: control.retry_interval,
            wait: control.wait,
            rules: Items::new(alloc),
        },
    }
}

fn pairs_said(alloc: Global, reading: Reading, pairs: &[Pair], own: &QName) -> Result<Table, Flaw>
    ensures { Reads result (pairs_said own.now reading pairs.now) }
{
    let Reading { begun, mut table } = reading;
    if !begun && has_control(pairs) {
        match control_of(own, pairs) {
            Ok(control) => {
                table.input_q = control.input_q;
                table.retry_interval = control.retry_interval;
                table.wait = control.wait;
                Ok(table)
            }
            Err(flaw) => Err(flaw),
        }
    } else {
        let rule = rule_of(alloc, pairs)?;
        table.rules.push(rule)?;
        Ok(table)
    }
}

#[tactic(auto, unfolding(crate::specs::Tables::entry_said))]
fn entry_said(alloc: Global, reading: Reading, line: &Line, own: &QName) -> Result<Table, Flaw>
    ensures { Reads result (entry_said own.now reading line.now) }
{
    let pairs = pairs_of(alloc, line.tokens.as_slice())?;
    pairs_said(alloc, reading, pairs.as_slice(), own)
}

fn entry_read(
    alloc: Global,
    reading: Reading,
    line: &Line,
    own: &QName,
) -> Result<Reading, RulesFault>
    ensures { Gives result (entry_read own.now line.now reading) }
{
    match entry_said(alloc, reading, line, own) {
        Ok(table) => Ok(Reading { begun: true, table }),
        Err(flaw) => Err(fault_at(line.number, flaw)),
    }
}

fn entries_read(
    alloc: Global,
    reading: Reading,
    lines: &[Line],
    own: &QName,
) -> Result<Reading, RulesFault>
    ensures { Gives result (entries_read own.now lines.now reading) }
{
    let mut reading = reading;
    let mut rest = lines;
    'reading: while let [line, further @ ..] = rest {
        reading = entry_read(alloc, reading, line, own)?;
        rest = further;
    }
    Ok(reading)
}

fn rules_fault(fault: LexFault) -> RulesFault
    ensures { result ≡ rules_fault fault }
{
    match fault {
        LexFault::OpenQuote(line) => RulesFault::BadLine(line),
        LexFault::OpenContinuation => RulesFault::BadLine(0),
        LexFault::NoMemory => RulesFault::NoMemory,
    }
}

#[tactic(auto, unfolding(crate::specs::Tables::line_read))]
fn line_read(
    alloc: Global,
    reading: Reading,
    marks: &[Mark],
    own: &QName,
) -> Result<Reading, RulesFault>
    ensures { Gives result (line_read own.now marks.now reading) }
{
    match line_commands(alloc, marks) {
        Ok(lines) => entries_read(alloc, reading, lines.as_slice(), own),
        Err(fault) => Err(rules_fault(fault)),
    }
}

fn first_line(last: usize, marks: &[Mark]) -> usize
    ensures { result ≡ first_line last marks.now }
{
    match marks {
        [] => last,
        [first, ..] => first.line,
    }
}

fn lines_read(
    alloc: Global,
    lines: &[Items<Mark>],
    unfinished: bool,
    last: usize,
    own: &QName,
) -> Result<Reading, RulesFault>
    ensures { Gives result (lines_read own.now unfinished last lines.now nothing_read) }
{
    let mut reading = nothing_read(alloc);
    let mut rest = lines;
    'reading: while let [marks, further @ ..] = rest {
        if unfinished && further.is_empty() {
            return Err(RulesFault::BadLine(first_line(last, marks.as_slice())));
        }
        reading = line_read(alloc, reading, marks.as_slice(), own)?;
        rest = further;
    }
    Ok(reading)
}

/// How many lines a text has.
fn line_count(text: &[u8]) -> usize
    ensures { result ≡ length (lines_of text.now) }
{
    let mut count = 0;
    let mut rest = text;
    'counting: while let Some((_, after)) = next_line(rest) {
        count += 1;
        rest = after;
    }
    count
}

/// The rules table that a text is, for the handler of a manager of that name.
///
/// Lines, comments, lines that go on, and quotes are those of MQSC; a `;` parts entries as the end of
/// a line does. An entry is made of KEYWORD(value). The first entry is the control entry where it has
/// one of INPUTQ, INPUTQM, RETRYINT, WAIT; every other entry is a rule. Source: IBM MQ, "The
/// dead-letter queue handler rules table".
///
/// # Errors
///
/// The first line at fault, and within it the first that applies of `BadLine`, `BadKeyword`,
/// `BadValue`, `NoAction`, `FwdqMissing`; `NoMemory`.
#[tactic(auto, unfolding(crate::specs::Tables::table_of))]
pub fn table(alloc: Global, text: &[u8], own: &QName) -> Result<Table, RulesFault>
    ensures { Gives result (table_of own.now text.now) }
{
    let joined = join_lines(alloc, text)?;
    let last = line_count(text);
    let reading = lines_read(alloc, joined.lines.as_slice(), joined.unfinished, last, own)?;
    Ok(reading.table)
}
