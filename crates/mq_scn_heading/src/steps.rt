//! Steps, one by one.

ghost use Rattle.std.specs.Prelude.{◌≡◌, ◌≤◌, IfOk};
ghost use Rattle.mq_scn_lines.specs.Words.{texts_of};
ghost use Rattle.mq_scn_lines.specs.Faults.{Reads};
ghost use Rattle.mq_scn_heading.specs.Steps.{step_text, step_verb_of, obey_line, lines_in, run_line, turns_in, pump_line, handle_line, watch_line, serve_line, crash_line, restart_line, cut_count_in, cut_line, clock_line, phase_line, do_line, step_of, words_read, step_line};

use crate::lookup::{manager_at, monitor_at, rules_at, script_at, section_at};
use crate::phases::phase_of;
use mq_history::{Scenario, Step};
use mq_scn_lines::{Limit, LineFault, both, first_word, is_open, ranged, words_of};
use mq_scn_script::command_in;
use std::alloc::Global;

/// What a step does.
#[derive(Clone, Copy)]
pub enum StepVerb {
    Obey,
    Do,
    Run,
    Phase,
    Pump,
    Handle,
    Watch,
    Serve,
    Crash,
    Restart,
    Cut,
    Clock,
}

/// Every verb of a step.
pub const STEP_VERBS: [StepVerb; 12] = [
    StepVerb::Obey,
    StepVerb::Do,
    StepVerb::Run,
    StepVerb::Phase,
    StepVerb::Pump,
    StepVerb::Handle,
    StepVerb::Watch,
    StepVerb::Serve,
    StepVerb::Crash,
    StepVerb::Restart,
    StepVerb::Cut,
    StepVerb::Clock,
];

fn step_text(verb: StepVerb) -> &'static str
    ensures { result.now ≡ step_text verb }
{
    match verb {
        StepVerb::Obey => "OBEY",
        StepVerb::Do => "DO",
        StepVerb::Run => "RUN",
        StepVerb::Phase => "PHASE",
        StepVerb::Pump => "PUMP",
        StepVerb::Handle => "HANDLE",
        StepVerb::Watch => "WATCH",
        StepVerb::Serve => "SERVE",
        StepVerb::Crash => "CRASH",
        StepVerb::Restart => "RESTART",
        StepVerb::Cut => "CUT",
        StepVerb::Clock => "CLOCK",
    }
}

/// The verb that a word is.
#[tactic(auto, unfolding(crate::specs::Steps::step_verb_of))]
fn step_verb_of(word: &[u8]) -> Option<StepVerb>
    ensures { result ≡ step_verb_of word.now }
{
    STEP_VERBS
        .iter()
        .copied()
        .find(|verb| step_text(*verb).as_bytes() == word)
}

/// OBEY label.
fn obey_line(scenario: &Scenario, words: &[&[u8]]) -> Result<Step, LineFault>
    ensures { result ≡ obey_line scenario.now (texts_of words.now) }
{
    match words {
        [label] => match section_at(scenario, label) {
            Ok(section) => Ok(Step::Obey(section)),
            Err(fault) => Err(fault),
        },
        _ => Err(LineFault::Form),
    }
}

/// The number of lines that a RUN does; none for all that are left.
fn lines_in(words: &[&[u8]]) -> Result<Option<u32>, LineFault>
    ensures { result ≡ lines_in (texts_of words.now) }
{
    match words {
        [] => Ok(None),
        [word] => match ranged(word, 0, 4_294_967_295, LineFault::Number) {
            Ok(count) => Ok(Some(count as u32)),
            Err(fault) => Err(fault),
        },
        _ => Err(LineFault::Form),
    }
}

/// RUN label [n].
fn run_line(scenario: &Scenario, words: &[&[u8]]) -> Result<Step, LineFault>
    ensures { result ≡ run_line scenario.now (texts_of words.now) }
{
    let [label, rest @ ..] = words else {
        return Err(LineFault::Form);
    };
    match both(script_at(scenario, label), lines_in(rest)) {
        Ok((script, count)) => Ok(Step::Run(script, count)),
        Err(fault) => Err(fault),
    }
}

/// PHASE label label and more.
fn phase_line(alloc: Global, scenario: &Scenario, words: &[&[u8]]) -> Result<Step, LineFault>
    ensures { Reads result (phase_line scenario.now (texts_of words.now)) }
{
    match phase_of(alloc, scenario, words) {
        Ok(scripts) => Ok(Step::Phase(scripts)),
        Err(fault) => Err(fault),
    }
}

/// A number of turns.
fn turns_in(word: &[u8]) -> Result<u64, LineFault>
    ensures turns { result ≡ turns_in word.now }
    ensures range { IfOk result (λ n. n ≤ 100000) }
{
    ranged(word, 1, 100_000, LineFault::Limit(Limit::Turns))
}

/// PUMP n.
fn pump_line(words: &[&[u8]]) -> Result<Step, LineFault>
    ensures { result ≡ pump_line (texts_of words.now) }
{
    match words {
        [word] => match turns_in(word) {
            Ok(turns) => Ok(Step::Pump(turns as u32)),
            Err(fault) => Err(fault),
        },
        _ => Err(LineFault::Form),
    }
}

/// A number of turns that fits.
fn few_turns_in(word: &[u8]) -> Result<u32, LineFault>
    ensures { result ≡ turns_in word.now }
{
    match turns_in(word) {
        Ok(turns) => Ok(turns as u32),
        Err(fault) => Err(fault),
    }
}

/// HANDLE label n.
fn handle_line(scenario: &Scenario, words: &[&[u8]]) -> Result<Step, LineFault>
    ensures { result ≡ handle_line scenario.now (texts_of words.now) }
{
    match words {
        [label, count] => match both(rules_at(scenario, label), few_turns_in(count)) {
            Ok((rules, turns)) => Ok(Step::Handle(rules, turns)),
            Err(fault) => Err(fault),
        },
        _ => Err(LineFault::Form),
    }
}

/// WATCH label.
fn watch_line(scenario: &Scenario, words: &[&[u8]]) -> Result<Step, LineFault>
    ensures { result ≡ watch_line scenario.now (texts_of words.now) }
{
    match words {
        [label] => match monitor_at(scenario, label) {
            Ok(monitor) => Ok(Step::Watch(monitor)),
            Err(fault) => Err(fault),
        },
        _ => Err(LineFault::Form),
    }
}

/// SERVE label n.
fn serve_line(scenario: &Scenario, words: &[&[u8]]) -> Result<Step, LineFault>
    ensures { result ≡ serve_line scenario.now (texts_of words.now) }
{
    match words {
        [label, count] => match both(monitor_at(scenario, label), few_turns_in(count)) {
            Ok((monitor, turns)) => Ok(Step::Serve(monitor, turns)),
            Err(fault) => Err(fault),
        },
        _ => Err(LineFault::Form),
    }
}

/// CRASH manager.
fn crash_line(scenario: &Scenario, words: &[&[u8]]) -> Result<Step, LineFault>
    ensures { result ≡ crash_line scenario.now (texts_of words.now) }
{
    match words {
        [name] => match manager_at(scenario, name) {
            Ok(manager) => Ok(Step::Crash(manager)),
            Err(fault) => Err(fault),
        },
        _ => Err(LineFault::Form),
    }
}

/// RESTART manager.
fn restart_line(scenario: &Scenario, words: &[&[u8]]) -> Result<Step, LineFault>
    ensures { result ≡ restart_line scenario.now (texts_of words.now) }
{
    match words {
        [name] => match manager_at(scenario, name) {
            Ok(manager) => Ok(Step::Restart(manager)),
            Err(fault) => Err(fault),
        },
        _ => Err(LineFault::Form),
    }
}

/// The number of device calls up to a cut.
fn cut_count_in(word: &[u8]) -> Result<u32, LineFault>
    ensures { result ≡ cut_count_in word.now }
{
    match ranged(word, 1, 1000, LineFault::Number) {
        Ok(count) => Ok(count as u32),
        Err(fault) => Err(fault),
    }
}

/// CUT manager k.
fn cut_line(scenario: &Scenario, words: &[&[u8]]) -> Result<Step, LineFault>
    ensures { result ≡ cut_line scenario.now (texts_of words.now) }
{
    match words {
        [name, count] => match both(manager_at(scenario, name), cut_count_in(count)) {
            Ok((manager, count)) => Ok(Step::Cut(manager, count)),
            Err(fault) => Err(fault),
        },
        _ => Err(LineFault::Form),
    }
}

/// CLOCK ms.
fn clock_line(words: &[&[u8]]) -> Result<Step, LineFault>
    ensures { result ≡ clock_line (texts_of words.now) }
{
    match words {
        [word] => match ranged(word, 0, 999_999_999, LineFault::Limit(Limit::Clock)) {
            Ok(moment) => Ok(Step::Clock(moment)),
            Err(fault) => Err(fault),
        },
        _ => Err(LineFault::Form),
    }
}

/// DO manager command.
fn do_line(alloc: Global, scenario: &Scenario, text: &[u8]) -> Result<Step, LineFault>
    ensures { Reads result (do_line scenario.now text.now) }
{
    let Some((name, rest)) = first_word(text) else {
        return Err(LineFault::Form);
    };
    match both(manager_at(scenario, name), command_in(alloc, rest)) {
        Ok((manager, command)) => Ok(Step::Do(manager, command)),
        Err(fault) => Err(fault),
    }
}

/// The step of a verb, with the words behind it.
#[tactic(auto, unfolding(crate::specs::Steps::step_of))]
fn step_of(
    alloc: Global,
    scenario: &Scenario,
    verb: StepVerb,
    words: &[&[u8]],
) -> Result<Step, LineFault>
    ensures { Reads result (step_of scenario.now verb (texts_of words.now)) }
{
    match verb {
        StepVerb::Obey => obey_line(scenario, words),
        StepVerb::Do => Err(LineFault::Form),
        StepVerb::Run => run_line(scenario, words),
        StepVerb::Phase => phase_line(alloc, scenario, words),
        StepVerb::Pump => pump_line(words),
        StepVerb::Handle => handle_line(scenario, words),
        StepVerb::Watch => watch_line(scenario, words),
        StepVerb::Serve => serve_line(scenario, words),
        StepVerb::Crash => crash_line(scenario, words),
        StepVerb::Restart => restart_line(scenario, words),
        StepVerb::Cut => cut_line(scenario, words),
        StepVerb::Clock => clock_line(words),
    }
}

fn words_read(
    alloc: Global,
    scenario: &Scenario,
    verb: StepVerb,
    rest: &[u8],
) -> Result<Step, LineFault>
    ensures { Reads result (words_read scenario.now verb rest.now) }
{
    if is_open(rest) {
        return Err(LineFault::Form);
    }
    let words = words_of(alloc, rest)?;
    step_of(alloc, scenario, verb, words.as_slice())
}

/// What a step says, in a scenario whose parts are these.
///
/// # Errors
///
/// The first in this order that the line has: `Form`; the limits `Turns` and `Clock`; `Name`; `Unknown`; `Twice`;
/// `Number`; `Mqsc`. And `NoMemory`.
#[tactic(auto, unfolding(crate::specs::Steps::step_line))]
pub fn step_line(alloc: Global, scenario: &Scenario, line: &[u8]) -> Result<Step, LineFault>
    ensures { Reads result (step_line scenario.now line.now) }
{
    let Some((word, rest)) = first_word(line) else {
        return Err(LineFault::Form);
    };
    match step_verb_of(word) {
        None => Err(LineFault::Form),
        Some(StepVerb::Do) => do_line(alloc, scenario, rest),
        Some(verb) => words_read(alloc, scenario, verb, rest),
    }
}
