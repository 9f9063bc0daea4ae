//! What is told of a text that isn't run.

use crate::commands::{mqsc_hint, rules_hint};
use crate::finding::{Flaw, Found, first_flaw};
use crate::hint::{Hint, shown, shown_word};
use crate::spot::{Spot, behind_lines, spot_of};
use crate::usage::{Slot, Usage, part_usage, script_usage, step_usage};
use mq_scn_lines::{Limit, MqscFault, first_word, is_open, words_of};
use mq_scn_text::{Cause, Inside, ScenarioFault, Stage};
use std::alloc::{AllocError, Global};

/// How many bytes of a line are shown.
const LINE_SHOWN: usize = 200;

/// How a line that begins with a word is written where the spot stands.
fn usage_at(spot: &Spot, word: &[u8]) -> Option<Usage> {
    match &spot.reading.inside {
        Inside::Nothing => part_usage(word),
        Inside::Script(_) => script_usage(word),
        Inside::Steps => step_usage(word),
        Inside::Mqsc(_) | Inside::Rules(_) => None,
    }
}

/// With which words a line begins outside sections, scripts and steps.
fn parts_wanted(stage: Stage) -> &'static str {
    match stage {
        Stage::Start => "the first line is NETWORK",
        Stage::Network => "a MOMENT or a QMGR line comes next",
        Stage::Moment => "a QMGR line comes next",
        Stage::Managers | Stage::Cables => {
            "a line begins here with QMGR, CABLE, MQSC, RULES, SCRIPT, MONITOR or STEPS"
        }
        Stage::Sections => "a line begins here with MQSC, RULES, SCRIPT, MONITOR or STEPS",
        Stage::Steps => {
            "behind ENDSTEPS nothing stands but blank lines and lines that begin with *"
        }
    }
}

/// With which words a line begins where the spot stands.
fn wanted_at(spot: &Spot) -> &'static str {
    match &spot.reading.inside {
        Inside::Nothing => parts_wanted(spot.reading.stage),
        Inside::Script(_) => {
            "a line of a script begins with MQCONN, MQDISC, MQOPEN, MQCLOSE, MQPUT, MQPUT1, MQGET, MQCMIT, MQBACK, MQSC, CRASH, RESTART or CUT, and ENDSCRIPT ends it"
        }
        Inside::Steps => {
            "a step begins with OBEY, DO, RUN, PHASE, PUMP, HANDLE, WATCH, SERVE, CRASH, RESTART, CUT or CLOCK, and ENDSTEPS ends them"
        }
        Inside::Mqsc(_) | Inside::Rules(_) => "the section isn't as it should be",
    }
}

fn kind_wanted(slot: Slot) -> &'static str {
    match slot {
        Slot::Manager => "no QMGR line above has that name",
        Slot::Section => "no MQSC section above has that label",
        Slot::Table => "no RULES section above has that label",
        Slot::Monitor => "no MONITOR line above has that label",
        _ => "no SCRIPT above has that label",
    }
}

fn found_hint(alloc: Global, flaw: Flaw, found: &Found, usage: &Usage) -> Result<Hint, AllocError> {
    let word = shown_word(alloc, found.word)?;
    match flaw {
        Flaw::Form => Ok(Hint::Word(word, usage.text)),
        Flaw::Name => Ok(Hint::Name(word)),
        Flaw::Unknown => Ok(Hint::Unknown(word, kind_wanted(found.slot))),
        Flaw::Number => Ok(Hint::Number(word, usage.text)),
    }
}

/// A line whose first word is known: the word at fault, or how such a line is written.
fn usage_hint(
    alloc: Global,
    spot: &Spot,
    flaw: Flaw,
    usage: &Usage,
    words: &[&[u8]],
) -> Result<Hint, AllocError> {
    match first_flaw(alloc, &spot.reading.scenario, flaw, usage, words) {
        Some(found) => found_hint(alloc, flaw, &found, usage),
        None => Ok(Hint::Line(usage.text)),
    }
}

fn words_hint(alloc: Global, spot: &Spot, flaw: Flaw, words: &[&[u8]]) -> Result<Hint, AllocError> {
    let [verb, rest @ ..] = words else {
        return Ok(Hint::Line(wanted_at(spot)));
    };
    match usage_at(spot, verb) {
        Some(usage) => usage_hint(alloc, spot, flaw, &usage, rest),
        None => Ok(Hint::Word(shown_word(alloc, verb)?, wanted_at(spot))),
    }
}

/// A line of words that has the flaw.
fn line_hint(alloc: Global, spot: &Spot, flaw: Flaw) -> Result<Hint, AllocError> {
    if is_open(spot.line) {
        return Ok(Hint::Line("a quote isn't closed; two quotes within a text stand for one"));
    }
    let words = words_of(alloc, spot.line)?;
    words_hint(alloc, spot, flaw, words.as_slice())
}

/// A line that has something twice.
fn twice_hint(alloc: Global, spot: &Spot) -> Result<Hint, AllocError> {
    match &spot.reading.inside {
        Inside::Script(_) => Ok(Hint::Line(
            "an option stands twice, or beside one that excludes it",
        )),
        Inside::Steps => Ok(Hint::Line("a phase has each script at most once")),
        Inside::Nothing | Inside::Mqsc(_) | Inside::Rules(_) => part_twice_hint(alloc, spot.line),
    }
}

fn part_twice_hint(alloc: Global, line: &[u8]) -> Result<Hint, AllocError> {
    let words = words_of(alloc, line)?;
    match words.as_slice() {
        [_, name] | [_, name, _] | [_, name, _, _] => Ok(Hint::Twice(
            shown_word(alloc, name)?,
            "a manager's name, a channel and a label each stand for one part alone; sections, rules tables, scripts and monitors share their labels",
        )),
        _ => Ok(Hint::Line(
            "the channel has a cable already, or a frame two faults in one direction",
        )),
    }
}

/// A line out of its order.
fn order_hint(alloc: Global, spot: &Spot) -> Result<Hint, AllocError> {
    if matches!(spot.reading.inside, Inside::Script(_)) {
        return Ok(Hint::Line("an MQCONN behind another needs an MQDISC between them"));
    }
    let word = match first_word(spot.line) {
        Some((word, _)) => shown_word(alloc, word)?,
        None => String::new(alloc),
    };
    Ok(Hint::Word(word, parts_wanted(spot.reading.stage)))
}

/// The text of the commands of which one has a fault: a section's, or what stands behind MQSC, or behind DO and a manager.
fn commands_at<'a>(text: &'a [u8], spot: &Spot<'a>) -> &'a [u8] {
    if let Inside::Mqsc(section) = &spot.reading.inside {
        return behind_lines(text, section.first);
    }
    let behind = match first_word(spot.line) {
        Some((_, behind)) => behind,
        None => spot.line,
    };
    if !matches!(spot.reading.inside, Inside::Steps) {
        return behind;
    }
    match first_word(behind) {
        Some((_, command)) => command,
        None => behind,
    }
}

/// A text that ends before ENDSTEPS.
fn ending_hint(spot: &Spot) -> Hint {
    match &spot.reading.inside {
        Inside::Mqsc(_) => Hint::Line("the text ends here, and ENDMQSC is missing"),
        Inside::Rules(_) => Hint::Line("the text ends here, and ENDRULES is missing"),
        Inside::Script(_) => Hint::Line("the text ends here, and ENDSCRIPT is missing"),
        Inside::Steps => Hint::Line("the text ends here, and ENDSTEPS is missing"),
        Inside::Nothing => Hint::Line("the text ends here, and STEPS and ENDSTEPS are missing"),
    }
}

fn limit_hint(limit: Limit) -> Hint {
    match limit {
        Limit::Lines => Hint::Line("a scenario has at most 40,000 lines"),
        Limit::Managers => Hint::Line("a scenario has at most 8 queue managers"),
        Limit::Cables => Hint::Line("a scenario has at most 32 cables"),
        Limit::Scripts => Hint::Line("a scenario has at most 64 scripts"),
        Limit::Sections => {
            Hint::Line("a scenario has at most 64 sections and rules tables together")
        }
        Limit::Monitors => Hint::Line("a scenario has at most 16 monitors"),
        Limit::Steps => Hint::Line("a scenario has at most 3,000 steps"),
        Limit::ScriptLines => Hint::Line("a script has at most 25,000 lines"),
        Limit::Bodies => {
            Hint::Line("the bodies of a scenario have at most 67,108,864 bytes together")
        }
        Limit::Body => Hint::Line("a body has 0 to 4,194,304 bytes"),
        Limit::Turns => Hint::Line("PUMP, HANDLE and SERVE take 1 to 100,000 turns"),
        Limit::Clock => Hint::Line("CLOCK and WAIT take 0 to 999,999,999 milliseconds"),
        Limit::LogMax => Hint::Line("LOGMAX is 4,096 to 268,435,456"),
    }
}

fn mqsc_at(alloc: Global, text: &[u8], spot: &Spot, fault: MqscFault) -> Result<Hint, AllocError> {
    mqsc_hint(alloc, commands_at(text, spot), fault)
}

fn cause_hint(alloc: Global, text: &[u8], spot: &Spot, cause: Cause) -> Result<Hint, AllocError> {
    match cause {
        Cause::Form => line_hint(alloc, spot, Flaw::Form),
        Cause::Name => line_hint(alloc, spot, Flaw::Name),
        Cause::Unknown => line_hint(alloc, spot, Flaw::Unknown),
        Cause::Number => line_hint(alloc, spot, Flaw::Number),
        Cause::Twice => twice_hint(alloc, spot),
        Cause::Order => order_hint(alloc, spot),
        Cause::Mqsc(fault) => mqsc_at(alloc, text, spot, fault),
        Cause::Rules(fault) => Ok(rules_hint(fault)),
        Cause::Ending => Ok(ending_hint(spot)),
    }
}

fn ends_with_return(line: &[u8]) -> bool {
    match line {
        [.., b'\r'] => true,
        _ => false,
    }
}

fn hint_at(
    alloc: Global,
    text: &[u8],
    spot: &Spot,
    fault: ScenarioFault,
) -> Result<Hint, AllocError> {
    if ends_with_return(spot.line) {
        return Ok(Hint::Line(
            "the line ends with a carriage return, which is a byte like any other here: lines end with a line feed alone",
        ));
    }
    match fault {
        ScenarioFault::BadLine(_, cause) => cause_hint(alloc, text, spot, cause),
        ScenarioFault::Limit(_, limit) => Ok(limit_hint(limit)),
        ScenarioFault::NoMemory => Ok(Hint::Line("there is no memory for the scenario")),
    }
}

fn number_of(fault: ScenarioFault) -> u32 {
    match fault {
        ScenarioFault::BadLine(line, _) | ScenarioFault::Limit(line, _) => line,
        ScenarioFault::NoMemory => 0,
    }
}

/// What is told of a text that is no scenario: the line's number, the cause, a sentence; and then the line itself, as far
/// as it can be shown.
pub fn fault_text(alloc: Global, text: &[u8], fault: ScenarioFault) -> Result<String, AllocError> {
    let Some(spot) = spot_of(alloc, text, number_of(fault))? else {
        return format!(in alloc; "{fault}\n");
    };
    let hint = hint_at(alloc, text, &spot, fault)?;
    let line = shown(alloc, spot.line, LINE_SHOWN)?;
    format!(in alloc; "{fault}: {hint}\n{line}\n")
}
