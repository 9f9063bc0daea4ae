//! The word of a line at which its fault is.

use crate::usage::{Slot, Usage};
use mq_base::QName;
use mq_history::Scenario;
use mq_scn_lines::{
    LineFault, OPEN_OPTIONS, are_options, bracketed, channel_in, label_in, name_in,
    name_or_blank_in,
};
use mq_scn_script::{get_options, put_options};
use mq_scn_text::below::cable_faults;
use std::alloc::Global;

/// What is looked for.
#[derive(Clone, Copy, PartialEq, Eq)]
pub enum Flaw {
    /// A word that isn't written as what may stand at its place.
    Form,
    /// What stands for a name or a label and is none.
    Name,
    /// A label or a manager that doesn't stand above.
    Unknown,
    /// A number.
    Number,
}

/// A word, and what may stand at its place.
#[derive(Clone, Copy)]
pub struct Found<'a> {
    pub slot: Slot,
    pub word: &'a [u8],
}

fn is_number(word: &[u8]) -> bool {
    for byte in word {
        if *byte < b'0' || *byte > b'9' {
            return false;
        }
    }
    word.len() > 0
}

fn has_bracket(word: &[u8]) -> bool {
    for byte in word {
        if *byte == b'(' || *byte == b')' {
            return true;
        }
    }
    false
}

/// Whether a word is written as what may stand at a place.
fn has_form(slot: Slot, word: &[u8]) -> bool {
    match slot {
        Slot::End => false,
        Slot::Label
        | Slot::Section
        | Slot::Table
        | Slot::Script
        | Slot::Monitor
        | Slot::Manager
        | Slot::Name
        | Slot::MaybeName
        | Slot::Channel
        | Slot::Scripts => !has_bracket(word),
        Slot::Queue => bracketed(word, b"QUEUE(").is_some(),
        Slot::Target => { bracketed(word, b"QUEUE(").is_some() || word == b"TOREPLY".as_slice() }
        Slot::MaybeManager => bracketed(word, b"QMGR(").is_some(),
        Slot::MaybeLogMax => bracketed(word, b"LOGMAX(").is_some(),
        Slot::Body => bracketed(word, b"TEXT(").is_some() || bracketed(word, b"FILL(").is_some(),
        Slot::Number | Slot::MaybeNumber => is_number(word),
        Slot::OpenOptions | Slot::PutOptions | Slot::GetOptions | Slot::CableFaults | Slot::Rest =>
            true,
    }
}

/// Whether the text in a word's brackets is no name.
fn is_no_name(word: &[u8], keyword: &[u8]) -> bool {
    match bracketed(word, keyword) {
        Some(name) => name_or_blank_in(name).is_err(),
        None => false,
    }
}

fn is_bad_name(slot: Slot, word: &[u8]) -> bool {
    match slot {
        Slot::Label | Slot::Section | Slot::Table | Slot::Script | Slot::Monitor | Slot::Scripts =>
            label_in(word).is_err(),
        Slot::Manager | Slot::Name | Slot::MaybeName => name_in(word).is_err(),
        Slot::Channel => channel_in(word).is_err(),
        Slot::Queue | Slot::Target => is_no_name(word, b"QUEUE("),
        Slot::MaybeManager => is_no_name(word, b"QMGR("),
        Slot::End
        | Slot::MaybeLogMax
        | Slot::Body
        | Slot::Number
        | Slot::MaybeNumber
        | Slot::OpenOptions
        | Slot::PutOptions
        | Slot::GetOptions
        | Slot::CableFaults
        | Slot::Rest => false,
    }
}

fn is_manager(scenario: &Scenario, name: &QName) -> bool {
    for manager in scenario.managers.as_slice() {
        if manager.name.text() == name.text() {
            return true;
        }
    }
    false
}

fn is_section(scenario: &Scenario, label: &[u8]) -> bool {
    for section in scenario.sections.as_slice() {
        if section.label.text() == label {
            return true;
        }
    }
    false
}

fn is_table(scenario: &Scenario, label: &[u8]) -> bool {
    for part in scenario.rules.as_slice() {
        if part.label.text() == label {
            return true;
        }
    }
    false
}

fn is_script(scenario: &Scenario, label: &[u8]) -> bool {
    for script in scenario.scripts.as_slice() {
        if script.label.text() == label {
            return true;
        }
    }
    false
}

fn is_monitor(scenario: &Scenario, label: &[u8]) -> bool {
    for monitor in scenario.monitors.as_slice() {
        if monitor.label.text() == label {
            return true;
        }
    }
    false
}

fn is_unknown_manager(scenario: &Scenario, word: &[u8]) -> bool {
    match name_in(word) {
        Ok(name) => !is_manager(scenario, &name),
        Err(_) => false,
    }
}

/// Whether a label or a manager stands in no line above.
fn is_unknown(scenario: &Scenario, slot: Slot, word: &[u8]) -> bool {
    if slot == Slot::Manager {
        return is_unknown_manager(scenario, word);
    }
    let Ok(label) = label_in(word) else {
        return false;
    };
    match slot {
        Slot::Section => !is_section(scenario, label.text()),
        Slot::Table => !is_table(scenario, label.text()),
        Slot::Script | Slot::Scripts => !is_script(scenario, label.text()),
        Slot::Monitor => !is_monitor(scenario, label.text()),
        _ => false,
    }
}

/// Whether a word has the flaw at its place.
fn has_flaw(scenario: &Scenario, flaw: Flaw, slot: Slot, word: &[u8]) -> bool {
    match flaw {
        Flaw::Form => !has_form(slot, word),
        Flaw::Name => is_bad_name(slot, word),
        Flaw::Unknown => is_unknown(scenario, slot, word),
        Flaw::Number => slot == Slot::Number || slot == Slot::MaybeNumber,
    }
}

fn is_optional(slot: Slot) -> bool {
    matches!(
        slot,
        Slot::MaybeName | Slot::MaybeManager | Slot::MaybeLogMax | Slot::MaybeNumber
    )
}

fn is_many(slot: Slot) -> bool {
    matches!(
        slot,
        Slot::OpenOptions | Slot::PutOptions | Slot::GetOptions | Slot::CableFaults | Slot::Scripts
    )
}

/// Whether options are written as they may stand together.
fn are_written(alloc: Global, slot: Slot, words: &[&[u8]]) -> bool {
    match slot {
        Slot::OpenOptions => are_options(&OPEN_OPTIONS, words),
        Slot::PutOptions => is_no_form(put_options(alloc, words).err()),
        _ => is_no_form(get_options(alloc, words).err()),
    }
}

fn is_no_form(fault: Option<LineFault>) -> bool {
    !matches!(fault, Some(LineFault::Form))
}

/// How many of the first options may stand together.
fn written_front(alloc: Global, slot: Slot, words: &[&[u8]]) -> usize {
    let mut count = words.len();
    'looking: while count > 0 {
        let (front, _) = words.split_at(count);
        if are_written(alloc, slot, front) {
            return count;
        }
        count -= 1;
    }
    0
}

/// The first option with which those up to it are none: it isn't written as one, or another of its group stands before it.
fn first_option<'a>(alloc: Global, slot: Slot, words: &[&'a [u8]]) -> Option<Found<'a>> {
    match words.get(written_front(alloc, slot, words)) {
        Some(word) => Some(Found { slot, word }),
        None => None,
    }
}

fn fault_of(alloc: Global, word: &[u8]) -> Option<LineFault> {
    cable_faults(alloc, &[b"OUT".as_slice(), word]).err()
}

/// Whether a word is no fault of a cable and no word of a direction, or a fault with a number out of range.
fn is_bad_fault(alloc: Global, flaw: Flaw, word: &[u8]) -> bool {
    match flaw {
        Flaw::Form => {
            word != b"OUT".as_slice()
                && word != b"BACK".as_slice()
                && matches!(fault_of(alloc, word), Some(LineFault::Form))
        }
        Flaw::Number => matches!(fault_of(alloc, word), Some(LineFault::Number)),
        Flaw::Name | Flaw::Unknown => false,
    }
}

fn first_fault<'a>(alloc: Global, flaw: Flaw, words: &[&'a [u8]]) -> Option<Found<'a>> {
    for word in words {
        if is_bad_fault(alloc, flaw, word) {
            return Some(Found {
                slot: Slot::CableFaults,
                word,
            });
        }
    }
    None
}

fn first_of<'a>(
    alloc: Global,
    scenario: &Scenario,
    flaw: Flaw,
    slot: Slot,
    words: &[&'a [u8]],
) -> Option<Found<'a>> {
    if slot == Slot::CableFaults {
        return first_fault(alloc, flaw, words);
    }
    if slot != Slot::Scripts {
        return if flaw == Flaw::Form {
            first_option(alloc, slot, words)
        } else {
            None
        };
    }
    for word in words {
        if has_flaw(scenario, flaw, slot, word) {
            return Some(Found { slot, word });
        }
    }
    None
}

/// The first of the words behind a line's verb that has the flaw; none where it isn't found so.
pub fn first_flaw<'a>(
    alloc: Global,
    scenario: &Scenario,
    flaw: Flaw,
    usage: &Usage,
    words: &[&'a [u8]],
) -> Option<Found<'a>> {
    let mut rest = words;
    for slot in &usage.slots {
        let slot = *slot;
        if slot == Slot::Rest {
            return None;
        }
        if is_many(slot) {
            return first_of(alloc, scenario, flaw, slot, rest);
        }
        let [word, behind @ ..] = rest else {
            return None;
        };
        if is_optional(slot) && !has_form(slot, word) {
            continue;
        }
        if has_flaw(scenario, flaw, slot, word) {
            return Some(Found { slot, word });
        }
        rest = behind;
    }
    None
}
