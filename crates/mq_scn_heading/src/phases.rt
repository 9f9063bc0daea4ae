//! The scripts of a PHASE step.

ghost use Rattle.std.specs.Prelude.{◌≡◌, IfOk, []};
ghost use Rattle.mq_scn_lines.specs.Words.{texts_of};
ghost use Rattle.mq_scn_lines.specs.Faults.{Reads};
ghost use Rattle.mq_scn_heading.specs.Phases.{is_label, are_labels, is_script, are_scripts, places_from, is_in, are_single, phase_of};

use crate::lookup::script_at;
use mq_base::Items;
use mq_history::Scenario;
use mq_scn_lines::{LineFault, label_in};
use std::alloc::{AllocError, Global};

fn is_label(word: &[u8]) -> bool
    ensures { result ≡ is_label word.now }
{
    label_in(word).is_ok()
}

fn are_labels(words: &[&[u8]]) -> bool
    ensures { result ≡ are_labels (texts_of words.now) }
{
    let mut rest = words;
    'reading: while let [word, behind @ ..] = rest {
        if !is_label(word) {
            return false;
        }
        rest = behind;
    }
    true
}

fn is_script(scenario: &Scenario, word: &[u8]) -> bool
    ensures { result ≡ is_script scenario.now.scripts word.now }
{
    script_at(scenario, word).is_ok()
}

fn are_scripts(scenario: &Scenario, words: &[&[u8]]) -> bool
    ensures { result ≡ are_scripts scenario.now.scripts (texts_of words.now) }
{
    let mut rest = words;
    'reading: while let [word, behind @ ..] = rest {
        if !is_script(scenario, word) {
            return false;
        }
        rest = behind;
    }
    true
}

/// The places of the scripts.
fn places_of(alloc: Global, scenario: &Scenario, words: &[&[u8]]) -> Result<Items<u16>, AllocError>
    ensures { IfOk result (λ ps. ps ≡ places_from scenario.now.scripts [] (texts_of words.now)) }
{
    let mut places = Items::new(alloc);
    let mut rest = words;
    'reading: while let [word, behind @ ..] = rest {
        if let Ok(place) = script_at(scenario, word) {
            places.push(place)?;
        }
        rest = behind;
    }
    Ok(places)
}

fn is_in(place: u16, places: &[u16]) -> bool
    ensures { result ≡ is_in place places.now }
{
    places.iter().any(|other| *other == place)
}

/// Whether no place stands twice.
fn are_single(places: &[u16]) -> bool
    ensures { result ≡ are_single places.now }
{
    let mut rest = places;
    'comparing: while let [place, behind @ ..] = rest {
        if is_in(*place, behind) {
            return false;
        }
        rest = behind;
    }
    true
}

/// The scripts of a PHASE step: two or more, none twice.
#[tactic(auto, unfolding(crate::specs::Phases::phase_of))]
pub fn phase_of(
    alloc: Global,
    scenario: &Scenario,
    words: &[&[u8]],
) -> Result<Items<u16>, LineFault>
    ensures { Reads result (phase_of scenario.now.scripts (texts_of words.now)) }
{
    if words.len() < 2 {
        return Err(LineFault::Form);
    }
    if !are_labels(words) {
        return Err(LineFault::Name);
    }
    if !are_scripts(scenario, words) {
        return Err(LineFault::Unknown);
    }
    let places = places_of(alloc, scenario, words)?;
    if !are_single(places.as_slice()) {
        return Err(LineFault::Twice);
    }
    Ok(places)
}
