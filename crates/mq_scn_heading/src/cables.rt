//! The faults of a cable.

ghost use Rattle.std.specs.Prelude.{◌≡◌, ◌≤◌, ◌<◌, ◌^◌, length, [], option_copied, IfOk};
ghost use Rattle.mq_scn_lines.specs.Words.{texts_of};
ghost use Rattle.mq_scn_lines.specs.Faults.{Reads};
ghost use Rattle.mq_scn_heading.specs.Cables.{frame_in, dropped, spoiled, late, copied, fault_in, value_in, first_number, first_in, is_form, have_form, firsts_from, faults_from, faults_of, behind_keyword, direction, back_place, cable_faults};

use crate::distinct::are_distinct;
use mq_base::Items;
use mq_cable::{Fault, Faults};
use mq_scn_lines::{LineFault, both, bracketed, ranged};
use mq_text::cut;
use std::alloc::{AllocError, Global};

/// The number of a frame, from 1.
fn frame_in(text: &[u8]) -> Result<u64, LineFault>
    ensures frame { result ≡ frame_in text.now }
    ensures range { IfOk result (λ n. n ≤ 4294967295) }
{
    ranged(text, 1, 4_294_967_295, LineFault::Number)
}

fn dropped(value: &[u8]) -> Result<Fault, LineFault>
    ensures { result ≡ dropped value.now }
{
    match frame_in(value) {
        Ok(frame) => Ok(Fault::Drop(frame as u32)),
        Err(fault) => Err(fault),
    }
}

fn spoiled(value: &[u8]) -> Result<Fault, LineFault>
    ensures { result ≡ spoiled value.now }
{
    match frame_in(value) {
        Ok(frame) => Ok(Fault::Spoil(frame as u32)),
        Err(fault) => Err(fault),
    }
}

/// A frame that is held back, and the one behind which it is pushed.
fn late(first: &[u8], second: &[u8]) -> Result<Fault, LineFault>
    ensures { result ≡ late first.now second.now }
{
    let on = frame_in(first);
    let after = frame_in(second);
    match both(on, after) {
        Err(fault) => Err(fault),
        Ok((on, after)) => {
            if on < after && after <= 4_294_967_295 {
                Ok(Fault::Late(on as u32, after as u32))
            } else {
                Err(LineFault::Number)
            }
        }
    }
}

/// A frame that is pushed twice, and the one behind which it is pushed again.
fn copied(first: &[u8], second: &[u8]) -> Result<Fault, LineFault>
    ensures { result ≡ copied first.now second.now }
{
    let on = frame_in(first);
    let after = frame_in(second);
    match both(on, after) {
        Err(fault) => Err(fault),
        Ok((on, after)) => {
            if on <= after && after <= 4_294_967_295 {
                Ok(Fault::Copy(on as u32, after as u32))
            } else {
                Err(LineFault::Number)
            }
        }
    }
}

/// The fault that a word is.
fn fault_in(word: &[u8]) -> Result<Fault, LineFault>
    ensures { result ≡ fault_in word.now }
{
    if let Some(value) = bracketed(word, b"DROP(") {
        return dropped(value);
    }
    if let Some(value) = bracketed(word, b"SPOIL(") {
        return spoiled(value);
    }
    if let Some(value) = bracketed(word, b"LATE(") {
        return match cut(value, b',') {
            Some((first, second)) => late(first, second),
            None => Err(LineFault::Form),
        };
    }
    match bracketed(word, b"COPY(") {
        Some(value) => match cut(value, b',') {
            Some((first, second)) => copied(first, second),
            None => Err(LineFault::Form),
        },
        None => Err(LineFault::Form),
    }
}

/// The value in the brackets of a word that may be a fault.
fn value_in(word: &[u8]) -> Option<&[u8]>
    ensures { option_copied result ≡ value_in word.now }
{
    if let Some(value) = bracketed(word, b"DROP(") {
        return Some(value);
    }
    if let Some(value) = bracketed(word, b"SPOIL(") {
        return Some(value);
    }
    if let Some(value) = bracketed(word, b"LATE(") {
        return Some(value);
    }
    bracketed(word, b"COPY(")
}

/// The text of the first number in a value.
fn first_number(value: &[u8]) -> &[u8]
    ensures { result.now ≡ first_number value.now }
{
    match cut(value, b',') {
        Some((first, _)) => first,
        None => value,
    }
}

/// The frame on which the fault is that a word is, as far as its first number tells.
fn first_in(word: &[u8]) -> Option<u32>
    ensures { result ≡ first_in word.now }
{
    match value_in(word) {
        None => None,
        Some(value) => match frame_in(first_number(value)) {
            Ok(frame) => Some(frame as u32),
            Err(_) => None,
        },
    }
}

fn is_form(read: Result<Fault, LineFault>) -> bool
    ensures { result ≡ is_form read }
{
    matches!(read, Err(LineFault::Form))
}

/// Whether each word is written as a fault.
fn have_form(words: &[&[u8]]) -> bool
    ensures { result ≡ have_form (texts_of words.now) }
{
    let mut rest = words;
    'reading: while let [word, behind @ ..] = rest {
        if is_form(fault_in(word)) {
            return false;
        }
        rest = behind;
    }
    true
}

/// The frames on which faults are.
fn firsts_in(alloc: Global, words: &[&[u8]]) -> Result<Items<u32>, AllocError>
    ensures { IfOk result (λ ns. ns ≡ firsts_from [] (texts_of words.now)) }
{
    let mut firsts = Items::new(alloc);
    let mut rest = words;
    'reading: while let [word, behind @ ..] = rest {
        if let Some(first) = first_in(word) {
            firsts.push(first)?;
        }
        rest = behind;
    }
    Ok(firsts)
}

/// The faults that words are; the first that is none.
fn faults_in(alloc: Global, words: &[&[u8]]) -> Result<Faults, LineFault>
    ensures { Reads result (faults_from [] (texts_of words.now)) }
{
    let mut faults = Items::new(alloc);
    let mut rest = words;
    'reading: while let [word, behind @ ..] = rest {
        match fault_in(word) {
            Ok(fault) => faults.push(fault)?,
            Err(fault) => return Err(fault),
        }
        rest = behind;
    }
    Ok(faults)
}

/// The faults of one direction: at most one on a frame.
#[tactic(auto, unfolding(crate::specs::Cables::faults_of))]
fn faults_of(alloc: Global, words: &[&[u8]]) -> Result<Faults, LineFault>
    ensures { Reads result (faults_of (texts_of words.now)) }
{
    if !have_form(words) {
        return Err(LineFault::Form);
    }
    let firsts = firsts_in(alloc, words)?;
    if !are_distinct(alloc, firsts.as_slice())? {
        return Err(LineFault::Twice);
    }
    faults_in(alloc, words)
}

/// The faults behind the word of a direction, one or more.
#[tactic(auto, unfolding(crate::specs::Cables::behind_keyword))]
fn behind_keyword(
    alloc: Global,
    keyword: &[u8],
    first: &[u8],
    words: &[&[u8]],
) -> Result<Faults, LineFault>
    ensures { Reads result (behind_keyword keyword.now first.now (texts_of words.now)) }
{
    if words.is_empty() {
        return Err(LineFault::Form);
    }
    if first != keyword {
        return Err(LineFault::Form);
    }
    faults_of(alloc, words)
}

/// The faults of a direction; none where nothing stands.
fn direction(alloc: Global, keyword: &[u8], words: &[&[u8]]) -> Result<Faults, LineFault>
    ensures { Reads result (direction keyword.now (texts_of words.now)) }
{
    match words {
        [] => Ok(Items::new(alloc)),
        [first, faults @ ..] => behind_keyword(alloc, keyword, first, faults),
    }
}

/// How many words stand before BACK.
fn back_place(words: &[&[u8]]) -> usize
    ensures place { result ≡ back_place (texts_of words.now) }
    ensures within { result ≤ length words.now }
{
    let mut place = 0;
    let mut rest = words;
    'reading: while let [word, behind @ ..] = rest {
        if *word == b"BACK".as_slice() {
            return place;
        }
        place += 1;
        rest = behind;
    }
    place
}

/// The faults of both directions.
#[tactic(auto, unfolding(crate::specs::Cables::cable_faults))]
pub fn cable_faults(alloc: Global, words: &[&[u8]]) -> Result<(Faults, Faults), LineFault>
    ensures { Reads result (cable_faults (texts_of words.now)) }
{
    let (front, behind) = words.split_at(back_place(words));
    let out = direction(alloc, b"OUT", front);
    let back = direction(alloc, b"BACK", behind);
    both(out, back)
}
