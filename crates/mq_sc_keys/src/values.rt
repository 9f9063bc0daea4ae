//! Numbers, names, texts and words that values are.

ghost use Rattle.std.specs.Prelude.{◌≡◌, ◌<◌, ◌≤◌, ◌^◌, IfOk, IfSome};
ghost use Rattle.std.specs.Prelude.{codes};
ghost use Rattle.mq_text.specs.Numbers.{number_in};
ghost use Rattle.mq_sc_keys.specs.declared.value.Value.TheVariants.{Text};
ghost use Rattle.mq_sc_keys.specs.Values.{number_or_none, number_value, are_blanks, name_or_blank, name_value, text_value, choice_of, choice_value, delivery_of, usage_of, type_of, trigger_type_of, trigger_type_value, appl_type_of, appl_type_value, yes_or_no, enabled_or_not};

use crate::value::Value;
use mq_objects::below::{Items, QName};
use mq_objects::{ChannelType, Delivery, TriggerType, Usage};
use mq_text::number;
use std::alloc::{AllocError, Global};

fn number_of(text: &[u8], low: u32, high: u32) -> Option<u32>
    ensures number { result ≡ number_or_none (number_in low high text.now) }
    ensures within { IfSome result (λ n. n ≤ high) }
{
    match number(text, u64::from(low), u64::from(high)) {
        Ok(value) => Some(value as u32),
        Err(_) => None,
    }
}

/// A number from `low` to `high`; None where the value is none.
pub fn number_value(value: &Value, low: u32, high: u32) -> Option<u32>
    ensures number { result ≡ number_value low high value.now }
    ensures within { IfSome result (λ n. n ≤ high) }
{
    match value {
        Value::Text(text) => number_of(text.as_slice(), low, high),
        Value::Absent | Value::Malformed => None,
    }
}

/// A priority, 0 to 9.
pub fn priority_value(value: &Value) -> Option<u8>
    ensures { result ≡ number_value 0 9 value.now }
{
    match number_value(value, 0, 9) {
        Some(priority) => Some(priority as u8),
        None => None,
    }
}

/// Whether a text is nothing but blanks.
pub fn are_blanks(text: &[u8]) -> bool
    ensures { result ≡ are_blanks text.now }
{
    text.iter().all(|b| *b == b' ')
}

fn name_or_blank(text: &[u8]) -> Option<QName>
    ensures { result ≡ name_or_blank text.now }
{
    if are_blanks(text) {
        return Some(QName::blank());
    }
    match QName::of(text) {
        Ok(name) => Some(name),
        Err(_) => None,
    }
}

/// A name, blank where nothing or blanks are given.
pub fn name_value(value: &Value) -> Option<QName>
    ensures { result ≡ name_value value.now }
{
    match value {
        Value::Text(text) => name_or_blank(text.as_slice()),
        Value::Absent | Value::Malformed => None,
    }
}

fn short_text(alloc: Global, text: &Items<u8>, most: usize) -> Result<Option<Items<u8>>, AllocError>
    ensures { IfOk result (λ t. t ≡ text_value most (Text text.now)) }
{
    if text.len() > most {
        return Ok(None);
    }
    Ok(Some(Items::from_slice(alloc, text.as_slice())?))
}

/// A text as it is given, of at most so many bytes.
///
/// # Errors
///
/// No memory. None where the value is no such text.
pub fn text_value(
    alloc: Global,
    value: &Value,
    most: usize,
) -> Result<Option<Items<u8>>, AllocError>
    ensures { IfOk result (λ t. t ≡ text_value most value.now) }
{
    match value {
        Value::Text(text) => short_text(alloc, text, most),
        Value::Absent | Value::Malformed => Ok(None),
    }
}

fn choice_of(text: &[u8], yes: &[u8], no: &[u8]) -> Option<bool>
    ensures { result ≡ choice_of yes.now no.now text.now }
{
    if text == yes {
        return Some(true);
    }
    if text == no {
        return Some(false);
    }
    None
}

/// Which of two words: whether it is the first; None where it is neither.
pub fn choice_value(value: &Value, yes: &[u8], no: &[u8]) -> Option<bool>
    ensures { result ≡ choice_value yes.now no.now value.now }
{
    match value {
        Value::Text(text) => choice_of(text.as_slice(), yes, no),
        Value::Absent | Value::Malformed => None,
    }
}

/// YES or NO.
pub fn yes_or_no(value: &Value) -> Option<bool>
    ensures { result ≡ yes_or_no value.now }
{
    choice_value(value, b"YES", b"NO")
}

/// ENABLED or DISABLED.
pub fn enabled_or_not(value: &Value) -> Option<bool>
    ensures { result ≡ enabled_or_not value.now }
{
    choice_value(value, b"ENABLED", b"DISABLED")
}

/// PRIORITY or FIFO.
pub fn delivery_value(value: &Value) -> Option<Delivery>
    ensures { result ≡ delivery_of (choice_value (codes "PRIORITY") (codes "FIFO") value.now) }
{
    match choice_value(value, b"PRIORITY", b"FIFO") {
        Some(true) => Some(Delivery::Priority),
        Some(false) => Some(Delivery::Fifo),
        None => None,
    }
}

/// NORMAL or XMITQ.
pub fn usage_value(value: &Value) -> Option<Usage>
    ensures { result ≡ usage_of (choice_value (codes "NORMAL") (codes "XMITQ") value.now) }
{
    match choice_value(value, b"NORMAL", b"XMITQ") {
        Some(true) => Some(Usage::Normal),
        Some(false) => Some(Usage::Transmission),
        None => None,
    }
}

/// SDR or RCVR.
pub fn type_value(value: &Value) -> Option<ChannelType>
    ensures { result ≡ type_of (choice_value (codes "SDR") (codes "RCVR") value.now) }
{
    match choice_value(value, b"SDR", b"RCVR") {
        Some(true) => Some(ChannelType::Sender),
        Some(false) => Some(ChannelType::Receiver),
        None => None,
    }
}

fn trigger_type_of(text: &[u8]) -> Option<TriggerType>
    ensures { result ≡ trigger_type_of text.now }
{
    if text == b"FIRST".as_slice() {
        return Some(TriggerType::First);
    }
    if text == b"EVERY".as_slice() {
        return Some(TriggerType::Every);
    }
    if text == b"DEPTH".as_slice() {
        return Some(TriggerType::Depth);
    }
    if text == b"NONE".as_slice() {
        return Some(TriggerType::Never);
    }
    None
}

/// FIRST, EVERY, DEPTH or NONE.
pub fn trigger_type_value(value: &Value) -> Option<TriggerType>
    ensures { result ≡ trigger_type_value value.now }
{
    match value {
        Value::Text(text) => trigger_type_of(text.as_slice()),
        Value::Absent | Value::Malformed => None,
    }
}

fn appl_type_of(text: &[u8]) -> Option<u32>
    ensures { result ≡ appl_type_of text.now }
{
    if text == b"UNIX".as_slice() {
        return Some(6);
    }
    number_of(text, 0, 999_999_999)
}

/// UNIX, which is 6, or a number from 0 to 999,999,999.
pub fn appl_type_value(value: &Value) -> Option<u32>
    ensures { result ≡ appl_type_value value.now }
{
    match value {
        Value::Text(text) => appl_type_of(text.as_slice()),
        Value::Absent | Value::Malformed => None,
    }
}
