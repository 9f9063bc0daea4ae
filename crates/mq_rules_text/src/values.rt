//! The values that keywords take.

ghost use Rattle.std.specs.Prelude.{◌≡◌, ◌<◌, ◌^◌};
ghost use Rattle.mq_codes.specs.Numbers.{number};
ghost use Rattle.mq_rules_text.specs.Values.{name_value, name_or_blank, is_blank, field_target, queue_target, manager_target, symbol_of, number_value, ranged, yes_or_no, verb_of, wait_of};

use crate::fault::Flaw;
use mq_base::QName;
use mq_codes::Reason;
use mq_rules::{NumberField, Target, Wait};
use mq_text::{number, signed};

/// What ACTION says.
#[derive(Clone, Copy)]
pub enum Verb {
    Discard,
    Ignore,
    Retry,
    Forward,
}

#[tactic(auto, unfolding(crate::specs::Values::name_value))]
fn name_value(text: &[u8]) -> Result<QName, Flaw>
    ensures { result ≡ name_value text.now }
{
    match QName::of(text) {
        Ok(name) => Ok(name),
        Err(_) => Err(Flaw::Value),
    }
}

fn is_blank(text: &[u8]) -> bool
    ensures { result ≡ is_blank text.now }
{
    text.iter().all(|b| *b == b' ')
}

/// A name, or the blank one.
#[tactic(auto, unfolding(crate::specs::Values::name_or_blank))]
pub fn name_or_blank(text: &[u8]) -> Result<QName, Flaw>
    ensures { result ≡ name_or_blank text.now }
{
    if is_blank(text) {
        Ok(QName::blank())
    } else {
        name_value(text)
    }
}

#[tactic(auto, unfolding(crate::specs::Values::field_target))]
fn field_target(text: &[u8]) -> Option<Target>
    ensures { result ≡ field_target text.now }
{
    if text == b"&DESTQ".as_slice() {
        Some(Target::DestQueue)
    } else if text == b"&DESTQM".as_slice() {
        Some(Target::DestQueueManager)
    } else if text == b"&REPLYQ".as_slice() {
        Some(Target::ReplyQueue)
    } else if text == b"&REPLYQM".as_slice() {
        Some(Target::ReplyQueueManager)
    } else {
        None
    }
}

/// A queue to which a rule forwards.
pub fn queue_target(text: &[u8]) -> Result<Target, Flaw>
    ensures { result ≡ queue_target text.now }
{
    match field_target(text) {
        Some(target) => Ok(target),
        None => match name_value(text) {
            Ok(name) => Ok(Target::Name(name)),
            Err(flaw) => Err(flaw),
        },
    }
}

/// A manager to which a rule forwards.
pub fn manager_target(text: &[u8]) -> Result<Target, Flaw>
    ensures { result ≡ manager_target text.now }
{
    match field_target(text) {
        Some(target) => Ok(target),
        None => match name_or_blank(text) {
            Ok(name) => Ok(Target::Name(name)),
            Err(flaw) => Err(flaw),
        },
    }
}

fn application_type(text: &[u8]) -> Option<i32>
    ensures { result ≡ symbol_of NumberField.ApplicationType text.now }
{
    if text == b"MQAT_NO_CONTEXT".as_slice() {
        Some(0)
    } else if text == b"MQAT_UNIX".as_slice() {
        Some(6)
    } else {
        None
    }
}

fn feedback(text: &[u8]) -> Option<i32>
    ensures { result ≡ symbol_of NumberField.Feedback text.now }
{
    if text == b"MQFB_NONE".as_slice() {
        Some(0)
    } else if text == b"MQFB_EXPIRATION".as_slice() {
        Some(258)
    } else if text == b"MQFB_COA".as_slice() {
        Some(259)
    } else if text == b"MQFB_COD".as_slice() {
        Some(260)
    } else {
        None
    }
}

fn message_type(text: &[u8]) -> Option<i32>
    ensures { result ≡ symbol_of NumberField.MessageType text.now }
{
    if text == b"MQMT_REQUEST".as_slice() {
        Some(1)
    } else if text == b"MQMT_REPLY".as_slice() {
        Some(2)
    } else if text == b"MQMT_REPORT".as_slice() {
        Some(4)
    } else if text == b"MQMT_DATAGRAM".as_slice() {
        Some(8)
    } else {
        None
    }
}

fn persistence(text: &[u8]) -> Option<i32>
    ensures { result ≡ symbol_of NumberField.Persistence text.now }
{
    if text == b"MQPER_NOT_PERSISTENT".as_slice() {
        Some(0)
    } else if text == b"MQPER_PERSISTENT".as_slice() {
        Some(1)
    } else {
        None
    }
}

fn reason(text: &[u8]) -> Option<i32>
    ensures { result ≡ symbol_of NumberField.Reason text.now }
{
    match Reason::of_name(text) {
        Some(reason) => Some(small(reason) as i32),
        None => None,
    }
}

fn small(reason: Reason) -> u16
    ensures { result ≡ number reason }
{
    reason.number() as u16
}

fn symbol(field: NumberField, text: &[u8]) -> Option<i32>
    ensures { result ≡ symbol_of field text.now }
{
    match field {
        NumberField::ApplicationType => application_type(text),
        NumberField::Feedback => feedback(text),
        NumberField::MessageType => message_type(text),
        NumberField::Persistence => persistence(text),
        NumberField::Reason => reason(text),
    }
}

/// A symbol of a field, or a number.
#[tactic(auto, unfolding(crate::specs::Values::number_value))]
pub fn number_value(field: NumberField, text: &[u8]) -> Result<i32, Flaw>
    ensures { result ≡ number_value field text.now }
{
    match symbol(field, text) {
        Some(value) => Ok(value),
        None => match signed(text) {
            Ok(value) => Ok(value),
            Err(_) => Err(Flaw::Value),
        },
    }
}

/// A number from `low` to `high`.
#[tactic(auto, unfolding(crate::specs::Values::ranged))]
pub fn ranged(text: &[u8], low: u32, high: u32) -> Result<u32, Flaw>
    ensures { result ≡ ranged low high text.now }
{
    match number(text, u64::from(low), u64::from(high)) {
        Ok(value) => Ok(value as u32),
        Err(_) => Err(Flaw::Value),
    }
}

/// YES or NO.
#[tactic(auto, unfolding(crate::specs::Values::yes_or_no))]
pub fn yes_or_no(text: &[u8]) -> Result<bool, Flaw>
    ensures { result ≡ yes_or_no text.now }
{
    if text == b"YES".as_slice() {
        Ok(true)
    } else if text == b"NO".as_slice() {
        Ok(false)
    } else {
        Err(Flaw::Value)
    }
}

/// What ACTION says.
#[tactic(auto, unfolding(crate::specs::Values::verb_of))]
pub fn verb_of(text: &[u8]) -> Result<Verb, Flaw>
    ensures { result ≡ verb_of text.now }
{
    if text == b"DISCARD".as_slice() {
        Ok(Verb::Discard)
    } else if text == b"IGNORE".as_slice() {
        Ok(Verb::Ignore)
    } else if text == b"RETRY".as_slice() {
        Ok(Verb::Retry)
    } else if text == b"FWD".as_slice() {
        Ok(Verb::Forward)
    } else {
        Err(Flaw::Value)
    }
}

/// How long the handler waits.
#[tactic(auto, unfolding(crate::specs::Values::wait_of))]
pub fn wait_of(text: &[u8]) -> Result<Wait, Flaw>
    ensures { result ≡ wait_of text.now }
{
    if text == b"YES".as_slice() {
        Ok(Wait::Yes)
    } else if text == b"NO".as_slice() {
        Ok(Wait::No)
    } else {
        match ranged(text, 0, 999_999_999) {
            Ok(seconds) => Ok(Wait::Seconds(seconds)),
            Err(flaw) => Err(flaw),
        }
    }
}
