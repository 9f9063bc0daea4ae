//! What the keywords of a command give, and what those of DISPLAY ask.

ghost use Rattle.std.specs.Prelude.{◌≡◌, IfOk};
ghost use Rattle.mq_sc_parse.specs.Asking.{given_item, settings_of, asked_key, asked_item, asked_of, Gives};

use crate::fault::ScFault;
use crate::splitting::Item;
use mq_sc_keys::below::{Items, Keyword, Setting};
use mq_sc_keys::{Given, Key, Kind, Value, Verb, given_of, key_of, keyword_of};
use std::alloc::{AllocError, Global};

/// What a keyword of DISPLAY asks.
#[derive(Drop)]
pub enum Asked {
    /// It has a value.
    Bad,
    /// Nothing of its own: ALL.
    Nothing,
    /// To show this one.
    Keyword(Keyword),
}

fn given_item(alloc: Global, verb: Verb, kind: Kind, item: &Item) -> Result<Given, AllocError>
    ensures { IfOk result (λ g. g ≡ given_item verb kind item.now) }
{
    match key_of(verb, kind, item.word.as_slice()) {
        Some(key) => given_of(alloc, kind, key, &item.value),
        None => Ok(Given::Bad),
    }
}

/// What the keywords give in order.
pub fn settings_of(
    alloc: Global,
    verb: Verb,
    kind: Kind,
    items: &[Item],
) -> Result<Items<Setting>, ScFault>
    ensures { Gives result (settings_of verb kind items.now) }
{
    let mut settings = Items::new(alloc);
    for item in items {
        match given_item(alloc, verb, kind, item)? {
            Given::Bad => return Err(ScFault::BadValue(item.span)),
            Given::Nothing => {}
            Given::Setting(setting) => settings.push(setting)?,
        }
    }
    Ok(settings)
}

fn asked_key(key: Key) -> Asked
    ensures { result ≡ asked_key key }
{
    match key {
        Key::All => Asked::Nothing,
        other => Asked::Keyword(keyword_of(other)),
    }
}

fn asked_item(verb: Verb, kind: Kind, item: &Item) -> Asked
    ensures { result ≡ asked_item verb kind item.now }
{
    match key_of(verb, kind, item.word.as_slice()) {
        Some(key) => match &item.value {
            Value::Absent => asked_key(key),
            Value::Text(_) | Value::Malformed => Asked::Bad,
        },
        None => Asked::Bad,
    }
}

/// The keywords that a DISPLAY names, in order.
pub fn asked_of(
    alloc: Global,
    verb: Verb,
    kind: Kind,
    items: &[Item],
) -> Result<Items<Keyword>, ScFault>
    ensures { Gives result (asked_of verb kind items.now) }
{
    let mut keywords = Items::new(alloc);
    for item in items {
        match asked_item(verb, kind, item) {
            Asked::Bad => return Err(ScFault::BadValue(item.span)),
            Asked::Nothing => {}
            Asked::Keyword(keyword) => keywords.push(keyword)?,
        }
    }
    Ok(keywords)
}
