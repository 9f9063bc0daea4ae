//! Whose attributes a command names, and keywords that are unknown, repeated or missing.

ghost use Rattle.std.specs.Prelude.{◌≡◌, find, option_copied, codes};
ghost use Rattle.std.specs.List.{list_any};
ghost use Rattle.std.specs.Str.{bytes_eq};
ghost use Rattle.mq_sc_parse.specs.Checks.{is_unknown, first_unknown, item_group, is_among, first_repeated, has_word, item_of, kind_of_type, type_of_item, channel_kind, kind_of, lacks};

use crate::splitting::Item;
use mq_sc_keys::below::ChannelType;
use mq_sc_keys::{Kind, Noun, Verb, key_of, type_value};
use mq_sc_lex::Span;

fn is_unknown(verb: Verb, kind: Kind, item: &Item) -> bool
    ensures { result ≡ is_unknown verb kind item.now }
{
    key_of(verb, kind, item.word.as_slice()).is_none()
}

fn unknown_item(verb: Verb, kind: Kind, items: &[Item]) -> Option<&Item>
    ensures { option_copied result ≡ find (is_unknown verb kind) items.now }
{
    items.iter().find(|item| is_unknown(verb, kind, item))
}

/// The first keyword that the command may not have.
#[tactic(auto, unfolding(crate::specs::Checks::first_unknown))]
pub fn first_unknown(verb: Verb, kind: Kind, items: &[Item]) -> Option<Span>
    ensures { result ≡ first_unknown verb kind items.now }
{
    match unknown_item(verb, kind, items) {
        Some(item) => Some(item.span),
        None => None,
    }
}

fn item_group(verb: Verb, kind: Kind, item: &Item) -> &'static [u8]
    ensures { result.now ≡ item_group verb kind item.now }
{
    match key_of(verb, kind, item.word.as_slice()) {
        Some(key) => key.group().text(),
        None => &[],
    }
}

fn same_group(verb: Verb, kind: Kind, one: &Item, other: &Item) -> bool
    ensures { result ≡ bytes_eq (item_group verb kind one.now) (item_group verb kind other.now) }
{
    item_group(verb, kind, one) == item_group(verb, kind, other)
}

fn is_among(verb: Verb, kind: Kind, item: &Item, earlier: &[Item]) -> bool
    ensures { result ≡ is_among verb kind item.now earlier.now }
{
    earlier
        .iter()
        .any(|other| same_group(verb, kind, other, item))
}

/// The first keyword that came before, itself, its opposite or its synonym.
pub fn first_repeated(verb: Verb, kind: Kind, items: &[Item]) -> Option<Span>
    ensures { result ≡ first_repeated verb kind items.now }
{
    for (at, item) in items.iter().enumerate() {
        let (earlier, _) = items.split_at(at);
        if is_among(verb, kind, item, earlier) {
            return Some(item.span);
        }
    }
    None
}

/// Whether a keyword is written so.
pub fn has_word(word: &[u8], items: &[Item]) -> bool
    ensures { result ≡ has_word word.now items.now }
{
    items.iter().any(|item| item.word.as_slice() == word)
}

fn item_of<'a>(word: &[u8], items: &'a [Item]) -> Option<&'a Item>
    ensures { option_copied result ≡ item_of word.now items.now }
{
    items.iter().find(|item| item.word.as_slice() == word)
}

fn type_given(items: &[Item]) -> Option<ChannelType>
    ensures { result ≡ type_of_item (item_of (codes "CHLTYPE") items.now) }
{
    match item_of(b"CHLTYPE", items) {
        Some(item) => type_value(&item.value),
        None => None,
    }
}

/// A channel is of the type that the command gives.
#[tactic(auto, unfolding(crate::specs::Checks::channel_kind))]
fn channel_kind(items: &[Item]) -> Kind
    ensures { result ≡ channel_kind items.now }
{
    match type_given(items) {
        Some(ChannelType::Sender) => Kind::Sender,
        Some(ChannelType::Receiver) => Kind::Receiver,
        None => Kind::Channel,
    }
}

/// Whose attributes a command names.
pub fn kind_of(noun: Noun, items: &[Item]) -> Kind
    ensures { result ≡ kind_of noun items.now }
{
    match noun {
        Noun::Local => Kind::Local,
        Noun::Alias => Kind::Alias,
        Noun::Remote => Kind::Remote,
        Noun::Channel => channel_kind(items),
        Noun::Process => Kind::Process,
        Noun::Manager => Kind::Manager,
        Noun::Queue => Kind::Queue,
        Noun::Status => Kind::Status,
    }
}

/// Whether a keyword is missing that the definition of a channel needs.
pub fn lacks(kind: Kind, items: &[Item]) -> bool
    ensures { result ≡ lacks kind items.now }
{
    match kind {
        Kind::Channel => true,
        Kind::Sender => !has_word(b"XMITQ", items),
        Kind::Local
        | Kind::Alias
        | Kind::Remote
        | Kind::Receiver
        | Kind::Process
        | Kind::Manager
        | Kind::Queue
        | Kind::Status => false,
    }
}
