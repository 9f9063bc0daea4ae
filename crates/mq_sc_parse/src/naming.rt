//! The name behind an object, and what it means.

ghost use Rattle.std.specs.Prelude.{◌≡◌, ◌-◌, length, slice_get, IfOk};
ghost use Rattle.std.specs.Option.{option_map};
ghost use Rattle.mq_sc_keys.specs.declared.value.Value.TheVariants.{Text};
ghost use Rattle.mq_sc_parse.specs.Asking.{Gives};
ghost use Rattle.mq_sc_parse.specs.Parsing.{some_or, named_as, value_span, has_name, named_at, channel_name, queue_name, subject_of, subjects_of, is_star, pattern_of, prefix_of, is_prefix, channel_of};

use crate::fault::ScFault;
use crate::splitting::{value_at, value_len};
use mq_sc_keys::below::{ChName, Items, QName, Subject, Subjects};
use mq_sc_keys::{Noun, Value, are_blanks};
use mq_sc_lex::{Span, Token};
use std::alloc::{AllocError, Global};

/// The name that stands behind an object.
#[derive(Drop)]
pub struct Named {
    /// It isn't blank; empty for the manager, which has none.
    pub text: Items<u8>,
    /// Where it stands.
    pub span: Span,
    /// How many tokens it takes with its brackets.
    pub len: usize,
}

/// A name, or the beginning of one.
#[derive(Drop)]
pub struct Pattern {
    pub text: Items<u8>,
    /// Names that begin so are meant.
    pub any_end: bool,
}

/// Whether a name stands behind the object.
pub fn has_name(noun: Noun) -> bool
    ensures { result ≡ has_name noun }
{
    match noun {
        Noun::Manager => false,
        Noun::Local
        | Noun::Alias
        | Noun::Remote
        | Noun::Channel
        | Noun::Process
        | Noun::Queue
        | Noun::Status => true,
    }
}

fn value_span(object: Span, tokens: &[Token]) -> Span
    ensures { result ≡ value_span object tokens.now }
{
    match tokens {
        [_, value, ..] => value.span,
        _ => object,
    }
}

fn named_as(object: Span, span: Span, len: usize, value: Value) -> Result<Named, ScFault>
    ensures { result ≡ named_as object span len value }
{
    match value {
        Value::Text(text) => named_text(object, span, len, text),
        Value::Absent | Value::Malformed => Err(ScFault::MissingName(object)),
    }
}

fn named_text(object: Span, span: Span, len: usize, text: Items<u8>) -> Result<Named, ScFault>
    ensures { result ≡ named_as object span len (Text text) }
{
    if are_blanks(text.as_slice()) {
        return Err(ScFault::MissingName(object));
    }
    Ok(Named { text, span, len })
}

/// The name behind an object that stands at a place.
#[tactic(auto, unfolding(crate::specs::Parsing::named_at))]
pub fn named_at(alloc: Global, noun: Noun, object: Span, tokens: &[Token]) -> Result<Named, ScFault>
    ensures { Gives result (named_at noun object tokens.now) }
{
    if !has_name(noun) {
        return Ok(Named {
            text: Items::new(alloc),
            span: object,
            len: 0,
        });
    }
    let value = value_at(alloc, tokens)?;
    named_as(object, value_span(object, tokens), value_len(tokens), value)
}

fn channel_name(text: &[u8]) -> Option<ChName>
    ensures { result ≡ channel_name text.now }
{
    match ChName::of(text) {
        Ok(name) => Some(name),
        Err(_) => None,
    }
}

fn queue_name(text: &[u8]) -> Option<QName>
    ensures { result ≡ queue_name text.now }
{
    match QName::of(text) {
        Ok(name) => Some(name),
        Err(_) => None,
    }
}

/// The object that a noun and a name mean.
pub fn subject_of(noun: Noun, text: &[u8]) -> Option<Subject>
    ensures { result ≡ subject_of noun text.now }
{
    match noun {
        Noun::Local => Some(Subject::Local(queue_name(text)?)),
        Noun::Alias => Some(Subject::Alias(queue_name(text)?)),
        Noun::Remote => Some(Subject::Remote(queue_name(text)?)),
        Noun::Channel => Some(Subject::Channel(channel_name(text)?)),
        Noun::Process => Some(Subject::Process(queue_name(text)?)),
        Noun::Manager | Noun::Queue | Noun::Status => None,
    }
}

/// What a DISPLAY of a noun is on.
pub fn subjects_of(noun: Noun) -> Subjects
    ensures { result ≡ subjects_of noun }
{
    match noun {
        Noun::Local => Subjects::Locals,
        Noun::Alias => Subjects::Aliases,
        Noun::Remote => Subjects::Remotes,
        Noun::Channel | Noun::Status => Subjects::Channels,
        Noun::Process => Subjects::Processes,
        Noun::Manager => Subjects::Manager,
        Noun::Queue => Subjects::Queues,
    }
}

fn ends_in_star(text: &[u8]) -> bool
    ensures { result ≡ is_star (slice_get text.now (length text.now - 1)) }
{
    match text.last() {
        Some(b) => *b == b'*',
        None => false,
    }
}

/// A name, or the beginning of one where a star stands at its end.
pub fn pattern_of(alloc: Global, text: &[u8]) -> Result<Pattern, AllocError>
    ensures { IfOk result (λ p. p ≡ pattern_of text.now) }
{
    if ends_in_star(text) {
        let (front, _) = text.split_at(text.len().saturating_sub(1));
        return Ok(Pattern {
            text: Items::from_slice(alloc, front)?,
            any_end: true,
        });
    }
    Ok(Pattern {
        text: Items::from_slice(alloc, text)?,
        any_end: false,
    })
}

/// The channel that a text names, or the blank name where it is empty.
pub fn channel_prefix(text: &[u8]) -> Option<ChName>
    ensures { result ≡ prefix_of (channel_name text.now) text.now }
{
    match text {
        [] => Some(ChName::blank()),
        _ => channel_name(text),
    }
}

fn queue_prefix(text: &[u8]) -> Option<QName>
    ensures { result ≡ prefix_of (queue_name text.now) text.now }
{
    match text {
        [] => Some(QName::blank()),
        _ => queue_name(text),
    }
}

/// Whether names of these objects can begin so.
pub fn is_prefix(noun: Noun, text: &[u8]) -> bool
    ensures { result ≡ is_prefix noun text.now }
{
    match noun {
        Noun::Channel | Noun::Status => channel_prefix(text).is_some(),
        Noun::Local | Noun::Alias | Noun::Remote | Noun::Process | Noun::Manager | Noun::Queue =>
            queue_prefix(text).is_some(),
    }
}

/// The channel of a command on a channel's end.
pub fn channel_of(name: &Named) -> Result<ChName, ScFault>
    ensures { result ≡ channel_of name.now }
{
    match channel_name(name.text.as_slice()) {
        Some(channel) => Ok(channel),
        None => Err(ScFault::BadValue(name.span)),
    }
}
