//! The command of a line of tokens.

ghost use Rattle.std.specs.Prelude.{◌≡◌, ◌-◌, length, slice_get};
ghost use Rattle.mq_sc_parse.specs.Asking.{Gives};
ghost use Rattle.mq_sc_parse.specs.Parsing.{first_span, second_span, last_span, first_word, second_word, behind, fault_of, asked_or_all, define_of, alter_manager_of, alter_object_of, alter_of, delete_of, show_objects, show_status, status_named, show_named, display_named, display_of, is_status, start_of, stop_of, number_of, reset_of, settle_of, resolve_of, command_of, checked_command, parse_of};

use crate::asking::{asked_of, settings_of};
use crate::checks::{first_repeated, first_unknown, has_word, kind_of, lacks};
use crate::command::{Command, Op};
use crate::fault::ScFault;
use crate::naming::{
    Named, channel_of, channel_prefix, has_name, is_prefix, named_at, pattern_of, subject_of,
    subjects_of,
};
use crate::splitting::{Item, items_of, word_of};
use mq_sc_keys::below::{Alter, AlterManager, Define, Delete, Display, Items, Keyword};
use mq_sc_keys::{Kind, Noun, Verb, choice_value, number_value, object_of, verb_of};
use mq_sc_lex::{Line, Span, Token};
use mq_sync::Settle;
use std::alloc::Global;

fn first_span(number: usize, tokens: &[Token]) -> Span
    ensures { result ≡ first_span number tokens.now }
{
    match tokens {
        [first, ..] => first.span,
        [] => Span {
            line: number,
            start: 0,
            end: 0,
        },
    }
}

fn second_span(number: usize, tokens: &[Token]) -> Span
    ensures { result ≡ second_span number tokens.now }
{
    match tokens {
        [_, second, ..] => second.span,
        _ => first_span(number, tokens),
    }
}

fn last_span(number: usize, tokens: &[Token]) -> Span
    ensures { result ≡ last_span number tokens.now }
{
    match tokens.last() {
        Some(last) => last.span,
        None => first_span(number, tokens),
    }
}

fn first_word(tokens: &[Token]) -> &[u8]
    ensures { result.now ≡ first_word tokens.now }
{
    match tokens {
        [first, ..] => word_of(first),
        [] => &[],
    }
}

fn second_word(tokens: &[Token]) -> &[u8]
    ensures { result.now ≡ second_word tokens.now }
{
    match tokens {
        [_, second, ..] => word_of(second),
        _ => &[],
    }
}

fn behind(tokens: &[Token], count: usize) -> &[Token]
    ensures { result.now ≡ behind count tokens.now }
{
    let (_, rest) = tokens.split_at(tokens.len().min(count));
    rest
}

#[tactic(auto, unfolding(crate::specs::Parsing::fault_of))]
fn fault_of(verb: Verb, kind: Kind, items: &[Item]) -> Option<ScFault>
    ensures { result ≡ fault_of verb kind items.now }
{
    match first_unknown(verb, kind, items) {
        Some(span) => Some(ScFault::UnknownKeyword(span)),
        None => match first_repeated(verb, kind, items) {
            Some(span) => Some(ScFault::Repeated(span)),
            None => None,
        },
    }
}

#[tactic(auto, unfolding(crate::specs::Parsing::define_of))]
fn define_of(
    alloc: Global,
    noun: Noun,
    kind: Kind,
    name: &Named,
    items: &[Item],
    last: Span,
) -> Result<Command, ScFault>
    ensures { Gives result (define_of noun kind name.now items.now last) }
{
    let Some(subject) = subject_of(noun, name.text.as_slice()) else {
        return Err(ScFault::BadValue(name.span));
    };
    let settings = settings_of(alloc, Verb::Define, kind, items)?;
    if lacks(kind, items) {
        return Err(ScFault::BadValue(last));
    }
    Ok(Command::Objects(mq_sc_keys::below::Command::Define(Define {
        subject,
        replace: has_word(b"REPLACE", items),
        settings,
    })))
}

#[tactic(auto, unfolding(crate::specs::Parsing::alter_manager_of))]
fn alter_manager_of(alloc: Global, items: &[Item]) -> Result<Command, ScFault>
    ensures { Gives result (alter_manager_of items.now) }
{
    let settings = settings_of(alloc, Verb::Alter, Kind::Manager, items)?;
    Ok(Command::Objects(mq_sc_keys::below::Command::AlterManager(AlterManager {
        force: has_word(b"FORCE", items),
        settings,
    })))
}

#[tactic(auto, unfolding(crate::specs::Parsing::alter_object_of))]
fn alter_object_of(
    alloc: Global,
    noun: Noun,
    kind: Kind,
    name: &Named,
    items: &[Item],
) -> Result<Command, ScFault>
    ensures { Gives result (alter_object_of noun kind name.now items.now) }
{
    let Some(subject) = subject_of(noun, name.text.as_slice()) else {
        return Err(ScFault::BadValue(name.span));
    };
    let settings = settings_of(alloc, Verb::Alter, kind, items)?;
    Ok(Command::Objects(mq_sc_keys::below::Command::Alter(Alter {
        subject,
        force: has_word(b"FORCE", items),
        settings,
    })))
}

fn alter_of(
    alloc: Global,
    noun: Noun,
    kind: Kind,
    name: &Named,
    items: &[Item],
) -> Result<Command, ScFault>
    ensures { Gives result (alter_of noun kind name.now items.now) }
{
    if has_name(noun) {
        alter_object_of(alloc, noun, kind, name, items)
    } else {
        alter_manager_of(alloc, items)
    }
}

#[tactic(auto, unfolding(crate::specs::Parsing::delete_of))]
fn delete_of(noun: Noun, name: &Named) -> Result<Command, ScFault>
    ensures { Gives result (delete_of noun name.now) }
{
    let Some(subject) = subject_of(noun, name.text.as_slice()) else {
        return Err(ScFault::BadValue(name.span));
    };
    Ok(Command::Objects(mq_sc_keys::below::Command::Delete(Delete { subject })))
}

fn asked_or_all(alloc: Global, items: &[Item], asked: Items<Keyword>) -> Items<Keyword>
    ensures { result ≡ asked_or_all items.now asked }
{
    if has_word(b"ALL", items) {
        Items::new(alloc)
    } else {
        asked
    }
}

#[tactic(auto, unfolding(crate::specs::Parsing::show_objects))]
fn show_objects(
    alloc: Global,
    noun: Noun,
    kind: Kind,
    name: Items<u8>,
    any_end: bool,
    items: &[Item],
) -> Result<Command, ScFault>
    ensures { Gives result (show_objects noun kind name any_end items.now) }
{
    let asked = asked_of(alloc, Verb::Display, kind, items)?;
    let asked = asked_or_all(alloc, items, asked);
    Ok(Command::Objects(mq_sc_keys::below::Command::Display(Display {
        subjects: subjects_of(noun),
        name,
        any_end,
        asked,
    })))
}

#[tactic(auto, unfolding(crate::specs::Parsing::status_named, crate::specs::Parsing::show_status))]
fn status_named(alloc: Global, name: &Named, items: &[Item]) -> Result<Command, ScFault>
    ensures { Gives result (status_named name.now items.now) }
{
    let pattern = pattern_of(alloc, name.text.as_slice())?;
    let Some(channel) = channel_prefix(pattern.text.as_slice()) else {
        return Err(ScFault::BadValue(name.span));
    };
    let _asked = asked_of(alloc, Verb::Display, Kind::Status, items)?;
    Ok(Command::ShowStatus {
        name: channel,
        any_end: pattern.any_end,
    })
}

#[tactic(auto, unfolding(crate::specs::Parsing::show_named))]
fn show_named(
    alloc: Global,
    noun: Noun,
    kind: Kind,
    name: &Named,
    items: &[Item],
) -> Result<Command, ScFault>
    ensures { Gives result (show_named noun kind name.now items.now) }
{
    let pattern = pattern_of(alloc, name.text.as_slice())?;
    if !is_prefix(noun, pattern.text.as_slice()) {
        return Err(ScFault::BadValue(name.span));
    }
    show_objects(alloc, noun, kind, pattern.text, pattern.any_end, items)
}

fn display_named(
    alloc: Global,
    noun: Noun,
    kind: Kind,
    name: &Named,
    items: &[Item],
) -> Result<Command, ScFault>
    ensures { Gives result (display_named noun kind name.now items.now) }
{
    match noun {
        Noun::Status => status_named(alloc, name, items),
        Noun::Local
        | Noun::Alias
        | Noun::Remote
        | Noun::Channel
        | Noun::Process
        | Noun::Manager
        | Noun::Queue => show_named(alloc, noun, kind, name, items),
    }
}

fn display_of(
    alloc: Global,
    noun: Noun,
    kind: Kind,
    name: &Named,
    items: &[Item],
) -> Result<Command, ScFault>
    ensures { Gives result (display_of noun kind name.now items.now) }
{
    if has_name(noun) {
        display_named(alloc, noun, kind, name, items)
    } else {
        show_objects(alloc, noun, kind, Items::new(alloc), false, items)
    }
}

#[tactic(auto, unfolding(crate::specs::Parsing::start_of))]
fn start_of(name: &Named) -> Result<Command, ScFault>
    ensures { Gives result (start_of name.now) }
{
    Ok(Command::Operate(Op::Start(channel_of(name)?)))
}

#[tactic(auto, unfolding(crate::specs::Parsing::stop_of))]
fn stop_of(name: &Named) -> Result<Command, ScFault>
    ensures { Gives result (stop_of name.now) }
{
    Ok(Command::Operate(Op::Stop(channel_of(name)?)))
}

/// SEQNUM, 1 where it is not given.
fn number_of(items: &[Item]) -> Result<u32, ScFault>
    ensures { result ≡ number_of items.now }
{
    match items {
        [] => Ok(1),
        [item, ..] => match number_value(&item.value, 0, 999_999_999) {
            Some(number) => Ok(number),
            None => Err(ScFault::BadValue(item.span)),
        },
    }
}

#[tactic(auto, unfolding(crate::specs::Parsing::reset_of))]
fn reset_of(name: &Named, items: &[Item]) -> Result<Command, ScFault>
    ensures { Gives result (reset_of name.now items.now) }
{
    let channel = channel_of(name)?;
    let number = number_of(items)?;
    Ok(Command::Operate(Op::Reset(channel, number)))
}

/// ACTION, which is needed.
fn settle_of(items: &[Item], last: Span) -> Result<Settle, ScFault>
    ensures { result ≡ settle_of items.now last }
{
    match items {
        [] => Err(ScFault::BadValue(last)),
        [item, ..] => match choice_value(&item.value, b"COMMIT", b"BACKOUT") {
            Some(true) => Ok(Settle::Commit),
            Some(false) => Ok(Settle::Backout),
            None => Err(ScFault::BadValue(item.span)),
        },
    }
}

#[tactic(auto, unfolding(crate::specs::Parsing::resolve_of))]
fn resolve_of(name: &Named, items: &[Item], last: Span) -> Result<Command, ScFault>
    ensures { Gives result (resolve_of name.now items.now last) }
{
    let channel = channel_of(name)?;
    let settle = settle_of(items, last)?;
    Ok(Command::Operate(Op::Resolve(channel, settle)))
}

fn command_of(
    alloc: Global,
    verb: Verb,
    noun: Noun,
    kind: Kind,
    name: &Named,
    items: &[Item],
    last: Span,
) -> Result<Command, ScFault>
    ensures { Gives result (command_of verb noun kind name.now items.now last) }
{
    match verb {
        Verb::Define => define_of(alloc, noun, kind, name, items, last),
        Verb::Alter => alter_of(alloc, noun, kind, name, items),
        Verb::Delete => delete_of(noun, name),
        Verb::Display => display_of(alloc, noun, kind, name, items),
        Verb::Start => start_of(name),
        Verb::Stop => stop_of(name),
        Verb::Reset => reset_of(name, items),
        Verb::Resolve => resolve_of(name, items, last),
    }
}

#[tactic(auto, unfolding(crate::specs::Parsing::checked_command))]
fn checked_command(
    alloc: Global,
    verb: Verb,
    noun: Noun,
    name: &Named,
    last: Span,
    items: &[Item],
) -> Result<Command, ScFault>
    ensures { Gives result (checked_command verb noun name.now last items.now) }
{
    let kind = kind_of(noun, items);
    match fault_of(verb, kind, items) {
        Some(fault) => Err(fault),
        None => command_of(alloc, verb, noun, kind, name, items, last),
    }
}

/// The command of a line. Source: MQSC reference.
///
/// # Errors
///
/// The first cause in the order of `ScFault`, and of one cause the first place; `NoMemory` where memory
/// runs out.
#[tactic(auto, unfolding(crate::specs::Parsing::parse_of))]
pub fn parse(alloc: Global, line: &Line) -> Result<Command, ScFault>
    ensures { Gives result (parse_of line.now) }
{
    let tokens = line.tokens.as_slice();
    let Some(verb) = verb_of(first_word(tokens)) else {
        return Err(ScFault::UnknownVerb(first_span(line.number, tokens)));
    };
    let object = second_span(line.number, tokens);
    let Some(noun) = object_of(verb, second_word(tokens)) else {
        return Err(ScFault::UnknownObject(object));
    };
    let rest = behind(tokens, 2);
    let name = named_at(alloc, noun, object, rest)?;
    let items = items_of(alloc, behind(rest, name.len))?;
    let last = last_span(line.number, tokens);
    checked_command(alloc, verb, noun, &name, last, items.as_slice())
}
