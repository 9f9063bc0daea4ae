//! The change of objects that the text of a command in the log makes.

ghost use Rattle.std.specs.Prelude.{◌≡◌, ◌==◌, ◌&&◌, length, count_by, IfOk};
ghost use Rattle.mq_objects.specs.Attributes.{attributes, manager_attributes};
ghost use Rattle.mq_objects.specs.Defaults.{new_manager};
ghost use Rattle.mq_objects.specs.Settings.{set_all_manager};
ghost use Rattle.mq_spec_log.specs.from_sc_apply.Planned.{defined_object};
ghost use Rattle.mq_spec_log.specs.from_sc_parse.Splitting.{items_of};
ghost use Rattle.mq_spec_log.specs.from_sc_parse.Parsing.{parse_of};
ghost use Rattle.mq_spec_log.specs.Texts.{has_effect, is_plain, gives_all, defined_if, altered_if, meant_by, meant_in, meant_of, change_in};

use mq_base::NoMemory;
use mq_objects::{
    AlterManager, ChannelKind, Define, ManagerAttributes, Object, ObjectChange, Setting,
};
use mq_sc_lex::{LexFault, Line, commands};
use mq_spec_log::below::{
    Command, Item, Operation, ScFault, defined_object, has_word, items_of, parse,
};
use std::alloc::Global;

fn has_effect(setting: &Setting) -> bool
    ensures { result ≡ has_effect setting.now }
{
    !matches!(setting, Setting::Kept(_, _))
}

/// How many attributes a command gives, those without effect not counted.
fn effective(settings: &[Setting]) -> usize
    ensures { result ≡ count_by has_effect settings.now }
{
    settings
        .iter()
        .filter(|setting| has_effect(setting))
        .count()
}

/// How many attributes an object of that kind has.
fn attribute_count(object: &Object) -> usize
    ensures { result ≡ length (attributes object.now) }
{
    match object {
        Object::Local(_) => 15,
        Object::Alias(_) => 5,
        Object::Remote(_) => 6,
        Object::Channel(channel) => match channel.kind {
            ChannelKind::Sender(_, _, _) => 6,
            ChannelKind::Receiver(_) => 4,
        },
        Object::Process(_) => 4,
    }
}

/// Whether a DEFINE says nothing of an object that is there.
fn is_plain(items: &[Item]) -> bool
    ensures { result ≡ is_plain items.now }
{
    !has_word(b"REPLACE", items) && !has_word(b"NOREPLACE", items)
}

/// The object that a DEFINE sets, where it gives every attribute.
fn defined(alloc: Global, items: &[Item], define: &Define) -> Result<Option<ObjectChange>, NoMemory>
    ensures { IfOk result (λ o. o ≡ defined_if (is_plain items.now && gives_all define.now.settings (attributes (defined_object define.now.subject define.now.settings))) (defined_object define.now.subject define.now.settings)) }
{
    let object = defined_object(alloc, &define.subject, define.settings.as_slice())?;
    let given = effective(define.settings.as_slice());
    if is_plain(items) && given == attribute_count(&object) {
        Ok(Some(ObjectChange::Set(object)))
    } else {
        Ok(None)
    }
}

/// The attributes that an ALTER QMGR sets, where it gives all.
fn altered(alloc: Global, alter: &AlterManager) -> Result<Option<ObjectChange>, NoMemory>
    ensures { IfOk result (λ o. o ≡ altered_if (gives_all alter.now.settings (manager_attributes new_manager)) (set_all_manager alter.now.settings new_manager)) }
{
    if effective(alter.settings.as_slice()) != 6 {
        return Ok(None);
    }
    let mut attributes = ManagerAttributes::new(alloc);
    attributes.give_all(alloc, alter.settings.as_slice())?;
    Ok(Some(ObjectChange::SetManager(attributes)))
}

/// What a command on objects means in the log.
fn meant_by(
    alloc: Global,
    operation: Operation,
    items: &[Item],
    command: &mq_objects::Command,
) -> Result<Option<ObjectChange>, NoMemory>
    ensures { IfOk result (λ o. o ≡ meant_by operation items.now command.now) }
{
    match operation {
        Operation::Set => match command {
            mq_objects::Command::Define(define) => defined(alloc, items, define),
            mq_objects::Command::AlterManager(alter) => altered(alloc, alter),
            mq_objects::Command::Alter(_)
            | mq_objects::Command::Delete(_)
            | mq_objects::Command::Display(_) => Ok(None),
        },
        Operation::Delete => match command {
            mq_objects::Command::Delete(delete) => Ok(Some(ObjectChange::Delete(delete.subject))),
            mq_objects::Command::Define(_)
            | mq_objects::Command::AlterManager(_)
            | mq_objects::Command::Alter(_)
            | mq_objects::Command::Display(_) => Ok(None),
        },
    }
}

/// What a line means in the log.
fn meant_in(
    alloc: Global,
    operation: Operation,
    line: &Line,
) -> Result<Option<ObjectChange>, NoMemory>
    ensures { IfOk result (λ o. o ≡ meant_in operation (items_of line.now.tokens) (parse_of line.now)) }
{
    match parse(alloc, line) {
        Ok(Command::Objects(command)) => {
            let items = items_of(alloc, line.tokens.as_slice())?;
            meant_by(alloc, operation, items.as_slice(), &command)
        }
        Ok(Command::Operate(_)) => Ok(None),
        Ok(Command::ShowStatus { .. }) => Ok(None),
        Err(ScFault::NoMemory) => Err(NoMemory),
        Err(_) => Ok(None),
    }
}

/// The change of objects that a text makes in the log: one command, a set a DEFINE or an ALTER QMGR that gives
/// every attribute, a delete a DELETE; none where it is no such command (MQSC reference; this project's choice).
///
/// # Errors
///
/// No memory.
#[tactic(auto, unfolding(mq_spec_log::specs::Texts::change_in))]
pub fn change_of(
    alloc: Global,
    operation: Operation,
    text: &[u8],
) -> Result<Option<ObjectChange>, NoMemory>
    ensures { IfOk result (λ o. o ≡ change_in operation text.now) }
{
    match commands(alloc, text) {
        Ok(lines) => match lines.as_slice() {
            [line] => meant_in(alloc, operation, line),
            _ => Ok(None),
        },
        Err(LexFault::NoMemory) => Err(NoMemory),
        Err(_) => Ok(None),
    }
}
