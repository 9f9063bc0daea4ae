//! Objects as the commands that define them: the texts that the log keeps.
ghost use Rattle.std.specs.Prelude.{◌≡◌, [], ◌++◌, OnOk, IfOk, codes};
ghost use Rattle.mq_objects.specs.Names.{name_of, subject_name};
ghost use Rattle.mq_objects.specs.Attributes.{kind_word, subject_word, is_flag, in_brackets, quoted, kept_attribute, kept_of, attributes, manager_attributes, define_text, manager_text, delete_text};
ghost use Rattle.mq_objects.specs.declared.text.Style.{Style};
ghost use Rattle.mq_objects.specs.Written.{put_all, put_kept};

use crate::command::Subject;
use crate::object::{KeptAttribute, ManagerAttributes, Object};
use crate::text::{How, Style, write_quoted, write_quoted_pair};
use mq_base::Items;
use std::alloc::{AllocError, Global};

impl Object {
    /// The word of the object's kind.
    pub fn kind_word(&self) -> &'static str
        ensures { result.now ≡ kind_word self.now }
    {
        match self {
            Object::Local(_) => "QLOCAL",
            Object::Alias(_) => "QALIAS",
            Object::Remote(_) => "QREMOTE",
            Object::Channel(_) => "CHANNEL",
            Object::Process(_) => "PROCESS",
        }
    }

    /// The object's name.
    pub fn name(&self) -> &[u8]
        ensures { result.now ≡ name_of self.now }
    {
        match self {
            Object::Local(queue) => queue.name.text(),
            Object::Alias(queue) => queue.name.text(),
            Object::Remote(queue) => queue.name.text(),
            Object::Channel(channel) => channel.name.text(),
            Object::Process(process) => process.name.text(),
        }
    }

    /// The attributes that are kept without effect.
    pub fn kept(&self) -> &Items<KeptAttribute>
        ensures { result.now ≡ kept_of self.now }
    {
        match self {
            Object::Local(queue) => &queue.kept,
            Object::Alias(queue) => &queue.kept,
            Object::Remote(queue) => &queue.kept,
            Object::Channel(channel) => &channel.kept,
            Object::Process(process) => &process.kept,
        }
    }
}

impl Subject {
    /// The word of the kind.
    pub fn kind_word(&self) -> &'static str
        ensures { result.now ≡ subject_word self.now }
    {
        match self {
            Subject::Local(_) => "QLOCAL",
            Subject::Alias(_) => "QALIAS",
            Subject::Remote(_) => "QREMOTE",
            Subject::Channel(_) => "CHANNEL",
            Subject::Process(_) => "PROCESS",
        }
    }

    /// The name.
    pub fn name(&self) -> &[u8]
        ensures { result.now ≡ subject_name self.now }
    {
        match self {
            Subject::Local(name) => name.text(),
            Subject::Alias(name) => name.text(),
            Subject::Remote(name) => name.text(),
            Subject::Channel(name) => name.text(),
            Subject::Process(name) => name.text(),
        }
    }
}

fn is_flag(keyword: &[u8]) -> bool
    ensures { result ≡ is_flag keyword.now }
{
    keyword == b"SHARE".as_slice() || keyword == b"HARDENBO".as_slice()
}

/// An attribute that is kept without effect.
fn write_kept(text: &mut Items<u8>, kept: &KeptAttribute) -> Result<(), AllocError>
    ensures { OnOk result (text.new ≡ text.old ++ kept_attribute kept.now) }
{
    if is_flag(kept.keyword.as_slice()) {
        text.push(b' ')?;
        return text.extend_from_slice(kept.value.as_slice());
    }
    write_quoted_pair(text, kept.keyword.as_slice(), kept.value.as_slice())
}

fn write_all_kept(text: &mut Items<u8>, kept: &[KeptAttribute]) -> Result<(), AllocError>
    ensures { OnOk result (text.new ≡ put_kept text.old kept.now) }
{
    for attribute in kept {
        write_kept(text, attribute)?;
    }
    Ok(())
}

/// A verb, the word of a kind, and a name in quotes and brackets.
fn head(alloc: Global, verb: &str, kind: &str, name: &[u8]) -> Result<Items<u8>, AllocError>
    ensures { IfOk result (λ text. text ≡ verb.now ++ in_brackets kind.now (quoted name.now)) }
{
    let mut text = Items::from_slice(alloc, verb.as_bytes())?;
    text.extend_from_slice(kind.as_bytes())?;
    text.push(b'(')?;
    write_quoted(&mut text, name)?;
    text.push(b')')?;
    Ok(text)
}

/// Every attribute of an object, those without effect last.
fn write_object(alloc: Global, text: &mut Items<u8>, object: &Object) -> Result<(), AllocError>
    ensures { OnOk result (text.new ≡ put_kept (put_all Style.Command [] text.old (attributes object.now)) (kept_of object.now)) }
{
    let how = How {
        alloc,
        style: Style::Command,
        asked: &[],
    };
    object.write_attributes(&how, text)?;
    write_all_kept(text, object.kept().as_slice())
}

/// Every attribute of a manager, those without effect last.
fn write_manager(
    alloc: Global,
    text: &mut Items<u8>,
    attributes: &ManagerAttributes,
) -> Result<(), AllocError>
    ensures { OnOk result (text.new ≡ put_kept (put_all Style.Command [] text.old (manager_attributes attributes.now)) attributes.now.kept) }
{
    let how = How {
        alloc,
        style: Style::Command,
        asked: &[],
    };
    attributes.write_attributes(&how, text)?;
    write_all_kept(text, attributes.kept.as_slice())
}

/// The command that defines an object anew, with every attribute.
pub fn define_text(alloc: Global, object: &Object) -> Result<Items<u8>, AllocError>
    ensures { IfOk result (λ text. text ≡ define_text object.now (name_of object.now)) }
{
    let mut text = head(alloc, "DEFINE ", object.kind_word(), object.name())?;
    write_object(alloc, &mut text, object)?;
    Ok(text)
}

/// The command that gives a manager every attribute.
pub fn manager_text(alloc: Global, attributes: &ManagerAttributes) -> Result<Items<u8>, AllocError>
    ensures { IfOk result (λ text. text ≡ manager_text attributes.now) }
{
    let mut text = Items::from_slice(alloc, b"ALTER QMGR")?;
    write_manager(alloc, &mut text, attributes)?;
    Ok(text)
}

/// The command that deletes an object.
pub fn delete_text(alloc: Global, subject: &Subject) -> Result<Items<u8>, AllocError>
    ensures { IfOk result (λ text. text ≡ delete_text subject.now (subject_name subject.now)) }
{
    head(alloc, "DELETE ", subject.kind_word(), subject.name())
}
