//! DISPLAY: the lines that it shows.
ghost use Rattle.std.specs.Prelude.{◌≡◌, false, [], ◌∷◌, ◌++◌, OnOk, IfOk};
ghost use Rattle.mq_calls.specs.from_objects.Attributes.{in_brackets};
ghost use Rattle.mq_calls.specs.from_objects.Written.{put_all};
ghost use Rattle.mq_sc_apply.specs.Displayed.{is_meant, searched_space, has_name, is_shown, local_shown, shown_attributes, manager_shown, object_line, manager_line, lines_of, object_lines, lines_found, display};
ghost use Rattle.mq_sc_apply.specs.Commands.{Gives};

use crate::in_use::InUse;
use mq_calls::below::{
    Defs, Display, How, Items, Keyword, LocalQueue, ManagerAttributes, NameSpace, Object, QName,
    Style, Subjects, write_number,
};
use mq_calls::{ScRefusal, Shown};
use std::alloc::{AllocError, Global};

fn is_meant(subjects: Subjects, object: &Object) -> bool
    ensures { result ≡ is_meant subjects object.now }
{
    match (subjects, object) {
        (Subjects::Locals | Subjects::Queues, Object::Local(_)) => true,
        (Subjects::Aliases | Subjects::Queues, Object::Alias(_)) => true,
        (Subjects::Remotes | Subjects::Queues, Object::Remote(_)) => true,
        (Subjects::Channels, Object::Channel(_)) => true,
        (Subjects::Processes, Object::Process(_)) => true,
        _ => false,
    }
}

fn has_name(command: &Display, name: &[u8]) -> bool
    ensures { result ≡ has_name command.now name.now }
{
    if command.any_end {
        name.starts_with(command.name.as_slice())
    } else {
        command.name.as_slice() == name
    }
}

fn is_shown(command: &Display, object: &Object) -> bool
    ensures { result ≡ is_shown command.now object.now }
{
    is_meant(command.subjects, object) && has_name(command, object.name())
}

/// A kind and a name.
fn head(alloc: Global, kind: &str, name: &[u8]) -> Result<Items<u8>, AllocError>
    ensures { IfOk result (λ text. text ≡ in_brackets kind.now name.now) }
{
    let mut text = Items::from_slice(alloc, kind.as_bytes())?;
    text.push(b'(')?;
    text.extend_from_slice(name)?;
    text.push(b')')?;
    Ok(text)
}

/// A local queue's attributes, CURDEPTH last. One that counts as NOTRIGGER is shown so.
fn write_local<U: InUse>(
    how: &How,
    text: &mut Items<u8>,
    queue: &LocalQueue,
    uses: &U,
) -> Result<(), AllocError>
    ensures { OnOk result (text.new ≡ put_all how.now.style how.now.asked.now text.old (local_shown queue.now (U.facts uses.now))) }
{
    let trigger = queue.trigger && !uses.trigger_off(&queue.name);
    queue.write_triggered(how, text, trigger)?;
    write_number(
        how,
        text,
        Keyword::CurDepth,
        "CURDEPTH",
        uses.depth(&queue.name),
    )
}

fn write_shown<U: InUse>(
    how: &How,
    text: &mut Items<u8>,
    object: &Object,
    uses: &U,
) -> Result<(), AllocError>
    ensures { OnOk result (text.new ≡ put_all how.now.style how.now.asked.now text.old (shown_attributes object.now (U.facts uses.now))) }
{
    match object {
        Object::Local(queue) => write_local(how, text, queue, uses),
        Object::Alias(queue) => queue.write_attributes(how, text),
        Object::Remote(queue) => queue.write_attributes(how, text),
        Object::Channel(channel) => channel.write_attributes(how, text),
        Object::Process(process) => process.write_attributes(how, text),
    }
}

fn write_manager(
    how: &How,
    text: &mut Items<u8>,
    attributes: &ManagerAttributes,
) -> Result<(), AllocError>
    ensures { OnOk result (text.new ≡ put_all how.now.style how.now.asked.now text.old (manager_shown attributes.now)) }
{
    attributes.write_attributes(how, text)?;
    write_number(how, text, Keyword::MaxPrty, "MAXPRTY", 9)
}

/// The line of an object.
fn object_line<U: InUse>(
    alloc: Global,
    asked: &[Keyword],
    object: &Object,
    uses: &U,
) -> Result<Items<u8>, AllocError>
    ensures { IfOk result (λ line. line ≡ object_line asked.now (U.facts uses.now) object.now) }
{
    let how = How {
        alloc,
        style: Style::Shown,
        asked,
    };
    let mut text = head(alloc, object.kind_word(), object.name())?;
    write_shown(&how, &mut text, object, uses)?;
    Ok(text)
}

/// The line of the manager.
fn manager_line(
    alloc: Global,
    asked: &[Keyword],
    own: &QName,
    attributes: &ManagerAttributes,
) -> Result<Items<u8>, AllocError>
    ensures { IfOk result (λ line. line ≡ manager_line asked.now own.now attributes.now) }
{
    let how = How {
        alloc,
        style: Style::Shown,
        asked,
    };
    let mut text = head(alloc, "QMGR", own.text())?;
    write_manager(&how, &mut text, attributes)?;
    Ok(text)
}

/// The line of an object, where it is shown, behind other lines.
fn push_line<U: InUse>(
    alloc: Global,
    lines: &mut Items<Items<u8>>,
    command: &Display,
    object: &Object,
    uses: &U,
) -> Result<(), AllocError>
    ensures { OnOk result (lines.new ≡ lines.old ++ lines_of command.now (U.facts uses.now) (object.now ∷ [])) }
{
    if !is_shown(command, object) {
        return Ok(());
    }
    let line = object_line(alloc, command.asked.as_slice(), object, uses)?;
    lines.push(line)
}

/// The name space of what a DISPLAY asks for. The manager has none, and its DISPLAY names no object.
fn searched_space(subjects: Subjects) -> NameSpace
    ensures { result ≡ searched_space subjects }
{
    match subjects {
        Subjects::Locals
        | Subjects::Aliases
        | Subjects::Remotes
        | Subjects::Queues
        | Subjects::Manager => NameSpace::Queues,
        Subjects::Channels => NameSpace::Channels,
        Subjects::Processes => NameSpace::Processes,
    }
}

/// The lines that a whole name shows: that of the one object with it, if it is meant.
fn lines_of_one<U: InUse>(
    alloc: Global,
    defs: &Defs,
    command: &Display,
    uses: &U,
) -> Result<Items<Items<u8>>, AllocError>
    requires { command.now.any_end ≡ false }
    ensures { IfOk result (λ lines. lines ≡ object_lines command.now defs.now.definitions (U.facts uses.now)) }
{
    let mut lines = Items::new(alloc);
    let space = searched_space(command.subjects);
    let Some(object) = defs.by_name(space, command.name.as_slice()) else {
        return Ok(lines);
    };
    push_line(alloc, &mut lines, command, object, uses)?;
    Ok(lines)
}

/// The lines of all objects that a command shows, in order of definition.
fn object_lines<U: InUse>(
    alloc: Global,
    defs: &Defs,
    command: &Display,
    uses: &U,
) -> Result<Items<Items<u8>>, AllocError>
    ensures { IfOk result (λ lines. lines ≡ object_lines command.now defs.now.definitions (U.facts uses.now)) }
{
    if !command.any_end {
        return lines_of_one(alloc, defs, command, uses);
    }
    let mut lines = Items::new(alloc);
    for slot in defs.slots() {
        let Some(object) = slot else {
            continue;
        };
        push_line(alloc, &mut lines, command, object, uses)?;
    }
    Ok(lines)
}

fn lines_found(any_end: bool, lines: Items<Items<u8>>) -> Result<Shown, ScRefusal>
    ensures { result ≡ lines_found any_end lines }
{
    if lines.is_empty() && !any_end {
        return Err(ScRefusal::Missing);
    }
    Ok(Shown { lines })
}

fn display_manager(
    alloc: Global,
    defs: &Defs,
    own: &QName,
    asked: &[Keyword],
) -> Result<Shown, AllocError>
    ensures { IfOk result (λ shown. shown.lines ≡ manager_line asked.now own.now defs.now.definitions.manager ∷ []) }
{
    let mut lines = Items::new(alloc);
    lines.push(manager_line(alloc, asked, own, defs.manager())?)?;
    Ok(Shown { lines })
}

/// DISPLAY of objects or of the manager.
pub fn display<U: InUse>(
    alloc: Global,
    defs: &Defs,
    own: &QName,
    command: &Display,
    uses: &U,
) -> Result<Shown, ScRefusal>
    ensures { Gives result (display command.now own.now defs.now.definitions (U.facts uses.now)) }
{
    if let Subjects::Manager = command.subjects {
        return match display_manager(alloc, defs, own, command.asked.as_slice()) {
            Ok(shown) => Ok(shown),
            Err(_) => Err(ScRefusal::NoMemory),
        };
    }
    match object_lines(alloc, defs, command, uses) {
        Ok(lines) => lines_found(command.any_end, lines),
        Err(_) => Err(ScRefusal::NoMemory),
    }
}
