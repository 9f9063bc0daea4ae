//! Changes of objects as a log tells them: which of them it may tell, and what becomes of the rows.
ghost use Rattle.std.specs.Prelude.{◌≡◌, OnOk};
ghost use Rattle.mq_objects.specs.Names.{space_in, space_of, name_of, local_of, object_in, named};
ghost use Rattle.mq_calls.specs.Changes.{lane_of};
ghost use Rattle.mq_recover_read.specs.from_spec_log.Applies.{agrees, fits, same_form, can_replace, can_set, is_empty_local, can_delete, can_change};
ghost use Rattle.mq_recover_read.specs.from_spec_log.Records.{shelf_if, shelves_after};

use mq_base::{NoMemory, QName};
use mq_message::Message;
use mq_objects::{
    Defs, LocalQueue, NameSpace, Object, ObjectChange, Subject, is_by_priority, is_kind,
    is_transmission,
};
use mq_queue::lane_at;
use mq_shelves::Shelves;
use std::alloc::Global;

fn agrees(a: bool, b: bool) -> bool
    ensures { result ≡ agrees a b }
{
    if a { b } else { !b }
}

/// Whether a message fits a queue: it is local, and the message has a route exactly where it is a transmission queue.
pub fn fits(defs: &Defs, queue: &QName, message: &Message) -> bool
    ensures { result ≡ fits queue.now message.now defs.now.definitions }
{
    match defs.local(queue) {
        None => false,
        Some(local) => agrees(is_transmission(local.usage), message.route.is_some()),
    }
}

/// The lane of a message on a queue: by its priority, or the one lane of first in, first out.
pub fn lane_on(defs: &Defs, queue: &QName, message: &Message) -> u8
    ensures { result ≡ lane_of (local_of queue.now defs.now.definitions) message.now.md.priority }
{
    match defs.local(queue) {
        None => 0,
        Some(local) => {
            if is_by_priority(local.delivery) {
                lane_at(message.md.priority)
            } else {
                0
            }
        }
    }
}

fn same_form(a: &LocalQueue, b: &LocalQueue) -> bool
    ensures { result ≡ same_form a.now b.now }
{
    agrees(is_transmission(a.usage), is_transmission(b.usage))
        && agrees(is_by_priority(a.delivery), is_by_priority(b.delivery))
}

/// Whether an object may take the place of another.
fn can_replace(new: &Object, old: &Object, shelves: &Shelves) -> bool
    ensures { result ≡ can_replace new.now old.now shelves.now }
{
    match (new, old) {
        (Object::Local(new), Object::Local(old)) => {
            same_form(new, old) || !shelves.has_rows_on(&new.name)
        }
        (Object::Alias(_), Object::Alias(_)) => true,
        (Object::Remote(_), Object::Remote(_)) => true,
        (Object::Channel(_), Object::Channel(_)) => true,
        (Object::Process(_), Object::Process(_)) => true,
        _ => false,
    }
}

fn space_of(object: &Object) -> NameSpace
    ensures { space_in result ≡ space_of object.now }
{
    match object {
        Object::Local(_) => NameSpace::Queues,
        Object::Alias(_) => NameSpace::Queues,
        Object::Remote(_) => NameSpace::Queues,
        Object::Channel(_) => NameSpace::Channels,
        Object::Process(_) => NameSpace::Processes,
    }
}

fn name_of(object: &Object) -> &[u8]
    ensures { result.now ≡ name_of object.now }
{
    match object {
        Object::Local(queue) => queue.name.text(),
        Object::Alias(queue) => queue.name.text(),
        Object::Remote(queue) => queue.name.text(),
        Object::Channel(channel) => channel.name.text(),
        Object::Process(process) => process.name.text(),
    }
}

fn can_set(defs: &Defs, new: &Object, shelves: &Shelves) -> bool
    ensures { result ≡ can_set new.now (object_in (space_of new.now) (name_of new.now) defs.now.definitions.objects) shelves.now }
{
    match defs.by_name(space_of(new), name_of(new)) {
        None => true,
        Some(old) => can_replace(new, old, shelves),
    }
}

fn is_empty_local(subject: &Subject, shelves: &Shelves) -> bool
    ensures { result ≡ is_empty_local subject.now shelves.now }
{
    match subject {
        Subject::Local(name) => !shelves.has_rows_on(name),
        Subject::Alias(_) | Subject::Remote(_) | Subject::Channel(_) | Subject::Process(_) => true,
    }
}

fn can_delete(defs: &Defs, subject: &Subject, shelves: &Shelves) -> bool
    ensures { result ≡ can_delete subject.now (named subject.now defs.now.definitions) shelves.now }
{
    match defs.named(subject) {
        None => false,
        Some(old) => is_kind(subject, old) && is_empty_local(subject, shelves),
    }
}

/// Whether a log may tell a change: a set finds no object of another kind, nor changes USAGE or MSGDLVSQ of a queue
/// with rows; a delete finds its object, without rows.
pub fn can_change(defs: &Defs, change: &ObjectChange, shelves: &Shelves) -> bool
    ensures { result ≡ can_change change.now defs.now.definitions shelves.now }
{
    match change {
        ObjectChange::Set(new) => can_set(defs, new, shelves),
        ObjectChange::SetManager(_) => true,
        ObjectChange::Delete(subject) => can_delete(defs, subject, shelves),
    }
}

fn add_shelf(
    alloc: Global,
    defs: &Defs,
    shelves: &mut Shelves,
    name: &QName,
) -> Result<(), NoMemory>
    ensures { OnOk result (shelves.new ≡ shelf_if (local_of name.now defs.now.definitions) name.now shelves.old) }
{
    match defs.local(name) {
        None => shelves.set_empty(alloc, name),
        Some(_) => Ok(()),
    }
}

/// A local queue that is new has no rows yet, and one that goes is no more.
pub fn change_shelves(
    alloc: Global,
    defs: &Defs,
    shelves: &mut Shelves,
    change: &ObjectChange,
) -> Result<(), NoMemory>
    ensures { OnOk result (shelves.new ≡ shelves_after change.now defs.now.definitions shelves.old) }
{
    match change {
        ObjectChange::Set(Object::Local(queue)) => add_shelf(alloc, defs, shelves, &queue.name),
        ObjectChange::Delete(Subject::Local(name)) => {
            shelves.drop_queue(name);
            Ok(())
        }
        _ => Ok(()),
    }
}
