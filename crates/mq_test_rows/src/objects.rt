//! mq_objects: objects in order of definition, and the commands that make them.

use crate::fixture::name_of;
use mq_base::{Items, QName};
use mq_objects::{Defs, ManagerAttributes, Object, Setting, Subject, define_text, manager_text};
use std::alloc::{AllocError, Global};
use std::test::*;

/// The command that makes a local queue with a description, each attribute in the order of DISPLAY.
const QUEUE: &str =
    "DEFINE QLOCAL('Q1') DEFPRTY(0) DEFPSIST(NO) GET(ENABLED) INITQ('') MAXDEPTH(5000) MAXMSGL(4194304) MSGDLVSQ(PRIORITY) PROCESS('') PUT(ENABLED) TRIGDATA('') TRIGDPTH(1) NOTRIGGER TRIGMPRI(0) TRIGTYPE(FIRST) USAGE(NORMAL) DESCR('It''s')";

/// The command that gives a manager its first attributes.
const MANAGER: &str =
    "ALTER QMGR DEADQ('') DEFXMITQ('') MAXHANDS(256) MAXMSGL(4194304) MAXUMSGS(10000) TRIGINT(999999999)";

/// An attribute that is only kept.
fn kept(alloc: Global, keyword: &[u8], value: &[u8]) -> Result<Setting, AllocError> {
    let value = Items::from_slice(alloc, value)?;
    let keyword = Items::from_slice(alloc, keyword)?;
    Ok(Setting::Kept(keyword, value))
}

/// Whether an object is made by this command.
fn is_made_by(alloc: Global, object: &Object, command: &[u8]) -> bool {
    match define_text(alloc, object) {
        Ok(text) => text.as_slice() == command,
        Err(_) => false,
    }
}

/// Whether a local queue with a setting more is made by this command.
fn is_queue_made_by(alloc: Global, setting: &Setting, command: &[u8]) -> bool {
    let mut queue = Object::new(alloc, &Subject::Local(name_of("Q1")));
    queue.give(alloc, setting).is_ok() && is_made_by(alloc, &queue, command)
}

#[test]
fn a_definition_is_the_command_that_makes_it(rt: HostRuntime) -> Result<(), Fail> {
    let setting = kept(rt.alloc(), b"DESCR", b"It's")?;
    assert!(rt; is_queue_made_by(rt.alloc(), &setting, QUEUE.as_bytes()));
    Ok(())
}

#[test]
fn a_managers_attributes_are_the_command_that_gives_them(rt: HostRuntime) -> Result<(), Fail> {
    let text = manager_text(rt.alloc(), &ManagerAttributes::new(rt.alloc()))?;
    assert_eq!(rt; text.as_slice(), MANAGER.as_bytes());
    Ok(())
}

/// Kinds of objects.
enum Kind {
    Local,
    Alias,
    Remote,
    Process,
}

fn subject_of(kind: &Kind, name: &str) -> Subject {
    let name = name_of(name);
    match *kind {
        Kind::Local => Subject::Local(name),
        Kind::Alias => Subject::Alias(name),
        Kind::Remote => Subject::Remote(name),
        Kind::Process => Subject::Process(name),
    }
}

/// An object more; none, where memory lacks.
fn add(alloc: Global, defs: &mut Defs, kind: &Kind, name: &str) {
    if defs.reserve().is_ok() {
        defs.set(Object::new(alloc, &subject_of(kind, name)));
    }
}

/// Three objects of one name and one of another, in their order.
const FOUR: [(Kind, &str); 4] = [
    (Kind::Local, "B"),
    (Kind::Process, "B"),
    (Kind::Alias, "A"),
    (Kind::Remote, "B"),
];

/// The four, with the second deleted.
fn four(alloc: Global) -> Defs {
    let mut defs = Defs::new(alloc);
    for (kind, name) in &FOUR {
        add(alloc, &mut defs, kind, name);
    }
    defs.delete(&subject_of(&Kind::Process, "B"));
    defs
}

/// Whether the object at a place is of this kind.
fn is_kind(defs: &Defs, place: usize, kind: &str) -> bool {
    match defs.object_at(place) {
        Some(object) => object.kind_word() == kind,
        None => false,
    }
}

/// Whether objects of these kinds stand there in order, and no others.
fn are_kinds(defs: &Defs, kinds: &[&str]) -> bool {
    let mut met = defs.len() == kinds.len();
    for (place, kind) in kinds.iter().enumerate() {
        met = met && is_kind(defs, place, kind);
    }
    met
}

fn has_local(defs: &Defs, name: &QName) -> bool {
    defs.local(name).is_some()
}

fn has_queue(defs: &Defs, name: &QName) -> bool {
    defs.queue(name).is_some()
}

#[test]
fn objects_stand_in_order_of_definition(rt: HostRuntime) {
    let defs = four(rt.alloc());
    assert!(rt; are_kinds(&defs, &["QREMOTE", "QALIAS"]));
    assert!(rt; !has_local(&defs, &name_of("B")));
    assert!(rt; has_queue(&defs, &name_of("A")));
}
