//! Where replies go (IBM MQ reference, "MQMD", ReplyToQ and ReplyToQMgr).
ghost use Rattle.std.specs.Prelude.{◌≡◌, option_copied};
ghost use Rattle.mq_base.specs.Name.{name_of, padded, trimmed};
ghost use Rattle.mq_spec_manager.specs.Words.{is_blank, replies_by, replies_to, named_by};

use mq_base::{QName, trimmed};
use mq_objects::{Defs, Object};

/// The fields ReplyToQ and ReplyToQMgr, padded with blanks.
#[derive(Clone, Copy)]
pub struct Replies {
    pub queue: [u8; 48],
    pub qmgr: [u8; 48],
}

/// Whether a field has nothing but blanks.
pub fn is_blank(field: &[u8; 48]) -> bool
    ensures { result ≡ is_blank field.now }
{
    field.iter().all(|b| *b == b' ')
}

/// The queue that a field names.
fn named_by<'a>(defs: &'a Defs, field: &[u8; 48]) -> Option<&'a Object>
    ensures { option_copied result ≡ named_by (name_of 48 (trimmed field.now)) defs.now.definitions }
{
    match QName::of(trimmed(field.as_slice())) {
        Ok(name) => defs.queue(&name),
        Err(_) => None,
    }
}

/// A remote queue gives its names; else replies go to this manager.
fn replies_by(own: &QName, queue: &[u8; 48], object: Option<&Object>) -> Replies
    ensures queue { result.queue ≡ (replies_by own.now queue.now (option_copied object.entry)).queue }
    ensures qmgr { result.qmgr ≡ (replies_by own.now queue.now (option_copied object.entry)).qmgr }
{
    match object {
        Some(Object::Remote(remote)) => {
            let queue = *remote.remote_name.bytes();
            let qmgr = *remote.remote_manager.bytes();
            Replies { queue, qmgr }
        }
        Some(Object::Local(_)) => to_own(own, queue),
        Some(Object::Alias(_)) => to_own(own, queue),
        Some(Object::Channel(_)) => to_own(own, queue),
        Some(Object::Process(_)) => to_own(own, queue),
        None => to_own(own, queue),
    }
}

/// To a queue of this manager.
fn to_own(own: &QName, queue: &[u8; 48]) -> Replies
    ensures queue { result.queue ≡ queue.now }
    ensures qmgr { result.qmgr ≡ padded 48 own.now }
{
    let queue = *queue;
    let qmgr = *own.bytes();
    Replies { queue, qmgr }
}

/// Where replies go: a blank ReplyToQMgr beside a ReplyToQ is filled in.
pub fn replies_to(own: &QName, defs: &Defs, queue: &[u8; 48], qmgr: &[u8; 48]) -> Replies
    ensures queue { result.queue ≡ (replies_to queue.now qmgr.now own.now defs.now.definitions).queue }
    ensures qmgr { result.qmgr ≡ (replies_to queue.now qmgr.now own.now defs.now.definitions).qmgr }
{
    if !is_blank(queue) && is_blank(qmgr) {
        return replies_by(own, queue, named_by(defs, queue));
    }
    let queue = *queue;
    let qmgr = *qmgr;
    Replies { queue, qmgr }
}
