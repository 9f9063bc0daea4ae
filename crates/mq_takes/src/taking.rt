//! The messages of a batch that a commit places, before it.
ghost use Rattle.std.specs.Prelude.{◌≡◌, [], ◌∷◌, ◌++◌, if◌then◌else◌, IfOk, OnOk};
ghost use Rattle.mq_takes.specs.Words as words;

use mq_base::NoMemory;
use mq_calls::Messages;
use mq_core::Parts;
use mq_disk::Disk;
use mq_message::{Bytes, Dest, Ident, Message};
use mq_own::ReceiverEnd;
use mq_turn_parts::below::{Found, Manager, standing};
use std::alloc::Global;

/// An ident that is found so is kept out.
fn keeps_out(found: &Found) -> bool
    ensures { result ≡ words.is_present (words.standing_as found.now) }
{
    match found {
        Found::Absent => false,
        Found::InDoubt { .. } => false,
        Found::Present => true,
    }
}

/// Whether the ident of a message stands at the manager, so that it is kept out.
fn is_present<D: Disk>(parts: &Parts<D>, message: &Message) -> bool
    ensures { result ≡ words.is_present (words.standing_at message.now (words.plain_of parts.now)) }
{
    let found = standing(parts, message);
    keeps_out(&found)
}

fn has_ident(message: &Message, ident: &Ident) -> bool
    ensures { result ≡ words.has_ident_of ident.now message.now }
{
    *ident == message.ident
}

fn is_among(taken: &[Message], ident: &Ident) -> bool
    ensures { result ≡ words.is_among ident.now taken.now }
{
    taken.iter().any(|message| has_ident(message, ident))
}

fn copy_route(route: &Option<Dest>) -> Option<Dest>
    ensures { result ≡ route.now }
{
    match route {
        None => None,
        Some(dest) => Some(Dest {
            queue: dest.queue,
            qmgr: dest.qmgr,
        }),
    }
}

fn copied(alloc: Global, message: &Message) -> Result<Message, NoMemory>
    ensures { IfOk result (λ m. m ≡ message.now) }
{
    match Bytes::from_slice(alloc, message.body.as_slice()) {
        Err(_) => Err(NoMemory),
        Ok(body) => Ok(Message {
            ident: message.ident,
            md: message.md,
            route: copy_route(&message.route),
            deadline: message.deadline,
            body,
        }),
    }
}

/// A copy of a message comes behind those that were taken.
fn take_one(alloc: Global, message: &Message, taken: &mut Messages) -> Result<(), NoMemory>
    ensures ok { OnOk result (taken.new ≡ taken.old ++ message.now ∷ []) }
{
    match copied(alloc, message) {
        Err(NoMemory) => Err(NoMemory),
        Ok(copy) => match taken.push(copy) {
            Ok(()) => Ok(()),
            Err(_) => Err(NoMemory),
        },
    }
}

/// A message is taken, or kept out.
fn take_next<D: Disk>(
    parts: &Parts<D>,
    message: &Message,
    taken: &mut Messages,
) -> Result<(), NoMemory>
    ensures ok { OnOk result (taken.new ≡ (if words.is_out taken.old message.now (words.plain_of parts.now) then taken.old else taken.old ++ message.now ∷ [])) }
{
    if is_among(taken.as_slice(), &message.ident) || is_present(parts, message) {
        return Ok(());
    }
    take_one(parts.alloc, message, taken)
}

/// Copies of the messages of a batch that are taken.
fn taken_in<D: Disk>(parts: &Parts<D>, batch: &[Message]) -> Result<Messages, NoMemory>
    ensures { IfOk result (λ ms. ms ≡ words.taken_behind [] batch.now (words.plain_of parts.now)) }
{
    let mut taken = Messages::new(parts.alloc);
    for message in batch {
        match take_next(parts, message, &mut taken) {
            Ok(()) => {}
            Err(NoMemory) => return Err(NoMemory),
        }
    }
    Ok(taken)
}

/// So at a manager.
fn taken_here<D: Disk>(manager: &Manager<D>, batch: &[Message]) -> Result<Messages, NoMemory>
    ensures { IfOk result (λ ms. ms ≡ words.taken_behind [] batch.now manager.now.plain) }
{
    taken_in(&manager.core.parts, batch)
}

/// Copies of the messages of a batch that its commit takes, where it is done.
fn taken_at<D: Disk>(manager: &Manager<D>, batch: &[Message]) -> Result<Messages, NoMemory>
    requires up { words.IsUp manager.now.plain }
    ensures { IfOk result (λ ms. words.TakesAll batch.now manager.now.plain ms) }
{
    manager.facts();
    match taken_here(manager, batch) {
        Err(NoMemory) => Err(NoMemory),
        Ok(taken) => Ok(taken),
    }
}

/// So of what an end keeps.
pub(crate) fn taken<D: Disk>(manager: &Manager<D>, end: &ReceiverEnd) -> Result<Messages, NoMemory>
    requires up { words.IsUp manager.now.plain }
    ensures { IfOk result (λ ms. words.TakesAll end.now.kept manager.now.plain ms) }
{
    taken_at(manager, end.kept.as_slice())
}
