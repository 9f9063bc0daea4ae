//! MQPUT and MQPUT1.
ghost use Rattle.std.specs.Prelude.{◌≡◌, ◌≤◌, ◌<◌, ◌^◌, length, true, false, IsSome, IfSome, IfOk};
ghost use Rattle.mq_calls.specs.Words.{Meets, connection_at, is_up, is_persistent, local_of, put_bytes};
ghost use Rattle.mq_core.specs.Counting.{CanCount};
ghost use Rattle.mq_spec_manager.specs.Words.{next_ident, sent_answer, is_high, mqput, mqput1};
ghost use Rattle.mq_core.specs.from_record.Records.{CanBeKept};
ghost use Rattle.mq_core.specs.Calls.{now_step, unit_step};
ghost use Rattle.mq_mqi.specs.Puts.{letter_at, letter_message, CanPost};
ghost use Rattle.mq_core.specs.Values.{manager_of, WritesLog};

use crate::drafts::{Letter, can_put, can_put1};
use mq_base::{Items, NoMemory, QName};
use mq_calls::{Answer, Did, Halt, Hconn, Hobj, Sent};
use mq_codes::Reason;
use mq_core::{Core, make_put_room, put_bytes};
use mq_disk::Disk;
use mq_message::{Md, Message};
use std::alloc::Global;

/// What a put gives back; a priority above 9 is warned of.
fn sent_answer(high: bool, message: &Message) -> Answer<Sent>
    ensures { result ≡ sent_answer high message.now }
{
    let sent = Sent {
        ident: message.ident,
        md: message.md,
    };
    if high {
        Answer::Warning(Reason::PriorityExceedsMaximum, sent)
    } else {
        Answer::Ok(sent)
    }
}

/// A priority above 9.
fn is_high(md: &Md) -> bool
    ensures { result ≡ is_high md.now.priority }
{
    md.priority > 9
}

/// The message, with this body.
fn message_of(alloc: Global, letter: &Letter, body: &[u8]) -> Result<Message, NoMemory>
    ensures { IfOk result (λ m. m ≡ letter_message letter.now body.now) }
{
    match Items::from_slice(alloc, body) {
        Ok(body) => Ok(Message {
            ident: letter.draft.ident,
            md: letter.draft.md,
            route: letter.draft.route,
            deadline: letter.draft.deadline,
            body,
        }),
        Err(_) => Err(NoMemory),
    }
}

/// A nonpersistent message is placed at once.
fn put_free<D: Disk>(
    core: &mut Core<D>,
    queue: &QName,
    message: Message,
    high: bool,
) -> Result<Answer<Sent>, Halt<Reason>>
    requires up { is_up core.old.plain.running ≡ true }
    requires low { CanCount core.old.plain }
    requires there { IsSome (local_of queue.now core.old.plain.definitions) }
    requires ident { message.ident ≡ next_ident core.old.plain }
    requires free { is_persistent message ≡ false }
    ensures meets { Meets (manager_of core.old) (now_step high queue.now message) result (manager_of core.new) }
    ensures told { WritesLog core.old (now_step high queue.now message) result core.new }
{
    core.begin_call();
    let sent = sent_answer(high, &message);
    match make_put_room(&mut core.parts, &mut core.effects, queue, 0) {
        Ok(()) => {}
        Err(NoMemory) => return Err(Halt::NoMemory),
    }
    core.effects.tell(Did::Placed {
        queue: *queue,
        ident: message.ident,
        dead: None,
    });
    core.parts.settle_put(queue, message, 0);
    Ok(sent)
}

/// A persistent message is placed at once, behind a forced write.
fn put_forced<D: Disk>(
    core: &mut Core<D>,
    queue: &QName,
    message: Message,
    high: bool,
) -> Result<Answer<Sent>, Halt<Reason>>
    requires up { is_up core.old.plain.running ≡ true }
    requires low { CanCount core.old.plain }
    requires there { IsSome (local_of queue.now core.old.plain.definitions) }
    requires ident { message.ident ≡ next_ident core.old.plain }
    requires kept { CanBeKept message }
    ensures meets { Meets (manager_of core.old) (now_step high queue.now message) result (manager_of core.new) }
    ensures told { WritesLog core.old (now_step high queue.now message) result core.new }
{
    core.begin_call();
    let sent = sent_answer(high, &message);
    let need = 14 + put_bytes(&message);
    match make_put_room(&mut core.parts, &mut core.effects, queue, need) {
        Ok(()) => {}
        Err(NoMemory) => return Err(Halt::NoMemory),
    }
    match core.parts.force_put(queue, &message) {
        Ok(()) => {}
        Err(stop) => {
            core.parts.go_down_put(queue, message);
            core.stopped = Some(stop);
            return Err(Halt::Stopped(stop));
        }
    }
    core.effects.tell(Did::Placed {
        queue: *queue,
        ident: message.ident,
        dead: None,
    });
    core.parts.settle_put(queue, message, need);
    Ok(sent)
}

/// A message waits in the unit of a connection.
fn put_in_unit<D: Disk>(
    core: &mut Core<D>,
    number: u64,
    queue: &QName,
    message: Message,
    high: bool,
) -> Result<Answer<Sent>, Halt<Reason>>
    requires up { is_up core.old.plain.running ≡ true }
    requires live { IsSome (connection_at number core.old.plain.connections) }
    requires low { CanCount core.old.plain }
    requires there { IsSome (local_of queue.now core.old.plain.definitions) }
    requires ident { message.ident ≡ next_ident core.old.plain }
    requires kept { is_persistent message ≡ true → CanBeKept message }
    ensures meets { Meets (manager_of core.old) (unit_step number high queue.now message core.old.plain) result (manager_of core.new) }
    ensures told { WritesLog core.old (unit_step number high queue.now message core.old.plain) result core.new }
{
    core.begin_call();
    let sent = sent_answer(high, &message);
    let need = core.parts.unit_put_need(number, &message);
    match core.parts.pend_put(number, queue, message, need) {
        Ok(()) => {}
        Err(NoMemory) => return Err(Halt::NoMemory),
    }
    Ok(sent)
}

/// A message for which no refusal applies.
fn put<D: Disk>(
    core: &mut Core<D>,
    number: u64,
    letter: &Letter,
    body: &[u8],
    sync: bool,
    high: bool,
) -> Result<Answer<Sent>, Halt<Reason>>
    requires up { is_up core.old.plain.running ≡ true }
    requires live { IsSome (connection_at number core.old.plain.connections) }
    requires can { IfSome (connection_at number core.old.plain.connections) (λ c. CanPost letter.now sync body.now c core.old.plain) }
    requires low { CanCount core.old.plain }
    requires limit { core.old.plain.definitions.manager.max_message_length ≤ 4194304 }
    ensures meets { Meets (manager_of core.old) (letter_at number letter.now high sync body.now core.old.plain) result (manager_of core.new) }
    ensures told { WritesLog core.old (letter_at number letter.now high sync body.now core.old.plain) result core.new }
{
    let message = match message_of(core.parts.alloc, letter, body) {
        Ok(message) => message,
        Err(NoMemory) => {
            core.begin_call();
            return Err(Halt::NoMemory);
        }
    };
    if sync {
        return put_in_unit(core, number, &letter.queue, message, high);
    }
    if message.md.persistence == 1 {
        return put_forced(core, &letter.queue, message, high);
    }
    put_free(core, &letter.queue, message, high)
}

/// MQPUT: a message through a handle, at once or in the connection's unit (MQI reference, MQPUT). Outside units a
/// persistent one is placed behind one forced write.
///
/// # Errors
///
/// Refused: 2018, 2009, 2019, 2041, 2039, 2013, 2027, 2051, 2030, 2031, 2024, 2053, 2102. No memory; nothing has changed.
/// Stopped: its write was stopped, by the armed cut or by the disk.
pub fn mqput<D: Disk>(
    core: &mut Core<D>,
    hc: Hconn,
    ho: Hobj,
    md: &Md,
    body: &[u8],
    sync: bool,
) -> Result<Answer<Sent>, Halt<Reason>>
    requires low { CanCount core.old.plain }
    requires limit { core.old.plain.definitions.manager.max_message_length ≤ 4194304 }
    ensures meets { Meets (manager_of core.old) (mqput hc ho md.now body.now sync core.old.plain) result (manager_of core.new) }
    ensures told { WritesLog core.old (mqput hc ho md.now body.now sync core.old.plain) result core.new }
{
    match can_put(&core.parts, &hc, &ho, md, body, sync) {
        Ok(letter) => put(core, hc.number, &letter, body, sync, is_high(md)),
        Err(reason) => {
            core.begin_call();
            Err(Halt::Refused(reason))
        }
    }
}

/// MQPUT1: a message to a name, without a handle (MQI reference, MQPUT1).
///
/// # Errors
///
/// Those of MQPUT but for the handle's, and those of name resolution, and 2045.
pub fn mqput1<D: Disk>(
    core: &mut Core<D>,
    hc: Hconn,
    name: &QName,
    qmgr: &QName,
    md: &Md,
    body: &[u8],
    sync: bool,
) -> Result<Answer<Sent>, Halt<Reason>>
    requires low { CanCount core.old.plain }
    requires limit { core.old.plain.definitions.manager.max_message_length ≤ 4194304 }
    ensures meets { Meets (manager_of core.old) (mqput1 hc name.now qmgr.now md.now body.now sync core.old.plain) result (manager_of core.new) }
    ensures told { WritesLog core.old (mqput1 hc name.now qmgr.now md.now body.now sync core.old.plain) result core.new }
{
    match can_put1(&core.parts, &hc, name, qmgr, md, body, sync) {
        Ok(letter) => put(core, hc.number, &letter, body, sync, is_high(md)),
        Err(reason) => {
            core.begin_call();
            Err(Halt::Refused(reason))
        }
    }
}
