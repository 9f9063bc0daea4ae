//! Trigger turns.
ghost use Rattle.std.specs.Prelude.{◌≡◌, ℕ, List, [], ◌∷◌, None, ◌+◌, ◌<◌, ◌^◌, is_some, nat_lt, option_copied, true, Some};
ghost use Rattle.mq_calls.specs.Words.{Meets, Do, apply, stored, local_of, locals_of, process_of, is_transmission, is_up};
ghost use Rattle.mq_objects.specs.Names.{locals_in};
ghost use Rattle.mq_core.specs.Counting.{CanCount};
ghost use Rattle.mq_calls.specs.State.Change.{Serve};
ghost use Rattle.mq_spec_manager.specs.Triggers.{first_due, takes_it, serve_into, serve_by, trigger_turn};
ghost use Rattle.mq_core.specs.Views.{plain_of};
ghost use Rattle.mq_core.specs.Ties.{Tied, IsReady};
ghost use Rattle.mq_core.specs.Placing.{arrived_at};
ghost use Rattle.mq_steer.specs.Due.{next_due};
ghost use Rattle.mq_steer.specs.Turns.{Serves, IsTurn, IsServed, IsServedOr, IsDue, CanSend, sent_part, served_at, numbered, halted};
ghost use Rattle.mq_core.specs.Values.{manager_of, WritesLog};

use mq_base::{NoMemory, QName};
use mq_calls::Did;
use mq_core::below::trigger_message;
use mq_core::{Core, Parts, make_put_room};
use mq_disk::Disk;
use mq_fill::{is_inhibited, max_depth, max_length};
use mq_message::Message;
use mq_objects::{LocalQueue, NameSpace, Object, Process, Usage};
use mq_place::DueAt;
use mq_resolve::PathStep;

/// The length of a trigger message's body, in bytes (IBM MQ: MQTM).
const TM_LENGTH: u32 = 684;

/// A trigger message, and the queue on which it is put.
#[derive(Drop)]
pub struct Sending {
    /// The initiation queue.
    pub to: QName,
    /// The message.
    pub message: Message,
}

/// What is done with the trigger of a queue: its message is put, or it is dropped.
#[derive(Drop)]
pub struct Serving {
    /// The queue whose trigger it is.
    pub from: QName,
    /// What is put.
    pub sending: Option<Sending>,
}

fn dropped(queue: &LocalQueue) -> Serving
    ensures { result ≡ record { from = queue.now.name; sending = None } }
{
    Serving {
        from: queue.name,
        sending: None,
    }
}

#[tactic(auto, using(mq_core::proofs::PlaceLaws::queue_in_state, mq_core::proofs::ReadLaws::queue_none))]
fn has_due<D: Disk>(parts: &Parts<D>, queue: &LocalQueue) -> bool
    ensures { result ≡ nat_lt 0 (stored queue.now.name (plain_of parts.now)).due }
{
    match parts.queues.local(&queue.name) {
        None => false,
        Some(rows) => rows.due() > 0,
    }
}

/// A queue that may be the one with a trigger due: the object is a local queue, and a trigger of it is due.
fn due_object<'a, D: Disk>(parts: &Parts<D>, object: &'a Object) -> Option<&'a LocalQueue>
    ensures { option_copied result ≡ first_due (locals_in (object.now ∷ [])) (plain_of parts.now) }
{
    let Object::Local(queue) = object else {
        return None;
    };
    if has_due(parts, queue) {
        return Some(queue);
    }
    None
}

/// The queue of a name, where a trigger of it is due, and none of another.
fn due_named<'a, D: Disk>(parts: &'a Parts<D>, name: &QName) -> Option<&'a LocalQueue>
    requires only { (other : List ℕ) → nat_lt 0 (stored other (plain_of parts.now)).due ≡ true → other ≡ name.now }
    ensures { option_copied result ≡ first_due (locals_of parts.now.defs.definitions) (plain_of parts.now) }
{
    match parts.defs.by_name(NameSpace::Queues, name.text()) {
        None => None,
        Some(object) => due_object(parts, object),
    }
}

/// The first queue, in order of definition, with a trigger due. It walks there.
fn due_walked<D: Disk>(parts: &Parts<D>) -> Option<&LocalQueue>
    ensures { option_copied result ≡ first_due (locals_of parts.now.defs.definitions) (plain_of parts.now) }
{
    for slot in parts.defs.slots() {
        if let Some(Object::Local(queue)) = slot {
            if has_due(parts, queue) {
                return Some(queue);
            }
        }
    }
    None
}

/// The first queue, in order of definition, with a trigger due. It walks there only where several queues may have one.
#[tactic(auto, using(crate::proofs::DueLaws::nowhere_due))]
fn first_due<D: Disk>(parts: &Parts<D>) -> Option<&LocalQueue>
    ensures { option_copied result ≡ first_due (locals_of parts.now.defs.definitions) (plain_of parts.now) }
{
    match parts.queues.due_at() {
        DueAt::Nowhere => None,
        DueAt::One(name) => due_named(parts, &name),
        DueAt::Several => due_walked(parts),
    }
}

/// The initiation queue refuses a trigger message.
fn refuses<D: Disk>(parts: &Parts<D>, initiation: &LocalQueue) -> bool
    requires tied { Tied parts.now }
    ensures { result ≡ is_some (takes_it initiation.now (plain_of parts.now)) }
{
    if is_inhibited(&parts.defs, &[PathStep::Queue(initiation.name)]) {
        return true;
    }
    if max_length(parts.defs.local(&initiation.name)) < TM_LENGTH {
        return true;
    }
    if parts.defs.manager().max_message_length < TM_LENGTH {
        return true;
    }
    u64::from(max_depth(parts.defs.local(&initiation.name))) <= parts.depth(&initiation.name)
}

/// The trigger of a queue whose process and initiation queue are there.
#[tactic(auto, using(crate::proofs::TurnLaws::local_there))]
fn serve_into<D: Disk>(
    parts: &Parts<D>,
    queue: &LocalQueue,
    process: &Process,
    initiation: &LocalQueue,
) -> Result<Serving, NoMemory>
    requires tied { Tied parts.now }
    requires idents { parts.now.idents + 1 < 2 ^ 64 }
    requires there { local_of queue.now.initiation_queue parts.now.defs.definitions ≡ Some initiation.now }
    ensures { Serves queue.now.name (serve_into (is_transmission initiation.now.usage) queue.now process.now initiation.now (plain_of parts.now)) (plain_of parts.now) result }
{
    if initiation.usage == Usage::Transmission {
        return Ok(dropped(queue));
    }
    if refuses(parts, initiation) {
        return Ok(dropped(queue));
    }
    let ident = parts.next_ident();
    match trigger_message(
        parts.alloc,
        &ident,
        queue,
        process,
        initiation,
        parts.moment,
    ) {
        Ok(message) => Ok(Serving {
            from: queue.name,
            sending: Some(Sending {
                to: initiation.name,
                message,
            }),
        }),
        Err(NoMemory) => Err(NoMemory),
    }
}

/// The trigger of a queue.
fn serve_by<D: Disk>(parts: &Parts<D>, queue: &LocalQueue) -> Result<Serving, NoMemory>
    requires tied { Tied parts.now }
    requires idents { parts.now.idents + 1 < 2 ^ 64 }
    ensures { Serves queue.now.name (serve_by queue.now (process_of queue.now.process parts.now.defs.definitions) (local_of queue.now.initiation_queue parts.now.defs.definitions) (plain_of parts.now)) (plain_of parts.now) result }
{
    let Some(process) = parts.defs.process(&queue.process) else {
        return Ok(dropped(queue));
    };
    let Some(initiation) = parts.defs.local(&queue.initiation_queue) else {
        return Ok(dropped(queue));
    };
    serve_into(parts, queue, process, initiation)
}

/// What is done with the first trigger that is due.
fn turn_of<D: Disk>(parts: &Parts<D>, queue: &LocalQueue) -> Result<Serving, NoMemory>
    requires tied { Tied parts.now }
    requires idents { parts.now.idents + 1 < 2 ^ 64 }
    requires up { is_up (plain_of parts.now).running ≡ true }
    requires first { first_due (locals_of parts.now.defs.definitions) (plain_of parts.now) ≡ Some queue.now }
    ensures { IsServedOr (plain_of parts.now) result }
{
    serve_by(parts, queue)
}

/// What the turn does, with the memory of its message taken; nothing where no trigger is due.
#[tactic(auto, using(crate::proofs::TurnLaws::turn_down, crate::proofs::TurnLaws::turn_none))]
fn next_turn<D: Disk>(parts: &Parts<D>) -> Result<Option<Serving>, NoMemory>
    requires tied { Tied parts.now }
    requires idents { parts.now.idents + 1 < 2 ^ 64 }
    ensures { IsTurn (plain_of parts.now) result }
{
    if !parts.is_up() {
        return Ok(None);
    }
    let Some(queue) = first_due(parts) else {
        return Ok(None);
    };
    match turn_of(parts, queue) {
        Ok(serving) => Ok(Some(serving)),
        Err(NoMemory) => Err(NoMemory),
    }
}

fn serve<D: Disk>(parts: &mut Parts<D>, from: &QName)
    ensures { parts.new ≡ served_at from.now parts.old }
{
    parts.queues.serve(from);
}

/// The trigger is served, and its message, which waited, takes its place. It takes no memory.
fn place<D: Disk>(parts: &mut Parts<D>, from: &QName, to: &QName, message: Message)
    requires idents { parts.old.idents + 1 < 2 ^ 64 }
    requires ready { IsReady to.now message (served_at from.now (numbered parts.old)) }
    ensures { parts.new ≡ arrived_at to.now message (served_at from.now (numbered parts.old)) }
{
    parts.idents += 1;
    serve(parts, from);
    parts.queues.place(to, message);
}

fn drop_trigger<D: Disk>(core: &mut Core<D>, from: &QName)
    requires due { IsDue from.now core.old.plain }
    ensures { core.new ≡ record core.old { plain = apply (Serve from.now) core.old.plain; delta = []; stopped = None } }
{
    core.begin_call();
    serve(&mut core.parts, from);
}

/// The message of a trigger is put.
fn send<D: Disk>(
    core: &mut Core<D>,
    from: &QName,
    to: &QName,
    message: Message,
) -> Result<bool, NoMemory>
    requires low { CanCount core.old.plain }
    requires due { IsDue from.now core.old.plain }
    requires can { CanSend to.now message core.old.plain }
    ensures meets { Meets (manager_of core.old) (Do true (sent_part from.now to.now message ∷ [])) (halted result) (manager_of core.new) }
    ensures told { WritesLog core.old (Do true (sent_part from.now to.now message ∷ [])) (halted result) core.new }
{
    core.begin_call();
    let ident = message.ident;
    match make_put_room(&mut core.parts, &mut core.effects, to, 0) {
        Ok(()) => {}
        Err(NoMemory) => return Err(NoMemory),
    }
    core.effects.tell(Did::Placed {
        queue: *to,
        ident,
        dead: None,
    });
    place(&mut core.parts, from, to, message);
    Ok(true)
}

/// The trigger of a queue is served.
fn serve_turn<D: Disk>(core: &mut Core<D>, serving: Serving) -> Result<bool, NoMemory>
    requires low { CanCount core.old.plain }
    requires turn { IsServed core.old.plain serving }
    ensures meets { Meets (manager_of core.old) (trigger_turn core.old.plain) (halted result) (manager_of core.new) }
    ensures told { WritesLog core.old (trigger_turn core.old.plain) (halted result) core.new }
{
    let Serving { from, sending } = serving;
    match sending {
        None => {
            drop_trigger(core, &from);
            Ok(true)
        }
        Some(sending) => {
            let Sending { to, message } = sending;
            send(core, &from, &to, message)
        }
    }
}

/// The queue whose trigger is served next: the first, in order of definition, with one due; none at a manager that is down. It
/// takes no memory.
#[tactic(auto, using(crate::proofs::TurnLaws::due_down, crate::proofs::TurnLaws::due_none, crate::proofs::TurnLaws::due_some))]
pub fn next_due<D: Disk>(core: &Core<D>) -> Option<QName>
    ensures { result ≡ next_due core.now.plain }
{
    if !core.is_up() {
        return None;
    }
    match first_due(&core.parts) {
        None => None,
        Some(queue) => Some(queue.name),
    }
}

/// Serves the first queue, in order of definition, with a trigger due: its trigger message is put on the initiation queue, or
/// dropped where the process or that queue is gone or refuses it. False exactly where none is due.
///
/// # Errors
///
/// No memory; the trigger stays due.
#[tactic(auto, using(crate::proofs::TurnLaws::turn_wants, crate::proofs::TurnLaws::turn_writes))]
pub fn trigger_turn<D: Disk>(core: &mut Core<D>) -> Result<bool, NoMemory>
    requires low { CanCount core.old.plain }
    ensures meets { Meets (manager_of core.old) (trigger_turn core.old.plain) (halted result) (manager_of core.new) }
    ensures told { WritesLog core.old (trigger_turn core.old.plain) (halted result) core.new }
{
    match next_turn(&core.parts) {
        Err(NoMemory) => {
            core.begin_call();
            Err(NoMemory)
        }
        Ok(None) => {
            core.begin_call();
            Ok(false)
        }
        Ok(Some(serving)) => serve_turn(core, serving),
    }
}
