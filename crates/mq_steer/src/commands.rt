//! Commands on objects.
ghost use Rattle.std.specs.Prelude.{◌≡◌, ◌+◌, ◌<◌, ◌≤◌, ◌^◌, [], length, true, Ok, OnOk, OnErr, IfOk};
ghost use Rattle.mq_objects.specs.Names.{local_of, name_of};
ghost use Rattle.mq_objects.specs.declared.object.Object.TheVariants as objects;
ghost use Rattle.mq_objects.specs.declared.change.ObjectChange.TheVariants as changes;
ghost use Rattle.mq_resolve.specs.declared.route.PathStep.TheVariants as steps;
ghost use Rattle.mq_calls.specs.declared.records.LogRecord.TheVariants as records;
ghost use Rattle.mq_core.specs.from_record.Records.{operation_of};
ghost use Rattle.mq_law_manager.specs.Facts.{AreOnce};
ghost use Rattle.mq_calls.specs.Words.{MeetsOrWants, is_up, change_text};
ghost use Rattle.mq_spec_manager.specs.Commands.{command};
ghost use Rattle.mq_core.specs.declared.parts.StoppedWrite.TheVariants as writes;
ghost use Rattle.mq_core.specs.Ties.{Tied};
ghost use Rattle.mq_core.specs.Views.{plain_of};
ghost use Rattle.mq_core.specs.Forced.{IsForced, downed};
ghost use Rattle.mq_core.specs.Placing.{with_states};
ghost use Rattle.mq_steer.specs.Altered.{CanChange, CanSet, Plans, change_step, halt_of, IsRoomy, HasRooms, MayLane, renewed_states, switched_states, stale_desk, states_after, desk_after, altered};
ghost use Rattle.mq_core.specs.Values.{manager_of, WritesLog};

use crate::uses::ObjectUse;
use mq_base::{Items, NoMemory, QName};
use mq_calls::{Halt, ScRefusal, Shown};
use mq_core::below::{Operation, objects_front};
use mq_core::{Core, Mode, Parts, StoppedWrite};
use mq_disk::{Disk, Stop};
use mq_objects::{
    Command, LocalQueue, Object, ObjectChange, Subject, define_text, delete_text, is_by_priority,
    manager_text,
};
use mq_resolve::PathStep;
use mq_sc_apply::{Plan, Planned, plan, same_delivery};
use std::alloc::Global;

/// The text of a record is shorter.
const TEXT_BOUND: usize = 4_294_967_290;

/// The text of a change of objects, as the log keeps it.
fn change_text(alloc: Global, change: &ObjectChange) -> Result<Items<u8>, NoMemory>
    ensures { IfOk result (λ text. text ≡ change_text change.now) }
{
    let text = match change {
        ObjectChange::Set(object) => define_text(alloc, object),
        ObjectChange::SetManager(attributes) => manager_text(alloc, attributes),
        ObjectChange::Delete(subject) => delete_text(alloc, subject),
    };
    match text {
        Ok(text) => Ok(text),
        Err(_) => Err(NoMemory),
    }
}

fn operation_of(change: &ObjectChange) -> Operation
    ensures { result ≡ operation_of change.now }
{
    match change {
        ObjectChange::Set(_) => Operation::Set,
        ObjectChange::SetManager(_) => Operation::Set,
        ObjectChange::Delete(_) => Operation::Delete,
    }
}

/// Takes the memory of an object, of a queue, and of the record of a text.
fn make_room<D: Disk>(parts: &mut Parts<D>, text: &[u8]) -> Result<(), NoMemory>
    ensures ok { OnOk result (IsRoomy (length text.now) parts.old parts.new) }
    ensures err { OnErr result (HasRooms parts.old parts.new) }
{
    if text.len() >= TEXT_BOUND {
        return Err(NoMemory);
    }
    if parts.log.room(11 + text.len() as u64).is_err() {
        return Err(NoMemory);
    }
    if parts.defs.reserve().is_err() {
        return Err(NoMemory);
    }
    if parts.queues.reserve_queue().is_err() {
        return Err(NoMemory);
    }
    Ok(())
}

/// Forces the record of a change. It takes no memory.
fn force_change<D: Disk>(
    parts: &mut Parts<D>,
    change: &ObjectChange,
    text: &[u8],
) -> Result<(), Stop>
    requires live { parts.old.log.live ≡ true }
    requires text { text.now ≡ change_text change.now }
    requires small { 6 + length text.now < 2 ^ 32 }
    requires room { 11 + length text.now ≤ parts.old.log.room }
    ensures { IsForced (records.Objects change.now) parts.old result parts.new }
{
    let front = objects_front(operation_of(change), text.len() as u32);
    parts.log.append_parts(&front, text, &[])
}

/// The write of a change was stopped. It takes no memory.
fn go_down<D: Disk>(parts: &mut Parts<D>, planned: Planned)
    ensures { parts.new ≡ downed (writes.Objects planned) parts.old }
{
    parts.queues.drop_volatile();
    parts.mode = Mode::Down {
        write: Some(StoppedWrite::Objects { planned }),
        starts: 0,
        read: None,
    };
}

/// A local queue that is new begins without rows; one that is there may have other lanes.
#[tactic(auto, using(crate::proofs::AlterLaws::undefined_none, crate::proofs::AlterLaws::lanes_same))]
fn renew<D: Disk>(parts: &mut Parts<D>, queue: &LocalQueue)
    requires tied { Tied parts.old }
    requires room { 0 < parts.old.queues.room }
    requires lanes { MayLane queue.now parts.old }
    ensures same { parts.new ≡ record parts.old { queues = parts.new.queues } }
    ensures states { parts.new.queues.states ≡ renewed_states (local_of queue.now.name parts.old.defs.definitions) queue.now parts.old.queues.states }
{
    match parts.defs.local(&queue.name) {
        None => {
            parts
                .queues
                .define(&queue.name, is_by_priority(queue.delivery));
        }
        Some(old) => {
            if same_delivery(old.delivery, queue.delivery) {
                return;
            }
            parts
                .queues
                .set_by_priority(&queue.name, is_by_priority(queue.delivery));
        }
    }
}

fn make_stale<D: Disk>(parts: &mut Parts<D>, reroutes: bool, step: &PathStep)
    ensures { parts.new ≡ record parts.old { desk = stale_desk reroutes step.now parts.old.desk } }
{
    if reroutes {
        parts.live.make_stale(step);
    }
}

fn switch_on<D: Disk>(parts: &mut Parts<D>, on: bool, queue: &QName)
    ensures { parts.new ≡ with_states (switched_states on queue.now parts.old.queues.states) parts.old }
{
    if on {
        parts.queues.switch_on(queue);
    }
}

/// The queue and the handles behind a local queue that is set.
fn follow_local<D: Disk>(parts: &mut Parts<D>, queue: &LocalQueue, reroutes: bool, on: bool)
    requires tied { Tied parts.old }
    requires room { 0 < parts.old.queues.room }
    requires can { CanSet (objects.Local queue.now) reroutes on (plain_of parts.old) }
    ensures same { parts.new ≡ record parts.old { queues = parts.new.queues; desk = stale_desk reroutes (steps.Queue queue.now.name) parts.old.desk } }
    ensures states { parts.new.queues.states ≡ switched_states on queue.now.name (renewed_states (local_of queue.now.name parts.old.defs.definitions) queue.now parts.old.queues.states) }
{
    renew(parts, queue);
    make_stale(parts, reroutes, &PathStep::Queue(queue.name));
    switch_on(parts, on, &queue.name);
}

/// The queues and handles behind an object that is set.
fn follow_set<D: Disk>(parts: &mut Parts<D>, new: &Object, reroutes: bool, on: bool)
    requires tied { Tied parts.old }
    requires room { 0 < parts.old.queues.room }
    requires can { CanSet new.now reroutes on (plain_of parts.old) }
    ensures same { parts.new ≡ record parts.old { queues = parts.new.queues; desk = stale_desk reroutes (steps.Queue (name_of new.now)) parts.old.desk } }
    ensures states { parts.new.queues.states ≡ states_after (changes.Set new.now) on parts.old.defs.definitions parts.old.queues.states }
{
    match new {
        Object::Local(queue) => follow_local(parts, queue, reroutes, on),
        Object::Alias(queue) => make_stale(parts, reroutes, &PathStep::Queue(queue.name)),
        Object::Remote(queue) => make_stale(parts, reroutes, &PathStep::Queue(queue.name)),
        Object::Channel(_) => {}
        Object::Process(_) => {}
    }
}

/// The queues and handles behind a change of objects.
fn follow<D: Disk>(parts: &mut Parts<D>, change: &ObjectChange, reroutes: bool, on: bool)
    requires tied { Tied parts.old }
    requires room { 0 < parts.old.queues.room }
    requires can { CanChange change.now reroutes on (plain_of parts.old) }
    ensures same { parts.new ≡ record parts.old { queues = parts.new.queues; desk = desk_after change.now reroutes parts.old.desk } }
    ensures states { parts.new.queues.states ≡ states_after change.now on parts.old.defs.definitions parts.old.queues.states }
{
    match change {
        ObjectChange::Set(new) => follow_set(parts, new, reroutes, on),
        ObjectChange::SetManager(_) => make_stale(parts, reroutes, &PathStep::DefXmitq),
        ObjectChange::Delete(subject) => match subject {
            Subject::Local(name) => parts.queues.delete(name),
            Subject::Alias(_) => {}
            Subject::Remote(_) => {}
            Subject::Channel(_) => {}
            Subject::Process(_) => {}
        },
    }
}

/// A change of objects is done. It takes no memory.
fn alter<D: Disk>(parts: &mut Parts<D>, planned: Planned)
    requires tied { Tied parts.old }
    requires defs { 0 < parts.old.defs.room }
    requires queues { 0 < parts.old.queues.room }
    requires can { CanChange planned.change planned.reroutes planned.switches_on (plain_of parts.old) }
    ensures { parts.new ≡ altered planned parts.new.defs.room parts.new.queues.room parts.old }
{
    let Planned {
        change,
        reroutes,
        switches_on,
    } = planned;
    follow(parts, &change, reroutes, switches_on);
    parts.defs.change(change);
}

/// A change whose record has this text.
fn write_change<D: Disk>(
    core: &mut Core<D>,
    planned: Planned,
    text: &[u8],
) -> Result<Shown, Halt<ScRefusal>>
    requires up { is_up core.old.plain.running ≡ true }
    requires once { AreOnce core.old.plain.definitions.objects }
    requires can { CanChange planned.change planned.reroutes planned.switches_on core.old.plain }
    requires text { text.now ≡ change_text planned.change }
    ensures meets { MeetsOrWants (manager_of core.old) (change_step planned core.old.plain.definitions) result (manager_of core.new) }
    ensures told { WritesLog core.old (change_step planned core.old.plain.definitions) result core.new }
{
    core.begin_call();
    match make_room(&mut core.parts, text) {
        Ok(()) => {}
        Err(NoMemory) => return Err(Halt::NoMemory),
    }
    match force_change(&mut core.parts, &planned.change, text) {
        Ok(()) => {}
        Err(stop) => {
            go_down(&mut core.parts, planned);
            core.stopped = Some(stop);
            return Err(Halt::Stopped(stop));
        }
    }
    alter(&mut core.parts, planned);
    Ok(Shown {
        lines: Items::new(core.parts.alloc),
    })
}

/// A change that a command makes.
fn change<D: Disk>(core: &mut Core<D>, planned: Planned) -> Result<Shown, Halt<ScRefusal>>
    requires up { is_up core.old.plain.running ≡ true }
    requires once { AreOnce core.old.plain.definitions.objects }
    requires can { CanChange planned.change planned.reroutes planned.switches_on core.old.plain }
    ensures meets { MeetsOrWants (manager_of core.old) (change_step planned core.old.plain.definitions) result (manager_of core.new) }
    ensures told { WritesLog core.old (change_step planned core.old.plain.definitions) result core.new }
{
    match change_text(core.parts.alloc, &planned.change) {
        Ok(text) => write_change(core, planned, text.as_slice()),
        Err(NoMemory) => {
            core.begin_call();
            Err(Halt::NoMemory)
        }
    }
}

/// Want of memory is no refusal.
fn halt_of(refusal: ScRefusal) -> Halt<ScRefusal>
    ensures { result ≡ halt_of refusal }
{
    match refusal {
        ScRefusal::NoMemory => Halt::NoMemory,
        ScRefusal::Down => Halt::Refused(refusal),
        ScRefusal::Exists => Halt::Refused(refusal),
        ScRefusal::Missing => Halt::Refused(refusal),
        ScRefusal::BadValue(_) => Halt::Refused(refusal),
        ScRefusal::InUse => Halt::Refused(refusal),
        ScRefusal::NotEmpty => Halt::Refused(refusal),
        ScRefusal::Disk => Halt::Refused(refusal),
        ScRefusal::Cut => Halt::Refused(refusal),
    }
}

/// What a command does at a manager that is up.
#[tactic(auto, using(crate::proofs::PlanLaws::plans_ok, crate::proofs::PlanLaws::plans_err))]
fn plan_of<D: Disk>(core: &Core<D>, asked: &Command) -> Result<Plan, Halt<ScRefusal>>
    requires up { is_up core.now.plain.running ≡ true }
    ensures { Plans asked.now core.now.plain result }
{
    let uses = ObjectUse { core };
    match plan(
        core.parts.alloc,
        &core.parts.defs,
        &core.parts.name,
        asked,
        &uses,
    ) {
        Ok(plan) => Ok(plan),
        Err(refusal) => Err(halt_of(refusal)),
    }
}

/// Does one MQSC command on objects. The lines are none but for DISPLAY.
///
/// # Errors
///
/// The first that applies of `Down`, `Exists`, `Missing`, `BadValue` with the first such keyword, `InUse`, `NotEmpty`
/// (IBM MQ: MQSC reference); no memory; a forced write that was stopped, which takes the manager down.
#[tactic(auto, using(crate::proofs::PlanLaws::meets_halt, crate::proofs::PlanLaws::meets_show, crate::proofs::PlanLaws::meets_down, crate::proofs::PlanLaws::told_halt, crate::proofs::PlanLaws::told_show, crate::proofs::PlanLaws::told_down))]
pub fn command<D: Disk>(core: &mut Core<D>, asked: &Command) -> Result<Shown, Halt<ScRefusal>>
    requires once { AreOnce core.old.plain.definitions.objects }
    ensures meets { MeetsOrWants (manager_of core.old) (command asked.now core.old.plain) result (manager_of core.new) }
    ensures told { WritesLog core.old (command asked.now core.old.plain) result core.new }
{
    if !core.is_up() {
        core.begin_call();
        return Err(Halt::Refused(ScRefusal::Down));
    }
    match plan_of(core, asked) {
        Err(halt) => {
            core.begin_call();
            Err(halt)
        }
        Ok(Plan::Show(shown)) => {
            core.begin_call();
            Ok(shown)
        }
        Ok(Plan::Change(planned)) => change(core, planned),
    }
}
