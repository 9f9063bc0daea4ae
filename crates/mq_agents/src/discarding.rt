//! A rule of the dead-letter handler removes a row.
ghost use Rattle.std.specs.Prelude.{◌≡◌, ◌+◌, ◌≤◌, ◌∷◌, [], true, false, Some, length, IfOk};
ghost use Rattle.mq_calls.specs.declared.deltas.Did.TheVariants as did;
ghost use Rattle.mq_calls.specs.declared.deltas.Why.TheVariants as whys;
ghost use Rattle.mq_core.specs.declared.parts.StoppedWrite.TheVariants as writes;
ghost use Rattle.mq_get.specs.from_unit.Told.{told};
ghost use Rattle.mq_calls.specs.declared.records.LogRecord.TheVariants as records;
ghost use Rattle.mq_calls.specs.Words.{MeetsOrWants, stored};
ghost use Rattle.mq_spec_manager.specs.Agents.{IsUp, HasFreeRow, row_with, discard};
ghost use Rattle.mq_core.specs.Views.{plain_of};
ghost use Rattle.mq_core.specs.Forced.{IsForced};
ghost use Rattle.mq_agents.specs.Ends.{by_agent};
ghost use Rattle.mq_agents.specs.Removing.{lasts, removed_one};
ghost use Rattle.mq_core.specs.Values.{manager_of, WritesLog};

use crate::hardening::{agent_stop, go_down};
use mq_base::{Items, NoMemory, QName};
use mq_calls::{AgentStop, Did, Remove, Why};
use mq_core::{Core, Parts, StoppedWrite};
use mq_disk::{Disk, Stop};
use mq_get::below::Effects;
use mq_get::make_record_room;
use mq_message::Ident;
use mq_record::unit_front;

/// Whether the row of an ident lasts.
fn lasts<D: Disk>(parts: &Parts<D>, queue: &QName, ident: &Ident) -> bool
    ensures { result ≡ lasts (row_with (Some ident.now) (stored queue.now (plain_of parts.now)).rows) }
{
    match parts.queues.message(queue, ident) {
        None => false,
        Some(message) => message.md.persistence == 1,
    }
}

/// Forces the record of one row that goes. It takes no memory.
fn force_remove<D: Disk>(parts: &mut Parts<D>, queue: &QName, ident: &Ident) -> Result<(), Stop>
    requires live { parts.old.log.live ≡ true }
    requires room { 79 ≤ parts.old.log.room }
    requires body { 79 ≤ parts.old.body.room + length parts.old.body.bytes }
    ensures { IsForced (records.Unit [] (record { queue = queue.now; ident = ident.now } ∷ [])) parts.old result parts.new }
{
    parts.body.clear();
    parts.body.put(&unit_front(0, 1));
    parts.body.put_remove(queue, ident);
    parts.force_body()
}

/// The row of an ident goes, and that is told. It takes no memory.
fn remove_row<D: Disk>(parts: &mut Parts<D>, effects: &mut Effects, queue: &QName, ident: &Ident)
    requires { 1 ≤ effects.old.room }
    ensures parts { parts.new ≡ removed_one queue.now ident.now parts.old }
    ensures told { effects.new ≡ told (did.Removed queue.now ident.now whys.Discarded) effects.old }
{
    effects.tell(Did::Removed {
        queue: *queue,
        ident: *ident,
        why: Why::Discarded,
    });
    let _message = parts.queues.remove(queue, ident);
}

/// What is noted where the write of one row that goes is stopped.
fn removal<D: Disk>(
    parts: &Parts<D>,
    queue: &QName,
    ident: &Ident,
) -> Result<StoppedWrite, NoMemory>
    ensures { IfOk result (λ w. w ≡ writes.Removal queue.now (record { queue = queue.now; ident = ident.now } ∷ []) (ident.now ∷ []) whys.Discarded) }
{
    let removes = match Items::from_slice(
        parts.alloc,
        &[Remove {
            queue: *queue,
            ident: *ident,
        }],
    ) {
        Ok(removes) => removes,
        Err(_) => return Err(NoMemory),
    };
    match Items::from_slice(parts.alloc, &[*ident]) {
        Ok(idents) => Ok(StoppedWrite::Removal {
            queue: *queue,
            removes,
            idents,
            why: Why::Discarded,
        }),
        Err(_) => Err(NoMemory),
    }
}

fn discard_free<D: Disk>(core: &mut Core<D>, queue: &QName, ident: &Ident) -> Result<(), AgentStop>
    requires up { IsUp core.old.plain }
    requires there { HasFreeRow queue.now ident.now core.old.plain }
    requires free { lasts (row_with (Some ident.now) (stored queue.now core.old.plain).rows) ≡ false }
    ensures meets { MeetsOrWants (manager_of core.old) (discard queue.now ident.now core.old.plain) (by_agent result) (manager_of core.new) }
    ensures told { WritesLog core.old (discard queue.now ident.now core.old.plain) (by_agent result) core.new }
{
    core.begin_call();
    match core.effects.reserve(1) {
        Ok(()) => {}
        Err(NoMemory) => return Err(AgentStop::NoMemory),
    }
    remove_row(&mut core.parts, &mut core.effects, queue, ident);
    Ok(())
}

fn discard_forced<D: Disk>(
    core: &mut Core<D>,
    queue: &QName,
    ident: &Ident,
) -> Result<(), AgentStop>
    requires up { IsUp core.old.plain }
    requires there { HasFreeRow queue.now ident.now core.old.plain }
    requires kept { lasts (row_with (Some ident.now) (stored queue.now core.old.plain).rows) ≡ true }
    ensures meets { MeetsOrWants (manager_of core.old) (discard queue.now ident.now core.old.plain) (by_agent result) (manager_of core.new) }
    ensures told { WritesLog core.old (discard queue.now ident.now core.old.plain) (by_agent result) core.new }
{
    core.begin_call();
    match core.effects.reserve(1) {
        Ok(()) => {}
        Err(NoMemory) => return Err(AgentStop::NoMemory),
    }
    let write = match removal(&core.parts, queue, ident) {
        Ok(write) => write,
        Err(NoMemory) => return Err(AgentStop::NoMemory),
    };
    match make_record_room(&mut core.parts, 79) {
        Ok(()) => {}
        Err(NoMemory) => {
            drop(write);
            return Err(AgentStop::NoMemory);
        }
    }
    match force_remove(&mut core.parts, queue, ident) {
        Ok(()) => {}
        Err(stop) => {
            go_down(&mut core.parts, write);
            core.stopped = Some(stop);
            return Err(agent_stop(stop));
        }
    }
    drop(write);
    remove_row(&mut core.parts, &mut core.effects, queue, ident);
    Ok(())
}

/// A rule of the handler removes a row, behind a forced record where it lasts. It is not refused for want of room in the log.
///
/// # Errors
///
/// The disk or the cut stopped the write, and the manager is down; no memory, and nothing has changed.
pub fn discard<D: Disk>(core: &mut Core<D>, from: &QName, ident: &Ident) -> Result<(), AgentStop>
    requires up { IsUp core.old.plain }
    requires there { HasFreeRow from.now ident.now core.old.plain }
    ensures meets { MeetsOrWants (manager_of core.old) (discard from.now ident.now core.old.plain) (by_agent result) (manager_of core.new) }
    ensures told { WritesLog core.old (discard from.now ident.now core.old.plain) (by_agent result) core.new }
{
    if lasts(&core.parts, from, ident) {
        discard_forced(core, from, ident)
    } else {
        discard_free(core, from, ident)
    }
}
