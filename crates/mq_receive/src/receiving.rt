//! A receiver's commit of a batch.
ghost use Rattle.std.specs.List.{AllByRecursion};
ghost use Rattle.std.specs.Prelude.{◌≡◌, ◌<◌, ◌^◌, ◌∷◌, [], ℕ, List, Ok, true};
ghost use Rattle.mq_sync.specs.declared.unit.Unit.{Unit as Luw};
ghost use Rattle.mq_calls.specs.Words.{MeetsOrWants, need};
ghost use Rattle.mq_core.specs.Counting.{CanCount};
ghost use Rattle.mq_spec_manager.specs.Agents.{IsUp, receive, receive_landed};
ghost use Rattle.mq_law_manager.specs.Facts.{Sound, AreNamed};
ghost use Rattle.mq_moves.specs.from_agents.Ends.{by_place};
ghost use Rattle.mq_core.specs.Ties.{Tied};
ghost use Rattle.mq_core.specs.Values.{manager_of, WritesLog};
ghost use Rattle.mq_core.specs.Views.{plain_of};
ghost use Rattle.mq_core.specs.Writes.{all_landed};
ghost use Rattle.mq_receive.specs.Filling.{CanStand, adds_size};
ghost use Rattle.mq_receive.specs.Standings.{AreFitting};
ghost use Rattle.mq_receive.specs.Committed.{batch_record, batch_step, IsNeed, IsNeeded};

use crate::committing::{aside, commit};
use crate::filling::lasts;
use crate::planning::plan;
use mq_base::{ChName, Items, NoMemory};
use mq_calls::{AgentStop, PlaceFault};
use mq_codes::Reason;
use mq_core::below::can_be_kept;
use mq_core::{Arrival, Core, Parts, put_bytes};
use mq_disk::Disk;
use mq_message::Message;
use mq_moves::below::{agent_of, stop_of};
use mq_sync::Unit;

/// A message can stand in a record, where it lasts.
fn can_stand(arrival: &Arrival) -> bool
    ensures { result ≡ true → CanStand arrival.now }
{
    if arrival.message.md.persistence != 1 {
        return true;
    }
    can_be_kept(&arrival.message)
}

/// All messages of a batch that last can stand in a record.
fn can_all_stand(landed: &[Arrival]) -> bool
    ensures { result ≡ true → AllByRecursion CanStand landed.now }
{
    for arrival in landed {
        if !can_stand(arrival) {
            return false;
        }
    }
    true
}

/// What a message takes in the record of its batch, in bytes.
fn add_need(arrival: &Arrival) -> u64
    requires { CanStand arrival.now }
    ensures { result ≡ adds_size (arrival.now ∷ []) }
{
    if lasts(&arrival.message) {
        return put_bytes(&arrival.message);
    }
    0
}

/// What the record of a batch takes of the log, in bytes; none where no number tells it.
fn batch_need(landed: &[Arrival]) -> Option<u64>
    requires { AllByRecursion CanStand landed.now }
    ensures { IsNeed landed.now result }
{
    let mut sum: u64 = 50;
    for arrival in landed {
        let Some(more) = sum.checked_add(add_need(arrival)) else {
            return None;
        };
        sum = more;
    }
    Some(sum)
}

/// What the record of a batch takes of the log, in bytes; none where the log has no room for it.
fn need_in<D: Disk>(parts: &Parts<D>, landed: &[Arrival]) -> Option<u64>
    requires tied { Tied parts.now }
    requires up { IsUp (plain_of parts.now) }
    requires can { AllByRecursion CanStand landed.now }
    ensures { (channel : List ℕ) (unit : Luw) (last : ℕ) → IsNeeded (batch_record channel unit last landed.now) (plain_of parts.now) result }
{
    let Some(bytes) = batch_need(landed) else {
        return None;
    };
    if parts.is_full(bytes) {
        return None;
    }
    Some(bytes)
}

/// Messages that have landed are committed, for which the log has room.
fn commit_landed<D: Disk>(
    core: &mut Core<D>,
    channel: &ChName,
    unit: Unit,
    last: u32,
    landed: Items<Arrival>,
    bytes: u64,
) -> Result<(), PlaceFault>
    requires up { IsUp core.old.plain }
    requires low { CanCount core.old.plain }
    requires fits { AreFitting landed core.old.plain }
    requires can { AllByRecursion CanStand landed }
    requires need { bytes ≡ need (batch_record channel.now unit last landed) }
    requires small { bytes < 2 ^ 32 }
    ensures meets { MeetsOrWants (manager_of core.old) (batch_step channel.now unit last landed core.old.plain) (by_place result) (manager_of core.new) }
    ensures told { WritesLog core.old (batch_step channel.now unit last landed core.old.plain) (by_place result) core.new }
{
    core.begin_call();
    match aside(&mut core.parts, channel) {
        Ok(()) => {}
        Err(NoMemory) => return Err(PlaceFault::Stop(AgentStop::NoMemory)),
    }
    match commit(
        &mut core.parts,
        &mut core.effects,
        channel,
        unit,
        last,
        landed,
        bytes,
    ) {
        Ok(()) => {}
        Err(unwritten) => {
            let stopped = stop_of(unwritten);
            let agent = agent_of(unwritten);
            core.stopped = stopped;
            return Err(PlaceFault::Stop(agent));
        }
    }
    Ok(())
}

/// Messages that have landed are committed: refused where the log has no room.
fn receive_landed<D: Disk>(
    core: &mut Core<D>,
    channel: &ChName,
    unit: Unit,
    last: u32,
    landed: Items<Arrival>,
) -> Result<(), PlaceFault>
    requires up { IsUp core.old.plain }
    requires low { CanCount core.old.plain }
    requires fits { AreFitting landed core.old.plain }
    ensures meets { MeetsOrWants (manager_of core.old) (receive_landed channel.now unit last (Ok (all_landed landed)) core.old.plain) (by_place result) (manager_of core.new) }
    ensures told { WritesLog core.old (receive_landed channel.now unit last (Ok (all_landed landed)) core.old.plain) (by_place result) core.new }
{
    if !can_all_stand(landed.as_slice()) {
        core.begin_call();
        return Err(PlaceFault::Stop(AgentStop::NoMemory));
    }
    match need_in(&core.parts, landed.as_slice()) {
        None => {
            core.begin_call();
            Err(PlaceFault::Refused(Reason::ResourceProblem))
        }
        Some(bytes) => commit_landed(core, channel, unit, last, landed, bytes),
    }
}

/// A receiver commits the messages of a unit, with the last sequence number: each lands on its queue or, with its reason, on the
/// dead-letter queue; one whose ident stands here otherwise is left out. One forced record tells of those that last and of the unit
/// (IBM MQ: "Undelivered messages"; the record is this project's choice).
///
/// # Errors
///
/// Refused: by the first message that can neither be put nor be a dead letter, with its put's reason; 2102 where the log has no room.
/// Stop: the disk or the cut stopped the write, and the manager is down; no memory, and nothing has changed.
pub fn receive<D: Disk>(
    core: &mut Core<D>,
    channel: &ChName,
    unit: &Unit,
    last: u32,
    batch: &[Message],
) -> Result<(), PlaceFault>
    requires up { IsUp core.old.plain }
    requires low { CanCount core.old.plain }
    requires sound { Sound core.old.plain }
    requires named { AreNamed core.old.plain.queues }
    ensures meets { MeetsOrWants (manager_of core.old) (receive channel.now unit.now last batch.now core.old.plain) (by_place result) (manager_of core.new) }
    ensures told { WritesLog core.old (receive channel.now unit.now last batch.now core.old.plain) (by_place result) core.new }
{
    match plan(&core.parts, channel, batch) {
        Ok(landed) => receive_landed(core, channel, *unit, last, landed),
        Err(fault) => {
            core.begin_call();
            Err(fault)
        }
    }
}
