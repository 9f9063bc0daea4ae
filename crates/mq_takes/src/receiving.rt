//! A unit's commit at its manager.
ghost use Rattle.std.specs.Prelude.{◌≡◌, true};
ghost use Rattle.mq_takes.specs.Words as words;
ghost use Rattle.mq_spec_node.specs.Terms.{Reason as PlainReason};

use crate::closing::close;
use crate::lines::is_defined_at;
use mq_base::{ChName, NoMemory};
use mq_calls::{AgentStop, PlaceFault};
use mq_codes::Reason;
use mq_core::Parts;
use mq_disk::{Disk, Stop};
use mq_message::Message;
use mq_own::ReceiverEnd;
use mq_sides::receiver_data;
use mq_sync::Unit as Luw;
use mq_turn_parts::below::{Manager, NodeParts, Told};
use mq_turn_parts::{ran, stopped};

/// What a unit's commit came to.
#[derive(Drop)]
pub(crate) enum BatchTold {
    /// Done, or its write was stopped.
    Told(Told),
    /// Refused, for this reason; nothing has changed.
    Refused(Reason),
}

/// What a unit's turn came to at its manager.
#[derive(Drop)]
pub(crate) enum CommitTold {
    /// The messages were placed, or the write was stopped.
    Placed(Told),
    /// They were refused, for this reason, and the session closed, or that write was stopped.
    Refused(Reason, Told),
}

/// The unit comes after another.
fn is_above(unit: &Luw, other: &Luw) -> bool
    ensures { result ≡ true → words.Below other.now unit.now }
{
    other.session < unit.session || (other.session == unit.session && other.n < unit.n)
}

/// The unit is numbered, of the session that is hardened, which is open, and above the last one.
fn is_next<D: Disk>(parts: &Parts<D>, channel: &ChName, unit: &Luw) -> bool
    ensures { result ≡ true → words.IsReceiverHere channel.now (words.plain_of parts.now) → words.CanReceive channel.now unit.now (words.plain_of parts.now) }
{
    let hardened = receiver_data(&parts.ends.receivers, channel);
    unit.session > 0
        && unit.n > 0
        && unit.session == hardened.session
        && !hardened.closed
        && is_above(unit, &hardened.unit)
}

/// The unit may be committed.
fn may_receive<D: Disk>(manager: &Manager<D>, channel: &ChName, unit: &Luw) -> bool
    ensures { result ≡ true → words.CanReceive channel.now unit.now manager.now.plain }
{
    is_defined_at(manager, channel) && is_next(&manager.core.parts, channel, unit)
}

/// A unit's commit. The messages land, or the batch is refused.
///
/// # Errors
///
/// No memory; nothing has changed.
fn received<D: Disk>(
    manager: &mut Manager<D>,
    channel: &ChName,
    unit: &Luw,
    last: u32,
    batch: &[Message],
) -> Result<BatchTold, NoMemory>
    requires up { words.IsUp manager.old.plain }
    requires low { words.MayCount manager.old.plain }
    requires can { words.CanReceive channel.now unit.now manager.old.plain }
    ensures { words.ReceivedAs (words.receive channel.now unit.now last batch.now manager.old.plain) result manager.old manager.new }
{
    match manager.receive(channel, unit, last, batch) {
        Ok(()) => Ok(BatchTold::Told(ran(manager))),
        Err(PlaceFault::Refused(reason)) => Ok(BatchTold::Refused(reason)),
        Err(PlaceFault::Stop(AgentStop::NoMemory)) => Err(NoMemory),
        Err(PlaceFault::Stop(AgentStop::Disk)) => Ok(BatchTold::Told(stopped(manager, Stop::Disk))),
        Err(PlaceFault::Stop(AgentStop::Cut)) => Ok(BatchTold::Told(stopped(manager, Stop::Cut))),
    }
}

/// So, where it may be; where it may not, which never comes, there is no memory.
#[tactic(auto, using(mq_turn_parts::proofs::AgentLaws::as_was))]
fn received_if<D: Disk>(
    manager: &mut Manager<D>,
    channel: &ChName,
    unit: &Luw,
    last: u32,
    batch: &[Message],
) -> Result<BatchTold, NoMemory>
    requires up { words.IsUp manager.old.plain }
    requires low { words.MayCount manager.old.plain }
    ensures { words.ReceivedAs (words.receive channel.now unit.now last batch.now manager.old.plain) result manager.old manager.new }
{
    if !may_receive(manager, channel, unit) {
        return Err(NoMemory);
    }
    received(manager, channel, unit, last, batch)
}

/// So of what an end keeps.
fn received_by<D: Disk>(
    manager: &mut Manager<D>,
    end: &ReceiverEnd,
    unit: &Luw,
    last: u32,
) -> Result<BatchTold, NoMemory>
    requires up { words.IsUp manager.old.plain }
    requires low { words.MayCount manager.old.plain }
    ensures { words.ReceivedAs (words.receive end.now.channel unit.now last end.now.kept manager.old.plain) result manager.old manager.new }
{
    received_if(manager, &end.channel, unit, last, end.kept.as_slice())
}

/// A batch was refused, for this reason: its session is closed.
fn close_for<D: Disk>(
    manager: &mut Manager<D>,
    end: &ReceiverEnd,
    reason: Reason,
) -> Result<CommitTold, NoMemory>
    requires up { words.IsUp manager.old.plain }
    ensures { (old : words.CoreValue) (step : words.Step PlainReason (Unit {0})) → step ≡ words.Refuse reason → words.IsAsWas old manager.old → words.CommitAs end.now step result old manager.new }
{
    match close(manager, end) {
        Err(NoMemory) => Err(NoMemory),
        Ok(told) => Ok(CommitTold::Refused(reason, told)),
    }
}

/// A unit's commit; its session is closed where it is refused.
fn commit<D: Disk>(
    manager: &mut Manager<D>,
    end: &ReceiverEnd,
    unit: &Luw,
    last: u32,
) -> Result<CommitTold, NoMemory>
    requires up { words.IsUp manager.old.plain }
    requires low { words.MayCount manager.old.plain }
    ensures { words.CommitAs end.now (words.receive end.now.channel unit.now last end.now.kept manager.old.plain) result manager.old manager.new }
{
    match received_by(manager, end, unit, last) {
        Err(NoMemory) => Err(NoMemory),
        Ok(BatchTold::Told(told)) => Ok(CommitTold::Placed(told)),
        Ok(BatchTold::Refused(reason)) => close_for(manager, end, reason),
    }
}

/// So at a node.
pub(crate) fn commit_in<D: Disk>(
    parts: &mut NodeParts<D>,
    end: &ReceiverEnd,
    unit: &Luw,
    last: u32,
) -> Result<CommitTold, NoMemory>
    requires up { words.IsUp parts.old.manager.plain }
    requires low { words.IsLow parts.old }
    ensures same { parts.new ≡ record parts.old { manager = parts.new.manager } }
    ensures told { words.CommitAs end.now (words.receive end.now.channel unit.now last end.now.kept parts.old.manager.plain) result parts.old.manager parts.new.manager }
{
    commit(&mut parts.manager, end, unit, last)
}
