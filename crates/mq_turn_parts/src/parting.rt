//! Calls of a manager as parts of a turn: what each came to.
ghost use Rattle.std.specs.Prelude.{◌≡◌, []};
ghost use Rattle.mq_calls.specs.declared.choices.Choice.TheVariants as choices;
ghost use Rattle.mq_calls.specs.Words.{is_up};
ghost use Rattle.mq_spec_node.specs.Words.{parts_of};
ghost use Rattle.mq_spec_manager.specs.Agents.{CanHarden, HasBatch, HasSeized, IsUp, expire, harden, release_batch};
ghost use Rattle.mq_sync.specs.Settlement.{is_commit};
ghost use Rattle.mq_turn_parts.specs.Turns.{IsBehind, MadeOr, has_run as has_run_by, left_parts};

use mq_base::{ChName, Items, NoMemory};
use mq_calls::{AgentStop, Choice, Note};
use mq_disk::{Disk, Stop};
use mq_events::below::Manager;
use mq_events::{NodeParts, Told};
use mq_sync::Settle;
use std::alloc::Global;

/// Whether the manager of a node is up.
pub fn is_up<D: Disk>(parts: &NodeParts<D>) -> bool
    ensures { result ≡ is_up parts.now.manager.plain.running }
{
    parts.manager.is_up()
}

/// What a manager tells of a call that ran.
pub fn ran<D: Disk>(manager: &mut Manager<D>) -> Told
    ensures choice { result.choice ≡ choices.Runs }
    ensures delta { result.delta ≡ manager.old.delta }
    ensures left { manager.new ≡ record manager.old { delta = [] } }
{
    Told {
        choice: Choice::Runs,
        delta: manager.take_delta(),
    }
}

/// What it tells of a call of one part whose write was stopped.
pub fn stopped<D: Disk>(manager: &mut Manager<D>, by: Stop) -> Told
    ensures choice { result.choice ≡ choices.Stopped by 0 manager.old.plain.log.armed }
    ensures delta { result.delta ≡ manager.old.delta }
    ensures left { manager.new ≡ record manager.old { delta = [] } }
{
    let left = manager.armed();
    Told {
        choice: Choice::Stopped { by, part: 0, left },
        delta: manager.take_delta(),
    }
}

/// Nothing is done at the manager.
pub fn nothing_done(alloc: Global) -> Told
    ensures choice { result.choice ≡ choices.Runs }
    ensures delta { result.delta ≡ [] }
{
    Told {
        choice: Choice::Runs,
        delta: Items::new(alloc),
    }
}

/// A record of a channel's end is hardened.
///
/// # Errors
///
/// No memory; nothing has changed.
pub fn hardened<D: Disk>(
    manager: &mut Manager<D>,
    channel: &ChName,
    note: &Note,
) -> Result<Told, NoMemory>
    requires up { IsUp manager.old.plain }
    requires can { CanHarden channel.now note.now manager.old.plain }
    ensures { MadeOr (parts_of (harden channel.now note.now manager.old.plain)) result manager.old manager.new }
{
    match manager.harden(channel, note) {
        Ok(()) => Ok(ran(manager)),
        Err(AgentStop::NoMemory) => Err(NoMemory),
        Err(AgentStop::Disk) => Ok(stopped(manager, Stop::Disk)),
        Err(AgentStop::Cut) => Ok(stopped(manager, Stop::Cut)),
    }
}

/// The expired rows of a sender's queue go.
///
/// # Errors
///
/// No memory; nothing has changed.
pub fn expired<D: Disk>(manager: &mut Manager<D>, channel: &ChName) -> Result<Told, NoMemory>
    requires up { IsUp manager.old.plain }
    requires seized { HasSeized channel.now manager.old.plain }
    ensures { MadeOr (parts_of (expire channel.now manager.old.plain)) result manager.old manager.new }
{
    match manager.expire(channel) {
        Ok(()) => Ok(ran(manager)),
        Err(AgentStop::NoMemory) => Err(NoMemory),
        Err(AgentStop::Disk) => Ok(stopped(manager, Stop::Disk)),
        Err(AgentStop::Cut) => Ok(stopped(manager, Stop::Cut)),
    }
}

/// A batch that is not prepared is released. It takes no memory.
///
/// # Errors
///
/// None; the answer is as those of the other calls of a turn.
pub fn released<D: Disk>(manager: &mut Manager<D>, channel: &ChName) -> Result<Told, NoMemory>
    requires up { IsUp manager.old.plain }
    requires batch { HasBatch channel.now manager.old.plain }
    ensures { MadeOr (parts_of (release_batch channel.now manager.old.plain)) result manager.old manager.new }
{
    manager.release_batch(channel);
    Ok(ran(manager))
}

/// Whether all was done.
pub fn has_run(told: &Told) -> bool
    ensures { result ≡ has_run_by told.now.choice }
{
    match told.choice {
        Choice::Runs => true,
        Choice::NoMemory => false,
        Choice::Stopped { .. } => false,
    }
}

/// Whether the batch is committed.
pub fn is_commit(settle: Settle) -> bool
    ensures { result ≡ is_commit settle }
{
    match settle {
        Settle::Commit => true,
        Settle::Backout => false,
    }
}

/// A sender that has stopped leaves its transmission queue, where all before was done. It takes no memory.
#[tactic(auto, using(crate::proofs::PartLaws::ran_is, crate::proofs::PartLaws::left_done, crate::proofs::PartLaws::left_undone, crate::proofs::PartLaws::left_running))]
pub fn leave_if<D: Disk>(manager: &mut Manager<D>, channel: &ChName, told: &Told, running: bool)
    requires up { told.now.choice ≡ choices.Runs → IsUp manager.old.plain }
    ensures { IsBehind (left_parts channel.now told.now.choice running manager.old.plain) manager.old manager.new }
{
    if has_run(told) && !running {
        manager.leave(channel);
    }
}

/// So at a node.
pub fn leave_in<D: Disk>(parts: &mut NodeParts<D>, channel: &ChName, told: &Told, running: bool)
    requires up { told.now.choice ≡ choices.Runs → IsUp parts.old.manager.plain }
    ensures same { parts.new ≡ record parts.old { manager = parts.new.manager } }
    ensures behind { IsBehind (left_parts channel.now told.now.choice running parts.old.manager.plain) parts.old.manager parts.new.manager }
{
    leave_if(&mut parts.manager, channel, told, running);
}
