//! What a line of the sender's table does at the manager, but for batches.
ghost use Rattle.std.specs.Prelude.{◌≡◌};
ghost use Rattle.mq_spec_manager.specs.Agents.{IsUp};
ghost use Rattle.mq_spec_node.specs.Words.{doubted, settle_parts, settle_parts_if};
ghost use Rattle.mq_turn_parts.specs.Turns.{MadeOr};
ghost use Rattle.mq_turns.specs.Sends.{Works, all_parts, sender_parts};
ghost use Rattle.mq_sender.specs.declared.turns.SenderDoes.TheVariants as does_what;

use crate::asking::{has_seized, may_begin, may_settle};
use mq_base::NoMemory;
use mq_calls::Note;
use mq_disk::Disk;
use mq_own::SenderEnd;
use mq_sender::{Sender, SenderDoes};
use mq_sync::{Settle, Unit};
use mq_turn_parts::below::{Manager, NodeParts, Told};
use mq_turn_parts::{expired, hardened, is_commit, leave_if, nothing_done};
use std::alloc::Global;

/// The unit in doubt, as a machine knows it.
fn doubted(machine: &Sender) -> Unit
    ensures { result ≡ doubted machine.now.kept.doubt }
{
    match machine.kept.doubt {
        None => Unit::none(),
        Some(doubt) => doubt.unit,
    }
}

/// The unit in doubt is settled by its receiver's word.
fn settle<D: Disk>(
    manager: &mut Manager<D>,
    end: &SenderEnd,
    commit: bool,
) -> Result<Told, NoMemory>
    requires up { IsUp manager.old.plain }
    ensures { MadeOr (settle_parts end.now commit manager.old.plain) result manager.old manager.new }
{
    let unit = doubted(&end.machine);
    if !may_settle(manager, &end.channel, &unit) {
        return Err(NoMemory);
    }
    hardened(
        manager,
        &end.channel,
        &Note::Resolved {
            unit,
            commit,
            operator: false,
        },
    )
}

fn settle_if<D: Disk>(
    alloc: Global,
    manager: &mut Manager<D>,
    end: &SenderEnd,
    settled: Option<Settle>,
) -> Result<Told, NoMemory>
    requires up { IsUp manager.old.plain }
    ensures { MadeOr (settle_parts_if end.now settled manager.old.plain) result manager.old manager.new }
{
    match settled {
        None => Ok(nothing_done(alloc)),
        Some(settled) => settle(manager, end, is_commit(settled)),
    }
}

/// The next session is hardened.
fn begin_session<D: Disk>(
    manager: &mut Manager<D>,
    end: &SenderEnd,
    session: u64,
) -> Result<Told, NoMemory>
    requires up { IsUp manager.old.plain }
    ensures { MadeOr (sender_parts end.now (does_what.HardenSession session) manager.old.plain) result manager.old manager.new }
{
    if !may_begin(manager, &end.channel, session) {
        return Err(NoMemory);
    }
    hardened(
        manager,
        &end.channel,
        &Note::Session {
            partner: end.partner,
            session,
        },
    )
}

/// Expired rows go.
fn expire<D: Disk>(manager: &mut Manager<D>, end: &SenderEnd) -> Result<Told, NoMemory>
    requires up { IsUp manager.old.plain }
    ensures { MadeOr (sender_parts end.now does_what.Expire manager.old.plain) result manager.old manager.new }
{
    if !has_seized(manager, &end.channel) {
        return Err(NoMemory);
    }
    expired(manager, &end.channel)
}

/// What a line does at the manager.
fn act<D: Disk>(
    alloc: Global,
    manager: &mut Manager<D>,
    end: &SenderEnd,
    does: &SenderDoes,
) -> Result<Told, NoMemory>
    requires up { IsUp manager.old.plain }
    requires works { Works does.now }
    ensures { MadeOr (sender_parts end.now does.now manager.old.plain) result manager.old manager.new }
{
    match *does {
        SenderDoes::HardenSession(session) => begin_session(manager, end, session),
        SenderDoes::Expire => expire(manager, end),
        SenderDoes::Bound { settle, .. } => settle_if(alloc, manager, end, settle),
        SenderDoes::Commit => settle(manager, end, true),
        SenderDoes::Backout(_) => settle(manager, end, false),
        SenderDoes::Still
        | SenderDoes::Ignore
        | SenderDoes::PushBind
        | SenderDoes::Begin { .. }
        | SenderDoes::PushMsg(_)
        | SenderDoes::Prepare
        | SenderDoes::PushEnd => unreachable!(),
    }
}

/// What a line does at the manager; a sender that stops leaves its queue behind that.
///
/// # Errors
///
/// No memory; nothing has changed. So it is too where the manager has not what the end knows of it, which never comes.
#[tactic(auto, using(mq_turn_parts::proofs::TimeLaws::made_left, mq_turn_parts::proofs::RunLaws::stays_up))]
fn work<D: Disk>(
    alloc: Global,
    manager: &mut Manager<D>,
    end: &SenderEnd,
    does: &SenderDoes,
    running: bool,
) -> Result<Told, NoMemory>
    requires up { IsUp manager.old.plain }
    requires works { Works does.now }
    ensures { MadeOr (all_parts end.now does.now running manager.old.plain) result manager.old manager.new }
{
    match act(alloc, manager, end, does) {
        Err(NoMemory) => Err(NoMemory),
        Ok(told) => {
            leave_if(manager, &end.channel, &told, running);
            Ok(told)
        }
    }
}

/// So at a node.
pub(crate) fn work_in<D: Disk>(
    parts: &mut NodeParts<D>,
    end: &SenderEnd,
    does: &SenderDoes,
    running: bool,
) -> Result<Told, NoMemory>
    requires up { IsUp parts.old.manager.plain }
    requires works { Works does.now }
    ensures same { parts.new ≡ record parts.old { manager = parts.new.manager } }
    ensures told { MadeOr (all_parts end.now does.now running parts.old.manager.plain) result parts.old.manager parts.new.manager }
{
    work(parts.alloc, &mut parts.manager, end, does, running)
}
