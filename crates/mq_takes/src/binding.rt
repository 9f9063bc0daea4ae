//! A session that is bound at its manager.
ghost use Rattle.std.specs.Prelude.{◌≡◌, ◌++◌, Ok, true};
ghost use Rattle.mq_calls.specs.declared.agents.Note.TheVariants as notes;
ghost use Rattle.mq_takes.specs.Words as words;
ghost use Rattle.mq_calls.specs.declared.choices.Choice.TheVariants as choices;
ghost use Rattle.mq_receiver.specs.declared.turns.ReceiverDoes.TheVariants as does_what;

use crate::asking::may_bind;
use crate::closing::end_emptied;
use crate::lifting::put_back;
use crate::working::work_done;
use mq_base::{ChName, NoMemory, QName};
use mq_cable::Wire;
use mq_calls::{Messages, Note};
use mq_core::Core;
use mq_disk::Disk;
use mq_own::ReceiverEnd;
use mq_receiver::{ReceiverDoes, ReceiverOut};
use mq_turn_parts::below::{Manager, NodeParts, Told};
use mq_turn_parts::{Turn, hardened, has_run};
use mq_wires::Sight;

fn bind_in<D: Disk>(core: &mut Core<D>, channel: &ChName)
    requires up { words.IsUp core.old.plain }
    ensures meets { words.MeetsOrWants (words.manager_of core.old) (words.set_bound channel.now true core.old.plain) (Ok tt) (words.manager_of core.new) }
    ensures told { words.WritesLog core.old (words.set_bound channel.now true core.old.plain) (Ok tt) core.new }
{
    mq_turn_parts::below::bind(core, channel);
}

/// A receiver is bound from now on. It takes no memory.
fn bind<D: Disk>(manager: &mut Manager<D>, channel: &ChName)
    requires up { words.IsUp manager.old.plain }
    ensures { words.MeetsOrWants (words.manager_of manager.old) (words.set_bound channel.now true manager.old.plain) (Ok tt) (words.manager_of manager.new) }
{
    bind_in(&mut manager.core, channel);
}

/// So where all before was done.
#[tactic(auto, using(crate::proofs::WorkLaws::bound_done, crate::proofs::WorkLaws::bound_undone, crate::proofs::WorkLaws::up_ran))]
fn bind_if<D: Disk>(manager: &mut Manager<D>, channel: &ChName, told: &Told)
    requires up { told.now.choice ≡ choices.Runs → words.IsUp manager.old.plain }
    ensures { words.IsBehind (words.bound_if told.now.choice channel.now true manager.old.plain) manager.old manager.new }
{
    if has_run(told) {
        bind(manager, channel);
    }
}

/// A session is hardened as bound, and the end bound.
///
/// # Errors
///
/// No memory; nothing has changed. So it is too where the manager has not what the end knows of it, which never comes.
#[tactic(auto, using(mq_turn_parts::proofs::RunLaws::stays_up, mq_turn_parts::proofs::AgentLaws::as_was))]
fn harden_bound<D: Disk>(
    manager: &mut Manager<D>,
    channel: &ChName,
    partner: QName,
    session: u64,
    last: u32,
) -> Result<Told, NoMemory>
    requires up { words.IsUp manager.old.plain }
    ensures { words.MadeOr (words.parts_of (words.harden channel.now (notes.Bound partner session last) manager.old.plain) ++ words.parts_of (words.set_bound channel.now true manager.old.plain)) result manager.old manager.new }
{
    if !may_bind(manager, channel, session) {
        return Err(NoMemory);
    }
    let note = Note::Bound {
        partner,
        session,
        last,
    };
    match hardened(manager, channel, &note) {
        Err(NoMemory) => Err(NoMemory),
        Ok(told) => {
            bind_if(manager, channel, &told);
            Ok(told)
        }
    }
}

fn bind_session<D: Disk>(
    manager: &mut Manager<D>,
    end: &ReceiverEnd,
    last: &ReceiverEnd,
) -> Result<Told, NoMemory>
    requires up { words.IsUp manager.old.plain }
    ensures { words.MadeOr (words.bind_parts end.now last.now.machine manager.old.plain) result manager.old manager.new }
{
    harden_bound(
        manager,
        &end.channel,
        end.partner,
        last.machine.session,
        last.machine.last,
    )
}

/// So at a node.
fn bind_at<D: Disk>(
    parts: &mut NodeParts<D>,
    end: &ReceiverEnd,
    last: &ReceiverEnd,
) -> Result<Told, NoMemory>
    requires up { words.IsUp parts.old.manager.plain }
    ensures same { parts.new ≡ record parts.old { manager = parts.new.manager } }
    ensures told { words.MadeOr (words.bind_parts end.now last.now.machine parts.old.manager.plain) result parts.old.manager parts.new.manager }
{
    bind_session(&mut parts.manager, end, last)
}

/// The turn in which BIND binds its session.
pub(crate) fn binding_turn<D: Disk, W: Wire>(
    parts: &mut NodeParts<D>,
    wire: &mut W,
    end: ReceiverEnd,
    sight: Sight,
) -> Result<Turn, NoMemory>
    requires may { words.MayTakeTurn end parts.old }
    requires next { does_what.Bind ≡ words.receiver_next end.machine sight.seen (words.is_receiver_defined end.channel parts.old.manager.plain.definitions) }
    requires saw { words.HasSeen (W.front_of wire.old) sight.seen sight.stamp }
    ensures { words.TakesOver W.Wire wire.old wire.new end sight.seen parts.old result parts.new }
{
    let last = end_emptied(
        parts.alloc,
        &end,
        &ReceiverDoes::Bind,
        &sight.seen,
        &ReceiverOut::Done,
    );
    match bind_at(parts, &end, &last) {
        Err(NoMemory) => {
            put_back(parts, end);
            Err(NoMemory)
        }
        Ok(told) => {
            put_back(parts, end);
            let received = Messages::new(parts.alloc);
            work_done(parts, wire, last, told, received, sight);
            Ok(Turn::Changed)
        }
    }
}
