//! A receiver's session that is closed at its manager.
ghost use Rattle.std.specs.Prelude.{◌≡◌, ◌++◌, Ok, false};
ghost use Rattle.mq_calls.specs.declared.agents.Note.TheVariants as notes;
ghost use Rattle.mq_takes.specs.Words as words;
ghost use Rattle.mq_calls.specs.declared.choices.Choice.TheVariants as choices;
ghost use Rattle.mq_receiver.specs.declared.turns.ReceiverDoes.TheVariants as does_what;

use crate::asking::may_close;
use crate::lifting::put_back;
use crate::working::work_done;
use mq_base::{ChName, NoMemory};
use mq_cable::Wire;
use mq_calls::{Messages, Note};
use mq_disk::Disk;
use mq_frame::Seen;
use mq_own::ReceiverEnd;
use mq_receiver::{ReceiverDoes, ReceiverOut};
use mq_turn_parts::below::{Manager, NodeParts, Told};
use mq_turn_parts::{Turn, hardened, has_run, unbind};
use mq_wires::Sight;
use std::alloc::Global;

/// So where all before was done.
#[tactic(auto, using(crate::proofs::WorkLaws::bound_done, crate::proofs::WorkLaws::bound_undone, crate::proofs::WorkLaws::up_ran))]
pub(crate) fn unbind_if<D: Disk>(manager: &mut Manager<D>, channel: &ChName, told: &Told)
    requires up { told.now.choice ≡ choices.Runs → words.IsUp manager.old.plain }
    ensures { words.IsBehind (words.bound_if told.now.choice channel.now false manager.old.plain) manager.old manager.new }
{
    if has_run(told) {
        unbind(manager, channel);
    }
}

/// The session of a channel's receiver is hardened as closed, and the end unbound.
///
/// # Errors
///
/// No memory; nothing has changed. So it is too where the manager has not what the end knows of it, which never comes.
#[tactic(auto, using(mq_turn_parts::proofs::RunLaws::stays_up, mq_turn_parts::proofs::AgentLaws::as_was))]
fn close_named<D: Disk>(
    manager: &mut Manager<D>,
    channel: &ChName,
    session: u64,
) -> Result<Told, NoMemory>
    requires up { words.IsUp manager.old.plain }
    ensures { words.MadeOr (words.parts_of (words.harden channel.now (notes.Closed session) manager.old.plain) ++ words.parts_of (words.set_bound channel.now false manager.old.plain)) result manager.old manager.new }
{
    if !may_close(manager, channel, session) {
        return Err(NoMemory);
    }
    match hardened(manager, channel, &Note::Closed { session }) {
        Err(NoMemory) => Err(NoMemory),
        Ok(told) => {
            unbind_if(manager, channel, &told);
            Ok(told)
        }
    }
}

/// So for an end.
pub(crate) fn close<D: Disk>(manager: &mut Manager<D>, end: &ReceiverEnd) -> Result<Told, NoMemory>
    requires up { words.IsUp manager.old.plain }
    ensures { words.MadeOr (words.close_parts end.now manager.old.plain) result manager.old manager.new }
{
    close_named(manager, &end.channel, end.machine.session)
}

/// So at a node.
pub(crate) fn close_in<D: Disk>(
    parts: &mut NodeParts<D>,
    end: &ReceiverEnd,
) -> Result<Told, NoMemory>
    requires up { words.IsUp parts.old.manager.plain }
    ensures same { parts.new ≡ record parts.old { manager = parts.new.manager } }
    ensures told { words.MadeOr (words.close_parts end.now parts.old.manager.plain) result parts.old.manager parts.new.manager }
{
    close(&mut parts.manager, end)
}

/// The end after a line, with no message kept.
pub(crate) fn end_emptied(
    alloc: Global,
    end: &ReceiverEnd,
    does: &ReceiverDoes,
    seen: &Seen,
    out: &ReceiverOut,
) -> ReceiverEnd
    ensures { result ≡ words.emptied end.now does.now seen.now out.now }
{
    let mut machine = end.machine;
    machine.done(does, seen, out);
    ReceiverEnd {
        cable: end.cable,
        channel: end.channel,
        partner: end.partner,
        machine,
        kept: Messages::new(alloc),
    }
}

/// The turn in which a spoiled frame closes the session.
pub(crate) fn closing_turn<D: Disk, W: Wire>(
    parts: &mut NodeParts<D>,
    wire: &mut W,
    end: ReceiverEnd,
    sight: Sight,
) -> Result<Turn, NoMemory>
    requires may { words.MayTakeTurn end parts.old }
    requires next { does_what.Close ≡ words.receiver_next end.machine sight.seen (words.is_receiver_defined end.channel parts.old.manager.plain.definitions) }
    requires saw { words.HasSeen (W.front_of wire.old) sight.seen sight.stamp }
    ensures { words.TakesOver W.Wire wire.old wire.new end sight.seen parts.old result parts.new }
{
    match close_in(parts, &end) {
        Err(NoMemory) => {
            put_back(parts, end);
            Err(NoMemory)
        }
        Ok(told) => {
            let last = end_emptied(
                parts.alloc,
                &end,
                &ReceiverDoes::Close,
                &sight.seen,
                &ReceiverOut::Done,
            );
            put_back(parts, end);
            let received = Messages::new(parts.alloc);
            work_done(parts, wire, last, told, received, sight);
            Ok(Turn::Changed)
        }
    }
}
