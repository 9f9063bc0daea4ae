//! A receiver's session is closed at its manager, and the end unbound.
ghost use Rattle.std.specs.Prelude.{◌≡◌, ◌++◌, Ok, false};
ghost use Rattle.mq_calls.specs.declared.agents.Note.TheVariants as notes;
ghost use Rattle.mq_calls.specs.declared.choices.Choice.TheVariants as choices;
ghost use Rattle.mq_core.specs.Views.{plain_of};
ghost use Rattle.mq_sync.specs.Settlement.{receiver_or};
ghost use Rattle.mq_calls.specs.Words.{receiver_data};
ghost use Rattle.mq_spec_manager.specs.Agents.{CanHarden, IsUp, harden, set_bound};
ghost use Rattle.mq_spec_node.specs.Words.{is_open, parts_of};
ghost use Rattle.mq_turn_parts.specs.Turns.{IsBehind, MadeOr};
ghost use Rattle.mq_operate.specs.Receivers.{close_named, unbound_if};

use mq_base::{ChName, NoMemory};
use mq_calls::Note;
use mq_core::Parts;
use mq_disk::Disk;
use mq_sides::receiver_data;
use mq_turn_parts::below::{Manager, Told};
use mq_turn_parts::{hardened, has_run, ran, unbind};

#[tactic(auto, using(crate::proofs::CloseLaws::open_or))]
fn is_open_in<D: Disk>(parts: &Parts<D>, channel: &ChName) -> bool
    ensures { result ≡ is_open (receiver_data channel.now (plain_of parts.now)) }
{
    let hardened = receiver_data(&parts.ends.receivers, channel);
    0 < hardened.session && !hardened.closed
}

fn session_in<D: Disk>(parts: &Parts<D>, channel: &ChName) -> u64
    ensures { result ≡ (receiver_or (receiver_data channel.now (plain_of parts.now))).session }
{
    receiver_data(&parts.ends.receivers, channel).session
}

/// A session of a channel's receiver is open.
fn is_open<D: Disk>(manager: &Manager<D>, channel: &ChName) -> bool
    ensures { result ≡ is_open (receiver_data channel.now manager.now.plain) }
{
    is_open_in(&manager.core.parts, channel)
}

/// Which session is hardened of it.
fn session_of<D: Disk>(manager: &Manager<D>, channel: &ChName) -> u64
    ensures { result ≡ (receiver_or (receiver_data channel.now manager.now.plain)).session }
{
    session_in(&manager.core.parts, channel)
}

/// So where all before was done.
#[tactic(auto, using(crate::proofs::CloseLaws::unbound_done, crate::proofs::CloseLaws::unbound_undone, crate::proofs::CloseLaws::up_ran))]
fn unbind_if<D: Disk>(manager: &mut Manager<D>, channel: &ChName, told: &Told)
    requires up { told.now.choice ≡ choices.Runs → IsUp manager.old.plain }
    ensures { IsBehind (unbound_if told.now.choice channel.now manager.old.plain) manager.old manager.new }
{
    if has_run(told) {
        unbind(manager, channel);
    }
}

/// It isn't bound from now on, and nothing else. It takes no memory.
#[tactic(auto, using(mq_turn_parts::proofs::AgentLaws::agent_ran))]
fn unbound<D: Disk>(manager: &mut Manager<D>, channel: &ChName) -> Told
    requires up { IsUp manager.old.plain }
    ensures { MadeOr (parts_of (set_bound channel.now false manager.old.plain)) (Ok result) manager.old manager.new }
{
    unbind(manager, channel);
    ran(manager)
}

/// Its open session is hardened as closed, and the end unbound.
#[tactic(auto, using(mq_turn_parts::proofs::RunLaws::stays_up))]
fn close_session<D: Disk>(
    manager: &mut Manager<D>,
    channel: &ChName,
    session: u64,
) -> Result<Told, NoMemory>
    requires up { IsUp manager.old.plain }
    requires can { CanHarden channel.now (notes.Closed session) manager.old.plain }
    ensures { MadeOr (parts_of (harden channel.now (notes.Closed session) manager.old.plain) ++ parts_of (set_bound channel.now false manager.old.plain)) result manager.old manager.new }
{
    match hardened(manager, channel, &Note::Closed { session }) {
        Err(NoMemory) => Err(NoMemory),
        Ok(told) => {
            unbind_if(manager, channel, &told);
            Ok(told)
        }
    }
}

/// What STOP closes of a receiver at its manager: the session, where one is open; and the end is unbound.
///
/// # Errors
///
/// No memory; nothing has changed.
#[tactic(auto, using(crate::proofs::CloseLaws::close_can, crate::proofs::CloseLaws::closed_open, crate::proofs::CloseLaws::closed_shut))]
pub fn closed<D: Disk>(manager: &mut Manager<D>, channel: &ChName) -> Result<Told, NoMemory>
    requires up { IsUp manager.old.plain }
    ensures { MadeOr (close_named channel.now manager.old.plain) result manager.old manager.new }
{
    if is_open(manager, channel) {
        let session = session_of(manager, channel);
        return close_session(manager, channel, session);
    }
    Ok(unbound(manager, channel))
}
