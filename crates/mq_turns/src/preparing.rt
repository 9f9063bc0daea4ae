//! A sender's turn that prepares its batch as the unit in doubt; where the log has no room, the batch is released and the sender stops.
ghost use Rattle.std.specs.Prelude.{◌≡◌, ◌≤◌, [], true};
ghost use Rattle.mq_turn_parts.specs.from_agents.Ends.{prepare_halt};
ghost use Rattle.mq_cable.specs.Offers.{Offering};
ghost use Rattle.mq_core.specs.Views.{plain_of};
ghost use Rattle.mq_frame.specs.declared.frame.Seen.TheVariants as items;
ghost use Rattle.mq_sender.specs.After.{number_sent};
ghost use Rattle.mq_sender.specs.Table.{sender_next};
ghost use Rattle.mq_sender.specs.declared.turns.SenderDoes.TheVariants as does_what;
ghost use Rattle.mq_spec_manager.specs.Agents.{CanPrepare, HasBatch, IsUp, prepare, stock};
ghost use Rattle.mq_turn_parts.specs.from_spec_log.Applies.{are_distinct as are_distinct_by};
ghost use Rattle.mq_calls.specs.Recovery.{IsNumbered};
ghost use Rattle.mq_calls.specs.Words.{sender_data, sender_or};
ghost use Rattle.mq_turn_parts.specs.Acting.{MayTurn, SendsTurn};
ghost use Rattle.mq_turns.specs.Prepares.{MayPrepare, Prepared, TriesOr, full_parts, halt_of, step_of, tried_end};
ghost use Rattle.mq_turn_parts.specs.Turns.{MadeOr};

use mq_base::{ChName, NoMemory};
use mq_calls::{AgentStop, PrepareFault};
use mq_core::Parts;
use mq_core::below::{batch_of, sender_of};
use mq_disk::{Disk, Stop};
use mq_frame::Seen;
use mq_history::Actor;
use mq_message::Ident;
use mq_own::{EndKind, SenderEnd};
use mq_sender::{Sender, SenderDoes, SenderOut, SenderState};
use mq_turn_parts::below::{Manager, NodeParts, Told, are_distinct};
use mq_turn_parts::{Passed, Turn, end_turn, leave_if, ran, released, stopped};
use std::alloc::Global;

/// The session that is hardened.
fn session_now<D: Disk>(parts: &Parts<D>, channel: &ChName) -> u64
    ensures { result ≡ (sender_or (sender_data channel.now (plain_of parts.now))).session }
{
    match sender_of(&parts.ends.senders, channel) {
        None => 0,
        Some(hardened) => hardened.session,
    }
}

/// The unit is numbered, of a session that is hardened.
fn is_numbered(unit: &mq_sync::Unit, session: u64) -> bool
    ensures { result ≡ true → IsNumbered unit.now × (unit.now.session ≤ session) }
{
    1 <= unit.session && 1 <= unit.n && unit.session <= session
}

/// The idents are told apart; false too where there is no memory to see it.
fn are_apart(alloc: Global, idents: &[Ident]) -> bool
    ensures { result ≡ true → are_distinct_by idents.now ≡ true }
{
    match are_distinct(alloc, idents) {
        Ok(distinct) => distinct,
        Err(NoMemory) => false,
    }
}

/// What a batch's preparing asks beside the manager's facts; false too where there is no memory to see it.
#[tactic(auto, using(crate::proofs::PrepareLaws::preparable))]
fn is_preparable<D: Disk>(parts: &Parts<D>, channel: &ChName) -> bool
    ensures { result ≡ true → MayPrepare channel.now (plain_of parts.now) }
{
    match batch_of(&parts.ends.batches, channel) {
        None => false,
        Some(batch) => {
            is_numbered(&batch.unit, session_now(parts, channel))
                && are_apart(parts.alloc, batch.idents.as_slice())
        }
    }
}

/// The channel may prepare its batch; false too where there is no memory to see it.
#[tactic(auto, using(crate::proofs::PrepareLaws::can_prepare))]
fn may_prepare<D: Disk>(manager: &Manager<D>, channel: &ChName) -> bool
    requires up { IsUp manager.now.plain }
    ensures { result ≡ true → CanPrepare channel.now manager.now.plain }
{
    manager.facts();
    is_preparable(&manager.core.parts, channel)
}

/// Why a batch wasn't prepared.
pub(crate) enum Unprepared {
    NoRoom,
    NoMemory,
    Stopped(Stop),
}

fn cause_of(fault: PrepareFault) -> Unprepared
    ensures { prepare_halt fault ≡ halt_of result }
{
    match fault {
        PrepareFault::NoRoom => Unprepared::NoRoom,
        PrepareFault::Stop(AgentStop::NoMemory) => Unprepared::NoMemory,
        PrepareFault::Stop(AgentStop::Disk) => Unprepared::Stopped(Stop::Disk),
        PrepareFault::Stop(AgentStop::Cut) => Unprepared::Stopped(Stop::Cut),
    }
}

/// The batch of a channel is prepared. None where the log has no room for it; nothing has changed then.
///
/// # Errors
///
/// No memory; nothing has changed.
fn prepared<D: Disk>(
    manager: &mut Manager<D>,
    channel: &ChName,
    last: u32,
) -> Result<Option<Told>, NoMemory>
    requires up { IsUp manager.old.plain }
    requires can { CanPrepare channel.now manager.old.plain }
    ensures { Prepared (prepare channel.now last manager.old.plain) result manager.old manager.new }
{
    match manager.prepare(channel, last) {
        Ok(()) => Ok(Some(ran(manager))),
        Err(fault) => match cause_of(fault) {
            Unprepared::NoRoom => Ok(None),
            Unprepared::NoMemory => Err(NoMemory),
            Unprepared::Stopped(by) => Ok(Some(stopped(manager, by))),
        },
    }
}

/// So, where the channel may; where it may not, which never comes, there is no memory.
#[tactic(auto, using(mq_turn_parts::proofs::AgentLaws::as_was))]
fn prepared_if<D: Disk>(
    manager: &mut Manager<D>,
    channel: &ChName,
    last: u32,
) -> Result<Option<Told>, NoMemory>
    requires up { IsUp manager.old.plain }
    ensures { Prepared (prepare channel.now last manager.old.plain) result manager.old manager.new }
{
    if !may_prepare(manager, channel) {
        return Err(NoMemory);
    }
    prepared(manager, channel, last)
}

/// A batch that the log has no room for is released, and its sender leaves its queue.
///
/// # Errors
///
/// No memory; nothing has changed.
#[tactic(auto, using(mq_turn_parts::proofs::RunLaws::stays_up))]
fn given_back<D: Disk>(manager: &mut Manager<D>, channel: &ChName) -> Result<Told, NoMemory>
    requires up { IsUp manager.old.plain }
    requires batch { HasBatch channel.now manager.old.plain }
    ensures { MadeOr (full_parts channel.now manager.old.plain) result manager.old manager.new }
{
    match released(manager, channel) {
        Err(NoMemory) => Err(NoMemory),
        Ok(told) => {
            leave_if(manager, channel, &told, false);
            Ok(told)
        }
    }
}

/// What a turn that prepares did, and what its end is told.
#[derive(Drop)]
pub(crate) struct Tried {
    /// What the manager tells.
    pub told: Told,
    /// Done, or the log has no room.
    pub out: SenderOut,
}

/// The batch of a channel is prepared; where the log has no room for it, it is released, and the queue is left.
///
/// # Errors
///
/// No memory; nothing has changed.
#[tactic(auto, using(crate::proofs::PreparedLaws::still_up, crate::proofs::PreparedLaws::still_held))]
fn try_prepare<D: Disk>(
    manager: &mut Manager<D>,
    channel: &ChName,
    last: u32,
) -> Result<Tried, NoMemory>
    requires up { IsUp manager.old.plain }
    ensures { TriesOr channel.now (prepare channel.now last manager.old.plain) result manager.old manager.new }
{
    match prepared_if(manager, channel, last) {
        Err(NoMemory) => Err(NoMemory),
        Ok(Some(told)) => Ok(Tried {
            told,
            out: SenderOut::Done,
        }),
        Ok(None) => match given_back(manager, channel) {
            Err(NoMemory) => Err(NoMemory),
            Ok(told) => Ok(Tried {
                told,
                out: SenderOut::NoRoom,
            }),
        },
    }
}

/// The number of the last message that was sent.
fn last_number(machine: &Sender) -> u32
    ensures { result ≡ number_sent machine.now.state machine.now.kept.last }
{
    match machine.state {
        SenderState::Sending { number, .. } => number,
        _ => machine.kept.last,
    }
}

/// So at a node, for an end.
fn tried_in<D: Disk>(parts: &mut NodeParts<D>, end: &SenderEnd) -> Result<Tried, NoMemory>
    requires up { IsUp parts.old.manager.plain }
    ensures same { parts.new ≡ record parts.old { manager = parts.new.manager } }
    ensures told { TriesOr end.now.channel (step_of end.now parts.old.manager.plain) result parts.old.manager parts.new.manager }
{
    let last = last_number(&end.machine);
    try_prepare(&mut parts.manager, &end.channel, last)
}

/// The end after it.
fn end_tried(end: &SenderEnd, out: &SenderOut) -> SenderEnd
    ensures { result ≡ tried_end end.now out.now }
{
    let mut machine = end.machine;
    machine.done(&SenderDoes::Prepare, out);
    SenderEnd {
        cable: end.cable,
        channel: end.channel,
        partner: end.partner,
        machine,
    }
}

/// The turn that prepares the batch as the unit in doubt, in room that is there; where the log has no room for it, the batch is
/// released and the sender stops. Nothing passes on its wire, and it is never still.
/// Source: distributed queuing, fault tolerance (the unit is hardened before its end is confirmed).
///
/// # Errors
///
/// No memory; nothing has changed.
#[tactic(auto, using(crate::proofs::SendLaws::acts_low))]
pub fn prepare_turn<D: Disk>(parts: &mut NodeParts<D>, end: SenderEnd) -> Result<Turn, NoMemory>
    requires may { MayTurn end parts.old }
    requires next { does_what.Prepare ≡ sender_next end.machine items.Nothing (stock end.channel parts.old.manager.plain) }
    ensures { (o : Offering) → SendsTurn end.cable (λ xs. xs ≡ []) (λ xs. xs ≡ []) (Unit {0}) ⊥ o o parts.old result parts.new }
{
    let stamp = parts.stamp + 1;
    match tried_in(parts, &end) {
        Err(NoMemory) => Err(NoMemory),
        Ok(Tried { told, out }) => {
            let after = end_tried(&end, &out);
            let passed = Passed {
                stamp,
                pushed: None,
                extras: 0,
                popped: Seen::Nothing,
            };
            let kind = EndKind::Sends(after);
            end_turn(parts, Actor::Sender(end.cable), told, kind, passed);
            Ok(Turn::Changed)
        }
    }
}
