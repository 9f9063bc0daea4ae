//! Commands on the ends of channels, as events.
ghost use Rattle.std.specs.Prelude.{◌≡◌, ◌<◌};
ghost use Rattle.mq_spec_manager.specs.Agents.{IsUp};
ghost use Rattle.mq_objects.specs.Names.{channel_of};
ghost use Rattle.mq_spec_node.specs.Words.{end_here, limits_of, operate, operate_up, reset_end, resolve_end, sender_named, start_end, stop_end};
ghost use Rattle.mq_turn_parts.specs.from_events.States.{IsServed, node_in};
ghost use Rattle.mq_turn_parts.specs.from_events.Counts.{IsNode};
ghost use Rattle.mq_turn_parts.specs.from_events.Events.{ActsAs, MayAct};
ghost use Rattle.mq_operate.specs.Places.{IsPlace};
ghost use Rattle.mq_operate.specs.Works.{Works, call_of};

use crate::places::{Place, limits_here, place_here, sender_in};
use crate::receivers::{reset_receiver, start_receiver, stop_receiver};
use crate::senders::{reset_sender, resolve_sender, start_sender, stop_sender};
use crate::working::{Worked, answer_by, refused, tell_worked};
use mq_base::{ChName, NoMemory};
use mq_disk::Disk;
use mq_history::{Acted, Actor, OpRefusal};
use mq_sc_parse::Op;
use mq_sender::Limits;
use mq_sync::Settle;
use mq_turn_parts::below::{Node, NodeParts};
use mq_turn_parts::is_up;

/// RESOLVE, at the sender's end of a cable, defined or not.
#[tactic(auto, using(crate::proofs::SenderLaws::resolve_absent, crate::proofs::SenderLaws::resolve_there))]
fn resolve<D: Disk>(
    parts: &mut NodeParts<D>,
    channel: &ChName,
    settle: Settle,
) -> Result<Worked, NoMemory>
    requires up { IsUp parts.old.manager.plain }
    ensures { Works (resolve_end settle (sender_named channel.now parts.old.own.ends) (node_in parts.old)) parts.old result parts.new }
{
    match sender_in(parts, channel) {
        None => Ok(refused(parts.alloc, OpRefusal::NotFound)),
        Some(end) => resolve_sender(parts, &end, settle),
    }
}

/// START of the end that was found.
#[tactic(auto, using(crate::proofs::PlacedLaws::start_there, crate::proofs::PlacedLaws::start_seat, crate::proofs::PlacedLaws::defined_so, crate::proofs::PlacedLaws::limits_so))]
fn start_at<D: Disk>(
    parts: &mut NodeParts<D>,
    channel: &ChName,
    place: &Place,
    limits: Limits,
) -> Result<Worked, NoMemory>
    requires up { IsUp parts.old.manager.plain }
    requires place { IsPlace channel.now place.now (node_in parts.old) }
    requires limits { limits ≡ limits_of (channel_of channel.now parts.old.manager.plain.definitions) }
    ensures { Works (start_end (end_here channel.now (node_in parts.old)) (node_in parts.old)) parts.old result parts.new }
{
    match place {
        Place::Absent => Ok(refused(parts.alloc, OpRefusal::NotFound)),
        Place::Sends(end) => start_sender(parts, end, limits),
        Place::Receives(seat) => start_receiver(parts, seat),
    }
}

/// START.
#[tactic(auto, using(crate::proofs::SenderLaws::as_it_was))]
fn start<D: Disk>(parts: &mut NodeParts<D>, channel: &ChName) -> Result<Worked, NoMemory>
    requires up { IsUp parts.old.manager.plain }
    ensures { Works (start_end (end_here channel.now (node_in parts.old)) (node_in parts.old)) parts.old result parts.new }
{
    let limits = limits_here(&parts.manager, channel);
    match place_here(parts, channel) {
        Err(NoMemory) => Err(NoMemory),
        Ok(place) => start_at(parts, channel, &place, limits),
    }
}

/// STOP of the end that was found.
#[tactic(auto, using(crate::proofs::PlacedLaws::stop_there, crate::proofs::PlacedLaws::stop_seat))]
fn stop_at<D: Disk>(
    parts: &mut NodeParts<D>,
    channel: &ChName,
    place: &Place,
) -> Result<Worked, NoMemory>
    requires up { IsUp parts.old.manager.plain }
    requires place { IsPlace channel.now place.now (node_in parts.old) }
    ensures { Works (stop_end (end_here channel.now (node_in parts.old)) (node_in parts.old)) parts.old result parts.new }
{
    match place {
        Place::Absent => Ok(refused(parts.alloc, OpRefusal::NotFound)),
        Place::Sends(end) => stop_sender(parts, end),
        Place::Receives(seat) => stop_receiver(parts, seat),
    }
}

/// STOP.
#[tactic(auto, using(crate::proofs::SenderLaws::as_it_was))]
fn stop<D: Disk>(parts: &mut NodeParts<D>, channel: &ChName) -> Result<Worked, NoMemory>
    requires up { IsUp parts.old.manager.plain }
    ensures { Works (stop_end (end_here channel.now (node_in parts.old)) (node_in parts.old)) parts.old result parts.new }
{
    match place_here(parts, channel) {
        Err(NoMemory) => Err(NoMemory),
        Ok(place) => stop_at(parts, channel, &place),
    }
}

/// RESET of the end that was found.
#[tactic(auto, using(crate::proofs::PlacedLaws::reset_there, crate::proofs::PlacedLaws::reset_seat, crate::proofs::PlacedLaws::limits_so, crate::proofs::PlacedLaws::seat_limits))]
fn reset_at<D: Disk>(
    parts: &mut NodeParts<D>,
    channel: &ChName,
    place: &Place,
    number: u32,
    limits: &Limits,
) -> Result<Worked, NoMemory>
    requires up { IsUp parts.old.manager.plain }
    requires place { IsPlace channel.now place.now (node_in parts.old) }
    requires limits { limits.now ≡ limits_of (channel_of channel.now parts.old.manager.plain.definitions) }
    ensures { Works (reset_end number (end_here channel.now (node_in parts.old)) (node_in parts.old)) parts.old result parts.new }
{
    match place {
        Place::Absent => Ok(refused(parts.alloc, OpRefusal::NotFound)),
        Place::Sends(end) => reset_sender(parts, end, number, limits),
        Place::Receives(seat) => reset_receiver(parts, seat, number, limits),
    }
}

/// RESET.
#[tactic(auto, using(crate::proofs::SenderLaws::as_it_was))]
fn reset<D: Disk>(
    parts: &mut NodeParts<D>,
    channel: &ChName,
    number: u32,
) -> Result<Worked, NoMemory>
    requires up { IsUp parts.old.manager.plain }
    ensures { Works (reset_end number (end_here channel.now (node_in parts.old)) (node_in parts.old)) parts.old result parts.new }
{
    let limits = limits_here(&parts.manager, channel);
    match place_here(parts, channel) {
        Err(NoMemory) => Err(NoMemory),
        Ok(place) => reset_at(parts, channel, &place, number, &limits),
    }
}

/// A command at a manager that is up.
fn work_up<D: Disk>(parts: &mut NodeParts<D>, op: &Op) -> Result<Worked, NoMemory>
    requires up { IsUp parts.old.manager.plain }
    ensures { Works (operate_up op.now (node_in parts.old)) parts.old result parts.new }
{
    match op {
        Op::Start(channel) => start(parts, channel),
        Op::Stop(channel) => stop(parts, channel),
        Op::Reset(channel, number) => reset(parts, channel, *number),
        Op::Resolve(channel, settle) => resolve(parts, channel, *settle),
    }
}

/// A command, before its entry.
#[tactic(auto, using(crate::proofs::SenderLaws::down_refused, crate::proofs::SenderLaws::up_works))]
fn work<D: Disk>(parts: &mut NodeParts<D>, op: &Op) -> Result<Worked, NoMemory>
    ensures { Works (operate op.now (node_in parts.old)) parts.old result parts.new }
{
    if is_up(parts) {
        return work_up(parts, op);
    }
    Ok(refused(parts.alloc, OpRefusal::Down))
}

/// A command, with its entry, in room that is there.
#[tactic(auto, using(crate::proofs::TellLaws::told_did, crate::proofs::TellLaws::unworked_node, crate::proofs::TellLaws::unworked_stays, crate::proofs::TellLaws::worked_room, crate::proofs::TellLaws::worked_low))]
fn operate_in<D: Disk>(parts: &mut NodeParts<D>, actor: Actor, op: Op) -> Result<Acted, NoMemory>
    requires room { 0 < parts.old.room }
    requires node { IsNode parts.old }
    requires served { IsServed parts.old }
    requires may { MayAct parts.old }
    ensures node { IsNode parts.new }
    ensures did { ActsAs actor (call_of op) parts.old result parts.new }
{
    match work(parts, &op) {
        Err(NoMemory) => Err(NoMemory),
        Ok(worked) => {
            let answer = answer_by(&worked.told.choice, worked.refusal);
            tell_worked(parts, actor, op, worked);
            Ok(answer)
        }
    }
}

/// So, where its entry's room can be had.
#[tactic(auto, using(crate::proofs::TellLaws::roomed_node, crate::proofs::TellLaws::roomed_stays, crate::proofs::TellLaws::roomed_did, mq_turn_parts::proofs::DueLaws::room_served, mq_turn_parts::proofs::DueLaws::room_may))]
fn operate_if<D: Disk>(parts: &mut NodeParts<D>, actor: Actor, op: Op) -> Result<Acted, NoMemory>
    requires node { IsNode parts.old }
    requires served { IsServed parts.old }
    requires may { MayAct parts.old }
    ensures node { IsNode parts.new }
    ensures did { ActsAs actor (call_of op) parts.old result parts.new }
{
    if parts.reserve(1).is_err() {
        return Err(NoMemory);
    }
    operate_in(parts, actor, op)
}

/// START, STOP, RESET or RESOLVE CHANNEL (MQSC reference), as one event of the node. It is refused with the first that applies of
/// `Down`, `NotFound`, and what the command itself asks; a write that was stopped is answered `Disk` or `Cut`, and its entry says so.
///
/// # Errors
///
/// No memory; nothing has changed.
pub fn operate<D: Disk>(node: &mut Node<D>, actor: Actor, op: Op) -> Result<Acted, NoMemory>
    requires served { IsServed node.old }
    requires may { MayAct node.old }
    ensures { ActsAs actor (call_of op) node.old result node.new }
{
    operate_if(&mut node.parts, actor, op)
}
