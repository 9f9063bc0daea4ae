//! Commands on a receiver's end.
ghost use Rattle.std.specs.Prelude.{◌≡◌, Some, None, true, false};
ghost use Rattle.mq_calls.specs.declared.agents.Note.TheVariants as notes;
ghost use Rattle.mq_receiver.specs.States.{is_bound, numbered as numbered_machine, started as started_machine, stopped as stopped_machine};
ghost use Rattle.mq_sync.specs.declared.data.End.TheVariants as end_kinds;
ghost use Rattle.mq_spec_manager.specs.Agents.{IsUp, harden};
ghost use Rattle.mq_spec_node.specs.Node as nodes;
ghost use Rattle.mq_spec_node.specs.Words.{limits_here, operated, parts_of, receiver_end, reset_end, start_end, stop_end, with_end};
ghost use Rattle.mq_spec_node.specs.Node.ChannelEnd.{Receives};
ghost use Rattle.mq_turn_parts.specs.from_events.States.{node_in};
ghost use Rattle.mq_turn_parts.specs.Turns.{MadeOr, own_by};
ghost use Rattle.mq_operate.specs.Places.{IsSeat};
ghost use Rattle.mq_operate.specs.Receivers.{behind, close_named, kept_if, seat_unset};
ghost use Rattle.mq_operate.specs.Works.{Works};

use crate::closing::closed;
use crate::places::Seat;
use crate::senders::{hardened_in, is_bad_number};
use crate::working::{Worked, refused};
use mq_base::NoMemory;
use mq_cabled::{lift_receiver, set_end};
use mq_calls::{Messages, Note};
use mq_disk::Disk;
use mq_history::OpRefusal;
use mq_own::{ChannelEnd, EndKind, Own, ReceiverEnd};
use mq_receiver::Receiver;
use mq_sender::Limits;
use mq_sync::End;
use mq_turn_parts::below::{NodeParts, Told};
use mq_turn_parts::{has_run, nothing_done};
use std::alloc::Global;

/// What a receiver has kept, or nothing.
fn kept_if(alloc: Global, empties: bool, kept: Messages) -> Messages
    ensures { result ≡ kept_if empties kept }
{
    if empties {
        return Messages::new(alloc);
    }
    kept
}

/// The end with another machine, and with what it has kept, or without.
fn behind(alloc: Global, end: ReceiverEnd, machine: Receiver, empties: bool) -> ReceiverEnd
    ensures { result ≡ behind end machine empties }
{
    let kept = kept_if(alloc, empties, end.kept);
    ReceiverEnd {
        cable: end.cable,
        channel: end.channel,
        partner: end.partner,
        machine,
        kept,
    }
}

/// So in its place.
#[tactic(auto, using(crate::proofs::ReceiverLaws::change_none, crate::proofs::ReceiverLaws::change_some))]
fn change_end(alloc: Global, own: &mut Own, cable: u16, machine: Receiver, empties: bool)
    ensures { (e : nodes.ReceiverEnd) → receiver_end cable own.old ≡ Some e → own.new ≡ with_end (Receives (behind e machine empties)) own.old }
{
    match lift_receiver(alloc, own, cable) {
        None => {}
        Some(end) => {
            let kind = EndKind::Receives(behind(alloc, end, machine, empties));
            set_end(own, ChannelEnd { kind });
        }
    }
}

/// The end after a command, and handlers that have forgotten rows that went, where all was done.
#[tactic(auto, using(crate::proofs::ReceiverLaws::kept_done, crate::proofs::ReceiverLaws::kept_undone))]
fn keep_in(alloc: Global, own: &mut Own, told: &Told, cable: u16, machine: Receiver, empties: bool)
    ensures { (e : nodes.ReceiverEnd) → receiver_end cable own.old ≡ Some e → own.new ≡ own_by told.now.choice told.now.delta (with_end (Receives (behind e machine empties)) own.old) own.old }
{
    if has_run(told) {
        change_end(alloc, own, cable, machine, empties);
        own.forget_rows(told.delta.as_slice());
    }
}

/// So at a node. It takes no memory.
fn keep_receiver<D: Disk>(
    parts: &mut NodeParts<D>,
    told: &Told,
    cable: u16,
    machine: Receiver,
    empties: bool,
)
    ensures { (e : nodes.ReceiverEnd) → receiver_end cable parts.old.own ≡ Some e → parts.new ≡ record parts.old { own = own_by told.now.choice told.now.delta (with_end (Receives (behind e machine empties)) parts.old.own) parts.old.own } }
{
    keep_in(parts.alloc, &mut parts.own, told, cable, machine, empties);
}

/// Whether a session is bound.
fn is_bound(seat: &Seat) -> bool
    ensures { result ≡ is_bound seat.now.machine.state }
{
    seat.machine.is_bound()
}

fn started(seat: &Seat) -> Receiver
    ensures { result ≡ started_machine seat.now.machine }
{
    let mut machine = seat.machine;
    machine.start();
    machine
}

fn stopped(seat: &Seat) -> Receiver
    ensures { result ≡ stopped_machine seat.now.machine }
{
    let mut machine = seat.machine;
    machine.stop();
    machine
}

fn numbered(seat: &Seat, last: u32) -> Receiver
    ensures { result ≡ numbered_machine last seat.now.machine }
{
    let mut machine = seat.machine;
    machine.set_last(last);
    machine
}

/// START of a receiver's end. It takes no memory.
#[tactic(auto, using(crate::proofs::SeatLaws::start_bound, crate::proofs::SeatLaws::started_so))]
pub fn start_receiver<D: Disk>(parts: &mut NodeParts<D>, seat: &Seat) -> Result<Worked, NoMemory>
    ensures { (e : nodes.ReceiverEnd) → IsSeat seat.now e parts.old.own → Works (start_end (Some (Receives e)) (node_in parts.old)) parts.old result parts.new }
{
    if is_bound(seat) {
        return Ok(refused(parts.alloc, OpRefusal::Running));
    }
    let machine = started(seat);
    let told = nothing_done(parts.alloc);
    keep_receiver(parts, &told, seat.cable, machine, false);
    Ok(Worked {
        told,
        refusal: None,
    })
}

/// What STOP closes of it, at a node.
fn closed_in<D: Disk>(parts: &mut NodeParts<D>, seat: &Seat) -> Result<Told, NoMemory>
    requires up { IsUp parts.old.manager.plain }
    ensures same { parts.new ≡ record parts.old { manager = parts.new.manager } }
    ensures told { MadeOr (close_named seat.now.channel parts.old.manager.plain) result parts.old.manager parts.new.manager }
{
    closed(&mut parts.manager, &seat.channel)
}

/// STOP of a receiver's end: a session that is open is closed, and what the end has kept goes.
#[tactic(auto, using(crate::proofs::SenderLaws::unnoted, crate::proofs::SeatLaws::stopped_so))]
pub fn stop_receiver<D: Disk>(parts: &mut NodeParts<D>, seat: &Seat) -> Result<Worked, NoMemory>
    requires up { IsUp parts.old.manager.plain }
    ensures { (e : nodes.ReceiverEnd) → IsSeat seat.now e parts.old.own → Works (stop_end (Some (Receives e)) (node_in parts.old)) parts.old result parts.new }
{
    let machine = stopped(seat);
    match closed_in(parts, seat) {
        Err(NoMemory) => Err(NoMemory),
        Ok(told) => {
            keep_receiver(parts, &told, seat.cable, machine, true);
            Ok(Worked {
                told,
                refusal: None,
            })
        }
    }
}

/// The first refusal of RESET of a receiver's end.
fn unset(seat: &Seat, number: u32, limits: &Limits) -> Option<OpRefusal>
    ensures { result ≡ seat_unset seat.now number limits.now }
{
    if is_bound(seat) {
        return Some(OpRefusal::Running);
    }
    if is_bad_number(number, limits) {
        return Some(OpRefusal::BadNumber);
    }
    None
}

/// The last number of a receiver's end is set.
#[tactic(auto, using(crate::proofs::SenderLaws::unnoted, crate::proofs::SeatLaws::numbered_so))]
fn set_last<D: Disk>(parts: &mut NodeParts<D>, seat: &Seat, last: u32) -> Result<Worked, NoMemory>
    requires up { IsUp parts.old.manager.plain }
    ensures { (e : nodes.ReceiverEnd) → IsSeat seat.now e parts.old.own → Works (operated (parts_of (harden e.channel (notes.SeqSet end_kinds.Receiver last) parts.old.manager.plain)) (with_end (Receives (record e { machine = numbered_machine last e.machine })) parts.old.own)) parts.old result parts.new }
{
    let machine = numbered(seat, last);
    let note = Note::SeqSet {
        end: End::Receiver,
        last,
    };
    match hardened_in(parts, &seat.channel, &note) {
        Err(NoMemory) => Err(NoMemory),
        Ok(told) => {
            keep_receiver(parts, &told, seat.cable, machine, false);
            Ok(Worked {
                told,
                refusal: None,
            })
        }
    }
}

/// RESET of a receiver's end: the last number becomes the given one less 1.
#[tactic(auto, using(crate::proofs::SeatLaws::reset_refused, crate::proofs::SeatLaws::reset_done, crate::proofs::SeatLaws::reset_low))]
pub fn reset_receiver<D: Disk>(
    parts: &mut NodeParts<D>,
    seat: &Seat,
    number: u32,
    limits: &Limits,
) -> Result<Worked, NoMemory>
    requires up { IsUp parts.old.manager.plain }
    requires limits { limits.now ≡ limits_here seat.now.channel (node_in parts.old) }
    ensures { (e : nodes.ReceiverEnd) → IsSeat seat.now e parts.old.own → Works (reset_end number (Some (Receives e)) (node_in parts.old)) parts.old result parts.new }
{
    match unset(seat, number, limits) {
        Some(reason) => Ok(refused(parts.alloc, reason)),
        None => set_last(parts, seat, number - 1),
    }
}
