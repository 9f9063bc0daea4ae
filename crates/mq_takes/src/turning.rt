//! A receiver's turn, as one call.
ghost use Rattle.std.specs.Prelude.{◌≡◌, ◌<◌, ◌^◌, None, [], true};
ghost use Rattle.mq_takes.specs.Words as words;
ghost use Rattle.mq_history.specs.declared.calls.Actor.TheVariants as actors;

use crate::lifting::{lift, put_back};
use crate::lines::{item_turn, next_line};
use crate::owing::owed_turn;
use crate::placing::placing_turn;
use mq_base::NoMemory;
use mq_cable::{Offers, Wire};
use mq_disk::Disk;
use mq_frame::Seen;
use mq_own::ReceiverEnd;
use mq_receiver::{Owed, ReceiverDoes};
use mq_turn_parts::below::{Node, NodeParts};
use mq_turn_parts::{Turn, is_up};
use mq_wires::{Sight, see};

fn owed_by(end: &ReceiverEnd) -> Option<Owed>
    ensures { result ≡ end.now.machine.owes }
{
    end.machine.owes()
}

/// The next line of the table at a node.
fn line_at<D: Disk>(parts: &NodeParts<D>, end: &ReceiverEnd, seen: &Seen) -> ReceiverDoes
    ensures { result ≡ words.receiver_next end.now.machine seen.now (words.is_receiver_defined end.now.channel parts.now.manager.plain.definitions) }
{
    next_line(&parts.manager, end, seen)
}

/// The turn of an end that owes nothing, by what was seen.
fn sighted_turn<D: Disk, W: Wire>(
    parts: &mut NodeParts<D>,
    wire: &mut W,
    end: ReceiverEnd,
    sight: Sight,
) -> Result<Turn, NoMemory>
    requires may { words.MayTakeTurn end parts.old }
    requires few { words.IsLow parts.old }
    requires owes { end.machine.owes ≡ None }
    requires saw { words.HasSeen (W.front_of wire.old) sight.seen sight.stamp }
    ensures { words.TakesOver W.Wire wire.old wire.new end sight.seen parts.old result parts.new }
{
    match line_at(parts, &end, &sight.seen) {
        ReceiverDoes::Still => {
            put_back(parts, end);
            Ok(Turn::Still)
        }
        ReceiverDoes::PushOwed => unreachable!(),
        ReceiverDoes::Ignore => item_turn(parts, wire, end, ReceiverDoes::Ignore, sight),
        ReceiverDoes::Bind => item_turn(parts, wire, end, ReceiverDoes::Bind, sight),
        ReceiverDoes::Keep => item_turn(parts, wire, end, ReceiverDoes::Keep, sight),
        ReceiverDoes::Place(unit) => placing_turn(parts, wire, end, unit, sight),
        ReceiverDoes::Again => item_turn(parts, wire, end, ReceiverDoes::Again, sight),
        ReceiverDoes::Close => item_turn(parts, wire, end, ReceiverDoes::Close, sight),
    }
}

/// So, by what waits.
fn seen_turn<D: Disk, W: Wire>(
    parts: &mut NodeParts<D>,
    wire: &mut W,
    end: ReceiverEnd,
) -> Result<Turn, NoMemory>
    requires may { words.MayTakeTurn end parts.old }
    requires few { words.IsLow parts.old }
    requires owes { end.machine.owes ≡ None }
    requires low { W.low wire.old }
    ensures { (o : words.Offering) → words.TakesOneOver W.Wire wire.old wire.new end.cable o o (words.whole end parts.old) result parts.new }
{
    match see(parts.alloc, wire) {
        Err(NoMemory) => {
            put_back(parts, end);
            Err(NoMemory)
        }
        Ok(sight) => sighted_turn(parts, wire, end, sight),
    }
}

/// The turn of an end that was lifted out of its place, in room that is there.
fn lifted_turn<D: Disk, W: Wire>(
    parts: &mut NodeParts<D>,
    offers: &mut Offers,
    wire: &mut W,
    end: ReceiverEnd,
) -> Result<Turn, NoMemory>
    requires may { words.MayTakeTurn end parts.old }
    requires few { words.IsLow parts.old }
    requires low { W.low wire.old }
    requires count { offers.old.number < 2 ^ 48 }
    ensures { words.TakesOneOver W.Wire wire.old wire.new end.cable offers.old offers.new (words.whole end parts.old) result parts.new }
{
    match owed_by(&end) {
        Some(owed) => owed_turn(parts, offers, wire, end, owed),
        None => seen_turn(parts, wire, end),
    }
}

/// A turn of the receiver end of a cable at a manager that is up, in room that is there.
fn turn_in_room<D: Disk, W: Wire>(
    parts: &mut NodeParts<D>,
    offers: &mut Offers,
    wire: &mut W,
    cable: u16,
) -> Result<Turn, NoMemory>
    requires room { 0 < parts.old.room }
    requires kept { words.IsKept parts.old }
    requires served { words.IsServed parts.old }
    requires may { words.MayAct parts.old }
    requires up { words.IsUp parts.old.manager.plain }
    requires few { words.IsLow parts.old }
    requires low { W.low wire.old }
    requires count { offers.old.number < 2 ^ 48 }
    ensures { words.TakesOneOver W.Wire wire.old wire.new cable offers.old offers.new parts.old result parts.new }
{
    match lift(parts, cable) {
        None => Ok(Turn::Still),
        Some(end) => lifted_turn(parts, offers, wire, end),
    }
}

/// Whether its manager had few rows when it began.
fn is_few<D: Disk>(parts: &NodeParts<D>) -> bool
    ensures { result ≡ parts.now.spare.few }
{
    parts.few
}

/// A turn of the receiver end of a cable.
fn turn_at<D: Disk, W: Wire>(
    parts: &mut NodeParts<D>,
    offers: &mut Offers,
    wire: &mut W,
    cable: u16,
) -> Result<Turn, NoMemory>
    requires node { words.IsNode parts.old }
    requires served { words.IsServed parts.old }
    requires may { words.MayAct parts.old }
    requires low { W.low wire.old }
    requires count { offers.old.number < 2 ^ 48 }
    ensures { words.TakesOneOver W.Wire wire.old wire.new cable offers.old offers.new parts.old result parts.new }
{
    if !is_up(parts) {
        return Ok(Turn::Still);
    }
    if !is_few(parts) {
        return Err(NoMemory);
    }
    if parts.reserve(1).is_err() {
        return Err(NoMemory);
    }
    turn_in_room(parts, offers, wire, cable)
}

/// A turn of the receiver end of a cable: the frame that it owes is offered, whatever waits; else the item that waits is taken, with
/// what the first line of its table that applies does. Still exactly where the manager is down, the cable has no receiver end here, or
/// nothing waits and nothing is owed, and where the frame is to be pushed now and a full cable refuses it; nothing has changed then. A
/// turn whose write is stopped is one, and the manager is down. `offers` is the direction that the end writes; `wire` writes it too, and
/// reads the other.
/// Source: distributed queuing, message channel agents (the receiving end of a channel; its table is this project's choice).
///
/// # Errors
///
/// No memory; nothing has changed. So it is too where a queue of the manager had more than 2^62 rows as it began.
#[tactic(auto, using(crate::proofs::CountLaws::taken_node))]
pub fn receiver_turn<D: Disk, W: Wire>(
    node: &mut Node<D>,
    offers: &mut Offers,
    wire: &mut W,
    cable: u16,
) -> Result<Turn, NoMemory>
    requires served { words.IsServed node.old }
    requires may { words.MayAct node.old }
    requires low { W.low wire.old }
    requires count { offers.old.number < 2 ^ 48 }
    ensures { words.EndTurn (actors.Receiver cable) (λ xs. W.reads wire.old xs wire.new) (λ xs. W.writes wire.old xs wire.new) ((m : W) × W.was_empty wire.old m × W.reads m [] wire.new) (W.was_full wire.old wire.new) offers.old offers.new node.old result node.new }
{
    turn_at(&mut node.parts, offers, wire, cable)
}
