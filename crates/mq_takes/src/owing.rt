//! A receiver's turn that offers the frame which it owes.
ghost use Rattle.std.specs.Prelude.{◌≡◌, ◌+◌, ◌<◌, ◌^◌, Some};
ghost use Rattle.mq_takes.specs.Words as words;

use crate::lifting::{cable_of, put_back};
use mq_base::NoMemory;
use mq_cable::{Offers, Wire};
use mq_disk::Disk;
use mq_frame::Seen;
use mq_history::Actor;
use mq_own::{EndKind, ReceiverEnd};
use mq_receiver::{Owed, ReceiverDoes, ReceiverOut};
use mq_turn_parts::below::NodeParts;
use mq_turn_parts::{Passed, Turn, end_turn, nothing_done};
use mq_wires::offer;

/// The frame that was owed is offered.
fn pay(end: &mut ReceiverEnd)
    ensures { end.new ≡ words.paid end.old }
{
    end.machine.done(&ReceiverDoes::PushOwed, &Seen::Nothing, &ReceiverOut::Done);
}

/// The turn of a receiver's end that was lifted out of its place, in room that is there: the frame which it owes is offered, whatever
/// waits. Still where the cable refuses it; nothing has changed then. The end stands in its place behind it.
///
/// # Errors
///
/// No memory; nothing has changed, and the end stands in its place.
#[tactic(auto, using(crate::proofs::TakeLaws::take_low))]
pub(crate) fn owed_turn<D: Disk, W: Wire>(
    parts: &mut NodeParts<D>,
    offers: &mut Offers,
    wire: &mut W,
    end: ReceiverEnd,
    owed: Owed,
) -> Result<Turn, NoMemory>
    requires may { words.MayTakeTurn end parts.old }
    requires owes { end.machine.owes ≡ Some owed }
    requires count { offers.old.number < 2 ^ 48 }
    ensures { words.ReceivesTurn end.cable (λ xs. W.reads wire.old xs wire.new) (λ xs. W.writes wire.old xs wire.new) (Unit {0}) (W.was_full wire.old wire.new) offers.old offers.new (words.whole end parts.old) result parts.new }
{
    let frame = owed.frame(parts.stamp + 1);
    let mut last = end;
    match offer(parts.alloc, &frame, offers, wire) {
        Err(NoMemory) => {
            put_back(parts, last);
            Err(NoMemory)
        }
        Ok(None) => {
            put_back(parts, last);
            Ok(Turn::Still)
        }
        Ok(Some(extras)) => {
            let cable = cable_of(&last);
            let told = nothing_done(parts.alloc);
            pay(&mut last);
            let passed = Passed {
                stamp: frame.stamp,
                pushed: Some(frame),
                extras,
                popped: Seen::Nothing,
            };
            let kind = EndKind::Receives(last);
            end_turn(parts, Actor::Receiver(cable), told, kind, passed);
            Ok(Turn::Changed)
        }
    }
}
