//! A receiver's turn that commits its latest unit.
ghost use Rattle.std.specs.Prelude.{◌≡◌, IfOk};
ghost use Rattle.mq_takes.specs.Words as words;
ghost use Rattle.mq_receiver.specs.declared.turns.ReceiverDoes.TheVariants as does_what;

use crate::closing::end_emptied;
use crate::lifting::put_back;
use crate::receiving::{CommitTold, commit_in};
use crate::taking::taken;
use crate::working::work_done;
use mq_base::NoMemory;
use mq_cable::Wire;
use mq_calls::Messages;
use mq_disk::Disk;
use mq_frame::{FrameKind, Seen};
use mq_own::ReceiverEnd;
use mq_receiver::{ReceiverDoes, ReceiverOut};
use mq_sync::Unit as Luw;
use mq_turn_parts::Turn;
use mq_turn_parts::below::NodeParts;
use mq_wires::Sight;

/// END's last sequence number; the one that there is where it is none.
fn seen_last(seen: &Seen, last: u32) -> u32
    ensures { result ≡ words.last_by seen.now last }
{
    match seen {
        Seen::Frame(frame) => match &frame.kind {
            FrameKind::End { last, .. } => *last,
            _ => last,
        },
        _ => last,
    }
}

fn last_number(end: &ReceiverEnd, seen: &Seen) -> u32
    ensures { result ≡ words.last_by seen.now end.now.machine.last }
{
    seen_last(seen, end.machine.last)
}

/// So at a node.
fn taken_in<D: Disk>(parts: &NodeParts<D>, end: &ReceiverEnd) -> Result<Messages, NoMemory>
    requires up { words.IsUp parts.now.manager.plain }
    ensures { IfOk result (λ ms. words.TakesAll end.now.kept parts.now.manager.plain ms) }
{
    taken(&parts.manager, end)
}

/// So, with copies of the messages that it takes.
fn commit_turn<D: Disk, W: Wire>(
    parts: &mut NodeParts<D>,
    wire: &mut W,
    end: ReceiverEnd,
    unit: Luw,
    received: Messages,
    sight: Sight,
) -> Result<Turn, NoMemory>
    requires may { words.MayTakeTurn end parts.old }
    requires few { words.IsLow parts.old }
    requires takes { words.TakesAll end.kept parts.old.manager.plain received }
    requires next { does_what.Place unit ≡ words.receiver_next end.machine sight.seen (words.is_receiver_defined end.channel parts.old.manager.plain.definitions) }
    requires saw { words.HasSeen (W.front_of wire.old) sight.seen sight.stamp }
    ensures { words.TakesOver W.Wire wire.old wire.new end sight.seen parts.old result parts.new }
{
    let number = last_number(&end, &sight.seen);
    match commit_in(parts, &end, &unit, number) {
        Err(NoMemory) => {
            put_back(parts, end);
            Err(NoMemory)
        }
        Ok(CommitTold::Placed(told)) => {
            let does = ReceiverDoes::Place(unit);
            let last = end_emptied(parts.alloc, &end, &does, &sight.seen, &ReceiverOut::Done);
            put_back(parts, end);
            work_done(parts, wire, last, told, received, sight);
            Ok(Turn::Changed)
        }
        Ok(CommitTold::Refused(reason, told)) => {
            let does = ReceiverDoes::Place(unit);
            let out = ReceiverOut::Refused(reason.number());
            let last = end_emptied(parts.alloc, &end, &does, &sight.seen, &out);
            put_back(parts, end);
            let none = Messages::new(parts.alloc);
            work_done(parts, wire, last, told, none, sight);
            Ok(Turn::Changed)
        }
    }
}

/// The turn in which END of the latest unit commits it: its messages are placed, and an ACK is owed; or the batch is refused, its
/// session closed, and an ERR owed.
pub(crate) fn placing_turn<D: Disk, W: Wire>(
    parts: &mut NodeParts<D>,
    wire: &mut W,
    end: ReceiverEnd,
    unit: Luw,
    sight: Sight,
) -> Result<Turn, NoMemory>
    requires may { words.MayTakeTurn end parts.old }
    requires few { words.IsLow parts.old }
    requires next { does_what.Place unit ≡ words.receiver_next end.machine sight.seen (words.is_receiver_defined end.channel parts.old.manager.plain.definitions) }
    requires saw { words.HasSeen (W.front_of wire.old) sight.seen sight.stamp }
    ensures { words.TakesOver W.Wire wire.old wire.new end sight.seen parts.old result parts.new }
{
    match taken_in(parts, &end) {
        Err(NoMemory) => {
            put_back(parts, end);
            Err(NoMemory)
        }
        Ok(received) => commit_turn(parts, wire, end, unit, received, sight),
    }
}
