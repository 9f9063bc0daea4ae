//! The end of a receiver's turn that works at its manager.
ghost use Rattle.std.specs.Prelude.{◌≡◌, ◌+◌, ◌<◌, ◌^◌, List, max, Ok};
ghost use Rattle.mq_takes.specs.Words as words;
ghost use Rattle.mq_frame.specs.declared.frame.Seen.TheVariants as items;
ghost use Rattle.mq_spec_node.specs.Words.{ReceiverEnd as End};
ghost use Rattle.mq_turn_parts.specs.declared.telling.Turn.TheVariants as turns;

use crate::lifting::cable_of;
use mq_cable::Wire;
use mq_calls::Messages;
use mq_disk::Disk;
use mq_history::{Actor, Call};
use mq_own::{ChannelEnd, EndKind, ReceiverEnd};
use mq_turn_parts::below::{NodeParts, Told};
use mq_turn_parts::{Passed, close_turn, pass};
use mq_wires::{Sight, next_stamp};

/// The item that was seen is taken, and what was done at the manager is told; where all was done this end stands in its place. It
/// takes no memory.
pub(crate) fn work_done<D: Disk, W: Wire>(
    parts: &mut NodeParts<D>,
    wire: &mut W,
    last: ReceiverEnd,
    told: Told,
    received: Messages,
    sight: Sight,
)
    requires room { 0 < parts.old.room }
    requires stamp { parts.old.stamp < 2 ^ 60 }
    requires saw { words.HasSeen (W.front_of wire.old) sight.seen sight.stamp }
    ensures { (o : words.Offering) (e : End) (s : words.NodeState) (ps : List words.Part) → words.Works e last ps received sight.seen (max s.stamp sight.stamp + 1) told.choice told.delta s parts.old → words.ReceivesTurn e.cable (λ xs. W.reads wire.old xs wire.new) (λ xs. W.writes wire.old xs wire.new) (sight.seen ≡ items.Nothing) ⊥ o o s (Ok turns.Changed) parts.new }
{
    let stamp = next_stamp(parts.stamp, sight.stamp);
    let cable = cable_of(&last);
    pass(wire, &sight);
    let passed = Passed {
        stamp,
        pushed: None,
        extras: 0,
        popped: sight.seen,
    };
    let kind = EndKind::Receives(last);
    close_turn(
        parts,
        Actor::Receiver(cable),
        Call::Turn,
        told,
        ChannelEnd { kind },
        passed,
        received,
    );
}
