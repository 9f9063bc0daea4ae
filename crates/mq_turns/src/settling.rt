//! A sender's turn that hardens a record or removes expired rows: it offers nothing, and pops what was seen, if anything was.
ghost use Rattle.std.specs.Prelude.{◌≡◌};
ghost use Rattle.mq_sender.specs.Table.{sender_next};
ghost use Rattle.mq_sender.specs.After.{done_after};
ghost use Rattle.mq_spec_manager.specs.Agents.{stock};
ghost use Rattle.mq_turn_parts.specs.Acting.{MayTurn};
ghost use Rattle.mq_turn_parts.specs.OverWire.{AnswersOver, HasSeen};
ghost use Rattle.mq_turns.specs.Sends.{Works};

use crate::working::work_in;
use mq_base::NoMemory;
use mq_cable::Wire;
use mq_disk::Disk;
use mq_history::Actor;
use mq_own::{EndKind, SenderEnd};
use mq_sender::{SenderDoes, SenderOut};
use mq_turn_parts::below::NodeParts;
use mq_turn_parts::{Passed, Turn, end_turn, pass};
use mq_wires::{Sight, next_stamp};

/// The end after a line of its table.
pub fn end_after(end: &SenderEnd, does: &SenderDoes) -> SenderEnd
    ensures { result ≡ record end.now { machine = done_after end.now.machine does.now } }
{
    let mut machine = end.machine;
    machine.done(does, &SenderOut::Done);
    SenderEnd {
        cable: end.cable,
        channel: end.channel,
        partner: end.partner,
        machine,
    }
}

/// The turn of a line that works at the manager.
#[tactic(auto, using(crate::proofs::SendLaws::acts_low))]
pub fn settling_turn<D: Disk, W: Wire>(
    parts: &mut NodeParts<D>,
    wire: &mut W,
    end: SenderEnd,
    does: SenderDoes,
    sight: Sight,
) -> Result<Turn, NoMemory>
    requires may { MayTurn end parts.old }
    requires next { does ≡ sender_next end.machine sight.seen (stock end.channel parts.old.manager.plain) }
    requires works { Works does }
    requires saw { HasSeen (W.front_of wire.old) sight.seen sight.stamp }
    ensures { AnswersOver W.Wire wire.old wire.new end.cable sight.seen parts.old result parts.new }
{
    let stamp = next_stamp(parts.stamp, sight.stamp);
    let after = end_after(&end, &does);
    let running = after.machine.is_running();
    match work_in(parts, &end, &does, running) {
        Err(NoMemory) => Err(NoMemory),
        Ok(told) => {
            pass(wire, &sight);
            let passed = Passed {
                stamp,
                pushed: None,
                extras: 0,
                popped: sight.seen,
            };
            let kind = EndKind::Sends(after);
            end_turn(parts, Actor::Sender(end.cable), told, kind, passed);
            Ok(Turn::Changed)
        }
    }
}
