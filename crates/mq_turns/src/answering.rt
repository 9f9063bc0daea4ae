//! A sender's turn where an item waits.
ghost use Rattle.std.specs.Prelude.{◌≡◌, true, IfSome};
ghost use Rattle.mq_frame.specs.Sight.{waits};
ghost use Rattle.mq_sender.specs.Table.{sender_next};
ghost use Rattle.mq_sender.specs.declared.turns.SenderDoes.TheVariants as does_what;
ghost use Rattle.mq_spec_manager.specs.Agents.{stock};
ghost use Rattle.mq_turn_parts.specs.Acting.{MayTurn};
ghost use Rattle.mq_turn_parts.specs.OverWire.{AnswersOver, HasSeen};
ghost use Rattle.mq_turns.specs.Sends.{is_ignore, unseen};

use crate::settling::settling_turn;
use mq_base::NoMemory;
use mq_cable::Wire;
use mq_disk::Disk;
use mq_frame::Seen;
use mq_history::Actor;
use mq_own::{EndKind, SenderEnd};
use mq_sender::{Sender, SenderDoes};
use mq_sync::Stock;
use mq_turn_parts::below::NodeParts;
use mq_turn_parts::{Passed, Turn, end_turn, nothing_done, pass};
use mq_wires::{Sight, next_stamp};

/// The last number of 64 bits.
const LAST: u64 = u64::MAX;

fn is_ignore(does: &SenderDoes) -> bool
    ensures { result ≡ is_ignore does.now }
{
    match does {
        SenderDoes::Ignore => true,
        SenderDoes::Still => false,
        SenderDoes::HardenSession(_) => false,
        SenderDoes::PushBind => false,
        SenderDoes::Expire => false,
        SenderDoes::Begin { .. } => false,
        SenderDoes::PushMsg(_) => false,
        SenderDoes::Prepare => false,
        SenderDoes::PushEnd => false,
        SenderDoes::Bound { .. } => false,
        SenderDoes::Commit => false,
        SenderDoes::Backout(_) => false,
    }
}

/// The item is taken, and nothing else is done.
#[tactic(auto, using(crate::proofs::SendLaws::acts_low))]
fn ignoring_turn<D: Disk, W: Wire>(
    parts: &mut NodeParts<D>,
    wire: &mut W,
    end: SenderEnd,
    sight: Sight,
) -> Result<Turn, NoMemory>
    requires may { MayTurn end parts.old }
    requires next { does_what.Ignore ≡ sender_next end.machine sight.seen (stock end.channel parts.old.manager.plain) }
    requires saw { HasSeen (W.front_of wire.old) sight.seen sight.stamp }
    ensures { AnswersOver W.Wire wire.old wire.new end.cable sight.seen parts.old result parts.new }
{
    let stamp = next_stamp(parts.stamp, sight.stamp);
    let cable = end.cable;
    let told = nothing_done(parts.alloc);
    pass(wire, &sight);
    let passed = Passed {
        stamp,
        pushed: None,
        extras: 0,
        popped: sight.seen,
    };
    let kind = EndKind::Sends(end);
    end_turn(parts, Actor::Sender(cable), told, kind, passed);
    Ok(Turn::Changed)
}

/// The next line of a sender's table; none where its session or its unit can't be counted on, which never comes.
pub fn next_line(machine: &Sender, seen: &Seen, stock: &Stock) -> Option<SenderDoes>
    ensures { IfSome result (λ d. d ≡ sender_next machine.now seen.now stock.now) }
{
    if machine.kept.session >= LAST || machine.begun >= LAST {
        return None;
    }
    Some(machine.next(seen, stock))
}

/// The turn of what a line answers to an item.
#[tactic(auto, using(crate::proofs::TableLaws::answers_works, crate::proofs::TableLaws::answers_next, crate::proofs::TableLaws::ignores_next))]
fn answer_turn<D: Disk, W: Wire>(
    parts: &mut NodeParts<D>,
    wire: &mut W,
    end: SenderEnd,
    does: SenderDoes,
    sight: Sight,
) -> Result<Turn, NoMemory>
    requires may { MayTurn end parts.old }
    requires waits { waits sight.seen ≡ true }
    requires next { does ≡ sender_next end.machine sight.seen unseen }
    requires saw { HasSeen (W.front_of wire.old) sight.seen sight.stamp }
    ensures { AnswersOver W.Wire wire.old wire.new end.cable sight.seen parts.old result parts.new }
{
    if is_ignore(&does) {
        return ignoring_turn(parts, wire, end, sight);
    }
    settling_turn(parts, wire, end, does, sight)
}

/// The turn where an item waits: it is taken, with what its line does at the manager. What is seen of the queue makes no difference.
pub fn answering_turn<D: Disk, W: Wire>(
    parts: &mut NodeParts<D>,
    wire: &mut W,
    end: SenderEnd,
    sight: Sight,
) -> Result<Turn, NoMemory>
    requires may { MayTurn end parts.old }
    requires waits { waits sight.seen ≡ true }
    requires saw { HasSeen (W.front_of wire.old) sight.seen sight.stamp }
    ensures { AnswersOver W.Wire wire.old wire.new end.cable sight.seen parts.old result parts.new }
{
    let unseen = Stock {
        enabled: false,
        expired: false,
        free: 0,
    };
    match next_line(&end.machine, &sight.seen, &unseen) {
        None => Err(NoMemory),
        Some(does) => answer_turn(parts, wire, end, does, sight),
    }
}
