//! A sender's turn that begins a unit: the batch is held, and its first message is offered.
ghost use Rattle.std.specs.Prelude.{◌≡◌, ◌<◌, ◌≤◌, ◌^◌, [], Some};
ghost use Rattle.std.specs.Option.{option_map};
ghost use Rattle.mq_frame.specs.declared.frame.Seen.TheVariants as items;
ghost use Rattle.mq_sender.specs.Table.{sender_next};
ghost use Rattle.mq_sender.specs.declared.turns.SenderDoes.TheVariants as does_what;
ghost use Rattle.mq_spec_manager.specs.Agents.{HasBatch, IsUp, batch_row, stock};
ghost use Rattle.mq_spec_node.specs.Words.{carried};
ghost use Rattle.mq_turn_parts.specs.Acting.{MayTurn};
ghost use Rattle.mq_turns.specs.Begins.{Begins, FirstTold};
ghost use Rattle.mq_turn_parts.specs.OverWire.{SendsOver};

use crate::holding::{give_up_at, held_in};
use crate::pushing::batch_frame;
use crate::settling::end_after;
use mq_base::NoMemory;
use mq_cable::{Offers, Wire};
use mq_disk::Disk;
use mq_frame::{Frame, Seen};
use mq_history::Actor;
use mq_own::{EndKind, SenderEnd};
use mq_sender::SenderDoes;
use mq_turn_parts::below::{NodeParts, Told};
use mq_turn_parts::{Passed, Turn, end_turn, has_spelling};
use mq_wires::offer;
use std::alloc::Global;

/// What the offer of a unit's first message comes to.
#[derive(Drop)]
pub enum First {
    /// There was no memory.
    Wants,
    /// The cable refused it.
    Refused,
    /// It was offered, and so many extra items were pushed behind it.
    Offered { frame: Frame, extras: u32 },
}

/// A frame is offered.
#[tactic(auto, using(crate::proofs::BeginLaws::first_wants))]
fn offer_first<W: Wire>(alloc: Global, offers: &mut Offers, wire: &mut W, frame: Frame) -> First
    requires stamp { frame.stamp ≤ 2 ^ 60 }
    requires count { offers.old.number < 2 ^ 48 }
    ensures told { FirstTold (λ xs. W.writes wire.old xs wire.new) (W.was_full wire.old wire.new) offers.old (Some frame) result offers.new }
    ensures read { W.reads wire.old [] wire.new }
{
    if !has_spelling(&frame.kind) {
        return First::Wants;
    }
    match offer(alloc, &frame, offers, wire) {
        Err(NoMemory) => First::Wants,
        Ok(None) => First::Refused,
        Ok(Some(extras)) => First::Offered { frame, extras },
    }
}

/// The first message of the batch that is held is offered.
#[tactic(auto, using(crate::proofs::BeginLaws::first_low, crate::proofs::BeginLaws::first_wants))]
fn first_offer<D: Disk, W: Wire>(
    parts: &NodeParts<D>,
    offers: &mut Offers,
    wire: &mut W,
    end: &SenderEnd,
    stamp: u64,
    n: u64,
) -> First
    requires stamp { stamp ≤ 2 ^ 60 }
    requires count { offers.old.number < 2 ^ 48 }
    ensures told { FirstTold (λ xs. W.writes wire.old xs wire.new) (W.was_full wire.old wire.new) offers.old (option_map (carried stamp end.now n 1) (batch_row end.now.channel 1 parts.now.manager.plain)) result offers.new }
    ensures read { W.reads wire.old [] wire.new }
{
    match batch_frame(parts.alloc, &parts.manager, end, stamp, n, 1) {
        Err(NoMemory) => First::Wants,
        Ok(frame) => offer_first(parts.alloc, offers, wire, frame),
    }
}

/// The turn that begins a unit, whose batch was held just now. Where its first message isn't offered, the batch is given up.
fn begun_turn<D: Disk, W: Wire>(
    parts: &mut NodeParts<D>,
    offers: &mut Offers,
    wire: &mut W,
    end: SenderEnd,
    stamp: u64,
    n: u64,
    count: u32,
    told: Told,
) -> Result<Turn, NoMemory>
    requires room { 0 < parts.old.room }
    requires up { IsUp parts.old.manager.plain }
    requires batch { HasBatch end.channel parts.old.manager.plain }
    requires stamp { stamp ≤ 2 ^ 60 }
    requires count { offers.old.number < 2 ^ 48 }
    ensures { Begins end n count stamp told.choice told.delta parts.old (λ s. SendsOver W.Wire wire.old wire.new end.cable (Unit {0}) offers.old offers.new s result parts.new) }
{
    let after = end_after(&end, &SenderDoes::Begin { n, count });
    match first_offer(parts, offers, wire, &end, stamp, n) {
        First::Wants => {
            give_up_at(parts, &end.channel);
            Err(NoMemory)
        }
        First::Refused => {
            give_up_at(parts, &end.channel);
            Ok(Turn::Still)
        }
        First::Offered { frame, extras } => {
            let passed = Passed {
                stamp: frame.stamp,
                pushed: Some(frame),
                extras,
                popped: Seen::Nothing,
            };
            let kind = EndKind::Sends(after);
            end_turn(parts, Actor::Sender(end.cable), told, kind, passed);
            Ok(Turn::Changed)
        }
    }
}

/// The turn that begins a unit: its batch is held, and its first message is offered. Still where the cable refuses it; nothing has
/// changed then.
#[tactic(auto, using(crate::proofs::SendLaws::acts_low))]
pub fn begin_turn<D: Disk, W: Wire>(
    parts: &mut NodeParts<D>,
    offers: &mut Offers,
    wire: &mut W,
    end: SenderEnd,
    n: u64,
    count: u32,
) -> Result<Turn, NoMemory>
    requires may { MayTurn end parts.old }
    requires next { does_what.Begin n count ≡ sender_next end.machine items.Nothing (stock end.channel parts.old.manager.plain) }
    requires count { offers.old.number < 2 ^ 48 }
    ensures { SendsOver W.Wire wire.old wire.new end.cable (Unit {0}) offers.old offers.new parts.old result parts.new }
{
    let stamp = parts.stamp + 1;
    let unit = mq_sync::Unit {
        session: end.machine.kept.session,
        n,
    };
    match held_in(parts, &end.channel, &unit, count) {
        Err(NoMemory) => Err(NoMemory),
        Ok(told) => begun_turn(parts, offers, wire, end, stamp, n, count, told),
    }
}
