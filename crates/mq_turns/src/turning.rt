//! A sender's turn.
ghost use Rattle.std.specs.Prelude.{◌≡◌, ◌<◌, ◌^◌, [], false, IfSome, MatchOption};
ghost use Rattle.mq_frame.specs.Sight.{waits};
ghost use Rattle.mq_frame.specs.declared.frame.Seen.TheVariants as items;
ghost use Rattle.mq_history.specs.declared.calls.Actor.TheVariants as actors;
ghost use Rattle.mq_sender.specs.Table.{is_idle, sender_next};
ghost use Rattle.mq_spec_manager.specs.Agents.{IsUp, stock};
ghost use Rattle.mq_turn_parts.specs.from_events.Counts.{IsNode};
ghost use Rattle.mq_turn_parts.specs.from_events.Events.{MayAct};
ghost use Rattle.mq_turn_parts.specs.from_events.States.{IsKept, IsServed};
ghost use Rattle.mq_turn_parts.specs.Acting.{Acts, MayTurn};
ghost use Rattle.mq_turn_parts.specs.OverWire.{EndsOver, FoundNothing, HasSeen, SendsOver};
ghost use Rattle.mq_turns.specs.Sends.{IsOwn};
ghost use Rattle.mq_turns.specs.Turning.{IsHere, NeverActs, SendsAt};
ghost use Rattle.mq_turn_parts.specs.Unseen.{EndTurn};

use crate::answering::{answering_turn, next_line};
use crate::asking::has_seized;
use crate::beginning::begin_turn;
use crate::preparing::prepare_turn;
use crate::pushing::{message_turn, spelling_turn};
use crate::settling::settling_turn;
use mq_base::NoMemory;
use mq_cable::{Offers, Wire};
use mq_cabled::sender_of;
use mq_disk::Disk;
use mq_frame::Seen;
use mq_own::SenderEnd;
use mq_sender::{Sender, SenderDoes, SenderState};
use mq_sync::Stock;
use mq_turn_parts::Turn;
use mq_turn_parts::below::{Manager, Node, NodeParts};
use mq_wires::{Sight, see};

fn is_idle(machine: &Sender) -> bool
    ensures { result ≡ is_idle machine.now.state }
{
    matches!(machine.state, SenderState::Running)
}

/// An item waits.
fn waits(seen: &Seen) -> bool
    ensures { result ≡ waits seen.now }
{
    match seen {
        Seen::Nothing => false,
        Seen::Spoiled => true,
        Seen::Frame(_) => true,
    }
}

/// What a sender sees of its queue, where that makes a difference; none where it runs and has not seized it, which never comes.
#[tactic(auto, using(crate::proofs::TableLaws::stock_same))]
fn stock_seen<D: Disk>(manager: &Manager<D>, end: &SenderEnd) -> Option<Stock>
    requires up { IsUp manager.now.plain }
    ensures { IfSome result (λ s. sender_next end.now.machine items.Nothing s ≡ sender_next end.now.machine items.Nothing (stock end.now.channel manager.now.plain)) }
{
    if !is_idle(&end.machine) {
        return Some(Stock {
            enabled: false,
            expired: false,
            free: 0,
        });
    }
    if !has_seized(manager, &end.channel) {
        return None;
    }
    Some(manager.stock(&end.channel))
}

/// The line of a sender for which nothing waits.
fn own_line<D: Disk>(manager: &Manager<D>, end: &SenderEnd) -> Option<SenderDoes>
    requires up { IsUp manager.now.plain }
    ensures { IfSome result (λ d. d ≡ sender_next end.now.machine items.Nothing (stock end.now.channel manager.now.plain)) }
{
    match stock_seen(manager, end) {
        None => None,
        Some(stock) => next_line(&end.machine, &Seen::Nothing, &stock),
    }
}

/// The turn of a line of its own.
#[tactic(auto, using(crate::proofs::LineLaws::seen_next, crate::proofs::SendLaws::bind_deed, crate::proofs::SendLaws::bind_stamp, crate::proofs::SendLaws::end_deed, crate::proofs::SendLaws::end_stamp, crate::proofs::SendLaws::acts_low))]
fn line_turn<D: Disk, W: Wire>(
    parts: &mut NodeParts<D>,
    offers: &mut Offers,
    wire: &mut W,
    end: SenderEnd,
    does: SenderDoes,
    sight: Sight,
) -> Result<Turn, NoMemory>
    requires may { MayTurn end parts.old }
    requires nothing { sight.seen ≡ items.Nothing }
    requires own { IsOwn does }
    requires next { does ≡ sender_next end.machine items.Nothing (stock end.channel parts.old.manager.plain) }
    requires saw { HasSeen (W.front_of wire.old) sight.seen sight.stamp }
    requires count { offers.old.number < 2 ^ 48 }
    ensures { SendsOver W.Wire wire.old wire.new end.cable (Unit {0}) offers.old offers.new parts.old result parts.new }
{
    match does {
        SenderDoes::Still => Ok(Turn::Still),
        SenderDoes::HardenSession(_) => settling_turn(parts, wire, end, does, sight),
        SenderDoes::Expire => settling_turn(parts, wire, end, does, sight),
        SenderDoes::PushBind => {
            let frame = end.machine.bind_frame(parts.stamp + 1);
            spelling_turn(parts, offers, wire, end, does, frame)
        }
        SenderDoes::Begin { n, count } => begin_turn(parts, offers, wire, end, n, count),
        SenderDoes::PushMsg(index) => message_turn(parts, offers, wire, end, index),
        SenderDoes::Prepare => prepare_turn(parts, end),
        SenderDoes::PushEnd => {
            let frame = end.machine.end_frame(parts.stamp + 1);
            spelling_turn(parts, offers, wire, end, does, frame)
        }
        SenderDoes::Ignore
        | SenderDoes::Bound { .. }
        | SenderDoes::Commit
        | SenderDoes::Backout(_) => unreachable!(),
    }
}

/// The turn, by what was seen.
#[tactic(auto, using(crate::proofs::LineLaws::nothing_seen, crate::proofs::LineLaws::own_next))]
fn sighted_turn<D: Disk, W: Wire>(
    parts: &mut NodeParts<D>,
    offers: &mut Offers,
    wire: &mut W,
    end: SenderEnd,
    sight: Sight,
) -> Result<Turn, NoMemory>
    requires may { MayTurn end parts.old }
    requires saw { HasSeen (W.front_of wire.old) sight.seen sight.stamp }
    requires count { offers.old.number < 2 ^ 48 }
    ensures { SendsOver W.Wire wire.old wire.new end.cable (sight.seen ≡ items.Nothing) offers.old offers.new parts.old result parts.new }
{
    if waits(&sight.seen) {
        return answering_turn(parts, wire, end, sight);
    }
    match own_line(&parts.manager, &end) {
        None => Err(NoMemory),
        Some(does) => line_turn(parts, offers, wire, end, does, sight),
    }
}

/// The turn of an end that may act, where its entry's room can be had.
#[tactic(auto, using(crate::proofs::NodeLaws::room_may, mq_turn_parts::proofs::WireLaws::has_seen))]
fn take_turn<D: Disk, W: Wire>(
    parts: &mut NodeParts<D>,
    offers: &mut Offers,
    wire: &mut W,
    end: SenderEnd,
) -> Result<Turn, NoMemory>
    requires acts { Acts end parts.old }
    requires low { W.low wire.old }
    requires count { offers.old.number < 2 ^ 48 }
    ensures { SendsOver W.Wire wire.old wire.new end.cable (FoundNothing W.Wire wire.old wire.new) offers.old offers.new parts.old result parts.new }
{
    if parts.reserve(1).is_err() {
        return Err(NoMemory);
    }
    match see(parts.alloc, wire) {
        Err(NoMemory) => Err(NoMemory),
        Ok(sight) => sighted_turn(parts, offers, wire, end, sight),
    }
}

/// The sender end of a cable, at a manager that is up.
#[tactic(auto, using(crate::proofs::NodeLaws::never_down, crate::proofs::NodeLaws::never_absent))]
fn acting_end<D: Disk>(parts: &NodeParts<D>, cable: u16) -> Option<SenderEnd>
    ensures { MatchOption result (NeverActs cable parts.now) (λ e. IsHere cable e parts.now) }
{
    if !parts.manager.is_up() {
        return None;
    }
    match sender_of(&parts.own, cable) {
        None => None,
        Some(end) => Some(end),
    }
}

/// The turn of the sender end of a cable.
#[tactic(auto, using(crate::proofs::NodeLaws::acts_here))]
fn turn_at<D: Disk, W: Wire>(
    parts: &mut NodeParts<D>,
    offers: &mut Offers,
    wire: &mut W,
    cable: u16,
) -> Result<Turn, NoMemory>
    requires kept { IsKept parts.old }
    requires served { IsServed parts.old }
    requires may { MayAct parts.old }
    requires low { W.low wire.old }
    requires count { offers.old.number < 2 ^ 48 }
    ensures { SendsAt cable (λ xs. W.reads wire.old xs wire.new) (λ xs. W.writes wire.old xs wire.new) ((m : W) × W.was_empty wire.old m × W.reads m [] wire.new) (W.was_full wire.old wire.new) offers.old offers.new parts.old result parts.new }
{
    match acting_end(parts, cable) {
        None => Ok(Turn::Still),
        Some(end) => take_turn(parts, offers, wire, end),
    }
}

/// So, where an entry is set aside for each end of a channel: whichever senders wait for an answer then, a timeout of each has its room.
fn turn_aside<D: Disk, W: Wire>(
    parts: &mut NodeParts<D>,
    offers: &mut Offers,
    wire: &mut W,
    cable: u16,
) -> Result<Turn, NoMemory>
    requires node { IsNode parts.old }
    requires served { IsServed parts.old }
    requires may { MayAct parts.old }
    requires low { W.low wire.old }
    requires count { offers.old.number < 2 ^ 48 }
    ensures node { IsNode parts.new }
    ensures turn { EndsOver W.Wire wire.old wire.new (actors.Sender cable) offers.old offers.new parts.old result parts.new }
{
    match parts.set_aside() {
        Err(NoMemory) => Err(NoMemory),
        Ok(()) => turn_at(parts, offers, wire, cable),
    }
}

/// A turn of the sender end of a cable, as one event: the first line of its table that applies, where an item waits on its wire or none
/// does. The item that waits is taken; else the line is one of the end's own: a session is hardened, BIND is offered, expired rows go, a
/// batch is held and its messages and END are offered one by one, or the batch is prepared. Still exactly where the manager is down, the
/// cable has no sender end here, or nothing waits and nothing is to be done, or a full cable refuses the push; nothing has changed then.
/// A turn whose write is stopped is one, and the manager is down; nothing is offered then.
/// Source: distributed queuing, "What happens when a message is sent"; message channel agents (this project's choice of turns).
///
/// # Errors
///
/// No memory; nothing has changed.
pub fn sender_turn<D: Disk, W: Wire>(
    node: &mut Node<D>,
    offers: &mut Offers,
    wire: &mut W,
    cable: u16,
) -> Result<Turn, NoMemory>
    requires served { IsServed node.old }
    requires may { MayAct node.old }
    requires low { W.low wire.old }
    requires count { offers.old.number < 2 ^ 48 }
    ensures { EndTurn (actors.Sender cable) (λ xs. W.reads wire.old xs wire.new) (λ xs. W.writes wire.old xs wire.new) ((m : W) × W.was_empty wire.old m × W.reads m [] wire.new) (W.was_full wire.old wire.new) offers.old offers.new node.old result node.new }
{
    turn_aside(&mut node.parts, offers, wire, cable)
}
