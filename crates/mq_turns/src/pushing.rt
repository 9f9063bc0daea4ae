//! A sender's turn that offers a frame and does nothing at the manager.
ghost use Rattle.std.specs.Prelude.{◌≡◌, ◌+◌, ◌<◌, ◌^◌, Some, IfOk};
ghost use Rattle.std.specs.Option.{option_map};
ghost use Rattle.mq_frame.specs.Frames.{HasSpelling};
ghost use Rattle.mq_frame.specs.declared.frame.Seen.TheVariants as items;
ghost use Rattle.mq_sender.specs.Table.{sender_next};
ghost use Rattle.mq_sender.specs.declared.turns.SenderDoes.TheVariants as does_what;
ghost use Rattle.mq_spec_manager.specs.Agents.{batch_row, stock};
ghost use Rattle.mq_spec_node.specs.Words.{carried, sender_deed_by};
ghost use Rattle.mq_turn_parts.specs.from_events.States.{node_in};
ghost use Rattle.mq_turn_parts.specs.Acting.{MayTurn};
ghost use Rattle.mq_turn_parts.specs.OverWire.{SendsOver};
ghost use Rattle.mq_turns.specs.Sends.{pushed_deed};

use crate::settling::end_after;
use mq_base::NoMemory;
use mq_cable::{Offers, Wire};
use mq_disk::Disk;
use mq_fill::names_of;
use mq_frame::{Frame, Seen};
use mq_history::Actor;
use mq_message::{Bytes, Message};
use mq_own::{EndKind, SenderEnd};
use mq_sender::SenderDoes;
use mq_turn_parts::below::{Manager, NodeParts};
use mq_turn_parts::{Passed, Turn, end_turn, has_spelling, nothing_done};
use mq_wires::offer;
use std::alloc::Global;

/// A copy of a message without its route.
fn copy_bare(alloc: Global, message: &Message) -> Result<Message, NoMemory>
    ensures { IfOk result (λ m. m ≡ record message.now { route = None }) }
{
    match Bytes::from_slice(alloc, message.body.as_slice()) {
        Err(_) => Err(NoMemory),
        Ok(body) => Ok(Message {
            ident: message.ident,
            md: message.md,
            route: None,
            deadline: message.deadline,
            body,
        }),
    }
}

/// A message as its frame carries it.
fn carry(
    alloc: Global,
    end: &SenderEnd,
    stamp: u64,
    n: u64,
    index: u32,
    message: &Message,
) -> Result<Frame, NoMemory>
    ensures { IfOk result (λ f. f ≡ carried stamp end.now n index message.now) }
{
    let dest = names_of(&message.route);
    match copy_bare(alloc, message) {
        Err(NoMemory) => Err(NoMemory),
        Ok(bare) => Ok(end.machine.message_frame(stamp, n, index, dest, bare)),
    }
}

/// The frame of a message of the batch.
pub fn batch_frame<D: Disk>(
    alloc: Global,
    manager: &Manager<D>,
    end: &SenderEnd,
    stamp: u64,
    n: u64,
    index: u32,
) -> Result<Frame, NoMemory>
    ensures { IfOk result (λ f. option_map (carried stamp end.now n index) (batch_row end.now.channel index manager.now.plain) ≡ Some f) }
{
    match manager.batch_row(&end.channel, index) {
        None => Err(NoMemory),
        Some(message) => carry(alloc, end, stamp, n, index, message),
    }
}

/// The turn that offers a frame which its bytes show. Still where the cable refuses it; nothing has changed then.
fn pushing_turn<D: Disk, W: Wire>(
    parts: &mut NodeParts<D>,
    offers: &mut Offers,
    wire: &mut W,
    end: SenderEnd,
    does: SenderDoes,
    frame: Frame,
) -> Result<Turn, NoMemory>
    requires may { MayTurn end parts.old }
    requires next { does ≡ sender_next end.machine items.Nothing (stock end.channel parts.old.manager.plain) }
    requires deed { sender_deed_by (parts.old.stamp + 1) end does (node_in parts.old) ≡ Some (pushed_deed end does frame (node_in parts.old)) }
    requires stamp { frame.stamp ≡ parts.old.stamp + 1 }
    requires spells { HasSpelling frame.kind }
    requires count { offers.old.number < 2 ^ 48 }
    ensures { SendsOver W.Wire wire.old wire.new end.cable (Unit {0}) offers.old offers.new parts.old result parts.new }
{
    match offer(parts.alloc, &frame, offers, wire) {
        Err(NoMemory) => Err(NoMemory),
        Ok(None) => Ok(Turn::Still),
        Ok(Some(extras)) => {
            let told = nothing_done(parts.alloc);
            let after = end_after(&end, &does);
            let passed = Passed {
                stamp: frame.stamp,
                pushed: Some(frame),
                extras,
                popped: Seen::Nothing,
            };
            let kind = EndKind::Sends(after);
            end_turn(parts, Actor::Sender(end.cable), told, kind, passed);
            Ok(Turn::Changed)
        }
    }
}

/// So of a frame whose bytes may not show it, which no end makes.
pub(crate) fn spelling_turn<D: Disk, W: Wire>(
    parts: &mut NodeParts<D>,
    offers: &mut Offers,
    wire: &mut W,
    end: SenderEnd,
    does: SenderDoes,
    frame: Frame,
) -> Result<Turn, NoMemory>
    requires may { MayTurn end parts.old }
    requires next { does ≡ sender_next end.machine items.Nothing (stock end.channel parts.old.manager.plain) }
    requires deed { sender_deed_by (parts.old.stamp + 1) end does (node_in parts.old) ≡ Some (pushed_deed end does frame (node_in parts.old)) }
    requires stamp { frame.stamp ≡ parts.old.stamp + 1 }
    requires count { offers.old.number < 2 ^ 48 }
    ensures { SendsOver W.Wire wire.old wire.new end.cable (Unit {0}) offers.old offers.new parts.old result parts.new }
{
    if !has_spelling(&frame.kind) {
        return Err(NoMemory);
    }
    pushing_turn(parts, offers, wire, end, does, frame)
}

/// The next message of the batch is offered.
#[tactic(auto, using(crate::proofs::SendLaws::message_deed, crate::proofs::SendLaws::message_stamp, crate::proofs::SendLaws::acts_low))]
pub fn message_turn<D: Disk, W: Wire>(
    parts: &mut NodeParts<D>,
    offers: &mut Offers,
    wire: &mut W,
    end: SenderEnd,
    index: u32,
) -> Result<Turn, NoMemory>
    requires may { MayTurn end parts.old }
    requires next { does_what.PushMsg index ≡ sender_next end.machine items.Nothing (stock end.channel parts.old.manager.plain) }
    requires count { offers.old.number < 2 ^ 48 }
    ensures { SendsOver W.Wire wire.old wire.new end.cable (Unit {0}) offers.old offers.new parts.old result parts.new }
{
    let stamp = parts.stamp + 1;
    match batch_frame(
        parts.alloc,
        &parts.manager,
        &end,
        stamp,
        end.machine.begun,
        index,
    ) {
        Err(NoMemory) => Err(NoMemory),
        Ok(frame) => spelling_turn(parts, offers, wire, end, SenderDoes::PushMsg(index), frame),
    }
}
