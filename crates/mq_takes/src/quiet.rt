//! A receiver's turn that takes an item and changes no more than the end.
ghost use Rattle.std.specs.Prelude.{◌≡◌, ◌==◌, ◌+◌, ◌<◌, ◌^◌, [], ◌∷◌, ◌++◌, if◌then◌else◌, max, Ok, Some, IfOk, OnOk, OnErr};
ghost use Rattle.mq_takes.specs.Words as words;
ghost use Rattle.mq_frame.specs.declared.frame.Seen.TheVariants as items;
ghost use Rattle.mq_spec_node.specs.Words.{ReceiverEnd as End};
ghost use Rattle.mq_turn_parts.specs.declared.telling.Turn.TheVariants as turns;

use crate::lifting::{cable_of, put_back};
use mq_base::NoMemory;
use mq_cable::Wire;
use mq_calls::Messages;
use mq_disk::Disk;
use mq_frame::{FrameKind, Seen};
use mq_history::Actor;
use mq_message::{Bytes, Dest, Message};
use mq_own::{EndKind, ReceiverEnd};
use mq_receiver::{ReceiverDoes, ReceiverOut};
use mq_turn_parts::below::NodeParts;
use mq_turn_parts::{Passed, Turn, end_turn, nothing_done, pass};
use mq_wires::{Sight, next_stamp};
use std::alloc::Global;

/// A message, with the names that came with it.
fn routed(alloc: Global, dest: &Dest, message: &Message) -> Result<Message, NoMemory>
    ensures { IfOk result (λ m. m ≡ record message.now { route = Some dest.now }) }
{
    match Bytes::from_slice(alloc, message.body.as_slice()) {
        Err(_) => Err(NoMemory),
        Ok(body) => Ok(Message {
            ident: message.ident,
            md: message.md,
            route: Some(Dest {
                queue: dest.queue,
                qmgr: dest.qmgr,
            }),
            deadline: message.deadline,
            body,
        }),
    }
}

/// Message 1 begins a unit, the next ones come behind it.
fn keep_message(
    alloc: Global,
    kept: &mut Messages,
    index: u32,
    message: Message,
) -> Result<(), NoMemory>
    ensures ok { OnOk result (kept.new ≡ (if index == 1 then message ∷ [] else kept.old ++ message ∷ [])) }
    ensures err { OnErr result (kept.new ≡ kept.old) }
{
    if index != 1 {
        return match kept.push(message) {
            Ok(()) => Ok(()),
            Err(_) => Err(NoMemory),
        };
    }
    let mut fresh = Messages::new(alloc);
    match fresh.push(message) {
        Err(_) => Err(NoMemory),
        Ok(()) => {
            *kept = fresh;
            Ok(())
        }
    }
}

fn keep_kind(alloc: Global, kept: &mut Messages, kind: &FrameKind) -> Result<(), NoMemory>
    ensures ok { OnOk result (kept.new ≡ words.kept_kind kind.now kept.old) }
    ensures err { OnErr result (kept.new ≡ kept.old) }
{
    match kind {
        FrameKind::Msg {
            index,
            dest,
            message,
            ..
        } => match routed(alloc, dest, message) {
            Err(NoMemory) => Err(NoMemory),
            Ok(message) => keep_message(alloc, kept, *index, message),
        },
        FrameKind::Bind { .. } => Ok(()),
        FrameKind::Status { .. } => Ok(()),
        FrameKind::End { .. } => Ok(()),
        FrameKind::Ack { .. } => Ok(()),
        FrameKind::Err { .. } => Ok(()),
    }
}

/// The message that was seen is kept.
fn keep_seen(alloc: Global, kept: &mut Messages, seen: &Seen) -> Result<(), NoMemory>
    ensures ok { OnOk result (kept.new ≡ words.kept_seen seen.now kept.old) }
    ensures err { OnErr result (kept.new ≡ kept.old) }
{
    match seen {
        Seen::Frame(frame) => keep_kind(alloc, kept, &frame.kind),
        Seen::Nothing => Ok(()),
        Seen::Spoiled => Ok(()),
    }
}

/// The messages that are kept after a line.
fn keep_by(
    alloc: Global,
    kept: &mut Messages,
    does: &ReceiverDoes,
    seen: &Seen,
) -> Result<(), NoMemory>
    ensures ok { OnOk result (kept.new ≡ words.kept_after does.now seen.now kept.old) }
    ensures err { OnErr result (kept.new ≡ kept.old) }
{
    match does {
        ReceiverDoes::Keep => keep_seen(alloc, kept, seen),
        ReceiverDoes::Still => Ok(()),
        ReceiverDoes::Ignore => Ok(()),
        ReceiverDoes::PushOwed => Ok(()),
        ReceiverDoes::Bind => Ok(()),
        ReceiverDoes::Place(_) => Ok(()),
        ReceiverDoes::Again => Ok(()),
        ReceiverDoes::Close => Ok(()),
    }
}

/// The end after a line.
fn step(
    alloc: Global,
    end: &mut ReceiverEnd,
    does: &ReceiverDoes,
    seen: &Seen,
) -> Result<(), NoMemory>
    ensures ok { OnOk result (end.new ≡ words.end_after end.old does.now seen.now) }
    ensures err { OnErr result (end.new ≡ end.old) }
{
    match keep_by(alloc, &mut end.kept, does, seen) {
        Err(NoMemory) => Err(NoMemory),
        Ok(()) => {
            end.machine.done(does, seen, &ReceiverOut::Done);
            Ok(())
        }
    }
}

/// The item that was seen is taken, and this end stands in its place. It takes no memory.
fn leave<D: Disk, W: Wire>(parts: &mut NodeParts<D>, wire: &mut W, last: ReceiverEnd, sight: Sight)
    requires room { 0 < parts.old.room }
    requires stamp { parts.old.stamp < 2 ^ 60 }
    requires saw { words.HasSeen (W.front_of wire.old) sight.seen sight.stamp }
    ensures { (o : words.Offering) (e : End) → words.Leaves e last (max parts.old.stamp sight.stamp + 1) sight.seen (words.whole e parts.old) → words.ReceivesTurn e.cable (λ xs. W.reads wire.old xs wire.new) (λ xs. W.writes wire.old xs wire.new) (sight.seen ≡ items.Nothing) ⊥ o o (words.whole e parts.old) (Ok turns.Changed) parts.new }
{
    let stamp = next_stamp(parts.stamp, sight.stamp);
    let cable = cable_of(&last);
    let told = nothing_done(parts.alloc);
    pass(wire, &sight);
    let passed = Passed {
        stamp,
        pushed: None,
        extras: 0,
        popped: sight.seen,
    };
    let kind = EndKind::Receives(last);
    end_turn(parts, Actor::Receiver(cable), told, kind, passed);
}

/// The turn of a line that changes no more than the end.
pub(crate) fn quiet_turn<D: Disk, W: Wire>(
    parts: &mut NodeParts<D>,
    wire: &mut W,
    end: ReceiverEnd,
    does: ReceiverDoes,
    sight: Sight,
) -> Result<Turn, NoMemory>
    requires may { words.MayTakeTurn end parts.old }
    requires quiet { words.IsQuietLine does }
    requires next { does ≡ words.receiver_next end.machine sight.seen (words.is_receiver_defined end.channel parts.old.manager.plain.definitions) }
    requires saw { words.HasSeen (W.front_of wire.old) sight.seen sight.stamp }
    ensures { words.TakesOver W.Wire wire.old wire.new end sight.seen parts.old result parts.new }
{
    let mut last = end;
    match step(parts.alloc, &mut last, &does, &sight.seen) {
        Err(NoMemory) => {
            put_back(parts, last);
            Err(NoMemory)
        }
        Ok(()) => {
            leave(parts, wire, last, sight);
            Ok(Turn::Changed)
        }
    }
}
