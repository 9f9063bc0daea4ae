//! The entry of a turn, and what a node's own is behind it.
ghost use Rattle.std.specs.Prelude.{◌≡◌, ◌<◌, []};
ghost use Rattle.mq_history.specs.declared.calls.Call.TheVariants as calls;
ghost use Rattle.mq_spec_node.specs.Words.{with_end};
ghost use Rattle.mq_own.specs.Views.{end_of};
ghost use Rattle.mq_events.specs.States.{with_entry};
ghost use Rattle.mq_turn_parts.specs.Turns.{own_by, reply_for, turn_entry};
ghost use Rattle.mq_turn_parts.specs.Told.{Closes};

use crate::parting::has_run;
use mq_cabled::set_end;
use mq_calls::{Choice, Messages};
use mq_disk::Disk;
use mq_events::{NodeParts, Told};
use mq_frame::{Frame, Seen};
use mq_history::{Actor, Call, Chance, Effect, Entry, Reply};
use mq_own::{ChannelEnd, EndKind};

/// What came of a turn or of a timeout.
#[derive(Clone, Copy)]
pub enum Turn {
    /// An event was made.
    Changed,
    /// Nothing was to be done, or a full cable refused the push; nothing has changed.
    Still,
}

/// What passed on a wire in a turn.
#[derive(Drop)]
pub struct Passed {
    /// The entry's stamp.
    pub stamp: u64,
    /// The frame that was offered.
    pub pushed: Option<Frame>,
    /// How many extra items were pushed behind it.
    pub extras: u32,
    /// What was popped.
    pub popped: Seen,
}

fn reply_for(choice: &Choice) -> Reply
    ensures { result ≡ reply_for choice.now }
{
    match choice {
        Choice::Runs => Reply::Changed,
        Choice::NoMemory => Reply::Changed,
        Choice::Stopped { by, .. } => Reply::Stopped(*by),
    }
}

/// The entry of a turn or of a timeout, in room that is there.
pub fn tell_turn<D: Disk>(
    parts: &mut NodeParts<D>,
    actor: Actor,
    call: Call,
    told: Told,
    passed: Passed,
    received: Messages,
)
    requires room { 0 < parts.old.room }
    ensures { parts.new ≡ with_entry (turn_entry actor call told.choice told.delta passed received) parts.old }
{
    let Passed {
        stamp,
        pushed,
        extras,
        popped,
    } = passed;
    let Told { choice, delta } = told;
    parts.add(Entry {
        stamp,
        actor,
        call,
        chance: Chance::Call(choice),
        reply: reply_for(&choice),
        effect: Effect {
            delta,
            pushed,
            extras,
            popped,
            received,
        },
    });
}

/// The end after a turn, and handlers that have forgotten rows that went, where all was done. It takes no memory.
pub fn keep_end<D: Disk>(parts: &mut NodeParts<D>, told: &Told, end: ChannelEnd)
    ensures { parts.new ≡ record parts.old { own = own_by told.now.choice told.now.delta (with_end end parts.old.own) parts.old.own } }
{
    if has_run(told) {
        set_end(&mut parts.own, end);
        parts.own.forget_rows(told.delta.as_slice());
    }
}

/// Closes a turn or a timeout: the end after it, and its entry, in room that is there. It takes no memory.
#[tactic(auto, using(crate::proofs::TurnLaws::closed_so))]
pub fn close_turn<D: Disk>(
    parts: &mut NodeParts<D>,
    actor: Actor,
    call: Call,
    told: Told,
    end: ChannelEnd,
    passed: Passed,
    received: Messages,
)
    requires room { 0 < parts.old.room }
    ensures { Closes actor call told.choice told.delta (with_end end parts.old.own) passed received parts.old parts.new }
{
    keep_end(parts, &told, end);
    tell_turn(parts, actor, call, told, passed, received);
}

/// Closes a turn in which no message is received. It takes no memory.
pub fn end_turn<D: Disk>(
    parts: &mut NodeParts<D>,
    actor: Actor,
    told: Told,
    kind: EndKind,
    passed: Passed,
)
    requires room { 0 < parts.old.room }
    ensures { Closes actor calls.Turn told.choice told.delta (with_end (end_of kind) parts.old.own) passed [] parts.old parts.new }
{
    let received = Messages::new(parts.alloc);
    let end = ChannelEnd { kind };
    close_turn(parts, actor, Call::Turn, told, end, passed, received);
}
