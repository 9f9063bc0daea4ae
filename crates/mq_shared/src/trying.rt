//! A try of a script's line, a turn of an end and a timeout, at a node, with the trigger turns behind it.
ghost use Rattle.std.specs.Prelude.{◌≡◌, ◌≤◌, ◌<◌, ◌^◌, ℕ, [], IfSome, None, OnOk, false, length, slice_get};
ghost use Rattle.mq_acts.specs.from_events.States.{IsServed};
ghost use Rattle.mq_acts.specs.from_events.Events.{MayAct};
ghost use Rattle.mq_acts.specs.Advances.{IsTextLine};
ghost use Rattle.mq_acts.specs.Restarts.{StaysOwn};
ghost use Rattle.mq_takes.specs.from_turn_parts.Unseen.{EndTurn, IsUnseen, turn_deed};
ghost use Rattle.mq_ruled.specs.Ends.{PipeEmpty, PipeEnds, PipeFull, PipeTook, PipeWrote};
ghost use Rattle.mq_shared.specs.Events.{LineTried, SameEnd, TimeTried, TurnTried};
ghost use Rattle.mq_split.specs.Ends.{end_actor};
ghost use Rattle.mq_shared.specs.Held.{script_with};

use crate::held::HeldScript;
use mq_acts::below::Node;
use mq_acts::{Advanced, advance, serve};
use mq_base::NoMemory;
use mq_cable::{Offers, Wire};
use mq_disk::Disk;
use mq_history::ScriptPart;
use mq_progress::Progress;
use mq_progress::below::{deadline_of, wait_of};
use mq_ruled::Ruled;
use mq_split::HeldEnd;
use mq_takes::below::{Turn, timeout};
use mq_takes::receiver_turn;
use mq_turns::sender_turn;
use std::sync::Wait;

/// What a try of a script's next line came to.
#[derive(Clone, Copy)]
pub enum Tried {
    /// The line is done.
    Done,
    /// Its get waits.
    Waits,
    /// No line is left, or the node may not act.
    Ended,
}

/// The next line of a script, with the trigger turns behind it.
#[tactic(auto, using(crate::proofs::TriedLaws::keeps_at, crate::proofs::OwnKept::own_same, crate::proofs::OwnKept::own_then))]
fn line_at<D: Disk>(
    node: &mut Node<D>,
    script: u16,
    part: &ScriptPart,
    moment: u64,
    progress: &mut Progress,
) -> Result<Tried, NoMemory>
    requires served { IsServed node.old }
    requires may { MayAct node.old }
    requires texts { (n : ℕ) → IfSome (slice_get part.now.lines n) IsTextLine }
    requires few { progress.old.done ≤ length part.now.lines }
    requires short { length part.now.lines < 2 ^ 32 }
    ensures tried { LineTried (script_with script part.now moment progress.old) node.old result (script_with script part.now moment progress.new) node.new }
    ensures own { D.tells → StaysOwn node.old.history.entries node.new.history.entries }
{
    let Some(line) = progress.line(part) else {
        return Ok(Tried::Ended);
    };
    let until = deadline_of(moment, wait_of(line));
    progress.wait(until);
    match advance(node, script, part, progress) {
        Err(NoMemory) => Err(NoMemory),
        Ok(Advanced::Ended) => Ok(Tried::Ended),
        Ok(Advanced::Waiting(_)) => Ok(Tried::Waits),
        Ok(Advanced::Done) => match serve(node) {
            Err(NoMemory) => Err(NoMemory),
            Ok(()) => Ok(Tried::Done),
        },
    }
}

/// Tries the next line of a script of a phase: a get has its deadline from the phase's first moment on.
///
/// # Errors
///
/// No memory: nothing was done, or the line was, and a trigger stays due.
pub fn try_line<D: Disk>(node: &mut Node<D>, script: &mut HeldScript<'_>) -> Result<Tried, NoMemory>
    requires served { IsServed node.old }
    requires may { MayAct node.old }
    requires texts { (n : ℕ) → IfSome (slice_get script.old.part.lines n) IsTextLine }
    requires few { script.old.course.done ≤ length script.old.part.lines }
    requires short { length script.old.part.lines < 2 ^ 32 }
    ensures tried { LineTried script.old node.old result script.new node.new }
    ensures own { D.tells → StaysOwn node.old.history.entries node.new.history.entries }
{
    line_at(
        node,
        script.script,
        script.part,
        script.moment,
        &mut script.progress,
    )
}

/// A turn of the sender's or the receiver's end of a cable at its node.
#[tactic(auto, using(crate::proofs::TriedLaws::sender_as, crate::proofs::TriedLaws::receiver_as))]
fn turn_by<D: Disk, R: Wait>(
    node: &mut Node<D>,
    offers: &mut Offers,
    wire: &mut Ruled<'_, R>,
    cable: u16,
    sends: bool,
) -> Result<Turn, NoMemory>
    requires served { IsServed node.old }
    requires may { MayAct node.old }
    requires count { offers.old.number < 2 ^ 48 }
    ensures { EndTurn (end_actor cable sends) (λ xs. PipeTook wire.old xs wire.new) (λ xs. PipeWrote wire.old xs wire.new) ((m : PipeEnds) × PipeEmpty wire.old m × PipeTook m [] wire.new) (PipeFull wire.old wire.new) offers.old offers.new node.old result node.new }
{
    match sends {
        true => sender_turn(node, offers, wire, cable),
        false => receiver_turn(node, offers, wire, cable),
    }
}

/// A turn of an end at its node.
fn turn_at<D: Disk, R: Wait>(node: &mut Node<D>, end: &mut HeldEnd<'_, R>) -> Result<Turn, NoMemory>
    requires served { IsServed node.old }
    requires may { MayAct node.old }
    requires count { end.old.offers.number < 2 ^ 48 }
    ensures turn { EndTurn (end_actor end.old.cable end.old.sends) (λ xs. PipeTook end.old.wire xs end.new.wire) (λ xs. PipeWrote end.old.wire xs end.new.wire) ((m : PipeEnds) × PipeEmpty end.old.wire m × PipeTook m [] end.new.wire) (PipeFull end.old.wire end.new.wire) end.old.offers end.new.offers node.old result node.new }
    ensures same { SameEnd end.old end.new }
{
    turn_by(node, &mut end.offers, &mut end.wire, end.cable, end.sends)
}

/// A turn of an end, with the trigger turns behind it. Still where it changes nothing.
///
/// # Errors
///
/// No memory: nothing was done, or the turn was, and a trigger stays due.
fn served_turn<D: Disk, R: Wait>(
    node: &mut Node<D>,
    end: &mut HeldEnd<'_, R>,
) -> Result<Turn, NoMemory>
    requires served { IsServed node.old }
    requires may { MayAct node.old }
    requires count { end.old.offers.number < 2 ^ 48 }
    ensures { TurnTried (IsUnseen ((m : PipeEnds) × PipeEmpty end.old.wire m × PipeTook m [] end.new.wire) (turn_deed (end_actor end.old.cable end.old.sends) node.old)) (PipeFull end.old.wire end.new.wire) end.old node.old result end.new node.new }
{
    match turn_at(node, end) {
        Err(NoMemory) => Err(NoMemory),
        Ok(Turn::Still) => Ok(Turn::Still),
        Ok(Turn::Changed) => match serve(node) {
            Err(NoMemory) => Err(NoMemory),
            Ok(()) => Ok(Turn::Changed),
        },
    }
}

/// Whether an end holds an item that it looked at and did not take.
fn holds_item<R: Wait>(end: &HeldEnd<'_, R>) -> bool
    ensures { (result ≡ false) → end.now.wire.fetched ≡ None }
{
    match end.wire.front() {
        None => false,
        Some(_) => true,
    }
}

/// A turn of an end, with the trigger turns behind it. Still where it changes nothing. Behind one that found memory the end holds no item
/// that it did not take: where it held one, which no turn does, that is want of memory too.
///
/// # Errors
///
/// No memory: nothing was done, or the turn was, and a trigger stays due.
pub fn try_turn<D: Disk, R: Wait>(
    node: &mut Node<D>,
    end: &mut HeldEnd<'_, R>,
) -> Result<Turn, NoMemory>
    requires served { IsServed node.old }
    requires may { MayAct node.old }
    requires count { end.old.offers.number < 2 ^ 48 }
    ensures tried { TurnTried (IsUnseen ((m : PipeEnds) × PipeEmpty end.old.wire m × PipeTook m [] end.new.wire) (turn_deed (end_actor end.old.cable end.old.sends) node.old)) (PipeFull end.old.wire end.new.wire) end.old node.old result end.new node.new }
    ensures free { OnOk result (end.new.wire.fetched ≡ None) }
{
    let turn = served_turn(node, end);
    if holds_item(end) {
        return Err(NoMemory);
    }
    turn
}

/// A timeout of the sender's end of a cable. Still where it waits for no answer. It makes no trigger due.
#[tactic(auto, using(crate::proofs::TriedLaws::time_tried))]
pub fn try_timeout<D: Disk>(node: &mut Node<D>, cable: u16) -> Turn
    requires served { IsServed node.old }
    requires may { MayAct node.old }
    ensures tried { TimeTried cable node.old result node.new }
    ensures served { IsServed node.new }
{
    timeout(node, cable)
}
