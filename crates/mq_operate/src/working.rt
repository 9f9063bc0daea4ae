//! What a command came to at a node, and its entry.
ghost use Rattle.std.specs.Prelude.{◌≡◌, ◌<◌, ◌^◌, [], Some};
ghost use Rattle.mq_calls.specs.declared.choices.Choice.TheVariants as choices;
ghost use Rattle.mq_spec_node.specs.Words.{op_stopped};
ghost use Rattle.mq_turn_parts.specs.from_events.States.{told};
ghost use Rattle.mq_turn_parts.specs.Turns.{own_by};
ghost use Rattle.mq_operate.specs.Works.{acted_by, answer_by, call_of, outcome_by, reply_by};

use mq_calls::Choice;
use mq_disk::{Disk, Stop};
use mq_history::{Act, Acted, Actor, Call, OpRefusal, Reply};
use mq_sc_parse::{Command, Op};
use mq_turn_parts::below::{NodeParts, Outcome, Told};
use mq_turn_parts::{has_run, nothing_done};
use std::alloc::Global;

/// What a command came to at a node, before its entry.
#[derive(Drop)]
pub struct Worked {
    /// What its manager tells of it.
    pub told: Told,
    /// Why it is refused; none where it isn't.
    pub refusal: Option<OpRefusal>,
}

/// It is refused.
pub fn refused(alloc: Global, reason: OpRefusal) -> Worked
    ensures choice { result.told.choice ≡ choices.Runs }
    ensures delta { result.told.delta ≡ [] }
    ensures refusal { result.refusal ≡ Some reason }
{
    Worked {
        told: nothing_done(alloc),
        refusal: Some(reason),
    }
}

fn op_stopped(by: Stop) -> OpRefusal
    ensures { result ≡ op_stopped by }
{
    match by {
        Stop::Disk => OpRefusal::Disk,
        Stop::Cut => OpRefusal::Cut,
    }
}

fn acted_by(refusal: Option<OpRefusal>) -> Acted
    ensures { result ≡ acted_by refusal }
{
    match refusal {
        None => Acted::Done,
        Some(reason) => Acted::Op(reason),
    }
}

fn reply_by(choice: &Choice, refusal: Option<OpRefusal>) -> Reply
    ensures { result ≡ reply_by choice.now refusal }
{
    match choice {
        Choice::Runs => Reply::Acted(acted_by(refusal)),
        Choice::NoMemory => Reply::Acted(acted_by(refusal)),
        Choice::Stopped { by, .. } => Reply::Stopped(*by),
    }
}

/// What is answered for it.
pub fn answer_by(choice: &Choice, refusal: Option<OpRefusal>) -> Acted
    ensures { result ≡ answer_by choice.now refusal }
{
    match choice {
        Choice::Runs => acted_by(refusal),
        Choice::NoMemory => acted_by(refusal),
        Choice::Stopped { by, .. } => Acted::Op(op_stopped(*by)),
    }
}

/// Its entry, in room that is there.
pub fn tell_worked<D: Disk>(parts: &mut NodeParts<D>, actor: Actor, op: Op, worked: Worked)
    requires room { 0 < parts.old.room }
    requires stamp { parts.old.stamp < 2 ^ 60 }
    ensures { parts.new ≡ told actor (call_of op) (outcome_by worked) parts.old }
{
    let Worked { told, refusal } = worked;
    let Told { choice, delta } = told;
    parts.tell(
        actor,
        Call::Act(Act::Obey(Command::Operate(op))),
        Outcome {
            choice,
            reply: reply_by(&choice, refusal),
            delta,
        },
    );
}

/// Handlers that have forgotten rows that went, where all was done and no end is another. It takes no memory.
pub fn keep_own<D: Disk>(parts: &mut NodeParts<D>, told: &Told)
    ensures { parts.new ≡ record parts.old { own = own_by told.now.choice told.now.delta parts.old.own parts.old.own } }
{
    if has_run(told) {
        parts.own.forget_rows(told.delta.as_slice());
    }
}
