//! Any call that a script makes, as an event of its node.
ghost use Rattle.std.specs.Prelude.{◌≡◌, false, true};
ghost use Rattle.mq_events.specs.States.{IsServed};
ghost use Rattle.mq_events.specs.Events.{MayAct};
ghost use Rattle.mq_acts.specs.Asks.{Comes, IsDoneCall, happened_if, is_mqi};
ghost use Rattle.mq_acts.specs.Restarts.{StaysOwn};

use crate::acting::act;
use mq_base::NoMemory;
use mq_disk::Disk;
use mq_events::Node;
use mq_history::{Acted, Actor, Call};

/// Whether a call is one of the MQI.
fn is_mqi(call: &Call) -> bool
    ensures { result ≡ is_mqi call.now }
{
    match call {
        Call::Act(_) | Call::Turn | Call::Timeout | Call::Trigger => false,
        _ => true,
    }
}

/// An act was answered: it happened.
fn happened(acted: Result<Acted, NoMemory>) -> Result<bool, NoMemory>
    ensures { result ≡ happened_if acted }
{
    match acted {
        Ok(_) => Ok(true),
        Err(NoMemory) => Err(NoMemory),
    }
}

/// An act of this actor, as an event.
///
/// # Errors
///
/// No memory; nothing has changed.
#[tactic(auto, using(crate::proofs::AskLaws::acts_come))]
fn ask_act<D: Disk>(node: &mut Node<D>, actor: Actor, asked: Call) -> Result<bool, NoMemory>
    requires served { IsServed node.old }
    requires may { MayAct node.old }
    requires does { IsDoneCall asked }
    requires other { is_mqi asked ≡ false }
    ensures came { Comes actor asked node.old result node.new }
    ensures own { D.tells → StaysOwn node.old.history.entries node.new.history.entries }
{
    match asked {
        Call::Act(asked) => happened(act(node, actor, asked)),
        _ => unreachable!(),
    }
}

/// A call of the MQI, as an event. False where it is a get that may wait still; nothing has changed then.
///
/// # Errors
///
/// No memory; nothing has changed.
#[tactic(auto, using(crate::proofs::AskLaws::mqi_comes, crate::proofs::AskLaws::mqi_is))]
fn ask_mqi<D: Disk>(node: &mut Node<D>, actor: Actor, asked: Call) -> Result<bool, NoMemory>
    requires served { IsServed node.old }
    requires may { MayAct node.old }
    requires mqi { is_mqi asked ≡ true }
    ensures came { Comes actor asked node.old result node.new }
    ensures own { D.tells → StaysOwn node.old.history.entries node.new.history.entries }
{
    let happened = node.apply(actor, asked);
    node.facts();
    happened
}

/// An event of this actor and this call. False where it is a get that may wait still; nothing has changed then.
///
/// # Errors
///
/// No memory; nothing has changed.
pub fn ask<D: Disk>(node: &mut Node<D>, actor: Actor, asked: Call) -> Result<bool, NoMemory>
    requires served { IsServed node.old }
    requires may { MayAct node.old }
    requires does { IsDoneCall asked }
    ensures came { Comes actor asked node.old result node.new }
    ensures own { D.tells → StaysOwn node.old.history.entries node.new.history.entries }
{
    if is_mqi(&asked) {
        ask_mqi(node, actor, asked)
    } else {
        ask_act(node, actor, asked)
    }
}
