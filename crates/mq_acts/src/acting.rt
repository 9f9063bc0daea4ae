//! Whatever a step or a script asks of a node beside MQI calls.
ghost use Rattle.mq_history.specs.declared.acts.Act.TheVariants as acts;
ghost use Rattle.mq_history.specs.declared.calls.Call.TheVariants as calls;
ghost use Rattle.mq_events.specs.States.{IsServed};
ghost use Rattle.mq_events.specs.Events.{ActsAs, MayAct};
ghost use Rattle.mq_events.specs.Texts.{IsTextAct};
ghost use Rattle.mq_acts.specs.Restarts.{RestartIsOwn, StaysOwn};

use crate::answering::show;
use crate::restarting::restart;
use mq_base::NoMemory;
use mq_disk::Disk;
use mq_events::Node;
use mq_history::{Act, Acted, Actor};
use mq_operate::operate;
use mq_sc_parse::Command;

/// A command, as an event.
fn obey<D: Disk>(node: &mut Node<D>, actor: Actor, asked: Command) -> Result<Acted, NoMemory>
    requires served { IsServed node.old }
    requires may { MayAct node.old }
    requires text { IsTextAct (acts.Obey asked) }
    ensures { ActsAs actor (calls.Act (acts.Obey asked)) node.old result node.new }
{
    match asked {
        Command::Objects(command) => node.command(actor, command),
        Command::Operate(op) => operate(node, actor, op),
        Command::ShowStatus { name, any_end } => show(node, actor, name, any_end),
    }
}

/// What is asked beside MQI calls, with what a restart says of itself.
#[tactic(auto, using(crate::proofs::OwnLaws::did_told, crate::proofs::OwnLaws::own_told))]
fn act_as<D: Disk>(node: &mut Node<D>, actor: Actor, asked: Act) -> Result<Acted, NoMemory>
    requires served { IsServed node.old }
    requires may { MayAct node.old }
    requires text { IsTextAct asked }
    ensures did { ActsAs actor (calls.Act asked) node.old result node.new }
    ensures own { D.tells → RestartIsOwn asked node.old.history.entries node.new.history.entries }
{
    match asked {
        Act::Obey(command) => obey(node, actor, command),
        Act::Crash => node.crash(actor),
        Act::Restart => restart(node, actor),
        Act::Cut(k) => node.cut(actor, k),
        Act::Clock(by) => node.advance_clock(actor, by),
    }
}

/// What a step or a script asks of a node beside MQI calls, as one event: a command (on objects, on the ends of channels, DISPLAY CHSTATUS), a
/// stop, a restart, an armed cut, or a moment that advances. A command on objects has values such as a text of commands gives.
///
/// # Errors
///
/// No memory; nothing has changed.
pub fn act<D: Disk>(node: &mut Node<D>, actor: Actor, asked: Act) -> Result<Acted, NoMemory>
    requires served { IsServed node.old }
    requires may { MayAct node.old }
    requires text { IsTextAct asked }
    ensures did { ActsAs actor (calls.Act asked) node.old result node.new }
    ensures own { D.tells → StaysOwn node.old.history.entries node.new.history.entries }
{
    let acted = act_as(node, actor, asked);
    node.facts();
    acted
}
