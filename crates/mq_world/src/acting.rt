//! What the operator, a monitor and the clock ask of one node, with the trigger turns behind it.
ghost use Rattle.std.specs.Prelude.{◌≡◌, OnOk};
ghost use Rattle.mq_history.specs.declared.acts.Act.TheVariants as acts;
ghost use Rattle.mq_history.specs.declared.calls.Actor.TheVariants as actors;
ghost use Rattle.mq_history.specs.declared.calls.Call.TheVariants as calls;
ghost use Rattle.mq_world.specs.Words as words;

use crate::settling::{ended, settle};
use mq_base::NoMemory;
use mq_calls::{Hconn, RestartFault};
use mq_disk::Disk;
use mq_history::{Act, Acted, Actor, Call, Entry, Reply};
use mq_lines::copy_command;
use mq_nodes::Stop;
use mq_sc_parse::Command;
use mq_shared::below::ask;
use mq_watch::below::{Node, last_entry};
use std::alloc::Global;

/// What an actor asks of a manager beside MQI calls.
#[tactic(auto, using(crate::proofs::NodeLaws::none_done, crate::proofs::NodeLaws::acts_then))]
pub fn act_on<D: Disk>(
    node: &mut Node<D>,
    manager: u16,
    actor: Actor,
    asked: Act,
) -> Result<(), Stop>
    requires served { words.IsServed node.old }
    requires may { words.MayAct node.old }
    requires text { words.IsTextAct asked }
    ensures { words.NodeDoes (words.IsOf actor (calls.Act asked)) manager result node.old node.new }
{
    match ask(node, actor, Call::Act(asked)) {
        Err(NoMemory) => Err(Stop::NoMemory),
        Ok(_) => settle(node, manager, ()),
    }
}

/// The operator gives a manager a command.
#[tactic(auto, using(crate::proofs::NodeLaws::not_copied))]
pub fn obey_on<D: Disk>(
    alloc: Global,
    node: &mut Node<D>,
    manager: u16,
    command: &Command,
) -> Result<(), Stop>
    requires served { words.IsServed node.old }
    requires may { words.MayAct node.old }
    requires text { words.IsTextCommand command.now }
    ensures { words.NodeDoes (words.IsOf actors.Operator (calls.Act (acts.Obey command.now))) manager result node.old node.new }
{
    match copy_command(alloc, command) {
        Err(NoMemory) => Err(Stop::NoMemory),
        Ok(command) => act_on(node, manager, Actor::Operator, Act::Obey(command)),
    }
}

/// Whether a restart was stopped by a cut, as its reply tells.
fn is_cut(reply: &Reply) -> bool
    ensures { result ≡ words.is_cut reply.now }
{
    match reply {
        Reply::Acted(Acted::Start(RestartFault::Cut)) => true,
        _ => false,
    }
}

fn last_cut(entries: &[Entry]) -> bool
    ensures { result ≡ words.cut_or (words.last_entry entries.now) }
{
    match last_entry(entries) {
        Some(entry) => is_cut(&entry.reply),
        None => false,
    }
}

/// The operator restarts a manager: whether an armed cut stopped that.
#[tactic(auto, using(crate::proofs::NodeLaws::none_done, crate::proofs::NodeLaws::restarts_then))]
pub fn restart_on<D: Disk>(node: &mut Node<D>, manager: u16) -> Result<bool, Stop>
    requires served { words.IsServed node.old }
    requires may { words.MayAct node.old }
    ensures told { words.NodeSays (words.IsOf actors.Operator (calls.Act acts.Restart)) (λ cut e. words.is_cut e.reply ≡ cut) manager result node.old node.new }
    ensures own { D.tells → words.StaysOwn node.old.history.entries node.new.history.entries }
{
    match ask(node, Actor::Operator, Call::Act(Act::Restart)) {
        Err(NoMemory) => Err(Stop::NoMemory),
        Ok(_) => {
            let cut = last_cut(node.entries());
            settle(node, manager, cut)
        }
    }
}

/// A monitor disconnects.
#[tactic(auto, using(crate::proofs::NodeLaws::none_done, crate::proofs::NodeLaws::leaves_then))]
pub fn leave_on<D: Disk>(
    node: &mut Node<D>,
    manager: u16,
    monitor: u16,
    connection: Hconn,
) -> Result<(), Stop>
    requires served { words.IsServed node.old }
    requires may { words.MayAct node.old }
    ensures { words.NodeDoes (words.IsOf (actors.Monitor monitor) (calls.Mqdisc connection)) manager result node.old node.new }
{
    let asked = Call::Mqdisc { hc: connection };
    match ask(node, Actor::Monitor(monitor), asked) {
        Err(NoMemory) => Err(Stop::NoMemory),
        Ok(_) => settle(node, manager, ()),
    }
}

/// The moment of a manager advances. No trigger becomes due by that.
#[tactic(auto, using(crate::proofs::ClockLaws::clock_told, crate::proofs::ClockLaws::clock_moment, crate::proofs::NodeLaws::none_done))]
pub fn clock_on<D: Disk>(node: &mut Node<D>, manager: u16, ms: u64) -> Result<(), Stop>
    requires kept { words.IsKept node.old }
    requires served { words.IsServed node.old }
    requires may { words.MayAct node.old }
    ensures told { words.NodeDoes (words.IsOf actors.Clock (calls.Act (acts.Clock ms))) manager result node.old node.new }
    ensures moment { OnOk result (node.new.manager.plain.moment ≡ words.later node.old.manager.plain.moment ms) }
{
    match node.advance_clock(Actor::Clock, ms) {
        Err(NoMemory) => Err(Stop::NoMemory),
        Ok(_) => {
            let spent = node.is_spent();
            ended(manager, (), Ok(()), spent)
        }
    }
}
