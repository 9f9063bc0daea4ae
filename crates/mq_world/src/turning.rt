//! Turns of handlers and monitors at their node, with the trigger turns behind them.
ghost use Rattle.std.specs.Prelude.{◌≡◌, []};
ghost use Rattle.mq_history.specs.declared.calls.Actor.TheVariants as actors;
ghost use Rattle.mq_history.specs.declared.calls.Call.TheVariants as calls;
ghost use Rattle.mq_world.specs.Words as words;

use crate::settling::settle;
use mq_base::NoMemory;
use mq_calls::Hconn;
use mq_disk::Disk;
use mq_handle::handler_turn;
use mq_history::MonitorLine;
use mq_nodes::{Monitored, Stop};
use mq_watch::below::Node;
use mq_watch::{connect, monitor_turn, open};

/// The handler of a rules table takes a turn at its node, if it isn't idle: whether it did.
#[tactic(auto, using(crate::proofs::NodeLaws::none_done, crate::proofs::HandlerLaws::idles, crate::proofs::HandlerLaws::tries_then))]
pub fn handler_on<D: Disk>(node: &mut Node<D>, manager: u16, rules: u16) -> Result<bool, Stop>
    requires served { words.IsServed node.old }
    requires may { words.MayAct node.old }
    ensures { words.HandlerOn rules manager node.old result node.new }
{
    match handler_turn(node, rules) {
        Err(NoMemory) => Err(Stop::NoMemory),
        Ok(false) => Ok(false),
        Ok(true) => settle(node, manager, true),
    }
}

/// A monitor takes a turn at its node, if there is a message to get.
#[tactic(auto, using(crate::proofs::NodeLaws::none_done, crate::proofs::HandlerLaws::rests, crate::proofs::HandlerLaws::got_then, crate::proofs::HandlerLaws::started_then))]
pub fn monitor_on<D: Disk>(
    node: &mut Node<D>,
    manager: u16,
    monitor: u16,
) -> Result<Monitored, Stop>
    requires served { words.IsServed node.old }
    requires may { words.MayAct node.old }
    ensures { words.MonitorOn monitor manager node.old result node.new }
{
    match monitor_turn(node, monitor) {
        Err(NoMemory) => Err(Stop::NoMemory),
        Ok(mq_watch::Monitored::Idle) => Ok(Monitored::Idle),
        Ok(mq_watch::Monitored::Got) => settle(node, manager, Monitored::Got),
        Ok(mq_watch::Monitored::Started(script)) => {
            settle(node, manager, Monitored::Started(script))
        }
    }
}

/// A monitor connects at its node: the connection that it was given, if any.
#[tactic(auto, using(crate::proofs::NodeLaws::none_done, crate::proofs::HandlerLaws::connects_then))]
pub fn connect_on<D: Disk>(
    node: &mut Node<D>,
    manager: u16,
    monitor: u16,
    line: &MonitorLine,
) -> Result<Option<Hconn>, Stop>
    requires served { words.IsServed node.old }
    requires may { words.MayAct node.old }
    ensures { words.NodeSays (words.IsOf (actors.Monitor monitor) (calls.Mqconn [] (words.script_appl line.now.label))) (λ given e. given ≡ words.connection_of e.reply) manager result node.old node.new }
{
    match connect(node, monitor, line) {
        Err(NoMemory) => Err(Stop::NoMemory),
        Ok(given) => settle(node, manager, given),
    }
}

/// A monitor opens its queue at its node: whether it is open.
#[tactic(auto, using(crate::proofs::NodeLaws::none_done, crate::proofs::HandlerLaws::opens_then))]
pub fn open_on<D: Disk>(
    node: &mut Node<D>,
    manager: u16,
    monitor: u16,
    line: &MonitorLine,
    connection: Hconn,
) -> Result<bool, Stop>
    requires served { words.IsServed node.old }
    requires may { words.MayAct node.old }
    ensures { words.NodeSays (words.IsOf (actors.Monitor monitor) (calls.Mqopen connection line.now.queue [] words.shared)) (λ opened e. opened ≡ words.is_opened e.reply) manager result node.old node.new }
{
    match open(node, monitor, line, connection) {
        Err(NoMemory) => Err(Stop::NoMemory),
        Ok(opened) => settle(node, manager, opened),
    }
}
