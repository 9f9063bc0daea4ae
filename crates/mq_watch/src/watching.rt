//! A monitor that connects, and opens its initiation queue.
ghost use Rattle.std.specs.Prelude.{◌≡◌, [], option_copied};
ghost use Rattle.mq_history.specs.declared.calls.Call.TheVariants as calls;
ghost use Rattle.mq_spec_node.specs.Words.{Own, is_live, is_opened, monitor_live, node_of, script_appl, shared};
ghost use Rattle.mq_events.specs.Events.{MayAct};
ghost use Rattle.mq_events.specs.States.{IsServed, last_entry, node_in};
ghost use Rattle.mq_watch.specs.Turns.{Connects, Opens};

use crate::getting::monitor_in;
use mq_base::{Label, NoMemory, QName};
use mq_calls::{Answer, Hconn, Input, Open};
use mq_core::Core;
use mq_disk::Disk;
use mq_events::{Node, last_entry};
use mq_history::{Actor, Call, Entry, MonitorLine, Reply};
use mq_lines::{connected, script_appl};
use mq_own::Monitor;

/// The last entry of a node's history.
fn last_of<D: Disk>(node: &Node<D>) -> Option<&Entry>
    ensures { option_copied result ≡ last_entry node.now.history.entries }
{
    last_entry(node.entries())
}

fn is_opened(reply: &Reply) -> bool
    ensures { result ≡ is_opened reply.now }
{
    match reply {
        Reply::Opened(Answer::Ok(_)) => true,
        _ => false,
    }
}

/// How a monitor opens its queue.
fn shared() -> Open
    ensures { result ≡ shared }
{
    Open {
        input: Input::Shared,
        browse: false,
        output: false,
    }
}

fn connect_call(line: &MonitorLine) -> Call
    ensures { result ≡ calls.Mqconn [] (script_appl line.now.label) }
{
    Call::Mqconn {
        qmgr: QName::blank(),
        appl: script_appl(&line.label),
    }
}

fn open_call(line: &MonitorLine, hc: Hconn) -> Call
    ensures { result ≡ calls.Mqopen hc line.now.queue [] shared }
{
    Call::Mqopen {
        hc,
        name: line.queue,
        qmgr: QName::blank(),
        how: shared(),
    }
}

fn has_connection<D: Disk>(core: &Core<D>, monitor: Option<&Monitor>) -> bool
    ensures { (own : Own) → result ≡ is_live (option_copied monitor.entry) (node_of core.now.plain own) }
{
    let Some(monitor) = monitor else {
        return false;
    };
    match &monitor.connection {
        None => false,
        Some(hc) => core.parts.connected(hc).is_ok(),
    }
}

/// Whether a monitor is connected. It takes no memory.
pub fn is_watching<D: Disk>(node: &Node<D>, monitor: u16) -> bool
    ensures { result ≡ monitor_live monitor (node_in node.now) }
{
    let parts = &node.parts;
    has_connection(
        &parts.manager.core,
        monitor_in(parts.own.monitors.as_slice(), monitor),
    )
}

/// A monitor's MQCONN, by its line of the scenario, as an event of its node: the connection that it was given, none where the call was
/// refused or stopped.
///
/// # Errors
///
/// No memory; nothing has changed.
#[tactic(auto, using(crate::proofs::WatchLaws::connected, crate::proofs::WatchLaws::connect_last))]
pub fn connect<D: Disk>(
    node: &mut Node<D>,
    monitor: u16,
    line: &MonitorLine,
) -> Result<Option<Hconn>, NoMemory>
    requires served { IsServed node.old }
    requires may { MayAct node.old }
    ensures { Connects monitor line.now node.old result node.new }
{
    match node.apply(Actor::Monitor(monitor), connect_call(line)) {
        Err(NoMemory) => Err(NoMemory),
        // Such a call never waits.
        Ok(_) => match last_of(node) {
            None => unreachable!(),
            Some(entry) => Ok(connected(&entry.reply)),
        },
    }
}

/// A monitor's MQOPEN of its initiation queue, SHARED, by its line of the scenario, as an event of its node: whether it was opened.
///
/// # Errors
///
/// No memory; nothing has changed.
#[tactic(auto, using(crate::proofs::WatchLaws::opened, crate::proofs::WatchLaws::open_last))]
pub fn open<D: Disk>(
    node: &mut Node<D>,
    monitor: u16,
    line: &MonitorLine,
    hc: Hconn,
) -> Result<bool, NoMemory>
    requires served { IsServed node.old }
    requires may { MayAct node.old }
    ensures { Opens monitor line.now hc node.old result node.new }
{
    match node.apply(Actor::Monitor(monitor), open_call(line, hc)) {
        Err(NoMemory) => Err(NoMemory),
        // Such a call never waits.
        Ok(_) => match last_of(node) {
            None => unreachable!(),
            Some(entry) => Ok(is_opened(&entry.reply)),
        },
    }
}
