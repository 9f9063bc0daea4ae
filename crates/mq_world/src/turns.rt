//! What the handlers and monitors of a network do.
ghost use Rattle.std.specs.Prelude.{◌≡◌, ◌<◌, ℕ, Some, [], length, slice_get};
ghost use Rattle.mq_history.specs.declared.calls.Actor.TheVariants as actors;
ghost use Rattle.mq_history.specs.declared.calls.Call.TheVariants as calls;
ghost use Rattle.mq_world.specs.Words as words;

use crate::acting::leave_on;
use crate::parts::NetParts;
use crate::turning::{connect_on, handler_on, monitor_on, open_on};
use mq_base::Items;
use mq_calls::Hconn;
use mq_disk::Disk;
use mq_handle::handler_idle;
use mq_history::MonitorLine;
use mq_nodes::{Monitored, Stop};
use mq_watch::is_watching;

/// The manager of a rules table.
fn manager_of(handlers: &Items<u16>, rules: u16) -> u16
    requires there { rules < length handlers.now }
    ensures { slice_get handlers.now rules ≡ Some result }
{
    match handlers.get(usize::from(rules)) {
        Some(manager) => *manager,
        None => unreachable!(),
    }
}

/// The line of a monitor.
fn line_of(monitors: &Items<MonitorLine>, monitor: u16) -> MonitorLine
    requires there { monitor < length monitors.now }
    ensures { slice_get monitors.now monitor ≡ Some result }
{
    match monitors.get(usize::from(monitor)) {
        Some(line) => *line,
        None => unreachable!(),
    }
}

impl<D: Disk> NetParts<D> {
    /// The handler of a rules table takes a turn, if it isn't idle: whether it did.
    pub fn handler_turn(&mut self, rules: u16) -> Result<bool, Stop>
        requires kept { words.IsNetwork self.old }
        requires ready { words.Ready (words.course_in self.old).net }
        requires there { rules < length self.old.scenario.rules }
        ensures kept { words.IsNetwork self.new }
        ensures told { words.HandlerTold rules result (words.course_in self.old) (words.course_in self.new) }
        ensures own { D.tells → words.StaysOwnIn self.old self.new }
        ensures long { length self.new.nodes ≡ length self.old.nodes }
    {
        let manager = manager_of(&self.handlers, rules);
        handler_on(self.nodes.at_mut(usize::from(manager)), manager, rules)
    }

    /// Whether the handler's next turn would be idle.
    #[tactic(auto, using(crate::proofs::TurnLaws::handles_none, crate::proofs::TurnLaws::handles_some))]
    pub fn handler_idle(&self, rules: u16) -> bool
        requires kept { words.IsNetwork self.now }
        requires there { rules < length self.now.scenario.rules }
        ensures { result ≡ words.handles_idle rules (slice_get self.now.scenario.rules rules) (words.course_in self.now).net }
    {
        let manager = manager_of(&self.handlers, rules);
        match self.nodes.get(usize::from(manager)) {
            None => true,
            Some(node) => handler_idle(node, rules),
        }
    }

    /// A monitor takes a turn, if there is a message to get.
    pub fn monitor_turn(&mut self, monitor: u16) -> Result<Monitored, Stop>
        requires kept { words.IsNetwork self.old }
        requires ready { words.Ready (words.course_in self.old).net }
        requires there { monitor < length self.old.scenario.monitors }
        ensures kept { words.IsNetwork self.new }
        ensures told { words.TurnTold monitor result (words.course_in self.old) (words.course_in self.new) }
        ensures own { D.tells → words.StaysOwnIn self.old self.new }
        ensures long { length self.new.nodes ≡ length self.old.nodes }
    {
        let line = line_of(&self.monitors, monitor);
        monitor_on(
            self.nodes.at_mut(usize::from(line.manager)),
            line.manager,
            monitor,
        )
    }

    /// Whether a monitor is connected at this manager.
    #[tactic(auto, using(crate::proofs::TurnLaws::watches_none, crate::proofs::TurnLaws::watches_some))]
    fn watches(&self, monitor: u16, manager: u16) -> bool
        requires kept { words.IsNetwork self.now }
        ensures { result ≡ words.is_watching monitor (words.node_at (words.course_in self.now).net manager) }
    {
        match self.nodes.get(usize::from(manager)) {
            None => false,
            Some(node) => is_watching(node, monitor),
        }
    }

    /// A monitor connects: the connection that it was given, if any.
    fn connect(&mut self, monitor: u16, line: &MonitorLine) -> Result<Option<Hconn>, Stop>
        requires kept { words.IsNetwork self.old }
        requires ready { words.Ready (words.course_in self.old).net }
        requires there { line.now.manager < length self.old.scenario.managers }
        ensures kept { words.IsNetwork self.new }
        ensures told { words.Says (words.Is line.now.manager (actors.Monitor monitor) (calls.Mqconn [] (words.script_appl line.now.label))) (λ given e. given ≡ words.connection_of e.reply) result (words.course_in self.old) (words.course_in self.new) }
        ensures same { self.new.scenario ≡ self.old.scenario }
        ensures own { D.tells → words.StaysOwnIn self.old self.new }
        ensures long { length self.new.nodes ≡ length self.old.nodes }
    {
        connect_on(
            self.nodes.at_mut(usize::from(line.manager)),
            line.manager,
            monitor,
            line,
        )
    }

    /// A monitor opens its queue: whether it is open.
    fn open(&mut self, monitor: u16, line: &MonitorLine, connection: Hconn) -> Result<bool, Stop>
        requires kept { words.IsNetwork self.old }
        requires ready { words.Ready (words.course_in self.old).net }
        requires there { line.now.manager < length self.old.scenario.managers }
        ensures kept { words.IsNetwork self.new }
        ensures told { words.Says (words.Is line.now.manager (actors.Monitor monitor) (calls.Mqopen connection line.now.queue [] words.shared)) (λ opened e. opened ≡ words.is_opened e.reply) result (words.course_in self.old) (words.course_in self.new) }
        ensures same { self.new.scenario ≡ self.old.scenario }
        ensures own { D.tells → words.StaysOwnIn self.old self.new }
        ensures long { length self.new.nodes ≡ length self.old.nodes }
    {
        open_on(
            self.nodes.at_mut(usize::from(line.manager)),
            line.manager,
            monitor,
            line,
            connection,
        )
    }

    /// A monitor disconnects.
    fn leave(&mut self, monitor: u16, manager: u16, connection: Hconn) -> Result<(), Stop>
        requires kept { words.IsNetwork self.old }
        requires ready { words.Ready (words.course_in self.old).net }
        requires there { manager < length self.old.scenario.managers }
        ensures kept { words.IsNetwork self.new }
        ensures told { words.Does (words.Is manager (actors.Monitor monitor) (calls.Mqdisc connection)) result (words.course_in self.old) (words.course_in self.new) }
        ensures own { D.tells → words.StaysOwnIn self.old self.new }
        ensures long { length self.new.nodes ≡ length self.old.nodes }
    {
        leave_on(
            self.nodes.at_mut(usize::from(manager)),
            manager,
            monitor,
            connection,
        )
    }

    /// A monitor that isn't connected connects and opens its queue; where that fails, it disconnects.
    pub fn watch(&mut self, monitor: u16) -> Result<(), Stop>
        requires kept { words.IsNetwork self.old }
        requires ready { words.Ready (words.course_in self.old).net }
        requires there { monitor < length self.old.scenario.monitors }
        ensures kept { words.IsNetwork self.new }
        ensures told { words.Part (words.watch_by monitor (slice_get self.old.scenario.monitors monitor)) result (words.course_in self.old) (words.course_in self.new) }
        ensures own { D.tells → words.StaysOwnIn self.old self.new }
        ensures long { length self.new.nodes ≡ length self.old.nodes }
    {
        let line = line_of(&self.monitors, monitor);
        if self.watches(monitor, line.manager) {
            return Ok(());
        }
        let connection = match self.connect(monitor, &line) {
            Err(stop) => return Err(stop),
            Ok(None) => return Ok(()),
            Ok(Some(connection)) => connection,
        };
        match self.open(monitor, &line, connection) {
            Err(stop) => Err(stop),
            Ok(true) => Ok(()),
            Ok(false) => self.leave(monitor, line.manager, connection),
        }
    }
}
