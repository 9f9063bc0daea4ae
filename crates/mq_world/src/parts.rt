//! The parts of a network, and what is asked of them but for turns of channels' ends.
ghost use Rattle.std.specs.Prelude.{◌≡◌, ◌<◌, ℕ, OnOk, Some, [], length, slice_get};
ghost use Rattle.mq_history.specs.declared.acts.Act.TheVariants as acts;
ghost use Rattle.mq_history.specs.declared.calls.Actor.TheVariants as actors;
ghost use Rattle.mq_history.specs.declared.calls.Call.TheVariants as calls;
ghost use Rattle.mq_world.specs.Words as words;

use crate::acting::{act_on, clock_on, obey_on, restart_on};
use crate::lines::advance_on;
use crate::marks::mark_all;
use mq_base::Items;
use mq_disk::Disk;
use mq_history::{Act, Actor, CableLine, MonitorLine, Scenario, ScriptPart};
use mq_nodes::{Advanced, Stop};
use mq_progress::Progress;
use mq_sc_parse::Command;
use mq_watch::below::Node;
use mq_ways::Cable;
use std::alloc::Global;
use std::marker::Model;
use std::snapshot::Snapshot;

/// The parts of a network: its scenario's nodes, how far its scripts are, and what lies on its cables.
#[derive(Drop)]
pub struct NetParts<D: Disk> {
    pub alloc: Global,
    pub scenario: Snapshot<Scenario>,
    /// One for each manager, in the scenario's order.
    pub nodes: Items<Node<D>>,
    /// One for each script, in the scenario's order.
    pub scripts: Items<Progress>,
    /// The scenario's cables: their lines, and what lies on each.
    pub lines: Items<CableLine>,
    pub cables: Items<Cable>,
    /// The manager of each rules table, a place in the scenario.
    pub handlers: Items<u16>,
    /// The scenario's monitors.
    pub monitors: Items<MonitorLine>,
}

impl<D: Disk> Model for NetParts<D> {
    ghost use Rattle.mq_world.specs.Words as words;

    ghost Value = { words.NetState };

    ghost view = { λ n. record { scenario = n.scenario.value; nodes = n.nodes; scripts = n.scripts; lines = n.lines; cables = n.cables; handlers = n.handlers; monitors = n.monitors } };
}

impl<D: Disk> NetParts<D> {
    /// How many managers there are.
    pub fn managers(&self) -> u16
        requires kept { words.IsNetwork self.now }
        ensures { result ≡ length self.now.scenario.managers }
    {
        self.nodes.len() as u16
    }

    /// The moment of a manager, in milliseconds since 1970.
    #[tactic(auto, using(crate::proofs::LiftLaws::moment_none, crate::proofs::LiftLaws::moment_some))]
    pub fn moment(&self, manager: u16) -> u64
        requires kept { words.IsNetwork self.now }
        ensures { result ≡ words.moment_of (words.node_at (words.course_in self.now).net manager) }
    {
        match self.nodes.get(usize::from(manager)) {
            None => 0,
            Some(node) => node.moment(),
        }
    }

    /// Whether a manager is up.
    #[tactic(auto, using(crate::proofs::LiftLaws::up_none, crate::proofs::LiftLaws::up_some))]
    pub fn is_up(&self, manager: u16) -> bool
        requires kept { words.IsNetwork self.now }
        ensures { result ≡ words.is_up_at (words.node_at (words.course_in self.now).net manager) }
    {
        match self.nodes.get(usize::from(manager)) {
            None => false,
            Some(node) => node.is_up(),
        }
    }

    /// The operator stops a manager.
    pub fn crash(&mut self, manager: u16) -> Result<(), Stop>
        requires kept { words.IsNetwork self.old }
        requires ready { words.Ready (words.course_in self.old).net }
        requires there { manager < length self.old.scenario.managers }
        ensures kept { words.IsNetwork self.new }
        ensures told { words.Does (words.Is manager actors.Operator (calls.Act acts.Crash)) result (words.course_in self.old) (words.course_in self.new) }
        ensures own { D.tells → words.StaysOwnIn self.old self.new }
        ensures long { length self.new.nodes ≡ length self.old.nodes }
    {
        act_on(
            self.nodes.at_mut(usize::from(manager)),
            manager,
            Actor::Operator,
            Act::Crash,
        )
    }

    /// The operator arms a cut at a manager.
    pub fn cut(&mut self, manager: u16, device_calls: u32) -> Result<(), Stop>
        requires kept { words.IsNetwork self.old }
        requires ready { words.Ready (words.course_in self.old).net }
        requires there { manager < length self.old.scenario.managers }
        ensures kept { words.IsNetwork self.new }
        ensures told { words.Does (words.Is manager actors.Operator (calls.Act (acts.Cut device_calls))) result (words.course_in self.old) (words.course_in self.new) }
        ensures own { D.tells → words.StaysOwnIn self.old self.new }
        ensures long { length self.new.nodes ≡ length self.old.nodes }
    {
        act_on(
            self.nodes.at_mut(usize::from(manager)),
            manager,
            Actor::Operator,
            Act::Cut(device_calls),
        )
    }

    /// The operator gives a manager a command.
    pub fn obey(&mut self, manager: u16, command: &Command) -> Result<(), Stop>
        requires kept { words.IsNetwork self.old }
        requires ready { words.Ready (words.course_in self.old).net }
        requires there { manager < length self.old.scenario.managers }
        requires text { words.IsTextCommand command.now }
        ensures kept { words.IsNetwork self.new }
        ensures told { words.Does (words.Is manager actors.Operator (calls.Act (acts.Obey command.now))) result (words.course_in self.old) (words.course_in self.new) }
        ensures own { D.tells → words.StaysOwnIn self.old self.new }
        ensures long { length self.new.nodes ≡ length self.old.nodes }
    {
        obey_on(
            self.alloc,
            self.nodes.at_mut(usize::from(manager)),
            manager,
            command,
        )
    }

    /// The operator restarts a manager: whether an armed cut stopped that.
    pub fn restart(&mut self, manager: u16) -> Result<bool, Stop>
        requires kept { words.IsNetwork self.old }
        requires ready { words.Ready (words.course_in self.old).net }
        requires there { manager < length self.old.scenario.managers }
        ensures kept { words.IsNetwork self.new }
        ensures told { words.Says (words.Is manager actors.Operator (calls.Act acts.Restart)) (λ cut e. words.is_cut e.reply ≡ cut) result (words.course_in self.old) (words.course_in self.new) }
        ensures own { D.tells → words.StaysOwnIn self.old self.new }
        ensures long { length self.new.nodes ≡ length self.old.nodes }
    {
        restart_on(self.nodes.at_mut(usize::from(manager)), manager)
    }

    /// The moment of a manager advances by so many milliseconds.
    pub fn advance_clock(&mut self, manager: u16, ms: u64) -> Result<(), Stop>
        requires kept { words.IsNetwork self.old }
        requires ready { words.Ready (words.course_in self.old).net }
        requires there { manager < length self.old.scenario.managers }
        ensures kept { words.IsNetwork self.new }
        ensures told { words.Does (words.Is manager actors.Clock (calls.Act (acts.Clock ms))) result (words.course_in self.old) (words.course_in self.new) }
        ensures moment { OnOk result (words.moment_of (words.node_at (words.course_in self.new).net manager) ≡ words.later (words.moment_of (words.node_at (words.course_in self.old).net manager)) ms) }
        ensures own { D.tells → words.StaysOwnIn self.old self.new }
        ensures long { length self.new.nodes ≡ length self.old.nodes }
    {
        clock_on(self.nodes.at_mut(usize::from(manager)), manager, ms)
    }

    /// Does a script's next line, unless its get is to wait, or no line is left.
    pub fn advance(&mut self, script: u16, part: &ScriptPart) -> Result<Advanced, Stop>
        requires kept { words.IsNetwork self.old }
        requires ready { words.Ready (words.course_in self.old).net }
        requires there { slice_get self.old.scenario.scripts script ≡ Some part.now }
        requires manager { part.now.manager < length self.old.scenario.managers }
        ensures kept { words.IsNetwork self.new }
        ensures told { words.LineTold script part.now result (words.course_in self.old) (words.course_in self.new) }
        ensures own { D.tells → words.StaysOwnIn self.old self.new }
        ensures long { length self.new.nodes ≡ length self.old.nodes }
    {
        let place = usize::from(part.manager);
        let at = usize::from(script);
        let node = self.nodes.at_mut(place);
        let progress = self.scripts.at_mut(at);
        advance_on(node, part.manager, script, part, progress)
    }

    /// Ends a step: each manager notes how many events it did so far, and whether the step ended idle. Each end of a cable has
    /// popped what the other offered, and no more.
    pub fn mark(&mut self, idle: bool)
        requires kept { words.IsNetwork self.old }
        requires room { (m : ℕ) → length ((words.course_in self.old).marks m) < length self.old.scenario.steps }
        ensures kept { words.IsNetwork self.new }
        ensures noted { words.course_in self.new ≡ words.noted idle (words.course_in self.old) }
        ensures carried { words.AllCarried (words.course_in self.old).net }
        ensures own { D.tells → words.StaysOwnIn self.old self.new }
        ensures long { length self.new.nodes ≡ length self.old.nodes }
    {
        mark_all(&mut self.nodes, idle);
    }
}
