//! Nodes as the steps of a scenario see them: each call does one event with the trigger turns that are due after it.
use mq_history::ScriptPart;
use mq_sc_parse::Command;

/// Why a run ends within a step.
#[derive(Clone, Copy)]
pub enum Stop {
    /// There was no memory. The event stands where only a trigger turn after it found none.
    NoMemory,
    /// The manager at this place, from 0, has made all its events.
    Spent(u16),
}

/// What a script did.
#[derive(Clone, Copy)]
pub enum Advanced {
    /// Its next line.
    Done,
    /// Nothing: its get waits until this moment, in milliseconds since 1970.
    Waiting(u64),
    /// Nothing: no line is left.
    Ended,
}

/// What a monitor's turn did.
#[derive(Clone, Copy)]
pub enum Monitored {
    /// Nothing: there is no message to get.
    Idle,
    /// It got a message that begins this script, a place in the scenario.
    Started(u16),
    /// It got another one.
    Got,
}

/// The nodes of a scenario's managers, with their cables. Managers, cables, scripts, rules tables and monitors are places in
/// the scenario, from 0. A call answers that a node is spent exactly where its event was the last that the node makes.
pub trait Nodes {
    ghost use Rattle.std.specs.Prelude.{◌≡◌, ◌<◌, ℕ, true, Some, OnOk, length, slice_get};
    ghost use Rattle.mq_history.specs.declared.acts.Act.TheVariants as acts;
    ghost use Rattle.mq_history.specs.declared.calls.Actor.TheVariants as actors;
    ghost use Rattle.mq_history.specs.declared.calls.Call.TheVariants as calls;
    ghost use Rattle.mq_spec_network.specs.Turns.{is_idle, is_up_at, node_at};
    ghost use Rattle.mq_spec_network.specs.Tasks.{moment_of, watch_by};
    ghost use Rattle.mq_spec_network.specs.Tasks.Slot.{Sends, Receives, TimesOut};
    ghost use Rattle.mq_spec_network.specs.Steps.{Is, is_cut};
    ghost use Rattle.mq_spec_network.specs.Lawful.{handles_idle};
    ghost use Rattle.mq_nodes.specs.Course.{Course, Ready, noted};
    ghost use Rattle.mq_nodes.specs.Told.{Does, HandlerTold, LineTold, NeverWants, Part, Says, TurnTold, later};
    ghost use Rattle.mq_nodes.specs.Pumps.{AllStill, TurnIn};
    ghost use Rattle.mq_nodes.specs.Carried.{AllCarried};
    ghost use Rattle.mq_sc_parse.specs.declared.command.Command.{Command};

    ghost course: { Self → Course };

    /// The commands that a node can be given.
    ghost may_obey: { Command → Type 0 };

    /// How many managers there are.
    fn managers(&self) -> u16
        ensures { result ≡ length (course self.now).net.scenario.managers };

    /// The moment of a manager, in milliseconds since 1970.
    fn moment(&self, manager: u16) -> u64
        requires there { manager < length (course self.now).net.scenario.managers }
        ensures { result ≡ moment_of (node_at (course self.now).net manager) };

    /// The operator gives a manager a command.
    fn obey(&mut self, manager: u16, command: &Command) -> Result<(), Stop>
        requires ready { Ready (course self.old).net }
        requires there { manager < length (course self.old).net.scenario.managers }
        requires may { may_obey command.now }
        ensures { Does (Is manager actors.Operator (calls.Act (acts.Obey command.now))) result (course self.old) (course self.new) };

    /// The moment of a manager advances by so many milliseconds, to 253,402,300,799,999 at most.
    fn advance_clock(&mut self, manager: u16, ms: u64) -> Result<(), Stop>
        requires ready { Ready (course self.old).net }
        requires there { manager < length (course self.old).net.scenario.managers }
        ensures told { Does (Is manager actors.Clock (calls.Act (acts.Clock ms))) result (course self.old) (course self.new) }
        ensures moment { OnOk result (moment_of (node_at (course self.new).net manager) ≡ later (moment_of (node_at (course self.old).net manager)) ms) };

    /// Does a script's next line, unless its get is to wait, or no line is left. A get that is to wait keeps its deadline
    /// until it is done.
    fn advance(&mut self, script: u16, part: &ScriptPart) -> Result<Advanced, Stop>
        requires ready { Ready (course self.old).net }
        requires there { slice_get (course self.old).net.scenario.scripts script ≡ Some part.now }
        requires manager { part.now.manager < length (course self.old).net.scenario.managers }
        ensures { LineTold script part.now result (course self.old) (course self.new) };

    /// How many cables there are.
    fn cables(&self) -> u16
        ensures { result ≡ length (course self.now).net.scenario.cables };

    /// The sender of a cable takes a turn, if it changes something: whether it did.
    fn sender_turn(&mut self, cable: u16) -> Result<bool, Stop>
        requires ready { Ready (course self.old).net }
        requires there { cable < length (course self.old).net.scenario.cables }
        ensures { TurnIn Sends cable result (course self.old) (course self.new) };

    /// The receiver of a cable, likewise.
    fn receiver_turn(&mut self, cable: u16) -> Result<bool, Stop>
        requires ready { Ready (course self.old).net }
        requires there { cable < length (course self.old).net.scenario.cables }
        ensures { TurnIn Receives cable result (course self.old) (course self.new) };

    /// A timeout comes to the sender of a cable, if it waits for an answer: whether it did. It takes no memory, and never answers
    /// want of it.
    fn timeout(&mut self, cable: u16) -> Result<bool, Stop>
        requires ready { Ready (course self.old).net }
        requires there { cable < length (course self.old).net.scenario.cables }
        ensures told { TurnIn TimesOut cable result (course self.old) (course self.new) }
        ensures room { NeverWants result };

    /// Whether nothing can change. That is so where no turn and no timeout would change a thing.
    fn is_idle(&self) -> bool
        ensures value { result ≡ is_idle (course self.now).net }
        ensures law { AllStill (course self.now).net → is_idle (course self.now).net ≡ true };

    /// The handler of a rules table takes a turn, if it isn't idle: whether it did.
    fn handler_turn(&mut self, rules: u16) -> Result<bool, Stop>
        requires ready { Ready (course self.old).net }
        requires there { rules < length (course self.old).net.scenario.rules }
        ensures { HandlerTold rules result (course self.old) (course self.new) };

    /// Whether the handler's next turn would be idle.
    fn handler_idle(&self, rules: u16) -> bool
        requires there { rules < length (course self.now).net.scenario.rules }
        ensures { result ≡ handles_idle rules (slice_get (course self.now).net.scenario.rules rules) (course self.now).net };

    /// A monitor takes a turn, if there is a message to get.
    fn monitor_turn(&mut self, monitor: u16) -> Result<Monitored, Stop>
        requires ready { Ready (course self.old).net }
        requires there { monitor < length (course self.old).net.scenario.monitors }
        ensures { TurnTold monitor result (course self.old) (course self.new) };

    /// A monitor that isn't connected connects and opens its queue; where that fails, it disconnects.
    fn watch(&mut self, monitor: u16) -> Result<(), Stop>
        requires ready { Ready (course self.old).net }
        requires there { monitor < length (course self.old).net.scenario.monitors }
        ensures { Part (watch_by monitor (slice_get (course self.old).net.scenario.monitors monitor)) result (course self.old) (course self.new) };

    /// Whether a manager is up.
    fn is_up(&self, manager: u16) -> bool
        requires there { manager < length (course self.now).net.scenario.managers }
        ensures { result ≡ is_up_at (node_at (course self.now).net manager) };

    /// The operator stops a manager.
    fn crash(&mut self, manager: u16) -> Result<(), Stop>
        requires ready { Ready (course self.old).net }
        requires there { manager < length (course self.old).net.scenario.managers }
        ensures { Does (Is manager actors.Operator (calls.Act acts.Crash)) result (course self.old) (course self.new) };

    /// The operator restarts a manager: whether an armed cut stopped that.
    fn restart(&mut self, manager: u16) -> Result<bool, Stop>
        requires ready { Ready (course self.old).net }
        requires there { manager < length (course self.old).net.scenario.managers }
        ensures { Says (Is manager actors.Operator (calls.Act acts.Restart)) (λ cut e. is_cut e.reply ≡ cut) result (course self.old) (course self.new) };

    /// The operator arms a cut: the device call of this number from now on is stopped.
    fn cut(&mut self, manager: u16, device_calls: u32) -> Result<(), Stop>
        requires ready { Ready (course self.old).net }
        requires there { manager < length (course self.old).net.scenario.managers }
        ensures { Does (Is manager actors.Operator (calls.Act (acts.Cut device_calls))) result (course self.old) (course self.new) };

    /// Ends a step: each manager notes how many events it did so far, and whether the step ended idle. Between steps each end
    /// of a cable has popped what the other offered, and no more.
    fn mark(&mut self, idle: bool)
        requires room { (m : ℕ) → length ((course self.old).marks m) < length (course self.old).net.scenario.steps }
        ensures noted { course self.new ≡ noted idle (course self.old) }
        ensures carried { AllCarried (course self.old).net };
}
