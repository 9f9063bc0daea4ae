//! The whole run: step by step, each with its mark, and last the restarts of managers that are down.
ghost use Rattle.std.specs.Prelude.{◌≡◌, ◌<◌, ◌∷◌, [], List, OnOk, IfOk, length, All};
ghost use Rattle.mq_history.specs.Scenarios.{ArePhased, IsScenario, IsStep};
ghost use Rattle.mq_history.specs.declared.history.History as histories;
ghost use Rattle.mq_history.specs.declared.scenario.Step.TheVariants as kinds;
ghost use Rattle.mq_spec_network.specs.Lawful.{AreSteps, IsDone, ends_idle};
ghost use Rattle.mq_spec_network.specs.Tasks.{restarts_from, tasks_of};
ghost use Rattle.mq_spec_network.specs.Tasks.Task.{Restart};
ghost use Rattle.mq_nodes.specs.Course.{Ready, Rests};
ghost use Rattle.mq_nodes.specs.Told.{Part, PhaseTold, Ran, Has};
ghost use Rattle.mq_nodes.specs.Runs.{StepsTold, Unmarked, never_idle};
ghost use Rattle.mq_nodes.specs.Texts.{AllFit, StepFits};
ghost use Rattle.mq_nodes.specs.Carried.{AreCarriedSoFar, IsCarriedSoFar};
ghost use Rattle.mq_history.specs.declared.scenario.Section.{Section};
ghost use Rattle.mq_steps.specs.Counts.{idle_or_spent};

use crate::asks::{clocks, obey};
use crate::lines::run;
use crate::phases::phase;
use crate::pumping::{Pumped, pump};
use crate::turns::{handle, serve};
use mq_base::NoMemory;
use mq_history::{Scenario, Step};
use mq_nodes::{Nodes, Stop};
use mq_sc_parse::Command;

/// Of a step that is never idle.
fn not_idle(done: Result<(), Stop>) -> Result<bool, Stop>
    ensures { result ≡ never_idle done }
{
    match done {
        Ok(()) => Ok(false),
        Err(stop) => Err(stop),
    }
}

/// Of a PUMP: whether it ended idle, or that the run ends.
fn pump_idle(pumped: Result<Pumped, NoMemory>) -> Result<bool, Stop>
    ensures { result ≡ idle_or_spent pumped }
{
    match pumped {
        Ok(pumped) => match pumped.spent {
            None => Ok(pumped.idle),
            Some(manager) => Err(Stop::Spent(manager)),
        },
        Err(NoMemory) => Err(Stop::NoMemory),
    }
}

/// Restarts a manager, whatever comes of it.
fn restart_once<N: Nodes>(nodes: &mut N, manager: u16) -> Result<(), Stop>
    requires ready { Ready (N.course nodes.old).net }
    requires there { manager < length (N.course nodes.old).net.scenario.managers }
    ensures { Part (tasks_of (N.course nodes.old).net (kinds.Restart manager)) result (N.course nodes.old) (N.course nodes.new) }
{
    nodes.restart(manager)?;
    Ok(())
}

/// The operator gives a manager a command.
fn command_once<N: Nodes>(nodes: &mut N, manager: u16, command: &Command) -> Result<(), Stop>
    requires ready { Ready (N.course nodes.old).net }
    requires there { manager < length (N.course nodes.old).net.scenario.managers }
    requires may { N.may_obey command.now }
    ensures { Part (tasks_of (N.course nodes.old).net (kinds.Do manager command.now)) result (N.course nodes.old) (N.course nodes.new) }
{
    nodes.obey(manager, command)
}

/// The operator stops a manager.
fn crash_once<N: Nodes>(nodes: &mut N, manager: u16) -> Result<(), Stop>
    requires ready { Ready (N.course nodes.old).net }
    requires there { manager < length (N.course nodes.old).net.scenario.managers }
    ensures { Part (tasks_of (N.course nodes.old).net (kinds.Crash manager)) result (N.course nodes.old) (N.course nodes.new) }
{
    nodes.crash(manager)
}

/// The operator arms a cut.
fn cut_once<N: Nodes>(nodes: &mut N, manager: u16, device_calls: u32) -> Result<(), Stop>
    requires ready { Ready (N.course nodes.old).net }
    requires there { manager < length (N.course nodes.old).net.scenario.managers }
    ensures { Part (tasks_of (N.course nodes.old).net (kinds.Cut manager device_calls)) result (N.course nodes.old) (N.course nodes.new) }
{
    nodes.cut(manager, device_calls)
}

/// Does a step: whether it was a PUMP or a HANDLE that ended idle.
fn do_step<N: Nodes, F: Fn(&mut N, &[u16]) -> Result<(), Stop>>(
    nodes: &mut N,
    scenario: &Scenario,
    step: &Step,
    go: &F,
) -> Result<bool, Stop>
    requires ready { Ready (N.course nodes.old).net }
    requires rests { Rests (N.course nodes.old) }
    requires same { (N.course nodes.old).net.scenario ≡ scenario.now }
    requires scenario { IsScenario scenario.now }
    requires step { IsStep scenario.now step.now }
    requires sections { All (λ (p : Section). All N.may_obey p.commands) scenario.now.sections }
    requires may { StepFits N.may_obey step.now }
    requires phase_may { (n : _) (ks : _) → Ready (N.course n.now).net → Rests (N.course n.now) → (N.course n.now).net.scenario ≡ scenario.now → ArePhased scenario.now ks.now → F.pre go.now n ks }
    requires phase_told { (n : _) (ks : _) (r : _) (m : _) → F.post go.now n ks r m → PhaseTold ks.now r (N.course n.now) (N.course m.now) }
    ensures told { Part (tasks_of (N.course nodes.old).net step.now) result (N.course nodes.old) (N.course nodes.new) }
    ensures idle { IfOk result (λ idle. idle ≡ ends_idle (N.course nodes.new).net step.now) }
{
    match step {
        Step::Obey(section) => not_idle(obey(nodes, scenario, *section)),
        Step::Do(manager, command) => not_idle(command_once(nodes, *manager, command)),
        Step::Run(script, most) => not_idle(run(nodes, scenario, *script, *most)),
        Step::Phase(scripts) => not_idle(phase(nodes, scenario, scripts.as_slice(), go)),
        Step::Pump(turns) => pump_idle(pump(nodes, *turns)),
        Step::Handle(rules, turns) => handle(nodes, scenario, *rules, *turns),
        Step::Watch(monitor) => not_idle(nodes.watch(*monitor)),
        Step::Serve(monitor, turns) => not_idle(serve(nodes, scenario, *monitor, *turns)),
        Step::Crash(manager) => not_idle(crash_once(nodes, *manager)),
        Step::Restart(manager) => not_idle(restart_once(nodes, *manager)),
        Step::Cut(manager, calls) => not_idle(cut_once(nodes, *manager, *calls)),
        Step::Clock(ms) => not_idle(clocks(nodes, *ms)),
    }
}

/// Does all steps, one after the other, each with its mark.
fn do_steps<N: Nodes, F: Fn(&mut N, &[u16]) -> Result<(), Stop>>(
    nodes: &mut N,
    scenario: &Scenario,
    go: &F,
) -> Result<(), Stop>
    requires ready { Ready (N.course nodes.old).net }
    requires rests { Rests (N.course nodes.old) }
    requires unmarked { Unmarked (N.course nodes.old) }
    requires same { (N.course nodes.old).net.scenario ≡ scenario.now }
    requires scenario { IsScenario scenario.now }
    requires may { AllFit N.may_obey scenario.now }
    requires phase_may { (n : _) (ks : _) → Ready (N.course n.now).net → Rests (N.course n.now) → (N.course n.now).net.scenario ≡ scenario.now → ArePhased scenario.now ks.now → F.pre go.now n ks }
    requires phase_told { (n : _) (ks : _) (r : _) (m : _) → F.post go.now n ks r m → PhaseTold ks.now r (N.course n.now) (N.course m.now) }
    ensures told { StepsTold result (N.course nodes.old) (N.course nodes.new) }
    ensures carried { IsCarriedSoFar (N.course nodes.new) }
{
    for step in scenario.steps.as_slice() {
        let idle = do_step(nodes, scenario, step, go)?;
        nodes.mark(idle);
    }
    Ok(())
}

/// Restarts a manager, if it is down; once more, where an armed cut stops that.
fn restart_if_down<N: Nodes>(nodes: &mut N, manager: u16) -> Result<(), Stop>
    requires ready { Ready (N.course nodes.old).net }
    requires there { manager < length (N.course nodes.old).net.scenario.managers }
    ensures { Part (Restart manager ∷ []) result (N.course nodes.old) (N.course nodes.new) }
{
    if nodes.is_up(manager) {
        return Ok(());
    }
    if nodes.restart(manager)? {
        return restart_once(nodes, manager);
    }
    Ok(())
}

/// Restarts each manager that is down, in order.
fn last_restarts<N: Nodes>(nodes: &mut N) -> Result<(), Stop>
    requires ready { Ready (N.course nodes.old).net }
    ensures { Part (restarts_from 0 (N.course nodes.old).net.scenario.managers) result (N.course nodes.old) (N.course nodes.new) }
{
    for manager in 0..nodes.managers() {
        restart_if_down(nodes, manager)?;
    }
    Ok(())
}

/// Does the steps of a scenario over nodes that have done nothing yet, and restarts last the managers that are down. Where it
/// ends early, what was done is a part of that. In a PHASE its scripts and the ends of channels go on as `go` lets them, which may start
/// threads: what each manager does then is said manager by manager. At the end of each step the ends of cables have popped what
/// was offered till then.
pub fn run_steps<N: Nodes, F: Fn(&mut N, &[u16]) -> Result<(), Stop>>(
    nodes: &mut N,
    scenario: &Scenario,
    go: &F,
) -> Result<(), Stop>
    requires ready { Ready (N.course nodes.old).net }
    requires rests { Rests (N.course nodes.old) }
    requires unmarked { Unmarked (N.course nodes.old) }
    requires same { (N.course nodes.old).net.scenario ≡ scenario.now }
    requires scenario { IsScenario scenario.now }
    requires may { AllFit N.may_obey scenario.now }
    requires phase_may { (n : _) (ks : _) → Ready (N.course n.now).net → Rests (N.course n.now) → (N.course n.now).net.scenario ≡ scenario.now → ArePhased scenario.now ks.now → F.pre go.now n ks }
    requires phase_told { (n : _) (ks : _) (r : _) (m : _) → F.post go.now n ks r m → PhaseTold ks.now r (N.course n.now) (N.course m.now) }
    ensures ran { Ran result (N.course nodes.old) (N.course nodes.new) }
    ensures lawful { (hs : List histories.History) → Has scenario.now hs (N.course nodes.old) (N.course nodes.new) → AreSteps scenario.now hs }
    ensures all { OnOk result ((hs : List histories.History) → Has scenario.now hs (N.course nodes.old) (N.course nodes.new) → IsDone scenario.now hs) }
    ensures carried { (hs : List histories.History) → Has scenario.now hs (N.course nodes.old) (N.course nodes.new) → AreCarriedSoFar scenario.now hs }
{
    do_steps(nodes, scenario, go)?;
    last_restarts(nodes)
}
