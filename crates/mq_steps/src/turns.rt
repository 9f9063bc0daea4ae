//! HANDLE, SERVE and WATCH: turns of a handler and of a monitor, with the scripts that it begins.
ghost use Rattle.std.specs.Prelude.{◌≡◌, ◌<◌, IfOk, All, length, slice_get};
ghost use Rattle.mq_history.specs.declared.scenario.ScriptPart as parts;
ghost use Rattle.mq_spec_network.specs.Lawful.{handles_idle};
ghost use Rattle.mq_spec_network.specs.Tasks.{handle_with, serve_by};
ghost use Rattle.mq_nodes.specs.Course.{Ready, Rests};
ghost use Rattle.mq_nodes.specs.Told.{Part};
ghost use Rattle.mq_steps.specs.Served.{ServedTold};

use crate::lines::run;
use mq_history::Scenario;
use mq_nodes::{Monitored, Nodes, Stop};

/// Takes so many turns of a handler, or as many as there are until the next would be idle: whether it would be.
pub fn handle<N: Nodes>(
    nodes: &mut N,
    scenario: &Scenario,
    rules: u16,
    turns: u32,
) -> Result<bool, Stop>
    requires ready { Ready (N.course nodes.old).net }
    requires same { (N.course nodes.old).net.scenario ≡ scenario.now }
    ensures told { Part (handle_with rules turns (slice_get scenario.now.rules rules)) result (N.course nodes.old) (N.course nodes.new) }
    ensures idle { IfOk result (λ idle. idle ≡ handles_idle rules (slice_get scenario.now.rules rules) (N.course nodes.new).net) }
{
    if usize::from(rules) >= scenario.rules.len() {
        return Ok(false);
    }
    for _ in 0..turns {
        if !nodes.handler_turn(rules)? {
            return Ok(true);
        }
    }
    Ok(nodes.handler_idle(rules))
}

/// A monitor takes a turn: whether there was a message to get. A script that it begins runs to its end.
fn serve_once<N: Nodes>(nodes: &mut N, scenario: &Scenario, monitor: u16) -> Result<bool, Stop>
    requires ready { Ready (N.course nodes.old).net }
    requires rests { Rests (N.course nodes.old) }
    requires there { monitor < length (N.course nodes.old).net.scenario.monitors }
    requires same { (N.course nodes.old).net.scenario ≡ scenario.now }
    requires scripts { All (λ (p : parts.ScriptPart). p.manager < length scenario.now.managers) scenario.now.scripts }
    ensures { ServedTold monitor result (N.course nodes.old) (N.course nodes.new) }
{
    match nodes.monitor_turn(monitor)? {
        Monitored::Idle => Ok(false),
        Monitored::Got => Ok(true),
        Monitored::Started(script) => {
            run(nodes, scenario, script, None)?;
            Ok(true)
        }
    }
}

/// Takes so many turns of a monitor, or as many as there are until it finds no message. A script that it begins runs to its
/// end.
pub fn serve<N: Nodes>(
    nodes: &mut N,
    scenario: &Scenario,
    monitor: u16,
    turns: u32,
) -> Result<(), Stop>
    requires ready { Ready (N.course nodes.old).net }
    requires rests { Rests (N.course nodes.old) }
    requires same { (N.course nodes.old).net.scenario ≡ scenario.now }
    requires scripts { All (λ (p : parts.ScriptPart). p.manager < length scenario.now.managers) scenario.now.scripts }
    ensures { Part (serve_by monitor turns (slice_get scenario.now.monitors monitor)) result (N.course nodes.old) (N.course nodes.new) }
{
    if usize::from(monitor) >= scenario.monitors.len() {
        return Ok(());
    }
    for _ in 0..turns {
        if !serve_once(nodes, scenario, monitor)? {
            return Ok(());
        }
    }
    Ok(())
}
