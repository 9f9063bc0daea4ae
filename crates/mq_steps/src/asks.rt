//! Commands of a section, and the clocks of all managers: one event each.
ghost use Rattle.std.specs.Prelude.{◌≡◌, ◌<◌, OnOk, length, All, slice_get};
ghost use Rattle.mq_history.specs.declared.scenario.Section.{Section};
ghost use Rattle.mq_spec_network.specs.Tasks as tasks;
ghost use Rattle.mq_nodes.specs.Course.{Ready};
ghost use Rattle.mq_nodes.specs.Told.{Part, Clocked};

use mq_history::Scenario;
use mq_nodes::{Nodes, Stop};
use mq_sc_parse::Command;

/// The operator gives a manager these commands, one after the other.
#[tactic(auto, using(mq_nodes::proofs::Onward::begin, mq_nodes::proofs::Asking::obeys, mq_nodes::proofs::Asking::obey_fails, mq_nodes::proofs::Asking::obeyed))]
pub fn obey_all<N: Nodes>(nodes: &mut N, manager: u16, commands: &[Command]) -> Result<(), Stop>
    requires ready { Ready (N.course nodes.old).net }
    requires there { manager < length (N.course nodes.old).net.scenario.managers }
    requires may { All N.may_obey commands.now }
    ensures { Part (tasks.obey_all manager commands.now) result (N.course nodes.old) (N.course nodes.new) }
{
    for command in commands {
        nodes.obey(manager, command)?;
    }
    Ok(())
}

/// Does a section of commands.
pub fn obey<N: Nodes>(nodes: &mut N, scenario: &Scenario, section: u16) -> Result<(), Stop>
    requires ready { Ready (N.course nodes.old).net }
    requires same { (N.course nodes.old).net.scenario ≡ scenario.now }
    requires sections { All (λ (p : Section). p.manager < length scenario.now.managers) scenario.now.sections }
    requires may { All (λ (p : Section). All N.may_obey p.commands) scenario.now.sections }
    ensures { Part (tasks.obey_section (slice_get scenario.now.sections section)) result (N.course nodes.old) (N.course nodes.new) }
{
    let Some(part) = scenario.sections.get(usize::from(section)) else {
        return Ok(());
    };
    obey_all(nodes, part.manager, part.commands.as_slice())
}

/// The moments of all managers advance by so many milliseconds, manager by manager.
#[tactic(auto, using(mq_nodes::proofs::ClockLaws::begins, mq_nodes::proofs::ClockLaws::keeps, mq_nodes::proofs::ClockLaws::fails, mq_nodes::proofs::ClockLaws::over, mq_nodes::proofs::ClockLaws::all_clocked))]
pub fn clocks<N: Nodes>(nodes: &mut N, ms: u64) -> Result<(), Stop>
    requires ready { Ready (N.course nodes.old).net }
    ensures told { Part (tasks.clocks (N.course nodes.old).net.scenario ms) result (N.course nodes.old) (N.course nodes.new) }
    ensures clocked { OnOk result (Clocked (length (N.course nodes.old).net.scenario.managers) ms (N.course nodes.old) (N.course nodes.new)) }
{
    for manager in 0..nodes.managers() {
        nodes.advance_clock(manager, ms)?;
    }
    Ok(())
}
