//! Lines of a script, with gets that wait: the clocks advance to the deadline, and then the get is made.
ghost use Rattle.std.specs.Prelude.{◌≡◌, ◌<◌, Some, None, All, length, slice_get};
ghost use Rattle.mq_history.specs.declared.scenario.ScriptPart as parts;
ghost use Rattle.mq_spec_network.specs.Tasks.{run_script};
ghost use Rattle.mq_nodes.specs.Course.{Ready, Rests};
ghost use Rattle.mq_nodes.specs.Told.{Part, LineRan, MayTry, upto};
ghost use Rattle.mq_steps.specs.Lines.{FinishRan, LinesTold, number_or};

use crate::asks::clocks;
use mq_history::{Scenario, ScriptPart};
use mq_nodes::{Advanced, Nodes, Stop};

/// Does a script's next line, if one is left: whether one was. A get that is to wait waits: the moments of all managers
/// advance to its deadline first, which is kept from its first try.
#[tactic(auto, using(mq_nodes::proofs::LineLaws::line_done, mq_nodes::proofs::LineLaws::line_ends, mq_nodes::proofs::LineLaws::line_breaks, mq_nodes::proofs::WaitLaws::not_late))]
fn line<N: Nodes>(nodes: &mut N, script: u16, part: &ScriptPart) -> Result<bool, Stop>
    requires ready { Ready (N.course nodes.old).net }
    requires tried { MayTry script part.now (N.course nodes.old) }
    requires there { slice_get (N.course nodes.old).net.scenario.scripts script ≡ Some part.now }
    requires manager { part.now.manager < length (N.course nodes.old).net.scenario.managers }
    ensures { LineRan script part.now result (N.course nodes.old) (N.course nodes.new) }
{
    match nodes.advance(script, part)? {
        Advanced::Done => Ok(true),
        Advanced::Ended => Ok(false),
        Advanced::Waiting(deadline) => {
            let ms = deadline - nodes.moment(part.manager);
            clocks(nodes, ms)?;
            nodes.advance(script, part)?;
            Ok(true)
        }
    }
}

/// Does a script's next lines, at most so many.
fn lines<N: Nodes>(nodes: &mut N, script: u16, part: &ScriptPart, most: usize) -> Result<(), Stop>
    requires ready { Ready (N.course nodes.old).net }
    requires rests { (N.course nodes.old).waits script ≡ None }
    requires there { slice_get (N.course nodes.old).net.scenario.scripts script ≡ Some part.now }
    requires manager { part.now.manager < length (N.course nodes.old).net.scenario.managers }
    ensures { LinesTold script (upto script part.now None most (N.course nodes.old)) result (N.course nodes.old) (N.course nodes.new) }
{
    for _ in 0..most {
        if !line(nodes, script, part)? {
            return Ok(());
        }
    }
    Ok(())
}

/// So many lines, or all of them.
fn number(most: Option<u32>, all: usize) -> usize
    ensures { result ≡ number_or most all }
{
    match most {
        Some(most) => most as usize,
        None => all,
    }
}

/// Does the next lines of a script: so many, or all that are left where they are fewer or no number is given.
pub fn run<N: Nodes>(
    nodes: &mut N,
    scenario: &Scenario,
    script: u16,
    most: Option<u32>,
) -> Result<(), Stop>
    requires ready { Ready (N.course nodes.old).net }
    requires rests { Rests (N.course nodes.old) }
    requires same { (N.course nodes.old).net.scenario ≡ scenario.now }
    requires scripts { All (λ (p : parts.ScriptPart). p.manager < length scenario.now.managers) scenario.now.scripts }
    ensures { Part (run_script script most (slice_get scenario.now.scripts script)) result (N.course nodes.old) (N.course nodes.new) }
{
    let Some(part) = scenario.scripts.get(usize::from(script)) else {
        return Ok(());
    };
    lines(nodes, script, part, number(most, part.lines.len()))
}

/// Does all that is left of a script, whose next line may have been tried before.
pub fn finish<N: Nodes>(nodes: &mut N, scenario: &Scenario, script: u16) -> Result<(), Stop>
    requires ready { Ready (N.course nodes.old).net }
    requires tried { (p : parts.ScriptPart) → slice_get scenario.now.scripts script ≡ Some p → MayTry script p (N.course nodes.old) }
    requires same { (N.course nodes.old).net.scenario ≡ scenario.now }
    requires scripts { All (λ (p : parts.ScriptPart). p.manager < length scenario.now.managers) scenario.now.scripts }
    ensures { FinishRan script (slice_get scenario.now.scripts script) result (N.course nodes.old) (N.course nodes.new) }
{
    let Some(part) = scenario.scripts.get(usize::from(script)) else {
        return Ok(());
    };
    if !line(nodes, script, part)? {
        return Ok(());
    }
    lines(nodes, script, part, part.lines.len())
}
