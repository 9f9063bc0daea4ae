//! PHASE: its scripts and the ends of channels go on in any order; then the scripts, one after the other, each to its end.
ghost use Rattle.std.specs.Prelude.{◌≡◌, ◌<◌, All, length};
ghost use Rattle.mq_history.specs.Scenarios.{ArePhased};
ghost use Rattle.mq_history.specs.declared.scenario.ScriptPart as parts;
ghost use Rattle.mq_history.specs.declared.scenario.Step.TheVariants as kinds;
ghost use Rattle.mq_spec_network.specs.Tasks.{tasks_of};
ghost use Rattle.mq_nodes.specs.Course.{Ready, Rests};
ghost use Rattle.mq_nodes.specs.Told.{Part, PhaseTold};

use crate::lines::finish;
use mq_history::Scenario;
use mq_nodes::{Nodes, Stop};

/// A phase: its scripts and the ends of channels go on as `go` lets them; what is left of the scripts is then done, script by script. A get that
/// waited keeps its deadline.
pub fn phase<N: Nodes, F: Fn(&mut N, &[u16]) -> Result<(), Stop>>(
    nodes: &mut N,
    scenario: &Scenario,
    scripts: &[u16],
    go: &F,
) -> Result<(), Stop>
    requires ready { Ready (N.course nodes.old).net }
    requires rests { Rests (N.course nodes.old) }
    requires same { (N.course nodes.old).net.scenario ≡ scenario.now }
    requires scripts { All (λ (p : parts.ScriptPart). p.manager < length scenario.now.managers) scenario.now.scripts }
    requires phased { ArePhased scenario.now scripts.now }
    requires phase_may { (n : _) (ks : _) → Ready (N.course n.now).net → Rests (N.course n.now) → (N.course n.now).net.scenario ≡ scenario.now → ArePhased scenario.now ks.now → F.pre go.now n ks }
    requires phase_told { (n : _) (ks : _) (r : _) (m : _) → F.post go.now n ks r m → PhaseTold ks.now r (N.course n.now) (N.course m.now) }
    ensures { Part (tasks_of (N.course nodes.old).net (kinds.Phase scripts.now)) result (N.course nodes.old) (N.course nodes.new) }
{
    go(nodes, scripts)?;
    for script in scripts {
        finish(nodes, scenario, *script)?;
    }
    Ok(())
}
