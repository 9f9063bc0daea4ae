//! A phase: scripts and the ends of channels go on in threads.
ghost use Rattle.std.specs.Prelude.{◌≡◌, length};
ghost use Rattle.mq_world.specs.Words as words;

use crate::parts::NetParts;
use mq_disk::Disk;
use mq_gate::Gate;
use mq_history::Scenario;
use mq_nodes::Stop;
use mq_shared::phase;
use std::sync::Wait;
use std::thread::Threads;

impl<D: Disk + Send> NetParts<D> {
    /// Scripts, places in the scenario, and the ends of channels go on in threads. Behind it the next line of each of these scripts that is a
    /// get keeps its deadline, from the phase's moment; no other get waits.
    #[tactic(auto, using(crate::proofs::PhaseLaws::phase_tells, crate::proofs::PhaseLaws::phase_long))]
    pub fn run_phase<R: Threads + Wait + Sync, G: Gate + Sync>(
        &mut self,
        rt: &R,
        gate: &G,
        scenario: &Scenario,
        scripts: &[u16],
    ) -> Result<(), Stop>
        requires kept { words.IsNetwork self.old }
        requires ready { words.Ready (words.course_in self.old).net }
        requires rests { words.Rests (words.course_in self.old) }
        requires same { self.old.scenario ≡ scenario.now }
        requires phased { words.ArePhased scenario.now scripts.now }
        ensures kept { words.IsNetwork self.new }
        ensures told { words.PhaseTold scripts.now result (words.course_in self.old) (words.course_in self.new) }
        ensures own { D.tells → words.StaysOwnIn self.old self.new }
        ensures long { length self.new.nodes ≡ length self.old.nodes }
    {
        phase(
            rt,
            self.alloc,
            gate,
            scenario,
            scripts,
            &mut self.nodes,
            &mut self.scripts,
            &mut self.cables,
        )
    }
}
