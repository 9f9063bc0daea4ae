//! What a step or a script asks of a node beside MQI calls: a stop, a cut, a moment that advances.
ghost use Rattle.std.specs.Prelude.{◌≡◌, ◌<◌};
ghost use Rattle.mq_history.specs.declared.acts.Act.TheVariants as acts;
ghost use Rattle.mq_history.specs.declared.calls.Call.TheVariants as calls;
ghost use Rattle.mq_events.specs.States.{IsKept, IsServed};
ghost use Rattle.mq_spec_node.specs.Terms.{Answered, advance_clock, cut, stop};
ghost use Rattle.mq_events.specs.Counts.{KeepsCounts};
ghost use Rattle.mq_events.specs.Events.{MayAct, ActsAs, acted_by, own_by};

use crate::state::NodeParts;
use mq_base::NoMemory;
use mq_disk::Disk;
use mq_history::{Act, Acted, Actor};

/// The answer of a stop, of a manager that was up or not.
fn acted_by(up: bool) -> Acted
    ensures { result ≡ acted_by up }
{
    if up { Acted::Done } else { Acted::Down }
}

impl<D: Disk> NodeParts<D> {
    /// A stop of the manager.
    fn stop(&mut self) -> bool
        ensures same { self.new ≡ record self.old { manager = self.new.manager; own = own_by result self.old.own } }
        ensures answer { (stop self.old.manager.plain).outcome ≡ Answered result }
        ensures after { self.new.manager.plain ≡ (stop self.old.manager.plain).next }
        ensures faults { self.new.manager.faults ≡ self.old.manager.faults }
    {
        if self.manager.stop() {
            self.own.rest();
            true
        } else {
            false
        }
    }

    fn arm(&mut self, k: u32)
        ensures same { self.new ≡ record self.old { manager = self.new.manager } }
        ensures after { self.new.manager.plain ≡ cut k self.old.manager.plain }
        ensures faults { self.new.manager.faults ≡ self.old.manager.faults }
    {
        self.manager.cut(k);
    }

    fn later(&mut self, by: u64)
        ensures same { self.new ≡ record self.old { manager = self.new.manager } }
        ensures after { self.new.manager.plain ≡ advance_clock by self.old.manager.plain }
        ensures faults { self.new.manager.faults ≡ self.old.manager.faults }
    {
        self.manager.advance_clock(by);
    }

    /// A stop, as an event. `Down` exactly where the manager is down already.
    ///
    /// # Errors
    ///
    /// No memory; nothing has changed.
    #[tactic(auto, using(crate::proofs::KeepLaws::roomed_counts, crate::proofs::KeepLaws::stopped_counts))]
    pub fn crash(&mut self, actor: Actor) -> Result<Acted, NoMemory>
        requires kept { IsKept self.old }
        requires served { IsServed self.old }
        requires may { MayAct self.old }
        ensures kept { IsKept self.new }
        ensures did { ActsAs actor (calls.Act acts.Crash) self.old result self.new }
        ensures counts { KeepsCounts self.old self.new }
    {
        self.reserve(1)?;
        let up = self.stop();
        self.finish_act(actor, Act::Crash, acted_by(up));
        Ok(acted_by(up))
    }

    /// A device call from now on is to be stopped, as an event.
    ///
    /// # Errors
    ///
    /// No memory; nothing has changed.
    #[tactic(auto, using(crate::proofs::KeepLaws::roomed_counts, crate::proofs::KeepLaws::acted_counts))]
    pub fn cut(&mut self, actor: Actor, k: u32) -> Result<Acted, NoMemory>
        requires kept { IsKept self.old }
        requires served { IsServed self.old }
        requires may { MayAct self.old }
        ensures kept { IsKept self.new }
        ensures did { ActsAs actor (calls.Act (acts.Cut k)) self.old result self.new }
        ensures counts { KeepsCounts self.old self.new }
    {
        self.reserve(1)?;
        self.arm(k);
        self.finish_act(actor, Act::Cut(k), Acted::Done);
        Ok(Acted::Done)
    }

    /// The moment advances by so many milliseconds, as an event.
    ///
    /// # Errors
    ///
    /// No memory; nothing has changed.
    #[tactic(auto, using(crate::proofs::KeepLaws::roomed_counts, crate::proofs::KeepLaws::acted_counts))]
    pub fn advance_clock(&mut self, actor: Actor, by: u64) -> Result<Acted, NoMemory>
        requires kept { IsKept self.old }
        requires served { IsServed self.old }
        requires may { MayAct self.old }
        ensures kept { IsKept self.new }
        ensures did { ActsAs actor (calls.Act (acts.Clock by)) self.old result self.new }
        ensures counts { KeepsCounts self.old self.new }
    {
        self.reserve(1)?;
        self.later(by);
        self.finish_act(actor, Act::Clock(by), Acted::Done);
        Ok(Acted::Done)
    }
}
