//! Commands on objects, as events.
ghost use Rattle.std.specs.Prelude.{◌≡◌};
ghost use Rattle.mq_manager.specs.from_law_image.Values.{IsCommandText};
ghost use Rattle.mq_sc_parse.specs.declared.command.Command.TheVariants as commands;
ghost use Rattle.mq_history.specs.declared.acts.Act.TheVariants as acts;
ghost use Rattle.mq_history.specs.declared.calls.Call.TheVariants as calls;
ghost use Rattle.mq_events.specs.Outcomes.{ObeysAs};
ghost use Rattle.mq_events.specs.States.{IsKept, IsServed};
ghost use Rattle.mq_events.specs.Counts.{KeepsCounts};
ghost use Rattle.mq_events.specs.Events.{MayAct, ActsAs};

use crate::obeying::obey;
use crate::outcome::Obeyed;
use crate::state::NodeParts;
use mq_base::NoMemory;
use mq_disk::Disk;
use mq_history::{Act, Acted, Actor, Call};
use mq_sc_parse::Command;

impl<D: Disk> NodeParts<D> {
    /// A command on objects at the manager.
    fn obey(&mut self, asked: &mq_objects::Command) -> Result<Obeyed, NoMemory>
        requires text { IsCommandText asked.now }
        ensures same { self.new ≡ record self.old { manager = self.new.manager } }
        ensures ends { ObeysAs asked.now self.old.manager result self.new.manager }
    {
        obey(&mut self.manager, self.alloc, asked)
    }

    /// A command on objects, as an event.
    ///
    /// # Errors
    ///
    /// No memory; nothing has changed.
    #[tactic(auto, using(crate::proofs::KeepLaws::roomed_counts, crate::proofs::KeepLaws::asked_counts, crate::proofs::KeepLaws::finished_counts))]
    pub fn command(&mut self, actor: Actor, asked: mq_objects::Command) -> Result<Acted, NoMemory>
        requires kept { IsKept self.old }
        requires served { IsServed self.old }
        requires may { MayAct self.old }
        requires text { IsCommandText asked }
        ensures kept { IsKept self.new }
        ensures did { ActsAs actor (calls.Act (acts.Obey (commands.Objects asked))) self.old result self.new }
        ensures counts { KeepsCounts self.old self.new }
    {
        self.reserve(1)?;
        match self.obey(&asked) {
            Err(NoMemory) => Err(NoMemory),
            Ok(obeyed) => {
                let Obeyed { outcome, acted } = obeyed;
                self.finish(
                    actor,
                    Call::Act(Act::Obey(Command::Objects(asked))),
                    outcome,
                );
                Ok(acted)
            }
        }
    }
}
