//! Events of applications, and trigger turns.
ghost use Rattle.std.specs.Prelude.{◌≡◌, ◌+◌, ◌<◌, Some, None};
ghost use Rattle.mq_frame.specs.declared.frame.Seen.TheVariants as items;
ghost use Rattle.mq_manager.specs.Facts.{MayCount};
ghost use Rattle.mq_spec_node.specs.Words.{deed_of};
ghost use Rattle.mq_events.specs.States.{IsKept, IsLow, IsServed, node_in, last_actor};
ghost use Rattle.mq_events.specs.Outcomes.{Ends, TurnEnds, next_due};
ghost use Rattle.mq_events.specs.Counts.{KeepsCounts};
ghost use Rattle.mq_events.specs.Events.{MayAct, IsMqi, EventIs, ServesOne};

use crate::calling::{
    mqback, mqclose, mqcmit, mqconn, mqdisc, mqget, mqopen, mqput, mqput1, trigger,
};
use crate::outcome::Outcome;
use crate::state::NodeParts;
use mq_base::{NoMemory, QName};
use mq_disk::Disk;
use mq_history::{Actor, Call, Entry};
use mq_manager::Manager;

/// An MQI call at the manager. None where it is a get that may wait still.
///
/// # Errors
///
/// No memory, where the get might wait; nothing has changed.
fn call<D: Disk>(manager: &mut Manager<D>, call: &Call) -> Result<Option<Outcome>, NoMemory>
    requires low { MayCount manager.old.plain }
    requires mqi { IsMqi call.now }
    ensures { Ends call.now manager.old result manager.new }
{
    match call {
        Call::Mqconn { qmgr, appl } => Ok(Some(mqconn(manager, qmgr, appl))),
        Call::Mqdisc { hc } => Ok(Some(mqdisc(manager, *hc))),
        Call::Mqopen {
            hc,
            name,
            qmgr,
            how,
        } => Ok(Some(mqopen(manager, *hc, name, qmgr, how))),
        Call::Mqclose { hc, ho } => Ok(Some(mqclose(manager, *hc, *ho))),
        Call::Mqput {
            hc,
            ho,
            md,
            body,
            sync,
        } => Ok(Some(mqput(manager, *hc, *ho, md, body.as_slice(), *sync))),
        Call::Mqput1 {
            hc,
            name,
            qmgr,
            md,
            body,
            sync,
        } => Ok(Some(mqput1(manager, *hc, name, qmgr, md, body.as_slice(), *sync))),
        Call::Mqget { hc, ho, get, until } => mqget(manager, *hc, *ho, get, *until),
        Call::Mqcmit { hc } => Ok(Some(mqcmit(manager, *hc))),
        Call::Mqback { hc } => Ok(Some(mqback(manager, *hc))),
        Call::Act(_) | Call::Turn | Call::Timeout | Call::Trigger => unreachable!(),
    }
}

fn actor_of(entry: &Entry) -> Actor
    ensures { result ≡ entry.now.actor }
{
    entry.actor
}

/// The actor of the last of these.
fn last_of(entries: &[Entry]) -> Option<Actor>
    ensures { result ≡ last_actor None entries.now }
{
    match entries.last() {
        None => None,
        Some(entry) => Some(actor_of(entry)),
    }
}

impl<D: Disk> NodeParts<D> {
    /// An MQI call at the manager.
    fn ask(&mut self, asked: &Call) -> Result<Option<Outcome>, NoMemory>
        requires low { IsLow self.old }
        requires mqi { IsMqi asked.now }
        ensures same { self.new ≡ record self.old { manager = self.new.manager } }
        ensures ends { Ends asked.now self.old.manager result self.new.manager }
    {
        call(&mut self.manager, asked)
    }

    /// A trigger turn at the manager.
    fn turn(&mut self, queue: QName) -> Result<Outcome, NoMemory>
        requires low { IsLow self.old }
        requires due { next_due self.old.manager.plain ≡ Some queue }
        ensures same { self.new ≡ record self.old { manager = self.new.manager } }
        ensures ends { TurnEnds self.old.manager result self.new.manager }
    {
        trigger(&mut self.manager, queue)
    }

    /// The queue whose trigger is served next.
    fn due(&self) -> Option<QName>
        ensures { result ≡ next_due self.now.manager.plain }
    {
        self.manager.next_due()
    }

    /// An MQI call as an event. False where it is a get that may wait still; nothing has changed then.
    ///
    /// # Errors
    ///
    /// No memory; nothing has changed.
    #[tactic(auto, using(crate::proofs::KeepLaws::roomed_counts, crate::proofs::KeepLaws::asked_counts, crate::proofs::KeepLaws::finished_counts))]
    pub fn apply(&mut self, actor: Actor, asked: Call) -> Result<bool, NoMemory>
        requires kept { IsKept self.old }
        requires served { IsServed self.old }
        requires may { MayAct self.old }
        requires low { IsLow self.old }
        requires mqi { IsMqi asked }
        ensures kept { IsKept self.new }
        ensures did { EventIs actor asked (deed_of (self.old.stamp + 1) actor asked items.Nothing (node_in self.old)) self.old result self.new }
        ensures counts { KeepsCounts self.old self.new }
    {
        self.reserve(1)?;
        match self.ask(&asked) {
            Err(NoMemory) => Err(NoMemory),
            Ok(None) => Ok(false),
            Ok(Some(outcome)) => {
                self.finish(actor, asked, outcome);
                Ok(true)
            }
        }
    }

    /// The actor of the last entry.
    fn last_actor(&self) -> Option<Actor>
        ensures { result ≡ last_actor None self.now.history.entries }
    {
        last_of(self.entries.as_slice())
    }

    /// A trigger turn for this queue, which is due, as an event of who acted last.
    ///
    /// # Errors
    ///
    /// No memory; nothing has changed.
    #[tactic(auto, using(crate::proofs::KeepLaws::roomed_counts, crate::proofs::KeepLaws::asked_counts, crate::proofs::KeepLaws::finished_counts))]
    fn take_turn(&mut self, actor: Actor, queue: QName) -> Result<bool, NoMemory>
        requires kept { IsKept self.old }
        requires may { MayAct self.old }
        requires low { IsLow self.old }
        requires due { next_due self.old.manager.plain ≡ Some queue }
        requires actor { last_actor None self.old.history.entries ≡ Some actor }
        ensures kept { IsKept self.new }
        ensures did { ServesOne self.old result self.new }
        ensures counts { KeepsCounts self.old self.new }
    {
        self.reserve(1)?;
        match self.turn(queue) {
            Err(NoMemory) => Err(NoMemory),
            Ok(outcome) => {
                self.finish(actor, Call::Trigger, outcome);
                Ok(true)
            }
        }
    }

    /// The trigger turn that is due next. False where none is due; nothing has changed then.
    ///
    /// # Errors
    ///
    /// No memory; nothing has changed.
    #[tactic(auto, using(crate::proofs::KeepLaws::same_counts))]
    pub fn serve_next(&mut self) -> Result<bool, NoMemory>
        requires kept { IsKept self.old }
        requires may { MayAct self.old }
        requires low { IsLow self.old }
        ensures kept { IsKept self.new }
        ensures did { ServesOne self.old result self.new }
        ensures counts { KeepsCounts self.old self.new }
    {
        match self.last_actor() {
            None => Ok(false),
            Some(actor) => self.serve_as(actor),
        }
    }

    /// The trigger turn that is due next, by who acted last. False where none is due; nothing has changed then.
    ///
    /// # Errors
    ///
    /// No memory; nothing has changed.
    #[tactic(auto, using(crate::proofs::KeepLaws::same_counts))]
    fn serve_as(&mut self, actor: Actor) -> Result<bool, NoMemory>
        requires kept { IsKept self.old }
        requires may { MayAct self.old }
        requires low { IsLow self.old }
        requires actor { last_actor None self.old.history.entries ≡ Some actor }
        ensures kept { IsKept self.new }
        ensures did { ServesOne self.old result self.new }
        ensures counts { KeepsCounts self.old self.new }
    {
        match self.due() {
            None => Ok(false),
            Some(queue) => self.take_turn(actor, queue),
        }
    }
}
