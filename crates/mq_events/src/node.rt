//! A node: a queue manager with its own, whose history replays.
ghost use Rattle.std.specs.Prelude.{◌≡◌, ◌+◌, ◌<◌, []};
ghost use Rattle.mq_frame.specs.declared.frame.Seen.TheVariants as items;
ghost use Rattle.mq_history.specs.declared.acts.Act.TheVariants as acts;
ghost use Rattle.mq_history.specs.declared.calls.Call.TheVariants as calls;
ghost use Rattle.mq_manager.specs.from_law_image.Values.{IsCommandText};
ghost use Rattle.mq_sc_parse.specs.declared.command.Command.TheVariants as commands;
ghost use Rattle.mq_calls.specs.Words.{is_up};
ghost use Rattle.mq_spec_node.specs.Words.{deed_of, is_spent, opening_node};
ghost use Rattle.mq_events.specs.States.{IsKept, IsServed, marked, node_in, value_of};
ghost use Rattle.mq_events.specs.Counts.{IsNode};
ghost use Rattle.mq_events.specs.Events.{ActsAs, EventIs, IsMqi, MayAct, ServesOne};

use crate::state::NodeParts;
use mq_base::NoMemory;
use mq_disk::Disk;
use mq_history::{Acted, Actor, Call, Entry, Mark};
use std::marker::Model;

/// A queue manager with its own, whose history leads to it: between calls it replays. Each call adds the entry of its event and
/// nothing else; the entry's room is taken before anything happens.
#[derive(Drop)]
pub struct Node<D: Disk> {
    /// Who changes these adds the entry of the event that does it.
    pub parts: NodeParts<D>,
}

impl<D: Disk> Model for Node<D> {
    ghost use Rattle.mq_events.specs.States.{NodeState};
    ghost use Rattle.mq_events.specs.Counts.{IsNode};

    ghost Value = { NodeState };

    ghost view = { λ n. n.parts };

    ghost invariant = { λ n. IsNode n.parts };
}

impl<D: Disk> Node<D> {
    /// A node of which nothing has happened: it is as its history opens. It takes no memory. Where a queue of its manager has
    /// more than 2^62 rows, its calls find no memory.
    pub fn new(mut parts: NodeParts<D>) -> Node<D>
        requires none { parts.history.entries ≡ [] }
        requires stamp { parts.stamp ≡ 0 }
        requires number { parts.history.number ≡ parts.given.given.number }
        requires name { parts.history.name ≡ parts.given.given.name }
        requires opens { node_in parts ≡ opening_node parts.given parts.history }
        ensures { result ≡ record parts { spare = result.spare } }
    {
        parts.recount();
        Node { parts }
    }

    /// What holds of it between its calls. It does nothing.
    pub fn facts(&self)
        ensures { IsNode self.now }
    {
        let _ = &self.parts;
    }

    /// Whether it has made all its events: 2^48, or one whose stamp is 2^60 or more.
    pub fn is_spent(&self) -> bool
        ensures spent { result ≡ is_spent (value_of self.now) }
        ensures kept { IsKept self.now }
    {
        self.parts.is_spent()
    }

    /// Whether its manager is up.
    pub fn is_up(&self) -> bool
        ensures { result ≡ is_up self.now.manager.plain.running }
    {
        self.parts.manager.is_up()
    }

    /// Its manager's moment, in milliseconds since 1970.
    pub fn moment(&self) -> u64
        ensures { result ≡ self.now.manager.plain.moment }
    {
        self.parts.manager.moment()
    }

    /// The entries of its history, in order, which replay.
    pub fn entries(&self) -> &[Entry]
        ensures entries { result.now ≡ self.now.history.entries }
        ensures kept { IsKept self.now }
    {
        self.parts.entries.as_slice()
    }

    /// The marks at the ends of steps.
    pub fn marks(&self) -> &[Mark]
        ensures { result.now ≡ self.now.history.marks }
    {
        self.parts.marks.as_slice()
    }

    /// Marks the end of a step, in room that was made for it; `idle` where it ended since nothing was left to do. It takes no
    /// memory.
    pub fn mark(&mut self, idle: bool)
        requires room { 0 < self.old.marks }
        ensures { self.new ≡ marked idle self.old }
    {
        self.parts.mark(idle);
    }

    /// An MQI call, as an event. False where it is a get that may wait still; nothing has changed then.
    ///
    /// # Errors
    ///
    /// No memory; nothing has changed.
    #[tactic(auto, using(crate::proofs::CountLaws::applied_counted, crate::proofs::CountLaws::node_low, crate::proofs::CountLaws::same_event))]
    pub fn apply(&mut self, actor: Actor, asked: Call) -> Result<bool, NoMemory>
        requires served { IsServed self.old }
        requires may { MayAct self.old }
        requires mqi { IsMqi asked }
        ensures { EventIs actor asked (deed_of (self.old.stamp + 1) actor asked items.Nothing (node_in self.old)) self.old result self.new }
    {
        if !self.parts.few {
            return Err(NoMemory);
        }
        self.parts.apply(actor, asked)
    }

    /// The trigger turn that is due next, by who acted last. False where none is due; nothing has changed then.
    ///
    /// # Errors
    ///
    /// No memory; nothing has changed, and the trigger stays due.
    #[tactic(auto, using(crate::proofs::CountLaws::served_counted, crate::proofs::CountLaws::node_low, crate::proofs::CountLaws::same_turn))]
    pub fn serve_next(&mut self) -> Result<bool, NoMemory>
        requires may { MayAct self.old }
        ensures { ServesOne self.old result self.new }
    {
        if !self.parts.few {
            return Err(NoMemory);
        }
        self.parts.serve_next()
    }

    /// A stop of the manager. `Down` exactly where it is down already.
    ///
    /// # Errors
    ///
    /// No memory; nothing has changed.
    #[tactic(auto, using(crate::proofs::CountLaws::acted_counted))]
    pub fn crash(&mut self, actor: Actor) -> Result<Acted, NoMemory>
        requires served { IsServed self.old }
        requires may { MayAct self.old }
        ensures { ActsAs actor (calls.Act acts.Crash) self.old result self.new }
    {
        self.parts.crash(actor)
    }

    /// The k-th device call from now on is to be stopped; with 0 none is.
    ///
    /// # Errors
    ///
    /// No memory; nothing has changed.
    #[tactic(auto, using(crate::proofs::CountLaws::acted_counted))]
    pub fn cut(&mut self, actor: Actor, k: u32) -> Result<Acted, NoMemory>
        requires served { IsServed self.old }
        requires may { MayAct self.old }
        ensures { ActsAs actor (calls.Act (acts.Cut k)) self.old result self.new }
    {
        self.parts.cut(actor, k)
    }

    /// The moment advances by so many milliseconds.
    ///
    /// # Errors
    ///
    /// No memory; nothing has changed.
    #[tactic(auto, using(crate::proofs::CountLaws::acted_counted))]
    pub fn advance_clock(&mut self, actor: Actor, by: u64) -> Result<Acted, NoMemory>
        requires served { IsServed self.old }
        requires may { MayAct self.old }
        ensures { ActsAs actor (calls.Act (acts.Clock by)) self.old result self.new }
    {
        self.parts.advance_clock(actor, by)
    }

    /// A command on objects, whose values are such as a text of commands gives: so are those of each command that `parse` reads from a
    /// line of a text (mq_law_image, `what_commands_write_is_read`).
    ///
    /// # Errors
    ///
    /// No memory; nothing has changed.
    #[tactic(auto, using(crate::proofs::CountLaws::acted_counted))]
    pub fn command(&mut self, actor: Actor, asked: mq_objects::Command) -> Result<Acted, NoMemory>
        requires served { IsServed self.old }
        requires may { MayAct self.old }
        requires text { IsCommandText asked }
        ensures { ActsAs actor (calls.Act (acts.Obey (commands.Objects asked))) self.old result self.new }
    {
        self.parts.command(actor, asked)
    }
}
