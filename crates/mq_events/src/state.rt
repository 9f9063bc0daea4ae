//! The parts of a node, and its history.
ghost use Rattle.std.specs.Prelude.{◌≡◌, ◌<◌, ◌≤◌, ◌+◌, ◌-◌, ◌^◌, OnOk, length, true};
ghost use Rattle.mq_spec_node.specs.Values.{is_spent};
ghost use Rattle.mq_events.specs.States.{value_of, forgotten_if, told, finished, quietly, marked, with_entry};
ghost use Rattle.mq_events.specs.Counts.{HasFewRows};
ghost use Rattle.mq_history.specs.declared.calls.Call.TheVariants as calls;

use crate::counting::has_few_rows;
use crate::entries::Entries;
use crate::outcome::Outcome;
use mq_base::{Items, NoMemory, QName};
use mq_calls::{Choice, Did, Image};
use mq_disk::Disk;
use mq_frame::Seen;
use mq_history::{Act, Acted, Actor, Call, Chance, Effect, Entry, Mark, Reply};
use mq_manager::Manager;
use mq_own::Own;
use std::alloc::Global;
use std::marker::Model;
use std::snapshot::Snapshot;

/// With what the history of a node begins.
#[derive(Drop)]
pub struct Opening {
    /// The manager's number, 1 to 8.
    pub number: u8,
    pub name: QName,
    /// LOGMAX, in bytes.
    pub log_max: u32,
    /// What its first start read of the log.
    pub image: Image,
    /// The log's length in bytes then.
    pub length: u64,
    /// The moment then, in milliseconds since 1970.
    pub moment: u64,
}

/// The parts of a node: its manager, its own, its history.
#[derive(Drop)]
pub struct NodeParts<D: Disk> {
    /// Where memory comes from.
    pub alloc: Global,
    pub manager: Manager<D>,
    pub own: Own,
    /// What the scenario gave it as its own.
    pub first: Snapshot<Own>,
    pub opening: Opening,
    pub entries: Entries,
    pub marks: Vec<Mark>,
    /// That of its last entry, 0 before the first.
    pub stamp: u64,
    /// Whether its manager had few rows when it began last, so that it counts what comes without an end.
    pub few: bool,
}

impl<D: Disk> Model for NodeParts<D> {
    ghost use Rattle.std.specs.Prelude.{◌-◌};
    ghost use Rattle.std.specs.Vec.{vec_len, vec_capacity};
    ghost use Rattle.mq_events.specs.States.{NodeState};

    ghost Value = { NodeState };

    ghost view = { λ n. record {
      given = record { given = record { number = n.opening.number; name = n.opening.name; log_max = n.opening.log_max }; own = n.first.value };
      history = record { number = n.opening.number; name = n.opening.name; opening = n.opening.image; length = n.opening.length; moment = n.opening.moment; entries = n.entries.list; marks = n.marks.items };
      manager = n.manager;
      own = n.own;
      stamp = n.stamp;
      spare = record { few = n.few; aside = n.entries.aside };
      room = n.entries.room;
      marks = vec_capacity n.marks - vec_len n.marks;
    } };
}

/// What a node's own is behind a call of the manager that came to this.
fn forget_if(own: &mut Own, choice: &Choice, delta: &[Did])
    ensures { own.new ≡ forgotten_if choice.now delta.now own.old }
{
    match choice {
        Choice::Runs => own.forget_rows(delta),
        Choice::NoMemory => {}
        Choice::Stopped { .. } => {}
    }
}

impl<D: Disk> NodeParts<D> {
    /// Takes the memory of so many entries, beside those that are set aside.
    ///
    /// # Errors
    ///
    /// No memory.
    pub fn reserve(&mut self, more: usize) -> Result<(), NoMemory>
        ensures same { self.new ≡ record self.old { room = self.new.room } }
        ensures ok { OnOk result (more ≤ self.new.room) }
        ensures least { self.old.room ≤ self.new.room }
    {
        self.entries.reserve(more)
    }

    /// Sets the memory of an entry aside for each end of a channel, before a turn or a command that may change them: whichever senders
    /// wait for an answer behind it, the entry of each one's timeout has room.
    ///
    /// # Errors
    ///
    /// No memory.
    pub fn set_aside(&mut self) -> Result<(), NoMemory>
        ensures same { self.new ≡ record self.old { spare = self.new.spare; room = self.new.room } }
        ensures few { self.new.spare.few ≡ self.old.spare.few }
        ensures ok { OnOk result (length self.new.own.ends ≤ self.new.spare.aside) }
        ensures more { self.old.spare.aside ≤ self.new.spare.aside }
    {
        self.entries.set_aside(self.own.ends.len())
    }

    /// Room for an entry that was set aside. It takes no memory.
    pub fn draw(&mut self)
        requires aside { 0 < self.old.spare.aside }
        ensures { self.new ≡ record self.old { spare = record self.old.spare { aside = self.old.spare.aside - 1 }; room = self.old.room + 1 } }
    {
        self.entries.draw();
    }

    /// Notes whether its manager has few rows, as it begins. It walks over all queues, and takes no memory.
    pub fn recount(&mut self)
        ensures same { self.new ≡ record self.old { spare = record self.old.spare { few = self.new.spare.few } } }
        ensures few { self.new.spare.few ≡ true → HasFewRows self.new.manager.plain }
    {
        self.few = has_few_rows(&self.manager.core);
    }

    /// Whether it has made all its events: 2^48, or one whose stamp is 2^60 or more.
    pub fn is_spent(&self) -> bool
        ensures { result ≡ is_spent (value_of self.now) }
    {
        self.entries.len() as u64 >= 1 << 48 || self.stamp >= 1 << 60
    }

    /// Marks the end of a step, in room that is there. It takes no memory.
    pub fn mark(&mut self, idle: bool)
        requires room { 0 < self.old.marks }
        ensures { self.new ≡ marked idle self.old }
    {
        let mark = Mark {
            entries: self.entries.len() as u64,
            idle,
        };
        self.marks.push_reserved(mark);
    }

    /// One entry more, in room that is there.
    pub fn add(&mut self, entry: Entry)
        requires room { 0 < self.old.room }
        ensures { self.new ≡ with_entry entry self.old }
    {
        self.stamp = entry.stamp;
        self.entries.add(entry);
    }

    /// One entry more, which offers nothing and takes nothing, in room that is there.
    pub fn tell(&mut self, actor: Actor, call: Call, outcome: Outcome)
        requires room { 0 < self.old.room }
        requires stamp { self.old.stamp < 2 ^ 60 }
        ensures { self.new ≡ told actor call outcome self.old }
    {
        let Outcome {
            choice,
            reply,
            delta,
        } = outcome;
        let received = Items::new(self.alloc);
        self.add(Entry {
            stamp: self.stamp + 1,
            actor,
            call,
            chance: Chance::Call(choice),
            reply,
            effect: Effect {
                delta,
                pushed: None,
                extras: 0,
                popped: Seen::Nothing,
                received,
            },
        });
    }

    /// The entry of an event that offers nothing and takes nothing, in room that is there: the node's own follows what the
    /// manager told.
    pub fn finish(&mut self, actor: Actor, call: Call, outcome: Outcome)
        requires room { 0 < self.old.room }
        requires stamp { self.old.stamp < 2 ^ 60 }
        ensures { self.new ≡ finished actor call outcome self.old }
    {
        forget_if(&mut self.own, &outcome.choice, outcome.delta.as_slice());
        self.own.remember(&actor, &call, &outcome.reply);
        self.tell(actor, call, outcome);
    }

    /// The entry of a stop, of an armed cut or of a moment that advances, in room that is there.
    pub fn finish_act(&mut self, actor: Actor, asked: Act, acted: Acted)
        requires room { 0 < self.old.room }
        requires stamp { self.old.stamp < 2 ^ 60 }
        ensures { self.new ≡ told actor (calls.Act asked) (quietly acted) self.old }
    {
        let delta = Items::new(self.alloc);
        self.tell(
            actor,
            Call::Act(asked),
            Outcome {
                choice: Choice::Runs,
                reply: Reply::Acted(acted),
                delta,
            },
        );
    }
}
