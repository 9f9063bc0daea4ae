//! Local queues in order of definition, found by name.
ghost use Rattle.std.specs.Prelude.{◌≡◌, ◌+◌, ◌++◌, ◌∷◌, [], ◌^◌, ◌<◌, ◌≤◌, OnOk, OnErr, IfSome, None, Some, false, true, length, option_copied};
ghost use Rattle.mq_queue.specs.Queues.{message_of};
ghost use Rattle.mq_calls.specs.Changes.{kept_in, held_in, released_in, made_due, forgotten};
ghost use Rattle.mq_calls.specs.State.Which.{Among, HeldBy, HeldByUnits, Nonpersistent};
ghost use Rattle.mq_place.specs.States.{held_rows, state_in, state_or, change_state, on_queue, on_queues, served, switched_on, fresh_state, without_state, expecting, unpended, arrived, with_lanes, rows_in, CanPlace, AreApart};
ghost use Rattle.mq_place.specs.Rooms.{RoomStays};

use crate::held::{free_held, held_rows, remove_held};
use crate::local::LocalRows;
use crate::rooms::RowRoom;
use crate::slots::{
    close_gaps, drop_volatile, expect_at, forget, free_units, hold_at, hold_each_at, lanes_at,
    make_due_at, place_at, release_at, release_each_at, remove_at, serve_at, switch_on_at,
    unpend_at,
};
use indexmap::IndexMap;
use mq_base::{NoMemory, QName};
use mq_message::{Holder, Ident, Message};
use mq_queue::Queue;
use std::alloc::Global;
use std::marker::Model;

/// Local queues in order of definition, found by name. Contracts see what each has, and for how many more queues there is
/// memory.
///
/// All calls but `expect`, `reserve_queue` and `held_rows` take no memory.
#[derive(Drop)]
pub struct NamedQueues<Q: Queue + Drop> {
    alloc: Global,
    // In order of definition. A slot is empty where its queue was deleted, and so are at most half of them.
    slots: Vec<Option<LocalRows<Q>>>,
    // The slot of each queue.
    places: IndexMap<QName, usize>,
}

impl<Q: Queue + Drop> Model for NamedQueues<Q> {
    ghost use Rattle.std.specs.Prelude.{◌-◌, min, vec_len, vec_capacity};
    ghost use Rattle.std.specs.Str.{bytes_eq};
    ghost use Rattle.indexmap.specs.IndexMap.{get, spare, index_map_len};
    ghost use Rattle.mq_place.specs.States.{QueueStates};
    ghost use Rattle.mq_place.specs.Slots.{present, IsFiled};

    ghost Value = { QueueStates };

    ghost view = { λ q. record {
      states = present q.slots.items;
      room = min (spare q.places) (vec_capacity q.slots - vec_len q.slots);
    } };

    ghost invariant = { λ q. IsFiled q.slots.items (get bytes_eq q.places) (index_map_len q.places) };
}

impl<Q: Queue + Drop> NamedQueues<Q> {
    /// No queue.
    pub fn new(alloc: Global) -> Self
        ensures { result.states ≡ [] }
    {
        NamedQueues {
            alloc,
            slots: Vec::new(alloc),
            places: IndexMap::new(alloc),
        }
    }

    /// How many queues there are.
    pub fn len(&self) -> usize
        ensures { result ≡ length self.now.states }
    {
        self.places.len()
    }

    /// The queue with that name. No two have one name.
    pub fn local(&self, name: &QName) -> Option<&LocalRows<Q>>
        ensures value { option_copied result ≡ state_in name.now self.now.states }
        ensures named { AreApart self.now.states }
    {
        let Some(place) = self.places.get(name) else {
            return None;
        };
        self.slots[*place].as_ref()
    }

    /// Takes the memory of one more queue, so that a `define` which follows cannot fail.
    pub fn reserve_queue(&mut self) -> Result<(), NoMemory>
        ensures states { self.new.states ≡ self.old.states }
        ensures room { OnOk result (0 < self.new.room) }
        ensures kept { self.old.room ≤ self.new.room }
    {
        self.slots.reserve(1)?;
        self.places.reserve(1)?;
        Ok(())
    }

    /// A new queue, whose rows have lanes by their priorities, or all one lane. It stands last.
    pub fn define(&mut self, name: &QName, prioritized: bool)
        requires room { 0 < self.old.room }
        requires absent { state_in name.now self.old.states ≡ None }
        ensures states { self.new.states ≡ self.old.states ++ fresh_state name.now prioritized ∷ [] }
        ensures room { self.old.room ≤ self.new.room + 1 }
    {
        let _none = self.places.insert(*name, self.slots.len()).unwrap();
        self.slots
            .push_reserved(Some(LocalRows::new(self.alloc, *name, prioritized)));
    }

    /// The queue with that name goes, with its rows, and the others keep their order. It takes constant time over many
    /// deletions.
    pub fn delete(&mut self, name: &QName)
        ensures states { self.new.states ≡ without_state name.now self.old.states }
        ensures room { self.old.room ≤ self.new.room }
    {
        let Some(place) = self.places.swap_remove(name) else {
            return;
        };
        self.slots[place] = None;
        if self.places.len() < self.slots.len() / 2 {
            close_gaps(&mut self.slots, &mut self.places);
        }
    }

    /// Changes the lanes of a queue that has no row.
    pub fn set_by_priority(&mut self, name: &QName, prioritized: bool)
        requires { rows_in name.now self.old.states ≡ [] }
        ensures { self.new ≡ record self.old { states = change_state name.now (with_lanes prioritized) self.old.states } }
    {
        match self.places.get(name) {
            None => {}
            Some(place) => lanes_at(&mut self.slots, *place, prioritized),
        }
    }

    /// Makes room for one more uncommitted put to a queue, which waits from now on.
    pub fn expect(&mut self, name: &QName) -> Result<(), NoMemory>
        ensures ok { OnOk result (self.new ≡ record self.old { states = change_state name.now expecting self.old.states }) }
        ensures err { OnErr result (self.new ≡ self.old) }
    {
        match self.places.get(name) {
            None => Ok(()),
            Some(place) => expect_at(&mut self.slots, *place),
        }
    }

    /// One put to a queue waits no longer.
    pub fn unpend(&mut self, name: &QName)
        ensures { self.new ≡ record self.old { states = change_state name.now unpended self.old.states } }
    {
        match self.places.get(name) {
            None => {}
            Some(place) => unpend_at(&mut self.slots, *place),
        }
    }

    /// A put that waited takes the last place of its lane.
    pub fn place(&mut self, name: &QName, message: Message)
        requires { IfSome (state_in name.now self.old.states) (CanPlace message) }
        ensures { self.new ≡ record self.old { states = change_state name.now (arrived message) self.old.states } }
    {
        match self.places.get(name) {
            None => {}
            Some(place) => place_at(&mut self.slots, *place, message),
        }
    }

    /// Holds the free row with an ident on a queue.
    pub fn hold(&mut self, name: &QName, ident: &Ident, by: &Holder)
        ensures { self.new ≡ record self.old { states = on_queues (held_in (Among name.now (ident.now ∷ [])) by.now) self.old.states } }
    {
        match self.places.get(name) {
            None => {}
            Some(place) => hold_at(&mut self.slots, *place, ident, by),
        }
    }

    /// Frees the held row with an ident on a queue, at its place. Where it was backed out its BackoutCount is one higher.
    pub fn release(&mut self, name: &QName, ident: &Ident, backed_out: bool)
        ensures { self.new ≡ record self.old { states = on_queues (released_in (Among name.now (ident.now ∷ [])) backed_out) self.old.states } }
    {
        match self.places.get(name) {
            None => {}
            Some(place) => release_at(&mut self.slots, *place, ident, backed_out),
        }
    }

    /// Takes the row with an ident out of a queue, free or held; none where there is none.
    pub fn remove(&mut self, name: &QName, ident: &Ident) -> Option<Message>
        ensures message { result ≡ message_of ident.now (rows_in name.now self.old.states) }
        ensures states { self.new ≡ record self.old { states = on_queues (kept_in (Among name.now (ident.now ∷ []))) self.old.states } }
    {
        match self.places.get(name) {
            None => None,
            Some(place) => remove_at(&mut self.slots, *place, ident),
        }
    }

    /// Holds the free rows with these idents on a queue.
    pub fn hold_each(&mut self, name: &QName, idents: &[Ident], by: &Holder)
        ensures { self.new ≡ record self.old { states = on_queues (held_in (Among name.now idents.now) by.now) self.old.states } }
    {
        match self.places.get(name) {
            None => {}
            Some(place) => hold_each_at(&mut self.slots, *place, idents, by),
        }
    }

    /// Frees the held rows with these idents on a queue, at their places, with no backout counted.
    pub fn release_each(&mut self, name: &QName, idents: &[Ident])
        ensures { self.new ≡ record self.old { states = on_queues (released_in (Among name.now idents.now) false) self.old.states } }
    {
        match self.places.get(name) {
            None => {}
            Some(place) => release_each_at(&mut self.slots, *place, idents),
        }
    }

    /// Takes all rows out whose messages are not persistent, as a freeze and a stop do.
    pub fn drop_volatile(&mut self)
        ensures { self.new ≡ record self.old { states = on_queues (kept_in Nonpersistent) self.old.states } }
    {
        drop_volatile(&mut self.slots);
    }

    /// Frees all rows that units hold, each with one backout more, as a stop does.
    pub fn free_units(&mut self)
        ensures { self.new ≡ record self.old { states = on_queues (released_in HeldByUnits true) self.old.states } }
    {
        free_units(&mut self.slots);
    }

    /// Frees all rows that a holder has, with no backout counted.
    pub fn free_held(&mut self, by: &Holder)
        ensures { self.new ≡ record self.old { states = on_queues (released_in (HeldBy by.now) false) self.old.states } }
    {
        free_held(&mut self.slots, by);
    }

    /// Takes all rows out that a holder has.
    pub fn remove_held(&mut self, by: &Holder)
        ensures { self.new ≡ record self.old { states = on_queues (kept_in (HeldBy by.now)) self.old.states } }
    {
        remove_held(&mut self.slots, by);
    }

    /// Names the rows that a holder has, in order of definition, and of place on each queue. After a refusal some may be named; where
    /// there is room for all of them it takes no memory.
    pub fn held_rows(&self, by: &Holder, rows: &mut RowRoom) -> Result<(), NoMemory>
        ensures rows { OnOk result (rows.new.rows ≡ rows.old.rows ++ held_rows by.now self.now.states) }
        ensures room { RoomStays rows.old rows.new }
        ensures memory { OnErr result (rows.old.room < length (held_rows by.now self.now.states)) }
    {
        held_rows(&self.slots, by, rows)
    }

    /// No trigger is due any more, none was, and no queue counts as NOTRIGGER, as after a stop.
    pub fn forget(&mut self)
        ensures { self.new ≡ record self.old { states = on_queues forgotten self.old.states } }
    {
        forget(&mut self.slots);
    }

    /// A trigger of a queue becomes due at a moment; with TRIGTYPE(DEPTH) the queue counts as NOTRIGGER from now on.
    pub fn make_due(&mut self, name: &QName, depth: bool, moment: u64)
        requires { (state_or name.now self.old.states).queue.due + 1 < 2 ^ 64 }
        ensures { self.new ≡ record self.old { states = change_state name.now (on_queue (made_due depth moment)) self.old.states } }
    {
        match self.places.get(name) {
            None => {}
            Some(place) => make_due_at(&mut self.slots, *place, depth, moment),
        }
    }

    /// A trigger of a queue that was due is served or dropped.
    pub fn serve(&mut self, name: &QName)
        ensures { self.new ≡ record self.old { states = change_state name.now (on_queue served) self.old.states } }
    {
        match self.places.get(name) {
            None => {}
            Some(place) => serve_at(&mut self.slots, *place),
        }
    }

    /// A queue counts as TRIGGER again.
    pub fn switch_on(&mut self, name: &QName)
        ensures { self.new ≡ record self.old { states = change_state name.now (on_queue switched_on) self.old.states } }
    {
        match self.places.get(name) {
            None => {}
            Some(place) => switch_on_at(&mut self.slots, *place),
        }
    }
}
