//! The local queues of a manager: found by name, and by the ident of a row.
ghost use Rattle.std.specs.Prelude.{◌≡◌, ◌+◌, ◌++◌, ◌∷◌, [], ◌^◌, ◌<◌, ◌≤◌, OnOk, OnErr, IfSome, None, Some, false, true, length, option_copied, find, nat_lt, not, map as mapped, filter, take};
ghost use Rattle.std.specs.List.{list_any};
ghost use Rattle.std.specs.Option.{option_map};
ghost use Rattle.mq_queue.specs.Rows.{is_free, has_ident};
ghost use Rattle.mq_queue.specs.Queues.{message_of, count_waiting};
ghost use Rattle.mq_calls.specs.Changes.{kept_in, held_in, released_in, made_due, forgotten};
ghost use Rattle.mq_calls.specs.State.Which.{Among, HeldBy, HeldByUnits, Nonpersistent};
ghost use Rattle.mq_place.specs.Due.{IsDueAt};
ghost use Rattle.mq_place.specs.States.{held_rows, state_in, state_or, change_state, on_queue, on_queues, served, switched_on, fresh_state, without_state, expecting, unpended, arrived, with_lanes, depth_of, size_of, rows_in, free_idents, is_free_after, row_at, rows_removed, CanPlace, IsNowhere, AreApart};
ghost use Rattle.mq_place.specs.Rooms.{RoomStays};

use crate::due::{DueAt, DueNames};
use crate::homes::{drop_home, home_of, note_home, reserve_homes};
use crate::local::LocalRows;
use crate::named::NamedQueues;
use crate::rooms::RowRoom;
use indexmap::IndexMap;
use mq_base::{Items, NoMemory, QName};
use mq_message::{Holder, Ident, Message, Place};
use mq_queue::{Queue, Row};
use std::alloc::Global;
use std::marker::Model;

/// The local queues of a manager in order of definition, found by name, and by the ident of a row. Contracts see what each
/// has, and for how many more queues there is memory.
///
/// All calls but `expect`, `reserve_queue`, `free_idents` and `held_rows` take no memory.
#[derive(Drop)]
pub struct Queues<Q: Queue + Drop> {
    named: NamedQueues<Q>,
    // The queue of each ident that has a row. Some idents may have none any more.
    homes: IndexMap<Ident, QName>,
    // At least as many as uncommitted puts wait; there is room for so many idents.
    expected: u64,
    // The queues that may have a trigger due.
    due: DueNames,
}

impl<Q: Queue + Drop> Model for Queues<Q> {
    ghost use Rattle.std.specs.Prelude.{◌≤◌};
    ghost use Rattle.indexmap.specs.IndexMap.{spare};
    ghost use Rattle.mq_place.specs.States.{QueueStates};
    ghost use Rattle.mq_place.specs.Homes.{home_of, AreHome, all_pending};
    ghost use Rattle.mq_place.specs.Due.{is_noted, AreListed};

    ghost Value = { QueueStates };

    ghost view = { λ q. q.named };

    ghost invariant = { λ q. (AreHome (home_of q.homes) q.named.states × (all_pending q.named.states ≤ q.expected) × (q.expected ≤ spare q.homes)) × AreListed (is_noted q.due) q.named.states };
}

// Whether a trigger of a queue is due. No two queues have one name.
fn has_due<Q: Queue + Drop>(named: &NamedQueues<Q>, name: &QName) -> bool
    ensures value { result ≡ nat_lt 0 (state_or name.now named.now.states).queue.due }
    ensures apart { AreApart named.now.states }
{
    match named.local(name) {
        None => false,
        Some(local) => local.due() > 0,
    }
}

impl<Q: Queue + Drop> Queues<Q> {
    /// No queue.
    pub fn new(alloc: Global) -> Self
        ensures { result.states ≡ [] }
    {
        Queues {
            named: NamedQueues::new(alloc),
            homes: IndexMap::new(alloc),
            expected: 0,
            due: DueNames::new(alloc),
        }
    }

    /// How many queues there are.
    pub fn len(&self) -> usize
        ensures { result ≡ length self.now.states }
    {
        self.named.len()
    }

    /// The queue with that name. No two have one name.
    pub fn local(&self, name: &QName) -> Option<&LocalRows<Q>>
        ensures value { option_copied result ≡ state_in name.now self.now.states }
        ensures named { AreApart self.now.states }
    {
        self.named.local(name)
    }

    /// The CURDEPTH of a queue: its free rows and the uncommitted puts; 0 where none has the name.
    pub fn depth(&self, name: &QName) -> u64
        ensures { result ≡ depth_of (state_or name.now self.now.states) }
    {
        match self.local(name) {
            None => 0,
            Some(local) => local.depth(),
        }
    }

    /// Whether a queue has a row, or an uncommitted put waits for it.
    pub fn has_rows(&self, name: &QName) -> bool
        ensures { result ≡ nat_lt 0 (size_of (state_or name.now self.now.states)) }
    {
        match self.local(name) {
            None => false,
            Some(local) => local.has_rows(),
        }
    }

    /// Whether a unit or a batch holds a row of a queue.
    pub fn has_held(&self, name: &QName) -> bool
        ensures { result ≡ list_any (λ row. not (is_free row)) (rows_in name.now self.now.states) }
    {
        match self.local(name) {
            None => false,
            Some(local) => local.has_held(),
        }
    }

    /// How many free rows of a queue have at least this priority, where one below 0 counts as 0.
    pub fn free(&self, name: &QName, least: u8) -> u64
        ensures { result ≡ count_waiting least (rows_in name.now self.now.states) }
    {
        match self.local(name) {
            None => 0,
            Some(local) => local.free(least),
        }
    }

    /// Whether a queue counts as NOTRIGGER, since a trigger of type DEPTH became due.
    pub fn is_switched_off(&self, name: &QName) -> bool
        ensures { result ≡ (state_or name.now self.now.states).queue.switched_off }
    {
        match self.local(name) {
            None => false,
            Some(local) => local.is_switched_off(),
        }
    }

    /// How many triggers of a queue are due.
    pub fn due(&self, name: &QName) -> u64
        ensures { result ≡ (state_or name.now self.now.states).queue.due }
    {
        match self.local(name) {
            None => 0,
            Some(local) => local.due(),
        }
    }

    /// On which queues triggers may be due, without a walk over the queues.
    pub fn due_at(&self) -> DueAt
        ensures { IsDueAt result self.now.states }
    {
        self.due.which()
    }

    /// The message with an ident on a queue, free or held.
    pub fn message(&self, name: &QName, ident: &Ident) -> Option<&Message>
        ensures { option_copied result ≡ message_of ident.now (rows_in name.now self.now.states) }
    {
        match self.local(name) {
            None => None,
            Some(local) => local.message(ident),
        }
    }

    /// The row with an ident on a queue, free or held. It walks there.
    pub fn row(&self, name: &QName, ident: &Ident) -> Option<&Row>
        ensures { option_copied result ≡ find (has_ident ident.now) (rows_in name.now self.now.states) }
    {
        match self.local(name) {
            None => None,
            Some(local) => local.row(ident),
        }
    }

    /// The first free row of a queue above `after`.
    pub fn next_free(&self, name: &QName, after: Option<Place>) -> Option<&Row>
        ensures { option_copied result ≡ find (is_free_after after) (rows_in name.now self.now.states) }
    {
        match self.local(name) {
            None => None,
            Some(local) => local.next_free(after),
        }
    }

    /// Adds the idents of the first free rows of a queue, at most so many. After a refusal some may be there.
    pub fn free_idents(
        &self,
        name: &QName,
        most: u64,
        idents: &mut Items<Ident>,
    ) -> Result<(), NoMemory>
        ensures { OnOk result (idents.new ≡ idents.old ++ free_idents most (rows_in name.now self.now.states)) }
    {
        match self.local(name) {
            None => Ok(()),
            Some(local) => local.free_idents(most, idents),
        }
    }

    /// The queue on which a row with that ident stands. It looks at that queue alone.
    pub fn home(&self, ident: &Ident) -> Option<QName>
        ensures { result ≡ option_map (λ r. r.name) (row_at ident.now self.now.states) }
    {
        let Some(name) = home_of(&self.homes, ident) else {
            return None;
        };
        let Some(local) = self.named.local(&name) else {
            return None;
        };
        if local.message(ident).is_none() {
            return None;
        }
        Some(name)
    }

    // Whether an uncommitted put waits for a queue.
    fn waits(&self, name: &QName) -> bool
        ensures { result ≡ nat_lt 0 (state_or name.now self.now.states).pending }
    {
        match self.local(name) {
            None => false,
            Some(local) => local.pending() > 0,
        }
    }

    /// Takes the memory of one more queue, so that a `define` which follows cannot fail.
    pub fn reserve_queue(&mut self) -> Result<(), NoMemory>
        ensures states { self.new.states ≡ self.old.states }
        ensures room { OnOk result (0 < self.new.room) }
        ensures kept { self.old.room ≤ self.new.room }
    {
        if self
            .due
            .reserve(self.named.len().saturating_add(1))
            .is_err()
        {
            return Err(NoMemory);
        }
        self.named.reserve_queue()
    }

    /// A new queue, whose rows have lanes by their priorities, or all one lane. It stands last.
    pub fn define(&mut self, name: &QName, prioritized: bool)
        requires room { 0 < self.old.room }
        requires absent { state_in name.now self.old.states ≡ None }
        ensures states { self.new.states ≡ self.old.states ++ fresh_state name.now prioritized ∷ [] }
        ensures room { self.old.room ≤ self.new.room + 1 }
    {
        self.named.define(name, prioritized);
    }

    /// The queue with that name goes, with its rows, and the others keep their order. It takes constant time over many
    /// deletions.
    pub fn delete(&mut self, name: &QName)
        ensures states { self.new.states ≡ without_state name.now self.old.states }
        ensures room { self.old.room ≤ self.new.room }
    {
        self.named.delete(name);
        self.due.drop_name(name);
    }

    /// Changes the lanes of a queue that has no row.
    pub fn set_by_priority(&mut self, name: &QName, prioritized: bool)
        requires { rows_in name.now self.old.states ≡ [] }
        ensures { self.new ≡ record self.old { states = change_state name.now (with_lanes prioritized) self.old.states } }
    {
        self.named.set_by_priority(name, prioritized);
    }

    /// Makes room for one more uncommitted put to a queue, which waits from now on.
    pub fn expect(&mut self, name: &QName) -> Result<(), NoMemory>
        ensures ok { OnOk result (self.new ≡ record self.old { states = change_state name.now expecting self.old.states }) }
        ensures err { OnErr result (self.new ≡ self.old) }
    {
        if self.expected == u64::MAX {
            return Err(NoMemory);
        }
        let more = self.expected + 1;
        if reserve_homes(&mut self.homes, more).is_err() {
            return Err(NoMemory);
        }
        if self.named.expect(name).is_err() {
            return Err(NoMemory);
        }
        self.expected = more;
        Ok(())
    }

    /// One put to a queue waits no longer.
    pub fn unpend(&mut self, name: &QName)
        ensures { self.new ≡ record self.old { states = change_state name.now unpended self.old.states } }
    {
        if self.waits(name) {
            self.expected -= 1;
            self.named.unpend(name);
        } else {
            self.named.unpend(name);
        }
    }

    /// A put that waited takes the last place of its lane. No row of any queue has its ident.
    pub fn place(&mut self, name: &QName, message: Message)
        requires can { IfSome (state_in name.now self.old.states) (CanPlace message) }
        requires fresh { IsNowhere message.ident self.old.states }
        ensures { self.new ≡ record self.old { states = change_state name.now (arrived message) self.old.states } }
    {
        if self.waits(name) {
            self.expected -= 1;
            note_home(&mut self.homes, &message.ident, name);
            self.named.place(name, message);
        } else {
            self.named.place(name, message);
        }
    }

    /// Holds the free row with an ident on a queue.
    pub fn hold(&mut self, name: &QName, ident: &Ident, by: &Holder)
        ensures { self.new ≡ record self.old { states = on_queues (held_in (Among name.now (ident.now ∷ [])) by.now) self.old.states } }
    {
        self.named.hold(name, ident, by);
    }

    /// Frees the held row with an ident on a queue, at its place. Where it was backed out its BackoutCount is one higher.
    pub fn release(&mut self, name: &QName, ident: &Ident, backed_out: bool)
        ensures { self.new ≡ record self.old { states = on_queues (released_in (Among name.now (ident.now ∷ [])) backed_out) self.old.states } }
    {
        self.named.release(name, ident, backed_out);
    }

    /// Takes the row with an ident out of a queue, free or held; none where there is none.
    pub fn remove(&mut self, name: &QName, ident: &Ident) -> Option<Message>
        ensures message { result ≡ message_of ident.now (rows_in name.now self.old.states) }
        ensures states { self.new ≡ record self.old { states = on_queues (kept_in (Among name.now (ident.now ∷ []))) self.old.states } }
    {
        drop_home(&mut self.homes, ident, name);
        self.named.remove(name, ident)
    }

    /// Holds the free rows with these idents on a queue.
    pub fn hold_each(&mut self, name: &QName, idents: &[Ident], by: &Holder)
        ensures { self.new ≡ record self.old { states = on_queues (held_in (Among name.now idents.now) by.now) self.old.states } }
    {
        self.named.hold_each(name, idents, by);
    }

    /// Frees the held rows with these idents on a queue, at their places, with no backout counted.
    pub fn release_each(&mut self, name: &QName, idents: &[Ident])
        ensures { self.new ≡ record self.old { states = on_queues (released_in (Among name.now idents.now) false) self.old.states } }
    {
        self.named.release_each(name, idents);
    }

    /// Takes the rows with these idents out of a queue, free or held.
    pub fn remove_each(&mut self, name: &QName, idents: &[Ident])
        ensures { self.new ≡ record self.old { states = on_queues (kept_in (Among name.now idents.now)) self.old.states } }
    {
        self.remove_rows(name, idents);
    }

    // Takes rows out one after another.
    fn remove_rows(&mut self, name: &QName, idents: &[Ident])
        ensures { self.new ≡ rows_removed name.now idents.now self.old }
    {
        for ident in idents {
            let _message = self.remove(name, ident);
        }
    }

    /// Takes all rows out whose messages are not persistent, as a freeze and a stop do.
    pub fn drop_volatile(&mut self)
        ensures { self.new ≡ record self.old { states = on_queues (kept_in Nonpersistent) self.old.states } }
    {
        self.named.drop_volatile();
    }

    /// Frees all rows that units hold, each with one backout more, as a stop does.
    pub fn free_units(&mut self)
        ensures { self.new ≡ record self.old { states = on_queues (released_in HeldByUnits true) self.old.states } }
    {
        self.named.free_units();
    }

    /// Frees all rows that a holder has, on all queues, with no backout counted.
    pub fn free_held(&mut self, by: &Holder)
        ensures { self.new ≡ record self.old { states = on_queues (released_in (HeldBy by.now) false) self.old.states } }
    {
        self.named.free_held(by);
    }

    /// Takes all rows out that a holder has, on all queues.
    pub fn remove_held(&mut self, by: &Holder)
        ensures { self.new ≡ record self.old { states = on_queues (kept_in (HeldBy by.now)) self.old.states } }
    {
        self.named.remove_held(by);
    }

    /// Names the rows that a holder has, in order of definition, and of place on each queue. After a refusal some may be named; where
    /// there is room for all of them it takes no memory.
    pub fn held_rows(&self, by: &Holder, rows: &mut RowRoom) -> Result<(), NoMemory>
        ensures rows { OnOk result (rows.new.rows ≡ rows.old.rows ++ held_rows by.now self.now.states) }
        ensures room { RoomStays rows.old rows.new }
        ensures memory { OnErr result (rows.old.room < length (held_rows by.now self.now.states)) }
    {
        self.named.held_rows(by, rows)
    }

    /// No trigger is due any more, none was, and no queue counts as NOTRIGGER, as after a stop.
    pub fn forget(&mut self)
        ensures { self.new ≡ record self.old { states = on_queues forgotten self.old.states } }
    {
        self.named.forget();
        self.due.clear();
    }

    /// A trigger of a queue becomes due at a moment; with TRIGTYPE(DEPTH) the queue counts as NOTRIGGER from now on.
    pub fn make_due(&mut self, name: &QName, depth: bool, moment: u64)
        requires { (state_or name.now self.old.states).queue.due + 1 < 2 ^ 64 }
        ensures { self.new ≡ record self.old { states = change_state name.now (on_queue (made_due depth moment)) self.old.states } }
    {
        let known = has_due(&self.named, name);
        self.due.add(name, known);
        self.named.make_due(name, depth, moment);
    }

    /// A trigger of a queue that was due is served or dropped.
    pub fn serve(&mut self, name: &QName)
        ensures { self.new ≡ record self.old { states = change_state name.now (on_queue served) self.old.states } }
    {
        self.named.serve(name);
        if has_due(&self.named, name) {
            return;
        }
        self.due.drop_name(name);
    }

    /// A queue counts as TRIGGER again.
    pub fn switch_on(&mut self, name: &QName)
        ensures { self.new ≡ record self.old { states = change_state name.now (on_queue switched_on) self.old.states } }
    {
        self.named.switch_on(name);
    }
}
