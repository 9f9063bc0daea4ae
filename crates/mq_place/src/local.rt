//! One local queue: its rows, how many uncommitted puts wait for it, its triggers due.
ghost use Rattle.std.specs.Prelude.{◌≡◌, ◌++◌, ◌+◌, ◌^◌, ◌<◌, [], OnOk, OnErr, length, option_copied, find, Some, nat_lt, not, false};
ghost use Rattle.std.specs.List.{list_any};
ghost use Rattle.mq_queue.specs.Rows.{is_after, is_free, has_ident, keep, retag};
ghost use Rattle.mq_queue.specs.Queues.{IsQueue, count_waiting, message_of, is_takable, is_at, is_free_one, is_held_one, hold_row, release_row, has_other_ident, is_lasting, unit_freed};
ghost use Rattle.mq_calls.specs.Changes.{made_due, forgotten};
ghost use Rattle.mq_place.specs.Deadlines.{AreLater, NonePast, sooner};
ghost use Rattle.mq_place.specs.States.{is_free_after, free_idents, on_queue, on_rows, hold_each, release_each, served, switched_on, fresh_state, expecting, unpended, arrived, with_lanes, depth_of, size_of, CanPlace, IsCounted};

use mq_base::{Items, NoMemory, QName};
use mq_message::{Holder, Ident, Message, Place, Want};
use mq_queue::{Queue, Row};
use std::alloc::Global;
use std::marker::Model;

/// A local queue: its rows, how many uncommitted puts wait for it, its triggers due. Its rows are held by any `Queue`.
///
/// All calls but `expect` take no memory.
#[derive(Drop)]
pub struct LocalRows<Q: Queue + Drop> {
    name: QName,
    queue: Q,
    /// How many uncommitted puts wait; there is room for so many rows.
    pending: u64,
    /// How many triggers are due.
    due: u64,
    /// The moment of the last one since the start, in milliseconds.
    last_due: Option<u64>,
    /// Whether it counts as NOTRIGGER.
    switched_off: bool,
    /// No message on it has a deadline before this one, in milliseconds; where there is none, no message has one.
    soonest: Option<u64>,
}

impl<Q: Queue + Drop> Model for LocalRows<Q> {
    ghost use Rattle.std.specs.Prelude.{◌≤◌, ◌+◌, ◌<◌, ◌^◌, length};
    ghost use Rattle.mq_queue.specs.Queues.{IsQueue};
    ghost use Rattle.mq_place.specs.States.{QueueState};
    ghost use Rattle.mq_place.specs.Deadlines.{AreLater};

    ghost Value = { QueueState };

    ghost view = { λ l. record {
      queue = record { name = l.name; rows = Q.rows l.queue; arrivals = Q.arrivals l.queue; due = l.due; last_due = l.last_due; switched_off = l.switched_off };
      by_priority = Q.by_priority l.queue;
      pending = l.pending;
    } };

    ghost invariant = { λ l. (IsQueue (Q.rows l.queue) (Q.arrivals l.queue) × (l.pending ≤ Q.room l.queue) × (length (Q.rows l.queue) + l.pending < 2 ^ 64)) × AreLater l.soonest (Q.rows l.queue) };
}

/// The soonest deadline, with one deadline more.
fn sooner(soonest: Option<u64>, deadline: Option<u64>) -> Option<u64>
    ensures { result ≡ sooner soonest deadline }
{
    let Some(moment) = deadline else {
        return soonest;
    };
    match soonest {
        None => Some(moment),
        Some(least) => Some(least.min(moment)),
    }
}

fn has_ident(row: &Row, ident: &Ident) -> bool
    ensures { result ≡ has_ident ident.now row.now }
{
    row.message.ident == *ident
}

impl<Q: Queue + Drop> LocalRows<Q> {
    /// A queue that was just defined.
    pub fn new(alloc: Global, name: QName, prioritized: bool) -> Self
        ensures { result ≡ fresh_state name prioritized }
    {
        LocalRows {
            name,
            queue: Q::new(alloc, prioritized),
            pending: 0,
            due: 0,
            last_due: None,
            switched_off: false,
            soonest: None,
        }
    }

    /// Its name.
    pub fn name(&self) -> &QName
        ensures { result.now ≡ self.now.queue.name }
    {
        &self.name
    }

    /// How many rows there are, free and held. They are in order of place, and no ident stands twice.
    pub fn len(&self) -> u64
        ensures len { result ≡ length self.now.queue.rows }
        ensures queue { IsQueue self.now.queue.rows self.now.queue.arrivals }
        ensures counted { IsCounted self.now }
    {
        self.queue.len()
    }

    /// How many free rows have at least this priority, where one below 0 counts as 0.
    pub fn free(&self, least: u8) -> u64
        ensures { result ≡ count_waiting least self.now.queue.rows }
    {
        self.queue.free(least)
    }

    /// Its CURDEPTH: the free rows and the uncommitted puts.
    pub fn depth(&self) -> u64
        ensures { result ≡ depth_of self.now }
    {
        self.queue.free(0) + self.pending
    }

    /// Whether it has a row, or an uncommitted put waits for it.
    pub fn has_rows(&self) -> bool
        ensures { result ≡ nat_lt 0 (size_of self.now) }
    {
        self.queue.len() + self.pending > 0
    }

    /// Whether a unit or a batch holds one of its rows.
    pub fn has_held(&self) -> bool
        ensures { result ≡ list_any (λ row. not (is_free row)) self.now.queue.rows }
    {
        self.queue.free(0) < self.queue.len()
    }

    /// How many uncommitted puts wait for it.
    pub fn pending(&self) -> u64
        ensures { result ≡ self.now.pending }
    {
        self.pending
    }

    /// How many triggers are due.
    pub fn due(&self) -> u64
        ensures { result ≡ self.now.queue.due }
    {
        self.due
    }

    /// The moment at which the last trigger since the start became due, in milliseconds.
    pub fn last_due(&self) -> Option<u64>
        ensures { result ≡ self.now.queue.last_due }
    {
        self.last_due
    }

    /// Whether it counts as NOTRIGGER, since a trigger of type DEPTH became due.
    pub fn is_switched_off(&self) -> bool
        ensures { result ≡ self.now.queue.switched_off }
    {
        self.switched_off
    }

    /// Whether a message on it may have expired at a moment; none has where the answer is no. It looks at no row.
    pub fn may_be_past(&self, moment: u64) -> bool
        ensures { result ≡ false → NonePast moment self.now.queue.rows }
    {
        match self.soonest {
            None => false,
            Some(soonest) => soonest <= moment,
        }
    }

    // No message has a sooner deadline; where no message stands, none has one.
    fn soonest_now(&self) -> Option<u64>
        ensures { AreLater result self.now.queue.rows }
    {
        if self.queue.len() == 0 {
            return None;
        }
        self.soonest
    }

    /// The first free row above `after` that has the ids asked for.
    pub fn first_row(&self, want: &Want, after: Option<Place>) -> Option<&Row>
        ensures { option_copied result ≡ find (is_takable want.now after) self.now.queue.rows }
    {
        self.queue.first_row(want, after)
    }

    /// The first row above `after`, free or held.
    pub fn next_row(&self, after: Option<Place>) -> Option<&Row>
        ensures { option_copied result ≡ find (is_after after) self.now.queue.rows }
    {
        self.queue.next_row(after)
    }

    /// The row at a place, free or held.
    pub fn at(&self, place: Place) -> Option<&Row>
        ensures { option_copied result ≡ find (is_at place) self.now.queue.rows }
    {
        self.queue.at(place)
    }

    /// The message with an ident, free or held.
    pub fn message(&self, ident: &Ident) -> Option<&Message>
        ensures { option_copied result ≡ message_of ident.now self.now.queue.rows }
    {
        self.queue.row(ident)
    }

    /// The row with an ident, free or held. It walks there.
    pub fn row(&self, ident: &Ident) -> Option<&Row>
        ensures { option_copied result ≡ find (has_ident ident.now) self.now.queue.rows }
    {
        let mut after = None;
        for seen in 0..self.len() {
            let Some(row) = self.next_row(after) else {
                return None;
            };
            if has_ident(row, ident) {
                return Some(row);
            }
            after = Some(row.place);
        }
        None
    }

    /// The first free row above `after`.
    pub fn next_free(&self, after: Option<Place>) -> Option<&Row>
        ensures { option_copied result ≡ find (is_free_after after) self.now.queue.rows }
    {
        let any = Want {
            msg_id: None,
            correl_id: None,
        };
        self.first_row(&any, after)
    }

    /// Adds the idents of the first free rows, at most so many. After a refusal some may be there.
    pub fn free_idents(&self, most: u64, idents: &mut Items<Ident>) -> Result<(), NoMemory>
        ensures { OnOk result (idents.new ≡ idents.old ++ free_idents most self.now.queue.rows) }
    {
        let _len = self.len();
        let mut after = None;
        for seen in 0..most {
            let Some(row) = self.next_free(after) else {
                return Ok(());
            };
            if idents.push(row.message.ident).is_err() {
                return Err(NoMemory);
            }
            after = Some(row.place);
        }
        Ok(())
    }

    /// Makes room for one more uncommitted put, which waits from now on.
    pub fn expect(&mut self) -> Result<(), NoMemory>
        ensures ok { OnOk result (self.new ≡ expecting self.old) }
        ensures err { OnErr result (self.new ≡ self.old) }
    {
        let Some(more) = self.pending.checked_add(1) else {
            return Err(NoMemory);
        };
        if self.queue.len().checked_add(more).is_none() {
            return Err(NoMemory);
        }
        if self.queue.reserve(more).is_err() {
            return Err(NoMemory);
        }
        self.pending = more;
        Ok(())
    }

    /// One put waits no longer.
    pub fn unpend(&mut self)
        ensures { self.new ≡ unpended self.old }
    {
        self.pending = self.pending.saturating_sub(1);
    }

    /// A put that waited takes the last place of its lane.
    pub fn place(&mut self, message: Message)
        requires { CanPlace message self.old }
        ensures { self.new ≡ arrived message self.old }
    {
        let soonest = self.soonest_now();
        self.soonest = sooner(soonest, message.deadline);
        self.pending -= 1;
        self.queue.insert(message);
    }

    /// Holds the free row with an ident; false exactly where there is none.
    pub fn hold(&mut self, ident: &Ident, by: &Holder) -> bool
        ensures held { result ≡ list_any (is_free_one ident.now) self.old.queue.rows }
        ensures rows { self.new ≡ on_rows (retag (hold_row ident.now by.now)) self.old }
    {
        self.queue.hold(ident, by)
    }

    /// Frees the held row with an ident, at its place; false exactly where there is none.
    pub fn release(&mut self, ident: &Ident, backed_out: bool) -> bool
        ensures released { result ≡ list_any (is_held_one ident.now) self.old.queue.rows }
        ensures rows { self.new ≡ on_rows (retag (release_row ident.now backed_out)) self.old }
    {
        self.queue.release(ident, backed_out)
    }

    /// Takes the row with an ident out, free or held; none where there is none.
    pub fn remove(&mut self, ident: &Ident) -> Option<Message>
        ensures message { result ≡ message_of ident.now self.old.queue.rows }
        ensures rows { self.new ≡ on_rows (keep (has_other_ident ident.now)) self.old }
    {
        self.queue.remove(ident)
    }

    /// Holds the free rows with these idents.
    pub fn hold_each(&mut self, idents: &[Ident], by: &Holder)
        ensures { self.new ≡ on_rows (hold_each idents.now by.now) self.old }
    {
        for ident in idents {
            let _held = self.hold(ident, by);
        }
    }

    /// Frees the held rows with these idents, at their places.
    pub fn release_each(&mut self, idents: &[Ident], backed_out: bool)
        ensures { self.new ≡ on_rows (release_each idents.now backed_out) self.old }
    {
        for ident in idents {
            let _released = self.release(ident, backed_out);
        }
    }

    /// Takes all rows out whose messages are not persistent.
    pub fn keep_lasting(&mut self)
        ensures { self.new ≡ on_rows (keep is_lasting) self.old }
    {
        self.queue.keep_lasting();
    }

    /// Frees all rows that units hold, each with one backout more.
    pub fn free_units(&mut self)
        ensures { self.new ≡ on_rows (retag unit_freed) self.old }
    {
        self.queue.free_units();
    }

    /// No trigger is due, none was, and it counts as TRIGGER.
    pub fn forget(&mut self)
        ensures { self.new ≡ on_queue forgotten self.old }
    {
        self.due = 0;
        self.last_due = None;
        self.switched_off = false;
    }

    /// A trigger becomes due at a moment; with TRIGTYPE(DEPTH) the queue counts as NOTRIGGER from now on.
    pub fn make_due(&mut self, depth: bool, moment: u64)
        requires { self.old.queue.due + 1 < 2 ^ 64 }
        ensures { self.new ≡ on_queue (made_due depth moment) self.old }
    {
        self.due += 1;
        self.last_due = Some(moment);
        self.switched_off = self.switched_off || depth;
    }

    /// A trigger that was due is served or dropped.
    pub fn serve(&mut self)
        ensures { self.new ≡ on_queue served self.old }
    {
        self.due = self.due.saturating_sub(1);
    }

    /// It counts as TRIGGER again.
    pub fn switch_on(&mut self)
        ensures { self.new ≡ on_queue switched_on self.old }
    {
        self.switched_off = false;
    }

    /// Changes the lanes of a queue that has no row.
    pub fn set_by_priority(&mut self, prioritized: bool)
        requires { self.old.queue.rows ≡ [] }
        ensures { self.new ≡ with_lanes prioritized self.old }
    {
        self.queue.set_by_priority(prioritized);
    }
}
