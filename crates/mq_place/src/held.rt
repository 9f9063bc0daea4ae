//! The rows that one holder has: listed, freed, taken out, on one queue and on all.
ghost use Rattle.std.specs.Prelude.{◌≡◌, ◌<◌, ◌++◌, IfSome, None, true, OnErr, OnOk, length, option_copied, find, vec_len, vec_capacity};
ghost use Rattle.std.specs.List.{list_any};
ghost use Rattle.mq_queue.specs.Rows.{held_by, keep, retag};
ghost use Rattle.mq_queue.specs.Queues.{AreDistinct};
ghost use Rattle.mq_place.specs.States.{holds, has_held_ident, held_on, held_rows, is_other_row, let_go, on_rows, rows_after};
ghost use Rattle.mq_place.specs.Slots.{Becomes, present, slot_at, slot_changed, slots_changed};
ghost use Rattle.mq_place.specs.Held.{held_at_slot};
ghost use Rattle.mq_place.specs.Rooms.{RoomStays};

use crate::local::LocalRows;
use crate::rooms::RowRoom;
use mq_base::NoMemory;
use mq_calls::Remove;
use mq_message::{Holder, Place};
use mq_queue::{Queue, Row};

/// Whether a holder has a row.
fn is_held_by(by: &Holder, holder: &Option<Holder>) -> bool
    ensures { result ≡ held_by by.now holder.now }
{
    match holder {
        None => false,
        Some(Holder::Unit(number)) => match by {
            Holder::Unit(own) => *own == *number,
            Holder::Batch(_) => false,
        },
        Some(Holder::Batch(channel)) => match by {
            Holder::Unit(_) => false,
            Holder::Batch(own) => *own == *channel,
        },
    }
}

impl<Q: Queue + Drop> LocalRows<Q> {
    /// The first row above `start` that a holder has. It walks there.
    pub fn held_after(&self, by: &Holder, start: Option<Place>) -> Option<&Row>
        ensures { option_copied result ≡ find (holds by.now) (rows_after start self.now.queue.rows) }
    {
        let mut after = start;
        for seen in 0..self.len() {
            let Some(row) = self.next_row(after) else {
                return None;
            };
            if is_held_by(by, &row.by) {
                return Some(row);
            }
            after = Some(row.place);
        }
        None
    }

    // A row that a holder has: the first above a place, else the first of all.
    fn any_held(&self, by: &Holder, after: Option<Place>) -> Option<&Row>
        ensures some { IfSome (option_copied result) (λ row. list_any (has_held_ident by.now row.message.ident) self.now.queue.rows ≡ true) }
        ensures none { option_copied result ≡ None → find (holds by.now) self.now.queue.rows ≡ None }
        ensures distinct { AreDistinct self.now.queue.rows }
    {
        let _len = self.len();
        match self.held_after(by, after) {
            Some(row) => Some(row),
            None => self.held_after(by, None),
        }
    }

    /// Names the rows that a holder has, in order of place. After a refusal some may be named; where there is room for all of them
    /// it takes no memory.
    pub fn held_rows(&self, by: &Holder, rows: &mut RowRoom) -> Result<(), NoMemory>
        ensures rows { OnOk result (rows.new.rows ≡ rows.old.rows ++ held_on by.now self.now.queue) }
        ensures room { RoomStays rows.old rows.new }
        ensures memory { OnErr result (rows.old.room < length (held_on by.now self.now.queue)) }
    {
        let _len = self.len();
        let mut after = None;
        for seen in 0..self.len() {
            let Some(row) = self.held_after(by, after) else {
                return Ok(());
            };
            let named = Remove {
                queue: *self.name(),
                ident: row.message.ident,
            };
            match rows.add(named) {
                Ok(()) => {}
                Err(NoMemory) => return Err(NoMemory),
            }
            after = Some(row.place);
        }
        Ok(())
    }

    /// Frees the rows that a holder has, at their places, with no backout counted.
    pub fn free_held(&mut self, by: &Holder)
        ensures { self.new ≡ on_rows (retag (let_go by.now)) self.old }
    {
        let mut after = None;
        for seen in 0..self.len() {
            let Some(row) = self.any_held(by, after) else {
                return;
            };
            let ident = row.message.ident;
            after = Some(row.place);
            let _released = self.release(&ident, false);
        }
    }

    /// Takes the rows out that a holder has.
    pub fn remove_held(&mut self, by: &Holder)
        ensures { self.new ≡ on_rows (keep (is_other_row by.now)) self.old }
    {
        let mut after = None;
        for seen in 0..self.len() {
            let Some(row) = self.any_held(by, after) else {
                return;
            };
            let ident = row.message.ident;
            after = Some(row.place);
            let _message = self.remove(&ident);
        }
    }
}

fn free_held_at<Q: Queue + Drop>(slots: &mut Vec<Option<LocalRows<Q>>>, at: usize, by: &Holder)
    requires at { at < vec_len slots.old }
    ensures { Becomes (slot_changed (on_rows (retag (let_go by.now))) slots.old.items at) slots.old slots.new }
{
    if let Some(local) = &mut slots[at] {
        local.free_held(by);
    }
}

fn remove_held_at<Q: Queue + Drop>(slots: &mut Vec<Option<LocalRows<Q>>>, at: usize, by: &Holder)
    requires at { at < vec_len slots.old }
    ensures { Becomes (slot_changed (on_rows (keep (is_other_row by.now))) slots.old.items at) slots.old slots.new }
{
    if let Some(local) = &mut slots[at] {
        local.remove_held(by);
    }
}

fn held_rows_at<Q: Queue + Drop>(
    slots: &Vec<Option<LocalRows<Q>>>,
    at: usize,
    by: &Holder,
    rows: &mut RowRoom,
) -> Result<(), NoMemory>
    requires at { at < vec_len slots.now }
    ensures rows { OnOk result (rows.new.rows ≡ rows.old.rows ++ held_at_slot by.now (slot_at slots.now.items at)) }
    ensures room { RoomStays rows.old rows.new }
    ensures memory { OnErr result (rows.old.room < length (held_at_slot by.now (slot_at slots.now.items at))) }
{
    match &slots[at] {
        None => Ok(()),
        Some(local) => local.held_rows(by, rows),
    }
}

/// The rows that a holder has are free again, on all queues.
pub fn free_held<Q: Queue + Drop>(slots: &mut Vec<Option<LocalRows<Q>>>, by: &Holder)
    ensures slots { slots.new.items ≡ slots_changed (on_rows (retag (let_go by.now))) slots.old.items }
    ensures len { vec_len slots.new ≡ vec_len slots.old }
    ensures capacity { vec_capacity slots.new ≡ vec_capacity slots.old }
{
    for at in 0..slots.len() {
        free_held_at(slots, at, by);
    }
}

/// The rows that a holder has are gone, on all queues.
pub fn remove_held<Q: Queue + Drop>(slots: &mut Vec<Option<LocalRows<Q>>>, by: &Holder)
    ensures slots { slots.new.items ≡ slots_changed (on_rows (keep (is_other_row by.now))) slots.old.items }
    ensures len { vec_len slots.new ≡ vec_len slots.old }
    ensures capacity { vec_capacity slots.new ≡ vec_capacity slots.old }
{
    for at in 0..slots.len() {
        remove_held_at(slots, at, by);
    }
}

/// Names the rows that a holder has, queue by queue. Where there is room for all of them it takes no memory.
pub fn held_rows<Q: Queue + Drop>(
    slots: &Vec<Option<LocalRows<Q>>>,
    by: &Holder,
    rows: &mut RowRoom,
) -> Result<(), NoMemory>
    ensures rows { OnOk result (rows.new.rows ≡ rows.old.rows ++ held_rows by.now (present slots.now.items)) }
    ensures room { RoomStays rows.old rows.new }
    ensures memory { OnErr result (rows.old.room < length (held_rows by.now (present slots.now.items))) }
{
    for at in 0..slots.len() {
        match held_rows_at(slots, at, by, rows) {
            Ok(()) => {}
            Err(NoMemory) => return Err(NoMemory),
        }
    }
    Ok(())
}
