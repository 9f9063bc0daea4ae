//! Rows in slots, in order of arrival, with all that finds them.
ghost use Rattle.std.specs.Prelude.{◌≡◌, ◌+◌, ◌<◌, ◌≤◌, ◌++◌, ◌∷◌, [], ℕ, List, Option, None, Some, OnOk, OnErr, IsSome, true, find, length, not, option_copied, slice_get, slice_set, vec_len, vec_capacity};
ghost use Rattle.mq_queue.specs.declared.row.Row as rows;
ghost use Rattle.mq_queue.specs.Rows.{is_free};
ghost use Rattle.mq_queue.specs.Counts.{HaveRoom, IsOneMore};
ghost use Rattle.mq_queue.specs.Queues.{count_waiting, freed, is_at};
ghost use Rattle.mq_index.specs.Lanes.{in_order};
ghost use Rattle.mq_index.specs.Walks.{NoneAtAll, is_asked, is_taken, stored};
ghost use Rattle.mq_index.specs.Slots.{AreLow, IsHome, IsSound, NoRow, freed_so, held_so, one, row_in, total};
ghost use Rattle.mq_index.specs.Stores.{StoreState};

use crate::counts::count_rows;
use crate::homes::{drop_home, home_in, note_home, reserve_homes};
use crate::index::Index;
use crate::keys::Kind;
use crate::walk::{found_in, has_lane, kind_for, placed};
use mq_base::NoMemory;
use mq_message::{Holder, Ident, Place, Want};
use mq_queue::{Row, count_in, count_out, free_row, is_free};
use std::alloc::Global;
use std::collections::HashMap;
use std::marker::Model;

/// Rows in slots: one comes in at the end, and one that goes leaves its slot empty.
#[derive(Drop)]
pub struct Store {
    slots: Vec<Option<Row>>,
    /// The arrival of each slot's row, also of one that is gone.
    marks: Vec<u64>,
    index: Index,
    /// In which slot the row with an ident lies.
    homes: HashMap<Ident, usize>,
    /// How many free rows have at least the priority 0, 1, and so on to 9.
    frees: [u64; 10],
    /// How many slots have a row.
    live: usize,
    /// The last arrival.
    arrivals: u64,
    /// For how many more rows `reserve` made room.
    room: usize,
    /// Where memory comes from.
    alloc: Global,
}

impl Model for Store {
    ghost use Rattle.std.specs.Prelude.{◌≡◌, ◌≤◌, ◌+◌, vec_len, vec_capacity};
    ghost use Rattle.std.specs.HashMap.{spare};
    ghost use Rattle.mq_index.specs.Slots.{AreCounted, AreHomes, AreMarked, home_in, one, total};
    ghost use Rattle.mq_index.specs.Stores.{HaveRoom, IsIndex, StoreState};

    ghost Value = { StoreState };

    ghost view = { λ s. record { slots = s.slots.items; arrivals = s.arrivals; room = s.room } };

    ghost invariant = { λ s. AreMarked s.marks.items s.slots.items s.arrivals × IsIndex s.slots.items s.index × AreHomes (home_in s.homes) s.slots.items × AreCounted s.frees s.slots.items × (s.live ≡ total one s.slots.items)
        × (vec_len s.slots + s.room ≤ vec_capacity s.slots) × (vec_len s.marks + s.room ≤ vec_capacity s.marks) × HaveRoom s.room s.index × (s.room ≤ spare s.homes) };
}

/// The row of a slot.
fn row_at(slots: &Vec<Option<Row>>, at: usize) -> Option<&Row>
    requires there { at < length slots.now.items }
    ensures { option_copied result ≡ row_in (slice_get slots.now.items at) }
{
    match &slots[at] {
        None => None,
        Some(row) => Some(row),
    }
}

/// Empties a slot.
fn take_slot(slots: &mut Vec<Option<Row>>, at: usize) -> Option<Row>
    requires there { at < length slots.old.items }
    ensures taken { result ≡ row_in (slice_get slots.old.items at) }
    ensures slots { slots.new.items ≡ slice_set slots.old.items at None }
    ensures len { vec_len slots.new ≡ vec_len slots.old }
    ensures capacity { vec_capacity slots.new ≡ vec_capacity slots.old }
{
    slots[at].take()
}

/// A row is held.
fn hold_slot(slots: &mut Vec<Option<Row>>, at: usize, by: &Holder)
    requires there { at < length slots.old.items }
    ensures held { (row : rows.Row) → slice_get slots.old.items at ≡ Some (Some row) → slots.new.items ≡ slice_set slots.old.items at (Some (record row { by = Some by.now })) }
    ensures len { vec_len slots.new ≡ vec_len slots.old }
    ensures capacity { vec_capacity slots.new ≡ vec_capacity slots.old }
{
    match &mut slots[at] {
        None => {}
        Some(row) => row.by = Some(*by),
    }
}

/// The row of a slot is free again, and counts a backout where that is said.
fn free_slot(slots: &mut Vec<Option<Row>>, at: usize, backed_out: bool)
    requires there { at < length slots.old.items }
    ensures freed { (row : rows.Row) → slice_get slots.old.items at ≡ Some (Some row) → slots.new.items ≡ slice_set slots.old.items at (Some (freed backed_out row)) }
    ensures len { vec_len slots.new ≡ vec_len slots.old }
    ensures capacity { vec_capacity slots.new ≡ vec_capacity slots.old }
{
    match &mut slots[at] {
        None => {}
        Some(row) => free_row(row, backed_out),
    }
}

/// Counts the row of a slot in, if it is free.
fn count_slot(frees: &mut [u64; 10], slots: &Vec<Option<Row>>, at: usize)
    requires room { (row : rows.Row) → slice_get slots.now.items at ≡ Some (Some row) → HaveRoom row frees.old }
    requires there { IsSome (row_in (slice_get slots.now.items at)) }
    requires within { at < length slots.now.items }
    ensures { (row : rows.Row) → slice_get slots.now.items at ≡ Some (Some row) → IsOneMore row frees.old frees.new }
{
    match row_at(slots, at) {
        None => {}
        Some(row) => count_in(frees, row),
    }
}

impl Store {
    /// No row. It takes no memory.
    pub fn new(alloc: Global) -> Store
        ensures slots { result.slots ≡ [] }
        ensures arrivals { result.arrivals ≡ 0 }
        ensures room { result.room ≡ 0 }
    {
        Store {
            slots: Vec::new(alloc),
            marks: Vec::new(alloc),
            index: Index::new(alloc),
            homes: HashMap::new(alloc),
            frees: [0; 10],
            live: 0,
            arrivals: 0,
            room: 0,
            alloc,
        }
    }

    /// Makes room for so many more rows. Room that is there is never refused, and a refusal leaves the store as it was.
    ///
    /// # Errors
    ///
    /// No memory.
    pub fn reserve(&mut self, more: usize) -> Result<(), NoMemory>
        ensures enough { OnOk result (more ≤ self.new.room) }
        ensures refused { OnErr result (self.old.room < more) }
        ensures room { self.old.room ≤ self.new.room }
        ensures slots { self.new.slots ≡ self.old.slots }
        ensures arrivals { self.new.arrivals ≡ self.old.arrivals }
    {
        if more <= self.room {
            return Ok(());
        }
        self.index.reserve(&self.slots, more)?;
        reserve_homes(&mut self.homes, more)?;
        if self.marks.reserve(more).is_err() || self.slots.reserve(more).is_err() {
            return Err(NoMemory);
        }
        self.room = more;
        Ok(())
    }

    /// A row comes last, in room that is there.
    pub fn push(&mut self, row: Row)
        requires room { 0 < self.old.room }
        requires fresh { NoRow row.message.ident self.old.slots }
        requires lane { row.place.lane < 10 }
        requires later { self.old.arrivals < row.place.arrival }
        ensures slots { self.new.slots ≡ self.old.slots ++ Some row ∷ [] }
        ensures arrivals { self.new.arrivals ≡ row.place.arrival }
        ensures room { self.new.room + 1 ≡ self.old.room }
    {
        self.index.push(&self.slots, &row);
        note_home(&mut self.homes, &row.message.ident, self.slots.len());
        count_in(&mut self.frees, &row);
        self.marks.push_reserved(row.place.arrival);
        self.arrivals = row.place.arrival;
        self.live += 1;
        self.room -= 1;
        self.slots.push_reserved(Some(row));
    }

    /// The row of a slot goes. It takes no memory.
    pub fn take(&mut self, at: usize) -> Option<Row>
        requires there { at < length self.old.slots }
        ensures taken { result ≡ row_in (slice_get self.old.slots at) }
        ensures slots { self.new.slots ≡ slice_set self.old.slots at None }
        ensures arrivals { self.new.arrivals ≡ self.old.arrivals }
        ensures room { self.new.room ≡ self.old.room }
    {
        let Some(row) = row_at(&self.slots, at) else {
            return None;
        };
        self.index.unlink(&self.slots, at, row);
        drop_home(&mut self.homes, &row.message.ident);
        count_out(&mut self.frees, row);
        self.live -= 1;
        take_slot(&mut self.slots, at)
    }

    /// A free row is held; false where it isn't free.
    pub fn hold(&mut self, at: usize, by: &Holder) -> bool
        requires there { at < length self.old.slots }
        ensures held { (row : rows.Row) → slice_get self.old.slots at ≡ Some (Some row) → (result ≡ is_free row) × (self.new.slots ≡ slice_set self.old.slots at (Some (held_so by.now row))) }
        ensures arrivals { self.new.arrivals ≡ self.old.arrivals }
        ensures room { self.new.room ≡ self.old.room }
    {
        let Some(row) = row_at(&self.slots, at) else {
            return false;
        };
        if !is_free(row) {
            return false;
        }
        count_out(&mut self.frees, row);
        hold_slot(&mut self.slots, at, by);
        true
    }

    /// A held row is free again, and counts a backout where that is said; false where it isn't held.
    pub fn release(&mut self, at: usize, backed_out: bool) -> bool
        requires there { at < length self.old.slots }
        ensures released { (row : rows.Row) → slice_get self.old.slots at ≡ Some (Some row) → (result ≡ not (is_free row)) × (self.new.slots ≡ slice_set self.old.slots at (Some (freed_so backed_out row))) }
        ensures arrivals { self.new.arrivals ≡ self.old.arrivals }
        ensures room { self.new.room ≡ self.old.room }
    {
        let Some(row) = row_at(&self.slots, at) else {
            return false;
        };
        if is_free(row) {
            return false;
        }
        free_slot(&mut self.slots, at, backed_out);
        count_slot(&mut self.frees, &self.slots, at);
        true
    }

    /// The last arrival.
    pub fn arrivals(&self) -> u64
        ensures arrivals { result ≡ self.now.arrivals }
        ensures lanes { AreLow self.now.slots }
    {
        self.arrivals
    }

    /// The last arrival is said to be a later one.
    pub fn raise(&mut self, arrivals: u64)
        requires later { self.old.arrivals ≤ arrivals }
        ensures slots { self.new.slots ≡ self.old.slots }
        ensures arrivals { self.new.arrivals ≡ arrivals }
        ensures room { self.new.room ≡ self.old.room }
    {
        self.arrivals = arrivals;
    }

    /// Where its memory comes from.
    pub fn alloc(&self) -> Global {
        self.alloc
    }

    /// How many slots have a row.
    pub fn rows(&self) -> usize
        ensures { result ≡ total one self.now.slots }
    {
        self.live
    }

    /// For how many rows there is memory, with those that are there.
    pub fn needs(&self) -> usize
        ensures { result ≡ total one self.now.slots + self.now.room }
    {
        self.live + self.room
    }

    /// How many slots there are, with a row or empty.
    pub fn slots(&self) -> usize
        ensures slots { result ≡ length self.now.slots }
        ensures sound { IsSound self.now.slots self.now.arrivals }
    {
        self.slots.len()
    }

    /// The row of a slot.
    pub fn row(&self, at: usize) -> Option<&Row>
        requires there { at < length self.now.slots }
        ensures { option_copied result ≡ row_in (slice_get self.now.slots at) }
    {
        row_at(&self.slots, at)
    }

    /// The slot of the row with an ident.
    pub fn home(&self, ident: &Ident) -> Option<usize>
        ensures home { IsHome ident.now self.now.slots result }
        ensures lanes { AreLow self.now.slots }
    {
        home_in(&self.homes, ident)
    }

    /// How many rows there are.
    pub fn live(&self) -> u64
        ensures { result ≡ length (in_order (stored self.now.slots)) }
    {
        self.live as u64
    }

    /// How many free rows have at least this priority.
    pub fn free(&self, least: u8) -> u64
        ensures { result ≡ count_waiting least (in_order (stored self.now.slots)) }
    {
        if least < 10 {
            self.frees[least as usize]
        } else {
            count_rows(&self.slots, least)
        }
    }

    /// Whether a lane need not be looked through: rows are found by an id, and the lane has none.
    fn is_bare(&self, kind: Kind, lane: u8, want: &Want) -> bool
        ensures { result ≡ true → NoneAtAll (is_taken lane true want.now None) self.now.slots }
    {
        match kind {
            Kind::Lane => false,
            Kind::MsgId | Kind::CorrelId => {
                if has_lane(
                    self.index.chain(Kind::Lane),
                    &self.slots,
                    &self.marks,
                    lane,
                    want,
                ) {
                    false
                } else {
                    true
                }
            }
        }
    }

    /// The first row of a lane that is asked for.
    fn found_in(&self, lane: u8, any: bool, want: &Want, after: Option<Place>) -> Option<&Row>
        ensures { option_copied result ≡ find (is_taken lane any want.now after) (stored self.now.slots) }
    {
        let kind = kind_for(any, want);
        if self.is_bare(kind, lane, want) {
            return None;
        }
        found_in(
            &self.slots,
            &self.marks,
            self.index.chain(kind),
            lane,
            any,
            want,
            after,
        )
    }

    /// The first row that is asked for, lane by lane.
    pub fn found(&self, any: bool, want: &Want, after: Option<Place>) -> Option<&Row>
        ensures { option_copied result ≡ find (is_asked any want.now after) (in_order (stored self.now.slots)) }
    {
        for lane in 0..10u8 {
            if let Some(row) = self.found_in(lane, any, want, after) {
                return Some(row);
            }
        }
        None
    }

    /// The row at a place.
    pub fn at(&self, place: Place) -> Option<&Row>
        ensures { option_copied result ≡ find (is_at place) (in_order (stored self.now.slots)) }
    {
        placed(&self.slots, &self.marks, place)
    }
}
