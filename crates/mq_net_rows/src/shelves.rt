//! The rows of one manager's queues, found by their idents.
ghost use Rattle.std.specs.Prelude.{◌≡◌, ◌<◌, ◌∷◌, [], ◌++◌, ◌||◌, not, is_some, length, position, slice_get, option_copied, OnOk, IfOk};
ghost use Rattle.std.specs.Str.{bytes_eq};
ghost use Rattle.mq_calls.specs.declared.image.Shelf.{Shelf};
ghost use Rattle.mq_queue.specs.declared.row.Row.{Row};
ghost use Rattle.mq_queue.specs.Rows.{has_ident, is_persistent};
ghost use Rattle.mq_calls.specs.Changes.{new_row};
ghost use Rattle.mq_spec_network.specs.Ledger.{put_in, row_in, is_one_of, leave_queues, change_at};
ghost use Rattle.mq_net_rows.specs.Stored.{queues_find, leave_some, put_row, put_rows, AreInLanes, AreSorted};

use crate::copies::copy_shelves;
use crate::homes::{drop_home, home_of, note_home};
use crate::lanes::{Named, lanes_row};
use crate::roll::Roll;
use crate::slots::Slots;
use crate::store::{of_ident, row_at};
use indexmap::IndexMap;
use mq_base::{Items, NoMemory, QName};
use mq_calls::Shelf;
use mq_message::{Ident, Message, Place};
use mq_queue::Row;
use std::alloc::Global;
use std::marker::Model;

/// The rows of one manager, queue by queue, in order of place. A row is placed last in its lane, and found and taken by its ident
/// in constant time, as long as no ident was ever placed beside a row of its own; then in time of all rows.
#[derive(Drop)]
pub struct Shelves {
    alloc: Global,
    // In order of arrival; empty where a row was taken.
    store: Slots,
    // The slots of each queue.
    queues: Roll,
    // The slot of each row's ident.
    homes: IndexMap<Ident, usize>,
    // Whether an ident was placed where a row of its own stood.
    doubled: bool,
}

impl Model for Shelves {
    ghost use Rattle.std.specs.Prelude.{List};
    ghost use Rattle.mq_calls.specs.declared.image.Shelf.{Shelf};
    ghost use Rattle.mq_net_rows.specs.Homes.{home_of};
    ghost use Rattle.mq_net_rows.specs.Stored.{shelves_of, IsStore};

    ghost Value = { List Shelf };

    ghost view = { λ s. shelves_of s.store s.queues };

    ghost invariant = { λ s. IsStore s.store s.queues (home_of s.homes) s.doubled };
}

/// A free row, as the ledger places it.
fn new_row(lane: u8, message: Message) -> Row
    ensures { result ≡ new_row lane 0 message }
{
    Row {
        place: Place { lane, arrival: 0 },
        message,
        by: None,
    }
}

fn either(a: bool, b: bool) -> bool
    ensures { result ≡ (a || b) }
{
    a || b
}

/// The first row of an ident.
fn queues_row<'a>(store: &'a [Option<Row>], queues: &[Named], ident: &Ident) -> Option<&'a Row>
    ensures { option_copied result ≡ queues_find ident.now store.now queues.now }
{
    for queue in queues {
        if let Some(row) = lanes_row(store, queue.lanes.as_slice(), ident) {
            return Some(row);
        }
    }
    None
}

impl Shelves {
    /// No queue.
    pub fn new(alloc: Global) -> Shelves
        ensures { result ≡ [] }
    {
        Shelves {
            alloc,
            store: Slots::new(alloc),
            queues: Roll::new(alloc),
            homes: IndexMap::new(alloc),
            doubled: false,
        }
    }

    /// These queues, whose rows stand in order of their lanes.
    pub fn from_shelves(alloc: Global, shelves: Items<Shelf>) -> Result<Shelves, NoMemory>
        requires { AreSorted shelves }
        ensures { IfOk result (λ s. s ≡ shelves) }
    {
        let mut out = Shelves::new(alloc);
        let mut left = shelves.into_vec();
        left.reverse();
        'placing: while let Some(shelf) = left.pop() {
            out.add_shelf(shelf)?;
        }
        Ok(out)
    }

    /// A copy of the queues with their rows.
    pub fn to_shelves(&self) -> Result<Items<Shelf>, NoMemory>
        ensures { IfOk result (λ ss. ss ≡ self.now) }
    {
        copy_shelves(self.alloc, self.store.as_slice(), self.queues.as_slice())
    }

    /// A queue more, with no row.
    fn add_queue(&mut self, name: QName) -> Result<(), NoMemory>
        ensures { OnOk result (self.new ≡ self.old ++ record { name = name; rows = [] } ∷ []) }
    {
        self.queues.push(Named {
            name,
            lanes: Items::new(self.alloc),
        })?;
        Ok(())
    }

    /// A row stands last in its lane on the queue at a place.
    fn add_row(&mut self, at: usize, row: Row) -> Result<(), NoMemory>
        requires { at < length self.old }
        ensures { OnOk result (self.new ≡ change_at at (put_row row) self.old) }
    {
        let ident = row.message.ident;
        self.doubled = either(self.doubled, self.has(&ident));
        let slot = self.store.len();
        self.store.push()?;
        note_home(&mut self.homes, &ident, slot)?;
        self.queues.seat(self.alloc, at, row.place.lane, slot)?;
        self.store.fill(slot, row);
        Ok(())
    }

    #[tactic(auto, using(crate::proofs::QueueLaws::rows_next, crate::proofs::QueueLaws::rows_none, crate::proofs::QueueLaws::changed_long))]
    fn add_rows(&mut self, at: usize, rows: Items<Row>) -> Result<(), NoMemory>
        requires { at < length self.old }
        ensures { OnOk result (self.new ≡ change_at at (put_rows rows) self.old) }
    {
        let mut left = rows.into_vec();
        left.reverse();
        'placing: while let Some(row) = left.pop() {
            self.add_row(at, row)?;
        }
        Ok(())
    }

    fn add_shelf(&mut self, shelf: Shelf) -> Result<(), NoMemory>
        requires { AreInLanes shelf.rows }
        ensures { OnOk result (self.new ≡ self.old ++ shelf ∷ []) }
    {
        let Shelf { name, rows } = shelf;
        let at = self.queues.len();
        self.add_queue(name)?;
        self.add_rows(at, rows)
    }

    /// The place of the queue of a name.
    fn place_of(&self, name: &QName) -> Option<usize>
        ensures value { result ≡ position (λ s. bytes_eq name.now s.name) self.now }
    {
        self.queues.place_of(name)
    }

    /// Places a message on the queue of a name, there or not: last in its lane.
    pub fn put_in(&mut self, name: &QName, lane: u8, message: Message) -> Result<(), NoMemory>
        ensures { OnOk result (self.new ≡ put_in name.now lane message self.old) }
    {
        match self.place_of(name) {
            None => {
                let at = self.queues.len();
                self.add_queue(*name)?;
                self.add_row(at, new_row(lane, message))
            }
            Some(at) => self.add_row(at, new_row(lane, message)),
        }
    }

    /// The first row of an ident.
    pub fn row(&self, ident: &Ident) -> Option<&Row>
        ensures { option_copied result ≡ row_in ident.now self.now }
    {
        if self.doubled {
            return queues_row(self.store.as_slice(), self.queues.as_slice(), ident);
        }
        match home_of(&self.homes, ident) {
            None => None,
            Some(at) => of_ident(row_at(self.store.as_slice(), at), ident),
        }
    }

    /// Whether some queue has a row of an ident.
    pub fn has(&self, ident: &Ident) -> bool
        ensures { result ≡ is_some (row_in ident.now self.now) }
    {
        match self.row(ident) {
            None => false,
            Some(_) => true,
        }
    }

    /// No row of an ident stays.
    pub fn leave(&mut self, ident: &Ident)
        ensures { self.new ≡ leave_queues (λ (row : Row). not (has_ident ident.now row)) self.old }
    {
        if self.doubled {
            self.store.clear_each(ident);
        } else if let Some(at) = home_of(&self.homes, ident) {
            self.store.clear_at(at, ident);
            drop_home(&mut self.homes, ident);
        }
    }

    /// No row of the ident at a place stays.
    fn leave_at(&mut self, idents: &[Ident], at: usize)
        ensures { self.new ≡ leave_some (slice_get idents.now at) self.old }
    {
        if let Some(ident) = idents.get(at) {
            self.leave(ident);
        }
    }

    /// No row of these idents stays.
    pub fn leave_all(&mut self, idents: &[Ident])
        ensures { self.new ≡ leave_queues (λ (row : Row). not (is_one_of idents.now row)) self.old }
    {
        for at in 0..idents.len() {
            self.leave_at(idents, at);
        }
    }

    /// Only persistent rows stay.
    pub fn lose(&mut self)
        ensures { self.new ≡ leave_queues (λ (row : Row). is_persistent row.message) self.old }
    {
        self.store.clear_lost();
    }
}
