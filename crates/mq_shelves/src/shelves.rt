//! The rows of all queues as a log tells them, with the idents of those that batches hold.
ghost use Rattle.std.specs.Prelude.{◌≡◌, ◌∷◌, ◌++◌, [], true, not, OnOk, IfOk, filter, option_copied};
ghost use Rattle.std.specs.List.{list_any};
ghost use Rattle.std.specs.Str.{bytes_eq};
ghost use Rattle.mq_message.specs.declared.place.Holder.TheVariants as holders;
ghost use Rattle.mq_message.specs.declared.message.Ident.{Ident};
ghost use Rattle.mq_queue.specs.Rows.{is_free};
ghost use Rattle.mq_calls.specs.declared.image.Shelf.{Shelf};
ghost use Rattle.mq_calls.specs.State.Which.{Among, HeldBy};
ghost use Rattle.mq_spec_log.specs.Applies.{is_free_at, is_held_among, is_elsewhere, stands_on, has_rows_on};
ghost use Rattle.mq_spec_log.specs.Shelves.{shelf_in, set_shelf, on_all, shelved_in, less_rows, freed_rows, held_rows, without_ident};
ghost use Rattle.mq_shelves.specs.Racks.{any_row};
ghost use Rattle.mq_shelves.specs.Holds.{held_each, removed_each, freed_each, or_no_idents};

use crate::rows::Rows;
use indexmap::IndexMap;
use mq_base::{ChName, Items, NoMemory, QName};
use mq_calls::Shelf;
use mq_message::{Ident, Message};
use std::alloc::Global;
use std::marker::Model;

fn hold_each(rows: &mut Rows, queue: &QName, idents: &[Ident], channel: &ChName)
    ensures { rows.new ≡ held_each queue.now (holders.Batch channel.now) idents.now rows.old }
{
    for ident in idents {
        rows.hold(queue, ident, channel);
    }
}

fn remove_each(rows: &mut Rows, idents: &[Ident], channel: &ChName)
    ensures { rows.new ≡ removed_each (holders.Batch channel.now) idents.now rows.old }
{
    for ident in idents {
        rows.remove_held(ident, channel);
    }
}

fn free_each(rows: &mut Rows, idents: &[Ident], channel: &ChName)
    ensures { rows.new ≡ freed_each (holders.Batch channel.now) idents.now rows.old }
{
    for ident in idents {
        rows.free_held(ident, channel);
    }
}

fn any_held(rows: &Rows, idents: &[Ident]) -> bool
    ensures { result ≡ list_any (λ (ident : Ident). any_row (λ n row. not (is_free row)) ident rows.now) idents.now }
{
    idents.iter().any(|ident| rows.is_held(ident))
}

fn any_elsewhere(rows: &Rows, queue: &QName, idents: &[Ident]) -> bool
    ensures { result ≡ list_any (λ (ident : Ident). any_row (λ n row. not (bytes_eq queue.now n)) ident rows.now) idents.now }
{
    idents
        .iter()
        .any(|ident| rows.stands_elsewhere(queue, ident))
}

// Idents that were noted, and more.
fn joined(
    alloc: Global,
    noted: Option<&Items<Ident>>,
    more: &[Ident],
) -> Result<Items<Ident>, NoMemory>
    ensures { IfOk result (λ idents. idents ≡ or_no_idents (option_copied noted.entry) ++ more.now) }
{
    match noted {
        None => Ok(Items::from_slice(alloc, more)?),
        Some(noted) => {
            let mut idents = Items::from_slice(alloc, noted.as_slice())?;
            idents.extend_from_slice(more)?;
            Ok(idents)
        }
    }
}

/// The queues of a log with their rows. Contracts see them in the order in which the queues came, with the rows in order of
/// place. What is asked and done by an ident takes as many steps as a search by hash and one in a sorted tree.
#[derive(Drop)]
pub struct Shelves {
    rows: Rows,
    // The idents of the rows that the batch of a channel may hold.
    holds: IndexMap<ChName, Items<Ident>>,
}

impl Model for Shelves {
    ghost use Rattle.std.specs.Prelude.{List};
    ghost use Rattle.mq_calls.specs.declared.image.Shelf.{Shelf};
    ghost use Rattle.mq_shelves.specs.Racks.{any_row};
    ghost use Rattle.mq_shelves.specs.Holds.{noted_for, AreNoted};

    ghost Value = { List Shelf };

    ghost view = { λ s. s.rows };

    ghost invariant = { λ s. AreNoted (noted_for s.holds) s.rows };
}

impl Shelves {
    /// No queue.
    pub fn new(alloc: Global) -> Shelves
        ensures { result ≡ [] }
    {
        Shelves {
            rows: Rows::new(alloc),
            holds: IndexMap::new(alloc),
        }
    }

    /// Whether a free row of an ident stands on some queue.
    pub fn stands_on(&self, ident: &Ident) -> bool
        ensures { result ≡ stands_on ident.now self.now }
    {
        self.rows.stands_on(ident)
    }

    /// Whether a row of one of some idents is held on some queue.
    pub fn holds_any(&self, idents: &[Ident]) -> bool
        ensures { result ≡ list_any (λ (s : Shelf). list_any (is_held_among idents.now) s.rows) self.now }
    {
        any_held(&self.rows, idents)
    }

    /// Whether a row of one of some idents stands on a queue of another name.
    pub fn stand_elsewhere(&self, queue: &QName, idents: &[Ident]) -> bool
        ensures { result ≡ list_any (is_elsewhere queue.now idents.now) self.now }
    {
        any_elsewhere(&self.rows, queue, idents)
    }

    /// Whether the queue of that name has a row.
    pub fn has_rows_on(&self, name: &QName) -> bool
        ensures { result ≡ has_rows_on name.now self.now }
    {
        self.rows.has_rows_on(name)
    }

    /// The row of a message's ident goes, and the message takes the last place of its lane on the queue of that name, with
    /// no backout counted.
    pub fn replace(
        &mut self,
        alloc: Global,
        queue: &QName,
        lane: u8,
        message: Message,
    ) -> Result<(), NoMemory>
        ensures { OnOk result (self.new ≡ set_shelf (shelved_in lane message (shelf_in queue.now (on_all (without_ident message.ident) self.old))) (on_all (without_ident message.ident) self.old)) }
    {
        self.rows.replace(alloc, queue, lane, message)
    }

    /// A free row goes, where it stands on the queue; the answer says whether it did.
    pub fn take(&mut self, queue: &QName, ident: &Ident) -> bool
        ensures stood { result ≡ list_any (is_free_at ident.now) (shelf_in queue.now self.old).rows }
        ensures taken { result ≡ true → self.new ≡ on_all (less_rows (Among queue.now (ident.now ∷ []))) self.old }
    {
        if !self.rows.take(queue, ident) {
            return false;
        }
        true
    }

    /// The batch of a channel holds the free rows of some idents on the queue of that name.
    pub fn hold(
        &mut self,
        alloc: Global,
        queue: &QName,
        idents: &[Ident],
        channel: &ChName,
    ) -> Result<(), NoMemory>
        ensures { OnOk result (self.new ≡ on_all (held_rows (Among queue.now idents.now) (holders.Batch channel.now)) self.old) }
    {
        let noted = joined(alloc, self.holds.get(channel), idents)?;
        self.holds.insert(*channel, noted)?;
        hold_each(&mut self.rows, queue, idents, channel);
        Ok(())
    }

    /// The rows that the batch of a channel holds go.
    pub fn commit(&mut self, channel: &ChName)
        ensures { self.new ≡ on_all (less_rows (HeldBy (holders.Batch channel.now))) self.old }
    {
        if let Some(noted) = self.holds.swap_remove(channel) {
            remove_each(&mut self.rows, noted.as_slice(), channel);
        }
    }

    /// The rows that the batch of a channel holds are free again.
    pub fn back_out(&mut self, channel: &ChName)
        ensures { self.new ≡ on_all (freed_rows (holders.Batch channel.now)) self.old }
    {
        if let Some(noted) = self.holds.swap_remove(channel) {
            free_each(&mut self.rows, noted.as_slice(), channel);
        }
    }

    /// A queue has no rows, there or not.
    pub fn set_empty(&mut self, alloc: Global, name: &QName) -> Result<(), NoMemory>
        ensures { OnOk result (self.new ≡ set_shelf (record { name = name.now; rows = [] }) self.old) }
    {
        self.rows.set_empty(alloc, name)
    }

    /// The queue of that name is no more.
    pub fn drop_queue(&mut self, name: &QName)
        ensures { self.new ≡ filter (λ (s : Shelf). not (bytes_eq name.now s.name)) self.old }
    {
        self.rows.drop_queue(name);
    }

    /// The queues with their rows.
    pub fn into_shelves(self, alloc: Global) -> Result<Items<Shelf>, NoMemory>
        ensures { IfOk result (λ shelves. shelves ≡ self) }
    {
        self.rows.into_shelves(alloc)
    }

    /// Copies of the queues with their rows.
    pub fn to_shelves(&self, alloc: Global) -> Result<Items<Shelf>, NoMemory>
        ensures { IfOk result (λ shelves. shelves ≡ self.now) }
    {
        self.rows.to_shelves(alloc)
    }
}
