//! The rows of all queues, found by their idents.
ghost use Rattle.std.specs.Prelude.{◌≡◌, ◌∷◌, [], true, false, not, ◌&&◌, OnOk, OnErr, IfOk, filter};
ghost use Rattle.std.specs.List.{list_any};
ghost use Rattle.std.specs.Str.{bytes_eq};
ghost use Rattle.mq_message.specs.declared.place.Holder.TheVariants as holders;
ghost use Rattle.mq_queue.specs.Rows.{is_free, has_ident, held_by};
ghost use Rattle.mq_calls.specs.declared.image.Shelf.{Shelf};
ghost use Rattle.mq_calls.specs.State.Which.{Among};
ghost use Rattle.mq_spec_log.specs.Applies.{is_free_at, stands_on, has_rows_on};
ghost use Rattle.mq_spec_log.specs.Shelves.{shelf_in, set_shelf, on_all, shelved_in, less_rows, held_rows, without_ident};
ghost use Rattle.mq_shelves.specs.Found.{IsFound};
ghost use Rattle.mq_shelves.specs.Racks.{any_row, tagged, less_held, freed_held};

use crate::copies::copy_shelves;
use crate::rack::{Rack, Stand};
use crate::racks::{row_at, standing};
use crate::slots::Racks;
use crate::spots::{Spot, note_spot, spot_of};
use indexmap::IndexMap;
use mq_base::{ChName, Items, NoMemory, QName};
use mq_calls::Shelf;
use mq_message::{Holder, Ident, Message, Place};
use mq_queue::{Row, is_free};
use std::alloc::Global;
use std::marker::Model;

/// A row, and the queue that it stands on.
#[derive(Clone, Copy)]
pub struct Found<'a> {
    /// The queue.
    pub queue: QName,
    /// The row.
    pub row: &'a Row,
}

/// The rows of all queues, found by their idents. Contracts see the queues with their rows in order of place.
#[derive(Drop)]
pub struct Rows {
    // In the order in which the queues came.
    racks: Racks,
    // Where the row of each ident stands. Some idents may have none any more.
    spots: IndexMap<Ident, Spot>,
    // How many rows came.
    next: u64,
}

impl Model for Rows {
    ghost use Rattle.std.specs.Prelude.{List};
    ghost use Rattle.mq_calls.specs.declared.image.Shelf.{Shelf};
    ghost use Rattle.mq_shelves.specs.Spots.{spot_of};
    ghost use Rattle.mq_shelves.specs.Racks.{shelves_of, AreRacks};

    ghost Value = { List Shelf };

    ghost view = { λ r. shelves_of r.racks };

    ghost invariant = { λ r. AreRacks (spot_of r.spots) r.next r.racks };
}

impl Rows {
    /// No queue.
    pub fn new(alloc: Global) -> Rows
        ensures { result ≡ [] }
    {
        Rows {
            racks: Racks::new(alloc),
            spots: IndexMap::new(alloc),
            next: 0,
        }
    }

    // The row with an ident.
    fn find(&self, ident: &Ident) -> Option<Found<'_>>
        ensures { IsFound ident.now self.now result }
    {
        let Some(spot) = spot_of(&self.spots, ident) else {
            return None;
        };
        let Some(row) = row_at(&self.racks, &spot) else {
            return None;
        };
        if has(row, ident) {
            Some(Found {
                queue: spot.queue,
                row,
            })
        } else {
            None
        }
    }

    /// Whether the queue of that name has a row.
    pub fn has_rows_on(&self, name: &QName) -> bool
        ensures { result ≡ has_rows_on name.now self.now }
    {
        match self.racks.get(name) {
            None => false,
            Some(rack) => !rack.is_empty(),
        }
    }

    /// The row with an ident goes, free or held.
    pub fn remove(&mut self, ident: &Ident)
        ensures { self.new ≡ on_all (without_ident ident.now) self.old }
    {
        if let Some(spot) = standing(&self.racks, &self.spots, ident) {
            self.racks.take(&spot.queue, &spot.stand);
        }
    }

    // The row with an ident is held so.
    fn tag(&mut self, ident: &Ident, by: Option<Holder>)
        ensures { self.new ≡ on_all (tagged ident.now by) self.old }
    {
        if let Some(spot) = standing(&self.racks, &self.spots, ident) {
            self.racks.hold(&spot.queue, &spot.stand, by);
        }
    }

    /// A queue has no rows, there or not.
    pub fn set_empty(&mut self, alloc: Global, name: &QName) -> Result<(), NoMemory>
        ensures ok { OnOk result (self.new ≡ set_shelf (record { name = name.now; rows = [] }) self.old) }
        ensures err { OnErr result (self.new ≡ self.old) }
    {
        self.racks.set(name, Rack::new(alloc))?;
        Ok(())
    }

    /// The queue of that name is no more.
    pub fn drop_queue(&mut self, name: &QName)
        ensures { self.new ≡ filter (λ (s : Shelf). not (bytes_eq name.now s.name)) self.old }
    {
        self.racks.drop_queue(name);
    }

    // A message takes the last place of its lane; no row has its ident.
    fn put(
        &mut self,
        alloc: Global,
        queue: &QName,
        lane: u8,
        message: Message,
    ) -> Result<(), NoMemory>
        requires { any_row (λ n row. true) message.ident self.old ≡ false }
        ensures ok { OnOk result (self.new ≡ set_shelf (shelved_in lane message (shelf_in queue.now self.old)) self.old) }
        ensures err { OnErr result (self.new ≡ self.old) }
    {
        let Some(next) = self.next.checked_add(1) else {
            return Err(NoMemory);
        };
        let arrival = self.next;
        let stand = Stand { lane, arrival };
        let spot = Spot {
            queue: *queue,
            stand,
        };
        note_spot(&mut self.spots, &message.ident, spot)?;
        self.next = next;
        let mut message = message;
        message.md.backout_count = 0;
        let row = Row {
            place: Place { lane, arrival: 0 },
            message,
            by: None,
        };
        self.racks.put(alloc, queue, stand, row)?;
        Ok(())
    }

    /// The queues with their rows.
    pub fn into_shelves(self, alloc: Global) -> Result<Items<Shelf>, NoMemory>
        ensures { IfOk result (λ shelves. shelves ≡ self) }
    {
        let mut shelves = Vec::new(alloc);
        let mut left = self.racks.into_slots();
        while let Some((_, slot)) = left.pop_first() {
            let rows = slot.rack.into_rows(alloc)?;
            shelves.push(Shelf {
                name: slot.name,
                rows,
            })?;
        }
        Ok(Items::from_vec(shelves))
    }

    /// Copies of the queues with their rows.
    pub fn to_shelves(&self, alloc: Global) -> Result<Items<Shelf>, NoMemory>
        ensures { IfOk result (λ shelves. shelves ≡ self.now) }
    {
        copy_shelves(alloc, self.racks.slots())
    }
}

// Rows by their idents, as records of a log speak of them.
impl Rows {
    /// Whether a free row of an ident stands on some queue.
    pub fn stands_on(&self, ident: &Ident) -> bool
        ensures { result ≡ stands_on ident.now self.now }
    {
        match self.find(ident) {
            None => false,
            Some(found) => is_free(found.row),
        }
    }

    /// Whether a row of an ident is held.
    pub fn is_held(&self, ident: &Ident) -> bool
        ensures { result ≡ any_row (λ n row. not (is_free row)) ident.now self.now }
    {
        match self.find(ident) {
            None => false,
            Some(found) => !is_free(found.row),
        }
    }

    /// Whether a row of an ident stands on a queue of another name.
    pub fn stands_elsewhere(&self, queue: &QName, ident: &Ident) -> bool
        ensures { result ≡ any_row (λ n row. not (bytes_eq queue.now n)) ident.now self.now }
    {
        match self.find(ident) {
            None => false,
            Some(found) => !is_name(queue, &found.queue),
        }
    }

    /// Whether a free row of an ident stands on the queue of that name.
    fn stands_at(&self, queue: &QName, ident: &Ident) -> bool
        ensures at { result ≡ list_any (is_free_at ident.now) (shelf_in queue.now self.now).rows }
        ensures there { result ≡ any_row (λ n row. bytes_eq n queue.now && is_free row) ident.now self.now }
        ensures all { result ≡ true → any_row (λ n row. not (bytes_eq n queue.now && is_free row)) ident.now self.now ≡ false }
    {
        match self.find(ident) {
            None => false,
            Some(found) => {
                if is_name(&found.queue, queue) {
                    is_free(found.row)
                } else {
                    false
                }
            }
        }
    }

    /// Whether the batch of a channel holds the row of an ident.
    fn is_held_by(&self, ident: &Ident, channel: &ChName) -> bool
        ensures there { result ≡ any_row (λ n row. held_by (holders.Batch channel.now) row.by) ident.now self.now }
        ensures all { result ≡ true → any_row (λ n row. not (held_by (holders.Batch channel.now) row.by)) ident.now self.now ≡ false }
    {
        match self.find(ident) {
            None => false,
            Some(found) => is_held_by(found.row, channel),
        }
    }

    /// A free row goes, where it stands on the queue; the answer says whether it did.
    pub fn take(&mut self, queue: &QName, ident: &Ident) -> bool
        ensures stood { result ≡ list_any (is_free_at ident.now) (shelf_in queue.now self.old).rows }
        ensures taken { result ≡ true → self.new ≡ on_all (less_rows (Among queue.now (ident.now ∷ []))) self.old }
        ensures kept { result ≡ false → self.new ≡ self.old }
    {
        if !self.stands_at(queue, ident) {
            return false;
        }
        self.remove(ident);
        true
    }

    /// The batch of a channel holds the free row of an ident, where it stands on the queue.
    pub fn hold(&mut self, queue: &QName, ident: &Ident, channel: &ChName)
        ensures { self.new ≡ on_all (held_rows (Among queue.now (ident.now ∷ [])) (holders.Batch channel.now)) self.old }
    {
        if self.stands_at(queue, ident) {
            self.tag(ident, Some(Holder::Batch(*channel)));
        }
    }

    /// The row of an ident goes, where the batch of a channel holds it.
    pub fn remove_held(&mut self, ident: &Ident, channel: &ChName)
        ensures { self.new ≡ on_all (less_held (holders.Batch channel.now) ident.now) self.old }
    {
        if self.is_held_by(ident, channel) {
            self.remove(ident);
        }
    }

    /// The row of an ident is free again, where the batch of a channel holds it.
    pub fn free_held(&mut self, ident: &Ident, channel: &ChName)
        ensures { self.new ≡ on_all (freed_held (holders.Batch channel.now) ident.now) self.old }
    {
        if self.is_held_by(ident, channel) {
            self.tag(ident, None);
        }
    }

    /// The row of a message's ident goes, and the message takes the last place of its lane on the queue of that name, with
    /// no backout counted.
    pub fn replace(
        &mut self,
        alloc: Global,
        queue: &QName,
        lane: u8,
        message: Message,
    ) -> Result<(), NoMemory>
        ensures ok { OnOk result (self.new ≡ set_shelf (shelved_in lane message (shelf_in queue.now (on_all (without_ident message.ident) self.old))) (on_all (without_ident message.ident) self.old)) }
        ensures err { OnErr result (self.new ≡ on_all (without_ident message.ident) self.old) }
    {
        self.remove(&message.ident);
        self.put(alloc, queue, lane, message)
    }
}

/// Whether the batch of a channel holds it.
fn is_held_by(row: &Row, channel: &ChName) -> bool
    ensures { result ≡ held_by (holders.Batch channel.now) row.now.by }
{
    match &row.by {
        None => false,
        Some(Holder::Unit(_)) => false,
        Some(Holder::Batch(name)) => *channel == *name,
    }
}

fn has(row: &Row, ident: &Ident) -> bool
    ensures { result ≡ has_ident ident.now row.now }
{
    row.message.ident == *ident
}

fn is_name(a: &QName, b: &QName) -> bool
    ensures { result ≡ bytes_eq a.now b.now }
{
    *a == *b
}
