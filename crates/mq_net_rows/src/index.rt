//! Queues with their rows, found by their names.
ghost use Rattle.std.specs.Prelude.{◌≡◌, ◌++◌, ◌∷◌, [], List, OnOk, IfOk, slice_get, length};
ghost use Rattle.std.specs.Str.{bytes_eq};
ghost use Rattle.indexmap.specs.IndexMap.{get as found_in};
ghost use Rattle.mq_calls.specs.declared.image.Shelf.{Shelf};
ghost use Rattle.mq_spec_network.specs.Ledger.{rows_in};
ghost use Rattle.mq_net_rows.specs.Rolls.{AreFound, shelf_name, shelf_rows};

use crate::places::{found, note_name};
use indexmap::IndexMap;
use mq_base::{NoMemory, QName};
use mq_calls::Shelf;
use mq_queue::Row;
use std::alloc::Global;
use std::marker::Model;

/// Queues in order, the first of a name found in constant time. Contracts see the list.
#[derive(Drop)]
pub struct ShelfIndex<'a> {
    shelves: &'a [Shelf],
    // The place of the first queue of each name.
    places: IndexMap<QName, usize>,
}

impl<'a> Model for ShelfIndex<'a> {
    ghost use Rattle.std.specs.Prelude.{List};
    ghost use Rattle.std.specs.Str.{bytes_eq};
    ghost use Rattle.indexmap.specs.IndexMap.{get};
    ghost use Rattle.mq_calls.specs.declared.image.Shelf.{Shelf};
    ghost use Rattle.mq_net_rows.specs.Rolls.{AreFound, shelf_name};

    ghost Value = { List Shelf };

    ghost view = { λ i. i.shelves.now };

    ghost invariant = { λ i. AreFound shelf_name (get bytes_eq i.places) i.shelves.now };
}

/// The place of a queue is noted, if it is the first of its name.
fn note_first(places: &mut IndexMap<QName, usize>, at: usize, shelf: &Shelf) -> Result<(), NoMemory>
    ensures { OnOk result ((before : List Shelf) → length before ≡ at → AreFound shelf_name (found_in bytes_eq places.old) before → AreFound shelf_name (found_in bytes_eq places.new) (before ++ shelf.now ∷ [])) }
{
    if found(places, &shelf.name).is_some() {
        return Ok(());
    }
    note_name(places, &shelf.name, at)
}

/// The place of the first queue of each name.
fn places_of(alloc: Global, shelves: &[Shelf]) -> Result<IndexMap<QName, usize>, NoMemory>
    ensures { IfOk result (λ places. AreFound shelf_name (found_in bytes_eq places) shelves.now) }
{
    let mut places: IndexMap<QName, usize> = IndexMap::new(alloc);
    for (at, shelf) in shelves.iter().enumerate() {
        note_first(&mut places, at, shelf)?;
    }
    Ok(places)
}

/// The rows of the queue at a place.
fn rows_at<'a>(shelves: &'a [Shelf], at: usize) -> &'a [Row]
    ensures { result.now ≡ shelf_rows (slice_get shelves.now at) }
{
    match shelves.get(at) {
        None => &[],
        Some(shelf) => shelf.rows.as_slice(),
    }
}

impl<'a> ShelfIndex<'a> {
    /// These queues.
    ///
    /// # Errors
    ///
    /// No memory.
    pub fn new(alloc: Global, shelves: &'a [Shelf]) -> Result<ShelfIndex<'a>, NoMemory>
        ensures { IfOk result (λ i. i ≡ shelves.now) }
    {
        let places = places_of(alloc, shelves)?;
        Ok(ShelfIndex { shelves, places })
    }

    /// The rows of the first queue of a name, none where there is no such queue.
    pub fn rows_in(&self, name: &QName) -> &'a [Row]
        ensures { result.now ≡ rows_in name.now self.now }
    {
        match found(&self.places, name) {
            None => &[],
            Some(at) => rows_at(self.shelves, at),
        }
    }
}
