//! Copies of rows, and of queues with their rows.
ghost use Rattle.std.specs.Prelude.{◌≡◌, IfOk};
ghost use Rattle.mq_shelves.specs.Racks.{rows_of, shelves_of};
ghost use Rattle.mq_shelves.specs.Slots.{slot_entries};

use crate::rack::Stand;
use crate::slots::Slot;
use mq_base::{Items, NoMemory};
use mq_calls::Shelf;
use mq_queue::Row;
use std::alloc::Global;
use std::collections::BTreeMap;

/// Copies of the rows of one queue, in order.
pub fn copy_rows(alloc: Global, rows: &BTreeMap<Stand, Row>) -> Result<Items<Row>, NoMemory>
    ensures { IfOk result (λ copies. copies ≡ rows_of rows.now.entries) }
{
    let mut copies = Items::new(alloc);
    for (_, row) in rows.iter() {
        copies.push(row.try_clone(alloc)?)?;
    }
    Ok(copies)
}

/// Copies of queues with their rows, in the order in which the queues came.
pub fn copy_shelves(alloc: Global, slots: &BTreeMap<u64, Slot>) -> Result<Items<Shelf>, NoMemory>
    ensures { IfOk result (λ shelves. shelves ≡ shelves_of (slot_entries slots.now.entries)) }
{
    let mut shelves = Items::new(alloc);
    for (_, slot) in slots.iter() {
        let rows = slot.rack.copy_rows(alloc)?;
        shelves.push(Shelf {
            name: slot.name,
            rows,
        })?;
    }
    Ok(shelves)
}
