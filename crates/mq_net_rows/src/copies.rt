//! Copies of rows.
ghost use Rattle.std.specs.Prelude.{◌≡◌, ◌++◌, ◌∷◌, [], OnOk, IfOk};
ghost use Rattle.mq_net_rows.specs.Stored.{row_at, row_list, rows_of, lanes_rows, shelf_of, shelves_of};

use crate::lanes::{Lane, Named};
use crate::store::row_at;
use mq_base::{Items, NoMemory};
use mq_calls::Shelf;
use mq_queue::Row;
use std::alloc::Global;

fn put_slot(
    alloc: Global,
    out: &mut Items<Row>,
    store: &[Option<Row>],
    slot: usize,
) -> Result<(), NoMemory>
    ensures { OnOk result (out.new ≡ out.old ++ row_list (row_at store.now slot)) }
{
    match row_at(store, slot) {
        None => Ok(()),
        Some(row) => {
            let row = row.try_clone(alloc)?;
            out.push(row)?;
            Ok(())
        }
    }
}

fn put_slots(
    alloc: Global,
    out: &mut Items<Row>,
    store: &[Option<Row>],
    slots: &[usize],
) -> Result<(), NoMemory>
    ensures { OnOk result (out.new ≡ out.old ++ rows_of store.now slots.now) }
{
    'slots: for slot in slots {
        put_slot(alloc, out, store, *slot)?;
    }
    Ok(())
}

fn put_lanes(
    alloc: Global,
    out: &mut Items<Row>,
    store: &[Option<Row>],
    lanes: &[Lane],
) -> Result<(), NoMemory>
    ensures { OnOk result (out.new ≡ out.old ++ lanes_rows store.now lanes.now) }
{
    'lanes: for lane in lanes {
        put_slots(alloc, out, store, lane.slots.as_slice())?;
    }
    Ok(())
}

fn shelf(alloc: Global, store: &[Option<Row>], queue: &Named) -> Result<Shelf, NoMemory>
    ensures { IfOk result (λ s. s ≡ shelf_of store.now queue.now) }
{
    let mut rows = Items::new(alloc);
    put_lanes(alloc, &mut rows, store, queue.lanes.as_slice())?;
    Ok(Shelf {
        name: queue.name,
        rows,
    })
}

fn put_shelf(
    alloc: Global,
    out: &mut Items<Shelf>,
    store: &[Option<Row>],
    queue: &Named,
) -> Result<(), NoMemory>
    ensures { OnOk result (out.new ≡ out.old ++ shelf_of store.now queue.now ∷ []) }
{
    let shelf = shelf(alloc, store, queue)?;
    out.push(shelf)?;
    Ok(())
}

/// A copy of all queues with their rows.
pub fn copy_shelves(
    alloc: Global,
    store: &[Option<Row>],
    queues: &[Named],
) -> Result<Items<Shelf>, NoMemory>
    ensures { IfOk result (λ ss. ss ≡ shelves_of store.now queues.now) }
{
    let mut out = Items::new(alloc);
    'queues: for queue in queues {
        put_shelf(alloc, &mut out, store, queue)?;
    }
    Ok(out)
}
