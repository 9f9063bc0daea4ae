//! Local queues of a manager that comes up from an image.
ghost use Rattle.std.specs.Prelude.{◌≡◌, IfOk, OnOk, None, map};
ghost use Rattle.mq_objects.specs.Names.{local_of};
ghost use Rattle.mq_place.specs.States.{state_in};
ghost use Rattle.mq_rebuild.specs.Rebuilt.{is_laned, state_on, shelf_added, shelves_added, CanAddShelf, CanAddShelves, IsRead};

use crate::rows::add_rows;
use mq_base::{Items, NoMemory, QName};
use mq_calls::Shelf;
use mq_index::IndexedQueue;
use mq_objects::{Defs, is_by_priority};
use mq_place::Queues;
use std::alloc::Global;

// Whether the rows of a queue have lanes by their priorities.
fn is_laned(defs: &Defs, name: &QName) -> bool
    ensures { result ≡ is_laned (local_of name.now defs.now.definitions) }
{
    match defs.local(name) {
        None => false,
        Some(local) => is_by_priority(local.delivery),
    }
}

/// A queue with the rows of a shelf stands last.
fn add_shelf(queues: &mut Queues<IndexedQueue>, defs: &Defs, shelf: Shelf) -> Result<(), NoMemory>
    requires absent { state_in shelf.name queues.old.states ≡ None }
    requires can { CanAddShelf defs.now.definitions shelf queues.old.states }
    ensures { OnOk result (queues.new.states ≡ shelf_added defs.now.definitions shelf queues.old.states) }
{
    if queues.reserve_queue().is_err() {
        return Err(NoMemory);
    }
    let Shelf { name, rows } = shelf;
    queues.define(&name, is_laned(defs, &name));
    add_rows(queues, &name, rows)
}

/// Queues with the rows of shelves, one after another.
fn add_shelves(
    queues: &mut Queues<IndexedQueue>,
    defs: &Defs,
    shelves: Items<Shelf>,
) -> Result<(), NoMemory>
    requires can { CanAddShelves defs.now.definitions shelves queues.old.states }
    ensures { OnOk result (queues.new.states ≡ shelves_added defs.now.definitions shelves queues.old.states) }
{
    let mut left = shelves.into_vec();
    left.reverse();
    while let Some(shelf) = left.pop() {
        // (so it is known that 64 bits count them)
        let _rows = shelf.rows.len();
        if add_shelf(queues, defs, shelf).is_err() {
            return Err(NoMemory);
        }
    }
    Ok(())
}

/// The local queues that the shelves of an image tell: each with its rows in their order, numbered from 1, held by who
/// held them; its lanes as its definition says; no put waits.
///
/// # Errors
///
/// No memory.
#[tactic(auto, using(crate::proofs::ShelfLaws::image_can, crate::proofs::ShelfLaws::image_added))]
pub fn queues_of(
    alloc: Global,
    defs: &Defs,
    shelves: Items<Shelf>,
) -> Result<Queues<IndexedQueue>, NoMemory>
    requires image { IsRead defs.now.definitions shelves }
    ensures { IfOk result (λ queues. queues.states ≡ map (state_on defs.now.definitions) shelves) }
{
    let mut queues = Queues::new(alloc);
    if add_shelves(&mut queues, defs, shelves).is_err() {
        drop(queues);
        return Err(NoMemory);
    }
    Ok(queues)
}
