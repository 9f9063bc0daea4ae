//! What is done to the rows of a store, told of them as a queue has them: lane by lane.
ghost use Rattle.std.specs.Prelude.{◌≡◌, ◌<◌, Option, Some, find, length, option_copied, slice_get, slice_set};
ghost use Rattle.std.specs.List.{list_any};
ghost use Rattle.mq_queue.specs.declared.row.Row as rows;
ghost use Rattle.mq_queue.specs.Rows.{has_ident, is_after, keep, retag};
ghost use Rattle.mq_queue.specs.Queues.{has_other_ident, hold_row, is_free_one, is_held_one, is_lasting, is_takable, release_row, unit_freed};
ghost use Rattle.mq_index.specs.Lanes.{in_order};
ghost use Rattle.mq_index.specs.Walks.{stored};
ghost use Rattle.mq_index.specs.Slots.{freed_slot, in_unit, kept_slot, passes};

use crate::store::Store;
use mq_message::{Holder, Ident, Place, Want};
use mq_queue::{Row, is_by_unit, is_persistent};

/// Whether a slot has a row whose message is not persistent.
fn is_passing(store: &Store, at: usize) -> bool
    requires there { at < length store.now.slots }
    ensures { (slot : Option rows.Row) → slice_get store.now.slots at ≡ Some slot → result ≡ passes slot }
{
    match store.row(at) {
        None => false,
        Some(row) => !is_persistent(&row.message),
    }
}

/// A row whose message is not persistent goes.
fn keep_slot(store: &mut Store, at: usize)
    requires there { at < length store.old.slots }
    ensures kept { (slot : Option rows.Row) → slice_get store.old.slots at ≡ Some slot → store.new.slots ≡ slice_set store.old.slots at (kept_slot slot) }
    ensures arrivals { store.new.arrivals ≡ store.old.arrivals }
    ensures room { store.new.room ≡ store.old.room }
{
    if is_passing(store, at) {
        let _row = store.take(at);
    }
}

/// Whether a slot has a row that a unit holds.
fn is_in_unit(store: &Store, at: usize) -> bool
    requires there { at < length store.now.slots }
    ensures { (slot : Option rows.Row) → slice_get store.now.slots at ≡ Some slot → result ≡ in_unit slot }
{
    match store.row(at) {
        None => false,
        Some(row) => is_by_unit(row),
    }
}

/// A row that a unit holds is free again.
fn free_slot(store: &mut Store, at: usize)
    requires there { at < length store.old.slots }
    ensures freed { (slot : Option rows.Row) → slice_get store.old.slots at ≡ Some slot → store.new.slots ≡ slice_set store.old.slots at (freed_slot slot) }
    ensures arrivals { store.new.arrivals ≡ store.old.arrivals }
    ensures room { store.new.room ≡ store.old.room }
{
    if is_in_unit(store, at) {
        store.release(at, true);
    }
}

/// The rows whose messages are persistent stay.
pub fn keep_slots(store: &mut Store)
    ensures rows { in_order (stored store.new.slots) ≡ keep is_lasting (in_order (stored store.old.slots)) }
    ensures arrivals { store.new.arrivals ≡ store.old.arrivals }
    ensures room { store.new.room ≡ store.old.room }
{
    for at in 0..store.slots() {
        keep_slot(store, at);
    }
}

/// The rows that units hold are free again, each with one backout more.
pub fn free_slots(store: &mut Store)
    ensures rows { in_order (stored store.new.slots) ≡ retag unit_freed (in_order (stored store.old.slots)) }
    ensures arrivals { store.new.arrivals ≡ store.old.arrivals }
    ensures room { store.new.room ≡ store.old.room }
{
    for at in 0..store.slots() {
        free_slot(store, at);
    }
}

/// The first free row behind a place that has the ids asked for.
pub fn first_takable<'a>(store: &'a Store, want: &Want, after: Option<Place>) -> Option<&'a Row>
    ensures { option_copied result ≡ find (is_takable want.now after) (in_order (stored store.now.slots)) }
{
    store.found(false, want, after)
}

/// The first row behind a place.
pub fn first_after(store: &Store, after: Option<Place>) -> Option<&Row>
    ensures { option_copied result ≡ find (is_after after) (in_order (stored store.now.slots)) }
{
    let want = Want {
        msg_id: None,
        correl_id: None,
    };
    store.found(true, &want, after)
}

/// The row with an ident.
pub fn row_of<'a>(store: &'a Store, ident: &Ident) -> Option<&'a Row>
    ensures { option_copied result ≡ find (has_ident ident.now) (in_order (stored store.now.slots)) }
{
    match store.home(ident) {
        None => None,
        Some(at) => store.row(at),
    }
}

/// Holds the free row with an ident.
pub fn hold_one(store: &mut Store, ident: &Ident, by: &Holder) -> bool
    ensures held { result ≡ list_any (is_free_one ident.now) (in_order (stored store.old.slots)) }
    ensures rows { in_order (stored store.new.slots) ≡ retag (hold_row ident.now by.now) (in_order (stored store.old.slots)) }
    ensures arrivals { store.new.arrivals ≡ store.old.arrivals }
    ensures room { store.new.room ≡ store.old.room }
{
    match store.home(ident) {
        None => false,
        Some(at) => store.hold(at, by),
    }
}

/// Frees the held row with an ident.
pub fn release_one(store: &mut Store, ident: &Ident, backed_out: bool) -> bool
    ensures released { result ≡ list_any (is_held_one ident.now) (in_order (stored store.old.slots)) }
    ensures rows { in_order (stored store.new.slots) ≡ retag (release_row ident.now backed_out) (in_order (stored store.old.slots)) }
    ensures arrivals { store.new.arrivals ≡ store.old.arrivals }
    ensures room { store.new.room ≡ store.old.room }
{
    match store.home(ident) {
        None => false,
        Some(at) => store.release(at, backed_out),
    }
}

/// Takes the row with an ident out.
pub fn take_one(store: &mut Store, ident: &Ident) -> Option<Row>
    ensures found { result ≡ find (has_ident ident.now) (in_order (stored store.old.slots)) }
    ensures rows { in_order (stored store.new.slots) ≡ keep (has_other_ident ident.now) (in_order (stored store.old.slots)) }
    ensures arrivals { store.new.arrivals ≡ store.old.arrivals }
    ensures room { store.new.room ≡ store.old.room }
{
    match store.home(ident) {
        None => None,
        Some(at) => store.take(at),
    }
}
