//! Slots of rows, in order of arrival; a slot is empty where its row was taken.
ghost use Rattle.std.specs.Prelude.{◌≡◌, ◌<◌, Some, not, map, length, slice_set, option_copied};
ghost use Rattle.mq_queue.specs.declared.row.Row.{Row};
ghost use Rattle.mq_queue.specs.Rows.{has_ident, is_persistent};
ghost use Rattle.mq_net_rows.specs.Stored.{row_at, kept_slot, kept_at, holds, its_row, AreLasting};

use mq_base::Items;
use mq_message::Ident;
use mq_queue::Row;

/// The row in a slot.
pub fn row_at(store: &[Option<Row>], at: usize) -> Option<&Row>
    ensures { option_copied result ≡ row_at store.now at }
{
    match store.get(at) {
        None => None,
        Some(slot) => slot.as_ref(),
    }
}

/// Whether a row has an ident.
pub fn has(row: &Row, ident: &Ident) -> bool
    ensures { result ≡ has_ident ident.now row.now }
{
    row.message.ident == *ident
}

fn is_lasting(row: &Row) -> bool
    ensures { result ≡ is_persistent row.now.message }
{
    row.message.md.persistence == 1
}

/// Whether a slot has a row of that ident.
fn holds(slot: &Option<Row>, ident: &Ident) -> bool
    ensures { result ≡ holds (has_ident ident.now) slot.now }
{
    match slot {
        None => false,
        Some(row) => has(row, ident),
    }
}

/// Whether a slot has a nonpersistent row.
fn is_lost(slot: &Option<Row>) -> bool
    ensures { result ≡ holds (λ (row : Row). not (is_persistent row.message)) slot.now }
{
    match slot {
        None => false,
        Some(row) => !is_lasting(row),
    }
}

/// Empties a slot whose row has that ident.
#[tactic(auto, using(crate::proofs::StoreLaws::emptied, crate::proofs::StoreLaws::left))]
fn clear(slot: &mut Option<Row>, ident: &Ident)
    ensures { slot.new ≡ kept_slot (λ (row : Row). not (has_ident ident.now row)) slot.old }
{
    if holds(slot, ident) {
        *slot = None;
    }
}

/// Empties a slot whose row is nonpersistent.
#[tactic(auto, using(crate::proofs::StoreLaws::lost, crate::proofs::StoreLaws::lasting))]
fn clear_lost(slot: &mut Option<Row>)
    ensures { slot.new ≡ kept_slot (λ (row : Row). is_persistent row.message) slot.old }
{
    if is_lost(slot) {
        *slot = None;
    }
}

/// Fills the slot at a place.
pub fn fill(store: &mut Items<Option<Row>>, at: usize, row: Row)
    requires { at < length store.old }
    ensures { store.new ≡ slice_set store.old at (Some row) }
{
    *store.at_mut(at) = Some(row);
}

/// Empties the slot at a place, if its row has that ident.
pub fn clear_at(store: &mut Items<Option<Row>>, at: usize, ident: &Ident)
    ensures { store.new ≡ kept_at (λ (row : Row). not (has_ident ident.now row)) at store.old }
{
    if at < store.len() {
        clear(store.at_mut(at), ident);
    }
}

/// Empties each slot whose row has that ident.
pub fn clear_each(store: &mut Items<Option<Row>>, ident: &Ident)
    ensures { store.new ≡ map (kept_slot (λ (row : Row). not (has_ident ident.now row))) store.old }
{
    for at in 0..store.len() {
        clear(store.at_mut(at), ident);
    }
}

/// Empties each slot whose row is nonpersistent, where none stands before a place.
pub fn clear_lost_from(store: &mut Items<Option<Row>>, from: usize)
    requires { AreLasting from store.old }
    ensures { store.new ≡ map (kept_slot (λ (row : Row). is_persistent row.message)) store.old }
{
    for at in from..store.len() {
        clear_lost(store.at_mut(at));
    }
}

/// A row, if it has that ident.
pub fn of_ident<'a>(row: Option<&'a Row>, ident: &Ident) -> Option<&'a Row>
    ensures { option_copied result ≡ its_row ident.now (option_copied row.entry) }
{
    match row {
        None => None,
        Some(row) => { if has(row, ident) { Some(row) } else { None } }
    }
}
