//! What is done to a local queue in its slot, and to all of them.
ghost use Rattle.std.specs.Prelude.{◌≡◌, ◌+◌, ◌-◌, ◌^◌, ◌<◌, ◌≤◌, [], length, IfSome, Some, OnOk, OnErr, vec_len, vec_capacity, is_some, filter, false};
ghost use Rattle.indexmap.specs.IndexMap.{get, spare, index_map_len};
ghost use Rattle.std.specs.Str.{bytes_eq};
ghost use Rattle.mq_queue.specs.Rows.{keep, retag};
ghost use Rattle.mq_queue.specs.Queues.{message_of, hold_row, release_row, has_other_ident, is_lasting, unit_freed};
ghost use Rattle.mq_calls.specs.Changes.{made_due, forgotten};
ghost use Rattle.mq_place.specs.States.{on_queue, on_rows, hold_each, release_each, served, switched_on, expecting, unpended, arrived, with_lanes, CanPlace, CanBeDue};
ghost use Rattle.mq_place.specs.Slots.{present, AreNamed, Becomes, IsFiled, slot_at, slot_changed, slots_changed, rows_at};

use crate::local::LocalRows;
use indexmap::IndexMap;
use mq_base::{NoMemory, QName};
use mq_message::{Holder, Ident, Message};
use mq_queue::Queue;

/// Changes the lanes of a queue that has no row.
pub fn lanes_at<Q: Queue + Drop>(
    slots: &mut Vec<Option<LocalRows<Q>>>,
    at: usize,
    prioritized: bool,
)
    requires at { at < vec_len slots.old }
    requires empty { rows_at slots.old.items at ≡ [] }
    ensures { Becomes (slot_changed (with_lanes prioritized) slots.old.items at) slots.old slots.new }
{
    if let Some(local) = &mut slots[at] {
        local.set_by_priority(prioritized);
    }
}

/// Makes room for one more uncommitted put, which waits from now on.
pub fn expect_at<Q: Queue + Drop>(
    slots: &mut Vec<Option<LocalRows<Q>>>,
    at: usize,
) -> Result<(), NoMemory>
    requires at { at < vec_len slots.old }
    ensures ok { OnOk result (slots.new.items ≡ slot_changed expecting slots.old.items at) }
    ensures err { OnErr result (slots.new.items ≡ slots.old.items) }
    ensures len { vec_len slots.new ≡ vec_len slots.old }
    ensures capacity { vec_capacity slots.new ≡ vec_capacity slots.old }
{
    match &mut slots[at] {
        None => Ok(()),
        Some(local) => local.expect(),
    }
}

/// One put waits no longer.
pub fn unpend_at<Q: Queue + Drop>(slots: &mut Vec<Option<LocalRows<Q>>>, at: usize)
    requires at { at < vec_len slots.old }
    ensures { Becomes (slot_changed (unpended) slots.old.items at) slots.old slots.new }
{
    if let Some(local) = &mut slots[at] {
        local.unpend();
    }
}

/// A put that waited takes the last place of its lane.
pub fn place_at<Q: Queue + Drop>(slots: &mut Vec<Option<LocalRows<Q>>>, at: usize, message: Message)
    requires at { at < vec_len slots.old }
    requires can { IfSome (slot_at slots.old.items at) (CanPlace message) }
    ensures { Becomes (slot_changed (arrived message) slots.old.items at) slots.old slots.new }
{
    if let Some(local) = &mut slots[at] {
        local.place(message);
    }
}

/// Holds the free row with an ident.
pub fn hold_at<Q: Queue + Drop>(
    slots: &mut Vec<Option<LocalRows<Q>>>,
    at: usize,
    ident: &Ident,
    by: &Holder,
)
    requires at { at < vec_len slots.old }
    ensures { Becomes (slot_changed (on_rows (retag (hold_row ident.now by.now))) slots.old.items at) slots.old slots.new }
{
    if let Some(local) = &mut slots[at] {
        let _held = local.hold(ident, by);
    }
}

/// Frees the held row with an ident.
pub fn release_at<Q: Queue + Drop>(
    slots: &mut Vec<Option<LocalRows<Q>>>,
    at: usize,
    ident: &Ident,
    backed_out: bool,
)
    requires at { at < vec_len slots.old }
    ensures { Becomes (slot_changed (on_rows (retag (release_row ident.now backed_out))) slots.old.items at) slots.old slots.new }
{
    if let Some(local) = &mut slots[at] {
        let _released = local.release(ident, backed_out);
    }
}

/// Takes the row with an ident out.
pub fn remove_at<Q: Queue + Drop>(
    slots: &mut Vec<Option<LocalRows<Q>>>,
    at: usize,
    ident: &Ident,
) -> Option<Message>
    requires at { at < vec_len slots.old }
    ensures message { result ≡ message_of ident.now (rows_at slots.old.items at) }
    ensures becomes { Becomes (slot_changed (on_rows (keep (has_other_ident ident.now))) slots.old.items at) slots.old slots.new }
{
    match &mut slots[at] {
        None => None,
        Some(local) => local.remove(ident),
    }
}

/// Holds the free rows with these idents.
pub fn hold_each_at<Q: Queue + Drop>(
    slots: &mut Vec<Option<LocalRows<Q>>>,
    at: usize,
    idents: &[Ident],
    by: &Holder,
)
    requires at { at < vec_len slots.old }
    ensures { Becomes (slot_changed (on_rows (hold_each idents.now by.now)) slots.old.items at) slots.old slots.new }
{
    if let Some(local) = &mut slots[at] {
        local.hold_each(idents, by);
    }
}

/// Frees the held rows with these idents, with no backout counted.
pub fn release_each_at<Q: Queue + Drop>(
    slots: &mut Vec<Option<LocalRows<Q>>>,
    at: usize,
    idents: &[Ident],
)
    requires at { at < vec_len slots.old }
    ensures { Becomes (slot_changed (on_rows (release_each idents.now false)) slots.old.items at) slots.old slots.new }
{
    if let Some(local) = &mut slots[at] {
        local.release_each(idents, false);
    }
}

/// A trigger becomes due.
pub fn make_due_at<Q: Queue + Drop>(
    slots: &mut Vec<Option<LocalRows<Q>>>,
    at: usize,
    depth: bool,
    moment: u64,
)
    requires at { at < vec_len slots.old }
    requires count { IfSome (slot_at slots.old.items at) CanBeDue }
    ensures { Becomes (slot_changed (on_queue (made_due depth moment)) slots.old.items at) slots.old slots.new }
{
    if let Some(local) = &mut slots[at] {
        local.make_due(depth, moment);
    }
}

/// A trigger that was due is served or dropped.
pub fn serve_at<Q: Queue + Drop>(slots: &mut Vec<Option<LocalRows<Q>>>, at: usize)
    requires at { at < vec_len slots.old }
    ensures { Becomes (slot_changed (on_queue served) slots.old.items at) slots.old slots.new }
{
    if let Some(local) = &mut slots[at] {
        local.serve();
    }
}

/// The queue counts as TRIGGER again.
pub fn switch_on_at<Q: Queue + Drop>(slots: &mut Vec<Option<LocalRows<Q>>>, at: usize)
    requires at { at < vec_len slots.old }
    ensures { Becomes (slot_changed (on_queue switched_on) slots.old.items at) slots.old slots.new }
{
    if let Some(local) = &mut slots[at] {
        local.switch_on();
    }
}

/// The rows whose messages are persistent stay.
pub fn keep_lasting_at<Q: Queue + Drop>(slots: &mut Vec<Option<LocalRows<Q>>>, at: usize)
    requires at { at < vec_len slots.old }
    ensures { Becomes (slot_changed (on_rows (keep is_lasting)) slots.old.items at) slots.old slots.new }
{
    if let Some(local) = &mut slots[at] {
        local.keep_lasting();
    }
}

/// The rows that units hold are free again.
pub fn free_units_at<Q: Queue + Drop>(slots: &mut Vec<Option<LocalRows<Q>>>, at: usize)
    requires at { at < vec_len slots.old }
    ensures { Becomes (slot_changed (on_rows (retag unit_freed)) slots.old.items at) slots.old slots.new }
{
    if let Some(local) = &mut slots[at] {
        local.free_units();
    }
}

/// No trigger is due any more.
pub fn forget_at<Q: Queue + Drop>(slots: &mut Vec<Option<LocalRows<Q>>>, at: usize)
    requires at { at < vec_len slots.old }
    ensures { Becomes (slot_changed (on_queue forgotten) slots.old.items at) slots.old slots.new }
{
    if let Some(local) = &mut slots[at] {
        local.forget();
    }
}

/// Of all queues the rows whose messages are persistent stay.
pub fn drop_volatile<Q: Queue + Drop>(slots: &mut Vec<Option<LocalRows<Q>>>)
    ensures slots { slots.new.items ≡ slots_changed (on_rows (keep is_lasting)) slots.old.items }
    ensures len { vec_len slots.new ≡ vec_len slots.old }
    ensures capacity { vec_capacity slots.new ≡ vec_capacity slots.old }
{
    for at in 0..slots.len() {
        keep_lasting_at(slots, at);
    }
}

/// The rows that units hold are free again, on all queues.
pub fn free_units<Q: Queue + Drop>(slots: &mut Vec<Option<LocalRows<Q>>>)
    ensures slots { slots.new.items ≡ slots_changed (on_rows (retag unit_freed)) slots.old.items }
    ensures len { vec_len slots.new ≡ vec_len slots.old }
    ensures capacity { vec_capacity slots.new ≡ vec_capacity slots.old }
{
    for at in 0..slots.len() {
        free_units_at(slots, at);
    }
}

/// No trigger of any queue is due any more.
pub fn forget<Q: Queue + Drop>(slots: &mut Vec<Option<LocalRows<Q>>>)
    ensures slots { slots.new.items ≡ slots_changed (on_queue forgotten) slots.old.items }
    ensures len { vec_len slots.new ≡ vec_len slots.old }
    ensures capacity { vec_capacity slots.new ≡ vec_capacity slots.old }
{
    for at in 0..slots.len() {
        forget_at(slots, at);
    }
}

// Drops the empty slots. It takes no memory.
fn drop_empty<Q: Queue + Drop>(slots: &mut Vec<Option<LocalRows<Q>>>)
    ensures full { slots.new.items ≡ filter is_some slots.old.items }
    ensures bound { vec_len slots.new ≤ vec_len slots.old }
    ensures capacity { vec_capacity slots.new ≡ vec_capacity slots.old }
{
    slots.retain(|slot| slot.is_some());
}

/// Closes the gaps between the queues, and finds each at its new place. It takes no memory.
pub fn close_gaps<Q: Queue + Drop>(
    slots: &mut Vec<Option<LocalRows<Q>>>,
    places: &mut IndexMap<QName, usize>,
)
    requires distinct { AreNamed slots.old.items }
    requires counted { index_map_len places.old ≡ length (present slots.old.items) }
    ensures present { present slots.new.items ≡ present slots.old.items }
    ensures filed { IsFiled slots.new.items (get bytes_eq places.new) (index_map_len places.new) }
    ensures slots_room { vec_capacity slots.old - vec_len slots.old ≤ vec_capacity slots.new - vec_len slots.new }
    ensures places_room { spare places.old ≤ spare places.new }
{
    drop_empty(slots);
    places.clear();
    for place in 0..slots.len() {
        let Some(local) = &slots[place] else {
            continue;
        };
        let _none = places.insert(*local.name(), place).unwrap();
    }
}
