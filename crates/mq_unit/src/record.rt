//! The record of a unit, item by item.

ghost use Rattle.std.specs.Prelude.{◌≡◌, ◌-◌, ◌<◌, ◌≤◌, ◌^◌, ◌*◌, true, [], ◌∷◌, length, count_by, IfSome};
ghost use Rattle.std.specs.List.{AllByRecursion};
ghost use Rattle.mq_record.specs.from_queue.Rows.{is_persistent};
ghost use Rattle.mq_record.specs.from_frame.Frames.{HasWords};
ghost use Rattle.mq_record.specs.from_calls.Words.{item_bytes, put_bytes, record_size};
ghost use Rattle.mq_spec_manager.specs.Units.{adds_of, removes_of};
ghost use Rattle.mq_record.specs.Records.{record_bytes, IsAdd, IsRemove, IsRecord};
ghost use Rattle.mq_record.specs.Room.{with_piece};
ghost use Rattle.mq_unit.specs.Forced.{unit_record, is_add, is_remove, adds_size, adds_bytes, removes_bytes, ItemCanBeForced, CanBeForced};

use mq_record::below::{Item, Message};
use mq_record::{Buffer, unit_front};

/// Whether a message is persistent.
fn is_persistent(message: &Message) -> bool
    ensures { result ≡ is_persistent message.now }
{
    message.md.persistence == 1
}

/// What a persistent put takes in the record.
fn put_bytes(message: &Message) -> u64
    ensures { result ≡ put_bytes message.now }
{
    let route = match message.route {
        None => 0,
        Some(_) => 96,
    };
    402 + message.body.as_slice().len() as u64 + route
}

/// What an item takes in the record; nothing where it is not persistent.
pub fn item_bytes(item: &Item) -> u64
    ensures { result ≡ item_bytes item.now }
{
    match item {
        Item::Put { message, .. } => {
            if is_persistent(message) {
                put_bytes(message)
            } else {
                0
            }
        }
        Item::Take { persistent, .. } => { if *persistent { 65 } else { 0 } }
    }
}

/// Whether a record can have a persistent message: its body is at most 4,194,304 bytes, and its deadline is not the last
/// moment that there is.
pub fn can_be_kept(message: &Message) -> bool
    ensures { result ≡ true → HasWords message.now }
{
    message.body.len() <= 4_194_304 && has_deadline(message.deadline)
}

fn has_deadline(deadline: Option<u64>) -> bool
    ensures { result ≡ true → IfSome deadline (λ moment. moment < 2 ^ 64 - 1) }
{
    match deadline {
        None => true,
        Some(moment) => moment < u64::MAX,
    }
}

/// Whether the unit's record can have an item.
pub fn can_be_forced(item: &Item) -> bool
    ensures { result ≡ true → ItemCanBeForced item.now }
{
    match item {
        Item::Put { message, .. } => !is_persistent(message) || can_be_kept(message),
        Item::Take { .. } => true,
    }
}

/// The number of adds.
fn count_adds(items: &[Item]) -> usize
    ensures { result ≡ count_by is_add items.now }
{
    items.iter().filter(|item| is_add(item)).count()
}

/// The number of removes.
fn count_removes(items: &[Item]) -> usize
    ensures { result ≡ count_by is_remove items.now }
{
    items.iter().filter(|item| is_remove(item)).count()
}

/// A persistent put.
fn is_add(item: &Item) -> bool
    ensures { result ≡ is_add item.now }
{
    match item {
        Item::Put { message, .. } => is_persistent(message),
        Item::Take { .. } => false,
    }
}

/// A persistent row that is held.
fn is_remove(item: &Item) -> bool
    ensures { result ≡ is_remove item.now }
{
    match item {
        Item::Put { .. } => false,
        Item::Take { persistent, .. } => *persistent,
    }
}

/// Puts an item's add, where it has one, behind the bytes.
fn put_if_add(item: &Item, body: &mut Buffer)
    requires room { adds_size (item.now ∷ []) ≤ body.old.room }
    requires can { ItemCanBeForced item.now }
    ensures bytes { body.new ≡ with_piece (adds_bytes (item.now ∷ [])) body.old }
    ensures add { AllByRecursion IsAdd (adds_of (item.now ∷ [])) }
{
    match item {
        Item::Put { queue, message } => {
            if is_persistent(message) {
                body.put_add(queue, message);
            }
        }
        Item::Take { .. } => {}
    }
}

/// Puts an item's remove, where it has one, behind the bytes.
fn put_if_remove(item: &Item, body: &mut Buffer)
    requires { 65 * length (removes_of (item.now ∷ [])) ≤ body.old.room }
    ensures bytes { body.new ≡ with_piece (removes_bytes (item.now ∷ [])) body.old }
    ensures remove { AllByRecursion IsRemove (removes_of (item.now ∷ [])) }
{
    match item {
        Item::Put { .. } => {}
        Item::Take {
            queue,
            ident,
            persistent,
        } => {
            if *persistent {
                body.put_remove(queue, ident);
            }
        }
    }
}

/// Puts the adds of a unit behind the bytes.
fn put_adds(items: &[Item], body: &mut Buffer)
    requires room { adds_size items.now ≤ body.old.room }
    requires can { CanBeForced items.now }
    ensures bytes { body.new ≡ with_piece (adds_bytes items.now) body.old }
    ensures adds { AllByRecursion IsAdd (adds_of items.now) }
{
    for item in items {
        put_if_add(item, body);
    }
}

/// Puts the removes of a unit behind the bytes.
fn put_removes(items: &[Item], body: &mut Buffer)
    requires { 65 * length (removes_of items.now) ≤ body.old.room }
    ensures bytes { body.new ≡ with_piece (removes_bytes items.now) body.old }
    ensures removes { AllByRecursion IsRemove (removes_of items.now) }
{
    for item in items {
        put_if_remove(item, body);
    }
}

/// Writes the record of a unit behind the bytes.
pub fn put_unit(items: &[Item], body: &mut Buffer)
    requires room { record_size (unit_record items.now) ≤ body.old.room }
    requires small { record_size (unit_record items.now) < 2 ^ 32 }
    requires can { CanBeForced items.now }
    ensures bytes { body.new ≡ with_piece (record_bytes (unit_record items.now)) body.old }
    ensures record { IsRecord (unit_record items.now) }
{
    let adds = count_adds(items);
    let removes = count_removes(items);
    body.put(&unit_front(adds as u32, removes as u32));
    put_adds(items, body);
    put_removes(items, body);
}
