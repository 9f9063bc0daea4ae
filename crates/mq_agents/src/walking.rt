//! Walks over the rows of one queue.
ghost use Rattle.std.specs.Prelude.{◌≡◌, ◌<◌, ◌++◌, ◌&&◌, find, nat_lt, length, filter, take, option_copied, OnErr, OnOk};
ghost use Rattle.std.specs.List.{list_any};
ghost use Rattle.mq_queue.specs.declared.row.Row.{Row};
ghost use Rattle.mq_queue.specs.Rows.{is_free};
ghost use Rattle.mq_calls.specs.Reads.{is_by_other, is_past};
ghost use Rattle.mq_place.specs.States.{held_on};
ghost use Rattle.mq_place.specs.Rooms.{RoomStays};
ghost use Rattle.mq_agents.specs.Ends.{is_free_past};

use mq_base::{ChName, NoMemory};
use mq_calls::Remove;
use mq_message::Holder;
use mq_place::{LocalRows, RowRoom, is_past};
use mq_queue::{Queue, Row};

/// Whether a unit, or the batch of another channel, holds a row.
fn is_by_other(channel: &ChName, by: &Option<Holder>) -> bool
    ensures { result ≡ is_by_other channel.now by.now }
{
    match by {
        None => false,
        Some(Holder::Unit(_)) => true,
        Some(Holder::Batch(other)) => !(*channel == *other),
    }
}

/// Whether a row is free and has expired.
fn is_free_past(moment: u64, row: &Row) -> bool
    ensures { result ≡ is_free_past moment row.now }
{
    match row.by {
        None => is_past(moment, row.message.deadline),
        Some(_) => false,
    }
}

/// The first row that a unit, or the batch of another channel, holds.
fn row_by_other<'a, Q: Queue + Drop>(local: &'a LocalRows<Q>, channel: &ChName) -> Option<&'a Row>
    ensures { option_copied result ≡ find (λ (row : Row). is_by_other channel.now row.by) local.now.queue.rows }
{
    let mut after = None;
    for seen in 0..local.len() {
        let Some(row) = local.next_row(after) else {
            return None;
        };
        if is_by_other(channel, &row.by) {
            return Some(row);
        }
        after = Some(row.place);
    }
    None
}

/// Whether a unit, or the batch of another channel, holds a row. It walks over the rows where one is held.
pub(crate) fn has_held_by_other<Q: Queue + Drop>(local: &LocalRows<Q>, channel: &ChName) -> bool
    ensures { result ≡ list_any (λ (row : Row). is_by_other channel.now row.by) local.now.queue.rows }
{
    let Some(_row) = row_by_other(local, channel) else {
        return false;
    };
    true
}

/// Names the first rows that a holder has, at most so many, in order of place, and walks to the last of them. After a refusal some may be
/// named; where there is room for all of them it takes no memory.
pub(crate) fn first_held<Q: Queue + Drop>(
    local: &LocalRows<Q>,
    by: &Holder,
    most: usize,
    rows: &mut RowRoom,
) -> Result<(), NoMemory>
    ensures rows { OnOk result (rows.new.rows ≡ rows.old.rows ++ take most (held_on by.now local.now.queue)) }
    ensures room { RoomStays rows.old rows.new }
    ensures memory { OnErr result (rows.old.room < length (take most (held_on by.now local.now.queue))) }
{
    let _len = local.len();
    let mut after = None;
    for seen in 0..most {
        let Some(row) = local.held_after(by, after) else {
            return Ok(());
        };
        let named = Remove {
            queue: *local.name(),
            ident: row.message.ident,
        };
        match rows.add(named) {
            Ok(()) => {}
            Err(NoMemory) => return Err(NoMemory),
        }
        after = Some(row.place);
    }
    Ok(())
}

/// The first free row that has expired.
fn row_past<'a, Q: Queue + Drop>(local: &'a LocalRows<Q>, moment: u64) -> Option<&'a Row>
    ensures { option_copied result ≡ find (is_free_past moment) local.now.queue.rows }
{
    let mut after = None;
    for seen in 0..local.len() {
        let Some(row) = local.next_row(after) else {
            return None;
        };
        if is_free_past(moment, row) {
            return Some(row);
        }
        after = Some(row.place);
    }
    None
}

/// Whether a free row has expired. It walks to the first, where a message on the queue may have expired.
pub(crate) fn has_past<Q: Queue + Drop>(local: &LocalRows<Q>, moment: u64) -> bool
    ensures { result ≡ nat_lt 0 (length (filter (λ (row : Row). is_past moment row.message.deadline) (filter is_free local.now.queue.rows))) }
{
    if !local.may_be_past(moment) {
        return false;
    }
    let Some(_row) = row_past(local, moment) else {
        return false;
    };
    true
}
