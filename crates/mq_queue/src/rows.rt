//! What is done to the rows of a plain queue, and to the counters of those that are free.
ghost use Rattle.std.specs.Prelude.{◌≡◌, ◌+◌, ◌<◌, ◌≤◌, None, find, position};
ghost use Rattle.std.specs.VecDeque.{deque_len, deque_capacity};
ghost use Rattle.std.specs.List.{list_any};
ghost use Rattle.mq_queue.specs.Rows.{insert_row, keep, retag, has_ident};
ghost use Rattle.mq_queue.specs.Queues.{AreDistinct, AreInOrder, is_free_one, is_held_one, has_other_ident, hold_row, release_row, freed, unit_freed, is_lasting};
ghost use Rattle.mq_queue.specs.Counts.{AreCounts};

use crate::asked::{is_by_unit, is_free, is_persistent};
use crate::counts::{count_in, count_out};
use crate::places::end_of_lane;
use crate::row::Row;
use mq_message::{Holder, Ident};
use std::collections::VecDeque;

fn place_of(rows: &VecDeque<Row>, ident: &Ident) -> Option<usize>
    ensures { result ≡ position (has_ident ident.now) rows.now.items }
{
    rows.iter().position(|row| row.message.ident == *ident)
}

fn place_of_free(rows: &VecDeque<Row>, ident: &Ident) -> Option<usize>
    ensures { result ≡ position (is_free_one ident.now) rows.now.items }
{
    rows.iter()
        .position(|row| row.message.ident == *ident && is_free(row))
}

fn place_of_held(rows: &VecDeque<Row>, ident: &Ident) -> Option<usize>
    ensures { result ≡ position (is_held_one ident.now) rows.now.items }
{
    rows.iter()
        .position(|row| row.message.ident == *ident && !is_free(row))
}

/// Puts a row in at the end of its lane.
pub fn put_row(rows: &mut VecDeque<Row>, frees: &mut [u64; 10], row: Row)
    requires room { deque_len rows.old < deque_capacity rows.old }
    requires order { AreInOrder rows.old.items }
    requires counts { AreCounts frees.old rows.old.items }
    ensures rows { rows.new.items ≡ insert_row row rows.old.items }
    ensures len { deque_len rows.new ≡ deque_len rows.old + 1 }
    ensures capacity { deque_capacity rows.old ≤ deque_capacity rows.new }
    ensures counts { AreCounts frees.new rows.new.items }
{
    count_in(frees, &row);
    let at = end_of_lane(rows, row.place.lane);
    match rows.insert(at, row) {
        Ok(()) => {}
        Err(_) => unreachable!(),
    }
}

/// Takes the row with an ident out.
pub fn take_row(rows: &mut VecDeque<Row>, frees: &mut [u64; 10], ident: &Ident) -> Option<Row>
    requires distinct { AreDistinct rows.old.items }
    requires counts { AreCounts frees.old rows.old.items }
    ensures found { result ≡ find (has_ident ident.now) rows.old.items }
    ensures rows { rows.new.items ≡ keep (has_other_ident ident.now) rows.old.items }
    ensures len { deque_len rows.new ≤ deque_len rows.old }
    ensures capacity { deque_capacity rows.new ≡ deque_capacity rows.old }
    ensures counts { AreCounts frees.new rows.new.items }
{
    match place_of(rows, ident) {
        None => None,
        Some(at) => {
            count_out(frees, &rows[at]);
            rows.remove(at)
        }
    }
}

/// Holds the free row with an ident.
pub fn hold_one(rows: &mut VecDeque<Row>, frees: &mut [u64; 10], ident: &Ident, by: &Holder) -> bool
    requires distinct { AreDistinct rows.old.items }
    requires counts { AreCounts frees.old rows.old.items }
    ensures held { result ≡ list_any (is_free_one ident.now) rows.old.items }
    ensures rows { rows.new.items ≡ retag (hold_row ident.now by.now) rows.old.items }
    ensures len { deque_len rows.new ≡ deque_len rows.old }
    ensures capacity { deque_capacity rows.new ≡ deque_capacity rows.old }
    ensures counts { AreCounts frees.new rows.new.items }
{
    match place_of_free(rows, ident) {
        None => false,
        Some(at) => {
            count_out(frees, &rows[at]);
            rows[at].by = Some(*by);
            true
        }
    }
}

/// A row is free again, and counts a backout where that is said.
pub fn free_row(row: &mut Row, backed_out: bool)
    ensures { row.new ≡ freed backed_out row.old }
{
    if backed_out {
        let md = &mut row.message.md;
        md.backout_count = md.backout_count.saturating_add(1);
    }
    row.by = None;
}

/// Frees the held row with an ident.
pub fn release_one(
    rows: &mut VecDeque<Row>,
    frees: &mut [u64; 10],
    ident: &Ident,
    backed_out: bool,
) -> bool
    requires distinct { AreDistinct rows.old.items }
    requires counts { AreCounts frees.old rows.old.items }
    ensures released { result ≡ list_any (is_held_one ident.now) rows.old.items }
    ensures rows { rows.new.items ≡ retag (release_row ident.now backed_out) rows.old.items }
    ensures len { deque_len rows.new ≡ deque_len rows.old }
    ensures capacity { deque_capacity rows.new ≡ deque_capacity rows.old }
    ensures counts { AreCounts frees.new rows.new.items }
{
    match place_of_held(rows, ident) {
        None => false,
        Some(at) => {
            free_row(&mut rows[at], backed_out);
            count_in(frees, &rows[at]);
            true
        }
    }
}

/// The rows whose messages are persistent stay.
pub fn keep_lasting(rows: &mut VecDeque<Row>)
    ensures rows { rows.new.items ≡ keep is_lasting rows.old.items }
    ensures len { deque_len rows.new ≤ deque_len rows.old }
    ensures capacity { deque_capacity rows.new ≡ deque_capacity rows.old }
{
    rows.retain(|row| is_persistent(&row.message));
}

fn free_by_unit(row: &mut Row)
    ensures { row.new ≡ unit_freed row.old }
{
    if is_by_unit(row) {
        free_row(row, true);
    }
}

/// The rows that units hold are free again, each with one backout more.
pub fn free_units(rows: &mut VecDeque<Row>)
    ensures rows { rows.new.items ≡ retag unit_freed rows.old.items }
    ensures len { deque_len rows.new ≡ deque_len rows.old }
    ensures capacity { deque_capacity rows.new ≡ deque_capacity rows.old }
{
    for at in 0..rows.len() {
        free_by_unit(&mut rows[at]);
    }
}
