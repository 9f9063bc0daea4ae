//! Where rows stand in a ring in order of place, found by halving.
ghost use Rattle.std.specs.Prelude.{◌≡◌, ◌≤◌, Some, None, if◌then◌else◌, drop, find, option_copied, slice_get};
ghost use Rattle.std.specs.VecDeque.{deque_len};
ghost use Rattle.mq_queue.specs.Rows.{is_after};
ghost use Rattle.mq_queue.specs.Ends.{IsEndOfLane, IsStartAfter, IsStartAt};
ghost use Rattle.mq_queue.specs.Queues.{AreInOrder, is_fitting, is_takable, is_at};

use crate::asked::{is_after, is_at, is_before, is_fitting};
use crate::row::Row;
use mq_message::{Place, Want};
use std::collections::VecDeque;

/// Where the first row of a later lane stands, or the end.
pub fn end_of_lane(rows: &VecDeque<Row>, lane: u8) -> usize
    requires { AreInOrder rows.now.items }
    ensures place { IsEndOfLane lane rows.now.items result }
    ensures within { result ≤ deque_len rows.now }
{
    rows.partition_point(|row| row.place.lane <= lane)
}

/// Where the first row behind a place stands, or the end.
fn start_after(rows: &VecDeque<Row>, after: Option<Place>) -> usize
    requires { AreInOrder rows.now.items }
    ensures place { IsStartAfter after rows.now.items result }
    ensures within { result ≤ deque_len rows.now }
{
    rows.partition_point(|row| !is_after(after, row))
}

/// Where the first row that is not before a place stands, or the end.
fn start_at(rows: &VecDeque<Row>, place: Place) -> usize
    requires { AreInOrder rows.now.items }
    ensures place { IsStartAt place rows.now.items result }
    ensures within { result ≤ deque_len rows.now }
{
    rows.partition_point(|row| is_before(row.place, place))
}

fn row_from<'a>(rows: &'a VecDeque<Row>, start: usize, want: &Want) -> Option<&'a Row>
    requires { start ≤ deque_len rows.now }
    ensures { option_copied result ≡ find (is_fitting want.now) (drop start rows.now.items) }
{
    for at in start..rows.len() {
        let row = &rows[at];
        if is_fitting(want, row) {
            return Some(row);
        }
    }
    None
}

/// The first free row behind a place that has the ids asked for.
pub fn first_takable<'a>(
    rows: &'a VecDeque<Row>,
    want: &Want,
    after: Option<Place>,
) -> Option<&'a Row>
    requires { AreInOrder rows.now.items }
    ensures { option_copied result ≡ find (is_takable want.now after) rows.now.items }
{
    row_from(rows, start_after(rows, after), want)
}

fn nth(rows: &VecDeque<Row>, at: usize) -> Option<&Row>
    ensures { option_copied result ≡ slice_get rows.now.items at }
{
    rows.get(at)
}

/// The first row behind a place.
pub fn first_after(rows: &VecDeque<Row>, after: Option<Place>) -> Option<&Row>
    requires { AreInOrder rows.now.items }
    ensures { option_copied result ≡ find (is_after after) rows.now.items }
{
    nth(rows, start_after(rows, after))
}

/// The row at a place.
pub fn row_at(rows: &VecDeque<Row>, place: Place) -> Option<&Row>
    requires { AreInOrder rows.now.items }
    ensures { option_copied result ≡ find (is_at place) rows.now.items }
{
    match nth(rows, start_at(rows, place)) {
        None => None,
        Some(row) => at_place(row, place),
    }
}

fn at_place(row: &Row, place: Place) -> Option<&Row>
    ensures { option_copied result ≡ (if is_at place row.now then Some row.now else None) }
{
    if is_at(place, row) { Some(row) } else { None }
}
