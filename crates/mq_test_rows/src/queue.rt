//! mq_queue: rows in order of place, held, released and removed.

ghost use Rattle.std.specs.Prelude.{◌≡◌, ◌+◌, ◌<◌, ◌≤◌};

use crate::fixture::descriptor;
use mq_base::NoMemory;
use mq_message::{Bytes, Holder, Ident, Md, Message, Place, Want};
use mq_queue::{PlainQueue, Queue, Row};
use std::alloc::Global;
use std::test::*;

const ANY: Want = Want {
    msg_id: None,
    correl_id: None,
};

fn ident(number: u64) -> Ident {
    Ident {
        manager: 1,
        incarnation: 1,
        number,
    }
}

/// A message with this ident; the second is not persistent.
fn message(alloc: Global, number: u64, priority: i32) -> Message {
    let md = Md {
        priority,
        persistence: if number == 2 { 0 } else { 1 },
        ..descriptor()
    };
    Message {
        ident: ident(number),
        md,
        route: None,
        deadline: None,
        body: Bytes::new(alloc),
    }
}

#[tactic(auto, using(mq_queue::proofs::QueueLaws::absent))]
fn put(alloc: Global, queue: &mut PlainQueue, number: u64, priority: i32)
    requires { queue.old.arrivals < 100 }
    ensures { queue.new.arrivals ≤ queue.old.arrivals + 1 }
{
    let message = message(alloc, number, priority);
    match queue.row(&message.ident) {
        Some(_) => {}
        None => match queue.reserve(1) {
            Ok(()) => queue.insert(message),
            Err(NoMemory) => {}
        },
    }
}

/// A queue with three rows; with fewer, where memory lacks.
fn three(alloc: Global, by_priority: bool) -> PlainQueue {
    let mut queue = PlainQueue::new(alloc, by_priority);
    put(alloc, &mut queue, 1, 0);
    put(alloc, &mut queue, 2, 9);
    put(alloc, &mut queue, 3, 0);
    queue
}

/// The number of a row's ident, 0 where there is no row.
fn number_of(row: Option<&Row>) -> u64 {
    match row {
        Some(row) => row.message.ident.number,
        None => 0,
    }
}

/// The number of the first free row, and whether it is found at its place; 0 where no row is free.
fn first_of(queue: &PlainQueue) -> u64 {
    match queue.first(&ANY, None) {
        None => 0,
        Some((place, ident)) => {
            if number_of(queue.at(place)) == ident.number
                && number_of(queue.first_row(&ANY, None)) == ident.number
            {
                ident.number
            } else {
                0
            }
        }
    }
}

/// The place of the row with this number; none where there is no row.
fn place_of(queue: &PlainQueue, number: u64) -> Option<Place> {
    for row in queue.rows() {
        if row.message.ident.number == number {
            return Some(row.place);
        }
    }
    None
}

/// The row behind that with this number, by its number; behind 0 the first of all.
fn behind(queue: &PlainQueue, number: u64) -> u64 {
    if number == 0 {
        return number_of(queue.next_row(None));
    }
    match place_of(queue, number) {
        None => 0,
        place => number_of(queue.next_row(place)),
    }
}

/// Whether the row with this number is found at its place.
fn is_found(queue: &PlainQueue, number: u64) -> bool {
    match place_of(queue, number) {
        None => false,
        Some(place) => number_of(queue.at(place)) == number,
    }
}

/// How often the message with this number was backed out.
fn backouts(queue: &PlainQueue, number: u64) -> i32 {
    match queue.row(&ident(number)) {
        Some(message) => message.md.backout_count,
        None => -1,
    }
}

fn is_at(numbers: &[u64], place: usize, number: u64) -> bool {
    match numbers.get(place) {
        Some(there) => *there == number,
        None => false,
    }
}

fn are(queue: &PlainQueue, numbers: &[u64]) -> bool {
    for (place, row) in queue.rows().iter().enumerate() {
        if !is_at(numbers, place, row.message.ident.number) {
            return false;
        }
    }
    queue.len() == numbers.len() as u64
}

/// A call of a queue, or a question about it.
enum Step {
    /// The unit with the second number holds the row with the first.
    Hold(u64, u64),
    /// A backout frees the row.
    Release(u64),
    Remove(u64),
    KeepLasting,
    FreeUnits,
    /// Are these the rows, in order?
    Are(&'static [u64]),
    /// Is this the first free row, and found as such by each call?
    First(u64),
    /// Is the second row next behind the first (0: before all)?
    Next(u64, u64),
    /// Is the row found at its place, held or free?
    At(u64),
    /// Are there so many rows, so many free ones, and so many free ones with a priority of 1 or more?
    Counts(u64, u64, u64),
    /// Was the message backed out so often?
    Backouts(u64, i32),
}

fn keep_lasting(queue: &mut PlainQueue) -> bool {
    queue.keep_lasting();
    true
}

fn free_units(queue: &mut PlainQueue) -> bool {
    queue.free_units();
    true
}

/// What a call tells, or whether the answer is yes.
fn take_step(queue: &mut PlainQueue, step: &Step) -> bool {
    match step {
        Step::Hold(number, unit) => queue.hold(&ident(*number), &Holder::Unit(*unit)),
        Step::Release(number) => queue.release(&ident(*number), true),
        Step::Remove(number) => queue.remove(&ident(*number)).is_some(),
        Step::KeepLasting => keep_lasting(queue),
        Step::FreeUnits => free_units(queue),
        Step::Are(numbers) => are(queue, numbers),
        Step::First(number) => first_of(queue) == *number,
        Step::Next(number, next) => behind(queue, *number) == *next,
        Step::At(number) => is_found(queue, *number),
        Step::Counts(all, free, above) => {
            queue.len() == *all && queue.free(0) == *free && queue.free(1) == *above
        }
        Step::Backouts(number, count) => backouts(queue, *number) == *count,
    }
}

/// The first step, from 0, that answers otherwise.
fn first_wrong(queue: &mut PlainQueue, steps: &[(Step, bool)]) -> Option<usize> {
    for (place, (step, wanted)) in steps.iter().enumerate() {
        if take_step(queue, step) != *wanted {
            return Some(place);
        }
    }
    None
}

/// The first step, from 0, of the queue with three rows that answers otherwise.
fn first_wrong_of_three(alloc: Global, by_priority: bool, steps: &[(Step, bool)]) -> Option<usize> {
    let mut queue = three(alloc, by_priority);
    first_wrong(&mut queue, steps)
}

const BY_PRIORITY: &[(Step, bool)] = &[(Step::Are(&[2, 1, 3]), true)];

const BY_ARRIVAL: &[(Step, bool)] = &[(Step::Are(&[1, 2, 3]), true)];

#[test]
fn rows_stand_by_priority_or_by_arrival(rt: HostRuntime) {
    assert_eq!(rt; first_wrong_of_three(rt.alloc(), true, BY_PRIORITY), None);
    assert_eq!(rt; first_wrong_of_three(rt.alloc(), false, BY_ARRIVAL), None);
}

const COMES_BACK: &[(Step, bool)] = &[
    (Step::First(2), true),
    (Step::Hold(2, 7), true),
    (Step::Hold(2, 7), false),
    (Step::First(1), true),
    (Step::Release(2), true),
    (Step::Release(2), false),
    (Step::First(2), true),
];

const IS_BACK: &[(Step, bool)] = &[
    (Step::Are(&[2, 1, 3]), true),
    (Step::Backouts(2, 1), true),
    (Step::Remove(2), true),
    (Step::Remove(2), false),
    (Step::Are(&[1, 3]), true),
];

/// Whether the steps by which a row comes back answer so, and the row has its place again.
fn comes_back(queue: &mut PlainQueue) -> bool {
    let before = place_of(queue, 2);
    first_wrong(queue, COMES_BACK).is_none() && before.is_some() && place_of(queue, 2) == before
}

#[test]
fn a_row_that_comes_back_has_its_place_and_one_backout_more(rt: HostRuntime) {
    let mut queue = three(rt.alloc(), true);
    assert!(rt; comes_back(&mut queue));
    assert_eq!(rt; first_wrong(&mut queue, IS_BACK), None);
}

const COUNTED: &[(Step, bool)] = &[
    (Step::Counts(3, 3, 1), true),
    (Step::First(2), true),
    (Step::Hold(2, 7), true),
    (Step::Counts(3, 2, 0), true),
    (Step::First(1), true),
    (Step::Next(0, 2), true),
    (Step::Next(2, 1), true),
    (Step::At(2), true),
];

#[test]
fn rows_are_counted_and_found_by_their_places(rt: HostRuntime) {
    assert_eq!(rt; first_wrong_of_three(rt.alloc(), true, COUNTED), None);
}

const STOPPED: &[(Step, bool)] = &[
    (Step::Hold(1, 7), true),
    (Step::KeepLasting, true),
    (Step::Are(&[1, 3]), true),
    (Step::FreeUnits, true),
    (Step::Hold(1, 8), true),
    (Step::Backouts(1, 1), true),
];

#[test]
fn a_stop_keeps_persistent_rows_and_frees_those_of_units(rt: HostRuntime) {
    assert_eq!(rt; first_wrong_of_three(rt.alloc(), false, STOPPED), None);
}
