//! What a log tells, and where a body is refused.

use crate::logs::{Body, Log, log_of};
use mq_base::QName;
use mq_calls::Image;
use mq_log::Bodies;
use mq_recover::{RecoverFault, Start, image};
use std::alloc::Global;
use std::test::*;

fn name_of(text: &[u8]) -> QName {
    QName::of(text).unwrap_or(QName::blank())
}

fn told(alloc: Global, log: &Log, start: Start) -> Result<Image, RecoverFault> {
    if !log.whole {
        return Err(RecoverFault::NoMemory);
    }
    let bodies = Bodies {
        framed: log.framed.as_slice(),
    };
    image(alloc, 1, &name_of(b"M1"), start, &bodies)
}

/// Whether the first body at fault is the one at that place; none where all are to apply.
fn is_at_fault(alloc: Global, log: &Log, start: Start, place: Option<u64>) -> bool {
    match told(alloc, log, start) {
        Ok(_) => place.is_none(),
        Err(RecoverFault::BadRecord(at)) => place == Some(at),
        Err(RecoverFault::NoMemory) => false,
    }
}

fn is_number(numbers: &[u64], at: usize, number: u64) -> bool {
    match numbers.get(at) {
        Some(wanted) => *wanted == number,
        None => false,
    }
}

/// Whether the rows of an image have these numbers, in their order.
fn are_rows(image: &Image, numbers: &[u64]) -> bool {
    let mut at = 0usize;
    for shelf in image.shelves.as_slice() {
        for row in shelf.rows.as_slice() {
            if !is_number(numbers, at, row.message.ident.number) {
                return false;
            }
            at = at.saturating_add(1);
        }
    }
    at == numbers.len()
}

/// Whether a log leaves rows of these numbers, in their order.
fn leaves(alloc: Global, log: &Log, numbers: &[u64]) -> bool {
    match told(alloc, log, Start::First) {
        Ok(image) => are_rows(&image, numbers),
        Err(_) => false,
    }
}

/// Whether a body is refused at its gate, behind a start and in front of a session.
pub fn is_refused(alloc: Global, body: &[u8]) -> bool {
    let mut log = log_of(alloc, &[Body::Started(1, 1)]);
    let place = log.end();
    log.put_bytes(body);
    log.put(alloc, &Body::Session(1));
    is_at_fault(alloc, &log, Start::First, Some(place))
}

/// Bodies of a log, and which body, from 0, is at fault; none where all apply.
type Row = (&'static [Body], Option<usize>);

/// The place of a body in a log of these bodies.
fn place_of(alloc: Global, bodies: &[Body], at: usize) -> u64 {
    let (front, _) = bodies.split_at(at.min(bodies.len()));
    log_of(alloc, front).end()
}

/// Whether that body of a log is the first at fault.
fn is_first_at_fault(alloc: Global, bodies: &[Body], start: Start, at: Option<usize>) -> bool {
    let place = match at {
        None => None,
        Some(at) => Some(place_of(alloc, bodies, at)),
    };
    is_at_fault(alloc, &log_of(alloc, bodies), start, place)
}

/// The first row, from 0, of which something else is told at a first start.
fn first_wrong(alloc: Global, rows: &[Row]) -> Option<usize> {
    for (row, (bodies, at)) in rows.iter().enumerate() {
        if !is_first_at_fault(alloc, bodies, Start::First, *at) {
            return Some(row);
        }
    }
    None
}

const BEGINS: [Row; 4] = [
    (&[], None),
    (&[Body::Session(1)], Some(0)),
    (&[Body::Started(2, 1)], Some(0)),
    (
        &[Body::Started(1, 1), Body::Session(1), Body::Started(2, 2)],
        Some(2),
    ),
];

#[test]
fn a_log_begins_with_a_start_of_its_manager_and_has_no_others(rt: HostRuntime) {
    assert_eq!(rt; first_wrong(rt.alloc(), &BEGINS), None);
}

const NONE: [Row; 1] = [(
    &[
        Body::Started(1, 1),
        Body::Session(1),
        Body::Other(b"\x0c"),
        Body::Session(2),
    ],
    Some(2),
)];

#[test]
fn a_body_that_is_none_is_told_by_its_gate(rt: HostRuntime) {
    assert_eq!(rt; first_wrong(rt.alloc(), &NONE), None);
}

/// A number, and whether it is good at a first start and at a later one.
const BOUNDS: [(u64, bool, bool); 5] = [
    ((1 << 60) - 1, true, true),
    (1 << 60, false, true),
    ((1 << 61) - 1, false, true),
    (1 << 61, false, false),
    (u64::MAX, false, false),
];

/// Whether a body behind a start is refused just where it isn't good.
fn is_bounded(alloc: Global, body: Body, first: bool, later: bool) -> bool {
    let bodies = [Body::Started(1, 1), body];
    let at_first = if first { None } else { Some(1) };
    let at_later = if later { None } else { Some(1) };
    is_first_at_fault(alloc, &bodies, Start::First, at_first)
        && is_first_at_fault(alloc, &bodies, Start::Later, at_later)
}

#[test]
fn incarnations_are_bounded_by_the_kind_of_start(rt: HostRuntime) {
    for (number, first, later) in &BOUNDS {
        let body = Body::Started(1, *number);
        assert!(rt; is_bounded(rt.alloc(), body, *first, *later), "{number}");
    }
}

#[test]
fn numbers_are_bounded_by_the_kind_of_start(rt: HostRuntime) {
    for (number, first, later) in &BOUNDS {
        let body = Body::Session(*number);
        assert!(rt; is_bounded(rt.alloc(), body, *first, *later), "{number}");
    }
}

const NOT_BEGUN: [Row; 2] = [
    (
        &[Body::Started(1, 4), Body::Session(1), Body::Prepared(4, 1)],
        None,
    ),
    (
        &[Body::Started(1, 4), Body::Session(1), Body::Prepared(5, 1)],
        Some(2),
    ),
];

#[test]
fn an_ident_of_an_incarnation_that_did_not_begin_is_refused(rt: HostRuntime) {
    assert_eq!(rt; first_wrong(rt.alloc(), &NOT_BEGUN), None);
}

/// What stands in front of the bodies below.
const FRONT: [Body; 4] = [
    Body::Started(1, 4),
    Body::Defined(b'1'),
    Body::Defined(b'2'),
    Body::Bound(1),
];

/// Bodies behind these, of which the last is at fault or none.
const PLACED: [(&[Body], bool); 6] = [
    (&[Body::Added(b"Q1", 4, 9, 0)], true),
    (&[Body::Added(b"Q1", 5, 9, 0)], false),
    (&[Body::Received(1, 4, 9)], true),
    (&[Body::Received(1, 5, 9)], false),
    (&[Body::Added(b"Q1", 4, 9, 0), Body::Moved(4, 9)], true),
    (&[Body::Moved(5, 9)], false),
];

/// Whether all bodies of a log are good, or the last is the first at fault.
fn is_last_at_fault(alloc: Global, front: &[Body], bodies: &[Body], good: bool) -> bool {
    let mut log = log_of(alloc, front);
    let mut place = log.end();
    for body in bodies {
        place = log.end();
        log.put(alloc, body);
    }
    let wanted = if good { None } else { Some(place) };
    is_at_fault(alloc, &log, Start::First, wanted)
}

#[test]
fn no_message_with_an_ident_that_was_not_given_is_placed(rt: HostRuntime) {
    for (row, (bodies, good)) in PLACED.iter().enumerate() {
        assert!(rt;
            is_last_at_fault(rt.alloc(), &FRONT, bodies, *good),
            "row {row}"
        );
    }
}

const NAMES: [&[u8]; 5] = [b"M2", b"M", b"M1.", b"m1", b""];

/// Whether a start with that name is refused as a log's first body, and as its second.
fn is_other(alloc: Global, called: &'static [u8]) -> bool {
    let first = [Body::StartedAs(called, 1)];
    let second = [Body::Started(1, 1), Body::StartedAs(called, 2)];
    is_last_at_fault(alloc, &[], &first, false) && is_last_at_fault(alloc, &[], &second, false)
}

#[test]
fn a_start_with_another_name_is_refused(rt: HostRuntime) {
    for called in &NAMES {
        assert!(rt; is_other(rt.alloc(), called), "{called:?}");
    }
}

/// A body with this number.
fn with_number(kind: usize, number: u64) -> Body {
    match kind {
        0 => Body::Prepared(1, number),
        1 => Body::Bound(number),
        2 => Body::Closed(number),
        3 => Body::Received(number, 1, 9),
        4 => Body::Received(1, 1, number),
        _ => Body::Added(b"Q1", 1, number, 0),
    }
}

/// What stands in front of it: a bind only for some kinds.
const UNBOUND: [Body; 3] = [Body::Started(1, 1), Body::Defined(b'1'), Body::Session(1)];

/// Whether a body with this number is refused just where it isn't good, and by a first start alone.
fn is_bounded_at_first(alloc: Global, kind: usize, number: u64, good: bool) -> bool {
    let mut log = log_of(alloc, &UNBOUND);
    if kind > 1 {
        log.put(alloc, &Body::Bound(1));
    }
    let wanted = if good { None } else { Some(log.end()) };
    log.put(alloc, &with_number(kind, number));
    is_at_fault(alloc, &log, Start::First, wanted) && is_at_fault(alloc, &log, Start::Later, None)
}

/// Numbers, and whether they are good at a first start.
const NUMBERS: [(u64, bool); 3] = [((1 << 60) - 1, true), (1 << 60, false), (u64::MAX, false)];

#[test]
fn numbers_of_units_and_idents_are_bounded_at_a_first_start(rt: HostRuntime) {
    for kind in 0..6 {
        for (number, good) in &NUMBERS {
            let bounded = is_bounded_at_first(rt.alloc(), kind, *number, *good);
            assert!(rt; bounded, "kind {kind}, {number}");
        }
    }
}

const OWN_QUEUE: [Row; 2] = [
    (
        &[
            Body::Started(1, 1),
            Body::Defined(b'1'),
            Body::Defined(b'2'),
            Body::Added(b"Q1", 1, 9, 0),
            Body::Session(1),
            Body::Prepared(1, 9),
        ],
        None,
    ),
    (
        &[
            Body::Started(1, 1),
            Body::Defined(b'1'),
            Body::Defined(b'2'),
            Body::Added(b"Q2", 1, 9, 0),
            Body::Session(1),
            Body::Prepared(1, 9),
        ],
        Some(5),
    ),
];

#[test]
fn a_unit_is_prepared_of_rows_of_its_own_queue(rt: HostRuntime) {
    assert_eq!(rt; first_wrong(rt.alloc(), &OWN_QUEUE), None);
}

/// Bodies of a log with four messages, of which the last is removed, twice.
const ORDERED: [Body; 8] = [
    Body::Started(1, 1),
    Body::Defined(b'1'),
    Body::Added(b"Q1", 1, 1, 3),
    Body::Added(b"Q1", 1, 2, 7),
    Body::Added(b"Q1", 1, 3, 3),
    Body::Added(b"Q1", 1, 4, 7),
    Body::Removed(4),
    Body::Removed(4),
];

/// Whether the first bodies of a log leave rows of these numbers, in their order.
fn leave(alloc: Global, bodies: &[Body], count: usize, numbers: &[u64]) -> bool {
    let (front, _) = bodies.split_at(count.min(bodies.len()));
    leaves(alloc, &log_of(alloc, front), numbers)
}

#[test]
fn rows_stand_in_order_of_place_and_go(rt: HostRuntime) {
    assert!(rt; leave(rt.alloc(), &ORDERED, 6, &[2, 4, 1, 3]));
    assert!(rt; leave(rt.alloc(), &ORDERED, 7, &[2, 1, 3]));
    assert!(rt; is_first_at_fault(rt.alloc(), &ORDERED, Start::First, Some(7)));
}

const AGAIN: [Row; 2] = [
    (&[Body::Started(1, 1), Body::Added(b"Q1", 1, 1, 0)], Some(1)),
    (
        &[
            Body::Started(1, 1),
            Body::Defined(b'1'),
            Body::Added(b"Q1", 1, 1, 0),
            Body::Added(b"Q1", 1, 1, 0),
        ],
        Some(3),
    ),
];

#[test]
fn an_ident_that_stands_is_not_added_again(rt: HostRuntime) {
    assert_eq!(rt; first_wrong(rt.alloc(), &AGAIN), None);
}

/// A unit in doubt with one row.
const IN_DOUBT: [Body; 5] = [
    Body::Started(1, 1),
    Body::Defined(b'1'),
    Body::Added(b"Q1", 1, 1, 0),
    Body::Session(1),
    Body::Prepared(1, 1),
];

/// Whether a Resolved leaves these rows, and can't come twice.
fn is_settled(alloc: Global, commit: bool, numbers: &[u64]) -> bool {
    let mut log = log_of(alloc, &IN_DOUBT);
    log.put(alloc, &Body::Resolved(commit));
    let twice = [Body::Resolved(commit), Body::Resolved(commit)];
    leaves(alloc, &log, numbers) && is_last_at_fault(alloc, &IN_DOUBT, &twice, false)
}

#[test]
fn a_unit_in_doubt_holds_its_row_until_it_is_settled(rt: HostRuntime) {
    assert!(rt; is_last_at_fault(rt.alloc(), &IN_DOUBT, &[Body::Removed(1)], false));
    assert!(rt; is_settled(rt.alloc(), true, &[]));
    assert!(rt; is_settled(rt.alloc(), false, &[1]));
}
