//! What is read from a body, and which bodies are none.

use crate::recovery::is_refused;
use crate::samples::{Sample, bytes_of_kind, each_kind};
use mq_calls::LogRecord;
use mq_record::{BodyFault, WrittenRecord, read_record};
use std::alloc::Global;
use std::test::*;

/// The number of a record's kind.
fn kind_of(record: &WrittenRecord) -> u8 {
    match record {
        WrittenRecord::Objects { .. } => 2,
        WrittenRecord::Other(record) => match record {
            LogRecord::Started { .. } => 1,
            LogRecord::Objects { .. } => 0,
            LogRecord::Unit { .. } => 3,
            LogRecord::Session { .. } => 4,
            LogRecord::Prepared { .. } => 5,
            LogRecord::Resolved { .. } => 6,
            LogRecord::Bound { .. } => 7,
            LogRecord::Closed { .. } => 8,
            LogRecord::Received { .. } => 9,
            LogRecord::SeqSet { .. } => 10,
            LogRecord::Moved { .. } => 11,
        },
    }
}

fn is_none(alloc: Global, body: &[u8]) -> bool {
    matches!(read_record(alloc, body), Err(BodyFault::NoRecord))
}

#[test]
fn each_kind_of_body_is_read_as_that_kind(rt: HostRuntime) -> Result<(), Fail> {
    for kind in 1..=11u8 {
        let bytes = bytes_of_kind(rt.alloc(), kind as usize).ok_or("no such kind")?;
        match read_record(rt.alloc(), bytes.as_slice()) {
            Ok(record) => assert_eq!(rt; kind_of(&record), kind),
            Err(fault) => panic!(rt; "kind {kind}: {fault:?}"),
        }
    }
    Ok(())
}

/// Whether a body is no record, and recovery refuses it at its gate.
fn is_no_record(alloc: Global, body: &[u8]) -> bool {
    is_none(alloc, body) && is_refused(alloc, body)
}

/// The first length at which a body that is cut there is taken.
fn first_taken(alloc: Global, body: &[u8]) -> Option<usize> {
    for length in 0..body.len() {
        let (front, _) = body.split_at(length);
        if !is_no_record(alloc, front) {
            return Some(length);
        }
    }
    None
}

#[test]
fn a_body_cut_at_any_length_is_no_record_and_refused_at_its_gate(
    rt: HostRuntime,
) -> Result<(), Fail> {
    for (kind, sample) in each_kind(rt.alloc())?.iter().enumerate() {
        let taken = first_taken(rt.alloc(), sample.bytes.as_slice());
        assert!(rt; taken.is_none(), "kind {kind} from 0, at {taken:?} bytes");
    }
    Ok(())
}

/// Whether a body with a byte more is no record.
fn is_longer_none(alloc: Global, sample: &Sample, byte: u8) -> bool {
    match sample.bytes.clone() {
        Ok(mut longer) => longer.push(byte).is_ok() && is_none(alloc, longer.as_slice()),
        Err(_) => false,
    }
}

#[test]
fn a_byte_behind_a_record_makes_it_none(rt: HostRuntime) -> Result<(), Fail> {
    for (kind, sample) in each_kind(rt.alloc())?.iter().enumerate() {
        for byte in [0, 1, b' ', 255] {
            assert!(rt;
                is_longer_none(rt.alloc(), sample, byte),
                "kind {kind} from 0, {byte}"
            );
        }
    }
    Ok(())
}

/// Whether a body with another byte at that place is no record, and refused at its gate, just where no other may stand.
fn is_spoiled(alloc: Global, sample: &Sample, place: usize, strict: bool) -> bool {
    match sample.spoiled(place) {
        Some(spoiled) => {
            if strict {
                is_no_record(alloc, spoiled.as_slice())
            } else {
                !is_none(alloc, spoiled.as_slice())
            }
        }
        None => false,
    }
}

/// The first place at which a spoiled byte is refused where it may stand, or isn't where it may not.
fn first_spoiled(alloc: Global, sample: &Sample) -> Option<usize> {
    for (place, strict) in sample.strict.iter().enumerate() {
        if !is_spoiled(alloc, sample, place, *strict) {
            return Some(place);
        }
    }
    None
}

#[test]
fn a_spoiled_byte_is_refused_just_where_no_other_may_stand(rt: HostRuntime) -> Result<(), Fail> {
    for (kind, sample) in each_kind(rt.alloc())?.iter().enumerate() {
        let wrong = first_spoiled(rt.alloc(), sample);
        assert!(rt; wrong.is_none(), "kind {kind} from 0, place {wrong:?}");
    }
    Ok(())
}

fn put_at(body: &mut [u8], place: usize, bytes: &[u8]) -> bool {
    for (i, byte) in bytes.iter().enumerate() {
        match body.get_mut(place.saturating_add(i)) {
            Some(there) => *there = *byte,
            None => return false,
        }
    }
    true
}

/// Whether a body of the kind with that number, from 1, with other bytes at a place is no record, and refused at its gate.
fn is_refused_with(alloc: Global, kind: usize, place: usize, bytes: &[u8]) -> bool {
    match bytes_of_kind(alloc, kind) {
        Some(mut body) => {
            put_at(&mut body, place, bytes) && is_no_record(alloc, body.as_slice())
        }
        None => false,
    }
}

/// The number of a kind, a place, other bytes there, and what they would be.
const SPOILED: [(usize, usize, &[u8], &str); 31] = [
    (1, 0, b"\0", "a kind of 0"),
    (1, 0, b"\x0c", "a kind of 12"),
    (1, 2, b"M 1", "a blank inside a name"),
    (1, 2, b"M-", "a byte that stands in no name"),
    (1, 2, b" M", "a blank in front of a name"),
    (2, 1, b"\0", "an operation of 0"),
    (2, 1, b"\x03", "an operation of 3"),
    (2, 2, b"\0\0\0\x13", "a text that is shorter than the body"),
    (2, 2, b"\0\0\0\x15", "a text that is longer than the body"),
    (2, 2, b"\xff\xff\xff\xff", "a text of all lengths"),
    (3, 1, b"\0\0\0\x03", "more adds than there are"),
    (3, 1, b"\0\0\0\x01", "fewer adds than there are"),
    (
        3,
        1,
        b"\xff\xff\xff\xff",
        "as many adds as four bytes count",
    ),
    (3, 5, b"\0\0\0\0", "fewer removes than there are"),
    (
        3,
        5,
        b"\xff\xff\xff\xff",
        "as many removes as four bytes count",
    ),
    (4, 1, b"     ", "a blank channel"),
    (5, 89, b"\0\0\0\x01", "fewer idents than there are"),
    (
        5,
        89,
        b"\xff\xff\xff\xff",
        "as many idents as four bytes count",
    ),
    (6, 37, b"\x02", "a flag of 2"),
    (6, 38, b"\xff", "a flag of 255"),
    (10, 21, b"\0", "an end of 0"),
    (10, 21, b"\x03", "an end of 3"),
    (11, 131, b"MQ", "a descriptor with another id"),
    (11, 135, b"\0\0\0\x02", "a descriptor of version 2"),
    (11, 175, b"\0\0\0\0", "a message that isn't persistent"),
    (11, 175, b"\0\0\0\x02", "a persistence as the queue's"),
    (11, 175, b"\xff\xff\xff\xff", "a persistence below 0"),
    (11, 463, b"\x01", "a route that isn't there"),
    (11, 464, b"\0\x40\0\x01", "a body above the longest"),
    (11, 464, b"\0\0\0\x06", "a body that ends behind the record"),
    (11, 464, b"\0\0\0\x04", "a body that ends before the record"),
];

#[test]
fn values_that_no_field_may_have_are_refused_at_their_gate(rt: HostRuntime) {
    for (kind, place, bytes, what) in &SPOILED {
        assert!(rt; is_refused_with(rt.alloc(), *kind, *place, bytes), "{what}");
    }
}
