//! What is written, against the format's table.

use crate::samples::bytes_of_kind;
use mq_base::{ChName, QName};
use mq_message::Ident;
use mq_record::{
    Buffer, Operation, bound_bytes, closed_bytes, moved_front, objects_front, prepared_front,
    received_front, resolved_bytes, seq_set_bytes, session_bytes, started_bytes, unit_front,
};
use mq_sync::{End, Unit};
use std::alloc::Global;
use std::test::*;

const IDENT: Ident = Ident {
    manager: 1,
    incarnation: 2,
    number: 3,
};

const UNIT: Unit = Unit { session: 5, n: 6 };

/// Whether these are the bytes of the kind with that number, from 1.
fn are(alloc: Global, kind: usize, bytes: &[u8]) -> bool {
    match bytes_of_kind(alloc, kind) {
        Some(body) => body.as_slice() == bytes,
        None => false,
    }
}

/// Whether they stand at its beginning.
fn begin(alloc: Global, kind: usize, bytes: &[u8]) -> bool {
    match bytes_of_kind(alloc, kind) {
        Some(body) => body.starts_with(bytes),
        None => false,
    }
}

/// Whether a record without lists, of the kind with that number, is written as the table says.
fn is_written(alloc: Global, kind: usize) -> Result<bool, Fail> {
    let channel = ChName::of(b"M1.M2")?;
    let (m1, m2) = (QName::of(b"M1")?, QName::of(b"M2")?);
    Ok(match kind {
        1 => are(alloc, 1, started_bytes(1, &m1, 4).as_slice()),
        4 => are(alloc, 4, session_bytes(&channel, &m2, 5).as_slice()),
        6 => are(
            alloc,
            6,
            resolved_bytes(&channel, UNIT, true, false).as_slice(),
        ),
        7 => are(alloc, 7, bound_bytes(&channel, &m1, 5, 7).as_slice()),
        8 => are(alloc, 8, closed_bytes(&channel, 5).as_slice()),
        10 => are(
            alloc,
            10,
            seq_set_bytes(&channel, End::Receiver, 7).as_slice(),
        ),
        _ => false,
    })
}

#[test]
fn records_without_lists_are_written_as_the_table_says(rt: HostRuntime) -> Result<(), Fail> {
    for kind in [1, 4, 6, 7, 8, 10] {
        assert!(rt; is_written(rt.alloc(), kind)?, "kind {kind}");
    }
    Ok(())
}

/// Whether the front of a record with lists, of the kind with that number, begins it.
fn is_begun(alloc: Global, kind: usize) -> Result<bool, Fail> {
    let channel = ChName::of(b"M1.M2")?;
    let (dlq, q1, m2) = (QName::of(b"DLQ")?, QName::of(b"Q1")?, QName::of(b"M2")?);
    Ok(match kind {
        2 => begin(alloc, 2, objects_front(Operation::Delete, 20).as_slice()),
        5 => begin(
            alloc,
            5,
            prepared_front(&channel, UNIT, 7, &m2, 2).as_slice(),
        ),
        9 => begin(alloc, 9, received_front(&channel, UNIT, 7, 1).as_slice()),
        11 => begin(alloc, 11, moved_front(&dlq, &IDENT, &q1).as_slice()),
        _ => false,
    })
}

#[test]
fn fronts_stand_at_the_beginning_of_their_records(rt: HostRuntime) -> Result<(), Fail> {
    for kind in [2, 5, 9, 11] {
        assert!(rt; is_begun(rt.alloc(), kind)?, "kind {kind}");
    }
    Ok(())
}

fn put(buffer: &mut Buffer, piece: &[u8]) -> bool {
    match buffer.reserve(piece.len()) {
        Ok(()) => {
            buffer.put(piece);
            true
        }
        Err(_) => false,
    }
}

fn put_remove(buffer: &mut Buffer, queue: &QName) -> bool {
    match buffer.reserve(65) {
        Ok(()) => {
            buffer.put_remove(queue, &IDENT);
            true
        }
        Err(_) => false,
    }
}

/// Whether a unit's front and two removes of a queue's message leave these bytes.
fn is_grown(alloc: Global, queue: &QName, wanted: &[u8]) -> bool {
    let mut grown = Buffer::new(alloc);
    put(&mut grown, &unit_front(0, 2))
        && put_remove(&mut grown, queue)
        && put_remove(&mut grown, queue)
        && grown.as_slice() == wanted
}

/// A remove of Q1's message 1.2.3.
const REMOVE: &[u8] =
    b"Q1                                              \x01\0\0\0\0\0\0\0\x02\0\0\0\0\0\0\0\x03";

#[test]
fn a_unit_grows_in_room_that_was_taken_before(rt: HostRuntime) -> Result<(), Fail> {
    let q1 = QName::of(b"Q1")?;
    let mut wanted = vec![in rt.alloc(); 3, 0, 0, 0, 0, 0, 0, 0, 2]?;
    wanted.extend_from_slice(REMOVE)?;
    wanted.extend_from_slice(REMOVE)?;
    assert!(rt; is_grown(rt.alloc(), &q1, wanted.as_slice()));
    Ok(())
}
