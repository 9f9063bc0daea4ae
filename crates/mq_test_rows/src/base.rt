//! mq_base: whole reads and whole writes with calls that fail; lists.

use mq_base::{
    Items, MemSink, MemSource, ReadStop, StdSink, StdSource, WriteFault, read_all, write_all,
};
use std::alloc::{AllocError, Global};
use std::test::*;

/// What a whole read of 10,000 bytes answers whose calls of these numbers fail.
fn read_failing(alloc: Global, failing: Vec<u64>, max: u64) -> Result<usize, ReadStop> {
    let Ok(bytes) = vec![in alloc; 7u8; 10000] else {
        return Err(ReadStop::NoMemory);
    };
    let mut source = MemSource::new(bytes, failing);
    match read_all(alloc, &mut source, max) {
        Ok(bytes) => Ok(bytes.len()),
        Err(stop) => Err(stop),
    }
}

/// The call that fails, the largest length, and what is answered.
const READS: [(u64, u64, Result<usize, ReadStop>); 7] = [
    (0, 10000, Err(ReadStop::ReadFault)),
    (1, 10000, Err(ReadStop::ReadFault)),
    (2, 10000, Err(ReadStop::ReadFault)),
    (3, 10000, Err(ReadStop::ReadFault)),
    (4, 10000, Ok(10000)),
    (4, 9999, Err(ReadStop::TooLong)),
    (4, 0, Err(ReadStop::TooLong)),
];

#[test]
fn a_read_that_fails_ends_the_whole_read(rt: HostRuntime) -> Result<(), Fail> {
    for (failing, max, wanted) in &READS {
        let failing_calls = vec![in rt.alloc(); *failing; 1]?;
        let read = read_failing(rt.alloc(), failing_calls, *max);
        assert_eq!(rt; read, *wanted, "call {failing}, at most {max}");
    }
    Ok(())
}

/// The call that fails, the room, what is written one after the other with what is answered, and what is held then.
struct Writes {
    failing: u64,
    room: usize,
    pieces: &'static [(&'static [u8], Result<(), WriteFault>)],
    held: &'static [u8],
}

const WRITES: [Writes; 5] = [
    Writes {
        failing: 0,
        room: 5,
        pieces: &[(b"HELLO", Err(WriteFault { written: 0 }))],
        held: b"",
    },
    Writes {
        failing: 1,
        room: 5,
        pieces: &[(b"HELLO", Ok(()))],
        held: b"HELLO",
    },
    Writes {
        failing: 1,
        room: 4,
        pieces: &[(b"HELLO", Err(WriteFault { written: 0 }))],
        held: b"",
    },
    Writes {
        failing: 9,
        room: 8,
        pieces: &[(b"HELLO", Ok(())), (b"YOU", Ok(()))],
        held: b"HELLOYOU",
    },
    Writes {
        failing: 9,
        room: 7,
        pieces: &[(b"HELLO", Ok(())), (b"YOU", Err(WriteFault { written: 0 }))],
        held: b"HELLO",
    },
];

fn answer_so(sink: &mut MemSink, pieces: &[(&[u8], Result<(), WriteFault>)]) -> bool {
    for (piece, answer) in pieces {
        if write_all(sink, piece) != *answer {
            return false;
        }
    }
    true
}

fn are_written(alloc: Global, failing: Vec<u64>, writes: &Writes) -> bool {
    match MemSink::new(alloc, writes.room, failing) {
        Ok(mut sink) => answer_so(&mut sink, writes.pieces) && sink.held() == writes.held,
        Err(AllocError) => false,
    }
}

#[test]
fn a_write_tells_what_was_written_and_pieces_stand_one_behind_the_other(
    rt: HostRuntime,
) -> Result<(), Fail> {
    for (row, writes) in WRITES.iter().enumerate() {
        let failing = vec![in rt.alloc(); writes.failing; 1]?;
        assert!(rt; are_written(rt.alloc(), failing, writes), "row {row}");
    }
    Ok(())
}

#[test]
fn readers_and_writers_of_std_are_ends(rt: HostRuntime) -> Result<(), Fail> {
    let mut source = StdSource::new(b"HELLO".as_slice());
    let bytes = read_all(rt.alloc(), &mut source, 5)?;
    let mut sink = StdSink::new(Vec::new(rt.alloc()));
    assert!(rt; write_all(&mut sink, &bytes).is_ok());
    assert_eq!(rt; sink.inner.as_slice(), b"HELLO".as_slice());
    Ok(())
}

/// A change of a list.
enum Edit {
    Push(u8),
    Insert(usize, u8),
    Set(usize, u8),
    /// At that place this value goes.
    Remove(usize, u8),
    Extend(&'static [u8]),
    Truncate(usize),
    Clear,
}

fn insert(items: &mut Items<u8>, at: usize, value: u8) -> bool {
    at <= items.len() && items.insert(at, value).is_ok()
}

fn set(items: &mut Items<u8>, at: usize, value: u8) -> bool {
    if at >= items.len() {
        return false;
    }
    *items.at_mut(at) = value;
    true
}

fn remove(items: &mut Items<u8>, at: usize, value: u8) -> bool {
    if at >= items.len() {
        return false;
    }
    items.remove(at) == value
}

fn truncate(items: &mut Items<u8>, most: usize) -> bool {
    items.truncate(most);
    true
}

fn clear(items: &mut Items<u8>) -> bool {
    items.clear();
    true
}

/// Whether the change could be made.
fn change(items: &mut Items<u8>, edit: &Edit) -> bool {
    match edit {
        Edit::Push(value) => items.push(*value).is_ok(),
        Edit::Insert(at, value) => insert(items, *at, *value),
        Edit::Set(at, value) => set(items, *at, *value),
        Edit::Remove(at, value) => remove(items, *at, *value),
        Edit::Extend(values) => items.extend_from_slice(values).is_ok(),
        Edit::Truncate(most) => truncate(items, *most),
        Edit::Clear => clear(items),
    }
}

/// The first edit, from 0, that can't be made or leaves something else.
fn first_wrong(items: &mut Items<u8>) -> Option<usize> {
    for (row, (edit, values)) in EDITS.iter().enumerate() {
        if !(change(items, edit) && are(items, values)) {
            return Some(row);
        }
    }
    None
}

/// Whether a list has these values, and so many.
fn are(items: &Items<u8>, values: &[u8]) -> bool {
    items.as_slice() == values
        && items.len() == values.len()
        && items.is_empty() == values.is_empty()
}

/// Changes one after the other, with what the list then has.
const EDITS: [(Edit, &[u8]); 8] = [
    (Edit::Push(4), &[1, 2, 3, 4]),
    (Edit::Insert(0, 9), &[9, 1, 2, 3, 4]),
    (Edit::Set(1, 8), &[9, 8, 2, 3, 4]),
    (Edit::Remove(2, 2), &[9, 8, 3, 4]),
    (Edit::Extend(&[5, 6]), &[9, 8, 3, 4, 5, 6]),
    (Edit::Truncate(5), &[9, 8, 3, 4, 5]),
    (Edit::Truncate(7), &[9, 8, 3, 4, 5]),
    (Edit::Clear, &[]),
];

#[test]
fn a_list_is_edited_at_its_places(rt: HostRuntime) -> Result<(), Fail> {
    let mut items = Items::from_slice(rt.alloc(), &[1u8, 2, 3])?;
    assert_eq!(rt; first_wrong(&mut items), None);
    Ok(())
}

#[test]
fn a_list_goes_through_a_vec(rt: HostRuntime) {
    let other: Items<u8> = Items::from_vec(Items::new(rt.alloc()).into_vec());
    assert!(rt; other.is_empty());
}
