//! mq_heads: the headers of bodies as bytes, and their faults.

use crate::fixture::descriptor;
use mq_heads::{Dlh, Tm, Xqh, dlh_of, dlh_to_bytes, tm_of, tm_to_bytes, xqh_of, xqh_to_bytes};
use mq_message::HeadFault;
use std::alloc::{AllocError, Global};
use std::test::*;

fn transmission_header() -> Xqh {
    Xqh {
        remote_q_name: [b'Q'; 48],
        remote_q_mgr_name: [b'M'; 48],
        msg_desc: descriptor(),
    }
}

fn dead_letter_header() -> Dlh {
    Dlh {
        reason: 2085,
        dest_q_name: [b'Q'; 48],
        dest_q_mgr_name: [b'M'; 48],
        encoding: 273,
        coded_char_set_id: 1208,
        format: *b"MQSTR   ",
        put_appl_type: 0,
        put_appl_name: *b"LONDON.PARIS                ",
        put_date: *b"20260101",
        put_time: *b"12345678",
    }
}

fn trigger_message() -> Tm {
    Tm {
        q_name: [b'Q'; 48],
        process_name: [b'P'; 48],
        trigger_data: [b'D'; 64],
        appl_type: 6,
        appl_id: [b'A'; 256],
        env_data: [b'E'; 128],
        user_data: [b'U'; 128],
    }
}

/// Which header.
#[derive(Clone, Copy)]
enum Head {
    Transmission,
    DeadLetter,
    Trigger,
}

/// The bytes of the header above.
fn bytes_of(alloc: Global, head: Head) -> Result<Vec<u8>, AllocError> {
    match head {
        Head::Transmission => Vec::from_slice(alloc, &xqh_to_bytes(&transmission_header())),
        Head::DeadLetter => Vec::from_slice(alloc, &dlh_to_bytes(&dead_letter_header())),
        Head::Trigger => Vec::from_slice(alloc, &tm_to_bytes(&trigger_message())),
    }
}

/// Why bytes are no such header; none where they are one.
fn fault_of(head: Head, bytes: &[u8]) -> Option<HeadFault> {
    match head {
        Head::Transmission => xqh_of(bytes).err(),
        Head::DeadLetter => dlh_of(bytes).err(),
        Head::Trigger => tm_of(bytes).err(),
    }
}

fn are(written: &[u8], bytes: &[u8]) -> bool {
    written == bytes
}

/// Whether bytes are read, and what is read is written as the same bytes.
fn is_read_back(head: Head, bytes: &[u8]) -> bool {
    match head {
        Head::Transmission => match xqh_of(bytes) {
            Ok(header) => are(&xqh_to_bytes(&header), bytes),
            Err(_) => false,
        },
        Head::DeadLetter => match dlh_of(bytes) {
            Ok(header) => are(&dlh_to_bytes(&header), bytes),
            Err(_) => false,
        },
        Head::Trigger => match tm_of(bytes) {
            Ok(header) => are(&tm_to_bytes(&header), bytes),
            Err(_) => false,
        },
    }
}

/// The manual's offsets with what stands there first.
const PIECES: [(Head, usize, &[u8]); 27] = [
    (Head::Transmission, 0, b"XQH "),
    (Head::Transmission, 4, b"\x00\x00\x00\x01"),
    (Head::Transmission, 8, b"QQQQ"),
    (Head::Transmission, 55, b"QMMM"),
    (Head::Transmission, 103, b"MMD  "),
    (Head::Transmission, 108, b"\x00\x00\x00\x01"),
    (Head::Transmission, 116, b"\x00\x00\x00\x08\xff\xff\xff\xff"),
    (Head::Transmission, 136, b"MQSTR   "),
    (Head::Transmission, 408, b"2026010112345678    "),
    (Head::DeadLetter, 0, b"DLH "),
    (Head::DeadLetter, 4, b"\x00\x00\x00\x01"),
    (Head::DeadLetter, 8, b"\x00\x00\x08\x25"),
    (Head::DeadLetter, 12, b"QQQQ"),
    (Head::DeadLetter, 59, b"QMMM"),
    (Head::DeadLetter, 107, b"M\x00\x00\x01\x11"),
    (Head::DeadLetter, 112, b"\x00\x00\x04\xb8"),
    (Head::DeadLetter, 116, b"MQSTR   \x00\x00\x00\x00"),
    (Head::DeadLetter, 128, b"LONDON.PARIS                "),
    (Head::DeadLetter, 156, b"2026010112345678"),
    (Head::Trigger, 0, b"TM  "),
    (Head::Trigger, 4, b"\x00\x00\x00\x01"),
    (Head::Trigger, 8, b"QQQQ"),
    (Head::Trigger, 55, b"QPPP"),
    (Head::Trigger, 103, b"PDDD"),
    (Head::Trigger, 167, b"D\x00\x00\x00\x06AAA"),
    (Head::Trigger, 427, b"AEEE"),
    (Head::Trigger, 555, b"EUUU"),
];

/// Whether a piece stands at that place.
fn stands(bytes: &[u8], place: usize, piece: &[u8]) -> bool {
    match bytes.get(place..) {
        None => false,
        Some(rest) => rest.starts_with(piece),
    }
}

#[test]
fn each_header_stands_as_the_manual_lays_it_out(rt: HostRuntime) -> Result<(), Fail> {
    for (row, (head, place, piece)) in PIECES.iter().enumerate() {
        let bytes = bytes_of(rt.alloc(), *head)?;
        assert!(rt; stands(&bytes, *place, piece), "row {row}");
    }
    Ok(())
}

/// The lengths of the headers.
const LENGTHS: [(Head, usize); 3] = [
    (Head::Transmission, 428),
    (Head::DeadLetter, 172),
    (Head::Trigger, 684),
];

#[test]
fn each_header_is_read_back(rt: HostRuntime) -> Result<(), Fail> {
    for (head, len) in &LENGTHS {
        let bytes = bytes_of(rt.alloc(), *head)?;
        assert_eq!(rt; bytes.len(), *len);
        assert!(rt; is_read_back(*head, &bytes), "the one of {len} bytes");
    }
    Ok(())
}

/// The first length of a front that isn't told to be short.
fn first_long(head: Head, bytes: &[u8]) -> Option<usize> {
    for len in 0..bytes.len() {
        let (front, _) = bytes.split_at(len);
        if fault_of(head, front) != Some(HeadFault::Short) {
            return Some(len);
        }
    }
    None
}

#[test]
fn each_shorter_length_is_short(rt: HostRuntime) -> Result<(), Fail> {
    for (head, len) in &LENGTHS {
        let bytes = bytes_of(rt.alloc(), *head)?;
        let long = first_long(*head, &bytes);
        assert!(rt; long.is_none(), "{long:?} bytes of {len}");
    }
    Ok(())
}

/// The bytes of a header with other bytes at these places.
fn spoiled(alloc: Global, head: Head, others: &[(usize, u8)]) -> Result<Vec<u8>, AllocError> {
    let mut bytes = bytes_of(alloc, head)?;
    for (place, other) in others {
        if let Some(byte) = bytes.get_mut(*place) {
            *byte = *other;
        }
    }
    Ok(bytes)
}

/// Other bytes at some places, and what is told of them: an id before a version, and a header before its descriptor.
const SPOILED: [(Head, &[(usize, u8)], HeadFault); 7] = [
    (Head::DeadLetter, &[(7, 2)], HeadFault::BadVersion),
    (
        Head::DeadLetter,
        &[(7, 2), (0, b'X'), (1, b'Q'), (2, b'H')],
        HeadFault::BadId,
    ),
    (Head::Trigger, &[(4, 1)], HeadFault::BadVersion),
    (Head::Transmission, &[(111, 2)], HeadFault::BadVersion),
    (
        Head::Transmission,
        &[(111, 2), (104, b'm')],
        HeadFault::BadId,
    ),
    (
        Head::Transmission,
        &[(111, 2), (104, b'm'), (7, 0)],
        HeadFault::BadVersion,
    ),
    (
        Head::Transmission,
        &[(111, 2), (104, b'm'), (7, 0), (3, 0)],
        HeadFault::BadId,
    ),
];

#[test]
fn a_bad_id_is_told_before_a_bad_version(rt: HostRuntime) -> Result<(), Fail> {
    for (row, (head, others, fault)) in SPOILED.iter().enumerate() {
        let bytes = spoiled(rt.alloc(), *head, others)?;
        assert_eq!(rt; fault_of(*head, &bytes), Some(*fault), "row {row}");
    }
    Ok(())
}
