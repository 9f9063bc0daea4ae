//! mq_message: descriptors as bytes, and the message ids that a manager makes.

use mq_message::{HeadFault, Ident, Md, made_msg_id, md_of, md_to_bytes};
use std::alloc::{AllocError, Global};
use std::test::*;

/// A descriptor whose fields all differ.
fn sample() -> Md {
    Md {
        report: 1,
        msg_type: 8,
        expiry: -1,
        feedback: 258,
        encoding: 273,
        coded_char_set_id: 1208,
        format: *b"MQSTR   ",
        priority: 5,
        persistence: 2,
        msg_id: [1; 24],
        correl_id: [2; 24],
        backout_count: -2147483648,
        reply_to_q: [b'Q'; 48],
        reply_to_q_mgr: [b'M'; 48],
        user_identifier: [b'U'; 12],
        accounting_token: [3; 32],
        appl_identity_data: [b'I'; 32],
        put_appl_type: 6,
        put_appl_name: [b'A'; 28],
        put_date: *b"20260101",
        put_time: *b"00000000",
        appl_origin_data: *b"ORIG",
    }
}

/// The manual's offsets with what stands there first.
const PLACES: [(usize, &[u8]); 24] = [
    (0, b"MD  "),
    (4, b"\x00\x00\x00\x01"),
    (8, b"\x00\x00\x00\x01"),
    (12, b"\x00\x00\x00\x08"),
    (16, b"\xff\xff\xff\xff"),
    (20, b"\x00\x00\x01\x02"),
    (24, b"\x00\x00\x01\x11"),
    (28, b"\x00\x00\x04\xb8"),
    (32, b"MQSTR   "),
    (40, b"\x00\x00\x00\x05"),
    (44, b"\x00\x00\x00\x02"),
    (48, b"\x01\x01"),
    (72, b"\x02\x02"),
    (96, b"\x80\x00\x00\x00"),
    (100, b"QQ"),
    (148, b"MM"),
    (196, b"UU"),
    (208, b"\x03\x03"),
    (240, b"II"),
    (272, b"\x00\x00\x00\x06"),
    (276, b"AA"),
    (304, b"20260101"),
    (312, b"00000000"),
    (320, b"ORIG"),
];

#[test]
fn a_descriptor_stands_as_the_manual_lays_it_out(rt: HostRuntime) {
    let bytes = md_to_bytes(&sample());
    for (place, piece) in &PLACES {
        let there = match bytes.get(*place..) {
            None => false,
            Some(rest) => rest.starts_with(piece),
        };
        assert!(rt; there, "at {place}");
    }
}

#[test]
fn a_descriptor_is_read_back(rt: HostRuntime) -> Result<(), Fail> {
    let bytes = md_to_bytes(&sample());
    let read = md_of(&bytes).ok().ok_or("no descriptor")?;
    assert!(rt; md_to_bytes(&read) == bytes);
    assert_eq!(rt; read.backout_count, -2147483648);
    Ok(())
}

fn fault_of(bytes: &[u8]) -> Option<HeadFault> {
    md_of(bytes).err()
}

#[test]
fn each_shorter_length_is_short(rt: HostRuntime) {
    let bytes = md_to_bytes(&sample());
    for len in 0..324usize {
        let (front, _) = bytes.split_at(len);
        assert!(rt; fault_of(front) == Some(HeadFault::Short), "at {len} bytes");
    }
}

/// Other bytes at some places, and what is told of them: an id before a version.
const SPOILED: [(&[(usize, u8)], Option<HeadFault>); 3] = [
    (&[(0, b'X'), (7, 2)], Some(HeadFault::BadId)),
    (&[(7, 2)], Some(HeadFault::BadVersion)),
    (&[], None),
];

/// The bytes of the sample with other bytes at these places.
fn spoiled(alloc: Global, others: &[(usize, u8)]) -> Result<Vec<u8>, AllocError> {
    let mut bytes = Vec::from_slice(alloc, &md_to_bytes(&sample()))?;
    for (place, other) in others {
        if let Some(byte) = bytes.get_mut(*place) {
            *byte = *other;
        }
    }
    Ok(bytes)
}

#[test]
fn a_bad_id_is_told_before_a_bad_version(rt: HostRuntime) -> Result<(), Fail> {
    for (row, (others, fault)) in SPOILED.iter().enumerate() {
        let bytes = spoiled(rt.alloc(), others)?;
        assert_eq!(rt; fault_of(&bytes), *fault, "row {row}");
    }
    Ok(())
}

#[test]
fn a_made_id_tells_its_ident(rt: HostRuntime) {
    let id = made_msg_id(&Ident {
        manager: 1,
        incarnation: 2,
        number: 258,
    });
    let expected =
        b"MQNI\x00\x00\x00\x01\x00\x00\x00\x00\x00\x00\x00\x02\x00\x00\x00\x00\x00\x00\x01\x02";
    assert!(rt; id == *expected);
}
