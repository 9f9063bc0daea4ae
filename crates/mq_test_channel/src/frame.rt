//! mq_frame: frames as bytes, in any cut of the stream.

use crate::fixture::descriptor;
use mq_base::QName;
use mq_frame::{Decoder, Frame, FrameFault, FrameKind, encode};
use mq_message::{Bytes, Dest, Ident, Message};
use std::alloc::{AllocError, Global};
use std::test::*;

const ACK: [u8; 29] = [
    0, 0, 0, 0x19, 5, 0, 0, 0, 0, 0, 0, 0, 9, 0, 0, 0, 0, 0, 0, 0, 1, 0, 0, 0, 0, 0, 0, 0, 1,
];

/// The name of a queue.
fn q1() -> QName {
    QName::of(b"Q1").unwrap_or(QName::blank())
}

/// A MSG with this body.
fn msg_of(body: Bytes) -> Frame {
    let message = Message {
        ident: Ident {
            manager: 1,
            incarnation: 2,
            number: 3,
        },
        md: descriptor(),
        route: None,
        deadline: Some(5),
        body,
    };
    let kind = FrameKind::Msg {
        n: 1,
        index: 1,
        number: 1,
        dest: Dest {
            queue: q1(),
            qmgr: QName::blank(),
        },
        message,
    };
    of_kind(kind)
}

/// A MSG with this body; nothing, where memory lacks.
fn msg(alloc: Global, body: &[u8]) -> Option<Frame> {
    match Bytes::from_slice(alloc, body) {
        Ok(body) => Some(msg_of(body)),
        Err(_) => None,
    }
}

fn of_kind(kind: FrameKind) -> Frame {
    Frame {
        stamp: 9,
        session: 1,
        kind,
    }
}

/// Writes a frame behind the bytes; false, where memory lacks.
fn add(alloc: Global, bytes: &mut Vec<u8>, frame: &Frame) -> bool {
    match encode(alloc, frame) {
        Ok(frame) => bytes.extend_from_slice(frame.as_slice()).is_ok(),
        Err(_) => false,
    }
}

fn add_all(alloc: Global, bytes: &mut Vec<u8>, frames: &[Frame]) -> bool {
    for frame in frames {
        if !add(alloc, bytes, frame) {
            return false;
        }
    }
    true
}

/// A frame of the kind with that number, from 0 to 5; nothing, where memory lacks.
fn frame_of(alloc: Global, kind: u8) -> Option<Frame> {
    let kind = match kind {
        0 => FrameKind::Bind {
            last: 7,
            force: true,
        },
        1 => FrameKind::Status {
            unit_session: 1,
            unit_n: 2,
            last: 3,
        },
        2 => return msg(alloc, b"hello"),
        3 => FrameKind::End {
            n: 1,
            count: 1,
            last: 1,
        },
        4 => FrameKind::Ack { n: 1 },
        _ => FrameKind::Err { n: 1, reason: 2053 },
    };
    Some(of_kind(kind))
}

fn add_kind(alloc: Global, bytes: &mut Vec<u8>, kind: u8) -> bool {
    match frame_of(alloc, kind) {
        Some(frame) => add(alloc, bytes, &frame),
        None => false,
    }
}

/// Writes a frame of each kind, one after the other; false, where memory lacks.
fn add_each_kind(alloc: Global, bytes: &mut Vec<u8>) -> bool {
    for kind in 0..6u8 {
        if !add_kind(alloc, bytes, kind) {
            return false;
        }
    }
    true
}

/// Writes again what a decoder gives for a piece; false, where it is refused or memory lacks.
fn feed(alloc: Global, decoder: &mut Decoder, again: &mut Vec<u8>, piece: &[u8]) -> bool {
    match decoder.feed(alloc, piece) {
        Ok(frames) => add_all(alloc, again, frames.as_slice()),
        Err(_) => false,
    }
}

/// Whether a decoder gives the bytes again, fed in two pieces.
fn come_back(alloc: Global, bytes: &[u8], cut: usize) -> bool {
    let front = bytes.get(..cut).unwrap_or(&[]);
    let back = bytes.get(cut..).unwrap_or(&[]);
    let mut decoder = Decoder::new(alloc);
    let mut again = Vec::new(alloc);
    feed(alloc, &mut decoder, &mut again, front)
        && feed(alloc, &mut decoder, &mut again, back)
        && again.as_slice() == bytes
}

/// Whether a frame is these bytes.
fn is_encoded(alloc: Global, frame: &Frame, bytes: &[u8]) -> bool {
    match encode(alloc, frame) {
        Ok(frame) => frame.as_slice() == bytes,
        Err(_) => false,
    }
}

#[test]
fn an_ack_has_these_bytes(rt: HostRuntime) {
    let ack = of_kind(FrameKind::Ack { n: 1 });
    assert!(rt; is_encoded(rt.alloc(), &ack, &ACK));
}

#[test]
fn each_kind_comes_back_through_every_cut(rt: HostRuntime) {
    let mut bytes = Vec::new(rt.alloc());
    assert!(rt; add_each_kind(rt.alloc(), &mut bytes));
    assert_eq!(rt; bytes.len(), 26 + 41 + 492 + 37 + 29 + 33);
    for cut in 0..=bytes.len() {
        assert!(rt; come_back(rt.alloc(), bytes.as_slice(), cut), "cut {cut}");
    }
}

/// Whether bytes are refused at this place of the stream.
fn is_fault(alloc: Global, decoder: &mut Decoder, bytes: &[u8], place: u64) -> bool {
    matches!(decoder.feed(alloc, bytes), Err(FrameFault::BadFrame(at)) if at == place)
}

/// How many frames bytes make complete; nothing, where they are refused.
fn count_of(alloc: Global, decoder: &mut Decoder, bytes: &[u8]) -> Option<usize> {
    match decoder.feed(alloc, bytes) {
        Ok(frames) => Some(frames.len()),
        Err(_) => None,
    }
}

/// Whether bytes are refused at this place, and all behind them, up to a reset.
fn is_refused(alloc: Global, bytes: &[u8], place: u64) -> bool {
    let mut decoder = Decoder::new(alloc);
    let refused = is_fault(alloc, &mut decoder, bytes, place)
        && is_fault(alloc, &mut decoder, &ACK, place);
    decoder.reset();
    refused && count_of(alloc, &mut decoder, &ACK) == Some(1)
}

/// Bytes that begin no frame, and the place of the first that is at fault.
const NO_FRAMES: [(&[u8], u64); 7] = [
    (&[0, 0, 0, 0], 3),
    (&[0xff], 0),
    (&[0, 0x41], 1),
    (&[0, 0x40, 2], 2),
    (&[0, 0x40, 1, 0xe4], 3),
    (&[0, 0, 0, 22, 2], 4),
    (&[0, 0, 0, 25, 7], 4),
];

#[test]
fn what_is_no_frame_is_refused_at_its_place(rt: HostRuntime) {
    for (row, (bytes, place)) in NO_FRAMES.iter().enumerate() {
        assert!(rt; is_refused(rt.alloc(), bytes, *place), "row {row}");
    }
    let mut decoder = Decoder::new(rt.alloc());
    assert!(rt; count_of(rt.alloc(), &mut decoder, &[0, 0, 0]) == Some(0));
}

/// The bytes of a MSG; none, where memory lacks.
fn hello(alloc: Global) -> Vec<u8> {
    let mut bytes = Vec::new(alloc);
    let _written = add_kind(alloc, &mut bytes, 2);
    bytes
}

/// Puts a byte at a place; false, where there is none.
fn spoil(bytes: &mut Vec<u8>, place: usize, byte: u8) -> bool {
    match bytes.get_mut(place) {
        Some(there) => {
            *there = byte;
            true
        }
        None => false,
    }
}

/// Places and bytes of a MSG: index 0, a letter that stands in no name, version 2, a route, another body length.
const FIELDS: [(usize, u8); 5] = [(32, 0), (37, b'#'), (157, 2), (482, 1), (486, 4)];

/// Whether a MSG with one byte changed is refused at that byte.
fn is_field_refused(alloc: Global, place: usize, byte: u8) -> bool {
    let mut bytes = hello(alloc);
    spoil(&mut bytes, place, byte) && is_refused(alloc, bytes.as_slice(), place as u64)
}

#[test]
fn a_field_out_of_range_is_refused_at_its_last_byte(rt: HostRuntime) {
    for (place, byte) in &FIELDS {
        assert!(rt; is_field_refused(rt.alloc(), *place, *byte), "byte {place}");
    }
}

/// Whether each frame is just these bytes.
fn are_encoded(alloc: Global, frames: &[Frame], bytes: &[u8]) -> bool {
    for frame in frames {
        if !is_encoded(alloc, frame, bytes) {
            return false;
        }
    }
    true
}

/// Whether a MSG with the byte at a place spoiled is read as it is, or refused.
fn is_read_or_refused(alloc: Global, place: usize) -> bool {
    let mut bytes = hello(alloc);
    let mut decoder = Decoder::new(alloc);
    if !spoil(&mut bytes, place, 0xff) {
        return false;
    }
    match decoder.feed(alloc, bytes.as_slice()) {
        Ok(frames) => are_encoded(alloc, frames.as_slice(), bytes.as_slice()),
        Err(fault) => matches!(fault, FrameFault::BadFrame(_)),
    }
}

#[test]
fn a_spoiled_byte_is_read_as_it_is_or_refused(rt: HostRuntime) {
    for place in 0..492 {
        assert!(rt; is_read_or_refused(rt.alloc(), place), "byte {place}");
    }
}

/// So many bytes.
fn filled(alloc: Global, count: usize) -> Result<Vec<u8>, AllocError> {
    let mut body = Vec::new(alloc);
    for _ in 0..count {
        body.push(b'x')?;
    }
    Ok(body)
}

/// How many frames the last of the bytes makes complete, if they come one by one and none is refused.
fn last_count(alloc: Global, bytes: &[u8]) -> Option<usize> {
    let mut decoder = Decoder::new(alloc);
    let mut last = Some(0);
    for byte in bytes {
        if last.is_some() {
            last = count_of(alloc, &mut decoder, &[*byte]);
        }
    }
    last
}

/// Whether a MSG with this body comes byte by byte.
fn comes_slowly(alloc: Global, body: &[u8]) -> bool {
    let mut bytes = Vec::new(alloc);
    match msg(alloc, body) {
        Some(frame) => {
            add(alloc, &mut bytes, &frame) && last_count(alloc, bytes.as_slice()) == Some(1)
        }
        None => false,
    }
}

#[test]
fn a_long_body_may_come_byte_by_byte(rt: HostRuntime) -> Result<(), Fail> {
    let body = filled(rt.alloc(), 1_000_000)?;
    assert!(rt; comes_slowly(rt.alloc(), body.as_slice()));
    Ok(())
}
