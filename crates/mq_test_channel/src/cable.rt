//! mq_cable: what scripted faults make of the frames offered.

use crate::fixture::{near, offers};
use mq_cable::{Fault, Item, Near, Offers, Wire};
use mq_message::Bytes;
use std::alloc::Global;
use std::test::*;

/// A frame whose first byte is its number.
fn frame(alloc: Global, number: u8) -> Option<Item> {
    match Bytes::from_slice(alloc, &[number, 7]) {
        Ok(bytes) => Some(Item {
            stamp: u64::from(number),
            bytes,
        }),
        Err(_) => None,
    }
}

/// Offers a frame; how many extra items are pushed with it, and nothing where it is refused.
fn offer(offers: &mut Offers, near: &mut Near, item: Option<Item>) -> Option<u32> {
    match item {
        Some(item) if offers.number() < 1000 && item.stamp < 1000 => offers.offer(item, near).ok(),
        _ => None,
    }
}

/// Offers so many frames, up to the first that is refused.
fn offer_all(alloc: Global, offers: &mut Offers, near: &mut Near, count: u8) {
    for number in 1..=count {
        if offer(offers, near, frame(alloc, number)).is_none() {
            break;
        }
    }
}

/// Whether an item begins with this byte.
fn begins(item: Option<Item>, byte: u8) -> bool {
    match item {
        Some(item) => item.bytes.as_slice().first() == Some(&byte),
        None => false,
    }
}

/// Whether these are the first bytes of all that was pushed.
fn were_pushed(near: &mut Near, wanted: &[u8]) -> bool {
    for byte in wanted {
        if !begins(near.write.pop(), *byte) {
            return false;
        }
    }
    near.write.is_empty()
}

/// Faults, how many frames are offered, and the first bytes of all that is pushed.
const ROWS: [(&[Fault], u8, &[u8]); 9] = [
    (&[], 3, &[1, 2, 3]),
    (&[Fault::Drop(2)], 3, &[1, 3]),
    (&[Fault::Late(2, 3)], 4, &[1, 3, 2, 4]),
    (&[Fault::Late(1, 3)], 2, &[2]),
    (&[Fault::Copy(2, 4)], 5, &[1, 2, 3, 4, 2, 5]),
    (&[Fault::Copy(2, 2)], 3, &[1, 2, 2, 3]),
    (&[Fault::Spoil(2)], 3, &[1, 255, 3]),
    (
        &[Fault::Copy(2, 4), Fault::Late(3, 4)],
        5,
        &[1, 2, 4, 2, 3, 5],
    ),
    (&[Fault::Drop(3), Fault::Late(1, 3)], 4, &[2, 1, 4]),
];

/// Whether a row holds on this cable.
fn holds_on(alloc: Global, near: &mut Near, faults: &[Fault], count: u8, wanted: &[u8]) -> bool {
    match offers(alloc, faults) {
        Some(mut offers) => {
            offer_all(alloc, &mut offers, near, count);
            were_pushed(near, wanted)
        }
        None => false,
    }
}

/// Whether a row holds.
fn holds(alloc: Global, faults: &[Fault], count: u8, wanted: &[u8]) -> bool {
    match near(alloc) {
        Some(mut near) => holds_on(alloc, &mut near, faults, count, wanted),
        None => false,
    }
}

#[test]
fn faults_make_this_of_the_frames(rt: HostRuntime) {
    for (row, (faults, count, wanted)) in ROWS.iter().enumerate() {
        assert!(rt; holds(rt.alloc(), faults, *count, wanted), "row {row}");
    }
}

/// The first of 65 frames that is not pushed alone.
fn first_refused(alloc: Global, offers: &mut Offers, near: &mut Near) -> u8 {
    for number in 1..=65u8 {
        if offer(offers, near, frame(alloc, number)) != Some(0) {
            return number;
        }
    }
    0
}

/// Whether so many frames stand on a direction, two pushes found it full, and nothing waits on the other.
fn is_full(near: &mut Near, count: usize) -> bool {
    near.write.len() == count
        && near.fulls == 2
        && !near.fetch()
        && near.empties == 1
        && near.pop().is_none()
}

/// Whether of 65 frames the last is refused, and the others stand there without the copy of the last of them.
fn fills(alloc: Global, near: &mut Near) -> bool {
    match offers(alloc, &[Fault::Copy(64, 64)]) {
        Some(mut offers) => {
            first_refused(alloc, &mut offers, near) == 65
                && offers.number() == 64
                && is_full(near, 64)
        }
        None => false,
    }
}

#[test]
fn a_full_direction_loses_extra_items_and_refuses_frames(rt: HostRuntime) {
    match near(rt.alloc()) {
        Some(mut near) => assert!(rt; fills(rt.alloc(), &mut near)),
        None => assert!(rt; false, "no memory"),
    }
}
