//! mq_receiver: runs of the receiver end by hand.

use crate::fixture::descriptor;
use mq_base::{Items, QName};
use mq_frame::{Frame, FrameKind, Seen};
use mq_message::{Dest, Ident, Message};
use mq_receiver::{Owed, Receiver, ReceiverDoes, ReceiverOut};
use mq_sync::Unit;
use std::alloc::Global;
use std::test::*;

fn frame(session: u64, kind: FrameKind) -> Seen {
    Seen::Frame(Frame {
        stamp: 1,
        session,
        kind,
    })
}

fn bind(session: u64, last: u32, force: bool) -> Seen {
    frame(session, FrameKind::Bind { last, force })
}

fn end(session: u64, n: u64, count: u32) -> Seen {
    frame(session, FrameKind::End { n, count, last: 2 })
}

fn message(alloc: Global, session: u64, n: u64, index: u32) -> Seen {
    let message = Message {
        ident: Ident {
            manager: 1,
            incarnation: 1,
            number: 1,
        },
        md: descriptor(),
        route: None,
        deadline: None,
        body: Items::new(alloc),
    };
    let dest = Dest {
        queue: QName::blank(),
        qmgr: QName::blank(),
    };
    frame(
        session,
        FrameKind::Msg {
            n,
            index,
            number: index,
            dest,
            message,
        },
    )
}

/// What a receiver sees.
enum See {
    Nothing,
    Spoiled,
    /// BIND: its session, the last number, and whether it is forced.
    Bind(u64, u32, bool),
    /// MSG: its session, n and index.
    Msg(u64, u64, u32),
    /// END: its session, n and how many messages.
    End(u64, u64, u32),
}

fn seen_of(alloc: Global, see: &See) -> Seen {
    match *see {
        See::Nothing => Seen::Nothing,
        See::Spoiled => Seen::Spoiled,
        See::Bind(session, last, force) => bind(session, last, force),
        See::Msg(session, n, index) => message(alloc, session, n, index),
        See::End(session, n, count) => end(session, n, count),
    }
}

/// Takes a turn, if it is to do this.
fn takes(receiver: &mut Receiver, seen: &Seen, does: ReceiverDoes) -> bool {
    if receiver.next(seen, true) != does {
        return false;
    }
    receiver.done(&does, seen, &ReceiverOut::Done);
    true
}

/// A turn: what is seen, and what is done.
type Turn = (See, ReceiverDoes);

/// The first turn, from 0, that is to do something else.
fn first_wrong(alloc: Global, receiver: &mut Receiver, turns: &[Turn]) -> Option<usize> {
    for (place, (see, does)) in turns.iter().enumerate() {
        if !takes(receiver, &seen_of(alloc, see), *does) {
            return Some(place);
        }
    }
    None
}

const ONE: Unit = Unit { session: 1, n: 1 };

/// A session with a unit of two messages, up to its END: the receiver owes ACK.
const TAKES_ONE: [Turn; 7] = [
    (See::Bind(1, 0, false), ReceiverDoes::Bind),
    (See::Nothing, ReceiverDoes::PushOwed),
    (See::Msg(1, 1, 1), ReceiverDoes::Keep),
    (See::Msg(1, 1, 1), ReceiverDoes::Ignore),
    (See::End(1, 1, 2), ReceiverDoes::Ignore),
    (See::Msg(1, 1, 2), ReceiverDoes::Keep),
    (See::End(1, 1, 2), ReceiverDoes::Place(ONE)),
];

const AGAIN: [Turn; 2] = [
    (See::Nothing, ReceiverDoes::PushOwed),
    (See::End(1, 1, 2), ReceiverDoes::Again),
];

#[test]
fn a_unit_is_taken_once(rt: HostRuntime) {
    let mut receiver = Receiver::of(None);
    assert_eq!(rt; first_wrong(rt.alloc(), &mut receiver, &TAKES_ONE), None);
    assert!(rt; receiver.unit == ONE && receiver.last == 2);
    assert!(rt; receiver.owes() == Some(Owed::Ack(ONE)));
    assert_eq!(rt; first_wrong(rt.alloc(), &mut receiver, &AGAIN), None);
    assert!(rt; receiver.owes() == Some(Owed::Ack(ONE)));
}

#[test]
fn an_ack_says_its_unit(rt: HostRuntime) {
    let frame = Owed::Ack(ONE).frame(9);
    assert!(rt; matches!(&frame.kind, FrameKind::Ack { n: 1 }) && frame.session == 1);
}

const OLDER: [Turn; 6] = [
    (See::Bind(2, 0, false), ReceiverDoes::Bind),
    (See::Nothing, ReceiverDoes::PushOwed),
    (See::Msg(1, 1, 1), ReceiverDoes::Ignore),
    (See::End(1, 1, 1), ReceiverDoes::Ignore),
    (See::Bind(1, 0, false), ReceiverDoes::Ignore),
    (See::Bind(2, 0, false), ReceiverDoes::Ignore),
];

#[test]
fn frames_of_an_older_session_are_ignored(rt: HostRuntime) {
    let mut receiver = Receiver::of(None);
    assert_eq!(rt; first_wrong(rt.alloc(), &mut receiver, &OLDER), None);
}

const KEEPS_ONE: [Turn; 3] = [
    (See::Bind(1, 0, false), ReceiverDoes::Bind),
    (See::Nothing, ReceiverDoes::PushOwed),
    (See::Msg(1, 1, 1), ReceiverDoes::Keep),
];

const CLOSED: [Turn; 2] = [
    (See::End(1, 1, 1), ReceiverDoes::PushOwed),
    (See::End(1, 1, 1), ReceiverDoes::Ignore),
];

#[test]
fn a_refused_batch_closes_its_session(rt: HostRuntime) {
    let mut receiver = Receiver::of(None);
    assert_eq!(rt; first_wrong(rt.alloc(), &mut receiver, &KEEPS_ONE), None);
    let out = ReceiverOut::Refused(2085);
    receiver.done(&ReceiverDoes::Place(ONE), &end(1, 1, 1), &out);
    let err = Owed::Err {
        unit: ONE,
        reason: 2085,
    };
    assert!(rt; receiver.owes() == Some(err));
    assert_eq!(rt; first_wrong(rt.alloc(), &mut receiver, &CLOSED), None);
    assert!(rt; !receiver.is_bound() && receiver.unit == Unit::none());
}

const UNFORCED: [Turn; 1] = [(See::Bind(1, 1, false), ReceiverDoes::Bind)];

const FORCED: [Turn; 1] = [(See::Bind(2, 1, true), ReceiverDoes::Bind)];

#[test]
fn bind_takes_over_a_number_that_was_set(rt: HostRuntime) {
    let mut receiver = Receiver::of(None);
    receiver.set_last(4);
    assert_eq!(rt; first_wrong(rt.alloc(), &mut receiver, &UNFORCED), None);
    let status = Owed::Status {
        session: 1,
        unit: Unit::none(),
        last: 4,
    };
    assert!(rt; receiver.owes() == Some(status));
    receiver.halt();
    assert_eq!(rt; first_wrong(rt.alloc(), &mut receiver, &FORCED), None);
    assert_eq!(rt; receiver.last, 1);
}

const SPOILED: [Turn; 4] = [
    (See::Spoiled, ReceiverDoes::PushOwed),
    (See::Spoiled, ReceiverDoes::Close),
    (See::Spoiled, ReceiverDoes::Ignore),
    (See::Nothing, ReceiverDoes::Still),
];

const STOPPED: [Turn; 1] = [(See::Bind(2, 0, false), ReceiverDoes::Ignore)];

const STARTED: [Turn; 1] = [(See::Bind(2, 0, false), ReceiverDoes::Bind)];

#[test]
fn spoiled_frames_close_a_bound_session(rt: HostRuntime) {
    let mut receiver = Receiver::of(None);
    assert_eq!(rt; first_wrong(rt.alloc(), &mut receiver, &TAKES_ONE), None);
    assert_eq!(rt; first_wrong(rt.alloc(), &mut receiver, &SPOILED), None);
    receiver.stop();
    assert_eq!(rt; first_wrong(rt.alloc(), &mut receiver, &STOPPED), None);
    receiver.start();
    assert_eq!(rt; first_wrong(rt.alloc(), &mut receiver, &STARTED), None);
}
