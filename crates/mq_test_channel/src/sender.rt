//! mq_sender: runs of the sender end by hand.

use mq_frame::{Frame, FrameKind, Seen};
use mq_sender::{Kept, Limits, Sender, SenderDoes, SenderOut, SenderState, StopCause};
use mq_sync::{Doubt, Settle, Stock};
use std::test::*;

const LIMITS: Limits = Limits {
    batch_size: 2,
    sequence_wrap: 999999999,
    short_retry: 1,
};

fn started() -> Sender {
    let mut sender = Sender::new();
    sender.start(Kept::of(None), LIMITS);
    sender
}

/// What a sender sees.
enum See {
    Nothing,
    /// STATUS: its session, the last unit's session and n, and the last number.
    Status(u64, u64, u64, u32),
    /// ACK of the session 1, with its n.
    Ack(u64),
    /// ERR of the unit 1.1, with its reason.
    Err(u32),
}

fn frame(session: u64, kind: FrameKind) -> Seen {
    Seen::Frame(Frame {
        stamp: 1,
        session,
        kind,
    })
}

fn status(session: u64, unit_session: u64, unit_n: u64, last: u32) -> Seen {
    let kind = FrameKind::Status {
        unit_session,
        unit_n,
        last,
    };
    frame(session, kind)
}

fn seen_of(see: &See) -> Seen {
    match *see {
        See::Nothing => Seen::Nothing,
        See::Status(session, unit_session, unit_n, last) => {
            status(session, unit_session, unit_n, last)
        }
        See::Ack(n) => frame(1, FrameKind::Ack { n }),
        See::Err(reason) => frame(1, FrameKind::Err { n: 1, reason }),
    }
}

fn stock(free: u64) -> Stock {
    Stock {
        enabled: true,
        expired: false,
        free,
    }
}

/// Takes a turn, if it is to do this and numbers are small.
fn takes(sender: &mut Sender, seen: &Seen, free: u64, does: SenderDoes) -> bool {
    if sender.kept.session >= 9 || sender.begun >= 9 {
        return false;
    }
    if sender.next(seen, &stock(free)) != does {
        return false;
    }
    sender.done(&does, &SenderOut::Done);
    true
}

/// A turn: what is seen, how many messages are free, and what is done.
type Turn = (See, u64, SenderDoes);

/// The first turn, from 0, that is to do something else.
fn first_wrong(sender: &mut Sender, turns: &[Turn]) -> Option<usize> {
    for (place, (see, free, does)) in turns.iter().enumerate() {
        if !takes(sender, &seen_of(see), *free, *does) {
            return Some(place);
        }
    }
    None
}

/// A bind that is answered for the first time.
const NEW: SenderDoes = SenderDoes::Bound {
    settle: None,
    partner: 0,
};

/// A session and a batch of two messages, up to its commit.
const TWO: [Turn; 10] = [
    (See::Nothing, 3, SenderDoes::HardenSession(1)),
    (See::Nothing, 3, SenderDoes::PushBind),
    (See::Nothing, 3, SenderDoes::Still),
    (See::Status(1, 0, 0, 0), 3, NEW),
    (See::Nothing, 3, SenderDoes::Begin { n: 1, count: 2 }),
    (See::Nothing, 1, SenderDoes::PushMsg(2)),
    (See::Nothing, 1, SenderDoes::Prepare),
    (See::Nothing, 1, SenderDoes::PushEnd),
    (See::Ack(2), 1, SenderDoes::Ignore),
    (See::Ack(1), 1, SenderDoes::Commit),
];

const NEXT: [Turn; 1] = [(See::Nothing, 1, SenderDoes::Begin { n: 2, count: 1 })];

#[test]
fn two_messages_go_in_one_batch(rt: HostRuntime) {
    let mut sender = started();
    assert_eq!(rt; first_wrong(&mut sender, &TWO), None);
    assert_eq!(rt; sender.kept.last, 2);
    assert_eq!(rt; first_wrong(&mut sender, &NEXT), None);
    assert_eq!(rt; sender.next_number(), 4);
}

/// A session and a batch of one message, up to the END.
const ONE: [Turn; 6] = [
    (See::Nothing, 1, SenderDoes::HardenSession(1)),
    (See::Nothing, 1, SenderDoes::PushBind),
    (See::Status(1, 0, 0, 0), 1, NEW),
    (See::Nothing, 1, SenderDoes::Begin { n: 1, count: 1 }),
    (See::Nothing, 0, SenderDoes::Prepare),
    (See::Nothing, 0, SenderDoes::PushEnd),
];

/// A second session, whose STATUS names the unit.
const MADE_GOOD: [Turn; 4] = [
    (See::Nothing, 0, SenderDoes::HardenSession(2)),
    (See::Nothing, 0, SenderDoes::PushBind),
    (
        See::Status(2, 1, 1, 1),
        0,
        SenderDoes::Bound {
            settle: Some(Settle::Commit),
            partner: 1,
        },
    ),
    (See::Nothing, 0, SenderDoes::Still),
];

#[test]
fn a_lost_answer_is_made_good_by_the_next_status(rt: HostRuntime) {
    let mut sender = started();
    assert_eq!(rt; first_wrong(&mut sender, &ONE), None);
    assert!(rt; sender.timeout());
    assert_eq!(rt; first_wrong(&mut sender, &MADE_GOOD), None);
    assert!(rt; sender.kept.last == 1 && sender.tries == 0);
}

/// A second session, whose STATUS doesn't name the unit, and its batch anew.
const ANEW: [Turn; 6] = [
    (See::Nothing, 1, SenderDoes::HardenSession(2)),
    (See::Nothing, 1, SenderDoes::PushBind),
    (
        See::Status(2, 0, 0, 0),
        1,
        SenderDoes::Bound {
            settle: Some(Settle::Backout),
            partner: 0,
        },
    ),
    (See::Nothing, 1, SenderDoes::Begin { n: 1, count: 1 }),
    (See::Nothing, 0, SenderDoes::Prepare),
    (See::Nothing, 0, SenderDoes::PushEnd),
];

#[test]
fn a_lost_end_is_backed_out_and_sent_anew(rt: HostRuntime) {
    let mut sender = started();
    assert_eq!(rt; first_wrong(&mut sender, &ONE), None);
    let kept = sender.kept;
    sender.halt();
    sender.start(kept, LIMITS);
    assert_eq!(rt; first_wrong(&mut sender, &ANEW), None);
    assert!(rt; sender.unit().session == 2 && sender.unit().n == 1);
}

const REFUSED: [Turn; 1] = [(See::Err(2085), 0, SenderDoes::Backout(2085))];

#[test]
fn a_sender_stops_for_an_error_of_its_partner(rt: HostRuntime) {
    let mut sender = started();
    assert_eq!(rt; first_wrong(&mut sender, &ONE), None);
    assert_eq!(rt; first_wrong(&mut sender, &REFUSED), None);
    assert!(rt; sender.state == SenderState::Stopped(StopCause::Reason(2085)));
}

/// A session whose STATUS has another number.
const APART: [Turn; 3] = [
    (See::Nothing, 0, SenderDoes::HardenSession(1)),
    (See::Nothing, 0, SenderDoes::PushBind),
    (
        See::Status(1, 0, 0, 4),
        0,
        SenderDoes::Bound {
            settle: None,
            partner: 4,
        },
    ),
];

#[test]
fn a_sender_stops_for_another_number(rt: HostRuntime) {
    let mut sender = started();
    assert_eq!(rt; first_wrong(&mut sender, &APART), None);
    let cause = StopCause::SequenceError { own: 0, partner: 4 };
    assert!(rt; sender.state == SenderState::Stopped(cause));
}

#[test]
fn a_sender_stops_for_want_of_room(rt: HostRuntime) {
    let mut sender = started();
    sender.done(&SenderDoes::Prepare, &SenderOut::NoRoom);
    assert!(rt; sender.state == SenderState::Stopped(StopCause::Reason(2102)));
}

#[test]
fn a_sender_gives_up_when_all_tries_are_used(rt: HostRuntime) {
    let mut sender = started();
    assert!(rt; !sender.timeout());
    sender.state = SenderState::Binding;
    assert!(rt; sender.timeout() && sender.is_running());
    sender.state = SenderState::Binding;
    assert!(rt; sender.timeout() && !sender.is_running());
    assert!(rt; sender.state == SenderState::Stopped(StopCause::NoAnswer));
}

/// The last number, whether it is forced, the session and the stamp of a BIND.
fn is_bind(frame: &Frame, last: u32, force: bool, session: u64, stamp: u64) -> bool {
    match &frame.kind {
        FrameKind::Bind { last: l, force: f } => {
            *l == last && *f == force && frame.session == session && frame.stamp == stamp
        }
        _ => false,
    }
}

#[test]
fn a_bind_says_what_is_kept(rt: HostRuntime) {
    let mut sender = started();
    sender.kept.last = 7;
    sender.kept.force = true;
    sender.kept.session = 3;
    assert!(rt; is_bind(&sender.bind_frame(9), 7, true, 3, 9));
}

/// The unit, its messages and its last number that an END says.
fn is_end(frame: &Frame, n: u64, count: u32, last: u32) -> bool {
    match &frame.kind {
        FrameKind::End {
            n: m,
            count: c,
            last: l,
        } => *m == n && *c == count && *l == last,
        _ => false,
    }
}

/// A sender that kept 7 in the session 3 and has prepared a batch of two.
fn prepared() -> Sender {
    let mut sender = started();
    sender.kept.last = 7;
    sender.kept.session = 3;
    for does in [
        SenderDoes::Begin { n: 1, count: 2 },
        SenderDoes::PushMsg(2),
        SenderDoes::Prepare,
    ] {
        sender.done(&does, &SenderOut::Done);
    }
    sender
}

#[test]
fn an_end_says_what_is_sent_and_a_stop_leaves_it_in_doubt(rt: HostRuntime) {
    let mut sender = prepared();
    assert!(rt; is_end(&sender.end_frame(10), 1, 2, 9));
    sender.stop();
    assert!(rt; sender.state == SenderState::Stopped(StopCause::Operator));
    let doubt = Doubt {
        unit: sender.unit(),
        last: 9,
    };
    assert!(rt; sender.kept.doubt == Some(doubt));
}
