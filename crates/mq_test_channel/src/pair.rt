//! mq_sender and mq_receiver over a cable with faults, turn by turn, as a PUMP takes them.

use crate::fixture::{descriptor, near, offers};
use mq_base::{Items as List, QName};
use mq_cable::{Fault, Item, Items, Near, Offers};
use mq_frame::{Frame, FrameKind, Seen, encode, seen_of};
use mq_message::{Dest, Ident, Message};
use mq_receiver::{Receiver, ReceiverDoes, ReceiverOut};
use mq_sender::{Kept, Limits, Sender, SenderDoes, SenderOut, SenderState};
use mq_sync::{Settle, Stock, Unit};
use std::alloc::Global;
use std::test::*;

/// The two ends of a channel, with what their managers would have of its messages.
#[derive(Drop)]
struct Pair {
    sender: Sender,
    receiver: Receiver,
    /// As the sender sees it.
    wire: Near,
    out: Offers,
    back: Offers,
    /// On the transmission queue, in no batch.
    free: u64,
    /// In the sender's batch.
    held: u64,
    /// Of the unit that the receiver takes.
    kept: u64,
    /// On the target queue.
    arrived: u64,
    stamp: u64,
}

/// A sender with batches of this size.
fn started(batch_size: u32) -> Sender {
    let limits = Limits {
        batch_size,
        sequence_wrap: 999999999,
        short_retry: 1,
    };
    let mut sender = Sender::new();
    sender.start(Kept::of(None), limits);
    sender
}

/// The two ends over a cable with the faults of a case; nothing, where memory lacks.
fn joined(alloc: Global, case: &Case) -> Option<Pair> {
    let wire = near(alloc)?;
    let out = offers(alloc, case.out)?;
    let back = offers(alloc, case.back)?;
    Some(Pair {
        sender: started(case.batch_size),
        receiver: Receiver::of(None),
        wire,
        out,
        back,
        free: case.puts,
        held: 0,
        kept: 0,
        arrived: 0,
        stamp: 0,
    })
}

/// What an end sees of the direction that it reads; nothing at all, where memory lacks.
fn front(alloc: Global, read: &Items) -> Option<Seen> {
    match read.front() {
        None => Some(Seen::Nothing),
        Some(item) => seen_of(alloc, item.bytes.as_slice()).ok(),
    }
}

/// An item is offered; false, where numbers are no longer small.
fn push(offers: &mut Offers, wire: &mut Near, item: Item) -> bool {
    let small = offers.number() < 1000 && item.stamp < 1000;
    if small {
        let _extras = offers.offer(item, wire);
    }
    small
}

/// A frame is offered on the direction that an end writes; false, where memory lacks.
fn offer(alloc: Global, offers: &mut Offers, wire: &mut Near, frame: &Frame) -> bool {
    match encode(alloc, frame) {
        Ok(bytes) => push(
            offers,
            wire,
            Item {
                stamp: frame.stamp,
                bytes,
            },
        ),
        Err(_) => false,
    }
}

/// Which message of its unit waits, from 1.
fn index_of(seen: &Seen) -> u64 {
    match seen {
        Seen::Frame(frame) => match &frame.kind {
            FrameKind::Msg { index, .. } => u64::from(*index),
            _ => 0,
        },
        _ => 0,
    }
}

/// A message without a body.
fn message(alloc: Global) -> Message {
    Message {
        ident: Ident {
            manager: 1,
            incarnation: 1,
            number: 1,
        },
        md: descriptor(),
        route: None,
        deadline: None,
        body: List::new(alloc),
    }
}

impl Pair {
    /// The frame of a sender's turn, if it pushes one.
    fn frame(&self, alloc: Global, does: &SenderDoes) -> Option<Frame> {
        let dest = Dest {
            queue: QName::blank(),
            qmgr: QName::blank(),
        };
        match *does {
            SenderDoes::PushBind => Some(self.sender.bind_frame(self.stamp)),
            SenderDoes::Begin { n, .. } => Some(
                self.sender
                    .message_frame(self.stamp, n, 1, dest, message(alloc)),
            ),
            SenderDoes::PushMsg(index) => Some(
                self.sender
                    .message_frame(self.stamp, self.sender.begun, index, dest, message(alloc)),
            ),
            SenderDoes::PushEnd => Some(self.sender.end_frame(self.stamp)),
            _ => None,
        }
    }

    /// What a sender's turn does to the transmission queue.
    fn moves(&mut self, does: &SenderDoes) {
        match *does {
            SenderDoes::Begin { count, .. } => {
                self.held = u64::from(count);
                self.free = self.free.saturating_sub(self.held);
            }
            SenderDoes::Backout(_)
            | SenderDoes::Bound {
                settle: Some(Settle::Backout),
                ..
            } => {
                self.free = self.free.saturating_add(self.held);
                self.held = 0;
            }
            _ => {}
        }
    }

    /// Pushes the frame of a sender's turn, if it pushes one; false, where memory lacks.
    fn pushes(&mut self, alloc: Global, does: &SenderDoes) -> bool {
        match self.frame(alloc, does) {
            Some(frame) => offer(alloc, &mut self.out, &mut self.wire, &frame),
            None => true,
        }
    }

    /// What the sender's table says of a turn; Still, where numbers are no longer small.
    fn says(&self, seen: &Seen) -> SenderDoes {
        let stock = Stock {
            enabled: true,
            expired: false,
            free: self.free,
        };
        if self.sender.kept.session > 9 || self.sender.begun > 9 || self.stamp > 900 {
            return SenderDoes::Still;
        }
        self.sender.next(seen, &stock)
    }

    /// A turn of the sender that does this.
    fn sent(&mut self, alloc: Global, seen: &Seen, does: &SenderDoes) -> bool {
        self.stamp = self.stamp.saturating_add(1);
        if !self.pushes(alloc, does) {
            return false;
        }
        if !matches!(seen, Seen::Nothing) {
            let _item = self.wire.read.pop();
        }
        self.moves(does);
        self.sender.done(does, &SenderOut::Done);
        true
    }

    /// A turn of the sender; false where nothing changed, or memory lacks.
    fn sends(&mut self, alloc: Global) -> bool {
        match front(alloc, &self.wire.read) {
            Some(seen) => {
                let does = self.says(&seen);
                does != SenderDoes::Still && self.sent(alloc, &seen, &does)
            }
            None => false,
        }
    }

    /// Pushes what the receiver owes; false, where memory lacks.
    fn answers(&mut self, alloc: Global) -> bool {
        match self.receiver.owes() {
            Some(owed) => {
                let frame = owed.frame(self.stamp);
                std::mem::swap(&mut self.wire.read, &mut self.wire.write);
                let offered = offer(alloc, &mut self.back, &mut self.wire, &frame);
                std::mem::swap(&mut self.wire.read, &mut self.wire.write);
                offered
            }
            None => false,
        }
    }

    /// What a receiver's turn makes of the frame that it takes.
    fn takes(&mut self, seen: &Seen, does: &ReceiverDoes) {
        let _item = self.wire.write.pop();
        match *does {
            ReceiverDoes::Keep => self.kept = index_of(seen),
            ReceiverDoes::Place(_) => {
                self.arrived = self.arrived.saturating_add(self.kept);
                self.kept = 0;
            }
            _ => {}
        }
    }

    /// A turn of the receiver that does this.
    fn received(&mut self, alloc: Global, seen: &Seen, does: &ReceiverDoes) -> bool {
        self.stamp = self.stamp.saturating_add(1);
        if *does == ReceiverDoes::PushOwed {
            if !self.answers(alloc) {
                return false;
            }
        } else {
            self.takes(seen, does);
        }
        self.receiver.done(does, seen, &ReceiverOut::Done);
        true
    }

    /// A turn of the receiver; false where nothing changed, or memory lacks.
    fn receives(&mut self, alloc: Global) -> bool {
        match front(alloc, &self.wire.write) {
            Some(seen) => {
                let does = self.receiver.next(&seen, true);
                does != ReceiverDoes::Still
                    && self.stamp <= 900
                    && self.received(alloc, &seen, &does)
            }
            None => false,
        }
    }

    /// A round of at most so many turns, the sender's first; a timeout where neither changed anything. How many were taken.
    fn round(&mut self, alloc: Global, most: u32) -> u32 {
        let mut turns = 0u32;
        if most > 0 && self.sends(alloc) {
            turns = 1;
        }
        if most > turns && self.receives(alloc) {
            turns = turns.saturating_add(1);
        }
        if most > 0 && turns == 0 && self.sender.timeout() {
            turns = 1;
        }
        turns
    }

    /// So many turns at most, round by round. How many were taken.
    fn pump(&mut self, alloc: Global, most: u32) -> u32 {
        let mut turns = 0u32;
        for _ in 0..200 {
            let taken = self.round(alloc, most.saturating_sub(turns));
            if taken == 0 {
                break;
            }
            turns = turns.saturating_add(taken);
        }
        turns
    }
}

/// Faults of the cable, how many messages in batches of what size, and how many turns they take.
struct Case {
    out: &'static [Fault],
    back: &'static [Fault],
    puts: u64,
    batch_size: u32,
    turns: u32,
    /// The last unit that was committed, by session and number.
    last: Unit,
}

const CASES: [Case; 6] = [
    Case {
        out: &[],
        back: &[],
        puts: 1,
        batch_size: 1,
        turns: 12,
        last: Unit { session: 1, n: 1 },
    },
    Case {
        out: &[],
        back: &[],
        puts: 2,
        batch_size: 1,
        turns: 19,
        last: Unit { session: 1, n: 2 },
    },
    // one batch of two: a message more is pushed and kept
    Case {
        out: &[],
        back: &[],
        puts: 2,
        batch_size: 2,
        turns: 14,
        last: Unit { session: 1, n: 1 },
    },
    // the ACK is lost: a timeout, a second session, whose STATUS names the unit
    Case {
        out: &[],
        back: &[Fault::Drop(2)],
        puts: 1,
        batch_size: 1,
        turns: 17,
        last: Unit { session: 1, n: 1 },
    },
    // the END is lost: a timeout, a second session, and the batch anew
    Case {
        out: &[Fault::Drop(3)],
        back: &[],
        puts: 1,
        batch_size: 1,
        turns: 22,
        last: Unit { session: 2, n: 1 },
    },
    // a copy of the message and the END come late, after the second session's BIND
    Case {
        out: &[Fault::Copy(2, 4), Fault::Late(3, 4)],
        back: &[],
        puts: 1,
        batch_size: 1,
        turns: 24,
        last: Unit { session: 2, n: 1 },
    },
];

/// Whether all of a case's messages have arrived once, and both ends know it.
fn is_done(pair: &Pair, case: &Case) -> bool {
    pair.arrived == case.puts
        && pair.free == 0
        && pair.receiver.unit == case.last
        && u64::from(pair.sender.kept.last) == case.puts
        && pair.sender.state == SenderState::Running
}

/// Whether a case takes its turns and is done then.
fn holds(alloc: Global, case: &Case) -> bool {
    match joined(alloc, case) {
        Some(mut pair) => pair.pump(alloc, 100) == case.turns && is_done(&pair, case),
        None => false,
    }
}

#[test]
fn messages_take_the_worked_turns_and_arrive_once(rt: HostRuntime) {
    for (row, case) in CASES.iter().enumerate() {
        assert!(rt; holds(rt.alloc(), case), "case {row}");
    }
}

/// How many turns are taken at most, how many there are, and whether the sender's unit is in doubt then.
const DOUBTS: [(u32, u32, bool); 2] = [(10, 10, true), (100, 2, false)];

/// Whether a pair takes these turns, and its message has arrived.
fn stops(alloc: Global, pair: &mut Pair, most: u32, turns: u32, doubt: bool) -> bool {
    pair.pump(alloc, most) == turns
        && pair.sender.kept.doubt.is_some() == doubt
        && pair.arrived == 1
}

/// Whether one message, with no faults, takes the turns above.
fn doubts(alloc: Global, case: &Case) -> bool {
    match joined(alloc, case) {
        Some(mut pair) => {
            let mut met = true;
            for (most, turns, doubt) in &DOUBTS {
                met = met && stops(alloc, &mut pair, *most, *turns, *doubt);
            }
            met
        }
        None => false,
    }
}

#[test]
fn a_unit_is_in_doubt_until_its_acknowledgement(rt: HostRuntime) {
    assert!(rt; doubts(rt.alloc(), &CASES[0]));
}
