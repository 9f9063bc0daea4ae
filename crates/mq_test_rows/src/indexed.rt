//! mq_queue and mq_index: the plain queue and the indexed one give the same answers to the same random steps.

ghost use Rattle.std.specs.Prelude.{◌≡◌, ◌+◌, ◌<◌, ◌≤◌};

use crate::fixture::descriptor;
use mq_base::NoMemory;
use mq_index::IndexedQueue;
use mq_message::{Bytes, Holder, Ident, Md, Message, Place, Want};
use mq_queue::{PlainQueue, Queue, Row};
use std::alloc::Global;

/// A linear congruential generator.
#[derive(Drop)]
struct Dice {
    state: u64,
}

impl Dice {
    /// A number below ten.
    fn throw(&mut self) -> u64
        ensures { result < 10 }
    {
        self.state = self
            .state
            .wrapping_mul(6364136223846793005)
            .wrapping_add(1442695040888963407);
        (self.state >> 33) % 10
    }
}

/// One of three ids.
fn id_of(thrown: u64) -> [u8; 24] {
    if thrown < 4 {
        [1; 24]
    } else if thrown < 7 {
        [2; 24]
    } else {
        [3; 24]
    }
}

fn some_id(dice: &mut Dice) -> Option<[u8; 24]> {
    let thrown = dice.throw();
    if thrown < 4 {
        None
    } else {
        Some(id_of(thrown))
    }
}

fn some_want(dice: &mut Dice) -> Want {
    Want {
        msg_id: some_id(dice),
        correl_id: some_id(dice),
    }
}

/// An ident that came in, or will.
fn some_ident(dice: &mut Dice) -> Ident {
    let tens = dice.throw();
    Ident {
        manager: 1,
        incarnation: 1,
        number: tens * 10 + dice.throw(),
    }
}

fn some_place(dice: &mut Dice) -> Option<Place> {
    let lane = dice.throw();
    let tens = dice.throw();
    let arrival = tens * 10 + dice.throw();
    if arrival < 20 {
        None
    } else {
        Some(Place {
            lane: lane as u8,
            arrival,
        })
    }
}

fn some_holder(dice: &mut Dice) -> Holder {
    Holder::Unit(dice.throw())
}

fn some_message(alloc: Global, dice: &mut Dice) -> Message {
    let ident = some_ident(dice);
    let md = Md {
        priority: dice.throw() as i32,
        persistence: if dice.throw() < 2 { 0 } else { 1 },
        msg_id: id_of(dice.throw()),
        correl_id: id_of(dice.throw()),
        ..descriptor()
    };
    Message {
        ident,
        md,
        route: None,
        deadline: None,
        body: Bytes::new(alloc),
    }
}

/// A row's ident, its place, its backouts and whether it is free, as one number; 0 where there is no row.
fn told_of(row: Option<&Row>) -> u64 {
    match row {
        None => 0,
        Some(row) => {
            let free = match row.by {
                None => 1,
                Some(_) => 2,
            };
            let back = if row.message.md.backout_count > 0 {
                1
            } else {
                0
            };
            row.message
                .ident
                .number
                .wrapping_mul(1000)
                .wrapping_add(row.place.arrival)
                .wrapping_mul(100)
                .wrapping_add(row.place.lane as u64)
                .wrapping_mul(4)
                .wrapping_add(free)
                .wrapping_mul(2)
                .wrapping_add(back)
        }
    }
}

fn told_first(found: Option<(Place, Ident)>) -> u64 {
    match found {
        None => 0,
        Some((place, ident)) => place.arrival.wrapping_mul(1000).wrapping_add(ident.number),
    }
}

fn told_bool(done: bool) -> u64 {
    if done { 2 } else { 1 }
}

fn told_message(message: Option<Message>) -> u64 {
    match message {
        None => 0,
        Some(message) => message.ident.number,
    }
}

/// The answer of a call that lacks memory; no other answers so.
const LACKS: u64 = 1000000;

/// Puts a message, where its ident isn't there.
#[tactic(auto, using(mq_queue::proofs::QueueLaws::absent))]
fn put<Q: Queue>(queue: &mut Q, message: Message) -> u64
    requires { Q.arrivals queue.old < 1000 }
    ensures { Q.arrivals queue.new ≤ Q.arrivals queue.old + 1 }
{
    match queue.row(&message.ident) {
        Some(_) => 1,
        None => match queue.reserve(1) {
            Ok(()) => {
                queue.insert(message);
                2
            }
            Err(NoMemory) => LACKS,
        },
    }
}

/// A call that changes rows.
fn change<Q: Queue>(queue: &mut Q, dice: &mut Dice, kind: u64) -> u64
    ensures { Q.arrivals queue.new ≡ Q.arrivals queue.old }
{
    let ident = some_ident(dice);
    let by = some_holder(dice);
    if kind == 3 {
        told_bool(queue.hold(&ident, &by))
    } else if kind == 4 {
        told_bool(queue.release(&ident, dice.throw() < 5))
    } else if kind == 5 {
        told_message(queue.remove(&ident))
    } else if dice.throw() == 0 {
        queue.keep_lasting();
        1
    } else {
        queue.free_units();
        2
    }
}

/// What is found behind a place.
fn found<Q: Queue>(queue: &Q, want: &Want, after: Option<Place>, least: u8) -> [u64; 6] {
    let there = match after {
        None => 0,
        Some(place) => told_of(queue.at(place)),
    };
    [
        told_first(queue.first(want, after)),
        told_of(queue.first_row(want, after)),
        told_of(queue.next_row(after)),
        there,
        queue.len(),
        queue.free(least),
    ]
}

/// What is found.
fn look<Q: Queue>(queue: &Q, dice: &mut Dice) -> [u64; 6] {
    let want = some_want(dice);
    let after = some_place(dice);
    let least = dice.throw() as u8;
    found(queue, &want, after, least)
}

/// The answer of one random step's call, 0 where it makes none, and what is found then.
fn step<Q: Queue>(alloc: Global, queue: &mut Q, dice: &mut Dice) -> (u64, [u64; 6])
    requires { Q.arrivals queue.old < 1000 }
    ensures { Q.arrivals queue.new ≤ Q.arrivals queue.old + 1 }
{
    let kind = dice.throw();
    let answer = if kind < 3 {
        put(queue, some_message(alloc, dice))
    } else if kind < 7 {
        change(queue, dice, kind)
    } else {
        0
    };
    (answer, look(queue, dice))
}

fn are_same(told: &(u64, [u64; 6]), other: &(u64, [u64; 6])) -> bool {
    told.0 != LACKS && told.0 == other.0 && told.1 == other.1
}

/// The first of the random steps that two queues answer otherwise, from 0, or for which memory lacks.
fn first_other<P: Queue, Q: Queue>(
    alloc: Global,
    plain: &mut P,
    indexed: &mut Q,
    seed: u64,
) -> Option<u64>
    requires plain { P.arrivals plain.old ≡ 0 }
    requires indexed { Q.arrivals indexed.old ≡ 0 }
{
    let mut dice = Dice { state: seed };
    let mut again = Dice { state: seed };
    for turn in 0..400u64 {
        let told = step(alloc, plain, &mut dice);
        let other = step(alloc, indexed, &mut again);
        if !are_same(&told, &other) {
            return Some(turn);
        }
    }
    None
}

/// Whether two queues have the same rows, in order.
fn have_same_rows<P: Queue, Q: Queue>(plain: &P, indexed: &Q) -> bool {
    let mut after = None;
    for _ in 0..200u64 {
        if told_of(plain.next_row(after)) != told_of(indexed.next_row(after)) {
            return false;
        }
        match plain.next_row(after) {
            None => return true,
            Some(row) => after = Some(row.place),
        }
    }
    false
}

/// Whether both queues answer alike to the random steps of a seed, and have the same rows then.
fn answer_alike(alloc: Global, seed: u64) -> bool {
    let mut dice = Dice { state: seed };
    let by_priority = dice.throw() < 7;
    let mut plain = PlainQueue::new(alloc, by_priority);
    let mut indexed = IndexedQueue::new(alloc, by_priority);
    first_other(alloc, &mut plain, &mut indexed, dice.state).is_none()
        && have_same_rows(&plain, &indexed)
}

#[test]
fn both_queues_answer_alike(rt: HostRuntime) {
    for seed in 1..=8u64 {
        assert!(rt; answer_alike(rt.alloc(), seed), "seed {seed}");
    }
}
