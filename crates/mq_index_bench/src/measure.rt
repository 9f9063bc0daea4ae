//! A queue is filled, has gets by CorrelId with a put behind each, is browsed and is drained behind a held row.
ghost use Rattle.std.specs.Prelude.{◌≡◌, ◌+◌, ◌<◌, ◌≤◌};

use mq_base::NoMemory;
use mq_message::{Bytes, Holder, Ident, Md, Message, Want};
use mq_queue::Queue;
use std::alloc::Global;
use std::rt::Clock;
use std::time::{SystemTime, UNIX_EPOCH};

/// What was counted, and the times in microseconds.
#[derive(Clone, Copy)]
pub struct Measured {
    /// How many gets by CorrelId found a row.
    pub got: u64,
    /// How many rows a browse saw.
    pub seen: u64,
    /// How many rows were taken from behind the held one.
    pub drained: u64,
    pub fill_time: u64,
    pub get_time: u64,
    pub browse_time: u64,
    pub drain_time: u64,
}

/// The moment in microseconds since 1970, or 0 where the clock tells none.
fn moment(clock: &impl Clock) -> u64 {
    match SystemTime::now(clock) {
        Ok(now) => match now.duration_since(UNIX_EPOCH) {
            Ok(since) => u64::try_from(since.as_micros()).unwrap_or(0),
            Err(_) => 0,
        },
        Err(_) => 0,
    }
}

/// An id of its own for each number below 16,000,000.
fn id_of(number: u64) -> [u8; 24] {
    let mut id = [0; 24];
    id[0] = (number % 251) as u8;
    id[1] = (number / 251 % 251) as u8;
    id[2] = (number / 63001 % 251) as u8;
    id
}

fn message(alloc: Global, number: u64, correl: u64) -> Message {
    let md = Md {
        report: 0,
        msg_type: 8,
        expiry: -1,
        feedback: 0,
        encoding: 273,
        coded_char_set_id: 1208,
        format: *b"MQSTR   ",
        priority: 5,
        persistence: 1,
        msg_id: id_of(number),
        correl_id: id_of(correl),
        backout_count: 0,
        reply_to_q: [b' '; 48],
        reply_to_q_mgr: [b' '; 48],
        user_identifier: [b' '; 12],
        accounting_token: [0; 32],
        appl_identity_data: [b' '; 32],
        put_appl_type: 6,
        put_appl_name: [b' '; 28],
        put_date: *b"20260101",
        put_time: *b"12345678",
        appl_origin_data: [b' '; 4],
    };
    Message {
        ident: Ident {
            manager: 1,
            incarnation: 1,
            number,
        },
        md,
        route: None,
        deadline: None,
        body: Bytes::new(alloc),
    }
}

/// Puts a message, where its ident isn't there.
#[tactic(auto, using(mq_queue::proofs::QueueLaws::absent))]
fn put<Q: Queue>(queue: &mut Q, message: Message) -> Result<(), NoMemory>
    requires { Q.arrivals queue.old < 1000000 }
    ensures { Q.arrivals queue.new ≤ Q.arrivals queue.old + 1 }
{
    match queue.row(&message.ident) {
        Some(_) => Ok(()),
        None => {
            queue.reserve(1)?;
            queue.insert(message);
            Ok(())
        }
    }
}

/// Takes the first row with the ids asked for: it is held, and removed.
fn get<Q: Queue>(queue: &mut Q, want: &Want) -> bool
    ensures { Q.arrivals queue.new ≡ Q.arrivals queue.old }
{
    match queue.first(want, None) {
        None => false,
        Some((_, ident)) => {
            queue.hold(&ident, &Holder::Unit(1));
            queue.remove(&ident).is_some()
        }
    }
}

fn fill<Q: Queue>(alloc: Global, queue: &mut Q, rows: u64) -> Result<(), NoMemory>
    requires empty { Q.arrivals queue.old ≡ 0 }
    requires few { rows ≤ 400000 }
    ensures { Q.arrivals queue.new ≤ rows }
{
    for number in 0..rows {
        put(queue, message(alloc, number, number))?;
    }
    Ok(())
}

/// Gets by CorrelIds that a linear congruential generator gives, each with a put of the same CorrelId behind it.
fn turn_over<Q: Queue>(alloc: Global, queue: &mut Q, rows: u64, turns: u64) -> Result<u64, NoMemory>
    requires some { 0 < rows }
    requires few { rows ≤ 400000 }
    requires turns { turns ≤ 400000 }
    requires arrivals { Q.arrivals queue.old ≤ 400000 }
    ensures { Q.arrivals queue.new ≤ 400000 + turns }
{
    let mut dice: u64 = 1;
    let mut got: u64 = 0;
    for turn in 0..turns {
        dice = dice
            .wrapping_mul(6364136223846793005)
            .wrapping_add(1442695040888963407);
        let correl = (dice >> 33) % rows;
        let want = Want {
            msg_id: None,
            correl_id: Some(id_of(correl)),
        };
        if get(queue, &want) {
            got = got.wrapping_add(1);
        }
        put(queue, message(alloc, rows + turn, correl))?;
    }
    Ok(got)
}

fn browse<Q: Queue>(queue: &Q, rows: u64) -> u64 {
    let mut after = None;
    let mut seen: u64 = 0;
    for _ in 0..rows {
        match queue.next_row(after) {
            None => return seen,
            Some(row) => {
                seen = seen.wrapping_add(1);
                after = Some(row.place);
            }
        }
    }
    seen
}

/// The first row is held, and all others are taken in order.
fn drain<Q: Queue>(queue: &mut Q, rows: u64) -> u64 {
    let any = Want {
        msg_id: None,
        correl_id: None,
    };
    if let Some((_, ident)) = queue.first(&any, None) {
        queue.hold(&ident, &Holder::Unit(2));
    }
    let mut drained: u64 = 0;
    for _ in 0..rows {
        if get(queue, &any) {
            drained = drained.wrapping_add(1);
        }
    }
    drained
}

/// Measures a queue of so many rows, each with a CorrelId of its own.
pub fn measure<Q: Queue + Drop>(
    alloc: Global,
    clock: &impl Clock,
    rows: u64,
    turns: u64,
) -> Result<Measured, NoMemory>
    requires some { 0 < rows }
    requires few { rows ≤ 400000 }
    requires turns { turns ≤ 400000 }
{
    let mut queue = Q::new(alloc, true);
    let begun = moment(clock);
    fill(alloc, &mut queue, rows)?;
    let filled = moment(clock);
    let got = turn_over(alloc, &mut queue, rows, turns)?;
    let turned = moment(clock);
    let seen = browse(&queue, rows);
    let browsed = moment(clock);
    let drained = drain(&mut queue, rows);
    let ended = moment(clock);
    Ok(Measured {
        got,
        seen,
        drained,
        fill_time: filled.wrapping_sub(begun),
        get_time: turned.wrapping_sub(filled),
        browse_time: browsed.wrapping_sub(turned),
        drain_time: ended.wrapping_sub(browsed),
    })
}
