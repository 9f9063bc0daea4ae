//! What a recovery costs: logs in memory. The counts go to standard output, the times to standard error.
#![tactic(auto)]

mod logs;

use logs::{channels_log, doubt_log, log_of, queues_log};
use mq_base::{NoMemory, QName};
use mq_log::Bodies;
use mq_recover::{Start, image};
use std::alloc::Global;
use std::io;
use std::rt::Clock;
use std::time::{SystemTime, UNIX_EPOCH};

/// How many units of two records, an add and a remove, the first log has: 100,000 records and the two in front of them.
const PAIRS: u64 = 50_000;

/// How many adds the second log has, whose rows all stand in the end.
const STANDING: u64 = 100_000;

/// How many messages the unit in doubt of the third log lists: 100,000 records behind it.
const LISTED: u32 = 50_000;

/// How many channels the fourth log has, of two records each.
const CHANNELS: u64 = 50_000;

/// How many queues the fifth log defines.
const DEFINED: u64 = 100_000;

/// How many of them it deletes, the oldest first.
const DELETED: u64 = 90_000;

/// What a recovery came to.
#[derive(Clone, Copy)]
struct Recovered {
    /// The local queues that stand in the end.
    queues: usize,
    /// The rows that stand on the first of them.
    rows: usize,
    /// The senders that have hardened something.
    senders: usize,
    /// In microseconds.
    time: u64,
}

/// The moment in microseconds since 1970, or 0 where the clock tells none.
fn moment(clock: &impl Clock) -> u64 {
    match SystemTime::now(clock) {
        Ok(now) => match now.duration_since(UNIX_EPOCH) {
            Ok(since) => u64::try_from(since.as_micros()).unwrap_or(0),
            Err(_) => 0,
        },
        Err(_) => 0,
    }
}

/// Recovers from a log; none where it told no image.
fn recover(alloc: Global, clock: &impl Clock, log: &[u8]) -> Option<Recovered> {
    let Ok(name) = QName::of(b"M1") else {
        return None;
    };
    let bodies = Bodies { framed: log };
    let before = moment(clock);
    let told = image(alloc, 1, &name, Start::First, &bodies);
    let time = moment(clock).saturating_sub(before);
    let Ok(told) = told else {
        return None;
    };
    let rows = match told.shelves.get(0) {
        None => 0,
        Some(shelf) => shelf.rows.len(),
    };
    Some(Recovered {
        queues: told.shelves.len(),
        rows,
        senders: told.senders.len(),
        time,
    })
}

fn print(rt: &HostRuntime, what: &str, log: Result<Vec<u8>, NoMemory>) -> io::Result<()> {
    let Ok(log) = log else {
        return println!(*rt; "{what}: no log");
    };
    let bytes = log.len();
    let Some(recovered) = recover(rt.alloc(), rt, log.as_slice()) else {
        return println!(*rt; "{what}: no image");
    };
    let Recovered {
        queues,
        rows,
        senders,
        time,
    } = recovered;
    println!(*rt;
        "{what}: {bytes} bytes, {queues} queues, {rows} rows and {senders} senders in the end"
    )?;
    eprintln!(*rt; "{what}: {time} microseconds")
}

fn main(rt: HostRuntime) -> io::Result<()> {
    print(&rt, "messages that pass", log_of(rt.alloc(), PAIRS, 0))?;
    print(&rt, "messages that stay", log_of(rt.alloc(), 0, STANDING))?;
    print(
        &rt,
        "messages of a unit in doubt",
        doubt_log(rt.alloc(), LISTED),
    )?;
    print(
        &rt,
        "channels with a unit in doubt",
        channels_log(rt.alloc(), CHANNELS),
    )?;
    print(
        &rt,
        "queues that go",
        queues_log(rt.alloc(), DEFINED, DELETED),
    )
}
