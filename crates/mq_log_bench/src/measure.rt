//! Appends and a start, with their calls and times.
ghost use Rattle.std.specs.Prelude.{◌≡◌, ◌+◌, ◌≤◌, min, true, ℕ, List, length, IfOk};
ghost use Rattle.mq_log.specs.Bodies.{frames, AllFit};

use crate::counting::{Calls, Counting};
use mq_disk::{Cutter, Disk};
use mq_log::{Bodies, Log, StartFault, next_body};
use std::alloc::Global;
use std::rt::Clock;
use std::time::{SystemTime, UNIX_EPOCH};

/// The bytes of each body.
const BODY: [u8; 100] = [b'x'; 100];

/// The most bytes that a log may have.
const MOST: u64 = 1 << 32;

/// Some appends, and the time that they took in microseconds.
#[derive(Clone, Copy)]
pub struct Round {
    /// How many bodies were appended.
    pub appended: u32,
    /// In microseconds.
    pub time: u64,
}

/// What appends to a log, in two halves, and another start of it came to.
#[derive(Clone, Copy)]
pub struct Measured {
    /// The first half of the appends.
    pub first: Round,
    /// The second half.
    pub second: Round,
    /// The calls of the first start and of the appends.
    pub at_appends: Calls,
    /// How many bodies the other start read.
    pub read: u32,
    /// The calls of the other start.
    pub at_start: Calls,
    /// The time of the other start in microseconds.
    pub start_time: u64,
}

/// The moment in microseconds since 1970, or 0 where the clock tells none.
fn moment(clock: &impl Clock) -> u64 {
    match SystemTime::now(clock) {
        Ok(now) => match now.duration_since(UNIX_EPOCH) {
            Ok(since) => u64::try_from(since.as_micros()).unwrap_or(0),
            Err(_) => 0,
        },
        Err(_) => 0,
    }
}

/// Appends so many bodies, each by a forced write, as long as nothing stops them, and tells how many.
fn append_all<D: Disk>(log: &mut Log<D>, count: u32) -> u32
    requires { log.old.live ≡ true }
    ensures appended { length log.new.bodies ≡ length log.old.bodies + result }
    ensures most { result ≤ count }
{
    for done in 0..count {
        let Ok(()) = log.room(105) else {
            return done;
        };
        let Ok(()) = log.append_forced(&BODY) else {
            return done;
        };
    }
    count
}

/// Appends so many bodies where the log takes more, and tells the time.
fn time_appends<D: Disk, C: Clock>(log: &mut Log<D>, clock: &C, count: u32) -> Round
    ensures appended { length log.new.bodies ≡ length log.old.bodies + result.appended }
    ensures most { result.appended ≤ count }
{
    if !log.is_live() {
        return Round {
            appended: 0,
            time: 0,
        };
    }
    let before = moment(clock);
    let appended = append_all(log, count);
    Round {
        appended,
        time: moment(clock).saturating_sub(before),
    }
}

/// How many bodies these are, up to a number.
fn count_bodies(bodies: &Bodies<'_>, most: u32) -> u32
    ensures counted { (all : List (List ℕ)) → AllFit all → bodies.now.framed.now ≡ frames all → result ≡ min (length all) most }
{
    let mut left = *bodies;
    for count in 0..most {
        let Some(split) = next_body(&left) else {
            return count;
        };
        left = split.rest;
    }
    most
}

/// Starts a log, appends so many bodies, and starts it again. All that were appended to an empty disk are read again.
pub fn measure<D: Disk, C: Clock>(
    alloc: Global,
    clock: &C,
    disk: D,
    count: u32,
) -> Result<Measured, StartFault>
    ensures again { D.tells → length (D.seen disk) ≤ 1 → IfOk result (λ m. m.first.appended + m.second.appended ≤ m.read) }
{
    let counting = Counting {
        inner: disk,
        calls: Calls::NONE,
    };
    let mut log = match Log::start(alloc, Cutter::new(counting), MOST) {
        Ok(log) => log,
        Err(refused) => return Err(refused.fault),
    };
    let first = time_appends(&mut log, clock, count / 2);
    let second = time_appends(&mut log, clock, count - count / 2);
    let mut disk = log.end();
    let at_appends = disk.inner.calls;
    disk.inner.calls = Calls::NONE;
    let before = moment(clock);
    let log = match Log::start(alloc, disk, MOST) {
        Ok(log) => log,
        Err(refused) => return Err(refused.fault),
    };
    let start_time = moment(clock).saturating_sub(before);
    let read = count_bodies(&log.bodies(), u32::MAX);
    Ok(Measured {
        first,
        second,
        at_appends,
        read,
        at_start: log.end().inner.calls,
        start_time,
    })
}
