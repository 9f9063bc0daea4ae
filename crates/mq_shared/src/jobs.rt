//! The workers of a phase: one for each script and one for each end of a channel, each in a thread of its own.
use crate::locked::{Locked, PhaseName};
use crate::trying::Tried;
use mq_base::NoMemory;
use mq_disk::Disk;
use mq_gate::{Gate, Point};
use mq_takes::below::Turn;
use std::sync::atomic::{AtomicU64, Ordering};
use std::sync::{Mutex, MutexGuard, Wait};
use std::thread;
use std::thread::Threads;

/// How many tries in a row may find a get that waits, and how many turns in a row may change nothing, before a worker ends
/// (this project's choice).
const PATIENCE: u32 = 1_000_000;

/// After how many turns in a row that change nothing a sender gets a timeout (this project's choice).
const TIMEOUT_AFTER: u32 = 1_000;

/// How often an end of a channel whose turn changed nothing lets other threads go first, so that its partner's thread is given a
/// processor before its timeouts are used up, also on a busy machine (this project's choice).
const YIELDS: u32 = 100;

/// What a worker does at its node.
#[derive(Clone, Copy)]
pub enum Work {
    /// The lines of a script.
    Script {
        /// Its place under the lock.
        at: usize,
        /// Its next line.
        next: Point,
    },
    /// Turns of an end of a channel.
    End {
        /// Its place under the lock.
        at: usize,
        /// Its cable, where it is a sender's.
        sends: Option<u16>,
    },
}

/// A worker of a phase.
#[derive(Clone, Copy)]
pub struct Job {
    /// The place of the lock, which is the manager's.
    pub lock: usize,
    pub work: Work,
}

/// Tries a script's lines until it is at its end, or its get waited for long. The gate is passed outside the lock.
fn run_script<P: PhaseName, D: Disk, R: Wait, G: Gate>(
    rt: &R,
    gate: &G,
    lock: &Mutex<Locked<'_, P, D, R>>,
    at: usize,
    next: Point,
) {
    let mut point = next;
    let mut waits = 0;
    for _ in rt.forever() {
        if waits >= PATIENCE {
            break;
        }
        gate.pass(&point);
        let mut held = lock.lock(rt);
        let tried = held.advance(at);
        MutexGuard::unlock(held);
        match tried {
            Ok(Tried::Done) => {
                waits = 0;
                point.line = point.line.saturating_add(1);
            }
            Ok(Tried::Waits) => {
                waits += 1;
                thread::yield_now();
            }
            Ok(Tried::Ended) => break,
            Err(NoMemory) => break,
        }
    }
}

/// Lets other threads go first.
fn let_others_go() {
    for _ in 0..YIELDS {
        thread::yield_now();
    }
}

/// The timeout of a sender that was still for long.
fn time_out<P: PhaseName, D: Disk, R: Wait>(
    rt: &R,
    lock: &Mutex<Locked<'_, P, D, R>>,
    sends: Option<u16>,
    still: u32,
) {
    let Some(cable) = sends else {
        return;
    };
    if still % TIMEOUT_AFTER != 0 {
        return;
    }
    let mut held = lock.lock(rt);
    let _turn = held.time_out(cable);
    MutexGuard::unlock(held);
}

/// Takes turns of an end until no script's worker is left, or none changed anything for long.
fn run_end<P: PhaseName, D: Disk, R: Wait>(
    rt: &R,
    lock: &Mutex<Locked<'_, P, D, R>>,
    at: usize,
    sends: Option<u16>,
    scripts: &AtomicU64,
) {
    let mut still = 0;
    for _ in rt.forever() {
        if still >= PATIENCE || scripts.load(Ordering::SeqCst) == 0 {
            break;
        }
        let mut held = lock.lock(rt);
        let turn = held.turn(at);
        MutexGuard::unlock(held);
        match turn {
            Ok(Turn::Changed) => still = 0,
            Ok(Turn::Still) => {
                still += 1;
                time_out(rt, lock, sends, still);
                let_others_go();
            }
            Err(NoMemory) => break,
        }
    }
}

/// One worker, to its end.
fn run_job<P: PhaseName, D: Disk, R: Wait, G: Gate>(
    rt: &R,
    gate: &G,
    locks: &[Mutex<Locked<'_, P, D, R>>],
    scripts: &AtomicU64,
    job: &Job,
) {
    let Some(lock) = locks.get(job.lock) else {
        return;
    };
    match job.work {
        Work::Script { at, next } => {
            run_script(rt, gate, lock, at, next);
            scripts.fetch_sub(1, Ordering::SeqCst);
        }
        Work::End { at, sends } => run_end(rt, lock, at, sends, scripts),
    }
}

/// How many of the workers are scripts'.
fn count_scripts(jobs: &[Job]) -> u64 {
    let mut count = 0u64;
    for job in jobs {
        if let Work::Script { .. } = job.work {
            count = count.saturating_add(1);
        }
    }
    count
}

/// Runs each worker in a thread of its own, until all have ended.
pub fn run_all<
    P: PhaseName + Send + Sync,
    D: Disk + Send,
    R: Threads + Wait + Sync,
    G: Gate + Sync,
>(rt: &R, gate: &G, locks: &[Mutex<Locked<'_, P, D, R>>], jobs: &mut [Job]) {
    if jobs.is_empty() {
        return;
    }
    let scripts = AtomicU64::new(count_scripts(jobs));
    let threads = jobs.len();
    thread::for_each_mut(
        rt,
        jobs,
        threads,
        &|_, job| run_job(rt, gate, locks, &scripts, job),
    );
}
