//! A counter that threads share, for tests.
use std::sync::atomic::{AtomicBool, AtomicU64, Ordering};
use std::thread;

/// How often a thread yields at most while it waits for a tally (this project's choice).
const MOST_YIELDS: u32 = 10_000_000;

/// A counter that threads share, 0 at first. It counts only once it is armed. Nothing is claimed of it.
#[derive(Drop)]
pub struct Tally {
    armed: AtomicBool,
    count: AtomicU64,
    missed: AtomicBool,
}

impl Tally {
    /// A counter that isn't armed.
    pub fn new() -> Tally {
        Tally {
            armed: AtomicBool::new(false),
            count: AtomicU64::new(0),
            missed: AtomicBool::new(false),
        }
    }

    /// From now on it counts.
    pub fn arm(&self) {
        self.armed.store(true, Ordering::SeqCst);
    }

    /// Whether it counts.
    pub fn is_armed(&self) -> bool {
        self.armed.load(Ordering::SeqCst)
    }

    /// One more, where it is armed.
    pub fn add(&self) {
        if self.is_armed() {
            self.count.fetch_add(1, Ordering::SeqCst);
        }
    }

    /// How many were counted.
    pub fn seen(&self) -> u64 {
        self.count.load(Ordering::SeqCst)
    }

    /// Whether a wait that is noted in it came to its limit.
    pub fn missed(&self) -> bool {
        self.missed.load(Ordering::SeqCst)
    }

    /// Yields the thread until another tally shows so many, at most 10,000,000 times; a limit that is reached is noted in
    /// this one. It does nothing where this one isn't armed.
    pub fn wait_for(&self, other: &Tally, need: u64) {
        if !self.is_armed() {
            return;
        }
        for _ in 0..MOST_YIELDS {
            if other.seen() >= need {
                return;
            }
            thread::yield_now();
        }
        self.missed.store(true, Ordering::SeqCst);
    }
}
