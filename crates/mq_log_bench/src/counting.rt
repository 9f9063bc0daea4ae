//! A disk that counts its calls.

use mq_disk::{Disk, Failed};

/// How many calls of each kind a disk got. The length is asked without a count.
#[derive(Clone, Copy)]
pub struct Calls {
    /// Calls of `read_at`.
    pub reads: u64,
    /// Calls of `write_at`.
    pub writes: u64,
    /// Calls of `cut`.
    pub cuts: u64,
    /// Calls of `sync`.
    pub syncs: u64,
}

impl Calls {
    /// No call yet.
    pub const NONE: Calls = Calls {
        reads: 0,
        writes: 0,
        cuts: 0,
        syncs: 0,
    };
}

/// A disk that passes each call on and counts it.
#[derive(Drop)]
pub struct Counting<D: Disk> {
    /// The disk that the calls are passed on to.
    pub inner: D,
    /// The calls so far.
    pub calls: Calls,
}

impl<D: Disk> Disk for Counting<D> {
    ghost tells = { D.tells };

    ghost size = { λ c. D.size c.inner };

    ghost seen = { λ c. D.seen c.inner };

    ghost may_leave = { λ c. D.may_leave c.inner };

    ghost faults = { λ c. D.faults c.inner };

    ghost size_is = { λ c t. D.size_is c.inner t };

    ghost present = { λ c t. D.present c.inner t };

    fn len(&mut self) -> Result<u64, Failed> {
        self.inner.len()
    }

    fn read_at(&mut self, place: u64, buf: &mut [u8]) -> Result<(), Failed> {
        self.calls.reads = self.calls.reads.saturating_add(1);
        self.inner.read_at(place, buf)
    }

    fn write_at(&mut self, place: u64, bytes: &[u8]) -> Result<(), Failed> {
        self.calls.writes = self.calls.writes.saturating_add(1);
        self.inner.write_at(place, bytes)
    }

    fn cut(&mut self, len: u64) -> Result<(), Failed> {
        self.calls.cuts = self.calls.cuts.saturating_add(1);
        self.inner.cut(len)
    }

    fn sync(&mut self) -> Result<(), Failed> {
        self.calls.syncs = self.calls.syncs.saturating_add(1);
        self.inner.sync()
    }

    fn restart(&mut self) -> Result<(), Failed> {
        self.inner.restart()
    }
}
