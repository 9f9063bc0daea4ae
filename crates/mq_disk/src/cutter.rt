//! A cut between the log and a disk: the call at which the cut was armed isn't made, and no call after it until a restart.
ghost use Rattle.std.specs.Prelude.{◌≡◌, ◌⊎◌, ◌+◌, ◌≤◌, max, ℕ, List, length, take, drop, false, IfOk, OnOk, OnErr, IsErrOf};
ghost use Rattle.mq_base.specs.Outside.{Rose, HasCause};
ghost use Rattle.mq_disk.specs.Disk.{Only, NothingNew, Torn, Cut, overwritten};
ghost use Rattle.mq_disk.specs.declared.cutter.Stop.TheVariants.{Disk as ByDisk};
ghost use Rattle.mq_disk.specs.Stops.{Counts, Ends, Passes};

use crate::Disk;
use mq_base::Failed;

/// Why a call behind a cut wasn't done.
#[derive(Clone, Copy)]
pub enum Stop {
    /// The cut was armed for this call, or for one before it with no restart since.
    Cut,
    /// The disk failed, and its count of faults rose.
    Disk,
}

impl From<Failed> for Stop {
    ghost from_gives = { λ _ e. e ≡ ByDisk };

    fn from(_: Failed) -> Self {
        Stop::Disk
    }
}

/// A disk whose calls can be cut.
#[derive(Drop)]
pub struct Cutter<D: Disk> {
    /// The disk behind it.
    pub inner: D,
    /// The number of the write or sync from now at which the cut is armed, 0 where none is.
    pub armed: u32,
    /// The armed call was reached, and no restart came since.
    pub stopped: bool,
}

impl<D: Disk> Cutter<D> {
    /// A disk with no cut armed.
    pub fn new(inner: D) -> Self
        ensures { result ≡ record { inner = inner; armed = 0; stopped = false } }
    {
        Cutter {
            inner,
            armed: 0,
            stopped: false,
        }
    }

    /// The k-th `write_at` or `sync` from now isn't made; with 0 no call is stopped. It takes the place of the one before.
    pub fn arm(&mut self, k: u32)
        ensures { self.new ≡ record self.old { armed = k } }
    {
        self.armed = k;
    }

    /// The k with which `arm` would now say the same, and 0 where no call is to be stopped.
    pub fn armed(&self) -> u32
        ensures { result ≡ self.now.armed }
    {
        self.armed
    }

    // Counts a `write_at` or a `sync`, and tells whether it is to be made.
    fn count(&mut self) -> Result<(), Stop>
        ensures counts { Counts self.old.armed self.old.stopped result self.new.armed self.new.stopped }
        ensures inner { self.new.inner ≡ self.old.inner }
    {
        if self.stopped {
            return Err(Stop::Cut);
        }
        if self.armed == 0 {
            return Ok(());
        }
        self.armed -= 1;
        if self.armed == 0 {
            self.stopped = true;
            return Err(Stop::Cut);
        }
        Ok(())
    }

    /// A write, which counts for an armed cut.
    pub fn write_at(&mut self, place: u64, bytes: &[u8]) -> Result<(), Stop>
        requires { place ≤ D.size self.old.inner }
        ensures ends { Ends 1 self.old.armed self.old.stopped result self.new.armed self.new.stopped }
        ensures unmade { IsErrOf result Stop.Cut → self.new.inner ≡ self.old.inner }
        ensures size { OnOk result (D.size self.new.inner ≡ max (D.size self.old.inner) (place + length bytes.now)) }
        ensures written { D.tells → OnOk result (D.seen self.new.inner ≡ overwritten (D.seen self.old.inner) place bytes.now) }
        ensures partly { D.tells → IsErrOf result Stop.Disk → Torn place (length bytes.now) (D.seen self.old.inner) (D.seen self.new.inner) }
        ensures crash { D.tells → (c : List ℕ) → D.may_leave self.new.inner c → D.may_leave self.old.inner c ⊎ ((d : List ℕ) × D.may_leave self.old.inner d × Torn place (length bytes.now) d c) }
        ensures later { D.faults self.old.inner ≤ D.faults self.new.inner }
        ensures disk { IsErrOf result Stop.Disk → Rose (D.faults self.old.inner) (D.faults self.new.inner) }
    {
        self.count()?;
        Ok(self.inner.write_at(place, bytes)?)
    }

    /// A sync, which counts for an armed cut.
    pub fn sync(&mut self) -> Result<(), Stop>
        ensures ends { Ends 1 self.old.armed self.old.stopped result self.new.armed self.new.stopped }
        ensures unmade { IsErrOf result Stop.Cut → self.new.inner ≡ self.old.inner }
        ensures durable { D.tells → OnOk result (Only (D.seen self.old.inner) (D.may_leave self.new.inner)) }
        ensures size { D.size self.new.inner ≡ D.size self.old.inner }
        ensures seen { D.tells → D.seen self.new.inner ≡ D.seen self.old.inner }
        ensures crash { D.tells → NothingNew (D.may_leave self.old.inner) (D.may_leave self.new.inner) }
        ensures later { D.faults self.old.inner ≤ D.faults self.new.inner }
        ensures disk { IsErrOf result Stop.Disk → Rose (D.faults self.old.inner) (D.faults self.new.inner) }
    {
        self.count()?;
        Ok(self.inner.sync()?)
    }

    /// The present length. It doesn't count for an armed cut.
    pub fn len(&mut self) -> Result<u64, Stop>
        ensures ends { Passes self.old.stopped result self.new.stopped }
        ensures armed { self.new.armed ≡ self.old.armed }
        ensures unmade { IsErrOf result Stop.Cut → self.new.inner ≡ self.old.inner }
        ensures value { IfOk result (λ n. n ≡ D.size self.old.inner) }
        ensures size { D.size self.new.inner ≡ D.size self.old.inner }
        ensures seen { D.tells → D.seen self.new.inner ≡ D.seen self.old.inner }
        ensures crash { D.tells → NothingNew (D.may_leave self.old.inner) (D.may_leave self.new.inner) }
        ensures later { D.faults self.old.inner ≤ D.faults self.new.inner }
        ensures disk { IsErrOf result Stop.Disk → Rose (D.faults self.old.inner) (D.faults self.new.inner) }
    {
        if self.stopped {
            return Err(Stop::Cut);
        }
        Ok(self.inner.len()?)
    }

    /// A read. It doesn't count for an armed cut.
    pub fn read_at(&mut self, place: u64, buf: &mut [u8]) -> Result<(), Stop>
        requires { place + length buf.old ≤ D.size self.old.inner }
        ensures ends { Passes self.old.stopped result self.new.stopped }
        ensures armed { self.new.armed ≡ self.old.armed }
        ensures unmade { IsErrOf result Stop.Cut → self.new.inner ≡ self.old.inner }
        ensures bytes { D.tells → OnOk result (buf.new ≡ take (length buf.old) (drop place (D.seen self.old.inner))) }
        ensures size { D.size self.new.inner ≡ D.size self.old.inner }
        ensures seen { D.tells → D.seen self.new.inner ≡ D.seen self.old.inner }
        ensures crash { D.tells → NothingNew (D.may_leave self.old.inner) (D.may_leave self.new.inner) }
        ensures later { D.faults self.old.inner ≤ D.faults self.new.inner }
        ensures disk { IsErrOf result Stop.Disk → Rose (D.faults self.old.inner) (D.faults self.new.inner) }
    {
        if self.stopped {
            return Err(Stop::Cut);
        }
        Ok(self.inner.read_at(place, buf)?)
    }

    /// Cuts the disk to a length. It doesn't count for an armed cut.
    pub fn cut(&mut self, len: u64) -> Result<(), Stop>
        requires { len ≤ D.size self.old.inner }
        ensures ends { Passes self.old.stopped result self.new.stopped }
        ensures armed { self.new.armed ≡ self.old.armed }
        ensures unmade { IsErrOf result Stop.Cut → self.new.inner ≡ self.old.inner }
        ensures size { OnOk result (D.size self.new.inner ≡ len) }
        ensures cut { D.tells → OnOk result (D.seen self.new.inner ≡ take len (D.seen self.old.inner)) }
        ensures partly { D.tells → IsErrOf result Stop.Disk → Cut len (D.seen self.old.inner) (D.seen self.new.inner) }
        ensures crash { D.tells → (c : List ℕ) → D.may_leave self.new.inner c → D.may_leave self.old.inner c ⊎ ((d : List ℕ) × D.may_leave self.old.inner d × Cut len d c) }
        ensures later { D.faults self.old.inner ≤ D.faults self.new.inner }
        ensures disk { IsErrOf result Stop.Disk → Rose (D.faults self.old.inner) (D.faults self.new.inner) }
    {
        if self.stopped {
            return Err(Stop::Cut);
        }
        Ok(self.inner.cut(len)?)
    }

    /// The disk restarts, and calls are made again. A cut that wasn't reached stays armed.
    pub fn restart(&mut self) -> Result<(), Failed>
        ensures armed { self.new.armed ≡ self.old.armed }
        ensures stopped { OnOk result (self.new.stopped ≡ false) }
        ensures still { OnErr result (self.new.stopped ≡ self.old.stopped) }
        ensures image { D.tells → OnOk result (D.may_leave self.old.inner (D.seen self.new.inner)) }
        ensures durable { D.tells → OnOk result (Only (D.seen self.new.inner) (D.may_leave self.new.inner)) }
        ensures crash { D.tells → NothingNew (D.may_leave self.old.inner) (D.may_leave self.new.inner) }
        ensures cause { HasCause (D.faults self.old.inner) (D.faults self.new.inner) result }
    {
        self.inner.restart()?;
        self.stopped = false;
        Ok(())
    }
}
