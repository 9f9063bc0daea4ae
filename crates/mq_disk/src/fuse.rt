//! A disk that fails after a number of calls.
ghost use Rattle.std.specs.Prelude.{◌≡◌, ◌+◌, ◌-◌, ◌<◌, ◌≤◌, ◌↔◌, max, length, take, drop, Some, IsErr, IfOk, OnOk, OnErr};
ghost use Rattle.mq_base.specs.Outside.{Rose, HasCause};
ghost use Rattle.mq_disk.specs.Disk.{Only, NothingNew, Follows, Torn, Cut, overwritten};
ghost use Rattle.mq_disk.specs.Fuse.{Burns, less_one, mended, faults_after};

use crate::Disk;
use crate::counted::{fault, noted};
use mq_base::Failed;

/// A disk that passes on a number of calls and then fails each call until it is restarted. A restart is always passed
/// on, and isn't counted; after one that ends a blown fuse, all calls are passed on.
#[derive(Drop)]
pub struct Fuse<D: Disk> {
    inner: D,
    // How many calls are left before each fails; none where all are passed on.
    left: Option<u64>,
    faults: u64,
}

// Counts a call, and fails where none is left.
fn burn(left: &mut Option<u64>, faults: &mut u64) -> Result<(), Failed>
    ensures exact { IsErr result ↔ (left.old ≡ Some 0) }
    ensures less { left.new ≡ less_one left.old }
    ensures cause { HasCause faults.old faults.new result }
    ensures counted { faults.new ≡ faults_after result faults.old }
{
    match *left {
        None => Ok(()),
        Some(0) => Err(fault(faults)),
        Some(calls) => {
            *left = Some(calls - 1);
            Ok(())
        }
    }
}

// A blown fuse is gone.
fn mend(left: Option<u64>) -> Option<u64>
    ensures { result ≡ mended left }
{
    match left {
        Some(0) => None,
        _ => left,
    }
}

impl<D: Disk> Fuse<D> {
    /// Passes on so many calls of this disk. No fault is counted yet.
    pub fn new(inner: D, calls: u64) -> Self
        ensures { result ≡ record { inner = inner; left = Some calls; faults = 0 } }
    {
        Fuse {
            inner,
            left: Some(calls),
            faults: 0,
        }
    }

    /// The disk behind the fuse.
    pub fn inner(&self) -> &D
        ensures { result.now ≡ self.now.inner }
    {
        &self.inner
    }
}

impl<D: Disk> Disk for Fuse<D> {
    ghost tells = { D.tells };

    ghost size = { λ f. D.size f.inner };

    ghost seen = { λ f. D.seen f.inner };

    ghost may_leave = { λ f. D.may_leave f.inner };

    ghost faults = { λ f. f.faults };

    ghost size_is = { λ f t. D.size_is f.inner t };

    ghost present = { λ f t. D.present f.inner t };

    fn len(&mut self) -> Result<u64, Failed>
        ensures value { IfOk result (λ n. n ≡ D.size self.old.inner) }
        ensures size { D.size self.new.inner ≡ D.size self.old.inner }
        ensures seen { D.tells → D.seen self.new.inner ≡ D.seen self.old.inner }
        ensures crash { D.tells → NothingNew (D.may_leave self.old.inner) (D.may_leave self.new.inner) }
        ensures cause { HasCause self.old.faults self.new.faults result }
        ensures burnt { Burns D.faults self.old result self.new }
    {
        burn(&mut self.left, &mut self.faults)?;
        noted(self.inner.len(), &mut self.faults)
    }

    fn read_at(&mut self, place: u64, buf: &mut [u8]) -> Result<(), Failed>
        requires { place + length buf.old ≤ D.size self.old.inner }
        ensures bytes { D.tells → OnOk result (buf.new ≡ take (length buf.old) (drop place (D.seen self.old.inner))) }
        ensures size { D.size self.new.inner ≡ D.size self.old.inner }
        ensures seen { D.tells → D.seen self.new.inner ≡ D.seen self.old.inner }
        ensures crash { D.tells → NothingNew (D.may_leave self.old.inner) (D.may_leave self.new.inner) }
        ensures cause { HasCause self.old.faults self.new.faults result }
        ensures burnt { Burns D.faults self.old result self.new }
    {
        burn(&mut self.left, &mut self.faults)?;
        noted(self.inner.read_at(place, buf), &mut self.faults)
    }

    fn write_at(&mut self, place: u64, bytes: &[u8]) -> Result<(), Failed>
        requires { place ≤ D.size self.old.inner }
        ensures size { OnOk result (D.size self.new.inner ≡ max (D.size self.old.inner) (place + length bytes.now)) }
        ensures written { D.tells → OnOk result (D.seen self.new.inner ≡ overwritten (D.seen self.old.inner) place bytes.now) }
        ensures partly { D.tells → OnErr result (Torn place (length bytes.now) (D.seen self.old.inner) (D.seen self.new.inner)) }
        ensures crash { D.tells → Follows (Torn place (length bytes.now)) (D.may_leave self.old.inner) (D.may_leave self.new.inner) }
        ensures cause { HasCause self.old.faults self.new.faults result }
        ensures burnt { Burns D.faults self.old result self.new }
    {
        burn(&mut self.left, &mut self.faults)?;
        noted(self.inner.write_at(place, bytes), &mut self.faults)
    }

    fn cut(&mut self, len: u64) -> Result<(), Failed>
        requires { len ≤ D.size self.old.inner }
        ensures size { OnOk result (D.size self.new.inner ≡ len) }
        ensures cut { D.tells → OnOk result (D.seen self.new.inner ≡ take len (D.seen self.old.inner)) }
        ensures partly { D.tells → OnErr result (Cut len (D.seen self.old.inner) (D.seen self.new.inner)) }
        ensures crash { D.tells → Follows (Cut len) (D.may_leave self.old.inner) (D.may_leave self.new.inner) }
        ensures cause { HasCause self.old.faults self.new.faults result }
        ensures burnt { Burns D.faults self.old result self.new }
    {
        burn(&mut self.left, &mut self.faults)?;
        noted(self.inner.cut(len), &mut self.faults)
    }

    fn sync(&mut self) -> Result<(), Failed>
        ensures durable { D.tells → OnOk result (Only (D.seen self.old.inner) (D.may_leave self.new.inner)) }
        ensures size { D.size self.new.inner ≡ D.size self.old.inner }
        ensures seen { D.tells → D.seen self.new.inner ≡ D.seen self.old.inner }
        ensures crash { D.tells → NothingNew (D.may_leave self.old.inner) (D.may_leave self.new.inner) }
        ensures cause { HasCause self.old.faults self.new.faults result }
        ensures burnt { Burns D.faults self.old result self.new }
    {
        burn(&mut self.left, &mut self.faults)?;
        noted(self.inner.sync(), &mut self.faults)
    }

    fn restart(&mut self) -> Result<(), Failed>
        ensures image { D.tells → OnOk result (D.may_leave self.old.inner (D.seen self.new.inner)) }
        ensures durable { D.tells → OnOk result (Only (D.seen self.new.inner) (D.may_leave self.new.inner)) }
        ensures crash { D.tells → NothingNew (D.may_leave self.old.inner) (D.may_leave self.new.inner) }
        ensures cause { HasCause self.old.faults self.new.faults result }
        ensures left { OnOk result (self.new.left ≡ mended self.old.left) }
        ensures still { OnErr result (self.new.left ≡ self.old.left) }
        ensures later { D.faults self.old.inner ≤ D.faults self.new.inner }
        ensures failed { OnErr result (Rose (D.faults self.old.inner) (D.faults self.new.inner)) }
        ensures counted { self.new.faults ≡ faults_after result self.old.faults }
    {
        noted(self.inner.restart(), &mut self.faults)?;
        self.left = mend(self.left);
        Ok(())
    }
}
