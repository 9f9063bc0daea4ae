//! Disks whose calls are counted and whose syncs wait for another manager's, and a shelf of them, for tests.
ghost use Rattle.std.specs.Prelude.{◌≡◌, ◌+◌, ◌≤◌, ℕ, List, max, length, take, drop, IfOk, OnOk, OnErr, IsErrOf};
ghost use Rattle.mq_base.specs.Outside.{Rose, HasCause};
ghost use Rattle.mq_disk.specs.Disk.{Only, NothingNew, Follows, Torn, Cut, overwritten};
ghost use Rattle.mq_disk.specs.declared.shelf.Side.{Side};

use crate::tally::Tally;
use mq_base::{Failed, QName};
use mq_disk::{Disk, Shelf, Side, TakeFault};
use std::sync::Arc;

/// Which tally counts the calls of a manager's disk, and for which other manager's its syncs wait.
#[derive(Drop)]
pub struct Meet {
    /// The manager.
    pub qmgr: QName,
    /// What counts the calls of its disk.
    pub own: Arc<Tally>,
    /// What its syncs wait for.
    pub other: Arc<Tally>,
    /// How many the other is to show.
    pub need: u64,
}

impl Meet {
    /// One more of the same.
    fn again(&self) -> Result<Meet, TakeFault> {
        let Ok(own) = Arc::try_clone(&self.own) else {
            return Err(TakeFault::NoMemory);
        };
        let Ok(other) = Arc::try_clone(&self.other) else {
            return Err(TakeFault::NoMemory);
        };
        Ok(Meet {
            qmgr: self.qmgr,
            own,
            other,
            need: self.need,
        })
    }
}

/// A disk whose calls are counted, where its manager has a meet, and then passed on. Once its tally is armed, a sync yields
/// its thread before it is passed on until the other tally shows enough, at most 10,000,000 times.
#[derive(Drop)]
pub struct Meeting<D: Disk> {
    inner: D,
    meet: Option<Meet>,
}

impl<D: Disk> Meeting<D> {
    /// Counts a call.
    fn count(&self) {
        if let Some(meet) = &self.meet {
            meet.own.add();
        }
    }

    /// Waits for the other manager.
    fn wait(&self) {
        if let Some(meet) = &self.meet {
            meet.own.wait_for(&meet.other, meet.need);
        }
    }

    /// The disk that it passes its calls on to.
    pub fn inner(&self) -> &D
        ensures { result.now ≡ self.now.inner }
    {
        &self.inner
    }
}

impl<D: Disk> Disk for Meeting<D> {
    ghost tells = { D.tells };

    ghost size = { λ m. D.size m.inner };

    ghost seen = { λ m. D.seen m.inner };

    ghost may_leave = { λ m. D.may_leave m.inner };

    ghost faults = { λ m. D.faults m.inner };

    ghost size_is = { λ m t. D.size_is m.inner t };

    ghost present = { λ m t. D.present m.inner t };

    fn len(&mut self) -> Result<u64, Failed> {
        self.count();
        self.inner.len()
    }

    fn read_at(&mut self, place: u64, buf: &mut [u8]) -> Result<(), Failed> {
        self.count();
        self.inner.read_at(place, buf)
    }

    fn write_at(&mut self, place: u64, bytes: &[u8]) -> Result<(), Failed> {
        self.count();
        self.inner.write_at(place, bytes)
    }

    fn cut(&mut self, len: u64) -> Result<(), Failed> {
        self.count();
        self.inner.cut(len)
    }

    fn sync(&mut self) -> Result<(), Failed> {
        self.count();
        self.wait();
        self.inner.sync()
    }

    fn restart(&mut self) -> Result<(), Failed> {
        self.count();
        self.inner.restart()
    }
}

/// A shelf whose disks meet: each disk that is taken from the inner one has the meet of its manager, if there is one.
#[derive(Drop)]
pub struct MeetShelf<H: Shelf> {
    /// Where the disks come from.
    pub inner: H,
    /// At most one for each manager: the first counts.
    pub meets: Vec<Meet>,
}

/// The meet of a manager, if there is one.
fn meet_of(meets: &[Meet], name: &QName) -> Result<Option<Meet>, TakeFault>
    ensures { IsErrOf result TakeFault.Failed → ⊥ }
{
    for meet in meets {
        if meet.qmgr == *name {
            return match meet.again() {
                Ok(again) => Ok(Some(again)),
                Err(_) => Err(TakeFault::NoMemory),
            };
        }
    }
    Ok(None)
}

impl<H: Shelf> Shelf for MeetShelf<H> {
    type D = Meeting<H::D>;

    ghost holds = { λ s name side bytes. H.holds s.inner name side bytes };

    ghost faults = { λ s. H.faults s.inner };

    fn take(&mut self, name: &QName, side: Side) -> Result<Meeting<H::D>, TakeFault> {
        let meet = match meet_of(self.meets.as_slice(), name) {
            Ok(meet) => meet,
            Err(_) => return Err(TakeFault::NoMemory),
        };
        match self.inner.take(name, side) {
            Ok(inner) => Ok(Meeting { inner, meet }),
            Err(fault) => Err(fault),
        }
    }
}
