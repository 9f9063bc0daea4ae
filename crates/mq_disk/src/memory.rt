//! A disk in memory.
ghost use Rattle.std.specs.Prelude.{◌≡◌, ◌+◌, ◌≤◌, max, length, take, drop, refl, ⊤, IfOk, OnOk, OnErr};
ghost use Rattle.std.proofs.Common.{inr};
ghost use Rattle.mq_base.specs.Outside.{HasCause};
ghost use Rattle.mq_disk.specs.Disk.{Only, NothingNew, Follows, Torn, Cut, overwritten};
ghost use Rattle.mq_disk.specs.Memory.{kept_of, leaves, is_listed, is_refused, answer, after_read, after_write, after_cut, after_sync, after_restart};

use crate::Disk;
use crate::counted::{fault, is_failing};
use crate::twin::Twin;
use mq_base::{Failed, NoMemory};
use std::alloc::Global;
use std::marker::Model;

/// What a restart leaves of the calls since the last sync.
#[derive(Clone, Copy, Debug, PartialEq, Eq)]
pub enum Image {
    /// All of them.
    Kept,
    /// None of them.
    Lost,
    /// Of each write the first half, and each cut.
    Torn,
}

/// A disk in memory that was taken when it was made. It fails at the calls that a list names, counted from 0, and at a
/// write past its room.
#[derive(Drop)]
pub struct MemDisk {
    twin: Twin,
    image: Image,
    failing: Vec<u64>,
    calls: u64,
    faults: u64,
}

impl Image {
    // How much of a pending write of so many bytes a restart leaves.
    fn kept_of(self, len: usize) -> usize
        ensures kept { result ≡ kept_of self len }
        ensures bound { result ≤ len }
    {
        match self {
            Image::Kept => len,
            Image::Lost => 0,
            Image::Torn => len / 2,
        }
    }
}

impl Model for MemDisk {
    ghost use Rattle.mq_disk.specs.Memory.{DiskState};

    ghost Value = { DiskState };

    ghost view = { λ m. record { seen = m.twin.seen; left = m.twin.left; room = m.twin.room; image = m.image; failing = m.failing.items; calls = m.calls; faults = m.faults } };
}

impl MemDisk {
    /// A disk with these bytes and room for so many, where they aren't more already. Nothing is pending. A restart leaves
    /// this image, and the listed calls fail.
    pub fn new(
        alloc: Global,
        bytes: &[u8],
        room: usize,
        image: Image,
        failing: Vec<u64>,
    ) -> Result<Self, NoMemory>
        ensures { IfOk result (λ m. m ≡ record { seen = bytes.now; left = bytes.now; room = max room (length bytes.now); image = image; failing = failing.items; calls = 0; faults = 0 }) }
    {
        Ok(MemDisk {
            twin: Twin::new(alloc, bytes, room)?,
            image,
            failing,
            calls: 0,
            faults: 0,
        })
    }

    /// The present bytes.
    pub fn bytes(&self) -> &[u8]
        ensures { result.now ≡ self.now.seen }
    {
        self.twin.bytes()
    }
}

impl Disk for MemDisk {
    ghost tells = { ⊤ };

    ghost size = { λ m. length m.seen };

    ghost seen = { λ m. m.seen };

    ghost may_leave = { leaves };

    ghost faults = { λ m. m.faults };

    ghost size_is = { λ m t. refl };

    ghost present = { λ m t. inr refl };

    fn len(&mut self) -> Result<u64, Failed>
        ensures value { IfOk result (λ n. n ≡ length self.old.seen) }
        ensures size { length self.new.seen ≡ length self.old.seen }
        ensures seen { self.new.seen ≡ self.old.seen }
        ensures crash { NothingNew (leaves self.old) (leaves self.new) }
        ensures cause { HasCause self.old.faults self.new.faults result }
        ensures answer { result ≡ answer (is_listed self.old) (length self.old.seen) }
        ensures state { self.new ≡ after_read self.old }
    {
        if is_failing(&self.failing, &mut self.calls) {
            return Err(fault(&mut self.faults));
        }
        Ok(self.twin.bytes().len() as u64)
    }

    fn read_at(&mut self, place: u64, buf: &mut [u8]) -> Result<(), Failed>
        requires { place + length buf.old ≤ length self.old.seen }
        ensures bytes { OnOk result (buf.new ≡ take (length buf.old) (drop place self.old.seen)) }
        ensures size { length self.new.seen ≡ length self.old.seen }
        ensures seen { self.new.seen ≡ self.old.seen }
        ensures crash { NothingNew (leaves self.old) (leaves self.new) }
        ensures cause { HasCause self.old.faults self.new.faults result }
        ensures answer { result ≡ answer (is_listed self.old) tt }
        ensures state { self.new ≡ after_read self.old }
    {
        if is_failing(&self.failing, &mut self.calls) {
            return Err(fault(&mut self.faults));
        }
        let at = place as usize;
        buf.copy_from_slice(&self.twin.bytes()[at..at + buf.len()]);
        Ok(())
    }

    fn write_at(&mut self, place: u64, bytes: &[u8]) -> Result<(), Failed>
        requires { place ≤ length self.old.seen }
        ensures size { OnOk result (length self.new.seen ≡ max (length self.old.seen) (place + length bytes.now)) }
        ensures written { OnOk result (self.new.seen ≡ overwritten self.old.seen place bytes.now) }
        ensures partly { OnErr result (Torn place (length bytes.now) self.old.seen self.new.seen) }
        ensures crash { Follows (Torn place (length bytes.now)) (leaves self.old) (leaves self.new) }
        ensures cause { HasCause self.old.faults self.new.faults result }
        ensures answer { result ≡ answer (is_refused place bytes.now self.old) tt }
        ensures state { self.new ≡ after_write place bytes.now self.old }
    {
        let at = place as usize;
        let room = self.twin.room_from(at);
        if is_failing(&self.failing, &mut self.calls) || room < bytes.len() {
            return Err(fault(&mut self.faults));
        }
        let kept = self.image.kept_of(bytes.len());
        self.twin.write(at, bytes, kept);
        Ok(())
    }

    fn cut(&mut self, len: u64) -> Result<(), Failed>
        requires { len ≤ length self.old.seen }
        ensures size { OnOk result (length self.new.seen ≡ len) }
        ensures cut { OnOk result (self.new.seen ≡ take len self.old.seen) }
        ensures partly { OnErr result (Cut len self.old.seen self.new.seen) }
        ensures crash { Follows (Cut len) (leaves self.old) (leaves self.new) }
        ensures cause { HasCause self.old.faults self.new.faults result }
        ensures answer { result ≡ answer (is_listed self.old) tt }
        ensures state { self.new ≡ after_cut len self.old }
    {
        if is_failing(&self.failing, &mut self.calls) {
            return Err(fault(&mut self.faults));
        }
        self.twin.cut(len as usize);
        match self.image {
            Image::Lost => Ok(()),
            Image::Kept | Image::Torn => {
                self.twin.cut_left(len as usize);
                Ok(())
            }
        }
    }

    fn sync(&mut self) -> Result<(), Failed>
        ensures durable { OnOk result (Only self.old.seen (leaves self.new)) }
        ensures size { length self.new.seen ≡ length self.old.seen }
        ensures seen { self.new.seen ≡ self.old.seen }
        ensures crash { NothingNew (leaves self.old) (leaves self.new) }
        ensures cause { HasCause self.old.faults self.new.faults result }
        ensures answer { result ≡ answer (is_listed self.old) tt }
        ensures state { self.new ≡ after_sync self.old }
    {
        if is_failing(&self.failing, &mut self.calls) {
            return Err(fault(&mut self.faults));
        }
        self.twin.settle();
        Ok(())
    }

    fn restart(&mut self) -> Result<(), Failed>
        ensures image { OnOk result (leaves self.old self.new.seen) }
        ensures durable { OnOk result (Only self.new.seen (leaves self.new)) }
        ensures crash { NothingNew (leaves self.old) (leaves self.new) }
        ensures cause { HasCause self.old.faults self.new.faults result }
        ensures answer { result ≡ answer (is_listed self.old) tt }
        ensures state { self.new ≡ after_restart self.old }
    {
        if is_failing(&self.failing, &mut self.calls) {
            return Err(fault(&mut self.faults));
        }
        self.twin.revert();
        Ok(())
    }
}
