//! The bytes of a disk in memory and what a restart would leave of them, in memory that was taken when they were made.
ghost use Rattle.std.specs.Prelude.{◌≡◌, ◌+◌, ◌-◌, ◌≤◌, max, length, take, IfOk, vec_capacity};
ghost use Rattle.mq_disk.specs.Disk.{overwritten};
ghost use Rattle.mq_disk.specs.Memory.{TwinState, after_part};

use mq_base::NoMemory;
use std::alloc::Global;
use std::marker::Model;

#[derive(Drop)]
pub struct Twin {
    bytes: Vec<u8>,
    left: Vec<u8>,
    // Up to here both are the same.
    same: usize,
    room: usize,
}

impl Model for Twin {
    ghost use Rattle.std.specs.Prelude.{vec_capacity};
    ghost use Rattle.mq_disk.specs.Memory.{TwinState, Twinned};

    ghost Value = { TwinState };

    ghost view = { λ t. record { seen = t.bytes.items; left = t.left.items; room = t.room } };

    ghost invariant = { λ t. Twinned t.bytes.items t.left.items (vec_capacity t.bytes) (vec_capacity t.left) t.same t.room };
}

// Writes over what is there and past the end, in memory that is there.
fn write_over(bytes: &mut Vec<u8>, place: usize, piece: &[u8])
    requires inside { place ≤ length bytes.old.items }
    requires room { place + length piece.now ≤ vec_capacity bytes.old }
    ensures items { bytes.new.items ≡ overwritten bytes.old.items place piece.now }
    ensures capacity { vec_capacity bytes.old ≤ vec_capacity bytes.new }
{
    let inside = piece.len().min(bytes.len() - place);
    let (over, past) = piece.split_at(inside);
    bytes[place..place + inside].copy_from_slice(over);
    bytes.extend_from_slice(past).unwrap();
}

// The same, where the place isn't past the end.
fn write_within(bytes: &mut Vec<u8>, place: usize, piece: &[u8])
    requires room { place + length piece.now ≤ vec_capacity bytes.old }
    ensures items { bytes.new.items ≡ after_part bytes.old.items place piece.now }
    ensures capacity { vec_capacity bytes.old ≤ vec_capacity bytes.new }
{
    if place <= bytes.len() {
        write_over(bytes, place, piece);
    }
}

// Makes a list the same as another, with which it agrees up to a place.
fn match_from(bytes: &mut Vec<u8>, other: &[u8], same: usize)
    requires same { take same bytes.old.items ≡ take same other.now }
    requires room { length other.now ≤ vec_capacity bytes.old }
    ensures items { bytes.new.items ≡ other.now }
    ensures capacity { vec_capacity bytes.old ≤ vec_capacity bytes.new }
{
    bytes.truncate(same);
    let (_, rest) = other.split_at(bytes.len());
    bytes.extend_from_slice(rest).unwrap();
}

impl Twin {
    /// Takes memory for so many bytes, or for those that it begins with where they are more.
    pub fn new(alloc: Global, bytes: &[u8], room: usize) -> Result<Self, NoMemory>
        ensures { IfOk result (λ t. t ≡ record { seen = bytes.now; left = bytes.now; room = max room (length bytes.now) }) }
    {
        let room = room.max(bytes.len());
        let mut twin = Twin {
            bytes: Vec::with_capacity(alloc, room)?,
            left: Vec::with_capacity(alloc, room)?,
            same: 0,
            room,
        };
        twin.bytes.extend_from_slice(bytes)?;
        twin.left.extend_from_slice(bytes)?;
        Ok(twin)
    }

    /// The present bytes.
    pub fn bytes(&self) -> &[u8]
        ensures { result.now ≡ self.now.seen }
    {
        &self.bytes
    }

    /// How many bytes there is room for from a place on.
    pub fn room_from(&self, place: usize) -> usize
        ensures value { result ≡ self.now.room - place }
        ensures inside { place ≤ length self.now.seen → place ≤ self.now.room }
    {
        self.room.saturating_sub(place)
    }

    /// Writes a piece, of which a restart leaves the first `kept` bytes.
    pub fn write(&mut self, place: usize, piece: &[u8], kept: usize)
        requires inside { place ≤ length self.old.seen }
        requires room { place + length piece.now ≤ self.old.room }
        requires kept { kept ≤ length piece.now }
        ensures { self.new ≡ record self.old { seen = overwritten self.old.seen place piece.now; left = after_part self.old.left place (take kept piece.now) } }
    {
        write_over(&mut self.bytes, place, piece);
        let (first, _) = piece.split_at(kept);
        write_within(&mut self.left, place, first);
        self.same = self.same.min(place);
    }

    /// Cuts the present bytes. A restart leaves what it left before.
    pub fn cut(&mut self, len: usize)
        ensures { self.new ≡ record self.old { seen = take len self.old.seen } }
    {
        self.bytes.truncate(len);
        self.same = self.same.min(len);
    }

    /// Cuts what a restart leaves.
    pub fn cut_left(&mut self, len: usize)
        ensures { self.new ≡ record self.old { left = take len self.old.left } }
    {
        self.left.truncate(len);
        self.same = self.same.min(len);
    }

    /// From now on a restart leaves the present bytes.
    pub fn settle(&mut self)
        ensures { self.new ≡ record self.old { left = self.old.seen } }
    {
        match_from(&mut self.left, &self.bytes, self.same);
        self.same = self.bytes.len();
    }

    /// The present bytes are what a restart leaves.
    pub fn revert(&mut self)
        ensures { self.new ≡ record self.old { seen = self.old.left } }
    {
        match_from(&mut self.bytes, &self.left, self.same);
        self.same = self.left.len();
    }
}
