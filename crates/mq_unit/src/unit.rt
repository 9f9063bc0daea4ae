//! The items of a unit of work.

ghost use Rattle.std.specs.Prelude.{◌≡◌, ◌+◌, ◌-◌, ◌<◌, ◌≤◌, ◌^◌, ◌↔◌, IsTrue, [], ◌∷◌, ◌++◌, length, take, is_some, OnOk, OnErr};
ghost use Rattle.mq_record.specs.from_calls.Words.{unit_need, more_need, record_size};
ghost use Rattle.mq_spec_manager.specs.Units.{adds_of, removes_of, record_of};
ghost use Rattle.mq_record.specs.Records.{record_bytes, IsRecord};
ghost use Rattle.mq_record.specs.Room.{with_piece};
ghost use Rattle.mq_unit.specs.Forced.{unit_record, IsEnded};

use crate::effects::Effects;
use crate::record::{can_be_forced, item_bytes, put_unit};
use mq_record::Buffer;
use mq_record::below::{Item, Items, NoMemory};
use std::alloc::Global;
use std::marker::Model;

/// The uncommitted puts of a unit and the rows that it holds, in the order of their calls. Contracts see it as the list.
///
/// `need`, `more_need` and `is_forced` cost the same however long it is.
#[derive(Drop)]
pub struct Unit {
    items: Items<Item>,
    /// What its persistent items take in the record.
    bytes: u64,
    /// Room for what the unit's end tells.
    effects: Effects,
}

impl Model for Unit {
    ghost use Rattle.std.specs.Prelude.{List};
    ghost use Rattle.mq_record.specs.from_calls.{Item};
    ghost use Rattle.mq_unit.specs.Forced.{IsKept};

    ghost Value = { List Item };

    ghost view = { λ u. u.items };

    ghost invariant = { λ u. IsKept u.items u.bytes u.effects };
}

/// What a unit was, and room for what its end tells: at least one for each item.
#[derive(Drop)]
pub struct Ended {
    pub items: Items<Item>,
    pub effects: Effects,
}

impl Unit {
    /// A unit with no item. It takes no memory.
    pub fn new(alloc: Global) -> Unit
        ensures { result ≡ [] }
    {
        Unit {
            items: Items::new(alloc),
            bytes: 0,
            effects: Effects::new(alloc),
        }
    }

    /// The items, in the order of their calls.
    pub fn items(&self) -> &[Item]
        ensures { result.now ≡ self.now }
    {
        self.items.as_slice()
    }

    /// The number of items.
    pub fn len(&self) -> usize
        ensures { result ≡ length self.now }
    {
        self.items.len()
    }

    /// Whether there is no item.
    pub fn is_empty(&self) -> bool
        ensures { IsTrue result ↔ (self.now ≡ []) }
    {
        self.items.is_empty()
    }

    /// What the unit's record will take of the log, in bytes; 0 where it has no persistent item.
    pub fn need(&self) -> u64
        ensures { result ≡ unit_need self.now }
    {
        if self.bytes == 0 { 0 } else { 14 + self.bytes }
    }

    /// What one more persistent item of so many bytes will take of the log.
    pub fn more_need(&self, bytes: u64) -> u64
        requires { 14 + bytes < 2 ^ 64 }
        ensures { result ≡ more_need self.now bytes }
    {
        if self.bytes == 0 { 14 + bytes } else { bytes }
    }

    /// Whether the unit's end forces a record: it has a persistent item.
    pub fn is_forced(&self) -> bool
        ensures { result ≡ is_some (record_of (adds_of self.now) (removes_of self.now)) }
    {
        self.bytes != 0
    }

    /// Adds an item at the end, and makes the room that the unit's end needs for it.
    ///
    /// # Errors
    ///
    /// No memory, or a persistent message that no record can have (`can_be_kept`); nothing has changed.
    pub fn push(&mut self, item: Item) -> Result<(), NoMemory>
        requires { unit_need (self.old ++ item ∷ []) < 2 ^ 64 }
        ensures ok { OnOk result (self.new ≡ self.old ++ item ∷ []) }
        ensures err { OnErr result (self.new ≡ self.old) }
    {
        if !can_be_forced(&item) {
            return Err(NoMemory);
        }
        let bytes = item_bytes(&item);
        let Some(most) = self.items.len().checked_add(1) else {
            return Err(NoMemory);
        };
        if self.effects.reserve(most).is_err() {
            return Err(NoMemory);
        }
        if self.items.push(item).is_err() {
            return Err(NoMemory);
        }
        self.bytes += bytes;
        Ok(())
    }

    /// Takes the last item out, where there is one: it is given up. It takes no memory.
    pub fn give_up(&mut self)
        ensures { self.new ≡ take (length self.old - 1) self.old }
    {
        match self.items.pop() {
            None => {}
            Some(item) => self.bytes -= item_bytes(&item),
        }
    }

    /// Takes all items out. It takes no memory.
    pub fn end(&mut self, alloc: Global) -> Ended
        ensures unit { self.new ≡ [] }
        ensures ended { IsEnded self.old result }
    {
        let Unit { items, effects, .. } = std::mem::replace(self, Unit::new(alloc));
        Ended { items, effects }
    }

    /// Writes the unit's record into room that was taken before. It takes no memory.
    pub fn write_record(&self, body: &mut Buffer)
        requires room { record_size (unit_record self.now) ≤ body.old.room }
        requires small { record_size (unit_record self.now) < 2 ^ 32 }
        ensures bytes { body.new ≡ with_piece (record_bytes (unit_record self.now)) body.old }
        ensures record { IsRecord (unit_record self.now) }
    {
        put_unit(self.items.as_slice(), body);
    }
}
