//! The offering of frames on one direction, with its scripted faults.
ghost use Rattle.std.specs.Prelude.{◌≡◌, ℕ, suc, ◌+◌, ◌<◌, ◌≤◌, ◌^◌, [], ◌∷◌, ◌++◌, List, length, take, IfOk, IfErr, OnOk, OnErr, Some, None};
ghost use Rattle.mq_cable.specs.declared.item.Item.{Item};
ghost use Rattle.mq_cable.specs.declared.fault.Fault.TheVariants as faults;
ghost use Rattle.mq_cable.specs.declared.offers.OfferFault.TheVariants as stops;
ghost use Rattle.mq_cable.specs.Faults.{spoiled, fault_of, pushed_now, pushed_of, due_after};
ghost use Rattle.mq_cable.specs.Offers.{Offering, HasTaken, kept_if, next_fault, with_next, due_of, counted};

use crate::fault::{Fault, Faults, fault_of};
use crate::item::{Full, Item};
use crate::push::{Kept, push_due};
use crate::wire::Wire;
use mq_message::Bytes;
use std::alloc::Global;
use std::marker::Model;

/// Why a frame wasn't offered. All is as before, and the frame isn't counted.
#[derive(Clone, Copy)]
pub enum OfferFault {
    /// The frame is to be pushed now, and the direction was full.
    Full,
    /// There was no memory.
    NoMemory,
}

/// The frames offered on one direction: its scripted faults, the number offered, and the frames held back or
/// still to be copied.
#[derive(Drop)]
pub struct Offers {
    alloc: Global,
    faults: Faults,
    kept: Vec<Kept>,
    number: u64,
}

impl Model for Offers {
    ghost use Rattle.std.specs.Prelude.{◌<◌, ◌≤◌, ◌^◌, length, All};
    ghost use Rattle.mq_cable.specs.Offers.{Offering, IsLow};

    ghost Value = { Offering };

    ghost view = { λ o. record { faults = o.faults; kept = o.kept.items; number = o.number } };

    ghost invariant = { λ o. All IsLow o.kept.items × (length o.kept.items ≤ o.number) × (length o.kept.items < 2 ^ 32) };
}

impl Offers {
    /// No frame was offered yet. It takes no memory.
    pub fn new(alloc: Global, faults: Faults) -> Offers
        ensures taken { HasTaken result [] }
        ensures faults { result.faults ≡ faults }
    {
        Offers {
            alloc,
            faults,
            kept: Vec::new(alloc),
            number: 0,
        }
    }

    /// How many frames were offered.
    pub fn number(&self) -> u64
        ensures { result ≡ self.now.number }
    {
        self.number
    }

    /// Offers one more frame: it is pushed now, or not, as its fault says, and then the extra items that are due
    /// after it, in the order of their numbers. From the first of these that finds the direction full on, the rest
    /// of them is lost. How many of them were pushed.
    ///
    /// # Errors
    ///
    /// `Full` exactly where the frame is to be pushed now and its push was answered Full; `NoMemory`. After
    /// either, all is as before and the frame isn't counted.
    pub fn offer<W: Wire>(&mut self, item: Item, out: &mut W) -> Result<u32, OfferFault>
        requires low { item.stamp ≤ 2 ^ 60 }
        requires count { self.old.number < 2 ^ 48 }
        // what is pushed is what the faults make of all that was offered
        ensures pushed { (offered : List Item) → HasTaken self.old offered → IfOk result (λ extras. W.writes out.old (pushed_of self.old.faults offered item extras) out.new) }
        ensures taken { (offered : List Item) → HasTaken self.old offered → OnOk result (HasTaken self.new (offered ++ item ∷ [])) }
        ensures most { (offered : List Item) → HasTaken self.old offered → IfOk result (λ extras. extras ≤ length (due_after self.old.faults (offered ++ item ∷ []))) }
        ensures fewer { (offered : List Item) → HasTaken self.old offered → IfOk result (λ extras. extras < length (due_after self.old.faults (offered ++ item ∷ [])) → W.was_full out.old out.new) }
        ensures faults { self.new.faults ≡ self.old.faults }
        ensures full { IfErr result (λ fault. fault ≡ stops.Full → (pushed_now (next_fault self.old) item ≡ [] → ⊥) × W.was_full out.old out.new) }
        ensures fault { OnErr result ((self.new ≡ self.old) × W.writes out.old [] out.new) }
        ensures read { W.reads out.old [] out.new × (W.front_of out.new ≡ W.front_of out.old) }
        ensures low { W.low out.old → W.low out.new }
    {
        self.give(item, out)
    }

    /// What `offer` does, told by what is kept.
    fn give<W: Wire>(&mut self, item: Item, out: &mut W) -> Result<u32, OfferFault>
        requires low { item.stamp ≤ 2 ^ 60 }
        requires count { self.old.number < 2 ^ 48 }
        ensures pushed { IfOk result (λ extras. W.writes out.old (pushed_now (next_fault self.old) item ++ take extras (due_of (suc self.old.number) (with_next self.old item))) out.new) }
        ensures most { IfOk result (λ extras. extras ≤ length (due_of (suc self.old.number) (with_next self.old item))) }
        ensures fewer { IfOk result (λ extras. extras < length (due_of (suc self.old.number) (with_next self.old item)) → W.was_full out.old out.new) }
        ensures step { OnOk result (self.new ≡ counted self.old (with_next self.old item)) }
        ensures full { IfErr result (λ fault. fault ≡ stops.Full → (pushed_now (next_fault self.old) item ≡ [] → ⊥) × W.was_full out.old out.new) }
        ensures fault { OnErr result ((self.new ≡ self.old) × W.writes out.old [] out.new) }
        ensures read { W.reads out.old [] out.new × (W.front_of out.new ≡ W.front_of out.old) }
        ensures low { W.low out.old → W.low out.new }
    {
        match fault_of(self.faults.as_slice(), self.number + 1) {
            None => self.now(item, out),
            Some(Fault::Drop(_)) => Ok(self.extras(out)),
            Some(Fault::Late(frame, after)) => self.later(item, frame, after, out),
            Some(Fault::Copy(frame, after)) => self.twice(item, frame, after, out),
            Some(Fault::Spoil(_)) => self.now(spoil(item), out),
        }
    }

    /// Counts one more frame, and pushes the extra items that are due after it.
    fn extras<W: Wire>(&mut self, out: &mut W) -> u32
        requires count { self.old.number < 2 ^ 48 }
        ensures pushed { W.writes out.old (take result (due_of (suc self.old.number) self.old.kept)) out.new }
        ensures most { result ≤ length (due_of (suc self.old.number) self.old.kept) }
        ensures fewer { result < length (due_of (suc self.old.number) self.old.kept) → W.was_full out.old out.new }
        ensures step { self.new ≡ counted self.old self.old.kept }
        ensures read { W.reads out.old [] out.new × (W.front_of out.new ≡ W.front_of out.old) }
        ensures low { W.low out.old → W.low out.new }
    {
        self.number += 1;
        push_due(&mut self.kept, self.number, out)
    }

    /// Pushes an item now, and then the extra items; nothing more is kept.
    fn now<W: Wire>(&mut self, item: Item, out: &mut W) -> Result<u32, OfferFault>
        requires low { item.stamp ≤ 2 ^ 60 }
        requires count { self.old.number < 2 ^ 48 }
        ensures pushed { IfOk result (λ extras. W.writes out.old (item ∷ take extras (due_of (suc self.old.number) self.old.kept)) out.new) }
        ensures most { IfOk result (λ extras. extras ≤ length (due_of (suc self.old.number) self.old.kept)) }
        ensures fewer { IfOk result (λ extras. extras < length (due_of (suc self.old.number) self.old.kept) → W.was_full out.old out.new) }
        ensures step { OnOk result (self.new ≡ counted self.old self.old.kept) }
        ensures full { OnErr result ((self.new ≡ self.old) × W.writes out.old [] out.new × W.was_full out.old out.new) }
        ensures read { W.reads out.old [] out.new × (W.front_of out.new ≡ W.front_of out.old) }
        ensures low { W.low out.old → W.low out.new }
    {
        if let Err(Full { item: _ }) = out.push(item) {
            return Err(OfferFault::Full);
        }
        Ok(self.extras(out))
    }

    /// Holds an item back until after another frame, and pushes the extra items.
    fn later<W: Wire>(
        &mut self,
        item: Item,
        frame: u32,
        after: u32,
        out: &mut W,
    ) -> Result<u32, OfferFault>
        requires low { item.stamp ≤ 2 ^ 60 }
        requires count { self.old.number < 2 ^ 48 }
        requires fault { next_fault self.old ≡ Some (faults.Late frame after) }
        ensures pushed { IfOk result (λ extras. W.writes out.old (take extras (due_of (suc self.old.number) (self.old.kept ++ kept_if self.old.number (Some after) item))) out.new) }
        ensures most { IfOk result (λ extras. extras ≤ length (due_of (suc self.old.number) (self.old.kept ++ kept_if self.old.number (Some after) item))) }
        ensures fewer { IfOk result (λ extras. extras < length (due_of (suc self.old.number) (self.old.kept ++ kept_if self.old.number (Some after) item)) → W.was_full out.old out.new) }
        ensures step { OnOk result (self.new ≡ counted self.old (self.old.kept ++ kept_if self.old.number (Some after) item)) }
        ensures full { IfErr result (λ fault. fault ≡ stops.NoMemory) }
        ensures fault { OnErr result ((self.new ≡ self.old) × W.writes out.old [] out.new) }
        ensures read { W.reads out.old [] out.new × (W.front_of out.new ≡ W.front_of out.old) }
        ensures low { W.low out.old → W.low out.new }
    {
        if after as u64 <= self.number {
            return Ok(self.extras(out));
        }
        if self.kept.reserve(1).is_err() {
            return Err(OfferFault::NoMemory);
        }
        self.number += 1;
        self.kept.push_reserved(Kept {
            after: after as u64,
            item,
        });
        Ok(push_due(&mut self.kept, self.number, out))
    }

    /// Pushes an item, keeps a copy of it for after another frame or after this one, and pushes the extra items.
    fn twice<W: Wire>(
        &mut self,
        item: Item,
        frame: u32,
        after: u32,
        out: &mut W,
    ) -> Result<u32, OfferFault>
        requires low { item.stamp ≤ 2 ^ 60 }
        requires count { self.old.number < 2 ^ 48 }
        requires fault { next_fault self.old ≡ Some (faults.Copy frame after) }
        ensures pushed { IfOk result (λ extras. W.writes out.old (item ∷ take extras (due_of (suc self.old.number) (self.old.kept ++ kept_if self.old.number (Some after) item))) out.new) }
        ensures most { IfOk result (λ extras. extras ≤ length (due_of (suc self.old.number) (self.old.kept ++ kept_if self.old.number (Some after) item))) }
        ensures fewer { IfOk result (λ extras. extras < length (due_of (suc self.old.number) (self.old.kept ++ kept_if self.old.number (Some after) item)) → W.was_full out.old out.new) }
        ensures step { OnOk result (self.new ≡ counted self.old (self.old.kept ++ kept_if self.old.number (Some after) item)) }
        ensures full { IfErr result (λ fault. fault ≡ stops.Full → W.was_full out.old out.new) }
        ensures fault { OnErr result ((self.new ≡ self.old) × W.writes out.old [] out.new) }
        ensures read { W.reads out.old [] out.new × (W.front_of out.new ≡ W.front_of out.old) }
        ensures low { W.low out.old → W.low out.new }
    {
        if after as u64 <= self.number {
            return self.now(item, out);
        }
        let Ok(bytes) = Bytes::from_slice(self.alloc, item.bytes.as_slice()) else {
            return Err(OfferFault::NoMemory);
        };
        if self.kept.reserve(1).is_err() {
            return Err(OfferFault::NoMemory);
        }
        let copy = Item {
            stamp: item.stamp,
            bytes,
        };
        if let Err(Full { item: _ }) = out.push(item) {
            return Err(OfferFault::Full);
        }
        self.number += 1;
        self.kept.push_reserved(Kept {
            after: after as u64,
            item: copy,
        });
        Ok(push_due(&mut self.kept, self.number, out))
    }
}

/// An item with hex ff as its first byte.
fn spoil(item: Item) -> Item
    ensures { result ≡ spoiled item }
{
    let Item { stamp, bytes } = item;
    let mut bytes = bytes.into_vec();
    if bytes.is_empty() {
        return Item {
            stamp,
            bytes: Bytes::from_vec(bytes),
        };
    }
    bytes[0] = 0xff;
    Item {
        stamp,
        bytes: Bytes::from_vec(bytes),
    }
}
