//! Slots of rows, of which it is known up to where a stop loses none.
ghost use Rattle.std.specs.Prelude.{◌≡◌, ◌<◌, ◌≤◌, ◌++◌, ◌∷◌, [], Some, None, not, map, length, slice_set, OnOk, OnErr};
ghost use Rattle.mq_queue.specs.declared.row.Row.{Row};
ghost use Rattle.mq_queue.specs.Rows.{has_ident, is_persistent};
ghost use Rattle.mq_net_rows.specs.Stored.{kept_slot, kept_at, AreLasting};

use crate::store::{clear_at, clear_each, clear_lost_from, fill};
use mq_base::{Items, NoMemory};
use mq_message::Ident;
use mq_queue::Row;
use std::alloc::Global;
use std::marker::Model;

/// Slots of rows, in order of arrival. What a stop loses is looked for behind what the last stop left: each slot is looked at once.
#[derive(Drop)]
pub struct Slots {
    slots: Items<Option<Row>>,
    // Before this place each row is persistent.
    lasting: usize,
}

impl Model for Slots {
    ghost use Rattle.std.specs.Prelude.{List, Option};
    ghost use Rattle.mq_queue.specs.declared.row.Row.{Row};
    ghost use Rattle.mq_net_rows.specs.Stored.{AreLasting};

    ghost Value = { List (Option Row) };

    ghost view = { λ s. s.slots };

    ghost invariant = { λ s. AreLasting s.lasting s.slots };
}

/// The smaller of two places.
fn least(a: usize, b: usize) -> usize
    ensures first { result ≤ a }
    ensures second { result ≤ b }
{
    if a < b { a } else { b }
}

impl Slots {
    /// No slot.
    pub fn new(alloc: Global) -> Slots
        ensures { result ≡ [] }
    {
        Slots {
            slots: Items::new(alloc),
            lasting: 0,
        }
    }

    /// How many slots there are.
    pub fn len(&self) -> usize
        ensures { result ≡ length self.now }
    {
        self.slots.len()
    }

    /// The slots in order.
    pub fn as_slice(&self) -> &[Option<Row>]
        ensures { result.now ≡ self.now }
    {
        self.slots.as_slice()
    }

    /// An empty slot more.
    pub fn push(&mut self) -> Result<(), NoMemory>
        ensures ok { OnOk result (self.new ≡ self.old ++ None ∷ []) }
        ensures err { OnErr result (self.new ≡ self.old) }
    {
        self.slots.push(None)?;
        Ok(())
    }

    /// Fills the slot at a place.
    pub fn fill(&mut self, at: usize, row: Row)
        requires { at < length self.old }
        ensures { self.new ≡ slice_set self.old at (Some row) }
    {
        self.lasting = least(self.lasting, at);
        fill(&mut self.slots, at, row);
    }

    /// Empties the slot at a place, if its row has that ident.
    pub fn clear_at(&mut self, at: usize, ident: &Ident)
        ensures { self.new ≡ kept_at (λ (row : Row). not (has_ident ident.now row)) at self.old }
    {
        clear_at(&mut self.slots, at, ident);
    }

    /// Empties each slot whose row has that ident.
    pub fn clear_each(&mut self, ident: &Ident)
        ensures { self.new ≡ map (kept_slot (λ (row : Row). not (has_ident ident.now row))) self.old }
    {
        clear_each(&mut self.slots, ident);
    }

    /// Empties each slot whose row is nonpersistent.
    pub fn clear_lost(&mut self)
        ensures { self.new ≡ map (kept_slot (λ (row : Row). is_persistent row.message)) self.old }
    {
        clear_lost_from(&mut self.slots, self.lasting);
        self.lasting = self.slots.len();
    }
}
