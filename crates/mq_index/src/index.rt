//! Rows in slots by their lanes, and by their lanes with each id.
ghost use Rattle.std.specs.Prelude.{◌≡◌, ◌+◌, ◌≤◌, ◌++◌, ◌∷◌, [], ℕ, List, Option, None, Some, OnOk, slice_get, slice_set};
ghost use Rattle.mq_queue.specs.declared.row.Row as rows;
ghost use Rattle.mq_index.specs.Keys.{keyed};
ghost use Rattle.mq_index.specs.Chains.{IsChainOf};
ghost use Rattle.mq_index.specs.Stores.{HaveRoom, IsIndex};

use crate::chain::Chain;
use crate::keys::Kind;
use mq_base::NoMemory;
use mq_queue::Row;
use std::alloc::Global;

/// A chain for each kind of key.
#[derive(Drop)]
pub struct Index {
    pub lanes: Chain,
    pub msgs: Chain,
    pub correls: Chain,
}

impl Index {
    /// No slot. It takes no memory.
    pub fn new(alloc: Global) -> Index
        ensures index { IsIndex [] result }
        ensures room { HaveRoom 0 result }
    {
        Index {
            lanes: Chain::new(alloc),
            msgs: Chain::new(alloc),
            correls: Chain::new(alloc),
        }
    }

    /// Makes room for so many more rows. It keeps what it has, also where it fails.
    ///
    /// # Errors
    ///
    /// No memory.
    pub fn reserve(&mut self, slots: &Vec<Option<Row>>, more: usize) -> Result<(), NoMemory>
        requires index { IsIndex slots.now.items self.old }
        ensures index { IsIndex slots.now.items self.new }
        ensures enough { OnOk result (HaveRoom more self.new) }
        ensures room { (n : ℕ) → HaveRoom n self.old → HaveRoom n self.new }
    {
        self.lanes.reserve(slots, Kind::Lane, more)?;
        self.msgs.reserve(slots, Kind::MsgId, more)?;
        self.correls.reserve(slots, Kind::CorrelId, more)
    }

    /// A row comes last, in room that is there.
    pub fn push(&mut self, slots: &Vec<Option<Row>>, row: &Row)
        requires index { IsIndex slots.now.items self.old }
        requires room { HaveRoom 1 self.old }
        ensures index { IsIndex (slots.now.items ++ Some row.now ∷ []) self.new }
        ensures room { (n : ℕ) → HaveRoom (n + 1) self.old → HaveRoom n self.new }
    {
        self.lanes.push(slots, Kind::Lane, row);
        self.msgs.push(slots, Kind::MsgId, row);
        self.correls.push(slots, Kind::CorrelId, row);
    }

    /// The row of a slot goes.
    pub fn unlink(&mut self, slots: &Vec<Option<Row>>, at: usize, row: &Row)
        requires index { IsIndex slots.now.items self.old }
        requires there { slice_get slots.now.items at ≡ Some (Some row.now) }
        ensures index { IsIndex (slice_set slots.now.items at None) self.new }
        ensures room { (n : ℕ) → HaveRoom n self.old → HaveRoom n self.new }
    {
        self.lanes.unlink(slots, Kind::Lane, at, row);
        self.msgs.unlink(slots, Kind::MsgId, at, row);
        self.correls.unlink(slots, Kind::CorrelId, at, row);
    }

    /// The chain of a kind of key.
    pub fn chain(&self, kind: Kind) -> &Chain
        ensures { (slots : List (Option rows.Row)) → IsIndex slots self.now → IsChainOf (keyed kind slots) result.now }
    {
        match kind {
            Kind::Lane => &self.lanes,
            Kind::MsgId => &self.msgs,
            Kind::CorrelId => &self.correls,
        }
    }
}
