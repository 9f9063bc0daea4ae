//! The items of one direction in memory, the oldest first.
ghost use Rattle.std.specs.Prelude.{◌≡◌, ◌<◌, ◌≤◌, [], ◌∷◌, ◌++◌, length, IfOk, IfErr, OnOk, IsTrue, ◌↔◌};
ghost use Rattle.std.specs.Option.{option_copied};
ghost use Rattle.mq_cable.specs.Lists.{first_of, after_first};

use crate::item::{Full, Item};
use mq_message::below::NoMemory;
use std::alloc::Global;
use std::collections::VecDeque;
use std::marker::Model;

/// How many items a direction holds in its memory: the 64 that may be pushed, and one that was fetched.
const ROOM: usize = 65;

/// The items of one direction, the oldest first. It takes its memory when it is made. Contracts see the list.
#[derive(Drop)]
pub struct Items {
    queue: VecDeque<Item>,
}

impl Model for Items {
    ghost use Rattle.std.specs.Prelude.{List, ◌≤◌};
    ghost use Rattle.std.specs.VecDeque.{deque_capacity};
    ghost use Rattle.mq_cable.specs.declared.item.Item.{Item};

    ghost Value = { List Item };

    ghost view = { λ s. s.queue.items };

    ghost invariant = { λ s. 65 ≤ deque_capacity s.queue };
}

impl Items {
    /// A direction with no item.
    ///
    /// # Errors
    ///
    /// No memory.
    pub fn new(alloc: Global) -> Result<Items, NoMemory>
        ensures { IfOk result (λ items. items ≡ []) }
    {
        let mut queue = VecDeque::new(alloc);
        if queue.reserve(ROOM).is_err() {
            return Err(NoMemory);
        }
        Ok(Items { queue })
    }

    /// How many items there are.
    pub fn len(&self) -> usize
        ensures { result ≡ length self.now }
    {
        self.queue.len()
    }

    /// Whether there is no item.
    pub fn is_empty(&self) -> bool
        ensures { IsTrue result ↔ (self.now ≡ []) }
    {
        self.queue.is_empty()
    }

    /// Puts an item last, in time that doesn't grow with the items there.
    ///
    /// # Errors
    ///
    /// `Full` exactly where 65 items are there; the item comes back.
    pub fn push(&mut self, item: Item) -> Result<(), Full>
        ensures ok { OnOk result ((self.new ≡ self.old ++ item ∷ []) × (length self.old < 65)) }
        ensures full { IfErr result (λ full. (full.item ≡ item) × (self.new ≡ self.old) × (65 ≤ length self.old)) }
    {
        if self.queue.len() >= ROOM {
            return Err(Full { item });
        }
        self.queue.push_back_reserved(item);
        Ok(())
    }

    /// The first item, which stays.
    pub fn front(&self) -> Option<&Item>
        ensures { option_copied result ≡ first_of self.now }
    {
        self.queue.front()
    }

    /// Takes the first item, in time that doesn't grow with the items there.
    pub fn pop(&mut self) -> Option<Item>
        ensures item { result ≡ first_of self.old }
        ensures rest { self.new ≡ after_first self.old }
    {
        self.queue.pop_front()
    }
}
