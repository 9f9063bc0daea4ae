//! A queue whose rows are found by their idents, their ids and their places with no walk over the others.

use crate::pack::pack;
use crate::rows::{
    first_after, first_takable, free_slots, hold_one, keep_slots, release_one, row_of, take_one,
};
use crate::store::Store;
use mq_base::NoMemory;
use mq_message::{Holder, Ident, Message, Place, Want};
use mq_queue::{Queue, Row, lane_of};
use std::alloc::Global;
use std::marker::Model;

/// A queue whose rows lie in slots, in order of arrival.
#[derive(Drop)]
pub struct IndexedQueue {
    by_priority: bool,
    store: Store,
}

impl Model for IndexedQueue {
    ghost use Rattle.mq_queue.specs.Standing.{Standing};
    ghost use Rattle.mq_queue.specs.Queues.{IsQueue};
    ghost use Rattle.mq_index.specs.Lanes.{in_order};
    ghost use Rattle.mq_index.specs.Walks.{stored};

    ghost Value = { Standing };

    ghost view = { λ q. record { by_priority = q.by_priority; rows = in_order (stored q.store.slots); arrivals = q.store.arrivals; room = q.store.room } };

    ghost invariant = { λ q. IsQueue (in_order (stored q.store.slots)) q.store.arrivals };
}

impl Queue for IndexedQueue {
    ghost by_priority = { λ q. q.by_priority };

    ghost rows = { λ q. q.rows };

    ghost arrivals = { λ q. q.arrivals };

    ghost room = { λ q. q.room };

    fn new(alloc: Global, prioritized: bool) -> Self {
        IndexedQueue {
            by_priority: prioritized,
            store: Store::new(alloc),
        }
    }

    fn set_by_priority(&mut self, prioritized: bool) {
        self.by_priority = prioritized;
    }

    fn len(&self) -> u64 {
        self.store.live()
    }

    fn free(&self, least: u8) -> u64 {
        self.store.free(least)
    }

    fn reserve(&mut self, more: u64) -> Result<(), NoMemory> {
        pack(&mut self.store);
        self.store.reserve(more as usize)
    }

    fn insert(&mut self, message: Message) {
        let lane = lane_of(self.by_priority, &message);
        let arrival = self.store.arrivals() + 1;
        self.store.push(Row {
            place: Place { lane, arrival },
            message,
            by: None,
        });
    }

    fn first(&self, want: &Want, after: Option<Place>) -> Option<(Place, Ident)> {
        let row = first_takable(&self.store, want, after)?;
        Some((row.place, row.message.ident))
    }

    fn first_row(&self, want: &Want, after: Option<Place>) -> Option<&Row> {
        first_takable(&self.store, want, after)
    }

    fn next_row(&self, after: Option<Place>) -> Option<&Row> {
        first_after(&self.store, after)
    }

    fn at(&self, place: Place) -> Option<&Row> {
        self.store.at(place)
    }

    fn row(&self, ident: &Ident) -> Option<&Message> {
        match row_of(&self.store, ident) {
            None => None,
            Some(row) => Some(&row.message),
        }
    }

    fn hold(&mut self, ident: &Ident, by: &Holder) -> bool {
        hold_one(&mut self.store, ident, by)
    }

    fn release(&mut self, ident: &Ident, backed_out: bool) -> bool {
        release_one(&mut self.store, ident, backed_out)
    }

    fn remove(&mut self, ident: &Ident) -> Option<Message> {
        match take_one(&mut self.store, ident) {
            None => None,
            Some(row) => {
                let Row { message, .. } = row;
                Some(message)
            }
        }
    }

    fn keep_lasting(&mut self) {
        keep_slots(&mut self.store);
    }

    fn free_units(&mut self) {
        free_slots(&mut self.store);
    }
}
