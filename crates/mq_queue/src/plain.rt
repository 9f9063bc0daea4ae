//! A queue as one ring of rows.
ghost use Rattle.std.specs.Prelude.{◌≡◌};
ghost use Rattle.mq_queue.specs.Queues.{IsQueue};

use crate::asked::lane_of;
use crate::counts::{count_rows, counts_of};
use crate::places::{first_after, first_takable, row_at};
use crate::queue::Queue;
use crate::row::Row;
use crate::rows::{free_units, hold_one, keep_lasting, put_row, release_one, take_row};
use mq_message::below::NoMemory;
use mq_message::{Holder, Ident, Message, Place, Want};
use std::alloc::Global;
use std::collections::VecDeque;
use std::marker::Model;

/// A queue as a ring of rows, so that a row at its front goes out, and one at the end of the last lane
/// comes in, with no other row moved.
///
/// `free` up to 9 and `len` cost the same however many rows there are. `at`, `next_row` and the beginning of `first`
/// and `first_row` are found by halving; from there these two walk to the first row that fits. `insert` halves, and
/// moves the rows of later lanes or those before them, whichever are fewer. All other calls walk over the rows.
#[derive(Drop)]
pub struct PlainQueue {
    by_priority: bool,
    rows: VecDeque<Row>,
    arrivals: u64,
    /// For how many more rows `reserve` made room.
    room: usize,
    /// How many free rows have at least the priority 0, 1, and so on to 9.
    frees: [u64; 10],
}

impl Model for PlainQueue {
    ghost use Rattle.std.specs.Prelude.{◌+◌, ◌≤◌};
    ghost use Rattle.std.specs.VecDeque.{deque_len, deque_capacity};
    ghost use Rattle.mq_queue.specs.Standing.{Standing};
    ghost use Rattle.mq_queue.specs.Queues.{IsQueue};
    ghost use Rattle.mq_queue.specs.Counts.{AreCounts};

    ghost Value = { Standing };

    ghost view = { λ q. record { by_priority = q.by_priority; rows = q.rows.items; arrivals = q.arrivals; room = q.room } };

    ghost invariant = { λ q. IsQueue q.rows.items q.arrivals × (deque_len q.rows + q.room ≤ deque_capacity q.rows) × AreCounts q.frees q.rows.items };
}

impl PlainQueue {
    /// The rows in order.
    pub fn rows(&self) -> &VecDeque<Row>
        ensures rows { result.now.items ≡ self.now.rows }
        ensures queue { IsQueue self.now.rows self.now.arrivals }
    {
        &self.rows
    }
}

impl Queue for PlainQueue {
    ghost by_priority = { λ q. q.by_priority };

    ghost rows = { λ q. q.rows };

    ghost arrivals = { λ q. q.arrivals };

    ghost room = { λ q. q.room };

    fn new(alloc: Global, prioritized: bool) -> Self {
        PlainQueue {
            by_priority: prioritized,
            rows: VecDeque::new(alloc),
            arrivals: 0,
            room: 0,
            frees: [0; 10],
        }
    }

    fn set_by_priority(&mut self, prioritized: bool) {
        self.by_priority = prioritized;
    }

    fn len(&self) -> u64 {
        self.rows.len() as u64
    }

    fn free(&self, least: u8) -> u64 {
        if least < 10 {
            self.frees[least as usize]
        } else {
            count_rows(&self.rows, least)
        }
    }

    fn reserve(&mut self, more: u64) -> Result<(), NoMemory> {
        if more as usize <= self.room {
            return Ok(());
        }
        match self.rows.reserve(more as usize) {
            Ok(()) => {
                self.room = more as usize;
                Ok(())
            }
            Err(_) => Err(NoMemory),
        }
    }

    fn insert(&mut self, message: Message) {
        let lane = lane_of(self.by_priority, &message);
        self.room -= 1;
        self.arrivals += 1;
        let place = Place {
            lane,
            arrival: self.arrivals,
        };
        put_row(
            &mut self.rows,
            &mut self.frees,
            Row {
                place,
                message,
                by: None,
            },
        );
    }

    fn first(&self, want: &Want, after: Option<Place>) -> Option<(Place, Ident)> {
        let row = first_takable(&self.rows, want, after)?;
        Some((row.place, row.message.ident))
    }

    fn first_row(&self, want: &Want, after: Option<Place>) -> Option<&Row> {
        first_takable(&self.rows, want, after)
    }

    fn next_row(&self, after: Option<Place>) -> Option<&Row> {
        first_after(&self.rows, after)
    }

    fn at(&self, place: Place) -> Option<&Row> {
        row_at(&self.rows, place)
    }

    fn row(&self, ident: &Ident) -> Option<&Message> {
        match self.rows.iter().find(|row| row.message.ident == *ident) {
            None => None,
            Some(row) => Some(&row.message),
        }
    }

    fn hold(&mut self, ident: &Ident, by: &Holder) -> bool {
        hold_one(&mut self.rows, &mut self.frees, ident, by)
    }

    fn release(&mut self, ident: &Ident, backed_out: bool) -> bool {
        release_one(&mut self.rows, &mut self.frees, ident, backed_out)
    }

    fn remove(&mut self, ident: &Ident) -> Option<Message> {
        match take_row(&mut self.rows, &mut self.frees, ident) {
            None => None,
            Some(row) => {
                let Row { message, .. } = row;
                Some(message)
            }
        }
    }

    fn keep_lasting(&mut self) {
        keep_lasting(&mut self.rows);
        self.frees = counts_of(&self.rows);
    }

    fn free_units(&mut self) {
        free_units(&mut self.rows);
        self.frees = counts_of(&self.rows);
    }
}
