//! What a queue does, whatever holds its rows.
ghost use Rattle.std.specs.Prelude.{◌≡◌, ◌+◌, ◌-◌, ◌^◌, ◌<◌, ◌≤◌, ℕ, Bool, List, [], OnOk, OnErr, option_copied, find, length};
ghost use Rattle.std.specs.List.{list_any};
ghost use Rattle.mq_queue.specs.declared.row.Row.{Row};
ghost use Rattle.mq_queue.specs.Rows.{insert_row, keep, retag, is_after};
ghost use Rattle.mq_queue.specs.Queues.{Lacks, IsQueue, row_of, first_of, is_takable, is_at, count_waiting, is_lasting, message_of, has_other_ident, is_free_one, is_held_one, hold_row, release_row, unit_freed};

use crate::row::Row;
use mq_message::below::NoMemory;
use mq_message::{Holder, Ident, Message, Place, Want};
use std::alloc::Global;

/// A list of committed rows in order of place, each free or held; no ident stands twice.
///
/// All calls but `reserve` take no memory.
pub trait Queue {
    /// Whether a row's lane goes by its priority; else all rows have one lane.
    ghost by_priority: { Self → Bool };

    /// The rows in order.
    ghost rows: { Self → List Row };

    /// How many rows were inserted so far.
    ghost arrivals: { Self → ℕ };

    /// For how many more rows there is memory.
    ghost room: { Self → ℕ };

    /// An empty queue, whose rows have lanes by their priorities, or all one lane. It takes no memory.
    fn new(alloc: Global, prioritized: bool) -> Self
        ensures rows { rows result ≡ [] }
        ensures arrivals { arrivals result ≡ 0 }
        ensures room { room result ≡ 0 }
        ensures by_priority { by_priority result ≡ prioritized };

    /// Changes the lanes of a queue that has no row.
    fn set_by_priority(&mut self, prioritized: bool)
        requires { rows self.old ≡ [] }
        ensures rows { rows self.new ≡ rows self.old }
        ensures arrivals { arrivals self.new ≡ arrivals self.old }
        ensures room { room self.new ≡ room self.old }
        ensures by_priority { by_priority self.new ≡ prioritized };

    /// How many rows there are, free and held.
    fn len(&self) -> u64
        ensures { result ≡ length (rows self.now) };

    /// How many free rows have at least this priority, where one below 0 counts as 0.
    fn free(&self, least: u8) -> u64
        ensures { result ≡ count_waiting least (rows self.now) };

    /// Makes room for so many more rows. Room that is there is never refused, and a refusal leaves the
    /// queue as it was.
    fn reserve(&mut self, more: u64) -> Result<(), NoMemory>
        ensures enough { OnOk result (more ≤ room self.new) }
        ensures refused { OnErr result (room self.old < more) }
        ensures room { room self.old ≤ room self.new }
        ensures rows { rows self.new ≡ rows self.old }
        ensures arrivals { arrivals self.new ≡ arrivals self.old }
        ensures by_priority { by_priority self.new ≡ by_priority self.old };

    /// Puts a message at the end of its lane, into room that `reserve` made.
    fn insert(&mut self, message: Message)
        requires room { 0 < room self.old }
        requires fresh { Lacks message.ident (rows self.old) }
        requires count { arrivals self.old + 1 < 2 ^ 64 }
        ensures rows { rows self.new ≡ insert_row (row_of (by_priority self.old) message (arrivals self.old + 1)) (rows self.old) }
        ensures arrivals { arrivals self.new ≡ arrivals self.old + 1 }
        ensures room { room self.new ≡ room self.old - 1 }
        ensures by_priority { by_priority self.new ≡ by_priority self.old };

    /// The first free row above `after` that has the ids asked for; none where there is none.
    fn first(&self, want: &Want, after: Option<Place>) -> Option<(Place, Ident)>
        ensures first { result ≡ first_of want.now after (rows self.now) }
        ensures queue { IsQueue (rows self.now) (arrivals self.now) };

    /// The row of which `first` tells, with its message.
    fn first_row(&self, want: &Want, after: Option<Place>) -> Option<&Row>
        ensures { option_copied result ≡ find (is_takable want.now after) (rows self.now) };

    /// The first row above `after`, free or held.
    fn next_row(&self, after: Option<Place>) -> Option<&Row>
        ensures { option_copied result ≡ find (is_after after) (rows self.now) };

    /// The row at a place, free or held.
    fn at(&self, place: Place) -> Option<&Row>
        ensures { option_copied result ≡ find (is_at place) (rows self.now) };

    /// The message with an ident, free or held.
    fn row(&self, ident: &Ident) -> Option<&Message>
        ensures { option_copied result ≡ message_of ident.now (rows self.now) };

    /// Holds the free row with an ident; false exactly where there is none.
    fn hold(&mut self, ident: &Ident, by: &Holder) -> bool
        ensures held { result ≡ list_any (is_free_one ident.now) (rows self.old) }
        ensures rows { rows self.new ≡ retag (hold_row ident.now by.now) (rows self.old) }
        ensures arrivals { arrivals self.new ≡ arrivals self.old }
        ensures room { room self.new ≡ room self.old }
        ensures by_priority { by_priority self.new ≡ by_priority self.old };

    /// Frees the held row with an ident, at its place; false exactly where there is none.
    /// Where the row was backed out its BackoutCount is one higher.
    fn release(&mut self, ident: &Ident, backed_out: bool) -> bool
        ensures released { result ≡ list_any (is_held_one ident.now) (rows self.old) }
        ensures rows { rows self.new ≡ retag (release_row ident.now backed_out) (rows self.old) }
        ensures arrivals { arrivals self.new ≡ arrivals self.old }
        ensures room { room self.new ≡ room self.old }
        ensures by_priority { by_priority self.new ≡ by_priority self.old };

    /// Takes the row with an ident out, free or held; none where there is none.
    fn remove(&mut self, ident: &Ident) -> Option<Message>
        ensures message { result ≡ message_of ident.now (rows self.old) }
        ensures rows { rows self.new ≡ keep (has_other_ident ident.now) (rows self.old) }
        ensures arrivals { arrivals self.new ≡ arrivals self.old }
        ensures room { room self.old ≤ room self.new }
        ensures by_priority { by_priority self.new ≡ by_priority self.old };

    /// Takes all rows out whose messages are not persistent, free or held, as a stop does.
    fn keep_lasting(&mut self)
        ensures rows { rows self.new ≡ keep is_lasting (rows self.old) }
        ensures arrivals { arrivals self.new ≡ arrivals self.old }
        ensures room { room self.old ≤ room self.new }
        ensures by_priority { by_priority self.new ≡ by_priority self.old };

    /// Frees all rows that units hold, each with one backout more, as a stop does.
    fn free_units(&mut self)
        ensures rows { rows self.new ≡ retag unit_freed (rows self.old) }
        ensures arrivals { arrivals self.new ≡ arrivals self.old }
        ensures room { room self.new ≡ room self.old }
        ensures by_priority { by_priority self.new ≡ by_priority self.old };
}
