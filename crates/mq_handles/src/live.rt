//! The live connections of a manager.
ghost use Rattle.std.specs.Prelude.{◌≡◌, ◌==◌, ◌+◌, ◌^◌, ◌<◌, ◌++◌, ◌∷◌, [], not, filter, position, map as mapped, option_copied, OnOk, OnErr, IfOk, IfSome, IsSome};
ghost use Rattle.std.specs.List.{list_any};
ghost use Rattle.mq_calls.specs.Words.{connection_at, any_handle, has_step, change_connection, made_stale, unit_need};
ghost use Rattle.mq_calls.specs.declared.state.Connection.{Connection};
ghost use Rattle.mq_unit.specs.from_spec_manager.Handles.{new_handle};
ghost use Rattle.mq_unit.specs.Forced.{IsEnded};
ghost use Rattle.mq_handles.specs.Rising.{AreRising, connection_number, has_number};
ghost use Rattle.mq_handles.specs.Seats.{connection_of, opened, closed, cursor_set, pended, given_up, emptied, has_put};
ghost use Rattle.mq_handles.specs.Users.{reads_from, reads_alone_from};

use crate::numbers::place_of_connection;
use crate::seat::Seat;
use crate::users::Users;
use mq_base::{Items, NoMemory, QName};
use mq_calls::below::{PathStep, Route};
use mq_calls::{Appl, Item, Open};
use mq_unit::Ended;
use mq_unit::below::{Ident, Place};
use std::alloc::Global;
use std::marker::Model;

/// The live connections, in the order of their numbers, and the last number given.
///
/// A connection and a handle are found by halving, who uses a queue by its name: no call walks over all handles, but for
/// `make_stale` where a handle's path has the step.
#[derive(Drop)]
pub struct Live {
    live: Items<Seat>,
    last: u64,
    users: Users,
}

impl Model for Live {
    ghost use Rattle.mq_handles.specs.Desks.{Desk, IsDesk};

    ghost Value = { Desk };

    ghost view = { λ s. record { live = s.live; last = s.last } };

    ghost invariant = { λ s. IsDesk s.live s.last s.users };
}

impl Live {
    /// No connection is live, and none was. It takes no memory.
    pub fn new(alloc: Global) -> Live
        ensures { result ≡ record { live = []; last = 0 } }
    {
        Live {
            live: Items::new(alloc),
            last: 0,
            users: Users::new(alloc),
        }
    }

    fn place_of(&self, number: u64) -> Option<usize>
        ensures { result ≡ position (has_number number) self.now.live }
    {
        place_of_connection(self.live.as_slice(), number)
    }

    /// The live connection of a number.
    pub fn get(&self, number: u64) -> Option<&Seat>
        ensures found { option_copied result ≡ connection_at number self.now.live }
        ensures rising { AreRising connection_number self.now.live }
    {
        match self.place_of(number) {
            None => None,
            Some(at) => Some(&self.live.as_slice()[at]),
        }
    }

    /// Whether a handle has the queue open for input.
    pub fn is_read(&self, queue: &QName) -> bool
        ensures { result ≡ any_handle (reads_from queue.now) self.now.live }
    {
        self.users.readers(queue) > 0
    }

    /// Whether a handle has the queue open for input, alone.
    pub fn is_exclusive(&self, queue: &QName) -> bool
        ensures { result ≡ any_handle (reads_alone_from queue.now) self.now.live }
    {
        self.users.alone(queue) > 0
    }

    /// Whether a handle's path has the step, stale or not.
    pub fn has_step(&self, step: &PathStep) -> bool
        ensures { result ≡ any_handle (has_step step.now) self.now.live }
    {
        self.users.steps(step) > 0
    }

    /// Whether an uncommitted put of some connection has the ident. It walks over all units.
    pub fn has_put(&self, ident: &Ident) -> bool
        ensures { result ≡ list_any (has_put ident.now) self.now.live }
    {
        self.live.as_slice().iter().any(|seat| seat.has_put(ident))
    }

    /// A new connection, with the next number.
    ///
    /// # Errors
    ///
    /// No memory; nothing has changed.
    pub fn connect(&mut self, alloc: Global, appl: &Appl) -> Result<u64, NoMemory>
        requires count { self.old.last + 1 < 2 ^ 64 }
        ensures number { IfOk result (λ n. n ≡ self.old.last + 1) }
        ensures live { OnOk result (self.new.live ≡ self.old.live ++ connection_of (self.old.last + 1) appl.now ∷ []) }
        ensures last { OnOk result (self.new.last ≡ self.old.last + 1) }
        ensures err { OnErr result (self.new ≡ self.old) }
    {
        let number = self.last + 1;
        if self.live.push(Seat::new(alloc, number, appl)).is_err() {
            return Err(NoMemory);
        }
        self.last = number;
        Ok(number)
    }

    /// The connection of a number ends with its handles, where it is live. It takes no memory.
    pub fn disconnect(&mut self, number: u64)
        ensures live { self.new.live ≡ filter (λ (c : Connection). not (c.number == number)) self.old.live }
        ensures last { self.new.last ≡ self.old.last }
    {
        match self.place_of(number) {
            None => {}
            Some(at) => {
                let seat = self.live.remove(at);
                self.users.take_all(seat.handles());
            }
        }
    }

    /// A new handle of a connection that is live, with the connection's next number.
    ///
    /// # Errors
    ///
    /// No memory; nothing has changed.
    pub fn open(&mut self, number: u64, how: &Open, route: Route) -> Result<u64, NoMemory>
        requires live { IsSome (connection_at number self.old.live) }
        requires count { IfSome (connection_at number self.old.live) (λ c. c.last_handle + 1 < 2 ^ 64) }
        ensures number { IfOk result (λ n. IfSome (connection_at number self.old.live) (λ c. n ≡ c.last_handle + 1)) }
        ensures live { OnOk result (IfSome (connection_at number self.old.live) (λ c. self.new.live ≡ change_connection number (opened (new_handle how.now route c)) self.old.live)) }
        ensures last { self.new.last ≡ self.old.last }
        ensures err { OnErr result (self.new ≡ self.old) }
    {
        match self.place_of(number) {
            None => unreachable!(),
            Some(at) => self.live.at_mut(at).open(&mut self.users, how, route),
        }
    }

    /// The handle of a number goes, where the connection is live and has it. It takes no memory.
    pub fn close(&mut self, number: u64, handle: u64)
        ensures live { self.new.live ≡ change_connection number (closed handle) self.old.live }
        ensures last { self.new.last ≡ self.old.last }
    {
        match self.place_of(number) {
            None => {}
            Some(at) => self.live.at_mut(at).close(&mut self.users, handle),
        }
    }

    /// The cursor of a handle stands at a place. It takes no memory.
    pub fn set_cursor(&mut self, number: u64, handle: u64, place: Place)
        ensures live { self.new.live ≡ change_connection number (cursor_set handle place) self.old.live }
        ensures last { self.new.last ≡ self.old.last }
    {
        match self.place_of(number) {
            None => {}
            Some(at) => self.live.at_mut(at).set_cursor(handle, place),
        }
    }

    /// The handles whose paths have the step are stale. It takes no memory.
    pub fn make_stale(&mut self, step: &PathStep)
        ensures live { self.new.live ≡ mapped (made_stale step.now) self.old.live }
        ensures last { self.new.last ≡ self.old.last }
    {
        if !self.has_step(step) {
            return;
        }
        stale_seats(&mut self.live, step);
    }

    /// An item more in the unit of a connection, with the room that the unit's end needs for it.
    ///
    /// # Errors
    ///
    /// No memory; nothing has changed.
    pub fn pend(&mut self, number: u64, item: Item) -> Result<(), NoMemory>
        requires { IfSome (connection_at number self.old.live) (λ c. unit_need (c.unit ++ item ∷ []) < 2 ^ 64) }
        ensures live { OnOk result (self.new.live ≡ change_connection number (pended item) self.old.live) }
        ensures last { self.new.last ≡ self.old.last }
        ensures err { OnErr result (self.new ≡ self.old) }
    {
        match self.place_of(number) {
            None => Ok(()),
            Some(at) => self.live.at_mut(at).pend(item),
        }
    }

    /// The last item in the unit of a connection is given up. It takes no memory.
    pub fn give_up(&mut self, number: u64)
        ensures live { self.new.live ≡ change_connection number given_up self.old.live }
        ensures last { self.new.last ≡ self.old.last }
    {
        match self.place_of(number) {
            None => {}
            Some(at) => self.live.at_mut(at).give_up(),
        }
    }

    /// The unit of a connection that is live ends. It takes no memory.
    pub fn end_unit(&mut self, alloc: Global, number: u64) -> Ended
        requires { IsSome (connection_at number self.old.live) }
        ensures live { self.new.live ≡ change_connection number emptied self.old.live }
        ensures last { self.new.last ≡ self.old.last }
        ensures ended { IfSome (connection_at number self.old.live) (λ c. IsEnded c.unit result) }
    {
        match self.place_of(number) {
            None => unreachable!(),
            Some(at) => self.live.at_mut(at).end_unit(alloc),
        }
    }

    /// All connections end with their handles and units, as a stop ends them. It takes no memory.
    pub fn forget_all(&mut self, alloc: Global)
        ensures { self.new ≡ record { live = []; last = self.old.last } }
    {
        self.live.clear();
        self.users = Users::new(alloc);
    }
}

fn stale_seats(seats: &mut Items<Seat>, step: &PathStep)
    ensures { seats.new ≡ mapped (made_stale step.now) seats.old }
{
    for at in 0..seats.len() {
        seats.at_mut(at).make_stale(step);
    }
}
