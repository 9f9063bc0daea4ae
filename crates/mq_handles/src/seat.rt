//! One live connection: its handles, found by their numbers, and its unit.
ghost use Rattle.std.specs.Prelude.{◌≡◌, ◌+◌, ◌∷◌, ◌++◌, ◌<◌, ◌^◌, [], length, option_copied, position, map as mapped, OnOk, OnErr, IfOk};
ghost use Rattle.mq_calls.specs.Words.{handle_at, made_stale, stale_if, is_step, has_step, unit_need};
ghost use Rattle.mq_calls.specs.declared.state.Handle.{Handle};
ghost use Rattle.mq_unit.specs.Forced.{IsEnded};
ghost use Rattle.mq_unit.specs.from_spec_manager.Handles.{new_handle};
ghost use Rattle.mq_handles.specs.Rising.{has_handle_number};
ghost use Rattle.mq_handles.specs.Seats.{connection_of, opened, closed, at_place, cursor_set, pended, given_up, emptied, has_put, puts_ident};
ghost use Rattle.mq_handles.specs.Users.{IsPartOf, IsMoved};

use crate::numbers::place_of_handle;
use crate::users::Users;
use mq_base::NoMemory;
use mq_calls::below::{PathStep, Route};
use mq_calls::{Appl, Handle, Item, Open};
use mq_unit::below::{Ident, Place};
use mq_unit::{Ended, Unit};
use std::alloc::Global;
use std::marker::Model;

fn puts_ident(item: &Item, ident: &Ident) -> bool
    ensures { result ≡ puts_ident ident.now item.now }
{
    match item {
        Item::Put { message, .. } => *ident == message.ident,
        Item::Take { .. } => false,
    }
}

/// A live connection. Contracts see it as the plain connection.
#[derive(Drop)]
pub struct Seat {
    number: u64,
    appl: Appl,
    handles: Vec<Handle>,
    last_handle: u64,
    unit: Unit,
}

impl Model for Seat {
    ghost use Rattle.mq_calls.specs.declared.state.Connection.{Connection};
    ghost use Rattle.mq_handles.specs.Seats.{HasHandles};

    ghost Value = { Connection };

    ghost view = { λ s. record { number = s.number; appl = s.appl; handles = s.handles.items; last_handle = s.last_handle; unit = s.unit } };

    ghost invariant = { λ s. HasHandles s.handles.items s.last_handle };
}

impl Seat {
    /// A connection with no handle and an empty unit. It takes no memory.
    pub fn new(alloc: Global, number: u64, appl: &Appl) -> Seat
        ensures { result ≡ connection_of number appl.now }
    {
        Seat {
            number,
            appl: *appl,
            handles: Vec::new(alloc),
            last_handle: 0,
            unit: Unit::new(alloc),
        }
    }

    /// Its number in the manager's incarnation, from 1.
    pub fn number(&self) -> u64
        ensures { result ≡ self.now.number }
    {
        self.number
    }

    /// Who connected.
    pub fn appl(&self) -> &Appl
        ensures { result.now ≡ self.now.appl }
    {
        &self.appl
    }

    /// The last number that was given to a handle, 0 for none.
    pub fn last_handle(&self) -> u64
        ensures { result ≡ self.now.last_handle }
    {
        self.last_handle
    }

    /// How many handles it holds.
    pub fn handle_count(&self) -> usize
        ensures { result ≡ length self.now.handles }
    {
        self.handles.len()
    }

    /// Its handles, in the order of their numbers.
    pub fn handles(&self) -> &[Handle]
        ensures { result.now ≡ self.now.handles }
    {
        self.handles.as_slice()
    }

    /// The handle of a number, found by halving.
    pub fn handle(&self, number: u64) -> Option<&Handle>
        ensures { option_copied result ≡ handle_at number self.now.handles }
    {
        match self.place_of(number) {
            None => None,
            Some(at) => Some(&self.handles[at]),
        }
    }

    /// Its unit.
    pub fn unit(&self) -> &Unit
        ensures { result.now ≡ self.now.unit }
    {
        &self.unit
    }

    /// Its unit has an uncommitted put of that ident.
    pub fn has_put(&self, ident: &Ident) -> bool
        ensures { result ≡ has_put ident.now self.now }
    {
        self.unit.items().iter().any(|item| puts_ident(item, ident))
    }

    fn place_of(&self, number: u64) -> Option<usize>
        ensures { result ≡ position (has_handle_number number) self.now.handles }
    {
        place_of_handle(self.handles.as_slice(), number)
    }

    /// A handle more, with the next number; `users` counts it in.
    ///
    /// # Errors
    ///
    /// No memory; nothing has changed.
    pub fn open(&mut self, users: &mut Users, how: &Open, route: Route) -> Result<u64, NoMemory>
        requires { self.old.last_handle + 1 < 2 ^ 64 }
        ensures number { IfOk result (λ n. n ≡ self.old.last_handle + 1) }
        ensures ok { OnOk result (self.new ≡ opened (new_handle how.now route self.old) self.old) }
        ensures err { OnErr result (self.new ≡ self.old) }
        ensures users { IsMoved users.old users.new self.old.handles self.new.handles }
    {
        if self.handles.reserve(1).is_err() {
            return Err(NoMemory);
        }
        let Route { end, path } = route;
        if users.add(how, &end, path.as_slice()).is_err() {
            return Err(NoMemory);
        }
        let number = self.last_handle + 1;
        let handle = Handle {
            number,
            how: *how,
            leads: end,
            path,
            stale: false,
            cursor: None,
        };
        match self.handles.push(handle) {
            Ok(()) => {}
            Err(_) => unreachable!(),
        }
        self.last_handle = number;
        Ok(number)
    }

    /// The handle of a number goes, where there is one; `users` counts it out. It takes no memory.
    pub fn close(&mut self, users: &mut Users, number: u64)
        requires { IsPartOf self.old.handles users.old }
        ensures seat { self.new ≡ closed number self.old }
        ensures users { IsMoved users.old users.new self.old.handles self.new.handles }
    {
        match self.place_of(number) {
            None => {}
            Some(at) => {
                users.take(&self.handles[at]);
                self.handles.remove(at);
            }
        }
    }

    /// The cursor of the handle of a number stands at a place. It takes no memory.
    pub fn set_cursor(&mut self, number: u64, place: Place)
        ensures { self.new ≡ cursor_set number place self.old }
    {
        match self.place_of(number) {
            None => {}
            Some(at) => set_cursor_of(&mut self.handles[at], place),
        }
    }

    /// The handles over a step are stale. It takes no memory.
    pub fn make_stale(&mut self, step: &PathStep)
        ensures { self.new ≡ made_stale step.now self.old }
    {
        stale_all(&mut self.handles, step);
    }

    /// An item more in the unit, with the room that its end needs for it.
    ///
    /// # Errors
    ///
    /// No memory; nothing has changed.
    pub fn pend(&mut self, item: Item) -> Result<(), NoMemory>
        requires { unit_need (self.old.unit ++ item ∷ []) < 2 ^ 64 }
        ensures ok { OnOk result (self.new ≡ pended item self.old) }
        ensures err { OnErr result (self.new ≡ self.old) }
    {
        self.unit.push(item)
    }

    /// The last item of its unit is given up. It takes no memory.
    pub fn give_up(&mut self)
        ensures { self.new ≡ given_up self.old }
    {
        self.unit.give_up();
    }

    /// The unit ends. It takes no memory.
    pub fn end_unit(&mut self, alloc: Global) -> Ended
        ensures seat { self.new ≡ emptied self.old }
        ensures ended { IsEnded self.old.unit result }
    {
        self.unit.end(alloc)
    }
}

fn set_cursor_of(handle: &mut Handle, place: Place)
    ensures { handle.new ≡ at_place place handle.old }
{
    handle.cursor = Some(place);
}

fn is_step(step: &PathStep, other: &PathStep) -> bool
    ensures { result ≡ is_step step.now other.now }
{
    match (step, other) {
        (PathStep::Queue(a), PathStep::Queue(b)) => a.text() == b.text(),
        (PathStep::DefXmitq, PathStep::DefXmitq) => true,
        _ => false,
    }
}

fn is_on_path(handle: &Handle, step: &PathStep) -> bool
    ensures { result ≡ has_step step.now handle.now }
{
    handle
        .path
        .as_slice()
        .iter()
        .any(|other| is_step(step, other))
}

fn stale_if_over(handle: &mut Handle, step: &PathStep)
    ensures { handle.new ≡ stale_if (has_step step.now handle.old) handle.old }
{
    if is_on_path(handle, step) {
        handle.stale = true;
    }
}

fn stale_all(handles: &mut [Handle], step: &PathStep)
    ensures { handles.new ≡ mapped (λ (h : Handle). stale_if (has_step step.now h) h) handles.old }
{
    for at in 0..handles.len() {
        stale_if_over(&mut handles[at], step);
    }
}
