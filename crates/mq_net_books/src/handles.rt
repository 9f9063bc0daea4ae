//! The handles of a connection, in the order in which they were opened.
ghost use Rattle.std.specs.Prelude.{◌≡◌, ◌==◌, ◌&&◌, ◌++◌, ◌∷◌, [], OnOk, option_copied, nat_lt, not, filter, position};
ghost use Rattle.mq_calls.specs.declared.state.Handle.{Handle};
ghost use Rattle.mq_calls.specs.Reads.{handle_at};
ghost use Rattle.mq_handles.specs.Rising.{AreRising, handle_number, has_handle_number};
ghost use Rattle.mq_net_books.specs.Handles.{RiseSo};

use mq_base::NoMemory;
use mq_calls::Handle;
use mq_handles::place_of_handle;
use std::alloc::Global;
use std::marker::Model;

/// The handles of a connection, in the order in which they were opened. A manager gives numbers that rise, so one is found by halving;
/// where a history tells numbers that don't, by a walk.
#[derive(Drop)]
pub struct Handles {
    list: Vec<Handle>,
    last: u64,
    // Whether the numbers rose so far, up to the last one.
    rising: bool,
}

impl Model for Handles {
    ghost use Rattle.std.specs.Prelude.{List};
    ghost use Rattle.mq_calls.specs.declared.state.Handle.{Handle};
    ghost use Rattle.mq_net_books.specs.Handles.{RiseSo};

    ghost Value = { List Handle };

    ghost view = { λ h. h.list.items };

    ghost invariant = { λ h. RiseSo h.rising h.last h.list.items };
}

/// The handle of a number, by halving.
#[tactic(auto, using(mq_handles::proofs::SeatLaws::handle_none, mq_handles::proofs::SeatLaws::handle_within))]
fn halve(handles: &[Handle], number: u64) -> Option<&Handle>
    requires { AreRising handle_number handles.now }
    ensures { option_copied result ≡ handle_at number handles.now }
{
    match place_of_handle(handles, number) {
        None => None,
        Some(at) => Some(&handles[at]),
    }
}

/// The handle of a number, by a walk.
fn walk(handles: &[Handle], number: u64) -> Option<&Handle>
    ensures { option_copied result ≡ handle_at number handles.now }
{
    for handle in handles {
        if handle.number == number {
            return Some(handle);
        }
    }
    None
}

fn find_in(handles: &[Handle], rising: bool, last: u64, number: u64) -> Option<&Handle>
    requires { RiseSo rising last handles.now }
    ensures { option_copied result ≡ handle_at number handles.now }
{
    if rising {
        halve(handles, number)
    } else {
        walk(handles, number)
    }
}

fn rises(so_far: bool, last: u64, number: u64) -> bool
    ensures { result ≡ (so_far && nat_lt last number) }
{
    so_far && last < number
}

fn drop_handle(handles: &mut Vec<Handle>, number: u64)
    ensures { handles.new.items ≡ filter (λ (h : Handle). not (h.number == number)) handles.old.items }
{
    handles.retain(|handle| handle.number != number);
}

impl Handles {
    /// None is open.
    pub fn new(alloc: Global) -> Handles
        ensures { result ≡ [] }
    {
        Handles {
            list: Vec::new(alloc),
            last: 0,
            rising: true,
        }
    }

    /// The handle of a number.
    pub fn find(&self, number: u64) -> Option<&Handle>
        ensures { option_copied result ≡ handle_at number self.now }
    {
        find_in(self.list.as_slice(), self.rising, self.last, number)
    }

    /// One more is open.
    pub fn push(&mut self, handle: Handle) -> Result<(), NoMemory>
        ensures { OnOk result (self.new ≡ self.old ++ handle ∷ []) }
    {
        let number = handle.number;
        if self.list.push(handle).is_err() {
            return Err(NoMemory);
        }
        self.rising = rises(self.rising, self.last, number);
        self.last = number;
        Ok(())
    }

    /// The handle of a number goes.
    pub fn remove(&mut self, number: u64)
        ensures { self.new ≡ filter (λ (h : Handle). not (h.number == number)) self.old }
    {
        drop_handle(&mut self.list, number);
    }
}
