//! Which receivers are bound: a list in the order of the channels' names, with a place for each that may be.
ghost use Rattle.std.specs.Prelude.{◌≡◌, ◌<◌, ◌&&◌, ℕ, List, [], true, false, filter, length, not, OnOk, OnErr};
ghost use Rattle.std.specs.List.{list_any};
ghost use Rattle.std.specs.Str.{bytes_eq};
ghost use Rattle.mq_unit.specs.from_calls.Words.{set_named};
ghost use Rattle.mq_sides.specs.Bonds.{KeepsSeats, bound_of, has_seat, seats_of, unbound_at};

use crate::sides::{OfChannel, set_side, side_of};
use mq_base::{ChName, Items, NoMemory};
use std::alloc::Global;
use std::marker::Model;

/// The place of a receiver channel, and whether the channel is bound.
#[derive(Clone, Copy)]
pub struct Bond {
    /// The channel's name.
    pub channel: ChName,
    /// Whether it runs here.
    pub bound: bool,
}

impl OfChannel for Bond {
    ghost channel_of = { λ b. b.channel };

    fn channel(&self) -> &ChName {
        &self.channel
    }
}

/// The receivers that are bound, with a place for each that may be: one that has its place is bound without memory.
#[derive(Drop)]
pub struct Bonds {
    bonds: Items<Bond>,
}

impl Model for Bonds {
    ghost use Rattle.std.specs.Prelude.{ℕ, List};
    ghost use Rattle.mq_sides.specs.Bonds.{BondsKept, bound_of, seats_of};
    ghost use Rattle.mq_sides.specs.Places.{AreByName};

    ghost Value = { BondsKept };

    ghost view = { λ s. record { bound = bound_of s.bonds; seats = seats_of s.bonds } };

    ghost invariant = { λ s. AreByName (λ (name : List ℕ). name) (seats_of s.bonds) };
}

/// Whether a channel's place says that it is bound.
fn is_bond(bond: &Bond, channel: &ChName) -> bool
    ensures { result ≡ bond.now.bound && bytes_eq channel.now bond.now.channel }
{
    bond.bound && *channel == bond.channel
}

/// Whether a channel's place among others says that it is bound.
fn has_bond(bonds: &Items<Bond>, channel: &ChName) -> bool
    ensures { result ≡ list_any (λ (b : Bond). b.bound && bytes_eq channel.now b.channel) bonds.now }
{
    bonds.as_slice().iter().any(|bond| is_bond(bond, channel))
}

/// Whether a channel has a place.
fn has_seat(bonds: &Items<Bond>, channel: &ChName) -> bool
    ensures { result ≡ has_seat channel.now (seats_of bonds.now) }
{
    match side_of(bonds, channel) {
        None => false,
        Some(_) => true,
    }
}

/// The channel at a place isn't bound any more.
#[tactic(auto, using(crate::proofs::BondLaws::set_unbound, crate::proofs::BondLaws::get_unbound))]
fn clear_at(bonds: &mut Items<Bond>, place: usize)
    requires { place < length bonds.old }
    ensures { bonds.new ≡ unbound_at place bonds.old }
{
    let Some(bond) = bonds.get(place) else {
        return;
    };
    let channel = bond.channel;
    *bonds.at_mut(place) = Bond {
        channel,
        bound: false,
    };
}

/// No channel is bound any more; each keeps its place.
fn clear_all(bonds: &mut Items<Bond>)
    ensures bound { bound_of bonds.new ≡ [] }
    ensures seats { seats_of bonds.new ≡ seats_of bonds.old }
{
    for place in 0..bonds.len() {
        clear_at(bonds, place);
    }
}

impl Bonds {
    /// No channel is bound, and none has a place. It takes no memory.
    pub fn new(alloc: Global) -> Bonds
        ensures { result ≡ record { bound = []; seats = [] } }
    {
        Bonds {
            bonds: Items::new(alloc),
        }
    }

    /// Whether a channel is bound.
    pub fn is_bound(&self, channel: &ChName) -> bool
        ensures { result ≡ list_any (bytes_eq channel.now) self.now.bound }
    {
        has_bond(&self.bonds, channel)
    }

    /// A channel is bound from now on. It takes no memory where the channel has its place.
    ///
    /// # Errors
    ///
    /// No memory; nothing has changed.
    pub fn bind(&mut self, channel: &ChName) -> Result<(), NoMemory>
        ensures ok { OnOk result (self.new.bound ≡ set_named (λ (name : List ℕ). name) channel.now self.old.bound) }
        ensures err { OnErr result (self.new ≡ self.old) }
        ensures seats { KeepsSeats self.old.seats self.new.seats }
        ensures lacks { OnErr result (has_seat channel.now self.old.seats ≡ false) }
    {
        let bond = Bond {
            channel: *channel,
            bound: true,
        };
        match set_side(&mut self.bonds, bond) {
            Ok(()) => {}
            Err(NoMemory) => return Err(NoMemory),
        }
        Ok(())
    }

    /// A channel isn't bound from now on; it keeps its place. It takes no memory.
    pub fn unbind(&mut self, channel: &ChName)
        ensures { self.new ≡ record self.old { bound = filter (λ (other : List ℕ). not (bytes_eq channel.now other)) self.old.bound } }
    {
        if !has_seat(&self.bonds, channel) {
            return;
        }
        let bond = Bond {
            channel: *channel,
            bound: false,
        };
        match set_side(&mut self.bonds, bond) {
            Ok(()) => {}
            Err(NoMemory) => unreachable!(),
        }
    }

    /// A channel has its place from now on. It takes no memory where it had one.
    ///
    /// # Errors
    ///
    /// No memory; nothing has changed.
    pub fn seat(&mut self, channel: &ChName) -> Result<(), NoMemory>
        ensures bound { self.new.bound ≡ self.old.bound }
        ensures seats { KeepsSeats self.old.seats self.new.seats }
        ensures ok { OnOk result (has_seat channel.now self.new.seats ≡ true) }
        ensures lacks { OnErr result (has_seat channel.now self.old.seats ≡ false) }
    {
        if has_seat(&self.bonds, channel) {
            return Ok(());
        }
        let bond = Bond {
            channel: *channel,
            bound: false,
        };
        match set_side(&mut self.bonds, bond) {
            Ok(()) => {}
            Err(NoMemory) => return Err(NoMemory),
        }
        Ok(())
    }

    /// No channel is bound any more; each keeps its place. It takes no memory.
    pub fn clear(&mut self)
        ensures { self.new ≡ record self.old { bound = [] } }
    {
        clear_all(&mut self.bonds);
    }
}
