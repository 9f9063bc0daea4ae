//! The queues of one manager in order, found by their names.
ghost use Rattle.std.specs.Prelude.{◌≡◌, ◌<◌, ◌++◌, ◌∷◌, [], length, position, OnOk, OnErr};
ghost use Rattle.std.specs.Str.{bytes_eq};
ghost use Rattle.mq_spec_network.specs.Ledger.{change_at};
ghost use Rattle.mq_net_rows.specs.Stored.{seat_on};

use crate::lanes::{Named, put_slot};
use crate::places::{found, note_name};
use indexmap::IndexMap;
use mq_base::{Items, NoMemory, QName};
use std::alloc::Global;
use std::marker::Model;

/// Queues in order, the first of a name found in constant time. Contracts see the list.
#[derive(Drop)]
pub struct Roll {
    queues: Items<Named>,
    // The place of the first queue of each name.
    places: IndexMap<QName, usize>,
}

impl Model for Roll {
    ghost use Rattle.std.specs.Prelude.{List};
    ghost use Rattle.std.specs.Str.{bytes_eq};
    ghost use Rattle.indexmap.specs.IndexMap.{get};
    ghost use Rattle.mq_net_rows.specs.declared.lanes.Named.{Named};
    ghost use Rattle.mq_net_rows.specs.Rolls.{AreFound, queue_name};

    ghost Value = { List Named };

    ghost view = { λ r. r.queues };

    ghost invariant = { λ r. AreFound queue_name (get bytes_eq r.places) r.queues };
}

/// A slot more stands last in its lane on the queue at a place.
#[tactic(auto, using(crate::proofs::SeatLaws::set_same))]
fn seat_at(
    alloc: Global,
    queues: &mut Items<Named>,
    at: usize,
    lane: u8,
    slot: usize,
) -> Result<(), NoMemory>
    requires { at < length queues.old }
    ensures seated { OnOk result (queues.new ≡ change_at at (seat_on lane slot) queues.old) }
    ensures same { OnErr result (queues.new ≡ queues.old) }
{
    put_slot(alloc, &mut queues.at_mut(at).lanes, lane, slot)
}

impl Roll {
    /// No queue.
    pub fn new(alloc: Global) -> Roll
        ensures { result ≡ [] }
    {
        Roll {
            queues: Items::new(alloc),
            places: IndexMap::new(alloc),
        }
    }

    /// How many queues there are.
    pub fn len(&self) -> usize
        ensures { result ≡ length self.now }
    {
        self.queues.len()
    }

    /// The queues in order.
    pub fn as_slice(&self) -> &[Named]
        ensures { result.now ≡ self.now }
    {
        self.queues.as_slice()
    }

    /// The place of the first queue of a name.
    pub fn place_of(&self, name: &QName) -> Option<usize>
        ensures { result ≡ position (λ q. bytes_eq name.now q.name) self.now }
    {
        found(&self.places, name)
    }

    /// A queue more, which stands last.
    pub fn push(&mut self, queue: Named) -> Result<(), NoMemory>
        ensures ok { OnOk result (self.new ≡ self.old ++ queue ∷ []) }
        ensures err { OnErr result (self.new ≡ self.old) }
    {
        let at = self.queues.len();
        let name = queue.name;
        let place = self.place_of(&name);
        if self.queues.push(queue).is_err() {
            return Err(NoMemory);
        }
        if place.is_some() {
            return Ok(());
        }
        if note_name(&mut self.places, &name, at).is_err() {
            let _queue = self.queues.pop();
            return Err(NoMemory);
        }
        Ok(())
    }

    /// A slot more stands last in its lane on the queue at a place.
    pub fn seat(&mut self, alloc: Global, at: usize, lane: u8, slot: usize) -> Result<(), NoMemory>
        requires { at < length self.old }
        ensures seated { OnOk result (self.new ≡ change_at at (seat_on lane slot) self.old) }
        ensures same { OnErr result (self.new ≡ self.old) }
    {
        seat_at(alloc, &mut self.queues, at, lane, slot)
    }
}
