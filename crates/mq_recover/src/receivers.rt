//! What the receivers of channels have hardened.
ghost use Rattle.std.specs.Prelude.{◌≡◌, [], None, OnOk, IfOk};
ghost use Rattle.mq_calls.specs.Reads.{receiver_in};
ghost use Rattle.mq_calls.specs.Changes.{set_receiver};
ghost use Rattle.mq_sync.specs.Settlement.{receiver_or};
ghost use Rattle.mq_recover.specs.Kept.{receiver_sides};

use crate::named::ByName;
use mq_base::{ChName, Items, NoMemory, QName};
use mq_calls::ReceiverSide;
use mq_sync::{ReceiverData, Unit};
use std::alloc::Global;
use std::collections::BTreeMap;
use std::marker::Model;

/// What the receivers of channels have hardened. Contracts see it as a list in order of the channels' names.
#[derive(Drop)]
pub struct Receivers {
    sides: BTreeMap<ByName, ReceiverData>,
}

impl Model for Receivers {
    ghost use Rattle.std.specs.Prelude.{List};
    ghost use Rattle.mq_calls.specs.declared.state.ReceiverSide.{ReceiverSide};
    ghost use Rattle.mq_recover.specs.Kept.{receiver_sides};

    ghost Value = { List ReceiverSide };

    ghost view = { λ s. receiver_sides s.sides.entries };
}

fn blank() -> ReceiverData
    ensures { result ≡ receiver_or None }
{
    ReceiverData {
        partner: QName::blank(),
        session: 0,
        closed: false,
        unit: Unit { session: 0, n: 0 },
        last: 0,
    }
}

fn copy_receiver(data: &ReceiverData) -> ReceiverData
    ensures { result ≡ data.now }
{
    ReceiverData {
        partner: data.partner,
        session: data.session,
        closed: data.closed,
        unit: data.unit,
        last: data.last,
    }
}

fn copy_sides(
    alloc: Global,
    sides: &BTreeMap<ByName, ReceiverData>,
) -> Result<Items<ReceiverSide>, NoMemory>
    ensures { IfOk result (λ copies. copies ≡ receiver_sides sides.now.entries) }
{
    let mut copies = Items::new(alloc);
    for (key, hardened) in sides.iter() {
        copies.push(ReceiverSide {
            channel: key.name,
            hardened: copy_receiver(hardened),
        })?;
    }
    Ok(copies)
}

impl Receivers {
    /// None has hardened anything.
    pub fn new(alloc: Global) -> Receivers
        ensures { result ≡ [] }
    {
        Receivers {
            sides: BTreeMap::new(alloc),
        }
    }

    /// What the receiver of a channel has hardened; what a new one has where there is none.
    pub fn at(&self, channel: &ChName) -> ReceiverData
        ensures { result ≡ receiver_or (receiver_in channel.now self.now) }
    {
        match self.sides.get(&ByName { name: *channel }) {
            None => blank(),
            Some(data) => copy_receiver(data),
        }
    }

    /// The receiver of a channel has hardened this.
    pub fn set(&mut self, channel: ChName, hardened: ReceiverData) -> Result<(), NoMemory>
        ensures { OnOk result (self.new ≡ set_receiver (record { channel = channel; hardened = hardened }) self.old) }
    {
        self.sides.insert(ByName { name: channel }, hardened)?;
        Ok(())
    }

    /// All of them.
    pub fn into_sides(self, alloc: Global) -> Result<Items<ReceiverSide>, NoMemory>
        ensures { IfOk result (λ sides. sides ≡ self) }
    {
        let mut found = Items::new(alloc);
        let mut left = self.sides;
        while let Some((key, hardened)) = left.pop_first() {
            found.push(ReceiverSide {
                channel: key.name,
                hardened,
            })?;
        }
        Ok(found)
    }

    /// Copies of all of them.
    pub fn to_sides(&self, alloc: Global) -> Result<Items<ReceiverSide>, NoMemory>
        ensures { IfOk result (λ sides. sides ≡ self.now) }
    {
        copy_sides(alloc, &self.sides)
    }
}
