//! What a log has told so far.
ghost use Rattle.std.specs.Prelude.{◌≡◌, Some, is_some, IfOk, OnOk};
ghost use Rattle.mq_calls.specs.declared.records.LogRecord.TheVariants as records;
ghost use Rattle.mq_sync.specs.declared.data.End.TheVariants as ends;
ghost use Rattle.mq_sync.specs.Settlement.{data_prepared, data_settled, settle_by};
ghost use Rattle.mq_recover_read.specs.from_spec_log.Records.{doing, set_number};
ghost use Rattle.mq_recover_read.specs.from_spec_log.Applies.{is_unit_in_doubt, can_add, can_remove, can_add_all, can_remove_all};
ghost use Rattle.mq_recover_read.specs.from_spec_log.Bodies.{empty_image};
ghost use Rattle.mq_recover_read.specs.from_spec_log.Shelves.{added, removed, added_all, removed_all, sender_at, receiver_at, with_sender, with_receiver};
ghost use Rattle.mq_recover.specs.Recovering.{seen, Does};

use crate::objects::{fits, lane_on};
use crate::receivers::Receivers;
use crate::senders::Senders;
use mq_base::{ChName, Items, NoMemory, QName};
use mq_calls::{Add, Image, Remove};
use mq_objects::{Defs, copy_definitions};
use mq_shelves::Shelves;
use mq_sync::{InDoubt, ReceiverData, Unit};
use std::alloc::Global;

/// What a log has told so far.
#[derive(Drop)]
pub struct Recovering {
    /// The objects.
    pub defs: Defs,
    /// The local queues with their rows.
    pub shelves: Shelves,
    /// What senders have hardened, in order of the channels' names.
    pub senders: Senders,
    /// What receivers have hardened, in order of the channels' names.
    pub receivers: Receivers,
    /// The greatest incarnation that was started, 0 for none.
    pub incarnation: u64,
}

impl Recovering {
    /// Nothing was told.
    pub fn new(alloc: Global) -> Recovering
        ensures { seen result ≡ empty_image }
    {
        Recovering {
            defs: Defs::new(alloc),
            shelves: Shelves::new(alloc),
            senders: Senders::new(alloc),
            receivers: Receivers::new(alloc),
            incarnation: 0,
        }
    }

    /// The image so far.
    pub fn into_image(self, alloc: Global) -> Result<Image, NoMemory>
        ensures { IfOk result (λ image. image ≡ seen self) }
    {
        let definitions = copy_definitions(alloc, &self.defs)?;
        let shelves = self.shelves.into_shelves(alloc)?;
        let senders = self.senders.into_sides(alloc)?;
        let receivers = self.receivers.into_sides(alloc)?;
        Ok(Image {
            definitions,
            shelves,
            senders,
            receivers,
            incarnation: self.incarnation,
        })
    }

    /// A copy of the image so far.
    pub fn to_image(&self, alloc: Global) -> Result<Image, NoMemory>
        ensures { IfOk result (λ image. image ≡ seen self.now) }
    {
        let definitions = copy_definitions(alloc, &self.defs)?;
        let shelves = self.shelves.to_shelves(alloc)?;
        let senders = self.senders.to_sides(alloc)?;
        let receivers = self.receivers.to_sides(alloc)?;
        Ok(Image {
            definitions,
            shelves,
            senders,
            receivers,
            incarnation: self.incarnation,
        })
    }

    /// The session that the sender of a channel has hardened, 0 for none.
    pub fn session_of(&self, channel: &ChName) -> u64
        ensures { result ≡ (sender_at channel.now (seen self.now)).session }
    {
        self.senders.session_of(channel)
    }

    /// Whether the sender of a channel has a unit in doubt.
    pub fn is_in_doubt(&self, channel: &ChName) -> bool
        ensures { result ≡ is_some (sender_at channel.now (seen self.now)).in_doubt }
    {
        self.senders.is_in_doubt(channel)
    }

    /// Whether the sender of a channel has that unit in doubt.
    pub fn is_unit_in_doubt(&self, channel: &ChName, unit: Unit) -> bool
        ensures { result ≡ is_unit_in_doubt unit (sender_at channel.now (seen self.now)).in_doubt }
    {
        self.senders.is_unit_in_doubt(channel, unit)
    }

    /// The sender of a channel has begun a session.
    pub fn begin(&mut self, channel: ChName, partner: QName, session: u64) -> Result<(), NoMemory>
        ensures { OnOk result (seen self.new ≡ doing (records.Session channel partner session) (seen self.old)) }
    {
        self.senders.begin(channel, partner, session)
    }

    /// The sender of a channel has a unit in doubt.
    pub fn doubt(&mut self, channel: ChName, doubt: InDoubt) -> Result<(), NoMemory>
        ensures { OnOk result (seen self.new ≡ with_sender channel (data_prepared doubt (sender_at channel (seen self.old))) (seen self.old)) }
    {
        self.senders.prepare(channel, doubt)
    }

    /// The unit in doubt of a channel's sender is settled, its rows apart.
    pub fn settle(&mut self, channel: ChName, commit: bool) -> Result<(), NoMemory>
        ensures { OnOk result (seen self.new ≡ with_sender channel (data_settled (Some (settle_by commit)) (sender_at channel (seen self.old))) (seen self.old)) }
    {
        self.senders.settle(channel, commit)
    }

    /// The sender of a channel has been given a last number by an operator.
    pub fn number(&mut self, channel: ChName, last: u32) -> Result<(), NoMemory>
        ensures { OnOk result (seen self.new ≡ set_number ends.Sender last channel (seen self.old)) }
    {
        self.senders.number(channel, last)
    }

    /// What the receiver of a channel has hardened.
    pub fn receiver_at(&self, channel: &ChName) -> ReceiverData
        ensures { result ≡ receiver_at channel.now (seen self.now) }
    {
        self.receivers.at(channel)
    }

    /// The receiver of a channel has hardened this.
    pub fn set_receiver(&mut self, channel: ChName, hardened: ReceiverData) -> Result<(), NoMemory>
        ensures { OnOk result (seen self.new ≡ with_receiver channel hardened (seen self.old)) }
    {
        self.receivers.set(channel, hardened)
    }

    /// A message is placed, where it fits its queue and no free row has its ident. A held row of its ident goes.
    pub fn add(&mut self, alloc: Global, add: Add) -> Result<bool, NoMemory>
        ensures { IfOk result (λ done. Does (can_add add (seen self.old)) (added add (seen self.old)) done (seen self.new)) }
    {
        let Add { queue, message } = add;
        if !fits(&self.defs, &queue, &message) || self.shelves.stands_on(&message.ident) {
            return Ok(false);
        }
        self.senders.strike(&message.ident)?;
        let lane = lane_on(&self.defs, &queue, &message);
        self.shelves.replace(alloc, &queue, lane, message)?;
        Ok(true)
    }

    /// A free row goes, where it stands on the queue.
    pub fn remove(&mut self, remove: &Remove) -> bool
        ensures { Does (can_remove remove.now (seen self.old)) (removed remove.now (seen self.old)) result (seen self.new) }
    {
        if !self.shelves.take(&remove.queue, &remove.ident) {
            return false;
        }
        true
    }

    /// Messages are placed in order, where each may be.
    pub fn add_all(&mut self, alloc: Global, adds: Items<Add>) -> Result<bool, NoMemory>
        ensures { IfOk result (λ done. Does (can_add_all adds (seen self.old)) (added_all adds (seen self.old)) done (seen self.new)) }
    {
        let mut left = adds.into_vec();
        left.reverse();
        while let Some(add) = left.pop() {
            if !self.add(alloc, add)? {
                return Ok(false);
            }
        }
        Ok(true)
    }

    /// Rows go in order, where each may.
    pub fn remove_all(&mut self, removes: &[Remove]) -> bool
        ensures { Does (can_remove_all removes.now (seen self.old)) (removed_all removes.now (seen self.old)) result (seen self.new) }
    {
        for remove in removes {
            if !self.remove(remove) {
                return false;
            }
        }
        true
    }
}
