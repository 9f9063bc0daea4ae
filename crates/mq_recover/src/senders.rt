//! What the senders of channels have hardened.
ghost use Rattle.std.specs.Prelude.{◌≡◌, [], true, Some, is_some, OnOk, IfOk};
ghost use Rattle.mq_sync.specs.declared.data.SenderData.{SenderData};
ghost use Rattle.mq_sync.specs.Settlement.{sender_or, data_prepared, data_settled, settle_by};
ghost use Rattle.mq_calls.specs.Reads.{sender_in};
ghost use Rattle.mq_calls.specs.Changes.{set_sender, off_lists};
ghost use Rattle.mq_recover_read.specs.from_spec_log.Applies.{is_unit_in_doubt};
ghost use Rattle.mq_recover.specs.Kept.{struck_at, hardened_of, sender_sides};

use crate::kept::Kept;
use crate::named::ByName;
use crate::sides;
use crate::strikes::{is_known, know_each, left_of, strike};
use indexmap::IndexMap;
use mq_base::{ChName, Items, NoMemory, QName};
use mq_calls::SenderSide;
use mq_message::Ident;
use mq_sync::{InDoubt, SenderData, Unit, copy_doubt};
use std::alloc::Global;
use std::collections::BTreeMap;
use std::marker::Model;

// The list of those that are left.
fn sides_left(
    alloc: Global,
    struck: &IndexMap<Ident, u64>,
    sides: BTreeMap<ByName, Kept>,
) -> Result<Items<SenderSide>, NoMemory>
    ensures { IfOk result (λ found. found ≡ sender_sides (struck_at struck.now) sides.entries) }
{
    let mut found = Items::new(alloc);
    let mut left = sides;
    while let Some((key, kept)) = left.pop_first() {
        let hardened = kept.hardened;
        let hardened = SenderData {
            partner: hardened.partner,
            session: hardened.session,
            last: hardened.last,
            force: hardened.force,
            in_doubt: left_of(struck, kept.since, hardened.in_doubt),
        };
        found.push(SenderSide {
            channel: key.name,
            hardened,
        })?;
    }
    Ok(found)
}

// A copy of what one has hardened, without the idents that were struck.
fn copy_hardened(
    alloc: Global,
    struck: &IndexMap<Ident, u64>,
    kept: &Kept,
) -> Result<SenderData, NoMemory>
    ensures { IfOk result (λ hardened. hardened ≡ hardened_of (struck_at struck.now) kept.now) }
{
    let doubt = copy_doubt(alloc, &kept.hardened.in_doubt)?;
    Ok(SenderData {
        partner: kept.hardened.partner,
        session: kept.hardened.session,
        last: kept.hardened.last,
        force: kept.hardened.force,
        in_doubt: left_of(struck, kept.since, doubt),
    })
}

// Copies of the list of those that are left.
fn copy_sides(
    alloc: Global,
    struck: &IndexMap<Ident, u64>,
    sides: &BTreeMap<ByName, Kept>,
) -> Result<Items<SenderSide>, NoMemory>
    ensures { IfOk result (λ copies. copies ≡ sender_sides (struck_at struck.now) sides.now.entries) }
{
    let mut copies = Items::new(alloc);
    for (key, kept) in sides.iter() {
        let hardened = copy_hardened(alloc, struck, kept)?;
        copies.push(SenderSide {
            channel: key.name,
            hardened,
        })?;
    }
    Ok(copies)
}

/// What the senders of channels have hardened. Contracts see it as a list in order of the channels' names.
#[derive(Drop)]
pub struct Senders {
    sides: BTreeMap<ByName, Kept>,
    // When idents were struck; of another than these none need be looked for in the lists.
    struck: IndexMap<Ident, u64>,
    // How many strikes there were.
    clock: u64,
}

impl Model for Senders {
    ghost use Rattle.std.specs.Prelude.{List};
    ghost use Rattle.mq_calls.specs.declared.state.SenderSide.{SenderSide};
    ghost use Rattle.mq_recover.specs.Kept.{struck_at, is_known, sender_sides, AreKept};

    ghost Value = { List SenderSide };

    ghost view = { λ s. sender_sides (struck_at s.struck) s.sides.entries };

    ghost invariant = { λ s. AreKept (is_known s.struck) (struck_at s.struck) s.clock s.sides.entries };
}

impl Senders {
    /// None has hardened anything.
    pub fn new(alloc: Global) -> Senders
        ensures { result ≡ [] }
    {
        Senders {
            sides: BTreeMap::new(alloc),
            struck: IndexMap::new(alloc),
            clock: 0,
        }
    }

    /// The session that the sender of a channel has hardened, 0 for none.
    pub fn session_of(&self, channel: &ChName) -> u64
        ensures { result ≡ (sender_or (sender_in channel.now self.now)).session }
    {
        sides::session_of(&self.sides, channel)
    }

    /// Whether the sender of a channel has a unit in doubt.
    pub fn is_in_doubt(&self, channel: &ChName) -> bool
        ensures { result ≡ is_some (sender_or (sender_in channel.now self.now)).in_doubt }
    {
        sides::is_in_doubt(&self.sides, channel)
    }

    /// Whether the sender of a channel has that unit in doubt.
    pub fn is_unit_in_doubt(&self, channel: &ChName, unit: Unit) -> bool
        ensures { result ≡ is_unit_in_doubt unit (sender_or (sender_in channel.now self.now)).in_doubt }
    {
        sides::is_unit_in_doubt(&self.sides, channel, unit)
    }

    /// The sender of a channel has begun a session.
    pub fn begin(&mut self, channel: ChName, partner: QName, session: u64) -> Result<(), NoMemory>
        ensures { OnOk result (self.new ≡ set_sender (record { channel = channel; hardened = record (sender_or (sender_in channel self.old)) { partner = partner; session = session } }) self.old) }
    {
        sides::begin(&mut self.sides, channel, partner, session)
    }

    /// The sender of a channel has a unit in doubt.
    pub fn prepare(&mut self, channel: ChName, doubt: InDoubt) -> Result<(), NoMemory>
        ensures { OnOk result (self.new ≡ set_sender (record { channel = channel; hardened = data_prepared doubt (sender_or (sender_in channel self.old)) }) self.old) }
    {
        know_each(&mut self.struck, doubt.idents.as_slice())?;
        sides::prepare(&mut self.sides, channel, doubt, self.clock)
    }

    /// The unit in doubt of a channel's sender is settled.
    pub fn settle(&mut self, channel: ChName, commit: bool) -> Result<(), NoMemory>
        ensures { OnOk result (self.new ≡ set_sender (record { channel = channel; hardened = data_settled (Some (settle_by commit)) (sender_or (sender_in channel self.old)) }) self.old) }
    {
        sides::settle(&mut self.sides, channel, commit)
    }

    /// The sender of a channel has been given a last number by an operator.
    pub fn number(&mut self, channel: ChName, last: u32) -> Result<(), NoMemory>
        ensures { OnOk result (self.new ≡ set_sender (record { channel = channel; hardened = record (sender_or (sender_in channel self.old)) { last = last; force = true } }) self.old) }
    {
        sides::number(&mut self.sides, channel, last)
    }

    /// An ident goes off the list of each unit in doubt.
    pub fn strike(&mut self, ident: &Ident) -> Result<(), NoMemory>
        ensures { OnOk result (self.new ≡ off_lists ident.now self.old) }
    {
        if !is_known(&self.struck, ident) {
            return Ok(());
        }
        let Some(number) = self.clock.checked_add(1) else {
            return Err(NoMemory);
        };
        strike(&mut self.struck, ident, number)?;
        self.clock = number;
        Ok(())
    }

    /// All of them.
    pub fn into_sides(self, alloc: Global) -> Result<Items<SenderSide>, NoMemory>
        ensures { IfOk result (λ sides. sides ≡ self) }
    {
        let struck = self.struck;
        sides_left(alloc, &struck, self.sides)
    }

    /// Copies of all of them.
    pub fn to_sides(&self, alloc: Global) -> Result<Items<SenderSide>, NoMemory>
        ensures { IfOk result (λ sides. sides ≡ self.now) }
    {
        copy_sides(alloc, &self.struck, &self.sides)
    }
}
