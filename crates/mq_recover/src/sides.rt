//! What is kept of senders by the channels' names: each change of what one has hardened.
ghost use Rattle.std.specs.Prelude.{◌≡◌, ℕ, ◌≤◌, Bool, true, Some, option_copied, option_map, is_some, OnOk, OnErr, IfOk};
ghost use Rattle.std.specs.BTreeMap.{insert_entry};
ghost use Rattle.mq_message.specs.declared.message.Ident.{Ident};
ghost use Rattle.mq_calls.specs.Reads.{sender_in};
ghost use Rattle.mq_recover_read.specs.from_spec_log.Applies.{is_unit_in_doubt};
ghost use Rattle.mq_sync.specs.declared.data.SenderData.{SenderData};
ghost use Rattle.mq_sync.specs.Settlement.{sender_or, data_prepared, data_settled, settle_by};
ghost use Rattle.mq_recover.specs.Kept.{name_cmp, key_named, blank_kept, hardened_of, sender_sides, IsKept, EachKept, IsListed, HasSet};

use crate::kept::Kept;
use crate::named::ByName;
use mq_base::{ChName, NoMemory, QName};
use mq_sync::{InDoubt, SenderData, Unit};
use std::collections::BTreeMap;

fn kept_of<'a>(sides: &'a BTreeMap<ByName, Kept>, channel: &ChName) -> Option<&'a Kept>
    ensures { (struck : Ident → ℕ) → sender_in channel.now (sender_sides struck sides.now.entries) ≡ option_map (hardened_of struck) (option_copied result) }
{
    sides.get(&ByName { name: *channel })
}

/// The session that the sender of a channel has hardened, 0 for none.
pub fn session_of(sides: &BTreeMap<ByName, Kept>, channel: &ChName) -> u64
    ensures { (struck : Ident → ℕ) → result ≡ (sender_or (sender_in channel.now (sender_sides struck sides.now.entries))).session }
{
    match kept_of(sides, channel) {
        None => 0,
        Some(kept) => kept.hardened.session,
    }
}

/// Whether the sender of a channel has a unit in doubt.
pub fn is_in_doubt(sides: &BTreeMap<ByName, Kept>, channel: &ChName) -> bool
    ensures { (struck : Ident → ℕ) → result ≡ is_some (sender_or (sender_in channel.now (sender_sides struck sides.now.entries))).in_doubt }
{
    match kept_of(sides, channel) {
        None => false,
        Some(kept) => kept.hardened.in_doubt.is_some(),
    }
}

fn is_unit(unit: Unit, doubt: &Option<InDoubt>) -> bool
    ensures { result ≡ is_unit_in_doubt unit doubt.now }
{
    match doubt {
        None => false,
        Some(doubt) => doubt.unit.session == unit.session && doubt.unit.n == unit.n,
    }
}

/// Whether the sender of a channel has that unit in doubt.
pub fn is_unit_in_doubt(sides: &BTreeMap<ByName, Kept>, channel: &ChName, unit: Unit) -> bool
    ensures { (struck : Ident → ℕ) → result ≡ is_unit_in_doubt unit (sender_or (sender_in channel.now (sender_sides struck sides.now.entries))).in_doubt }
{
    match kept_of(sides, channel) {
        None => false,
        Some(kept) => is_unit(unit, &kept.hardened.in_doubt),
    }
}

fn blank() -> Kept
    ensures { result ≡ blank_kept }
{
    Kept {
        hardened: SenderData {
            partner: QName::blank(),
            session: 0,
            last: 0,
            force: false,
            in_doubt: None,
        },
        since: 0,
    }
}

// What is kept for a channel; a blank stands for it meanwhile.
fn take(sides: &mut BTreeMap<ByName, Kept>, channel: ChName) -> Result<Kept, NoMemory>
    ensures was { IfOk result (λ k. (struck : Ident → ℕ) → hardened_of struck k ≡ sender_or (sender_in channel (sender_sides struck sides.old.entries))) }
    ensures kept { (known : Ident → Bool) (clock : ℕ) → EachKept known clock sides.old.entries → IfOk result (IsKept known clock) }
    ensures ok { OnOk result (sides.new.entries ≡ insert_entry name_cmp sides.old.entries (key_named channel) blank_kept) }
    ensures err { OnErr result (sides.new.entries ≡ sides.old.entries) }
{
    let before = sides.insert(ByName { name: channel }, blank())?;
    match before {
        None => Ok(blank()),
        Some(kept) => Ok(kept),
    }
}

// This is kept for a channel.
fn put(sides: &mut BTreeMap<ByName, Kept>, channel: ChName, kept: Kept) -> Result<(), NoMemory>
    ensures ok { OnOk result (sides.new.entries ≡ insert_entry name_cmp sides.old.entries (key_named channel) kept) }
    ensures err { OnErr result (sides.new.entries ≡ sides.old.entries) }
{
    sides.insert(ByName { name: channel }, kept)?;
    Ok(())
}

/// The sender of a channel has begun a session.
pub fn begin(
    sides: &mut BTreeMap<ByName, Kept>,
    channel: ChName,
    partner: QName,
    session: u64,
) -> Result<(), NoMemory>
    ensures ok { OnOk result ((struck : Ident → ℕ) → HasSet struck channel (λ (d : SenderData). record d { partner = partner; session = session }) sides.old.entries sides.new.entries) }
    ensures kept { (known : Ident → Bool) (clock : ℕ) → EachKept known clock sides.old.entries → EachKept known clock sides.new.entries }
{
    let mut kept = take(sides, channel)?;
    kept.hardened.partner = partner;
    kept.hardened.session = session;
    put(sides, channel, kept)
}

/// The sender of a channel has a unit in doubt, behind so many strikes.
pub fn prepare(
    sides: &mut BTreeMap<ByName, Kept>,
    channel: ChName,
    doubt: InDoubt,
    since: u64,
) -> Result<(), NoMemory>
    ensures ok { OnOk result ((struck : Ident → ℕ) → ((ident : Ident) → struck ident ≤ since) → HasSet struck channel (data_prepared doubt) sides.old.entries sides.new.entries) }
    ensures kept { (known : Ident → Bool) → IsListed known (Some doubt) → EachKept known since sides.old.entries → EachKept known since sides.new.entries }
{
    let mut kept = take(sides, channel)?;
    kept.hardened.force = false;
    kept.hardened.in_doubt = Some(doubt);
    kept.since = since;
    put(sides, channel, kept)
}

fn last_settled(hardened: &SenderData, commit: bool) -> u32
    ensures { result ≡ (data_settled (Some (settle_by commit)) hardened.now).last }
{
    match &hardened.in_doubt {
        None => hardened.last,
        Some(doubt) => { if commit { doubt.last } else { hardened.last } }
    }
}

/// The unit in doubt of a channel's sender is settled: a commit takes its last number over.
pub fn settle(
    sides: &mut BTreeMap<ByName, Kept>,
    channel: ChName,
    commit: bool,
) -> Result<(), NoMemory>
    ensures ok { OnOk result ((struck : Ident → ℕ) → HasSet struck channel (data_settled (Some (settle_by commit))) sides.old.entries sides.new.entries) }
    ensures kept { (known : Ident → Bool) (clock : ℕ) → EachKept known clock sides.old.entries → EachKept known clock sides.new.entries }
{
    let mut kept = take(sides, channel)?;
    kept.hardened.last = last_settled(&kept.hardened, commit);
    kept.hardened.in_doubt = None;
    put(sides, channel, kept)
}

/// The sender of a channel has been given a last number by an operator.
pub fn number(
    sides: &mut BTreeMap<ByName, Kept>,
    channel: ChName,
    last: u32,
) -> Result<(), NoMemory>
    ensures ok { OnOk result ((struck : Ident → ℕ) → HasSet struck channel (λ (d : SenderData). record d { last = last; force = true }) sides.old.entries sides.new.entries) }
    ensures kept { (known : Ident → Bool) (clock : ℕ) → EachKept known clock sides.old.entries → EachKept known clock sides.new.entries }
{
    let mut kept = take(sides, channel)?;
    kept.hardened.last = last;
    kept.hardened.force = true;
    put(sides, channel, kept)
}
