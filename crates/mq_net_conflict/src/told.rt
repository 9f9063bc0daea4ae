//! What a story tells of a channel's receiver: the units that it committed, and its session.
ghost use Rattle.std.specs.Prelude.{◌≡◌};
ghost use Rattle.std.specs.List.{list_any};
ghost use Rattle.mq_sync.specs.Units.{same_unit};
ghost use Rattle.mq_spec_network.specs.Conflict.{told_by, told_after, commits, committed_in, deeds};
ghost use Rattle.mq_story.specs.Spots.{line_at, lines_of};
ghost use Rattle.mq_net_conflict.specs.Told.{as_told, told_noted, told_dids, told_spots, committed_at};

use mq_base::ChName;
use mq_calls::{Did, Note};
use mq_history::History;
use mq_story::{Spot, entry_at};
use mq_sync::Unit;

/// A receiver as a story tells it: its session, and whether that is closed.
#[derive(Clone, Copy)]
pub struct ReceiverTold {
    pub session: u64,
    pub closed: bool,
}

/// Whether two units are one.
pub fn same_unit(a: Unit, b: Unit) -> bool
    ensures { result ≡ same_unit a b }
{
    a.session == b.session && a.n == b.n
}

/// What a receiver's record tells of it.
fn told_noted(channel: &ChName, other: &ChName, note: &Note, told: ReceiverTold) -> ReceiverTold
    ensures { as_told result ≡ told_noted channel.now other.now note.now (as_told told) }
{
    match note {
        Note::Bound { session, .. } => {
            if *channel == *other {
                ReceiverTold {
                    session: *session,
                    closed: false,
                }
            } else {
                told
            }
        }
        Note::Closed { .. } => {
            if *channel == *other {
                ReceiverTold {
                    session: told.session,
                    closed: true,
                }
            } else {
                told
            }
        }
        _ => told,
    }
}

fn told_by(channel: &ChName, did: &Did, told: ReceiverTold) -> ReceiverTold
    ensures { as_told result ≡ told_by channel.now did.now (as_told told) }
{
    match did {
        Did::Hardened {
            channel: other,
            note,
        } => told_noted(channel, other, note, told),
        _ => told,
    }
}

fn told_in(channel: &ChName, delta: &[Did], begun: ReceiverTold) -> ReceiverTold
    ensures { as_told result ≡ told_dids channel.now delta.now (as_told begun) }
{
    let mut told = begun;
    'telling: for did in delta {
        told = told_by(channel, did, told);
    }
    told
}

#[tactic(auto, using(crate::proofs::ToldLaws::told_none, crate::proofs::ToldLaws::told_entry))]
fn told_at(histories: &[History], spot: Spot, channel: &ChName, told: ReceiverTold) -> ReceiverTold
    ensures { as_told result ≡ told_after channel.now (deeds (line_at histories.now spot)) (as_told told) }
{
    match entry_at(histories, spot) {
        None => told,
        Some(entry) => told_in(channel, entry.effect.delta.as_slice(), told),
    }
}

fn told_spots(
    histories: &[History],
    spots: &[Spot],
    channel: &ChName,
    begun: ReceiverTold,
) -> ReceiverTold
    ensures { as_told result ≡ told_spots histories.now channel.now spots.now (as_told begun) }
{
    let mut told = begun;
    'telling: for spot in spots {
        told = told_at(histories, *spot, channel, told);
    }
    told
}

/// A receiver after a story, from how it was.
pub fn told_after(
    histories: &[History],
    spots: &[Spot],
    channel: &ChName,
    begun: ReceiverTold,
) -> ReceiverTold
    ensures { as_told result ≡ told_after channel.now (deeds (lines_of histories.now spots.now)) (as_told begun) }
{
    told_spots(histories, spots, channel, begun)
}

fn commits(channel: &ChName, unit: Unit, did: &Did) -> bool
    ensures { result ≡ commits channel.now unit did.now }
{
    match did {
        Did::Received {
            channel: other,
            unit: committed,
        } => *channel == *other && same_unit(unit, *committed),
        _ => false,
    }
}

fn commits_any(channel: &ChName, unit: Unit, delta: &[Did]) -> bool
    ensures { result ≡ list_any (commits channel.now unit) delta.now }
{
    delta.iter().any(|did| commits(channel, unit, did))
}

#[tactic(auto, using(crate::proofs::ToldLaws::committed_none, crate::proofs::ToldLaws::committed_entry))]
fn committed_at(histories: &[History], channel: &ChName, unit: Unit, spot: Spot) -> bool
    ensures { result ≡ committed_at histories.now channel.now unit spot }
{
    match entry_at(histories, spot) {
        None => false,
        Some(entry) => commits_any(channel, unit, entry.effect.delta.as_slice()),
    }
}

fn any_committed(histories: &[History], spots: &[Spot], channel: &ChName, unit: Unit) -> bool
    ensures { result ≡ list_any (committed_at histories.now channel.now unit) spots.now }
{
    spots
        .iter()
        .any(|spot| committed_at(histories, channel, unit, *spot))
}

/// Whether the receiver of a channel committed a unit in a story.
pub fn committed_in(histories: &[History], spots: &[Spot], channel: &ChName, unit: Unit) -> bool
    ensures { result ≡ committed_in channel.now unit (deeds (lines_of histories.now spots.now)) }
{
    any_committed(histories, spots, channel, unit)
}
