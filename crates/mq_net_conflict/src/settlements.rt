//! An operator's settlements, and which of them the receivers bear out.
ghost use Rattle.std.specs.Prelude.{◌≡◌, ◌<◌, length};
ghost use Rattle.mq_spec_network.specs.Standing.{opening_managers};
ghost use Rattle.mq_spec_network.specs.Conflict.{was_last, is_committed, is_past, agrees, conflict_of, conflict_did, first_conflict, conflict, deeds};
ghost use Rattle.mq_story.specs.Spots.{line_at, lines_of};
ghost use Rattle.mq_net_conflict.specs.Told.{as_told, conflict_noted, first_in, first_of};

use crate::openings::{first_told, last_unit};
use crate::told::{ReceiverTold, committed_in, same_unit, told_after};
use mq_base::ChName;
use mq_calls::{Did, Note};
use mq_history::{Conflict, History, Scenario};
use mq_story::{Spot, entry_at};
use mq_sync::Unit;

/// Whether a unit was the last one of a channel's receiver at its first start.
fn was_last(scenario: &Scenario, histories: &[History], channel: &ChName, unit: Unit) -> bool
    ensures { result ≡ was_last scenario.now (opening_managers scenario.now histories.now) channel.now unit }
{
    !same_unit(unit, Unit { session: 0, n: 0 })
        && same_unit(unit, last_unit(scenario, histories, channel))
}

fn is_committed(
    scenario: &Scenario,
    histories: &[History],
    spots: &[Spot],
    channel: &ChName,
    unit: Unit,
) -> bool
    ensures { result ≡ is_committed scenario.now (opening_managers scenario.now histories.now) (deeds (lines_of histories.now spots.now)) channel.now unit }
{
    was_last(scenario, histories, channel, unit) || committed_in(histories, spots, channel, unit)
}

/// Whether a receiver takes no more of a unit's session.
fn is_past(unit: Unit, told: ReceiverTold) -> bool
    ensures { result ≡ is_past unit (as_told told) }
{
    unit.session < told.session || (unit.session == told.session && told.closed)
}

/// Whether the receiver bears a settlement out.
fn agrees(
    scenario: &Scenario,
    histories: &[History],
    spots: &[Spot],
    channel: &ChName,
    unit: Unit,
    commit: bool,
) -> bool
    ensures { result ≡ agrees scenario.now (opening_managers scenario.now histories.now) (deeds (lines_of histories.now spots.now)) channel.now unit commit }
{
    let committed = is_committed(scenario, histories, spots, channel, unit);
    if commit {
        committed
    } else {
        let begun = first_told(scenario, histories, channel);
        let told = told_after(histories, spots, channel, begun);
        !committed && is_past(unit, told)
    }
}

fn conflict_of(manager: usize, channel: &ChName, unit: Unit, agrees: bool) -> Option<Conflict>
    requires { manager < 255 }
    ensures { result ≡ conflict_of manager channel.now unit agrees }
{
    if agrees {
        None
    } else {
        Some(Conflict {
            manager: (manager + 1) as u8,
            channel: *channel,
            unit,
        })
    }
}

fn conflict_noted(
    scenario: &Scenario,
    histories: &[History],
    spots: &[Spot],
    manager: usize,
    channel: &ChName,
    note: &Note,
) -> Option<Conflict>
    requires { manager < 255 }
    ensures { result ≡ conflict_noted scenario.now (opening_managers scenario.now histories.now) (deeds (lines_of histories.now spots.now)) manager channel.now note.now }
{
    match note {
        Note::Resolved {
            unit,
            commit,
            operator,
        } => {
            if *operator {
                let agrees = agrees(scenario, histories, spots, channel, *unit, *commit);
                conflict_of(manager, channel, *unit, agrees)
            } else {
                None
            }
        }
        _ => None,
    }
}

/// The settlement of an operator that was done, if the receiver doesn't bear it out.
fn conflict_did(
    scenario: &Scenario,
    histories: &[History],
    spots: &[Spot],
    manager: usize,
    did: &Did,
) -> Option<Conflict>
    requires { manager < 255 }
    ensures { result ≡ conflict_did scenario.now (opening_managers scenario.now histories.now) (deeds (lines_of histories.now spots.now)) manager did.now }
{
    match did {
        Did::Hardened { channel, note } => {
            conflict_noted(scenario, histories, spots, manager, channel, note)
        }
        _ => None,
    }
}

fn conflict_in(
    scenario: &Scenario,
    histories: &[History],
    spots: &[Spot],
    manager: usize,
    delta: &[Did],
) -> Option<Conflict>
    requires { manager < 255 }
    ensures { result ≡ first_in scenario.now (opening_managers scenario.now histories.now) (deeds (lines_of histories.now spots.now)) manager delta.now }
{
    for did in delta {
        if let Some(found) = conflict_did(scenario, histories, spots, manager, did) {
            return Some(found);
        }
    }
    None
}

#[tactic(auto, using(crate::proofs::ConflictLaws::first_none, crate::proofs::ConflictLaws::first_entry, crate::proofs::ConflictLaws::first_far))]
fn conflict_at(
    scenario: &Scenario,
    histories: &[History],
    spots: &[Spot],
    spot: Spot,
) -> Option<Conflict>
    requires { length histories.now < 256 }
    ensures { result ≡ first_conflict scenario.now (opening_managers scenario.now histories.now) (deeds (lines_of histories.now spots.now)) (deeds (line_at histories.now spot)) }
{
    if spot.manager < histories.len() {
        match entry_at(histories, spot) {
            None => None,
            Some(entry) => {
                let delta = entry.effect.delta.as_slice();
                conflict_in(scenario, histories, spots, spot.manager, delta)
            }
        }
    } else {
        None
    }
}

fn first_conflict(
    scenario: &Scenario,
    histories: &[History],
    spots: &[Spot],
    left: &[Spot],
) -> Option<Conflict>
    requires { length histories.now < 256 }
    ensures { result ≡ first_of scenario.now histories.now (deeds (lines_of histories.now spots.now)) left.now }
{
    for spot in left {
        if let Some(found) = conflict_at(scenario, histories, spots, *spot) {
            return Some(found);
        }
    }
    None
}

/// The first accepted RESOLVE of a story that its receiver doesn't bear out over the whole story; none where each agrees.
/// It takes no memory. In time of the story for each settlement of an operator.
pub fn conflict(scenario: &Scenario, histories: &[History], spots: &[Spot]) -> Option<Conflict>
    requires { length histories.now < 256 }
    ensures { result ≡ conflict scenario.now histories.now (lines_of histories.now spots.now) }
{
    first_conflict(scenario, histories, spots, spots)
}
