//! Idents of rows that don't belong together.
ghost use Rattle.std.specs.Prelude.{◌≡◌, ◌≤◌, length, nat_lt, count_by, IfOk};
ghost use Rattle.std.specs.List.{flat_map};
ghost use Rattle.mq_message.specs.declared.message.Ident.{Ident};
ghost use Rattle.mq_queue.specs.Rows.{same_ident};
ghost use Rattle.mq_shelves.specs.Spots.{is_met};
ghost use Rattle.mq_spec_network.specs.Standing.{opening_managers};
ghost use Rattle.mq_spec_network.specs.Apart.{newer_case, ident_case, idents_apart, row_idents, standing_idents, apart};
ghost use Rattle.mq_net_apart.specs.Opened.{opened_known, opened_standing, all_of};

use crate::cables::cables_apart;
use crate::rows::{put_row_idents, put_standing_idents};
use crate::twice::twice_of;
use indexmap::IndexMap;
use mq_base::{Items, NoMemory};
use mq_history::{Apart, History, Scenario};
use mq_message::Ident;
use mq_shelves::is_met;
use std::alloc::Global;

/// The incarnation up to which the log of a manager knew its idents.
fn known(histories: &[History], manager: u8) -> Option<u64>
    ensures { result ≡ opened_known histories.now manager }
{
    if manager == 0 {
        return None;
    }
    match histories.get(manager as usize - 1) {
        None => None,
        Some(history) => Some(history.opening.incarnation),
    }
}

fn newer_case(ident: &Ident, known: Option<u64>) -> Option<Apart>
    ensures { result ≡ newer_case ident.now known }
{
    match known {
        None => None,
        Some(known) => {
            if known < ident.incarnation {
                Some(Apart::Newer(*ident, known))
            } else {
                None
            }
        }
    }
}

/// Whether an ident counts twice.
fn is_twice(standing: &[Ident], twice: &IndexMap<Ident, bool>, ident: &Ident) -> bool
    requires { (k : Ident) → is_met twice.now k ≡ nat_lt 1 (count_by (same_ident k) standing.now) }
    ensures { result ≡ nat_lt 1 (count_by (same_ident ident.now) standing.now) }
{
    is_met(twice, ident)
}

/// An ident that counts twice, or that its manager's log doesn't know yet.
#[tactic(auto, using(crate::proofs::CableLaws::or_none, crate::proofs::IdentLaws::known_opened))]
fn ident_case(
    scenario: &Scenario,
    histories: &[History],
    standing: &[Ident],
    twice: &IndexMap<Ident, bool>,
    ident: &Ident,
) -> Option<Apart>
    requires { (k : Ident) → is_met twice.now k ≡ nat_lt 1 (count_by (same_ident k) standing.now) }
    ensures { result ≡ ident_case (opening_managers scenario.now histories.now) standing.now ident.now }
{
    if is_twice(standing, twice, ident) {
        return Some(Apart::Twice(*ident));
    }
    newer_case(ident, known(histories, ident.manager))
}

fn idents_apart(
    scenario: &Scenario,
    histories: &[History],
    standing: &[Ident],
    twice: &IndexMap<Ident, bool>,
    idents: &[Ident],
) -> Option<Apart>
    requires { (k : Ident) → is_met twice.now k ≡ nat_lt 1 (count_by (same_ident k) standing.now) }
    ensures { result ≡ idents_apart (opening_managers scenario.now histories.now) standing.now idents.now }
{
    for ident in idents {
        if let Some(found) = ident_case(scenario, histories, standing, twice, ident) {
            return Some(found);
        }
    }
    None
}

fn row_idents(alloc: Global, histories: &[History]) -> Result<Items<Ident>, NoMemory>
    ensures { IfOk result (λ idents. idents ≡ flat_map all_of histories.now) }
{
    let mut idents = Items::new(alloc);
    put_row_idents(alloc, &mut idents, histories)?;
    Ok(idents)
}

fn standing_idents(
    alloc: Global,
    scenario: &Scenario,
    histories: &[History],
) -> Result<Items<Ident>, NoMemory>
    ensures { IfOk result (λ idents. idents ≡ opened_standing scenario.now (opening_managers scenario.now histories.now) 0 histories.now) }
{
    let mut idents = Items::new(alloc);
    put_standing_idents(alloc, &mut idents, scenario, histories)?;
    Ok(idents)
}

fn opened_apart(
    alloc: Global,
    scenario: &Scenario,
    histories: &[History],
) -> Result<Option<Apart>, NoMemory>
    ensures { IfOk result (λ found. found ≡ idents_apart (opening_managers scenario.now histories.now) (opened_standing scenario.now (opening_managers scenario.now histories.now) 0 histories.now) (flat_map all_of histories.now)) }
{
    let standing = standing_idents(alloc, scenario, histories)?;
    let twice = twice_of(alloc, standing.as_slice())?;
    let idents = row_idents(alloc, histories)?;
    Ok(idents_apart(
        scenario,
        histories,
        standing.as_slice(),
        &twice,
        idents.as_slice(),
    ))
}

/// The first ident of a row that doesn't belong there.
fn rows_apart(
    alloc: Global,
    scenario: &Scenario,
    histories: &[History],
) -> Result<Option<Apart>, NoMemory>
    ensures { IfOk result (λ found. found ≡ idents_apart (opening_managers scenario.now histories.now) (standing_idents scenario.now (opening_managers scenario.now histories.now)) (row_idents (opening_managers scenario.now histories.now))) }
{
    opened_apart(alloc, scenario, histories)
}

/// The first case in which the logs of the managers don't belong together, cable by cable, then ident by ident; none where
/// they do.
///
/// # Errors
///
/// No memory.
pub fn compare(
    alloc: Global,
    scenario: &Scenario,
    histories: &[History],
) -> Result<Option<Apart>, NoMemory>
    requires { length scenario.now.cables ≤ 65536 }
    ensures { IfOk result (λ found. found ≡ apart scenario.now histories.now) }
{
    let cables = scenario.cables.as_slice();
    if let Some(found) = cables_apart(scenario, histories, cables) {
        return Ok(Some(found));
    }
    rows_apart(alloc, scenario, histories)
}
