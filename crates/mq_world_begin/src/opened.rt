//! With what the histories of managers open that have just begun, and what is their own.
ghost use Rattle.std.specs.Prelude.{◌≡◌, ◌≤◌, ◌<◌, ◌+◌, ◌++◌, ◌∷◌, [], ℕ, IfOk, Some, length, slice_get, vec_len, vec_capacity};
ghost use Rattle.mq_core.specs.Values.{CoreValue};
ghost use Rattle.mq_history.specs.Scenarios.{IsScenario};
ghost use Rattle.mq_history.specs.declared.history.History as histories;
ghost use Rattle.mq_spec_node.specs.Words as nodes;
ghost use Rattle.mq_spec_network.specs.Given.{own_at};
ghost use Rattle.mq_opening.specs.Opened.{JustBegun};
ghost use Rattle.mq_world_begin.specs.Rested.{OpensWith};

use mq_base::{Items, NoMemory, QName};
use mq_begin::below::Manager;
use mq_core::{Core, Parts};
use mq_disk::Disk;
use mq_history::{History, Scenario};
use mq_opening::{opening_length, opening_of};
use mq_own::Own;
use mq_owned::own_of;
use std::alloc::Global;

/// Whose a history is, and the moment with which it opens.
#[derive(Clone, Copy)]
struct Heading {
    number: u8,
    name: QName,
    moment: u64,
}

fn heading_in<D: Disk>(parts: &Parts<D>) -> Heading
    ensures number { result.number ≡ parts.now.number }
    ensures name { result.name ≡ parts.now.name }
    ensures moment { result.moment ≡ parts.now.moment }
{
    Heading {
        number: parts.number,
        name: parts.name,
        moment: parts.moment,
    }
}

fn heading_of<D: Disk>(core: &Core<D>) -> Heading
    ensures number { result.number ≡ core.now.plain.given.number }
    ensures name { result.name ≡ core.now.plain.given.name }
    ensures moment { result.moment ≡ core.now.plain.moment }
{
    heading_in(&core.parts)
}

fn history_in<D: Disk>(alloc: Global, core: &Core<D>) -> Result<History, NoMemory>
    requires begun { JustBegun D.tells core.now }
    ensures { IfOk result (λ h. OpensWith D.tells core.now h) }
{
    let opening = opening_of(alloc, core)?;
    let length = opening_length(core);
    let heading = heading_of(core);
    Ok(History {
        number: heading.number,
        name: heading.name,
        opening,
        length,
        moment: heading.moment,
        entries: Items::new(alloc),
        marks: Items::new(alloc),
    })
}

/// The history of a manager that has just begun.
fn history_of<D: Disk>(alloc: Global, manager: &Manager<D>) -> Result<History, NoMemory>
    requires begun { JustBegun D.tells manager.now }
    ensures { IfOk result (λ h. OpensWith D.tells manager.now h) }
{
    history_in(alloc, &manager.core)
}

/// One value more, in room that was taken.
pub fn with_one<T: Drop>(mut list: Vec<T>, value: T) -> Vec<T>
    requires room { vec_len list < vec_capacity list }
    ensures items { result.items ≡ list.items ++ value ∷ [] }
    ensures len { vec_len result ≡ vec_len list + 1 }
    ensures capacity { vec_capacity result ≡ vec_capacity list }
{
    list.push_reserved(value);
    list
}

/// The histories of managers that have just begun.
pub fn histories_of<D: Disk>(
    alloc: Global,
    managers: &[Manager<D>],
) -> Result<Vec<History>, NoMemory>
    requires begun { (m : ℕ) (v : CoreValue) → slice_get managers.now m ≡ Some v → JustBegun D.tells v }
    ensures all { IfOk result (λ hs. length hs.items ≡ length managers.now) }
    ensures each { IfOk result (λ hs. (m : ℕ) (v : CoreValue) (h : histories.History) → slice_get managers.now m ≡ Some v → slice_get hs.items m ≡ Some h → OpensWith D.tells v h) }
{
    let mut histories = match Vec::with_capacity(alloc, managers.len()) {
        Ok(histories) => histories,
        Err(_) => return Err(NoMemory),
    };
    for manager in managers {
        let history = history_of(alloc, manager)?;
        histories = with_one(histories, history);
    }
    Ok(histories)
}

/// What is a manager's own, as it begins.
fn own_begun<D: Disk>(
    alloc: Global,
    scenario: &Scenario,
    number: u16,
    manager: &Manager<D>,
) -> Result<Own, NoMemory>
    requires scenario { IsScenario scenario.now }
    ensures { IfOk result (λ own. own ≡ (nodes.begun_anew manager.now.plain (own_at scenario.now number)).own) }
{
    own_of(alloc, scenario, number, &manager.core)
}

/// What is each manager's own, as it begins.
pub fn owns_of<D: Disk>(
    alloc: Global,
    scenario: &Scenario,
    managers: &[Manager<D>],
) -> Result<Vec<Own>, NoMemory>
    requires scenario { IsScenario scenario.now }
    requires few { length managers.now ≤ 8 }
    ensures all { IfOk result (λ owns. length owns.items ≡ length managers.now) }
    ensures each { IfOk result (λ owns. (m : ℕ) (v : CoreValue) (own : nodes.Own) → slice_get managers.now m ≡ Some v → slice_get owns.items m ≡ Some own → own ≡ (nodes.begun_anew v.plain (own_at scenario.now m)).own) }
{
    let mut owns = match Vec::with_capacity(alloc, managers.len()) {
        Ok(owns) => owns,
        Err(_) => return Err(NoMemory),
    };
    for manager in managers {
        let own = own_begun(alloc, scenario, owns.len() as u16, manager)?;
        owns = with_one(owns, own);
    }
    Ok(owns)
}
