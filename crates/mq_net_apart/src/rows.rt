//! The idents of the rows that logs had at the first starts: of all, and of those that count where they stand.
ghost use Rattle.std.specs.Prelude.{◌≡◌, ◌+◌, ◌++◌, ◌∷◌, [], OnOk, map, option_copied};
ghost use Rattle.std.specs.List.{flat_map};
ghost use Rattle.mq_spec_network.specs.Standing.{cable_from, last_unit, opening_managers, is_doubted};
ghost use Rattle.mq_net_apart.specs.Opened.{opened_counts, opened_held, opened_standing, ident_of, all_object, standing_object, all_of, standing_of, standing_if, is_cable};

use crate::hardened::sender_in;
use mq_base::{ChName, Items, NoMemory};
use mq_history::{CableLine, History, Scenario};
use mq_message::{Holder, Ident};
use mq_net_conflict::opened_receiver;
use mq_net_rows::ShelfIndex;
use mq_objects::Object;
use mq_queue::Row;
use mq_sync::{InDoubt, Unit};
use std::alloc::Global;

/// Whether a cable is the one of a channel on which the manager at a place sends.
#[tactic(auto, using(crate::proofs::RowLaws::same_next))]
fn is_cable(cable: &CableLine, at: usize, channel: &ChName) -> bool
    ensures { result ≡ is_cable cable.now (at + 1) channel.now }
{
    *channel == cable.channel && cable.sender as usize == at
}

/// The cable of a channel on which the manager at a place sends.
fn cable_from<'a>(cables: &'a [CableLine], at: usize, channel: &ChName) -> Option<&'a CableLine>
    ensures { option_copied result ≡ cable_from (at + 1) channel.now cables.now }
{
    for cable in cables {
        if is_cable(cable, at, channel) {
            return Some(cable);
        }
    }
    None
}

/// The last unit that the receiver had committed of a channel on which a manager sends.
#[tactic(auto, using(mq_net_conflict::proofs::OpeningLaws::unit_opened))]
fn last_unit(scenario: &Scenario, histories: &[History], at: usize, channel: &ChName) -> Unit
    ensures { result ≡ last_unit (opening_managers scenario.now histories.now) channel.now (cable_from (at + 1) channel.now scenario.now.cables) }
{
    match cable_from(scenario.cables.as_slice(), at, channel) {
        None => Unit { session: 0, n: 0 },
        Some(cable) => match opened_receiver(histories, cable.receiver, channel) {
            None => Unit { session: 0, n: 0 },
            Some(hardened) => hardened.unit,
        },
    }
}

/// Whether a unit in doubt is its receiver's last one.
fn is_doubted(in_doubt: &Option<InDoubt>, last: Unit) -> bool
    ensures { result ≡ is_doubted in_doubt.now last }
{
    match in_doubt {
        None => false,
        Some(doubt) => doubt.unit.session == last.session && doubt.unit.n == last.n,
    }
}

/// Whether a batch counts at its receiver.
fn counts_there(
    scenario: &Scenario,
    histories: &[History],
    at: usize,
    history: &History,
    channel: &ChName,
) -> bool
    ensures { result ≡ opened_counts scenario.now (opening_managers scenario.now histories.now) (at + 1) history.now channel.now }
{
    match sender_in(history.opening.senders.as_slice(), channel) {
        None => false,
        Some(data) => {
            let last = last_unit(scenario, histories, at, channel);
            is_doubted(&data.in_doubt, last)
        }
    }
}

/// Whether who holds a row says that it counts at a receiver.
pub fn is_held_there(
    scenario: &Scenario,
    histories: &[History],
    at: usize,
    history: &History,
    by: &Option<Holder>,
) -> bool
    ensures { result ≡ opened_held scenario.now (opening_managers scenario.now histories.now) (at + 1) history.now by.now }
{
    match by {
        None => false,
        Some(Holder::Unit(_)) => false,
        Some(Holder::Batch(channel)) => counts_there(scenario, histories, at, history, channel),
    }
}

fn put_ident(out: &mut Items<Ident>, row: &Row) -> Result<(), NoMemory>
    ensures { OnOk result (out.new ≡ out.old ++ ident_of row.now ∷ []) }
{
    match out.push(row.message.ident) {
        Ok(()) => Ok(()),
        Err(_) => Err(NoMemory),
    }
}

fn put_all(out: &mut Items<Ident>, rows: &[Row]) -> Result<(), NoMemory>
    ensures { OnOk result (out.new ≡ out.old ++ map ident_of rows.now) }
{
    'rows: for row in rows {
        put_ident(out, row)?;
    }
    Ok(())
}

fn put_if(
    out: &mut Items<Ident>,
    scenario: &Scenario,
    histories: &[History],
    at: usize,
    history: &History,
    row: &Row,
) -> Result<(), NoMemory>
    ensures { OnOk result (out.new ≡ out.old ++ standing_if scenario.now (opening_managers scenario.now histories.now) (at + 1) history.now row.now) }
{
    if is_held_there(scenario, histories, at, history, &row.by) {
        Ok(())
    } else {
        put_ident(out, row)
    }
}

fn put_standing(
    out: &mut Items<Ident>,
    scenario: &Scenario,
    histories: &[History],
    at: usize,
    history: &History,
    rows: &[Row],
) -> Result<(), NoMemory>
    ensures { OnOk result (out.new ≡ out.old ++ flat_map (standing_if scenario.now (opening_managers scenario.now histories.now) (at + 1) history.now) rows.now) }
{
    'rows: for row in rows {
        put_if(out, scenario, histories, at, history, row)?;
    }
    Ok(())
}

/// The idents of a local queue's rows; the index is of the history's queues.
fn put_all_object(
    out: &mut Items<Ident>,
    index: &ShelfIndex,
    history: &History,
    object: &Object,
) -> Result<(), NoMemory>
    requires { index.now ≡ history.now.opening.shelves }
    ensures { OnOk result (out.new ≡ out.old ++ all_object history.now object.now) }
{
    match object {
        Object::Local(queue) => put_all(out, index.rows_in(&queue.name)),
        _ => Ok(()),
    }
}

fn put_standing_object(
    out: &mut Items<Ident>,
    scenario: &Scenario,
    histories: &[History],
    at: usize,
    index: &ShelfIndex,
    history: &History,
    object: &Object,
) -> Result<(), NoMemory>
    requires { index.now ≡ history.now.opening.shelves }
    ensures { OnOk result (out.new ≡ out.old ++ standing_object scenario.now (opening_managers scenario.now histories.now) (at + 1) history.now object.now) }
{
    match object {
        Object::Local(queue) => {
            let rows = index.rows_in(&queue.name);
            put_standing(out, scenario, histories, at, history, rows)
        }
        _ => Ok(()),
    }
}

fn put_all_objects(
    out: &mut Items<Ident>,
    index: &ShelfIndex,
    history: &History,
    objects: &[Object],
) -> Result<(), NoMemory>
    requires { index.now ≡ history.now.opening.shelves }
    ensures { OnOk result (out.new ≡ out.old ++ flat_map (all_object history.now) objects.now) }
{
    'objects: for object in objects {
        put_all_object(out, index, history, object)?;
    }
    Ok(())
}

fn put_standing_objects(
    out: &mut Items<Ident>,
    scenario: &Scenario,
    histories: &[History],
    at: usize,
    index: &ShelfIndex,
    history: &History,
    objects: &[Object],
) -> Result<(), NoMemory>
    requires { index.now ≡ history.now.opening.shelves }
    ensures { OnOk result (out.new ≡ out.old ++ flat_map (standing_object scenario.now (opening_managers scenario.now histories.now) (at + 1) history.now) objects.now) }
{
    'objects: for object in objects {
        put_standing_object(out, scenario, histories, at, index, history, object)?;
    }
    Ok(())
}

fn put_all_history(alloc: Global, out: &mut Items<Ident>, history: &History) -> Result<(), NoMemory>
    ensures { OnOk result (out.new ≡ out.old ++ all_of history.now) }
{
    let index = ShelfIndex::new(alloc, history.opening.shelves.as_slice())?;
    let objects = history.opening.definitions.objects.as_slice();
    put_all_objects(out, &index, history, objects)
}

/// The idents of all rows, manager by manager, queue by queue in order of definition.
pub fn put_row_idents(
    alloc: Global,
    out: &mut Items<Ident>,
    histories: &[History],
) -> Result<(), NoMemory>
    ensures { OnOk result (out.new ≡ out.old ++ flat_map all_of histories.now) }
{
    'managers: for history in histories {
        put_all_history(alloc, out, history)?;
    }
    Ok(())
}

fn put_standing_history(
    alloc: Global,
    out: &mut Items<Ident>,
    scenario: &Scenario,
    histories: &[History],
    at: usize,
    history: &History,
) -> Result<(), NoMemory>
    ensures { OnOk result (out.new ≡ out.old ++ standing_of scenario.now (opening_managers scenario.now histories.now) at history.now) }
{
    let index = ShelfIndex::new(alloc, history.opening.shelves.as_slice())?;
    let objects = history.opening.definitions.objects.as_slice();
    put_standing_objects(out, scenario, histories, at, &index, history, objects)
}

/// The idents of the rows that count where they stand.
pub fn put_standing_idents(
    alloc: Global,
    out: &mut Items<Ident>,
    scenario: &Scenario,
    histories: &[History],
) -> Result<(), NoMemory>
    ensures { OnOk result (out.new ≡ out.old ++ opened_standing scenario.now (opening_managers scenario.now histories.now) 0 histories.now) }
{
    'managers: for (at, history) in histories.iter().enumerate() {
        put_standing_history(alloc, out, scenario, histories, at, history)?;
    }
    Ok(())
}
