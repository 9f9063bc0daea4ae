//! How the ledger begins: with the rows of the logs that count where they stand.
ghost use Rattle.std.specs.Prelude.{◌≡◌, ◌<◌, ◌^◌, ◌-◌, ◌+◌, ◌++◌, ◌∷◌, [], OnOk, IfOk, map};
ghost use Rattle.mq_spec_network.specs.Given.{name_at};
ghost use Rattle.mq_spec_network.specs.Standing.{opening_managers, opening_ledger};
ghost use Rattle.mq_net_ledger.specs.Opened.{row_if, opened_rows, opened_shelf, opened_place, opened_places, opened_user, IsOpened, AreOpened};

use mq_base::{Items, NoMemory, QName};
use mq_calls::Shelf;
use mq_history::{History, Scenario};
use mq_message::Place;
use mq_net_apart::is_held_there;
use mq_net_books::{Account, Books, User};
use mq_queue::Row;
use std::alloc::Global;

/// A copy of a row, numbered by its place on its queue.
fn numbered(alloc: Global, row: &Row, n: u64) -> Result<Row, NoMemory>
    requires { n < 2 ^ 64 - 1 }
    ensures { IfOk result (λ r. r ≡ record row.now { place = record row.now.place { arrival = n + 1 } }) }
{
    let message = row.message.try_clone(alloc)?;
    Ok(Row {
        place: Place {
            lane: row.place.lane,
            arrival: n + 1,
        },
        message,
        by: row.by,
    })
}

fn put_unless(
    alloc: Global,
    out: &mut Items<Row>,
    held: bool,
    row: &Row,
    n: u64,
) -> Result<(), NoMemory>
    requires { n < 2 ^ 64 - 1 }
    ensures { OnOk result (out.new ≡ out.old ++ row_if held n row.now) }
{
    if held {
        Ok(())
    } else {
        let row = numbered(alloc, row, n)?;
        out.push(row)?;
        Ok(())
    }
}

/// The rows of a queue that count here.
fn put_rows(
    alloc: Global,
    out: &mut Items<Row>,
    scenario: &Scenario,
    histories: &[History],
    at: usize,
    history: &History,
    rows: &[Row],
) -> Result<(), NoMemory>
    ensures { OnOk result (out.new ≡ out.old ++ opened_rows scenario.now (opening_managers scenario.now histories.now) (at + 1) history.now 0 rows.now) }
{
    'rows: for (n, row) in rows.iter().enumerate() {
        let held = is_held_there(scenario, histories, at, history, &row.by);
        put_unless(alloc, out, held, row, n as u64)?;
    }
    Ok(())
}

fn shelf(
    alloc: Global,
    scenario: &Scenario,
    histories: &[History],
    at: usize,
    history: &History,
    shelf: &Shelf,
) -> Result<Shelf, NoMemory>
    ensures { IfOk result (λ s. s ≡ opened_shelf scenario.now (opening_managers scenario.now histories.now) (at + 1) history.now shelf.now) }
{
    let mut rows = Items::new(alloc);
    put_rows(
        alloc,
        &mut rows,
        scenario,
        histories,
        at,
        history,
        shelf.rows.as_slice(),
    )?;
    Ok(Shelf {
        name: shelf.name,
        rows,
    })
}

fn put_shelf(
    alloc: Global,
    out: &mut Items<Shelf>,
    scenario: &Scenario,
    histories: &[History],
    at: usize,
    history: &History,
    one: &Shelf,
) -> Result<(), NoMemory>
    ensures { OnOk result (out.new ≡ out.old ++ opened_shelf scenario.now (opening_managers scenario.now histories.now) (at + 1) history.now one.now ∷ []) }
{
    let shelf = shelf(alloc, scenario, histories, at, history, one)?;
    out.push(shelf)?;
    Ok(())
}

fn put_shelves(
    alloc: Global,
    out: &mut Items<Shelf>,
    scenario: &Scenario,
    histories: &[History],
    at: usize,
    history: &History,
    shelves: &[Shelf],
) -> Result<(), NoMemory>
    ensures { OnOk result (out.new ≡ out.old ++ map (opened_shelf scenario.now (opening_managers scenario.now histories.now) (at + 1) history.now) shelves.now) }
{
    'shelves: for one in shelves {
        put_shelf(alloc, out, scenario, histories, at, history, one)?;
    }
    Ok(())
}

/// The name of the manager at a place.
fn name_at(scenario: &Scenario, at: usize) -> QName
    ensures { result ≡ name_at scenario.now at }
{
    match scenario.managers.get(at) {
        None => QName::blank(),
        Some(line) => line.name,
    }
}

/// A manager's account as it begins.
#[tactic(auto, using(crate::proofs::OpenLaws::are_new, crate::proofs::OpenLaws::are_sorted))]
fn account(
    alloc: Global,
    scenario: &Scenario,
    histories: &[History],
    at: usize,
    history: &History,
) -> Result<Account, NoMemory>
    requires { IsOpened history.now }
    ensures { IfOk result (λ a. a ≡ opened_place scenario.now (opening_managers scenario.now histories.now) at history.now) }
{
    let mut queues = Items::new(alloc);
    let shelves = history.opening.shelves.as_slice();
    put_shelves(
        alloc,
        &mut queues,
        scenario,
        histories,
        at,
        history,
        shelves,
    )?;
    let name = name_at(scenario, at);
    Account::new(alloc, name, &history.opening.definitions, queues)
}

fn put_account(
    alloc: Global,
    out: &mut Items<Account>,
    scenario: &Scenario,
    histories: &[History],
    at: usize,
    history: &History,
) -> Result<(), NoMemory>
    requires { IsOpened history.now }
    ensures { OnOk result (out.new ≡ out.old ++ opened_place scenario.now (opening_managers scenario.now histories.now) at history.now ∷ []) }
{
    let account = account(alloc, scenario, histories, at, history)?;
    out.push(account)?;
    Ok(())
}

fn put_accounts(
    alloc: Global,
    out: &mut Items<Account>,
    scenario: &Scenario,
    histories: &[History],
) -> Result<(), NoMemory>
    requires { AreOpened histories.now }
    ensures { OnOk result (out.new ≡ out.old ++ opened_places scenario.now (opening_managers scenario.now histories.now) 0 histories.now) }
{
    'managers: for (at, history) in histories.iter().enumerate() {
        put_account(alloc, out, scenario, histories, at, history)?;
    }
    Ok(())
}

fn put_user<'a>(alloc: Global, out: &mut Items<User<'a>>, history: &History) -> Result<(), NoMemory>
    requires { IsOpened history.now }
    ensures { OnOk result (out.new ≡ out.old ++ opened_user history.now ∷ []) }
{
    out.push(User::new(alloc, history.moment))?;
    Ok(())
}

fn put_users<'a>(
    alloc: Global,
    out: &mut Items<User<'a>>,
    histories: &[History],
) -> Result<(), NoMemory>
    requires { AreOpened histories.now }
    ensures { OnOk result (out.new ≡ out.old ++ map opened_user histories.now) }
{
    'managers: for history in histories {
        put_user(alloc, out, history)?;
    }
    Ok(())
}

/// The ledger as it begins.
#[tactic(auto, using(crate::proofs::OpenLaws::opened_is))]
pub fn begun<'a>(
    alloc: Global,
    scenario: &Scenario,
    histories: &[History],
) -> Result<Books<'a>, NoMemory>
    requires { AreOpened histories.now }
    ensures { IfOk result (λ b. b ≡ opening_ledger scenario.now histories.now) }
{
    let mut accounts = Items::new(alloc);
    put_accounts(alloc, &mut accounts, scenario, histories)?;
    let mut users = Items::new(alloc);
    put_users(alloc, &mut users, histories)?;
    Ok(Books::new(alloc, accounts, users))
}
