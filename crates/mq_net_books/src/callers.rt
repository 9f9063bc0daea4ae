//! Who is connected to a manager, found by number.
ghost use Rattle.std.specs.Prelude.{◌≡◌, ◌==◌, ◌++◌, ◌∷◌, [], OnOk, option_copied, not, filter, position};
ghost use Rattle.mq_calls.specs.declared.state.Connection.{Connection};
ghost use Rattle.mq_calls.specs.Reads.{connection_at};
ghost use Rattle.mq_calls.specs.Changes.{change_connection};
ghost use Rattle.mq_spec_network.specs.Ledger.{opened_by, close, unit_of};

use crate::caller::Caller;
use mq_base::{Items, NoMemory};
use mq_calls::{Appl, Hconn, Hobj, Item, Open};
use mq_resolve::Route;
use std::alloc::Global;

fn place_in(connections: &[Caller], number: u64) -> Option<usize>
    ensures { result ≡ position (λ (c : Connection). c.number == number) connections.now }
{
    connections.iter().position(|c| c.number() == number)
}

/// The place of the connection of a number.
fn place_of(connections: &Items<Caller>, number: u64) -> Option<usize>
    ensures { result ≡ position (λ (c : Connection). c.number == number) connections.now }
{
    place_in(connections.as_slice(), number)
}

/// The connection of a number.
#[tactic(auto, using(crate::proofs::CallerLaws::at_none, crate::proofs::CallerLaws::at_get))]
pub fn connection_at(connections: &Items<Caller>, number: u64) -> Option<&Caller>
    ensures { option_copied result ≡ connection_at number connections.now }
{
    match place_of(connections, number) {
        None => None,
        Some(at) => connections.get(at),
    }
}

/// A new connection, with nothing open and nothing pending.
pub fn connect(
    alloc: Global,
    connections: &mut Items<Caller>,
    hc: &Hconn,
    appl: &Appl,
) -> Result<(), NoMemory>
    ensures { OnOk result (connections.new ≡ connections.old ++ record { number = hc.now.number; appl = appl.now; handles = []; last_handle = 0; unit = [] } ∷ []) }
{
    connections.push(Caller::new(alloc, hc.number, appl))?;
    Ok(())
}

fn drop_connection(connections: &mut Vec<Caller>, number: u64)
    ensures { connections.new.items ≡ filter (λ (c : Connection). not (c.number == number)) connections.old.items }
{
    connections.retain(|c| c.number() != number);
}

/// The connection of a number goes.
pub fn disconnect(alloc: Global, connections: &mut Items<Caller>, hc: &Hconn)
    ensures { connections.new ≡ filter (λ (c : Connection). not (c.number == hc.now.number)) connections.old }
{
    let mut left = std::mem::replace(connections, Items::new(alloc)).into_vec();
    drop_connection(&mut left, hc.number);
    *connections = Items::from_vec(left);
}

/// A connection has a handle more, which leads by a route.
#[tactic(auto, using(crate::proofs::CallerLaws::changed_found, crate::proofs::CallerLaws::within))]
pub fn open(
    connections: &mut Items<Caller>,
    hc: &Hconn,
    how: &Open,
    ho: &Hobj,
    route: Route,
) -> Result<(), NoMemory>
    ensures { OnOk result (connections.new ≡ change_connection hc.now.number (opened_by how.now ho.now route) connections.old) }
{
    match place_of(connections, hc.number) {
        None => Ok(()),
        Some(at) => connections.at_mut(at).open(how, ho, route),
    }
}

/// A handle of a connection goes.
#[tactic(auto, using(crate::proofs::CallerLaws::changed_found, crate::proofs::CallerLaws::within))]
pub fn close(connections: &mut Items<Caller>, hc: &Hconn, ho: &Hobj)
    ensures { connections.new ≡ change_connection hc.now.number (close ho.now) connections.old }
{
    match place_of(connections, hc.number) {
        None => {}
        Some(at) => connections.at_mut(at).close(ho),
    }
}

/// An item joins the unit of a connection.
#[tactic(auto, using(crate::proofs::CallerLaws::changed_found, crate::proofs::CallerLaws::within))]
pub fn pend(connections: &mut Items<Caller>, hc: &Hconn, item: Item) -> Result<(), NoMemory>
    ensures { OnOk result (connections.new ≡ change_connection hc.now.number (λ (c : Connection). record c { unit = c.unit ++ item ∷ [] }) connections.old) }
{
    match place_of(connections, hc.number) {
        None => Ok(()),
        Some(at) => connections.at_mut(at).pend(item),
    }
}

/// The unit of a connection ends: what was in it.
#[tactic(auto, using(crate::proofs::CallerLaws::changed_found, crate::proofs::CallerLaws::within, crate::proofs::CallerLaws::at_none, crate::proofs::CallerLaws::at_get))]
pub fn end_unit(alloc: Global, connections: &mut Items<Caller>, hc: &Hconn) -> Items<Item>
    ensures unit { result ≡ unit_of (connection_at hc.now.number connections.old) }
    ensures left { connections.new ≡ change_connection hc.now.number (λ (c : Connection). record c { unit = [] }) connections.old }
{
    match place_of(connections, hc.number) {
        None => Items::new(alloc),
        Some(at) => connections.at_mut(at).end_unit(alloc),
    }
}
