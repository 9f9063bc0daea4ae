//! A receiver's commit: what it placed is taken from where it was, and placed anew.
ghost use Rattle.std.specs.Prelude.{◌≡◌, ◌++◌, OnOk, IfOk};
ghost use Rattle.mq_message.specs.declared.message.Message.{Message};
ghost use Rattle.mq_spec_network.specs.Ledger.{own_row, place_received, receive, received_on, receive_if, idents_of};
ghost use Rattle.mq_net_apart.specs.from_net_rows.Homes.{home_of};
ghost use Rattle.mq_net_ledger.specs.Posts.{place_posted};
ghost use Rattle.mq_net_ledger.specs.Reasons.{AreTold};
ghost use Rattle.mq_net_ledger.specs.Arrivals.{arrival_of, arrivals_of, arrivals, place_arrivals};

use crate::answers::received_on;
use crate::messages::copy_with_route;
use crate::posts::{Arrival, Posted, received_of};
use crate::reasons::{dead_reason, places_told};
use indexmap::IndexMap;
use mq_base::{ChName, Items, NoMemory};
use mq_calls::{Did, Messages};
use mq_message::{Ident, Message};
use mq_net_books::Books;
use std::alloc::Global;

/// The content that the ledger has of a message that came, with the names that came; else what came.
fn own_row(books: &Books<'_>, alloc: Global, came: &Message) -> Result<Message, NoMemory>
    ensures { IfOk result (λ m. m ≡ own_row books.now came.now) }
{
    match books.row_at(&came.ident) {
        None => Ok(came.try_clone(alloc)?),
        Some(row) => copy_with_route(alloc, &row.message, &came.route),
    }
}

/// A message as it will be placed. The reason is told by the ident that came.
fn arrival_of(
    books: &Books<'_>,
    alloc: Global,
    delta: &[Did],
    told: &IndexMap<Ident, usize>,
    message: &Message,
) -> Result<Arrival, NoMemory>
    requires { AreTold (home_of told.now) delta.now }
    ensures { IfOk result (λ a. a ≡ arrival_of delta.now books.now message.now) }
{
    let dead = dead_reason(delta, told, &message.ident);
    let message = own_row(books, alloc, message)?;
    Ok(Arrival { message, dead })
}

/// It is listed, if it is placed at all.
fn list_arrival(
    out: &mut Items<Arrival>,
    books: &Books<'_>,
    alloc: Global,
    delta: &[Did],
    told: &IndexMap<Ident, usize>,
    message: &Message,
) -> Result<(), NoMemory>
    requires { AreTold (home_of told.now) delta.now }
    ensures { OnOk result (out.new ≡ out.old ++ arrivals_of delta.now books.now message.now) }
{
    if books.is_admitted(message) {
        let arrival = arrival_of(books, alloc, delta, told, message)?;
        out.push(arrival)?;
    }
    Ok(())
}

fn list_arrivals(
    out: &mut Items<Arrival>,
    books: &Books<'_>,
    alloc: Global,
    delta: &[Did],
    told: &IndexMap<Ident, usize>,
    messages: &[Message],
) -> Result<(), NoMemory>
    requires { AreTold (home_of told.now) delta.now }
    ensures { OnOk result (out.new ≡ out.old ++ arrivals delta.now books.now messages.now) }
{
    'listing: for message in messages {
        list_arrival(out, books, alloc, delta, told, message)?;
    }
    Ok(())
}

/// The messages of a receiver's commit that are placed.
fn arrivals(
    books: &Books<'_>,
    alloc: Global,
    delta: &[Did],
    messages: &[Message],
) -> Result<Items<Arrival>, NoMemory>
    ensures { IfOk result (λ list. list ≡ arrivals delta.now books.now messages.now) }
{
    let told = places_told(alloc, delta)?;
    let mut out = Items::new(alloc);
    list_arrivals(&mut out, books, alloc, delta, &told, messages)?;
    Ok(out)
}

fn idents_of(alloc: Global, messages: &[Message]) -> Result<Items<Ident>, NoMemory>
    ensures { IfOk result (λ idents. idents ≡ idents_of messages.now) }
{
    let mut idents = Items::new(alloc);
    'listing: for message in messages {
        idents.push(message.ident)?;
    }
    Ok(idents)
}

/// What was read before is placed.
pub fn place_posted<'a>(
    books: &mut Books<'a>,
    m: usize,
    posted: Option<Posted>,
) -> Result<(), NoMemory>
    ensures { OnOk result (books.new ≡ place_posted m posted books.old) }
{
    match posted {
        None => Ok(()),
        Some(Posted { queue, message }) => books.place(m, &queue, message),
    }
}

/// One message of a receiver's commit: by the names that came, or behind a header on the dead-letter queue.
#[tactic(auto, using(crate::proofs::PostLaws::received_is))]
fn place_received<'a>(
    books: &mut Books<'a>,
    alloc: Global,
    m: usize,
    channel: &ChName,
    arrival: Arrival,
) -> Result<(), NoMemory>
    ensures { OnOk result (books.new ≡ place_received m channel.now arrival.message arrival.dead books.old) }
{
    let Arrival { message, dead } = arrival;
    let posted = received_of(books, alloc, m, channel, message, dead)?;
    place_posted(books, m, posted)
}

fn place_arrivals<'a>(
    books: &mut Books<'a>,
    alloc: Global,
    m: usize,
    channel: &ChName,
    arrivals: Items<Arrival>,
) -> Result<(), NoMemory>
    ensures { OnOk result (books.new ≡ place_arrivals m channel.now arrivals books.old) }
{
    let mut left = arrivals.into_vec();
    left.reverse();
    'landing: while let Some(arrival) = left.pop() {
        place_received(books, alloc, m, channel, arrival)?;
    }
    Ok(())
}

/// A receiver's commit: all idents of its list are taken, then those admitted are placed in list order.
#[tactic(auto, using(crate::proofs::ArrivalLaws::listed))]
fn receive<'a>(
    books: &mut Books<'a>,
    alloc: Global,
    m: usize,
    channel: &ChName,
    messages: &[Message],
    delta: &[Did],
) -> Result<(), NoMemory>
    ensures { OnOk result (books.new ≡ receive m channel.now messages.now delta.now books.old) }
{
    let arrivals = arrivals(books, alloc, delta, messages)?;
    let idents = idents_of(alloc, messages)?;
    books.take_everywhere(idents.as_slice());
    place_arrivals(books, alloc, m, channel, arrivals)
}

/// A receiver's commit, if the delta tells one.
pub fn receive_if<'a>(
    books: &mut Books<'a>,
    alloc: Global,
    m: usize,
    messages: &Messages,
    delta: &[Did],
) -> Result<(), NoMemory>
    ensures { OnOk result (books.new ≡ receive_if m (received_on delta.now) messages.now delta.now books.old) }
{
    match received_on(delta) {
        None => Ok(()),
        Some(channel) => receive(books, alloc, m, &channel, messages.as_slice(), delta),
    }
}
