//! Units of work: what a put or a get of one comes to, and what a unit's end does.
ghost use Rattle.std.specs.Prelude.{◌≡◌, OnOk};
ghost use Rattle.mq_spec_manager.specs.Get.{is_destructive};
ghost use Rattle.mq_spec_network.specs.Ledger.{put_row, put, put1, get_row, get_by, take_items, place_items, back_out, commit, connection_of, when, is_ended, disconnect};
ghost use Rattle.mq_net_ledger.specs.Posts.{put_posted, take_item, place_item};

use crate::answers::is_ended;
use crate::posts::{Posted, put_of, put1_of};
use mq_base::{Items, NoMemory, QName};
use mq_calls::{Get, Hconn, Hobj, Item, Take};
use mq_history::Reply;
use mq_message::{Bytes, Ident, Md, Message};
use mq_net_books::Books;
use std::alloc::Global;

/// A row is put: inside a unit it is pending, else it is placed.
fn put_row<'a>(
    books: &mut Books<'a>,
    sync: bool,
    m: usize,
    hc: &Hconn,
    queue: &QName,
    message: Message,
) -> Result<(), NoMemory>
    ensures { OnOk result (books.new ≡ put_row sync m hc.now queue.now message books.old) }
{
    if sync {
        let item = Item::Put {
            queue: *queue,
            message,
        };
        books.pend(m, hc, item)
    } else {
        books.place(m, queue, message)
    }
}

/// What a put comes to.
fn put_posted<'a>(
    books: &mut Books<'a>,
    sync: bool,
    m: usize,
    hc: &Hconn,
    posted: Option<Posted>,
) -> Result<(), NoMemory>
    ensures { OnOk result (books.new ≡ put_posted sync m hc.now posted books.old) }
{
    match posted {
        None => Ok(()),
        Some(Posted { queue, message }) => put_row(books, sync, m, hc, &queue, message),
    }
}

/// An MQPUT with this ident.
#[tactic(auto, using(crate::proofs::PostLaws::put_is))]
pub fn put<'a>(
    books: &mut Books<'a>,
    alloc: Global,
    sync: bool,
    m: usize,
    hc: &Hconn,
    ho: &Hobj,
    ident: &Option<Ident>,
    md: &Md,
    body: &Bytes,
) -> Result<(), NoMemory>
    ensures { OnOk result (books.new ≡ put sync m hc.now ho.now (connection_of m hc.now books.old) ident.now md.now body.now books.old) }
{
    let posted = put_of(books, alloc, m, hc, ho, ident, md, body)?;
    put_posted(books, sync, m, hc, posted)
}

/// An MQPUT1 with this ident: where its name leads now.
#[tactic(auto, using(crate::proofs::PostLaws::put1_is))]
pub fn put1<'a>(
    books: &mut Books<'a>,
    alloc: Global,
    sync: bool,
    m: usize,
    hc: &Hconn,
    name: &QName,
    qmgr: &QName,
    ident: &Option<Ident>,
    md: &Md,
    body: &Bytes,
) -> Result<(), NoMemory>
    ensures { OnOk result (books.new ≡ put1 sync m hc.now name.now qmgr.now (connection_of m hc.now books.old) ident.now md.now body.now books.old) }
{
    let posted = put1_of(books, alloc, m, hc, name, qmgr, ident, md, body)?;
    put_posted(books, sync, m, hc, posted)
}

/// Whether a get takes a row away.
fn is_destructive(take: Take) -> bool
    ensures { result ≡ is_destructive take }
{
    match take {
        Take::Next => true,
        Take::UnderCursor => true,
        Take::BrowseFirst => false,
        Take::BrowseNext => false,
        Take::BrowseUnder => false,
    }
}

/// A row is got: inside a unit it is pending, else the ident is taken.
fn get_row<'a>(
    books: &mut Books<'a>,
    sync: bool,
    m: usize,
    hc: &Hconn,
    ident: &Ident,
) -> Result<(), NoMemory>
    ensures { OnOk result (books.new ≡ get_row sync m hc.now ident.now books.old) }
{
    if sync {
        let item = Item::Take {
            queue: QName::blank(),
            ident: *ident,
            persistent: false,
        };
        books.pend(m, hc, item)
    } else {
        books.take_got(m, ident)
    }
}

/// An MQGET that took this ident. A browse is no get.
pub fn get<'a>(
    books: &mut Books<'a>,
    get: &Get,
    m: usize,
    hc: &Hconn,
    ident: &Option<Ident>,
) -> Result<(), NoMemory>
    ensures { OnOk result (books.new ≡ get_by get.now m hc.now ident.now books.old) }
{
    let Some(ident) = ident else {
        return Ok(());
    };
    if is_destructive(get.take) {
        get_row(books, get.sync, m, hc, ident)
    } else {
        Ok(())
    }
}

/// A get of a unit.
fn take_item<'a>(books: &mut Books<'a>, m: usize, item: &Item) -> Result<(), NoMemory>
    ensures { OnOk result (books.new ≡ take_item m item.now books.old) }
{
    match item {
        Item::Put { .. } => Ok(()),
        Item::Take { ident, .. } => books.take_got(m, ident),
    }
}

/// The gets of a unit are taken.
#[tactic(auto, using(crate::proofs::UnitLaws::take_next))]
fn take_items<'a>(books: &mut Books<'a>, m: usize, items: &[Item]) -> Result<(), NoMemory>
    ensures { OnOk result (books.new ≡ take_items m items.now books.old) }
{
    for item in items {
        take_item(books, m, item)?;
    }
    Ok(())
}

/// A put of a unit.
fn place_item<'a>(books: &mut Books<'a>, m: usize, item: Item) -> Result<(), NoMemory>
    ensures { OnOk result (books.new ≡ place_item m item books.old) }
{
    match item {
        Item::Put { queue, message } => books.place(m, &queue, message),
        Item::Take { .. } => Ok(()),
    }
}

/// The puts of a unit are placed, in put order.
#[tactic(auto, using(crate::proofs::UnitLaws::place_next))]
fn place_items<'a>(books: &mut Books<'a>, m: usize, items: Items<Item>) -> Result<(), NoMemory>
    ensures { OnOk result (books.new ≡ place_items m items books.old) }
{
    let mut left = items.into_vec();
    left.reverse();
    'placing: while let Some(item) = left.pop() {
        place_item(books, m, item)?;
    }
    Ok(())
}

/// A unit's gets are taken, then its puts are placed in put order.
#[tactic(auto, using(crate::proofs::UnitLaws::committed))]
fn commit<'a>(books: &mut Books<'a>, alloc: Global, m: usize, hc: &Hconn) -> Result<(), NoMemory>
    ensures { OnOk result (books.new ≡ commit m hc.now books.old) }
{
    let items = books.end_unit(alloc, m, hc);
    take_items(books, m, items.as_slice())?;
    place_items(books, m, items)
}

/// MQCMIT.
pub fn commit_if<'a>(
    books: &mut Books<'a>,
    alloc: Global,
    m: usize,
    hc: &Hconn,
    reply: &Reply,
) -> Result<(), NoMemory>
    ensures { OnOk result (books.new ≡ when (is_ended reply.now) (commit m hc.now) books.old) }
{
    if is_ended(reply) {
        commit(books, alloc, m, hc)
    } else {
        Ok(())
    }
}

/// MQBACK.
pub fn back_out_if<'a>(books: &mut Books<'a>, alloc: Global, m: usize, hc: &Hconn, reply: &Reply)
    ensures { books.new ≡ when (is_ended reply.now) (back_out m hc.now) books.old }
{
    if is_ended(reply) {
        let _items = books.end_unit(alloc, m, hc);
    }
}

/// A connection ends.
fn end<'a>(books: &mut Books<'a>, alloc: Global, m: usize, hc: &Hconn) -> Result<(), NoMemory>
    ensures { OnOk result (books.new ≡ disconnect m hc.now (commit m hc.now books.old)) }
{
    commit(books, alloc, m, hc)?;
    books.disconnect(alloc, m, hc);
    Ok(())
}

/// MQDISC: its unit is committed, and the connection goes.
pub fn disconnect_if<'a>(
    books: &mut Books<'a>,
    alloc: Global,
    m: usize,
    hc: &Hconn,
    reply: &Reply,
) -> Result<(), NoMemory>
    ensures { OnOk result (books.new ≡ when (is_ended reply.now) (λ x. disconnect m hc.now (commit m hc.now x)) books.old) }
{
    if is_ended(reply) {
        end(books, alloc, m, hc)
    } else {
        Ok(())
    }
}
