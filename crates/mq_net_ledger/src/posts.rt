//! What a call places, read from the ledger before anything changes.
ghost use Rattle.std.specs.Prelude.{◌≡◌, IfOk, Some};
ghost use Rattle.mq_spec_manager.specs.Landing.{names_of};
ghost use Rattle.mq_spec_manager.specs.Moves.{bare_if};
ghost use Rattle.mq_spec_network.specs.Ledger.{connection_of, resolved_at, row_in, places_at};
ghost use Rattle.mq_objects.specs.Names.{local_of};
ghost use Rattle.mq_net_ledger.specs.Posts.{put_by_of, put_of, put1_by_of, put1_of, routed, moved_of, received_of, trigger_of};

use crate::messages::bare_if;
use mq_base::{ChName, NoMemory, QName};
use mq_calls::{Hconn, Hobj};
use mq_codes::Reason;
use mq_fill::{dead_message, dest_at, names_of, queue_at};
use mq_message::{Bytes, Dest, Ident, Md, Message};
use mq_net_books::{Books, Caller};
use mq_objects::LocalQueue;
use mq_resolve::{PathStep, RouteEnd};
use mq_trigger::trigger_message;
use std::alloc::Global;

/// A message, and the queue on which it is put.
#[derive(Drop)]
pub struct Posted {
    pub queue: QName,
    pub message: Message,
}

/// A message that a receiver's commit places, and the reason where it is a dead letter.
#[derive(Drop)]
pub struct Arrival {
    pub message: Message,
    pub dead: Option<Reason>,
}

/// A message as a connection puts it by a route.
fn put_by(
    books: &Books<'_>,
    alloc: Global,
    m: usize,
    connection: &Caller,
    end: &RouteEnd,
    path: &[PathStep],
    ident: &Ident,
    md: &Md,
    body: &Bytes,
) -> Result<Posted, NoMemory>
    ensures { IfOk result (λ p. p ≡ put_by_of m connection.now (record { end = end.now; path = path.now }) ident.now md.now body.now books.now) }
{
    let message = books.message_put(alloc, m, ident, connection.appl(), end, path, md, body)?;
    Ok(Posted {
        queue: queue_at(end),
        message,
    })
}

/// By the route of its handle.
fn put_through(
    books: &Books<'_>,
    alloc: Global,
    m: usize,
    connection: &Caller,
    ho: &Hobj,
    ident: &Ident,
    md: &Md,
    body: &Bytes,
) -> Result<Option<Posted>, NoMemory>
    ensures { IfOk result (λ p. p ≡ put_of m ho.now (Some connection.now) (Some ident.now) md.now body.now books.now) }
{
    match connection.handle(ho.number) {
        None => Ok(None),
        Some(handle) => {
            let path = handle.path.as_slice();
            let posted = put_by(
                books,
                alloc,
                m,
                connection,
                &handle.leads,
                path,
                ident,
                md,
                body,
            )?;
            Ok(Some(posted))
        }
    }
}

/// What an MQPUT with this ident puts.
pub fn put_of(
    books: &Books<'_>,
    alloc: Global,
    m: usize,
    hc: &Hconn,
    ho: &Hobj,
    ident: &Option<Ident>,
    md: &Md,
    body: &Bytes,
) -> Result<Option<Posted>, NoMemory>
    ensures { IfOk result (λ p. p ≡ put_of m ho.now (connection_of m hc.now books.now) ident.now md.now body.now books.now) }
{
    let Some(connection) = books.connection(m, hc) else {
        return Ok(None);
    };
    let Some(ident) = ident else {
        return Ok(None);
    };
    put_through(books, alloc, m, connection, ho, ident, md, body)
}

/// By where a name leads now.
fn put1_by(
    books: &Books<'_>,
    alloc: Global,
    m: usize,
    connection: &Caller,
    name: &QName,
    qmgr: &QName,
    ident: &Ident,
    md: &Md,
    body: &Bytes,
) -> Result<Option<Posted>, NoMemory>
    ensures { IfOk result (λ p. p ≡ put1_by_of m connection.now (resolved_at m name.now qmgr.now books.now) ident.now md.now body.now books.now) }
{
    match books.resolved(alloc, m, name, qmgr) {
        Err(_) => Ok(None),
        Ok(route) => {
            let path = route.path.as_slice();
            let posted = put_by(
                books, alloc, m, connection, &route.end, path, ident, md, body,
            )?;
            Ok(Some(posted))
        }
    }
}

/// What an MQPUT1 with this ident puts.
pub fn put1_of(
    books: &Books<'_>,
    alloc: Global,
    m: usize,
    hc: &Hconn,
    name: &QName,
    qmgr: &QName,
    ident: &Option<Ident>,
    md: &Md,
    body: &Bytes,
) -> Result<Option<Posted>, NoMemory>
    ensures { IfOk result (λ p. p ≡ put1_of m name.now qmgr.now (connection_of m hc.now books.now) ident.now md.now body.now books.now) }
{
    let Some(connection) = books.connection(m, hc) else {
        return Ok(None);
    };
    let Some(ident) = ident else {
        return Ok(None);
    };
    put1_by(books, alloc, m, connection, name, qmgr, ident, md, body)
}

/// A message where a name leads.
fn routed(
    books: &Books<'_>,
    alloc: Global,
    m: usize,
    name: &QName,
    qmgr: &QName,
    message: Message,
) -> Option<Posted>
    ensures { result ≡ routed message (resolved_at m name.now qmgr.now books.now) }
{
    match books.resolved(alloc, m, name, qmgr) {
        Err(_) => None,
        Ok(route) => Some(Posted {
            queue: queue_at(&route.end),
            message: Message {
                ident: message.ident,
                md: message.md,
                route: dest_at(&route.end),
                deadline: message.deadline,
                body: message.body,
            },
        }),
    }
}

/// What a rule's target takes: the message of a row, with its header or without.
pub fn moved_of(
    books: &Books<'_>,
    alloc: Global,
    m: usize,
    to: &Dest,
    bare: bool,
    ident: &Ident,
) -> Result<Option<Posted>, NoMemory>
    ensures { IfOk result (λ p. p ≡ moved_of m to.now bare (row_in ident.now (places_at m books.now).queues) books.now) }
{
    match books.row_of(m, ident) {
        None => Ok(None),
        Some(row) => {
            let message = bare_if(alloc, bare, &row.message)?;
            Ok(routed(books, alloc, m, &to.queue, &to.qmgr, message))
        }
    }
}

/// A message where the names that came with it lead.
fn routed_by_names(books: &Books<'_>, alloc: Global, m: usize, message: Message) -> Option<Posted>
    ensures { result ≡ routed message (resolved_at m (names_of message.route).queue (names_of message.route).qmgr books.now) }
{
    let names = names_of(&message.route);
    routed(books, alloc, m, &names.queue, &names.qmgr, message)
}

/// A message on the dead-letter queue, behind a header with this reason.
fn dead_posted(
    books: &Books<'_>,
    alloc: Global,
    m: usize,
    channel: &ChName,
    message: &Message,
    reason: Reason,
) -> Result<Posted, NoMemory>
    ensures { IfOk result (λ p. Some p ≡ received_of m channel.now message.now (Some reason) books.now) }
{
    let moment = books.moment(m);
    let message = dead_message(alloc, channel, &reason, message, moment)?;
    Ok(Posted {
        queue: books.dead_letter_queue(m),
        message,
    })
}

/// What a receiver's commit places of a message: by the names that came, or as a dead letter.
pub fn received_of(
    books: &Books<'_>,
    alloc: Global,
    m: usize,
    channel: &ChName,
    message: Message,
    dead: Option<Reason>,
) -> Result<Option<Posted>, NoMemory>
    ensures { IfOk result (λ p. p ≡ received_of m channel.now message dead books.now) }
{
    match dead {
        None => Ok(routed_by_names(books, alloc, m, message)),
        Some(reason) => Ok(Some(dead_posted(books, alloc, m, channel, &message, reason)?)),
    }
}

/// The message of a queue's trigger, where its process and its initiation queue are defined.
fn trigger_by(
    books: &Books<'_>,
    alloc: Global,
    m: usize,
    ident: &Ident,
    queue: &LocalQueue,
) -> Result<Option<Posted>, NoMemory>
    ensures { IfOk result (λ p. p ≡ trigger_of m (Some ident.now) (Some queue.now) books.now) }
{
    let Some(process) = books.process(m, &queue.process) else {
        return Ok(None);
    };
    let Some(initiation) = books.local(m, &queue.initiation_queue) else {
        return Ok(None);
    };
    let moment = books.moment(m);
    let message = trigger_message(alloc, ident, queue, process, initiation, moment)?;
    Ok(Some(Posted {
        queue: initiation.name,
        message,
    }))
}

/// The message of a trigger turn with this ident, of the queue of a name.
pub fn trigger_of(
    books: &Books<'_>,
    alloc: Global,
    m: usize,
    ident: &Option<Ident>,
    queue: &QName,
) -> Result<Option<Posted>, NoMemory>
    ensures { IfOk result (λ p. p ≡ trigger_of m ident.now (local_of queue.now (places_at m books.now).definitions) books.now) }
{
    let Some(ident) = ident else {
        return Ok(None);
    };
    match books.local(m, queue) {
        None => Ok(None),
        Some(queue) => trigger_by(books, alloc, m, ident, queue),
    }
}
