//! What an entry does to the ledger.
ghost use Rattle.std.specs.Prelude.{◌≡◌, ◌≤◌, OnOk, Some};
ghost use Rattle.mq_spec_manager.specs.Stops.{last_moment};
ghost use Rattle.mq_spec_network.specs.Ledger.{place, take_from, take_gone, take_all_gone, received_on, receive_if, resolved_at, open_to, move_row, row_in, places_at, users_at, move, move_all, trigger, trigger_for, first_placed, obey, stop, stop_if, connect_if, open_if, close_if, post_call, post, cut, found, up_again, come_up, returned, posted, when, is_obeyed};
ghost use Rattle.mq_objects.specs.Names.{local_of};
ghost use Rattle.mq_net_ledger.specs.Posts.{move_posted};
ghost use Rattle.mq_net_ledger.specs.Answers.{come_up_as, post_act};

use crate::answers::{
    first_placed, got_ident, is_done, is_obeyed, is_stopped, is_taken, kept_of, sent_ident,
};
use crate::arriving::{place_posted, receive_if};
use crate::posts::{Posted, moved_of, trigger_of};
use crate::units::{back_out_if, commit_if, disconnect_if, get, put, put1};
use mq_base::{NoMemory, QName};
use mq_calls::{Answer, Appl, Did, Hconn, Hobj, Messages, Open};
use mq_history::{Act, Call, Chance, Entry, Reply};
use mq_message::{Dest, Ident, Message};
use mq_net_books::Books;
use mq_sc_parse::Command;
use std::alloc::Global;

/// An expired row, or one that a rule discarded, is taken.
fn take_gone<'a>(books: &mut Books<'a>, m: usize, did: &Did) -> Result<(), NoMemory>
    ensures { OnOk result (books.new ≡ take_gone m did.now books.old) }
{
    match did {
        Did::Removed { ident, why, .. } => {
            if is_taken(*why) {
                books.take(m, ident)
            } else {
                Ok(())
            }
        }
        _ => Ok(()),
    }
}

fn take_all_gone<'a>(books: &mut Books<'a>, m: usize, delta: &[Did]) -> Result<(), NoMemory>
    ensures { OnOk result (books.new ≡ take_all_gone m delta.now books.old) }
{
    for did in delta {
        take_gone(books, m, did)?;
    }
    Ok(())
}

/// A message leaves its place, and is placed on a queue.
fn move_to<'a>(
    books: &mut Books<'a>,
    m: usize,
    queue: &QName,
    message: Message,
) -> Result<(), NoMemory>
    ensures { OnOk result (books.new ≡ place m queue.now message (take_from m message.ident books.old)) }
{
    let ident = message.ident;
    books.take_from(m, &ident);
    books.place(m, queue, message)
}

fn move_posted<'a>(books: &mut Books<'a>, m: usize, posted: Option<Posted>) -> Result<(), NoMemory>
    ensures { OnOk result (books.new ≡ move_posted m posted books.old) }
{
    match posted {
        None => Ok(()),
        Some(Posted { queue, message }) => move_to(books, m, &queue, message),
    }
}

/// A message is moved, with its header or without, to where the rule's target leads.
#[tactic(auto, using(crate::proofs::PostLaws::move_is))]
fn move_row<'a>(
    books: &mut Books<'a>,
    alloc: Global,
    m: usize,
    to: &Dest,
    bare: bool,
    ident: &Ident,
) -> Result<(), NoMemory>
    ensures { OnOk result (books.new ≡ move_row m to.now bare (row_in ident.now (places_at m books.old).queues) books.old) }
{
    let posted = moved_of(books, alloc, m, to, bare, ident)?;
    move_posted(books, m, posted)
}

fn move_one<'a>(books: &mut Books<'a>, alloc: Global, m: usize, did: &Did) -> Result<(), NoMemory>
    ensures { OnOk result (books.new ≡ move m did.now books.old) }
{
    match did {
        Did::Moved {
            ident,
            target,
            bare,
            ..
        } => move_row(books, alloc, m, target, *bare, ident),
        _ => Ok(()),
    }
}

fn move_all<'a>(
    books: &mut Books<'a>,
    alloc: Global,
    m: usize,
    delta: &[Did],
) -> Result<(), NoMemory>
    ensures { OnOk result (books.new ≡ move_all m delta.now books.old) }
{
    for did in delta {
        move_one(books, alloc, m, did)?;
    }
    Ok(())
}

/// A turn of a channel's end or of a handler.
fn turn<'a>(
    books: &mut Books<'a>,
    alloc: Global,
    m: usize,
    messages: &Messages,
    delta: &[Did],
) -> Result<(), NoMemory>
    ensures { OnOk result (books.new ≡ receive_if m (received_on delta.now) messages.now delta.now (move_all m delta.now books.old)) }
{
    move_all(books, alloc, m, delta)?;
    receive_if(books, alloc, m, messages, delta)
}

/// The message of a trigger turn is placed on its initiation queue.
#[tactic(auto, using(crate::proofs::PostLaws::trigger_is))]
fn trigger_for<'a>(
    books: &mut Books<'a>,
    alloc: Global,
    m: usize,
    ident: &Option<Ident>,
    queue: &QName,
) -> Result<(), NoMemory>
    ensures { OnOk result (books.new ≡ trigger_for m ident.now (local_of queue.now (places_at m books.old).definitions) books.old) }
{
    let posted = trigger_of(books, alloc, m, ident, queue)?;
    place_posted(books, m, posted)
}

/// A trigger turn.
fn trigger<'a>(
    books: &mut Books<'a>,
    alloc: Global,
    m: usize,
    reply: &Reply,
    delta: &[Did],
) -> Result<(), NoMemory>
    ensures { OnOk result (books.new ≡ trigger m reply.now delta.now books.old) }
{
    match reply {
        Reply::Triggered(queue) => trigger_for(books, alloc, m, &first_placed(delta), queue),
        _ => Ok(()),
    }
}

/// A command that was accepted.
fn obey<'a>(
    books: &mut Books<'a>,
    alloc: Global,
    m: usize,
    command: &Command,
) -> Result<(), NoMemory>
    ensures { OnOk result (books.new ≡ obey m command.now books.old) }
{
    match command {
        Command::Objects(command) => books.obey_objects(alloc, m, command),
        _ => Ok(()),
    }
}

fn obey_if<'a>(
    books: &mut Books<'a>,
    alloc: Global,
    m: usize,
    command: &Command,
    reply: &Reply,
) -> Result<(), NoMemory>
    ensures { OnOk result (books.new ≡ when (is_obeyed reply.now) (obey m command.now) books.old) }
{
    if is_obeyed(reply) {
        obey(books, alloc, m, command)
    } else {
        Ok(())
    }
}

/// A manager stops: connections and units are gone, and the nonpersistent rows.
fn stop<'a>(books: &mut Books<'a>, m: usize)
    ensures { books.new ≡ stop m books.old }
{
    books.leave_connections(m);
    books.lose(m);
}

#[tactic(auto, using(crate::proofs::AnswerLaws::stop_done))]
fn stop_if<'a>(books: &mut Books<'a>, m: usize, reply: &Reply)
    ensures { books.new ≡ stop_if reply.now m books.old }
{
    if is_done(reply) {
        stop(books, m);
    }
}

/// What is asked beside MQI calls.
fn act<'a>(
    books: &mut Books<'a>,
    alloc: Global,
    m: usize,
    act: &Act,
    reply: &Reply,
    messages: &Messages,
    delta: &[Did],
) -> Result<(), NoMemory>
    ensures { OnOk result (books.new ≡ post_act m act.now reply.now messages.now delta.now books.old) }
{
    match act {
        Act::Obey(command) => obey_if(books, alloc, m, command, reply),
        Act::Crash => {
            stop_if(books, m, reply);
            Ok(())
        }
        Act::Restart => Ok(()),
        Act::Cut(_) => Ok(()),
        Act::Clock(by) => {
            books.advance(m, *by);
            Ok(())
        }
    }
}

/// MQCONN.
fn connect_if<'a>(
    books: &mut Books<'a>,
    alloc: Global,
    m: usize,
    appl: &Appl,
    reply: &Reply,
) -> Result<(), NoMemory>
    ensures { OnOk result (books.new ≡ connect_if m appl.now reply.now books.old) }
{
    match reply {
        Reply::Connected(Answer::Ok(hc)) => books.connect(alloc, m, hc, appl),
        _ => Ok(()),
    }
}

/// A handle more, which leads where its name leads now.
fn open_to<'a>(
    books: &mut Books<'a>,
    alloc: Global,
    m: usize,
    hc: &Hconn,
    name: &QName,
    qmgr: &QName,
    how: &Open,
    ho: &Hobj,
) -> Result<(), NoMemory>
    ensures { OnOk result (books.new ≡ open_to m hc.now how.now ho.now (resolved_at m name.now qmgr.now books.old) books.old) }
{
    match books.resolved(alloc, m, name, qmgr) {
        Err(_) => Ok(()),
        Ok(route) => books.open(m, hc, how, ho, route),
    }
}

/// MQOPEN.
fn open_if<'a>(
    books: &mut Books<'a>,
    alloc: Global,
    m: usize,
    hc: &Hconn,
    name: &QName,
    qmgr: &QName,
    how: &Open,
    reply: &Reply,
) -> Result<(), NoMemory>
    ensures { OnOk result (books.new ≡ open_if m hc.now name.now qmgr.now how.now reply.now books.old) }
{
    match reply {
        Reply::Opened(Answer::Ok(ho)) => open_to(books, alloc, m, hc, name, qmgr, how, ho),
        _ => Ok(()),
    }
}

/// MQCLOSE.
fn close_if<'a>(books: &mut Books<'a>, m: usize, hc: &Hconn, ho: &Hobj, reply: &Reply)
    ensures { books.new ≡ close_if m hc.now ho.now reply.now books.old }
{
    match reply {
        Reply::Ended(Answer::Ok(())) => books.close(m, hc, ho),
        _ => {}
    }
}

/// What a call does, by its reply and this delta.
fn post_call<'a>(
    books: &mut Books<'a>,
    alloc: Global,
    m: usize,
    call: &Call,
    reply: &Reply,
    messages: &Messages,
    delta: &[Did],
) -> Result<(), NoMemory>
    ensures { OnOk result (books.new ≡ post_call m call.now reply.now messages.now delta.now books.old) }
{
    match call {
        Call::Mqconn { appl, .. } => connect_if(books, alloc, m, appl, reply),
        Call::Mqdisc { hc } => disconnect_if(books, alloc, m, hc, reply),
        Call::Mqopen {
            hc,
            name,
            qmgr,
            how,
        } => open_if(books, alloc, m, hc, name, qmgr, how, reply),
        Call::Mqclose { hc, ho } => {
            close_if(books, m, hc, ho, reply);
            Ok(())
        }
        Call::Mqput {
            hc,
            ho,
            md,
            body,
            sync,
        } => {
            let ident = sent_ident(reply, delta);
            put(books, alloc, *sync, m, hc, ho, &ident, md, body)
        }
        Call::Mqput1 {
            hc,
            name,
            qmgr,
            md,
            body,
            sync,
        } => {
            let ident = sent_ident(reply, delta);
            put1(books, alloc, *sync, m, hc, name, qmgr, &ident, md, body)
        }
        Call::Mqget { hc, get: how, .. } => {
            let ident = got_ident(reply, delta);
            get(books, how, m, hc, &ident)
        }
        Call::Mqcmit { hc } => commit_if(books, alloc, m, hc, reply),
        Call::Mqback { hc } => {
            back_out_if(books, alloc, m, hc, reply);
            Ok(())
        }
        Call::Act(asked) => act(books, alloc, m, asked, reply, messages, delta),
        Call::Turn => turn(books, alloc, m, messages, delta),
        Call::Timeout => Ok(()),
        Call::Trigger => trigger(books, alloc, m, reply, delta),
    }
}

/// Expired and discarded rows are gone, then the call does what it does.
fn post<'a>(
    books: &mut Books<'a>,
    alloc: Global,
    m: usize,
    entry: &Entry,
    delta: &[Did],
) -> Result<(), NoMemory>
    ensures { OnOk result (books.new ≡ post m entry.now delta.now books.old) }
{
    take_all_gone(books, m, delta)?;
    post_call(
        books,
        alloc,
        m,
        &entry.call,
        &entry.reply,
        &entry.effect.received,
        delta,
    )
}

/// A call whose write was stopped: it counts at the restart that finds it.
fn cut<'a>(books: &mut Books<'a>, m: usize, entry: &'a Entry) -> Result<(), NoMemory>
    ensures { OnOk result (books.new ≡ cut m entry.now books.old) }
{
    take_all_gone(books, m, entry.effect.delta.as_slice())?;
    books.halt(m, entry);
    books.lose(m);
    Ok(())
}

/// It counts with the moment at which it was made.
fn found_as<'a>(
    books: &mut Books<'a>,
    alloc: Global,
    m: usize,
    entry: &Entry,
    made: u64,
    delta: &[Did],
) -> Result<(), NoMemory>
    requires { made ≤ last_moment }
    ensures { OnOk result (books.new ≡ found m (Some (record { entry = entry.now; moment = made })) delta.now books.old) }
{
    let moment = books.moment(m);
    books.set_moment(m, made);
    post(books, alloc, m, entry, delta)?;
    books.set_moment(m, moment);
    Ok(())
}

/// The call whose write was stopped is found, if there was one.
fn found<'a>(books: &mut Books<'a>, alloc: Global, m: usize, delta: &[Did]) -> Result<(), NoMemory>
    ensures { OnOk result (books.new ≡ found m (users_at m books.old).cut delta.now books.old) }
{
    match books.halted(m) {
        None => Ok(()),
        Some(halted) => found_as(books, alloc, m, halted.entry, halted.moment, delta),
    }
}

fn up_again<'a>(books: &mut Books<'a>, m: usize)
    ensures { books.new ≡ up_again m books.old }
{
    books.forget_halted(m);
    stop(books, m);
}

fn come_up_as<'a>(
    books: &mut Books<'a>,
    alloc: Global,
    m: usize,
    kept: Option<bool>,
    delta: &[Did],
) -> Result<(), NoMemory>
    ensures { OnOk result (books.new ≡ come_up_as m kept delta.now books.old) }
{
    match kept {
        None => Ok(()),
        Some(true) => {
            found(books, alloc, m, delta)?;
            up_again(books, m);
            Ok(())
        }
        Some(false) => {
            up_again(books, m);
            Ok(())
        }
    }
}

/// A restart that comes up.
#[tactic(auto, using(crate::proofs::AnswerLaws::come_up_kept))]
fn come_up<'a>(
    books: &mut Books<'a>,
    alloc: Global,
    m: usize,
    chance: &Chance,
    delta: &[Did],
) -> Result<(), NoMemory>
    ensures { OnOk result (books.new ≡ come_up m chance.now delta.now books.old) }
{
    come_up_as(books, alloc, m, kept_of(chance), delta)
}

#[tactic(auto, using(crate::proofs::AnswerLaws::returned_done))]
fn returned<'a>(
    books: &mut Books<'a>,
    alloc: Global,
    m: usize,
    reply: &Reply,
    chance: &Chance,
    delta: &[Did],
) -> Result<(), NoMemory>
    ensures { OnOk result (books.new ≡ returned m reply.now chance.now delta.now books.old) }
{
    if is_done(reply) {
        come_up(books, alloc, m, chance, delta)
    } else {
        Ok(())
    }
}

fn answered<'a>(
    books: &mut Books<'a>,
    alloc: Global,
    m: usize,
    entry: &Entry,
) -> Result<(), NoMemory>
    ensures { OnOk result (books.new ≡ returned m entry.now.reply entry.now.chance entry.now.effect.delta (post m entry.now entry.now.effect.delta books.old)) }
{
    let delta = entry.effect.delta.as_slice();
    post(books, alloc, m, entry, delta)?;
    returned(books, alloc, m, &entry.reply, &entry.chance, delta)
}

/// What an entry does.
#[tactic(auto, using(crate::proofs::AnswerLaws::posted_stopped))]
pub fn posted<'a>(
    books: &mut Books<'a>,
    alloc: Global,
    m: usize,
    entry: &'a Entry,
) -> Result<(), NoMemory>
    ensures { OnOk result (books.new ≡ posted m entry.now entry.now.reply books.old) }
{
    if is_stopped(&entry.reply) {
        cut(books, m, entry)
    } else {
        answered(books, alloc, m, entry)
    }
}
