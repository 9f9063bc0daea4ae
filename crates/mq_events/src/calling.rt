//! The calls of a manager as events.
ghost use Rattle.std.specs.Prelude.{◌≡◌, [], Some};
ghost use Rattle.mq_manager.specs.Facts.{MayCount};
ghost use Rattle.mq_history.specs.declared.calls.Call.TheVariants as calls;
ghost use Rattle.mq_history.specs.declared.calls.Reply.TheVariants as replies;
ghost use Rattle.mq_events.specs.Outcomes.{part_by, choice_by, reply_by, is_wanting, outcome_of, next_due, TurnEnds, Ends, EndsSo};
ghost use Rattle.mq_spec_manager.specs.Get.{is_waiting};

use crate::outcome::{Outcome, Told};
use mq_base::{NoMemory, QName};
use mq_calls::{
    Answer, Appl, Choice, Delta, Did, Get, GetAnswer, Got, Halt, Hconn, Hobj, Open, Sent,
};
use mq_codes::Reason;
use mq_disk::Disk;
use mq_history::Reply;
use mq_manager::Manager;
use mq_message::Md;

/// Which part of a call a stopped write belongs to, by what was told before it.
fn part_by(delta: &[Did]) -> u32
    ensures { result ≡ part_by delta.now }
{
    if delta.is_empty() { 0 } else { 1 }
}

/// The choice behind the end of a call.
fn choice_by<F, T>(ended: &Result<T, Halt<F>>, delta: &[Did], left: u32) -> Choice
    ensures { result ≡ choice_by ended.now delta.now left }
{
    match ended {
        Ok(_) => Choice::Runs,
        Err(Halt::Refused(_)) => Choice::Runs,
        Err(Halt::NoMemory) => Choice::NoMemory,
        Err(Halt::Stopped(by)) => Choice::Stopped {
            by: *by,
            part: part_by(delta),
            left,
        },
    }
}

/// What the manager tells of the call that ended so. It takes no memory.
pub fn told<D: Disk, F, T>(manager: &mut Manager<D>, ended: &Result<T, Halt<F>>) -> Told
    ensures choice { result.choice ≡ choice_by ended.now manager.old.delta manager.old.plain.log.armed }
    ensures delta { result.delta ≡ manager.old.delta }
    ensures after { manager.new ≡ record manager.old { delta = [] } }
{
    let left = manager.armed();
    let delta = manager.take_delta();
    Told {
        choice: choice_by(ended, delta.as_slice(), left),
        delta,
    }
}

fn connected(ended: Result<Answer<Hconn>, Halt<Reason>>) -> Reply
    ensures { result ≡ reply_by replies.Connected ended }
{
    match ended {
        Ok(answer) => Reply::Connected(answer),
        Err(Halt::Refused(reason)) => Reply::Connected(Answer::Failed(reason)),
        Err(Halt::NoMemory) => Reply::Connected(Answer::Failed(Reason::StorageNotAvailable)),
        Err(Halt::Stopped(by)) => Reply::Stopped(by),
    }
}

fn opened(ended: Result<Answer<Hobj>, Halt<Reason>>) -> Reply
    ensures { result ≡ reply_by replies.Opened ended }
{
    match ended {
        Ok(answer) => Reply::Opened(answer),
        Err(Halt::Refused(reason)) => Reply::Opened(Answer::Failed(reason)),
        Err(Halt::NoMemory) => Reply::Opened(Answer::Failed(Reason::StorageNotAvailable)),
        Err(Halt::Stopped(by)) => Reply::Stopped(by),
    }
}

fn ended(ended: Result<Answer<()>, Halt<Reason>>) -> Reply
    ensures { result ≡ reply_by replies.Ended ended }
{
    match ended {
        Ok(answer) => Reply::Ended(answer),
        Err(Halt::Refused(reason)) => Reply::Ended(Answer::Failed(reason)),
        Err(Halt::NoMemory) => Reply::Ended(Answer::Failed(Reason::StorageNotAvailable)),
        Err(Halt::Stopped(by)) => Reply::Stopped(by),
    }
}

fn sent(ended: Result<Answer<Sent>, Halt<Reason>>) -> Reply
    ensures { result ≡ reply_by replies.Put ended }
{
    match ended {
        Ok(answer) => Reply::Put(answer),
        Err(Halt::Refused(reason)) => Reply::Put(Answer::Failed(reason)),
        Err(Halt::NoMemory) => Reply::Put(Answer::Failed(Reason::StorageNotAvailable)),
        Err(Halt::Stopped(by)) => Reply::Stopped(by),
    }
}

/// MQCONN as an event.
pub fn mqconn<D: Disk>(manager: &mut Manager<D>, qmgr: &QName, appl: &Appl) -> Outcome
    requires low { MayCount manager.old.plain }
    ensures { EndsSo (calls.Mqconn qmgr.now appl.now) manager.old result manager.new }
{
    let ended = manager.mqconn(qmgr, appl);
    let Told { choice, delta } = told(manager, &ended);
    let reply = connected(ended);
    Outcome {
        choice,
        reply,
        delta,
    }
}

/// MQOPEN as an event.
pub fn mqopen<D: Disk>(
    manager: &mut Manager<D>,
    hc: Hconn,
    name: &QName,
    qmgr: &QName,
    how: &Open,
) -> Outcome
    requires low { MayCount manager.old.plain }
    ensures { EndsSo (calls.Mqopen hc name.now qmgr.now how.now) manager.old result manager.new }
{
    let ended = manager.mqopen(hc, name, qmgr, how);
    let Told { choice, delta } = told(manager, &ended);
    let reply = opened(ended);
    Outcome {
        choice,
        reply,
        delta,
    }
}

/// MQCLOSE as an event.
pub fn mqclose<D: Disk>(manager: &mut Manager<D>, hc: Hconn, ho: Hobj) -> Outcome
    ensures { EndsSo (calls.Mqclose hc ho) manager.old result manager.new }
{
    let done = manager.mqclose(hc, ho);
    let Told { choice, delta } = told(manager, &done);
    let reply = ended(done);
    Outcome {
        choice,
        reply,
        delta,
    }
}

/// MQPUT as an event.
pub fn mqput<D: Disk>(
    manager: &mut Manager<D>,
    hc: Hconn,
    ho: Hobj,
    md: &Md,
    body: &[u8],
    sync: bool,
) -> Outcome
    requires low { MayCount manager.old.plain }
    ensures { EndsSo (calls.Mqput hc ho md.now body.now sync) manager.old result manager.new }
{
    let ended = manager.mqput(hc, ho, md, body, sync);
    let Told { choice, delta } = told(manager, &ended);
    let reply = sent(ended);
    Outcome {
        choice,
        reply,
        delta,
    }
}

/// MQPUT1 as an event.
pub fn mqput1<D: Disk>(
    manager: &mut Manager<D>,
    hc: Hconn,
    name: &QName,
    qmgr: &QName,
    md: &Md,
    body: &[u8],
    sync: bool,
) -> Outcome
    requires low { MayCount manager.old.plain }
    ensures { EndsSo (calls.Mqput1 hc name.now qmgr.now md.now body.now sync) manager.old result manager.new }
{
    let ended = manager.mqput1(hc, name, qmgr, md, body, sync);
    let Told { choice, delta } = told(manager, &ended);
    let reply = sent(ended);
    Outcome {
        choice,
        reply,
        delta,
    }
}

/// MQCMIT as an event.
pub fn mqcmit<D: Disk>(manager: &mut Manager<D>, hc: Hconn) -> Outcome
    requires low { MayCount manager.old.plain }
    ensures { EndsSo (calls.Mqcmit hc) manager.old result manager.new }
{
    let done = manager.mqcmit(hc);
    let Told { choice, delta } = told(manager, &done);
    let reply = ended(done);
    Outcome {
        choice,
        reply,
        delta,
    }
}

/// MQBACK as an event.
pub fn mqback<D: Disk>(manager: &mut Manager<D>, hc: Hconn) -> Outcome
    ensures { EndsSo (calls.Mqback hc) manager.old result manager.new }
{
    let done = manager.mqback(hc);
    let Told { choice, delta } = told(manager, &done);
    let reply = ended(done);
    Outcome {
        choice,
        reply,
        delta,
    }
}

/// MQDISC as an event.
pub fn mqdisc<D: Disk>(manager: &mut Manager<D>, hc: Hconn) -> Outcome
    requires low { MayCount manager.old.plain }
    ensures { EndsSo (calls.Mqdisc hc) manager.old result manager.new }
{
    let done = manager.mqdisc(hc);
    let Told { choice, delta } = told(manager, &done);
    let reply = ended(done);
    Outcome {
        choice,
        reply,
        delta,
    }
}

fn got(ended: Result<Answer<Got>, Halt<Reason>>) -> Reply
    ensures { result ≡ reply_by replies.Got ended }
{
    match ended {
        Ok(answer) => Reply::Got(answer),
        Err(Halt::Refused(reason)) => Reply::Got(Answer::Failed(reason)),
        Err(Halt::NoMemory) => Reply::Got(Answer::Failed(Reason::StorageNotAvailable)),
        Err(Halt::Stopped(by)) => Reply::Stopped(by),
    }
}

/// What a get came to; none where it may wait still.
fn outcome_of(
    ended: Result<GetAnswer, Halt<Reason>>,
    choice: Choice,
    delta: Delta,
) -> Option<Outcome>
    ensures { result ≡ outcome_of ended choice delta }
{
    match ended {
        Ok(GetAnswer::NotYet) => None,
        Ok(GetAnswer::Done(answer)) => Some(Outcome {
            choice,
            reply: Reply::Got(answer),
            delta,
        }),
        Err(halt) => Some(Outcome {
            choice,
            reply: got(Err(halt)),
            delta,
        }),
    }
}

fn is_waiting<D: Disk>(manager: &Manager<D>, until: Option<u64>) -> bool
    ensures { result ≡ is_waiting until manager.now.plain }
{
    match until {
        None => false,
        Some(until) => manager.moment() < until,
    }
}

fn is_wanting(ended: &Result<GetAnswer, Halt<Reason>>) -> bool
    ensures { result ≡ is_wanting ended.now }
{
    match ended {
        Ok(_) => false,
        Err(Halt::Refused(_)) => false,
        Err(Halt::NoMemory) => true,
        Err(Halt::Stopped(_)) => false,
    }
}

/// MQGET. None where it may wait still.
///
/// # Errors
///
/// No memory, where it might wait; nothing has changed.
pub fn mqget<D: Disk>(
    manager: &mut Manager<D>,
    hc: Hconn,
    ho: Hobj,
    get: &Get,
    until: Option<u64>,
) -> Result<Option<Outcome>, NoMemory>
    ensures { Ends (calls.Mqget hc ho get.now until) manager.old result manager.new }
{
    let waits = is_waiting(manager, until);
    let ended = manager.mqget(hc, ho, get, until);
    if waits && is_wanting(&ended) {
        return Err(NoMemory);
    }
    let Told { choice, delta } = told(manager, &ended);
    Ok(outcome_of(ended, choice, delta))
}

/// A trigger turn, which is due for this queue.
///
/// # Errors
///
/// No memory; nothing has changed.
pub fn trigger<D: Disk>(manager: &mut Manager<D>, queue: QName) -> Result<Outcome, NoMemory>
    requires low { MayCount manager.old.plain }
    requires due { next_due manager.old.plain ≡ Some queue }
    ensures { TurnEnds manager.old result manager.new }
{
    match manager.trigger_turn() {
        Err(NoMemory) => Err(NoMemory),
        Ok(_) => Ok(Outcome {
            choice: Choice::Runs,
            reply: Reply::Triggered(queue),
            delta: manager.take_delta(),
        }),
    }
}
