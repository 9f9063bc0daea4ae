//! What a handler's turn does with its dead letter.
ghost use Rattle.std.specs.Prelude.{◌≡◌, ◌<◌, ℕ, Bool, [], length};
ghost use Rattle.mq_core.specs.Values.{CoreValue};
ghost use Rattle.mq_spec_node.specs.Node as nodes;
ghost use Rattle.mq_spec_manager.specs.Agents.{CanMove, HasFreeRow, IsUp};
ghost use Rattle.mq_events.specs.from_manager.Facts.{MayCount};
ghost use Rattle.mq_handle.specs.declared.choosing.Ruling.TheVariants as rulings;
ghost use Rattle.mq_handle.specs.Treatments.{TreatsAs, TreatsAt, by_stop, choice_of, discarded, moved, reply_of, treatment, treatment_of};

use crate::choosing::{Dispatch, Ruling};
use crate::finding::DueLetter;
use crate::tries::{failed_once, ignore, remember};
use mq_base::{Items, NoMemory, QName};
use mq_calls::{AgentStop, Choice, PlaceFault};
use mq_disk::{Disk, Stop};
use mq_events::Outcome;
use mq_events::below::Manager;
use mq_history::Reply;
use mq_message::Ident;
use mq_own::Handler;
use std::alloc::Global;

/// How a call of the manager ended.
#[derive(Clone, Copy)]
pub enum Ended {
    Done,
    Refused,
    NoMemory,
    Stopped(Stop),
}

fn by_stop(stop: AgentStop) -> Ended
    ensures { result ≡ by_stop stop }
{
    match stop {
        AgentStop::Disk => Ended::Stopped(Stop::Disk),
        AgentStop::Cut => Ended::Stopped(Stop::Cut),
        AgentStop::NoMemory => Ended::NoMemory,
    }
}

fn discarded(ended: Result<(), AgentStop>) -> Ended
    ensures { result ≡ discarded ended }
{
    match ended {
        Ok(()) => Ended::Done,
        Err(stop) => by_stop(stop),
    }
}

fn moved(ended: Result<(), PlaceFault>) -> Ended
    ensures { result ≡ moved ended }
{
    match ended {
        Ok(()) => Ended::Done,
        Err(PlaceFault::Refused(_)) => Ended::Refused,
        Err(PlaceFault::Stop(stop)) => by_stop(stop),
    }
}

fn choice_of(stopped: Option<Stop>, left: u32) -> Choice
    ensures { result ≡ choice_of stopped left }
{
    match stopped {
        None => Choice::Runs,
        Some(by) => Choice::Stopped { by, part: 0, left },
    }
}

fn reply_of(stopped: Option<Stop>) -> Reply
    ensures { result ≡ reply_of stopped }
{
    match stopped {
        None => Reply::Tried,
        Some(by) => Reply::Stopped(by),
    }
}

/// What the turn came to, as its entry keeps it. It takes no memory.
fn tell<D: Disk>(manager: &mut Manager<D>, stopped: Option<Stop>) -> Outcome
    ensures choice { result.choice ≡ choice_of stopped manager.old.plain.log.armed }
    ensures reply { result.reply ≡ reply_of stopped }
    ensures delta { result.delta ≡ manager.old.delta }
    ensures after { manager.new ≡ record manager.old { delta = [] } }
{
    let choice = choice_of(stopped, manager.armed());
    let delta = manager.take_delta();
    Outcome {
        choice,
        reply: reply_of(stopped),
        delta,
    }
}

/// A dead letter is removed.
///
/// # Errors
///
/// No memory; nothing has changed.
fn discard_letter<D: Disk>(
    manager: &mut Manager<D>,
    queue: &QName,
    ident: &Ident,
) -> Result<Outcome, NoMemory>
    requires up { IsUp manager.old.plain }
    requires there { HasFreeRow queue.now ident.now manager.old.plain }
    ensures { (n : ℕ) (h : nodes.Handler) → TreatsAs (treatment queue.now ident.now rulings.Discard n h manager.old.plain) h manager.old result h manager.new }
{
    match discarded(manager.discard(queue, ident)) {
        Ended::Done => Ok(tell(manager, None)),
        Ended::Refused => Err(NoMemory),
        Ended::NoMemory => Err(NoMemory),
        Ended::Stopped(by) => Ok(tell(manager, Some(by))),
    }
}

/// A dead letter is put where a rule sends it; what is refused there is a failed try.
///
/// # Errors
///
/// No memory; nothing has changed.
fn move_letter<D: Disk>(
    manager: &mut Manager<D>,
    handler: &mut Handler,
    queue: &QName,
    ident: &Ident,
    rule: &Dispatch,
    failed: u32,
) -> Result<Outcome, NoMemory>
    requires up { IsUp manager.old.plain }
    requires low { MayCount manager.old.plain }
    requires can { CanMove queue.now ident.now rule.now.bare manager.old.plain }
    ensures { TreatsAs (treatment queue.now ident.now (rulings.Move rule.now) failed handler.old manager.old.plain) handler.old manager.old result handler.new manager.new }
{
    let interval = handler.table.retry_interval;
    let tried = match failed_once(queue, ident, rule, failed, interval, manager.moment()) {
        Ok(tried) => tried,
        Err(NoMemory) => return Err(NoMemory),
    };
    if handler.tried.reserve(1).is_err() {
        return Err(NoMemory);
    }
    match moved(manager.move_row(queue, ident, &rule.to, rule.bare)) {
        Ended::Done => Ok(tell(manager, None)),
        Ended::Refused => {
            remember(&mut handler.tried, tried);
            Ok(tell(manager, None))
        }
        Ended::NoMemory => Err(NoMemory),
        Ended::Stopped(by) => Ok(tell(manager, Some(by))),
    }
}

/// A dead letter is left alone from now on.
///
/// # Errors
///
/// No memory; nothing has changed.
fn ignore_letter(
    alloc: Global,
    handler: &mut Handler,
    queue: &QName,
    ident: &Ident,
) -> Result<Outcome, NoMemory>
    ensures { (n : ℕ) (v : CoreValue) → TreatsAs (treatment queue.now ident.now rulings.Ignore n handler.old v.plain) handler.old v result handler.new v }
{
    match ignore(handler, queue, ident) {
        Err(NoMemory) => Err(NoMemory),
        Ok(()) => Ok(Outcome {
            choice: Choice::Runs,
            reply: Reply::Tried,
            delta: Items::new(alloc),
        }),
    }
}

/// What is to be done with a dead letter is done.
///
/// # Errors
///
/// No memory; nothing has changed.
fn treat<D: Disk>(
    alloc: Global,
    manager: &mut Manager<D>,
    handler: &mut Handler,
    letter: &DueLetter,
) -> Result<Outcome, NoMemory>
    requires up { IsUp manager.old.plain }
    requires low { MayCount manager.old.plain }
    requires can { (bare : Bool) → CanMove letter.now.queue letter.now.ident bare manager.old.plain }
    ensures { TreatsAs (treatment_of letter.now handler.old manager.old.plain) handler.old manager.old result handler.new manager.new }
{
    match &letter.ruling {
        Ruling::Ignore => ignore_letter(alloc, handler, &letter.queue, &letter.ident),
        Ruling::Discard => discard_letter(manager, &letter.queue, &letter.ident),
        Ruling::Move(rule) => move_letter(
            manager,
            handler,
            &letter.queue,
            &letter.ident,
            rule,
            letter.failed,
        ),
    }
}

/// And so by the handler at a place.
///
/// # Errors
///
/// No memory; nothing has changed.
pub fn treat_at<D: Disk>(
    alloc: Global,
    manager: &mut Manager<D>,
    handlers: &mut Items<Handler>,
    at: usize,
    letter: &DueLetter,
) -> Result<Outcome, NoMemory>
    requires place { at < length handlers.old }
    requires up { IsUp manager.old.plain }
    requires low { MayCount manager.old.plain }
    requires can { (bare : Bool) → CanMove letter.now.queue letter.now.ident bare manager.old.plain }
    ensures { TreatsAt letter.now at handlers.old manager.old result handlers.new manager.new }
{
    treat(alloc, manager, handlers.at_mut(at), letter)
}
