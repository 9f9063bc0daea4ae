//! Scripts line by line, and steps with what they did.
ghost use Rattle.std.specs.Prelude.{◌≡◌, ◌++◌, OnOk, count_by};
ghost use Rattle.std.specs.List.{flat_map};
ghost use Rattle.mq_net_report.specs.Steps.{is_trigger, is_script, is_handler, is_monitor, is_operator, is_end, is_turn, is_by, count_done, idle_text, command_text, command_if, answer_line, answer_if, watch_refusal, refusal_if, first_refusal, watched_text, lines_text};

use mq_base::NoMemory;
use mq_calls::Answer;
use mq_history::{Actor, Call, Entry, Reply};
use mq_net_stands::{Text, put_act, put_displayed, put_line, put_number, put_word};
use std::alloc::Global;

fn is_trigger(call: &Call) -> bool
    ensures { result ≡ is_trigger call.now }
{
    match call {
        Call::Trigger => true,
        _ => false,
    }
}

fn is_script(script: u64, actor: &Actor) -> bool
    ensures { result ≡ is_script script actor.now }
{
    match actor {
        Actor::Script(number) => *number as u64 == script,
        _ => false,
    }
}

fn is_handler(handler: u64, actor: &Actor) -> bool
    ensures { result ≡ is_handler handler actor.now }
{
    match actor {
        Actor::Handler(number) => *number as u64 == handler,
        _ => false,
    }
}

fn is_monitor(monitor: u64, actor: &Actor) -> bool
    ensures { result ≡ is_monitor monitor actor.now }
{
    match actor {
        Actor::Monitor(number) => *number as u64 == monitor,
        _ => false,
    }
}

fn is_operator(actor: &Actor) -> bool
    ensures { result ≡ is_operator actor.now }
{
    match actor {
        Actor::Operator => true,
        _ => false,
    }
}

fn is_end(actor: &Actor) -> bool
    ensures { result ≡ is_end actor.now }
{
    match actor {
        Actor::Sender(_) => true,
        Actor::Receiver(_) => true,
        _ => false,
    }
}

/// Whether an entry is a turn of a channel's end, or a timeout.
#[tactic(auto, unfolding(crate::specs::Steps::is_turn))]
fn is_turn(entry: &Entry) -> bool
    ensures { result ≡ is_turn entry.now }
{
    is_end(&entry.actor) && !is_trigger(&entry.call)
}

/// Whether an entry is a line of a script.
pub fn is_line(script: u64, entry: &Entry) -> bool
    ensures { result ≡ is_by (is_script script) entry.now }
{
    is_script(script, &entry.actor) && !is_trigger(&entry.call)
}

/// Whether an entry is an action of a handler.
fn is_action(handler: u64, entry: &Entry) -> bool
    ensures { result ≡ is_by (is_handler handler) entry.now }
{
    is_handler(handler, &entry.actor) && !is_trigger(&entry.call)
}

/// Whether an entry is a monitor's own.
pub fn is_watch(monitor: u64, entry: &Entry) -> bool
    ensures { result ≡ is_by (is_monitor monitor) entry.now }
{
    is_monitor(monitor, &entry.actor) && !is_trigger(&entry.call)
}

/// Whether an entry answers the operator.
fn is_answer(entry: &Entry) -> bool
    ensures { result ≡ is_by is_operator entry.now }
{
    is_operator(&entry.actor) && !is_trigger(&entry.call)
}

/// How many of some entries are lines of a script.
pub fn count_lines(script: u64, entries: &[Entry]) -> usize
    ensures { result ≡ count_done (is_script script) entries.now }
{
    entries
        .iter()
        .filter(|entry| is_line(script, entry))
        .count()
}

/// How many of some entries are turns of a handler.
pub fn count_actions(handler: u64, entries: &[Entry]) -> usize
    ensures { result ≡ count_done (is_handler handler) entries.now }
{
    entries
        .iter()
        .filter(|entry| is_action(handler, entry))
        .count()
}

/// How many of some entries are turns of channels' ends, or timeouts.
#[tactic(auto, using(std::proofs::lemmas::List::Sums::count_by_more_yes, std::proofs::lemmas::List::Sums::count_by_more_no))]
pub fn count_turns(entries: &[Entry]) -> usize
    ensures { result ≡ count_by is_turn entries.now }
{
    let mut turns = 0;
    'counting: for entry in entries {
        if is_turn(entry) {
            turns += 1;
        }
    }
    turns
}

/// A script's lines, numbered from 1.
pub fn put_lines(
    alloc: Global,
    out: &mut Text,
    script: u64,
    entries: &[Entry],
) -> Result<(), NoMemory>
    ensures { OnOk result (out.new ≡ out.old ++ lines_text script 1 entries.now) }
{
    let mut number = 1;
    'lines: for entry in entries {
        if is_line(script, entry) {
            put_line(alloc, out, number, entry)?;
            let Some(next) = number.checked_add(1) else {
                return Err(NoMemory);
            };
            number = next;
        }
    }
    Ok(())
}

fn put_command(out: &mut Text, entry: &Entry) -> Result<(), NoMemory>
    ensures { OnOk result (out.new ≡ out.old ++ command_text entry.now) }
{
    put_word(out, "  ")?;
    put_act(out, &entry.reply)?;
    put_word(out, "\n")?;
    put_displayed(out, "    ", &entry.reply)
}

fn put_command_if(out: &mut Text, entry: &Entry) -> Result<(), NoMemory>
    ensures { OnOk result (out.new ≡ out.old ++ command_if entry.now) }
{
    if is_answer(entry) {
        put_command(out, entry)
    } else {
        Ok(())
    }
}

/// Of each command of a section its answer on an indented line, then what it showed.
pub fn put_commands(out: &mut Text, entries: &[Entry]) -> Result<(), NoMemory>
    ensures { OnOk result (out.new ≡ out.old ++ flat_map command_if entries.now) }
{
    for entry in entries {
        put_command_if(out, entry)?;
    }
    Ok(())
}

fn put_answer_line(out: &mut Text, entry: &Entry) -> Result<(), NoMemory>
    ensures { OnOk result (out.new ≡ out.old ++ answer_line entry.now) }
{
    put_act(out, &entry.reply)?;
    put_word(out, "\n")?;
    put_displayed(out, "    ", &entry.reply)
}

fn put_answer_if(out: &mut Text, entry: &Entry) -> Result<(), NoMemory>
    ensures { OnOk result (out.new ≡ out.old ++ answer_if entry.now) }
{
    if is_answer(entry) {
        put_answer_line(out, entry)
    } else {
        Ok(())
    }
}

/// What an operator was answered on the rest of the line, then what was shown.
pub fn put_answers(out: &mut Text, entries: &[Entry]) -> Result<(), NoMemory>
    ensures { OnOk result (out.new ≡ out.old ++ flat_map answer_if entries.now) }
{
    for entry in entries {
        put_answer_if(out, entry)?;
    }
    Ok(())
}

/// Whether a PUMP or a HANDLE ended idle, or at its limit.
pub fn idle_word(is_idle: bool) -> &'static str
    ensures { result.now ≡ idle_text is_idle }
{
    if is_idle { " IDLE\n" } else { " LIMIT\n" }
}

/// The first refusal of a watch.
fn watch_refusal(reply: &Reply) -> Option<u64>
    ensures { result ≡ watch_refusal reply.now }
{
    match reply {
        Reply::Connected(Answer::Failed(reason)) => Some(reason.number() as u64),
        Reply::Opened(Answer::Failed(reason)) => Some(reason.number() as u64),
        Reply::Stopped(_) => Some(2009),
        _ => None,
    }
}

fn refusal_if(monitor: u64, entry: &Entry) -> Option<u64>
    ensures { result ≡ refusal_if monitor entry.now }
{
    if is_watch(monitor, entry) {
        watch_refusal(&entry.reply)
    } else {
        None
    }
}

/// The first reason code with which a monitor was refused, if any.
pub fn first_refusal(monitor: u64, entries: &[Entry]) -> Option<u64>
    ensures { result ≡ first_refusal monitor entries.now }
{
    for entry in entries {
        if let Some(reason) = refusal_if(monitor, entry) {
            return Some(reason);
        }
    }
    None
}

/// That a WATCH began, or the reason code of its refusal.
pub fn put_watched(alloc: Global, out: &mut Text, refusal: Option<u64>) -> Result<(), NoMemory>
    ensures { OnOk result (out.new ≡ out.old ++ watched_text refusal) }
{
    match refusal {
        None => put_word(out, " OK\n"),
        Some(reason) => {
            put_word(out, " REFUSED ")?;
            put_number(alloc, out, reason)?;
            put_word(out, "\n")
        }
    }
}
