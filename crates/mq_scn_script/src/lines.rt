//! Lines of scripts, one by one.

ghost use Rattle.std.specs.Prelude.{◌≡◌, ◌≤◌, IfOk};
ghost use Rattle.mq_scn_lines.specs.Words.{texts_of};
ghost use Rattle.mq_scn_lines.specs.Faults.{Reads, both};
ghost use Rattle.mq_scn_script.specs.Bodies.{body_in};
ghost use Rattle.mq_scn_script.specs.Options.{put_options};
ghost use Rattle.mq_scn_script.specs.Lines.{connect_line, alone, behind_manager, queue_in, manager_in, target_line, opening, opened, open_with, open_line, close_line, put_line, reply_line, put1_line, get_line, cut_line, mqsc_line, called, words_read, script_line};

use crate::bodies::body_in;
use crate::commands::command_in;
use crate::options::{get_options, open_options, put_options};
use crate::verbs::{ScriptVerb, verb_of};
use mq_base::{Label, QName};
use mq_calls::Open;
use mq_history::{Body, PutOptions, ScriptLine};
use mq_scn_lines::{
    LineFault, both, bracketed, first_word, is_open, label_in, name_or_blank_in, ranged, words_of,
};
use std::alloc::Global;

/// MQCONN, with the manager's name or without.
fn connect_line(words: &[&[u8]]) -> Result<ScriptLine, LineFault>
    ensures { result ≡ connect_line (texts_of words.now) }
{
    match words {
        [] => Ok(ScriptLine::Mqconn(QName::blank())),
        [word] => match name_or_blank_in(word) {
            Ok(name) => Ok(ScriptLine::Mqconn(name)),
            Err(fault) => Err(fault),
        },
        _ => Err(LineFault::Form),
    }
}

/// A line that is its verb alone.
fn alone(line: ScriptLine, words: &[&[u8]]) -> Result<ScriptLine, LineFault>
    ensures { result ≡ alone line (texts_of words.now) }
{
    match words {
        [] => Ok(line),
        _ => Err(LineFault::Form),
    }
}

/// The name in QUEUE(name).
fn queue_in(word: &[u8]) -> Result<QName, LineFault>
    ensures { result ≡ queue_in word.now }
{
    match bracketed(word, b"QUEUE(") {
        Some(text) => name_or_blank_in(text),
        None => Err(LineFault::Form),
    }
}

/// The name in QMGR(name), where the first word is that; else the blank one.
fn manager_in(words: &[&[u8]]) -> Result<QName, LineFault>
    ensures { result ≡ manager_in (texts_of words.now) }
{
    match words {
        [] => Ok(QName::blank()),
        [word, ..] => match bracketed(word, b"QMGR(") {
            Some(text) => name_or_blank_in(text),
            None => Ok(QName::blank()),
        },
    }
}

/// The words behind QMGR(name), where the first word is that; else all.
fn behind_manager<'a, 'b>(words: &'b [&'a [u8]]) -> &'b [&'a [u8]]
    ensures { texts_of result.now ≡ behind_manager (texts_of words.now) }
{
    match words {
        [] => words,
        [word, rest @ ..] => {
            if bracketed(word, b"QMGR(").is_some() {
                rest
            } else {
                words
            }
        }
    }
}

/// What an open opens, and how.
#[tactic(auto, unfolding(crate::specs::Lines::opening))]
fn opening(queue: &[u8], words: &[&[u8]]) -> Result<((QName, QName), Open), LineFault>
    ensures { result ≡ opening queue.now (texts_of words.now) }
{
    let target = both(queue_in(queue), manager_in(words));
    let how = open_options(behind_manager(words));
    both(target, how)
}

fn handle_opened(
    read: Result<(Label, ((QName, QName), Open)), LineFault>,
) -> Result<ScriptLine, LineFault>
    ensures { result ≡ opened read }
{
    match read {
        Ok((handle, ((name, qmgr), how))) => Ok(ScriptLine::Mqopen {
            handle,
            name,
            qmgr,
            how,
        }),
        Err(fault) => Err(fault),
    }
}

/// The handle that is opened, what it opens, and how.
#[tactic(auto, unfolding(crate::specs::Lines::open_with))]
fn open_with(handle: &[u8], queue: &[u8], words: &[&[u8]]) -> Result<ScriptLine, LineFault>
    ensures { result ≡ open_with handle.now queue.now (texts_of words.now) }
{
    handle_opened(both(label_in(handle), opening(queue, words)))
}

/// MQOPEN h QUEUE(name) [QMGR(name)] and options.
fn open_line(words: &[&[u8]]) -> Result<ScriptLine, LineFault>
    ensures { result ≡ open_line (texts_of words.now) }
{
    match words {
        [] => Err(LineFault::Form),
        [_] => Err(LineFault::Form),
        [handle, queue, rest @ ..] => open_with(handle, queue, rest),
    }
}

/// MQCLOSE h.
fn close_line(words: &[&[u8]]) -> Result<ScriptLine, LineFault>
    ensures { result ≡ close_line (texts_of words.now) }
{
    match words {
        [handle] => match label_in(handle) {
            Ok(handle) => Ok(ScriptLine::Mqclose(handle)),
            Err(fault) => Err(fault),
        },
        _ => Err(LineFault::Form),
    }
}

/// A body and the options of its put.
fn sent(
    alloc: Global,
    body: &[u8],
    words: &[&[u8]],
    left: u64,
) -> Result<(Body, PutOptions), LineFault>
    ensures { Reads result (both (body_in left body.now) (put_options (texts_of words.now))) }
{
    let body = body_in(alloc, body, left);
    let options = put_options(alloc, words);
    both(body, options)
}

/// MQPUT h body and options.
fn put_line(alloc: Global, words: &[&[u8]], left: u64) -> Result<ScriptLine, LineFault>
    ensures { Reads result (put_line left (texts_of words.now)) }
{
    let [handle, others @ ..] = words else {
        return Err(LineFault::Form);
    };
    let [body, rest @ ..] = others else {
        return Err(LineFault::Form);
    };
    match both(label_in(handle), sent(alloc, body, rest, left)) {
        Ok((handle, (body, options))) => Ok(ScriptLine::Mqput {
            handle,
            body,
            options,
        }),
        Err(fault) => Err(fault),
    }
}

/// MQPUT1 TOREPLY body and options.
fn reply_line(alloc: Global, words: &[&[u8]], left: u64) -> Result<ScriptLine, LineFault>
    ensures { Reads result (reply_line left (texts_of words.now)) }
{
    let [body, rest @ ..] = words else {
        return Err(LineFault::Form);
    };
    match sent(alloc, body, rest, left) {
        Ok((body, options)) => Ok(ScriptLine::Reply { body, options }),
        Err(fault) => Err(fault),
    }
}

/// MQPUT1 QUEUE(name) [QMGR(name)] body and options.
fn target_line(
    alloc: Global,
    queue: &[u8],
    words: &[&[u8]],
    left: u64,
) -> Result<ScriptLine, LineFault>
    ensures { Reads result (target_line left queue.now (texts_of words.now)) }
{
    let [body, rest @ ..] = behind_manager(words) else {
        return Err(LineFault::Form);
    };
    let target = both(queue_in(queue), manager_in(words));
    match both(target, sent(alloc, body, rest, left)) {
        Ok(((name, qmgr), (body, options))) => Ok(ScriptLine::Mqput1 {
            name,
            qmgr,
            body,
            options,
        }),
        Err(fault) => Err(fault),
    }
}

fn put1_line(alloc: Global, words: &[&[u8]], left: u64) -> Result<ScriptLine, LineFault>
    ensures { Reads result (put1_line left (texts_of words.now)) }
{
    let [first, rest @ ..] = words else {
        return Err(LineFault::Form);
    };
    if *first == b"TOREPLY".as_slice() {
        reply_line(alloc, rest, left)
    } else {
        target_line(alloc, first, rest, left)
    }
}

/// MQGET h and options.
fn get_line(alloc: Global, words: &[&[u8]]) -> Result<ScriptLine, LineFault>
    ensures { Reads result (get_line (texts_of words.now)) }
{
    let [handle, rest @ ..] = words else {
        return Err(LineFault::Form);
    };
    match both(label_in(handle), get_options(alloc, rest)) {
        Ok((handle, options)) => Ok(ScriptLine::Mqget { handle, options }),
        Err(fault) => Err(fault),
    }
}

/// CUT k, k 1 to 1000.
fn cut_line(words: &[&[u8]]) -> Result<ScriptLine, LineFault>
    ensures { result ≡ cut_line (texts_of words.now) }
{
    match words {
        [count] => match ranged(count, 1, 1000, LineFault::Number) {
            Ok(count) => Ok(ScriptLine::Cut(count as u32)),
            Err(fault) => Err(fault),
        },
        _ => Err(LineFault::Form),
    }
}

/// MQSC command.
fn mqsc_line(alloc: Global, text: &[u8]) -> Result<ScriptLine, LineFault>
    ensures { Reads result (mqsc_line text.now) }
{
    match command_in(alloc, text) {
        Ok(command) => Ok(ScriptLine::Mqsc(command)),
        Err(fault) => Err(fault),
    }
}

/// The line of a verb, with the words behind it.
fn called(
    alloc: Global,
    verb: ScriptVerb,
    words: &[&[u8]],
    left: u64,
) -> Result<ScriptLine, LineFault>
    ensures { Reads result (called left verb (texts_of words.now)) }
{
    match verb {
        ScriptVerb::Mqconn => connect_line(words),
        ScriptVerb::Mqdisc => alone(ScriptLine::Mqdisc, words),
        ScriptVerb::Mqcmit => alone(ScriptLine::Mqcmit, words),
        ScriptVerb::Mqback => alone(ScriptLine::Mqback, words),
        ScriptVerb::Mqopen => open_line(words),
        ScriptVerb::Mqclose => close_line(words),
        ScriptVerb::Mqput => put_line(alloc, words, left),
        ScriptVerb::Mqput1 => put1_line(alloc, words, left),
        ScriptVerb::Mqget => get_line(alloc, words),
        ScriptVerb::Mqsc => Err(LineFault::Form),
        ScriptVerb::Crash => alone(ScriptLine::Crash, words),
        ScriptVerb::Restart => alone(ScriptLine::Restart, words),
        ScriptVerb::Cut => cut_line(words),
    }
}

fn words_read(
    alloc: Global,
    verb: ScriptVerb,
    rest: &[u8],
    left: u64,
) -> Result<ScriptLine, LineFault>
    ensures { Reads result (words_read left verb rest.now) }
{
    if is_open(rest) {
        return Err(LineFault::Form);
    }
    let words = words_of(alloc, rest)?;
    called(alloc, verb, words.as_slice(), left)
}

/// What a line of a script says, where so many bytes are left of the limit of all bodies.
///
/// # Errors
///
/// The first in this order that the line has: `Form`; the limits `Bodies`, `Body` and `Clock`; `Name`; `Number`;
/// `Mqsc`. And `NoMemory`.
#[tactic(auto, unfolding(crate::specs::Lines::script_line))]
pub fn script_line(alloc: Global, line: &[u8], left: u64) -> Result<ScriptLine, LineFault>
    ensures { Reads result (script_line left line.now) }
{
    let Some((word, rest)) = first_word(line) else {
        return Err(LineFault::Form);
    };
    match verb_of(word) {
        None => Err(LineFault::Form),
        Some(ScriptVerb::Mqsc) => mqsc_line(alloc, rest),
        Some(verb) => words_read(alloc, verb, rest, left),
    }
}
