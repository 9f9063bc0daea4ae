//! Lines of scripts and answers of commands.
ghost use Rattle.std.specs.Prelude.{◌≡◌, ◌<◌, ◌+◌, ◌++◌, OnOk, [], ◌∷◌};
ghost use Rattle.std.specs.List.{flat_map};
ghost use Rattle.mq_net_stands.specs.Replies.{shown_byte, shown_bytes, warned, failed, answer_text, sent_text, put_text, message_text, got_text, stop_word, sc_word, op_word, start_word, refused, acted_text, mqi_text, act_text, display_line, displayed, act_verb, verb, is_act, reply_text, line_text};

use crate::writing::{Text, put, put_ident, put_number, put_number4, put_word};
use mq_base::{Items, NoMemory};
use mq_calls::{Answer, Got, RestartFault, ScRefusal, Sent};
use mq_codes::Reason;
use mq_disk::Stop;
use mq_history::{Act, Acted, Call, Entry, OpRefusal, Reply};
use std::alloc::Global;

fn put_warned(alloc: Global, out: &mut Text, reason: Reason) -> Result<(), NoMemory>
    ensures { OnOk result (out.new ≡ out.old ++ warned reason) }
{
    put_word(out, "1 ")?;
    put_number(alloc, out, reason.number() as u64)
}

fn put_failed(alloc: Global, out: &mut Text, reason: Reason) -> Result<(), NoMemory>
    ensures { OnOk result (out.new ≡ out.old ++ failed reason) }
{
    put_word(out, "2 ")?;
    put_number(alloc, out, reason.number() as u64)
}

fn put_answer<T>(alloc: Global, out: &mut Text, answer: &Answer<T>) -> Result<(), NoMemory>
    ensures { OnOk result (out.new ≡ out.old ++ answer_text answer.now) }
{
    match answer {
        Answer::Ok(_) => put_word(out, "0 0"),
        Answer::Warning(reason, _) => put_warned(alloc, out, *reason),
        Answer::Failed(reason) => put_failed(alloc, out, *reason),
    }
}

fn put_sent(alloc: Global, out: &mut Text, sent: &Sent) -> Result<(), NoMemory>
    ensures { OnOk result (out.new ≡ out.old ++ sent_text sent.now) }
{
    put_word(out, " ID ")?;
    put_ident(alloc, out, &sent.ident)
}

fn put_put(alloc: Global, out: &mut Text, answer: &Answer<Sent>) -> Result<(), NoMemory>
    ensures { OnOk result (out.new ≡ out.old ++ put_text answer.now) }
{
    match answer {
        Answer::Ok(sent) => {
            put_word(out, "0 0")?;
            put_sent(alloc, out, sent)
        }
        Answer::Warning(reason, sent) => {
            put_warned(alloc, out, *reason)?;
            put_sent(alloc, out, sent)
        }
        Answer::Failed(reason) => put_failed(alloc, out, *reason),
    }
}

fn shown_byte(b: u8) -> u8
    ensures { result ≡ shown_byte b }
{
    if 32 <= b && b <= 126 { b } else { b'.' }
}

fn put_shown_byte(out: &mut Text, b: u8) -> Result<(), NoMemory>
    ensures { OnOk result (out.new ≡ out.old ++ shown_byte b ∷ []) }
{
    match out.push(shown_byte(b)) {
        Ok(()) => Ok(()),
        Err(_) => Err(NoMemory),
    }
}

fn put_shown(out: &mut Text, body: &[u8]) -> Result<(), NoMemory>
    ensures { OnOk result (out.new ≡ out.old ++ shown_bytes body.now) }
{
    let (front, _) = body.split_at(body.len().min(32));
    'showing: for b in front {
        put_shown_byte(out, *b)?;
    }
    Ok(())
}

fn put_message(alloc: Global, out: &mut Text, got: &Got) -> Result<(), NoMemory>
    ensures { OnOk result (out.new ≡ out.old ++ message_text got.now) }
{
    put_word(out, " ID ")?;
    put_ident(alloc, out, &got.ident)?;
    put_word(out, " LEN ")?;
    put_number(alloc, out, got.length)?;
    put_word(out, " BYTES '")?;
    put_shown(out, got.body.as_slice())?;
    put_word(out, "'")
}

fn put_got(alloc: Global, out: &mut Text, answer: &Answer<Got>) -> Result<(), NoMemory>
    ensures { OnOk result (out.new ≡ out.old ++ got_text answer.now) }
{
    match answer {
        Answer::Ok(got) => {
            put_word(out, "0 0")?;
            put_message(alloc, out, got)
        }
        Answer::Warning(reason, got) => {
            put_warned(alloc, out, *reason)?;
            put_message(alloc, out, got)
        }
        Answer::Failed(reason) => put_failed(alloc, out, *reason),
    }
}

fn stop_word(by: &Stop) -> &'static str
    ensures { result.now ≡ stop_word by.now }
{
    match by {
        Stop::Cut => "CUT",
        Stop::Disk => "DISK",
    }
}

fn sc_word(refusal: &ScRefusal) -> &'static str
    ensures { result.now ≡ sc_word refusal.now }
{
    match refusal {
        ScRefusal::Down => "DOWN",
        ScRefusal::Exists => "EXISTS",
        ScRefusal::Missing => "MISSING",
        ScRefusal::BadValue(_) => "BADVALUE",
        ScRefusal::InUse => "INUSE",
        ScRefusal::NotEmpty => "NOTEMPTY",
        ScRefusal::NoMemory => "NOMEMORY",
        ScRefusal::Disk => "DISK",
        ScRefusal::Cut => "CUT",
    }
}

fn op_word(refusal: &OpRefusal) -> &'static str
    ensures { result.now ≡ op_word refusal.now }
{
    match refusal {
        OpRefusal::Down => "DOWN",
        OpRefusal::NotFound => "NOTFOUND",
        OpRefusal::Running => "RUNNING",
        OpRefusal::BadQueue => "BADQUEUE",
        OpRefusal::QueueInUse => "QUEUEINUSE",
        OpRefusal::InDoubt => "INDOUBT",
        OpRefusal::NotInDoubt => "NOTINDOUBT",
        OpRefusal::BadNumber => "BADNUMBER",
        OpRefusal::NoMemory => "NOMEMORY",
        OpRefusal::Disk => "DISK",
        OpRefusal::Cut => "CUT",
    }
}

fn start_word(fault: &RestartFault) -> &'static str
    ensures { result.now ≡ start_word fault.now }
{
    match fault {
        RestartFault::Up => "UP",
        RestartFault::Disk => "DISK",
        RestartFault::Cut => "CUT",
        RestartFault::BadLog(_) => "BADLOG",
        RestartFault::NoMemory => "NOMEMORY",
    }
}

fn put_refused(out: &mut Text, word: &str) -> Result<(), NoMemory>
    ensures { OnOk result (out.new ≡ out.old ++ refused word.now) }
{
    put_word(out, "REFUSED ")?;
    put_word(out, word)
}

fn put_acted(out: &mut Text, answer: &Acted) -> Result<(), NoMemory>
    ensures { OnOk result (out.new ≡ out.old ++ acted_text answer.now) }
{
    match answer {
        Acted::Done => put_word(out, "OK"),
        Acted::Shown(_) => put_word(out, "OK"),
        Acted::Down => put_refused(out, "DOWN"),
        Acted::Sc(refusal) => put_refused(out, sc_word(refusal)),
        Acted::Op(refusal) => put_refused(out, op_word(refusal)),
        Acted::Start(fault) => put_refused(out, start_word(fault)),
    }
}

fn put_mqi(alloc: Global, out: &mut Text, reply: &Reply) -> Result<(), NoMemory>
    ensures { OnOk result (out.new ≡ out.old ++ mqi_text reply.now) }
{
    match reply {
        Reply::Connected(answer) => put_answer(alloc, out, answer),
        Reply::Opened(answer) => put_answer(alloc, out, answer),
        Reply::Ended(answer) => put_answer(alloc, out, answer),
        Reply::Put(answer) => put_put(alloc, out, answer),
        Reply::Got(answer) => put_got(alloc, out, answer),
        Reply::Acted(answer) => put_acted(out, answer),
        Reply::Changed => Ok(()),
        Reply::Tried => Ok(()),
        Reply::Triggered(_) => Ok(()),
        Reply::Stopped(_) => put_word(out, "2 2009"),
    }
}

/// What was answered to what was asked beside MQI calls.
pub fn put_act(out: &mut Text, reply: &Reply) -> Result<(), NoMemory>
    ensures { OnOk result (out.new ≡ out.old ++ act_text reply.now) }
{
    match reply {
        Reply::Acted(answer) => put_acted(out, answer),
        Reply::Stopped(by) => put_refused(out, stop_word(by)),
        _ => Ok(()),
    }
}

fn put_display_line(out: &mut Text, blanks: &str, line: &[u8]) -> Result<(), NoMemory>
    ensures { OnOk result (out.new ≡ out.old ++ display_line blanks.now line.now) }
{
    put_word(out, blanks)?;
    put(out, line)?;
    put_word(out, "\n")
}

fn put_display_lines(out: &mut Text, blanks: &str, lines: &[Items<u8>]) -> Result<(), NoMemory>
    ensures { OnOk result (out.new ≡ out.old ++ flat_map (display_line blanks.now) lines.now) }
{
    for line in lines {
        put_display_line(out, blanks, line.as_slice())?;
    }
    Ok(())
}

/// The lines displayed, each behind these blanks.
pub fn put_displayed(out: &mut Text, blanks: &str, reply: &Reply) -> Result<(), NoMemory>
    ensures { OnOk result (out.new ≡ out.old ++ displayed blanks.now reply.now) }
{
    match reply {
        Reply::Acted(Acted::Shown(shown)) => {
            put_display_lines(out, blanks, shown.lines.as_slice())
        }
        _ => Ok(()),
    }
}

fn act_verb(act: &Act) -> &'static str
    ensures { result.now ≡ act_verb act.now }
{
    match act {
        Act::Obey(_) => "MQSC ",
        Act::Crash => "CRASH ",
        Act::Restart => "RESTART ",
        Act::Cut(_) => "CUT ",
        Act::Clock(_) => "CLOCK ",
    }
}

fn verb(call: &Call) -> &'static str
    ensures { result.now ≡ verb call.now }
{
    match call {
        Call::Mqconn { .. } => "MQCONN ",
        Call::Mqdisc { .. } => "MQDISC ",
        Call::Mqopen { .. } => "MQOPEN ",
        Call::Mqclose { .. } => "MQCLOSE ",
        Call::Mqput { .. } => "MQPUT ",
        Call::Mqput1 { .. } => "MQPUT1 ",
        Call::Mqget { .. } => "MQGET ",
        Call::Mqcmit { .. } => "MQCMIT ",
        Call::Mqback { .. } => "MQBACK ",
        Call::Act(act) => act_verb(act),
        Call::Turn => "",
        Call::Timeout => "",
        Call::Trigger => "",
    }
}

fn is_act(call: &Call) -> bool
    ensures { result ≡ is_act call.now }
{
    match call {
        Call::Act(_) => true,
        _ => false,
    }
}

fn put_reply(alloc: Global, out: &mut Text, call: &Call, reply: &Reply) -> Result<(), NoMemory>
    ensures { OnOk result (out.new ≡ out.old ++ reply_text call.now reply.now) }
{
    if is_act(call) {
        put_act(out, reply)
    } else {
        put_mqi(alloc, out, reply)
    }
}

/// A line of a script, by its number from 1.
pub fn put_line(alloc: Global, out: &mut Text, number: u64, entry: &Entry) -> Result<(), NoMemory>
    ensures { OnOk result (out.new ≡ out.old ++ line_text number entry.now) }
{
    put_number4(alloc, out, number)?;
    put_word(out, " ")?;
    put_word(out, verb(&entry.call))?;
    put_reply(alloc, out, &entry.call, &entry.reply)?;
    put_word(out, "\n")?;
    put_displayed(out, "  ", &entry.reply)
}
