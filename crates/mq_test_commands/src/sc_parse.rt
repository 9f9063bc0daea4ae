//! mq_sc_parse: commands from lines, and the first fault of a line.

use crate::fixture::is_fault;
use mq_objects::{Setting, Subject};
use mq_sc_lex::{LexFault, Line, commands};
use mq_sc_parse::{Command, Op, ScFault, parse};
use mq_sync::Settle;
use std::alloc::Global;
use std::test::*;

/// OK, or the fault's name and its line, of the first command of a text.
fn answer(alloc: Global, text: &str) -> (&'static str, usize) {
    let Ok(lines) = commands(alloc, text.as_bytes()) else {
        return ("NoLine", 0);
    };
    match lines.as_slice() {
        [] => ("NoLine", 0),
        [line, ..] => match parse(alloc, line) {
            Ok(_) => ("OK", 0),
            Err(ScFault::UnknownVerb(span)) => ("UnknownVerb", span.line),
            Err(ScFault::UnknownObject(span)) => ("UnknownObject", span.line),
            Err(ScFault::MissingName(span)) => ("MissingName", span.line),
            Err(ScFault::UnknownKeyword(span)) => ("UnknownKeyword", span.line),
            Err(ScFault::Repeated(span)) => ("Repeated", span.line),
            Err(ScFault::BadValue(span)) => ("BadValue", span.line),
            Err(ScFault::NoMemory) => ("NoMemory", 0),
        },
    }
}

/// The first text, from 0, that is answered otherwise.
fn first_other(alloc: Global, texts: &[&str], wanted: &str) -> Option<usize> {
    for (row, text) in texts.iter().enumerate() {
        if answer(alloc, text).0 != wanted {
            return Some(row);
        }
    }
    None
}

/// A command, the name of its fault, and the line of that.
const REFUSALS: [(&str, &str, usize); 22] = [
    ("DEFINE QLOCAL(A) MAXDEPTH(1) MAXDEPTH(2)", "Repeated", 1),
    ("DEFINE QLOCAL(A) FORCE", "UnknownKeyword", 1),
    ("DEFINE QLOCAL", "MissingName", 1),
    ("DEFINE QLOCAL(A) DEFPRTY(10)", "BadValue", 1),
    ("MAKE QLOCAL(A)", "UnknownVerb", 1),
    ("DEFINE QMGR", "UnknownObject", 1),
    ("DEFINE QLOCAL(' ')", "MissingName", 1),
    ("DEFINE QLOCAL(A?) +\nREPLACE +\nNOREPLACE", "Repeated", 3),
    ("DEFINE QLOCAL(A?) +\nDEFPRTY(10)", "BadValue", 1),
    ("DEFINE QLOCAL(A) +\nDEFPRTY(10) +\nX", "UnknownKeyword", 3),
    ("DEFINE CHANNEL(C) +\nNPMSPEED(FAST)", "BadValue", 2),
    (
        "DEFINE CHANNEL(C) CHLTYPE(SDR) +\nUSEDLQ(NO)",
        "UnknownKeyword",
        2,
    ),
    (
        "DEFINE CHANNEL(C) CHLTYPE(SDR) +\nBATCHSZ(1)",
        "BadValue",
        2,
    ),
    ("DEFINE QLOCAL(A) 'PUT'(ENABLED)", "UnknownKeyword", 1),
    ("ALTER QMGR DEADQ((DLQ)", "UnknownKeyword", 1),
    ("ALTER QMGR DEADQ(A(B))", "UnknownKeyword", 1),
    ("ALTER QMGR DEADQ(A)) MAXHANDS(1)", "UnknownKeyword", 1),
    ("ALTER QMGR DEADQ(A", "BadValue", 1),
    ("ALTER QMGR DEADQ(A B)", "BadValue", 1),
    ("ALTER QMGR DEADQ()", "BadValue", 1),
    ("DEFINE QLOCAL((A)", "MissingName", 1),
    ("RESOLVE CHANNEL(C)", "BadValue", 1),
];

#[test]
fn the_refusals_come_in_order(rt: HostRuntime) {
    for (text, word, line) in &REFUSALS {
        let (found, at) = answer(rt.alloc(), text);
        assert!(rt; found == *word && at == *line, "{text}");
    }
}

#[test]
fn an_open_text_has_no_line(rt: HostRuntime) {
    let quote = LexFault::OpenQuote(1);
    assert!(rt; is_fault(rt.alloc(), b"DEFINE QLOCAL('A", quote));
    let continuation = LexFault::OpenContinuation;
    assert!(rt; is_fault(rt.alloc(), b"DEFINE QLOCAL(A) +", continuation));
}

/// Commands of each kind.
const GOOD: [&str; 21] = [
    "def ql(a) defprty(0) defpsist(no) get(enabled) initq(' ') maxdepth(0) maxmsgl(0) msgdlvsq(fifo) put(disabled)",
    "def ql(a) defprty(9) defpsist(yes) get(disabled) initq(i) maxdepth(999999999) maxmsgl(4194304) msgdlvsq(priority)",
    "def ql(a) process(p) trigdata('d') trigdpth(1) notrigger trigmpri(0) trigtype(first) usage(normal)",
    "def ql(a) process('') trigdata('') trigdpth(999999999) trigger trigmpri(9) trigtype(none) usage(xmitq) replace",
    "def ql(a) descr('It''s') share defsopt(shared) bothresh(3) boqname(b) nohardenbo qdepthhi(80) qdepthlo(20)",
    "def qa(a) defprty(1) put(enabled) get(enabled) targq(q)",
    "def qr(a) rname(q) rqmname(m) xmitq(' ') noreplace",
    "def chl(c) chltype(sdr) xmitq(q) batchsz(1) seqwrap(100) shortrty(0) npmspeed(normal) conname('h(1414)') maxmsgl(x)",
    "def chl(c) chltype(rcvr) usedlq(no) seqwrap(999999999) npmspeed(fast) trptype(tcp)",
    "def pro(p) applicid('a b') appltype(unix) envrdata(e) userdata(u)",
    "alter qmgr deadq(d) defxmitq(x) maxhands(0) maxmsgl(32768) maxumsgs(1) trigint(0) force",
    "alter channel(c) batchsz(9999)",
    "delete process(p)",
    "dis ql(q1) put maxdepth curdepth",
    "dis queue(*) all",
    "dis qmgr maxprty",
    "dis chs(LON.*) all",
    "start chl(c)",
    "stop channel(c)",
    "reset channel(c) seqnum(999999999)",
    "resolve channel(c) action(backout)",
];

#[test]
fn commands_of_each_kind_are_read(rt: HostRuntime) {
    assert_eq!(rt; first_other(rt.alloc(), &GOOD, "OK"), None);
}

/// A value of each is out of its range.
const BAD: [&str; 20] = [
    "def ql(a) maxdepth(1000000000)",
    "def ql(a) maxmsgl(4194305)",
    "def ql(a) trigdpth(0)",
    "def ql(a) trigmpri(10)",
    "def ql(a) trigtype(never)",
    "def ql(a) trigger(yes)",
    "def ql(a) initq(a?)",
    "def ql(a) put()",
    "def ql(a) put(enabled disabled)",
    "def ql(a) maxdepth(99999999999999999999999999)",
    "def chl(c) chltype(svr)",
    "def chl(c) chltype(sdr) xmitq(q) batchsz(10000)",
    "def chl(c) chltype(sdr) xmitq(q) seqwrap(99)",
    "def chl(a234567890123456789012) chltype(rcvr)",
    "alter qmgr maxmsgl(3)",
    "alter qmgr maxumsgs(0)",
    "dis ql(a) put(enabled)",
    "dis ql('a ')",
    "reset channel(c) seqnum(1000000000)",
    "resolve channel(c) action(undo)",
];

#[test]
fn values_out_of_their_ranges_are_bad(rt: HostRuntime) {
    assert_eq!(rt; first_other(rt.alloc(), &BAD, "BadValue"), None);
}

/// A keyword of each is none of its object or verb.
const UNKNOWN: [&str; 8] = [
    "def ql(a) target(q)",
    "def qa(a) usage(normal)",
    "def qr(a) get(enabled)",
    "alter ql(a) replace",
    "alter qmgr maxprty(9)",
    "dis qa(a) curdepth",
    "delete ql(a) force",
    "start chl(c) seqnum(1)",
];

#[test]
fn keywords_belong_to_verbs_and_objects(rt: HostRuntime) {
    assert_eq!(rt; first_other(rt.alloc(), &UNKNOWN, "UnknownKeyword"), None);
}

/// A keyword of each stands twice.
const REPEATED: [&str; 4] = [
    "def ql(a) trigger notrigger",
    "def ql(a) share noshare",
    "def ql(a) hardenbo nohardenbo",
    "def qa(a) target(q) targq(q)",
];

#[test]
fn opposites_and_synonyms_repeat(rt: HostRuntime) {
    assert_eq!(rt; first_other(rt.alloc(), &REPEATED, "Repeated"), None);
}

fn is_setting(setting: &Setting) -> bool {
    match setting {
        Setting::MaxDepth(depth) => *depth == 10,
        Setting::Kept(keyword, value) => {
            keyword.as_slice() == b"DESCR".as_slice() && value.as_slice() == b"It's".as_slice()
        }
        _ => false,
    }
}

/// Whether these are both settings, and no other.
fn are_settings(settings: &[Setting]) -> bool {
    match settings {
        [one, other] => is_setting(one) && is_setting(other),
        _ => false,
    }
}

/// Whether a subject is the local queue Q1.
fn is_q1(subject: &Subject) -> bool {
    match subject {
        Subject::Local(name) => name.text() == b"Q1".as_slice(),
        _ => false,
    }
}

/// Whether a command defines Q1 anew, with both settings and no other.
fn is_definition(command: &Command) -> bool {
    match command {
        Command::Objects(mq_objects::Command::Define(define)) => {
            define.replace && is_q1(&define.subject) && are_settings(define.settings.as_slice())
        }
        _ => false,
    }
}

/// Whether a line defines Q1 anew.
fn defines(alloc: Global, line: &Line) -> bool {
    match parse(alloc, line) {
        Ok(command) => is_definition(&command),
        Err(_) => false,
    }
}

#[test]
fn a_definition_has_its_settings(rt: HostRuntime) -> Result<(), Fail> {
    let text = b"def ql(q1) replace maxdepth(10) descr('It''s')";
    let lines = commands(rt.alloc(), text)?;
    assert_eq!(rt; lines.len(), 1);
    for line in lines.as_slice() {
        assert!(rt; defines(rt.alloc(), line));
    }
    Ok(())
}

/// What a command adds: the number of a RESET, 10 for a RESOLVE that commits.
fn number_of(command: &Command) -> u32 {
    match command {
        Command::Operate(Op::Reset(_, number)) => *number,
        Command::Operate(Op::Resolve(_, Settle::Commit)) => 10,
        _ => 0,
    }
}

/// What a line adds.
fn number_in(alloc: Global, line: &Line) -> u32 {
    match parse(alloc, line) {
        Ok(command) => number_of(&command),
        Err(_) => 0,
    }
}

/// What the lines add together.
fn sum_of(alloc: Global, lines: &[Line]) -> u32 {
    let mut sum = 0u32;
    for line in lines {
        sum = sum.saturating_add(number_in(alloc, line));
    }
    sum
}

#[test]
fn commands_on_channels_have_their_values(rt: HostRuntime) -> Result<(), Fail> {
    let text = b"reset channel(c);resolve chl(c) action(commit)";
    let lines = commands(rt.alloc(), text)?;
    assert_eq!(rt; sum_of(rt.alloc(), lines.as_slice()), 11);
    Ok(())
}
