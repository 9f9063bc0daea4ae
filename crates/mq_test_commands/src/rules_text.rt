//! mq_rules_text: rules tables from their texts.

use crate::fixture::name_of;
use mq_rules::{Action, Condition, NumberField, Rule, Table, Target, TextField, Wait};
use mq_rules_text::{RulesFault, table};
use std::alloc::Global;
use std::test::Fail;

fn read(alloc: Global, text: &[u8]) -> Result<Table, RulesFault> {
    table(alloc, text, &name_of("LONDON"))
}

/// The number that a rule's only condition asks of the reason.
fn only_reason(rule: &Rule) -> Option<i32> {
    match rule.conditions.as_slice() {
        [Condition::Number(NumberField::Reason, value)] => Some(*value),
        _ => None,
    }
}

fn has_text(rule: &Rule, at: usize, field: TextField, expected: &[u8]) -> bool {
    match rule.conditions.as_slice().get(at) {
        Some(Condition::Text(found, pattern)) => *found == field && pattern.as_slice() == expected,
        _ => false,
    }
}

/// Texts that are no table, and what is told of them.
const FAULTS: [(&[u8], RulesFault); 27] = [
    (b"ACTION(FWD)", RulesFault::FwdqMissing(1)),
    (b"ACTION(RETRY)\nREASON(2085)", RulesFault::NoAction(2)),
    (b"REASON(MQRC_X) ACTION(RETRY)", RulesFault::BadValue(1)),
    (b"REASON(MQRC_NONE) ACTION(RETRY)", RulesFault::BadValue(1)),
    (b"ACTION(MOVE)", RulesFault::BadValue(1)),
    (b"ACTION()", RulesFault::BadLine(1)),
    (b"ACTION RETRY", RulesFault::BadLine(1)),
    (b"'ACTION'(RETRY)", RulesFault::BadLine(1)),
    (b"ACTION(RETRY) REASON", RulesFault::BadLine(1)),
    (b"VERB(RETRY)", RulesFault::BadKeyword(1)),
    (b"ACTION(RETRY) ACTION(RETRY)", RulesFault::BadKeyword(1)),
    (b"ACTION(RETRY)\nINPUTQ(Q)", RulesFault::BadKeyword(2)),
    (b"INPUTQ(Q) REASON(1)", RulesFault::BadKeyword(1)),
    (b"INPUTQ(Q)\nWAIT(NO)", RulesFault::BadKeyword(2)),
    (b"INPUTQM(PARIS)", RulesFault::BadValue(1)),
    (b"RETRYINT(0)", RulesFault::BadValue(1)),
    (b"WAIT(1000000000)", RulesFault::BadValue(1)),
    (b"ACTION(RETRY) RETRY(0)", RulesFault::BadValue(1)),
    (b"ACTION(FWD) FWDQ(' ')", RulesFault::BadValue(1)),
    (b"ACTION(FWD) FWDQ('Q ')", RulesFault::BadValue(1)),
    (
        b"FEEDBACK(2147483648) ACTION(RETRY)",
        RulesFault::BadValue(1),
    ),
    (b"ACTION(RETRY) HEADER(MAYBE)", RulesFault::BadValue(1)),
    (b"X(1)\nACTION(RETRY 'open", RulesFault::BadKeyword(1)),
    (b"ACTION(RETRY)\nDESTQ('open", RulesFault::BadLine(2)),
    (
        b"* a comment\nREASON(1) +\n  ACTION(NOW)",
        RulesFault::BadValue(2),
    ),
    (
        b"ACTION(RETRY)\nREASON(1) +\n  ACTION(RETRY) +",
        RulesFault::BadLine(2),
    ),
    (b"ACTION(RETRY); REASON(2085)", RulesFault::NoAction(1)),
];

/// Whether this is told of a text.
fn is_fault(alloc: Global, text: &[u8], fault: RulesFault) -> bool {
    match read(alloc, text) {
        Ok(_) => false,
        Err(told) => told == fault,
    }
}

#[test]
fn the_first_fault_is_told(rt: HostRuntime) {
    for (row, (text, fault)) in FAULTS.iter().enumerate() {
        assert!(rt; is_fault(rt.alloc(), text, *fault), "row {row}");
    }
}

/// Whether a table has one rule, which tries messages with this reason once more.
fn is_retry_of(table: &Table, reason: i32) -> bool {
    match table.rules.as_slice() {
        [rule] => {
            only_reason(rule) == Some(reason)
                && matches!(rule.action, Action::Retry)
                && rule.retries == 1
        }
        _ => false,
    }
}

/// One rule in three ways.
const SYMBOLS: [&[u8]; 3] = [
    b"REASON(MQRC_Q_FULL) ACTION(RETRY)",
    b"REASON(2053) ACTION(RETRY)",
    b"reason('2053') action(retry)",
];

/// Whether a text has one rule, which tries messages with this reason once more.
fn retries(alloc: Global, text: &[u8], reason: i32) -> bool {
    match read(alloc, text) {
        Ok(table) => is_retry_of(&table, reason),
        Err(_) => false,
    }
}

#[test]
fn symbols_are_numbers(rt: HostRuntime) {
    for (row, text) in SYMBOLS.iter().enumerate() {
        assert!(rt; retries(rt.alloc(), text, 2053), "row {row}");
    }
}

/// A table with every keyword.
const EVERY: &[u8] =
    b"INPUTQ(DLQ),INPUTQM(LONDON) RETRYINT(30) WAIT(NO)\nAPPLIDAT(A*) APPLNAME('b?') DESTQ(Q1) DESTQM(M1) FORMAT(MQSTR) REPLYQ(R) REPLYQM(RM) USERID(u) +\n APPLTYPE(MQAT_UNIX) FEEDBACK(-1) MSGTYPE(MQMT_DATAGRAM) PERSIST(MQPER_PERSISTENT) REASON(*) ACTION(FWD) +\n FWDQ(&REPLYQ) FWDQM(&REPLYQM) HEADER(NO) RETRY(3)\n";

/// The table's own entries: its queue, the seconds between tries, whether it waits, and how many rules it has.
fn is_headed(table: &Table, queue: &[u8], interval: u32, wait: Wait, rules: usize) -> bool {
    table.input_q.text() == queue
        && table.retry_interval == interval
        && table.wait == wait
        && table.rules.len() == rules
}

/// Conditions of the rule above, by their places.
const CONDITIONS: [(usize, TextField, &[u8]); 3] = [
    (0, TextField::IdentityData, b"A*"),
    (1, TextField::ApplicationName, b"b?"),
    (7, TextField::UserIdentifier, b"U"),
];

fn is_forwarded(action: &Action) -> bool {
    match action {
        Action::Forward(forward) => {
            !forward.header
                && matches!(forward.queue, Target::ReplyQueue)
                && matches!(forward.qmgr, Target::ReplyQueueManager)
        }
        _ => false,
    }
}

/// The first of the conditions above that a rule doesn't have at its place.
fn first_missing(rule: &Rule) -> Option<usize> {
    for (at, field, pattern) in &CONDITIONS {
        if !has_text(rule, *at, *field, pattern) {
            return Some(*at);
        }
    }
    None
}

/// Whether a rule has twelve conditions, and 3 as its RETRY.
fn is_long(rule: &Rule) -> bool {
    rule.conditions.len() == 12 && rule.retries == 3
}

#[test]
fn a_table_may_have_every_keyword(rt: HostRuntime) -> Result<(), Fail> {
    let table = read(rt.alloc(), EVERY)?;
    assert!(rt; is_headed(&table, b"DLQ", 30, Wait::No, 1));
    match table.rules.as_slice() {
        [rule] => {
            assert!(rt; is_long(rule));
            assert_eq!(rt; first_missing(rule), None);
            assert!(rt; is_forwarded(&rule.action));
        }
        _ => assert!(rt; false, "one rule"),
    }
    Ok(())
}

/// A table like the manual's sample.
const SAMPLE: &[u8] =
    b"*******************************\n* An example rules table\n*******************************\ninputqm(' ') inputq(' ')\n* Rules\nREASON(MQRC_Q_FULL) ACTION(RETRY) RETRY(5)\nREASON(MQRC_PUT_INHIBITED) +\n  ACTION(RETRY) RETRY(5)\nDESTQM('aaaa.1') +\n  ACTION(FWD) FWDQ(&DESTQ) FWDQM('bbbb.1') HEADER(NO)\nFORMAT(MQTRIG) ACTION(DISCARD)\nPERSIST(MQPER_NOT_PERSISTENT) REASON(*) ACTION(DISCARD)\nREASON(*) ACTION(IGNORE)";

#[test]
fn a_table_like_the_manuals_is_read(rt: HostRuntime) -> Result<(), Fail> {
    let table = read(rt.alloc(), SAMPLE)?;
    assert!(rt; is_headed(&table, b"", 60, Wait::Yes, 6));
    Ok(())
}

#[test]
fn a_text_of_nothing_is_a_table_without_rules(rt: HostRuntime) -> Result<(), Fail> {
    let nothing = read(rt.alloc(), b"")?;
    assert!(rt; nothing.rules.is_empty());
    Ok(())
}
