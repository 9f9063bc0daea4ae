//! mq_rules: patterns, fields and the first rule that matches.

use mq_base::{Items, QName};
use mq_heads::Dlh;
use mq_message::Md;
use mq_rules::{Action, Condition, NumberField, Rule, Table, Target, TextField, Wait, decide};
use std::alloc::Global;
use std::test::*;

/// A descriptor whose texts are those of a message put by `app` for `user`.
fn descriptor() -> Md {
    let mut name = [b' '; 28];
    name[..3].copy_from_slice(b"app");
    let mut user = [b' '; 12];
    user[..4].copy_from_slice(b"user");
    let mut reply = [b' '; 48];
    reply[..4].copy_from_slice(b"BACK");
    Md {
        report: 0,
        msg_type: 8,
        expiry: -1,
        feedback: 0,
        encoding: 273,
        coded_char_set_id: 1208,
        format: *b"MQDEAD  ",
        priority: 0,
        persistence: 1,
        msg_id: [0; 24],
        correl_id: [0; 24],
        backout_count: 0,
        reply_to_q: reply,
        reply_to_q_mgr: [b'?'; 48],
        user_identifier: user,
        accounting_token: [0; 32],
        appl_identity_data: [b' '; 32],
        put_appl_type: 6,
        put_appl_name: name,
        put_date: *b"20260101",
        put_time: *b"00000000",
        appl_origin_data: [b' '; 4],
    }
}

fn header() -> Dlh {
    let mut queue = [b' '; 48];
    queue[..3].copy_from_slice(b"NOQ");
    let mut manager = [b' '; 48];
    manager[..5].copy_from_slice(b"PARIS");
    Dlh {
        reason: 2085,
        dest_q_name: queue,
        dest_q_mgr_name: manager,
        encoding: 273,
        coded_char_set_id: 1208,
        format: *b"MQSTR   ",
        put_appl_type: 0,
        put_appl_name: [b' '; 28],
        put_date: *b"20260101",
        put_time: *b"00000000",
    }
}

/// A condition on a field of text; nothing, where memory lacks.
fn text(alloc: Global, field: TextField, pattern: &[u8]) -> Option<Condition> {
    match Items::from_slice(alloc, pattern) {
        Ok(pattern) => Some(Condition::Text(field, pattern)),
        Err(_) => None,
    }
}

fn rule_of(conditions: Items<Condition>) -> Rule {
    Rule {
        conditions,
        action: Action::Retry,
        retries: 1,
    }
}

/// Puts a rule of this condition behind the others; false, where memory lacks.
fn push(alloc: Global, rules: &mut Items<Rule>, condition: Option<Condition>) -> bool {
    let mut conditions = Items::new(alloc);
    let pushed = match condition {
        Some(condition) => conditions.push(condition).is_ok(),
        None => false,
    };
    pushed && rules.push(rule_of(conditions)).is_ok()
}

fn of_rules(rules: Items<Rule>) -> Table {
    Table {
        input_q: QName::blank(),
        retry_interval: 60,
        wait: Wait::Yes,
        rules,
    }
}

/// A header with this text in the destination queue's field.
fn header_to(text: &[u8]) -> Dlh {
    let mut header = header();
    header.dest_q_name = [b' '; 48];
    for (place, byte) in header.dest_q_name.iter_mut().zip(text.iter()) {
        *place = *byte;
    }
    header
}

/// Which rule is chosen, from that one on.
fn chosen(table: &Table, header: &Dlh, from: u32) -> Option<u32> {
    decide(table, &descriptor(), header, from)
}

/// Whether a rule for this pattern of the destination queue's field is chosen for this text, or not.
fn is_chosen(alloc: Global, pattern: &[u8], header: &Dlh, alike: bool) -> bool {
    let mut rules = Items::new(alloc);
    push(
        alloc,
        &mut rules,
        text(alloc, TextField::DestQueue, pattern),
    ) && chosen(&of_rules(rules), header, 0).is_some() == alike
}

/// A pattern, a text, and whether they are alike.
const PATTERNS: [(&[u8], &[u8], bool); 17] = [
    (&[b'*'; 48], &[b'a'; 48], true),
    (b"", b"", true),
    (b"", b"A", false),
    (b"A", b"A", true),
    (b"A", b"AB", false),
    (b"AB", b"A", false),
    (b"?", b"A", true),
    (b"?", b"", false),
    (b"A?C", b"ABC", true),
    (b"*", b"", true),
    (b"*", b"ABC", true),
    (b"A*", b"BA", false),
    (b"*A*B", b"xAyAzB", true),
    (b"*A*B", b"xAyAzBc", false),
    (b"a", b"A", false),
    (b"A ", b"A", false),
    (b"*?*?", b"A", false),
];

#[test]
fn a_star_is_any_text_and_a_question_mark_any_byte(rt: HostRuntime) {
    for (row, (pattern, text, alike)) in PATTERNS.iter().enumerate() {
        assert!(rt;
            is_chosen(rt.alloc(), pattern, &header_to(text), *alike),
            "row {row}"
        );
    }
}

/// Fields of texts, and what stands there.
const TEXTS: [(TextField, &[u8]); 8] = [
    (TextField::IdentityData, b""),
    (TextField::ApplicationName, b"app"),
    (TextField::DestQueue, b"NOQ"),
    (TextField::DestQueueManager, b"PARIS"),
    (TextField::Format, b"MQSTR"),
    (TextField::ReplyQueue, b"BACK"),
    (
        TextField::ReplyQueueManager,
        b"????????????????????????????????????????????????",
    ),
    (TextField::UserIdentifier, b"user"),
];

/// Fields of numbers, and what stands there.
const NUMBERS: [(NumberField, i32); 5] = [
    (NumberField::ApplicationType, 6),
    (NumberField::Feedback, 0),
    (NumberField::MessageType, 8),
    (NumberField::Persistence, 1),
    (NumberField::Reason, 2085),
];

/// A table with a rule for each field; with fewer, where memory lacks.
fn each_field(alloc: Global) -> Table {
    let mut rules = Items::new(alloc);
    for (field, pattern) in &TEXTS {
        let _pushed = push(alloc, &mut rules, text(alloc, *field, pattern));
    }
    for (field, value) in &NUMBERS {
        let _pushed = push(alloc, &mut rules, Some(Condition::Number(*field, *value)));
    }
    of_rules(rules)
}

#[test]
fn each_field_is_looked_up_where_it_stands(rt: HostRuntime) {
    let table = each_field(rt.alloc());
    let header = header();
    for from in 0..13u32 {
        assert!(rt; chosen(&table, &header, from) == Some(from), "rule {from}");
    }
    for from in [13, 4294967295] {
        assert!(rt; chosen(&table, &header, from).is_none(), "from {from}");
    }
}

/// A table of three rules, of which the first doesn't match; with fewer, where memory lacks.
fn three(alloc: Global) -> Table {
    let mut rules = Items::new(alloc);
    let reason = Condition::Number(NumberField::Reason, 2053);
    let _pushed = push(alloc, &mut rules, Some(reason))
        && push(alloc, &mut rules, text(alloc, TextField::Format, b"MQ*"))
        && push(alloc, &mut rules, text(alloc, TextField::DestQueue, b"N?Q"));
    of_rules(rules)
}

/// From which rule is looked, and which is chosen.
const CHOSEN: [(u32, Option<u32>); 4] = [(0, Some(1)), (1, Some(1)), (2, Some(2)), (3, None)];

#[test]
fn the_first_rule_that_matches_is_chosen(rt: HostRuntime) {
    let table = three(rt.alloc());
    let header = header();
    for (from, first) in &CHOSEN {
        assert!(rt; chosen(&table, &header, *from) == *first, "from {from}");
    }
}

/// Targets, and the names that they have.
const TARGETS: [(Target, &[u8]); 4] = [
    (Target::DestQueue, b"NOQ"),
    (Target::DestQueueManager, b"PARIS"),
    (Target::ReplyQueue, b"BACK"),
    (Target::ReplyQueueManager, b""),
];

/// Whether a target is this name.
fn is_name(target: &Target, name: &[u8]) -> bool {
    target.name(&descriptor(), &header()).text() == name
}

#[test]
fn targets_name_fields_of_the_two_headers(rt: HostRuntime) {
    for (row, (target, name)) in TARGETS.iter().enumerate() {
        assert!(rt; is_name(target, name), "row {row}");
    }
}
