//! The first rule that a dead letter meets, and the names that its action stands for.

ghost use Rattle.std.specs.Prelude.{◌≡◌, ◌≤◌, length, position, drop};
ghost use Rattle.mq_rules.specs.Choice.{text_field, number_field, holds, matches, decision, target_name, name_in};

use crate::pattern::is_like;
use crate::rule::{Condition, NumberField, Rule, Table, Target, TextField};
use mq_heads::Dlh;
use mq_heads::below::{Md, QName, trimmed};

fn text_field<'a>(md: &'a Md, dlh: &'a Dlh, field: TextField) -> &'a [u8]
    ensures field { result.now ≡ text_field md.now dlh.now field }
    ensures within { length result.now ≤ 48 }
{
    match field {
        TextField::IdentityData => &md.appl_identity_data,
        TextField::ApplicationName => &md.put_appl_name,
        TextField::DestQueue => &dlh.dest_q_name,
        TextField::DestQueueManager => &dlh.dest_q_mgr_name,
        TextField::Format => &dlh.format,
        TextField::ReplyQueue => &md.reply_to_q,
        TextField::ReplyQueueManager => &md.reply_to_q_mgr,
        TextField::UserIdentifier => &md.user_identifier,
    }
}

fn number_field(md: &Md, dlh: &Dlh, field: NumberField) -> i32
    ensures { result ≡ number_field md.now dlh.now field }
{
    match field {
        NumberField::ApplicationType => md.put_appl_type,
        NumberField::Feedback => md.feedback,
        NumberField::MessageType => md.msg_type,
        NumberField::Persistence => md.persistence,
        NumberField::Reason => dlh.reason,
    }
}

fn holds(condition: &Condition, md: &Md, dlh: &Dlh) -> bool
    ensures { result ≡ holds md.now dlh.now condition.now }
{
    match condition {
        Condition::Text(field, pattern) => {
            is_like(pattern.as_slice(), trimmed(text_field(md, dlh, *field)))
        }
        Condition::Number(field, value) => number_field(md, dlh, *field) == *value,
    }
}

fn matches(rule: &Rule, md: &Md, dlh: &Dlh) -> bool
    ensures { result ≡ matches md.now dlh.now rule.now }
{
    rule.conditions
        .as_slice()
        .iter()
        .all(|condition| holds(condition, md, dlh))
}

fn first_match(rules: &[Rule], md: &Md, dlh: &Dlh) -> Option<usize>
    ensures { result ≡ position (matches md.now dlh.now) rules.now }
{
    rules.iter().position(|rule| matches(rule, md, dlh))
}

/// The number of the first rule that matches a dead letter, of those from a number on, counted from 0.
/// It takes no memory. Source: IBM MQ, "How the rules table is processed".
pub fn decide(table: &Table, md: &Md, dlh: &Dlh, from: u32) -> Option<u32>
    ensures { result ≡ decision table.now.rules md.now dlh.now from }
{
    let rules = table.rules.as_slice();
    let from = from as usize;
    if rules.len() < from {
        return None;
    }
    let (_, rest) = rules.split_at(from);
    match first_match(rest, md, dlh) {
        None => None,
        Some(further) => u32::try_from(from + further).ok(),
    }
}

fn name_in(field: &[u8]) -> QName
    ensures { result ≡ name_in field.now }
{
    match QName::of(trimmed(field)) {
        Ok(name) => name,
        Err(_) => QName::blank(),
    }
}

impl Target {
    /// The name that the target stands for. A field that isn't a name stands for the blank one.
    pub fn name(&self, md: &Md, dlh: &Dlh) -> QName
        ensures { result ≡ target_name md.now dlh.now self.now }
    {
        match self {
            Target::Name(name) => *name,
            Target::DestQueue => name_in(&dlh.dest_q_name),
            Target::DestQueueManager => name_in(&dlh.dest_q_mgr_name),
            Target::ReplyQueue => name_in(&md.reply_to_q),
            Target::ReplyQueueManager => name_in(&md.reply_to_q_mgr),
        }
    }
}
