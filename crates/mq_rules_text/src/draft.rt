//! Entries that say rules.

ghost use Rattle.std.specs.Prelude.{◌≡◌};
ghost use Rattle.mq_rules_text.specs.Faults.{Reads};
ghost use Rattle.mq_rules_text.specs.Entries.{empty_draft, number_test, put, put_word, drafted, finished, forwarding, rule_of};

use crate::fault::Flaw;
use crate::keyword::Keyword;
use crate::pairs::{Pair, all_allowed, distinct};
use crate::values::{Verb, manager_target, number_value, queue_target, ranged, verb_of, yes_or_no};
use mq_base::{Items, QName};
use mq_rules::{Action, Condition, Forward, NumberField, Rule, Target};
use std::alloc::Global;

/// What is said of a rule so far.
#[derive(Drop)]
pub struct Draft {
    pub conditions: Items<Condition>,
    /// ACTION.
    pub action: Option<Verb>,
    /// FWDQ.
    pub queue: Option<Target>,
    /// FWDQM, the blank name where it isn't given.
    pub qmgr: Target,
    /// HEADER, YES where it isn't given.
    pub header: bool,
    /// RETRY, 1 to 999,999,999, and 1 where it isn't given.
    pub retries: u32,
}

fn empty_draft(alloc: Global) -> Draft
    ensures { result ≡ empty_draft }
{
    Draft {
        conditions: Items::new(alloc),
        action: None,
        queue: None,
        qmgr: Target::Name(QName::blank()),
        header: true,
        retries: 1,
    }
}

#[tactic(auto, unfolding(crate::specs::Entries::number_test))]
fn number_test(draft: Draft, field: NumberField, value: &[u8]) -> Result<Draft, Flaw>
    ensures { Reads result (number_test field value.now draft) }
{
    let mut draft = draft;
    if value == b"*".as_slice() {
        return Ok(draft);
    }
    match number_value(field, value) {
        Ok(number) => {
            draft.conditions.push(Condition::Number(field, number))?;
            Ok(draft)
        }
        Err(flaw) => Err(flaw),
    }
}

fn put(alloc: Global, draft: Draft, keyword: Keyword, value: &[u8]) -> Result<Draft, Flaw>
    ensures { Reads result (put keyword value.now draft) }
{
    let mut draft = draft;
    match keyword {
        Keyword::Text(field) => {
            let pattern = Items::from_slice(alloc, value)?;
            draft.conditions.push(Condition::Text(field, pattern))?;
        }
        Keyword::Number(field) => return number_test(draft, field, value),
        Keyword::Action => draft.action = Some(verb_of(value)?),
        Keyword::ForwardQueue => draft.queue = Some(queue_target(value)?),
        Keyword::ForwardManager => draft.qmgr = manager_target(value)?,
        Keyword::Header => draft.header = yes_or_no(value)?,
        Keyword::Retry => draft.retries = ranged(value, 1, 999_999_999)?,
        Keyword::InputQueue | Keyword::InputManager | Keyword::RetryInterval | Keyword::Wait =>
            return Err(Flaw::Keyword),
    }
    Ok(draft)
}

fn put_pair(alloc: Global, draft: Draft, pair: &Pair) -> Result<Draft, Flaw>
    ensures { Reads result (put_word pair.now.keyword pair.now.value draft) }
{
    match pair.keyword {
        Some(keyword) => put(alloc, draft, keyword, pair.value.as_slice()),
        None => Err(Flaw::Keyword),
    }
}

fn drafted(alloc: Global, pairs: &[Pair]) -> Result<Draft, Flaw>
    ensures { Reads result (drafted pairs.now empty_draft) }
{
    let mut draft = empty_draft(alloc);
    let mut rest = pairs;
    'reading: while let [pair, further @ ..] = rest {
        draft = put_pair(alloc, draft, pair)?;
        rest = further;
    }
    Ok(draft)
}

fn finished(draft: Draft) -> Result<Rule, Flaw>
    ensures { result ≡ finished draft }
{
    let Draft {
        conditions,
        action,
        queue,
        qmgr,
        header,
        retries,
    } = draft;
    let action = match action {
        None => return Err(Flaw::Action),
        Some(Verb::Discard) => Action::Discard,
        Some(Verb::Ignore) => Action::Ignore,
        Some(Verb::Retry) => Action::Retry,
        Some(Verb::Forward) => match queue {
            None => return Err(Flaw::Target),
            Some(queue) => Action::Forward(Forward {
                queue,
                qmgr,
                header,
            }),
        },
    };
    Ok(Rule {
        conditions,
        action,
        retries,
    })
}

/// The rule that an entry says.
///
/// # Errors
///
/// The first that applies of `Keyword`, `Value`, `Action`, `Target`; `Memory`.
#[tactic(auto, unfolding(crate::specs::Entries::rule_of))]
pub fn rule_of(alloc: Global, pairs: &[Pair]) -> Result<Rule, Flaw>
    ensures { Reads result (rule_of pairs.now) }
{
    if !all_allowed(false, pairs) || !distinct(pairs) {
        return Err(Flaw::Keyword);
    }
    let draft = drafted(alloc, pairs)?;
    finished(draft)
}
