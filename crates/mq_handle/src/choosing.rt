//! What is to be done with a dead letter: the rule that is in force for it, and where that sends it.
ghost use Rattle.std.specs.Prelude.{◌≡◌, true, option_copied};
ghost use Rattle.mq_heads.specs.Headers.{dlh_in};
ghost use Rattle.mq_spec_manager.specs.Words.{is_dead};
ghost use Rattle.mq_handle.specs.Rulings.{from_of, ruling, ruling_by, ruling_in};

use mq_heads::{Dlh, dlh_of};
use mq_message::{Dest, Message};
use mq_own::Tried;
use mq_rules::{Action, Rule, Table, Target, decide};

/// Where a rule sends a dead letter, and what is known of it where it is refused there.
#[derive(Clone, Copy)]
pub struct Dispatch {
    pub to: Dest,
    /// Without its header.
    pub bare: bool,
    /// The rule's number in its table, from 0.
    pub rule: u32,
    /// After so many failed tries the next matching rule is in force.
    pub retries: u32,
}

/// What is to be done with a dead letter.
#[derive(Clone, Copy)]
pub enum Ruling {
    /// The handler leaves it alone from now on.
    Ignore,
    /// It is removed.
    Discard,
    /// It is put elsewhere.
    Move(Dispatch),
}

/// The number of the rule from which on the first that matches is in force.
fn from_of(tried: Option<&Tried>) -> u32
    ensures { result ≡ from_of (option_copied tried.entry) }
{
    match tried {
        None => 0,
        Some(tried) => tried.from,
    }
}

/// What a rule makes of a dead letter with this header (IBM MQ, "Rules table actions").
fn ruling_by(rule: &Rule, number: u32, message: &Message, head: &Dlh) -> Ruling
    requires head { head.now ≡ dlh_in message.now.body }
    ensures { result ≡ ruling_by message.now number rule.now rule.now.action }
{
    match &rule.action {
        Action::Discard => Ruling::Discard,
        Action::Ignore => Ruling::Ignore,
        Action::Retry => Ruling::Move(Dispatch {
            to: Dest {
                queue: Target::DestQueue.name(&message.md, head),
                qmgr: Target::DestQueueManager.name(&message.md, head),
            },
            bare: true,
            rule: number,
            retries: rule.retries,
        }),
        Action::Forward(forward) => Ruling::Move(Dispatch {
            to: Dest {
                queue: forward.queue.name(&message.md, head),
                qmgr: forward.qmgr.name(&message.md, head),
            },
            bare: !forward.header,
            rule: number,
            retries: rule.retries,
        }),
    }
}

/// What the rule of a number makes of a dead letter; without one it is ignored.
fn ruling_in(table: &Table, number: Option<u32>, message: &Message, head: &Dlh) -> Ruling
    requires head { head.now ≡ dlh_in message.now.body }
    ensures { result ≡ ruling_in table.now message.now number }
{
    let Some(number) = number else {
        return Ruling::Ignore;
    };
    match table.rules.get(number as usize) {
        None => Ruling::Ignore,
        Some(rule) => ruling_by(rule, number, message, head),
    }
}

/// What is to be done with a dead letter of which the handler knows this. It takes no memory.
#[tactic(auto, using(crate::proofs::RulingLaws::ruled, mq_moves::proofs::LandLaws::dead_head_is, crate::proofs::RulingLaws::not_dead))]
pub fn rule_on(table: &Table, message: &Message, tried: Option<&Tried>) -> Ruling
    requires dead { is_dead message.now.body ≡ true }
    ensures { result ≡ ruling table.now message.now (option_copied tried.entry) }
{
    match dlh_of(message.body.as_slice()) {
        Err(_) => Ruling::Ignore,
        Ok(head) => {
            let number = decide(table, &message.md, &head, from_of(tried));
            ruling_in(table, number, message, &head)
        }
    }
}
