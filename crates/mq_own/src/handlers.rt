//! Dead-letter handlers, and what they know of dead letters that they have tried.
ghost use Rattle.std.specs.Prelude.{◌≡◌, filter};
ghost use Rattle.std.specs.List.{list_any};
ghost use Rattle.mq_spec_node.specs.Deeds.{went, still_tried};
ghost use Rattle.mq_own.specs.Views.{forgetting, forgetting_all};

use mq_base::QName;
use mq_message::Ident;
use mq_rules::Table;
use mq_spec_node::below::Did;
use std::marker::Model;

/// A dead letter that a handler has tried.
#[derive(Drop)]
pub struct Tried {
    pub queue: QName,
    pub ident: Ident,
    /// The handler leaves it alone from now on.
    pub ignored: bool,
    /// The rule from which on the first that matches is in force, from 0.
    pub from: u32,
    /// The failed tries of that rule.
    pub failed: u32,
    /// The moment at which the next try is due, in milliseconds since 1970.
    pub due: u64,
}

impl Model for Tried {
    ghost use Rattle.mq_spec_node.specs.Node as nodes;

    ghost Value = { nodes.Tried };

    ghost view = { λ t. record { queue = t.queue; ident = t.ident; ignored = t.ignored; from = t.from; failed = t.failed; due = t.due } };
}

/// A dead-letter handler.
#[derive(Drop)]
pub struct Handler {
    /// The place of its rules table in the scenario, from 0.
    pub number: u16,
    pub table: Table,
    /// The dead letters that it has tried, each once.
    pub tried: Vec<Tried>,
}

impl Model for Handler {
    ghost use Rattle.mq_spec_node.specs.Node as nodes;

    ghost Value = { nodes.Handler };

    ghost view = { λ h. record { number = h.number; table = h.table; tried = h.tried.items } };
}

/// Whether this took the row from the queue.
fn went(queue: &QName, ident: &Ident, did: &Did) -> bool
    ensures { result ≡ went queue.now ident.now did.now }
{
    match did {
        Did::Removed {
            queue: from,
            ident: other,
            ..
        } => *queue == *from && *ident == *other,
        Did::Moved {
            from,
            ident: other,
            ..
        } => *queue == *from && *ident == *other,
        _ => false,
    }
}

/// Whether one of these took the row from the queue.
fn is_gone(delta: &[Did], queue: &QName, ident: &Ident) -> bool
    ensures { result ≡ list_any (went queue.now ident.now) delta.now }
{
    delta.iter().any(|did| went(queue, ident, did))
}

/// Whether the row that was tried is still there.
fn still_tried(delta: &[Did], tried: &Tried) -> bool
    ensures { result ≡ still_tried delta.now tried.now }
{
    !is_gone(delta, &tried.queue, &tried.ident)
}

/// The tries of rows that went are forgotten.
fn forget_gone(tried: &mut Vec<Tried>, delta: &[Did])
    ensures { tried.new.items ≡ filter (still_tried delta.now) tried.old.items }
{
    tried.retain(|one| still_tried(delta, one));
}

impl Handler {
    /// The tries of rows that went are forgotten. It takes no memory.
    pub fn forget(&mut self, delta: &[Did])
        ensures { self.new ≡ forgetting delta.now self.old }
    {
        forget_gone(&mut self.tried, delta);
    }

    /// All its tries are forgotten. It takes no memory.
    pub fn forget_all(&mut self)
        ensures { self.new ≡ forgetting_all self.old }
    {
        self.tried.clear();
    }
}
