//! All that is a node's own beside its manager.
ghost use Rattle.std.specs.Prelude.{◌≡◌, map};
ghost use Rattle.mq_spec_node.specs.Node as nodes;
ghost use Rattle.mq_spec_node.specs.Deeds.{forgotten_rows, end_at_rest, own_at_rest};
ghost use Rattle.mq_spec_node.specs.Happens.{remembered};
ghost use Rattle.mq_own.specs.Views.{forgetting, forgetting_all, remembering};

use crate::ends::ChannelEnd;
use crate::handlers::Handler;
use crate::parts::{Monitor, Script};
use mq_base::Items;
use mq_spec_node::below::{Actor, Call, Did, Reply};
use std::marker::Model;

/// All that is a node's own beside its manager, each list in the order of the numbers in it.
#[derive(Drop)]
pub struct Own {
    /// The ends of its channels.
    pub ends: Items<ChannelEnd>,
    /// Its dead-letter handlers.
    pub handlers: Items<Handler>,
    /// Its trigger monitors.
    pub monitors: Items<Monitor>,
    /// Its scripts.
    pub scripts: Items<Script>,
}

impl Model for Own {
    ghost Value = { nodes.Own };

    ghost view = { λ o. record { ends = o.ends; handlers = o.handlers; monitors = o.monitors; scripts = o.scripts } };
}

/// The handlers forget the tries of rows that went.
fn forget_tries(handlers: &mut Items<Handler>, delta: &[Did])
    ensures { handlers.new ≡ map (forgetting delta.now) handlers.old }
{
    for at in 0..handlers.len() {
        handlers.at_mut(at).forget(delta);
    }
}

/// The monitor of a number remembers what a call of its own was answered.
fn remember_if(monitor: &mut Monitor, number: u16, call: &Call, reply: &Reply)
    ensures { monitor.new ≡ remembering number call.now reply.now monitor.old }
{
    if monitor.number == number {
        monitor.remember(call, reply);
    }
}

fn remember_answer(monitors: &mut Items<Monitor>, number: u16, call: &Call, reply: &Reply)
    ensures { monitors.new ≡ map (remembering number call.now reply.now) monitors.old }
{
    for at in 0..monitors.len() {
        remember_if(monitors.at_mut(at), number, call, reply);
    }
}

/// The ends are inactive.
fn rest_ends(ends: &mut Items<ChannelEnd>)
    ensures { ends.new ≡ map end_at_rest ends.old }
{
    for at in 0..ends.len() {
        ends.at_mut(at).rest();
    }
}

/// The handlers forget all their tries. It takes no memory.
pub fn forget_all(handlers: &mut Items<Handler>)
    ensures { handlers.new ≡ map forgetting_all handlers.old }
{
    for at in 0..handlers.len() {
        handlers.at_mut(at).forget_all();
    }
}

impl Own {
    /// The manager has stopped: the ends are inactive, and all tries are forgotten. It takes no memory.
    pub fn rest(&mut self)
        ensures { self.new ≡ own_at_rest self.old }
    {
        rest_ends(&mut self.ends);
        forget_all(&mut self.handlers);
    }

    /// The handlers forget the tries of rows that went. It takes no memory.
    pub fn forget_rows(&mut self, delta: &[Did])
        ensures { self.new ≡ forgotten_rows delta.now self.old }
    {
        forget_tries(&mut self.handlers, delta);
    }

    /// A monitor remembers what a call of its own was answered. It takes no memory.
    pub fn remember(&mut self, actor: &Actor, call: &Call, reply: &Reply)
        ensures { self.new ≡ remembered actor.now call.now reply.now self.old }
    {
        match actor {
            Actor::Monitor(number) => remember_answer(&mut self.monitors, *number, call, reply),
            _ => {}
        }
    }
}
