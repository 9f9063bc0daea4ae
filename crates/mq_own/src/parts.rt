//! Monitors and scripts of a node.
ghost use Rattle.std.specs.Prelude.{◌≡◌};
ghost use Rattle.mq_spec_node.specs.Happens.{connected_by, disconnected_by};

use mq_spec_node::below::{Answer, Call, Hconn, Hobj, MonitorLine, Reply, ScriptPart};
use std::marker::Model;

/// A trigger monitor.
#[derive(Drop)]
pub struct Monitor {
    /// Its place in the scenario, from 0.
    pub number: u16,
    pub line: MonitorLine,
    /// The connection that it made, which may have ended since.
    pub connection: Option<Hconn>,
    /// Its initiation queue, open.
    pub handle: Option<Hobj>,
}

impl Model for Monitor {
    ghost use Rattle.mq_spec_node.specs.Node as nodes;

    ghost Value = { nodes.Monitor };

    ghost view = { λ m. record { number = m.number; line = m.line; connection = m.connection; handle = m.handle } };
}

/// A script.
#[derive(Drop)]
pub struct Script {
    /// Its place in the scenario, from 0.
    pub number: u16,
    pub part: ScriptPart,
}

impl Model for Script {
    ghost use Rattle.mq_spec_node.specs.Node as nodes;

    ghost Value = { nodes.Script };

    ghost view = { λ s. record { number = s.number; part = s.part } };
}

impl Monitor {
    /// It remembers a connection and a handle that it was given. It takes no memory.
    fn connect(&mut self, reply: &Reply)
        ensures { self.new ≡ connected_by reply.now self.old }
    {
        match reply {
            Reply::Connected(Answer::Ok(hc)) => self.connection = Some(*hc),
            Reply::Opened(Answer::Ok(ho)) => self.handle = Some(*ho),
            _ => {}
        }
    }

    /// It forgets both where it disconnects. It takes no memory.
    fn disconnect(&mut self, call: &Call)
        ensures { self.new ≡ disconnected_by call.now self.old }
    {
        match call {
            Call::Mqdisc { .. } => {
                self.connection = None;
                self.handle = None;
            }
            _ => {}
        }
    }

    /// It remembers what a call of its own was answered. It takes no memory.
    pub fn remember(&mut self, call: &Call, reply: &Reply)
        ensures { self.new ≡ connected_by reply.now (disconnected_by call.now self.old) }
    {
        self.disconnect(call);
        self.connect(reply);
    }
}
