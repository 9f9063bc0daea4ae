//! The ends of a node's channels.
ghost use Rattle.std.specs.Prelude.{◌≡◌};
ghost use Rattle.mq_spec_node.specs.Deeds.{end_at_rest};

use mq_base::{ChName, QName};
use mq_spec_node::below::{Messages, Receiver, Sender};
use std::marker::Model;

/// The sender end of a cable.
#[derive(Drop)]
pub struct SenderEnd {
    /// The cable's place in the scenario, from 0.
    pub cable: u16,
    pub channel: ChName,
    /// The manager at the other end.
    pub partner: QName,
    pub machine: Sender,
}

impl Model for SenderEnd {
    ghost use Rattle.mq_spec_node.specs.Node as nodes;

    ghost Value = { nodes.SenderEnd };

    ghost view = { λ e. record { cable = e.cable; channel = e.channel; partner = e.partner; machine = e.machine } };
}

/// The receiver end of a cable.
#[derive(Drop)]
pub struct ReceiverEnd {
    /// The cable's place in the scenario, from 0.
    pub cable: u16,
    pub channel: ChName,
    /// The manager at the other end.
    pub partner: QName,
    pub machine: Receiver,
    /// The messages of its latest unit that have come, each with the names that came with it.
    pub kept: Messages,
}

impl Model for ReceiverEnd {
    ghost use Rattle.mq_spec_node.specs.Node as nodes;

    ghost Value = { nodes.ReceiverEnd };

    ghost view = { λ e. record { cable = e.cable; channel = e.channel; partner = e.partner; machine = e.machine; kept = e.kept } };
}

/// Which end of a cable.
#[derive(Drop)]
pub enum EndKind {
    Sends(SenderEnd),
    Receives(ReceiverEnd),
}

/// An end of a cable.
#[derive(Drop)]
pub struct ChannelEnd {
    pub kind: EndKind,
}

impl Model for ChannelEnd {
    ghost use Rattle.mq_spec_node.specs.Node as nodes;
    ghost use Rattle.mq_own.specs.Views.{end_of};

    ghost Value = { nodes.ChannelEnd };

    ghost view = { λ e. end_of e.kind };
}

impl ChannelEnd {
    /// Its manager has stopped: it is inactive, and a receiver has kept nothing. It takes no memory.
    pub fn rest(&mut self)
        ensures { self.new ≡ end_at_rest self.old }
    {
        match &mut self.kind {
            EndKind::Sends(end) => end.machine.halt(),
            EndKind::Receives(end) => {
                end.machine.halt();
                end.kept.clear();
            }
        }
    }
}
