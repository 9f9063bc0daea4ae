//! A cable, by what lies on it and by its two ends.
ghost use Rattle.std.specs.Prelude.{◌≡◌};
ghost use Rattle.mq_events.specs.States.{node_in};
ghost use Rattle.mq_idle.specs.Idle.{looks_idle, none_lies, receiver_looks_idle, refuses, sender_looks_idle};
ghost use Rattle.mq_idle.specs.Sights.{IsSightOf};
ghost use Rattle.mq_spec_network.specs.Turns.{Network, cable_idle};
ghost use Rattle.mq_calls.specs.Reads.{is_up};

use crate::full::{none_lies, refuses};
use crate::receiving::receiver_looks_idle;
use crate::sending::sender_looks_idle;
use mq_disk::Disk;
use mq_events::Node;
use mq_history::CableLine;
use mq_ways::Cable;

/// The sender's direction refuses its next frame.
fn out_refuses(line: &CableLine, cable: &Cable) -> bool
    ensures { result ≡ refuses line.now.out cable.now.out }
{
    refuses(line.out.as_slice(), &cable.wire.write, &cable.out)
}

/// The receiver's does.
fn back_refuses(line: &CableLine, cable: &Cable) -> bool
    ensures { result ≡ refuses line.now.back cable.now.back }
{
    refuses(line.back.as_slice(), &cable.wire.read, &cable.back)
}

/// Nothing lies there for the receiver.
fn out_empty(cable: &Cable) -> bool
    ensures { result ≡ none_lies cable.now.out.items }
{
    none_lies(&cable.wire.write)
}

/// Nothing lies there for the sender.
fn back_empty(cable: &Cable) -> bool
    ensures { result ≡ none_lies cable.now.back.items }
{
    none_lies(&cable.wire.read)
}

fn sender_idle<D: Disk>(
    number: u16,
    line: &CableLine,
    sender: &Node<D>,
    receiver: &Node<D>,
    cable: &Cable,
) -> bool
    ensures { result ≡ sender_looks_idle number (is_up receiver.now.manager.plain.running) (none_lies cable.now.back.items) (refuses line.now.out cable.now.out) (node_in sender.now) }
{
    let refused = out_refuses(line, cable);
    let empty = back_empty(cable);
    sender_looks_idle(sender, number, receiver.is_up(), empty, refused)
}

fn receiver_idle<D: Disk>(
    number: u16,
    line: &CableLine,
    sender: &Node<D>,
    receiver: &Node<D>,
    cable: &Cable,
) -> bool
    ensures { result ≡ receiver_looks_idle number (is_up sender.now.manager.plain.running) (none_lies cable.now.out.items) (refuses line.now.back cable.now.back) (node_in receiver.now) }
{
    let refused = back_refuses(line, cable);
    let empty = out_empty(cable);
    receiver_looks_idle(receiver, number, sender.is_up(), empty, refused)
}

fn looks_idle<D: Disk>(
    number: u16,
    line: &CableLine,
    sender: &Node<D>,
    receiver: &Node<D>,
    cable: &Cable,
) -> bool
    ensures { result ≡ looks_idle number line.now (node_in sender.now) (node_in receiver.now) cable.now }
{
    sender_idle(number, line, sender, receiver, cable)
        && receiver_idle(number, line, sender, receiver, cable)
}

/// Whether nothing can change at a cable, whose nodes these are: no end has anything to read or to send, or it is blocked, or its
/// manager is down. It does no turn and takes no memory.
pub fn cable_idle<D: Disk>(
    number: u16,
    line: &CableLine,
    sender: &Node<D>,
    receiver: &Node<D>,
    cable: &Cable,
) -> bool
    ensures { (w : Network) → IsSightOf w number line.now sender.now receiver.now cable.now → result ≡ cable_idle w number line.now }
{
    looks_idle(number, line, sender, receiver, cable)
}
