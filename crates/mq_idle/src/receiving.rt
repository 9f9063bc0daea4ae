//! What a receiver's end owes, and whether it is idle.
ghost use Rattle.std.specs.Prelude.{◌≡◌, Some};
ghost use Rattle.mq_events.specs.States.{node_in};
ghost use Rattle.mq_idle.specs.Idle.{owing_settles, receiver_looks_idle, receiver_settles};
ghost use Rattle.mq_spec_node.specs.Node.{as_receiver, receiver_end};

use mq_cabled::end_in;
use mq_disk::Disk;
use mq_events::Node;
use mq_own::{ChannelEnd, EndKind, Own};
use mq_receiver::Owed;

/// Where a frame is owed the end is blocked; else nothing is there to read.
fn owing_settles(owes: &Option<Owed>, near: bool, empty: bool, refused: bool) -> bool
    ensures { result ≡ owing_settles near empty refused owes.now }
{
    match owes {
        None => empty,
        Some(_) => !near && refused,
    }
}

fn end_settles(end: &ChannelEnd, near: bool, empty: bool, refused: bool) -> bool
    ensures { result ≡ receiver_settles near empty refused (as_receiver (Some end.now)) }
{
    match &end.kind {
        EndKind::Sends(_) => empty,
        EndKind::Receives(end) => owing_settles(&end.machine.owes, near, empty, refused),
    }
}

fn settles(own: &Own, cable: u16, near: bool, empty: bool, refused: bool) -> bool
    ensures { result ≡ receiver_settles near empty refused (receiver_end cable own.now) }
{
    match end_in(&own.ends, cable) {
        None => empty,
        Some(end) => end_settles(end, near, empty, refused),
    }
}

/// Whether the receiver's end of a cable is idle: `near` says that its sender's manager is up, `empty` that nothing lies there
/// for it, `refused` that its direction is full.
pub(crate) fn receiver_looks_idle<D: Disk>(
    node: &Node<D>,
    cable: u16,
    near: bool,
    empty: bool,
    refused: bool,
) -> bool
    ensures { result ≡ receiver_looks_idle cable near empty refused (node_in node.now) }
{
    !node.is_up() || settles(&node.parts.own, cable, near, empty, refused)
}
