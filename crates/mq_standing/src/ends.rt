//! How the ends of a cable stand at their managers.
ghost use Rattle.std.specs.Prelude.{◌≡◌, Some, option_copied, true};
ghost use Rattle.mq_calls.specs.Reads.{receiver_data, sender_data};
ghost use Rattle.mq_sync.specs.Settlement.{receiver_or, sender_or};
ghost use Rattle.mq_spec_node.specs.Deeds.{node_of};
ghost use Rattle.mq_spec_node.specs.Node.{as_receiver, as_sender, receiver_end, sender_end};
ghost use Rattle.mq_standing.specs.Stands.{receiver_if, receiver_standing, receiver_told, sender_if, sender_standing, sender_told, unit_of};

use mq_base::ChName;
use mq_cabled::below::{ChannelEnd, EndKind, Own, ReceiverEnd, SenderEnd};
use mq_cabled::end_in;
use mq_core::Core;
use mq_disk::Disk;
use mq_net_stands::{ReceiverStanding, SenderStanding};
use mq_sides::{receiver_data, sender_of};
use mq_sync::{InDoubt, ReceiverData, SenderData, Unit};

fn unit_of(doubt: &Option<InDoubt>) -> Option<Unit>
    ensures { result ≡ unit_of doubt.now }
{
    match doubt {
        None => None,
        Some(doubt) => Some(doubt.unit),
    }
}

fn sender_told(end: &SenderEnd, kept: Option<&SenderData>) -> SenderStanding
    ensures { result ≡ sender_told end.now (sender_or (option_copied kept.entry)) }
{
    match kept {
        None => SenderStanding {
            state: end.machine.state,
            session: 0,
            last: 0,
            in_doubt: None,
        },
        Some(kept) => SenderStanding {
            state: end.machine.state,
            session: kept.session,
            last: kept.last,
            in_doubt: unit_of(&kept.in_doubt),
        },
    }
}

/// An end, if it is a sender's.
fn if_sender(end: &ChannelEnd, kept: Option<&SenderData>) -> Option<SenderStanding>
    ensures { result ≡ sender_if true (as_sender (Some end.now)) (sender_or (option_copied kept.entry)) }
{
    match &end.kind {
        EndKind::Sends(end) => Some(sender_told(end, kept)),
        EndKind::Receives(_) => None,
    }
}

fn sender_in(own: &Own, cable: u16, kept: Option<&SenderData>) -> Option<SenderStanding>
    ensures { result ≡ sender_if true (sender_end cable own.now) (sender_or (option_copied kept.entry)) }
{
    match end_in(&own.ends, cable) {
        None => None,
        Some(end) => if_sender(end, kept),
    }
}

/// What the manager's sender of a channel has hardened.
fn kept_of<'a, D: Disk>(core: &'a Core<D>, channel: &ChName) -> Option<&'a SenderData>
    ensures { option_copied result ≡ sender_data channel.now core.now.plain }
{
    sender_of(&core.parts.ends.senders, channel)
}

/// How the sender's end of a cable stands at its manager; none is told of a manager that is down. It takes no memory.
#[tactic(auto, using(crate::proofs::EndLaws::sender_up, crate::proofs::EndLaws::sender_down))]
pub fn sender_standing<D: Disk>(
    core: &Core<D>,
    own: &Own,
    cable: u16,
    channel: &ChName,
) -> Option<SenderStanding>
    ensures { result ≡ sender_standing cable channel.now (Some (node_of core.now.plain own.now)) }
{
    if core.is_up() {
        sender_in(own, cable, kept_of(core, channel))
    } else {
        None
    }
}

fn receiver_told(end: &ReceiverEnd, kept: &ReceiverData) -> ReceiverStanding
    ensures { result ≡ receiver_told end.now kept.now }
{
    ReceiverStanding {
        state: end.machine.state,
        session: kept.session,
        last: kept.last,
        unit: kept.unit,
    }
}

/// An end, if it is a receiver's.
fn if_receiver(end: &ChannelEnd, kept: &ReceiverData) -> Option<ReceiverStanding>
    ensures { result ≡ receiver_if true (as_receiver (Some end.now)) kept.now }
{
    match &end.kind {
        EndKind::Sends(_) => None,
        EndKind::Receives(end) => Some(receiver_told(end, kept)),
    }
}

fn receiver_in(own: &Own, cable: u16, kept: &ReceiverData) -> Option<ReceiverStanding>
    ensures { result ≡ receiver_if true (receiver_end cable own.now) kept.now }
{
    match end_in(&own.ends, cable) {
        None => None,
        Some(end) => if_receiver(end, kept),
    }
}

/// What the manager's receiver of a channel has hardened.
fn received_of<D: Disk>(core: &Core<D>, channel: &ChName) -> ReceiverData
    ensures { result ≡ receiver_or (receiver_data channel.now core.now.plain) }
{
    receiver_data(&core.parts.ends.receivers, channel)
}

/// How the receiver's end of a cable stands at its manager; none is told of a manager that is down. It takes no memory.
#[tactic(auto, using(crate::proofs::EndLaws::receiver_up, crate::proofs::EndLaws::receiver_down))]
pub fn receiver_standing<D: Disk>(
    core: &Core<D>,
    own: &Own,
    cable: u16,
    channel: &ChName,
) -> Option<ReceiverStanding>
    ensures { result ≡ receiver_standing cable channel.now (Some (node_of core.now.plain own.now)) }
{
    if core.is_up() {
        receiver_in(own, cable, &received_of(core, channel))
    } else {
        None
    }
}
