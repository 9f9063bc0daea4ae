//! The ends of a node's channels, by their cables.
ghost use Rattle.std.specs.Prelude.{◌≡◌, ◌==◌, position, option_copied, Some, None};
ghost use Rattle.mq_own.specs.from_spec_node.Node as nodes;
ghost use Rattle.mq_own.specs.from_spec_node.Node.{as_receiver, as_sender, cable_of, end_in, receiver_end, sender_end, with_end};
ghost use Rattle.mq_own.specs.from_spec_node.Node.{set_end as set_in};
ghost use Rattle.mq_cabled.specs.Lifted.{lifted, with_lifted, lifted_ends};

use mq_base::Items;
use mq_calls::Messages;
use mq_own::{ChannelEnd, EndKind, Own, ReceiverEnd, SenderEnd};
use std::alloc::Global;

/// The place of its cable in the scenario, from 0.
pub fn cable_of(end: &ChannelEnd) -> u16
    ensures { result ≡ cable_of end.now }
{
    match &end.kind {
        EndKind::Sends(end) => end.cable,
        EndKind::Receives(end) => end.cable,
    }
}

/// The place of the end of a cable among ends.
pub fn place_in(ends: &[ChannelEnd], cable: u16) -> Option<usize>
    ensures { result ≡ position (λ (e : nodes.ChannelEnd). cable_of e == cable) ends.now }
{
    ends.iter().position(|end| cable_of(end) == cable)
}

/// The place of the end of a cable.
fn place_of(ends: &Items<ChannelEnd>, cable: u16) -> Option<usize>
    ensures { result ≡ position (λ (e : nodes.ChannelEnd). cable_of e == cable) ends.now }
{
    place_in(ends.as_slice(), cable)
}

/// The end of a cable; none where there is none. It takes no memory.
#[tactic(auto, using(crate::proofs::EndLaws::at_none, crate::proofs::EndLaws::at_get))]
pub fn end_in(ends: &Items<ChannelEnd>, cable: u16) -> Option<&ChannelEnd>
    ensures { option_copied result ≡ end_in cable ends.now }
{
    match place_of(ends, cable) {
        None => None,
        Some(at) => ends.get(at),
    }
}

/// A sender's end as it stands; none of a receiver's. It takes no memory.
pub fn as_sender(end: &ChannelEnd) -> Option<SenderEnd>
    ensures { result ≡ as_sender (Some end.now) }
{
    match &end.kind {
        EndKind::Sends(end) => Some(SenderEnd {
            cable: end.cable,
            channel: end.channel,
            partner: end.partner,
            machine: end.machine,
        }),
        EndKind::Receives(_) => None,
    }
}

/// The sender end of a cable, as it stands. It takes no memory.
pub fn sender_of(own: &Own, cable: u16) -> Option<SenderEnd>
    ensures { result ≡ sender_end cable own.now }
{
    match end_in(&own.ends, cable) {
        None => None,
        Some(end) => as_sender(end),
    }
}

#[tactic(auto, using(crate::proofs::EndLaws::set_found, crate::proofs::EndLaws::set_none, crate::proofs::EndLaws::within))]
fn set_at(ends: &mut Items<ChannelEnd>, cable: u16, end: ChannelEnd)
    requires cable { cable ≡ cable_of end }
    ensures { ends.new ≡ set_in end ends.old }
{
    match place_of(ends, cable) {
        None => {}
        Some(at) => *ends.at_mut(at) = end,
    }
}

/// An end takes the place of the one of its cable. It takes no memory.
pub fn set_end(own: &mut Own, end: ChannelEnd)
    ensures { own.new ≡ with_end end own.old }
{
    let cable = cable_of(&end);
    set_at(&mut own.ends, cable, end);
}

/// A receiver's end, with the messages that it keeps taken out of its place.
fn lift(alloc: Global, end: &mut ChannelEnd) -> Option<ReceiverEnd>
    ensures end { result ≡ as_receiver (Some end.old) }
    ensures left { end.new ≡ lifted end.old }
{
    match &mut end.kind {
        EndKind::Sends(_) => None,
        EndKind::Receives(end) => Some(ReceiverEnd {
            cable: end.cable,
            channel: end.channel,
            partner: end.partner,
            machine: end.machine,
            kept: std::mem::replace(&mut end.kept, Messages::new(alloc)),
        }),
    }
}

#[tactic(auto, using(crate::proofs::EndLaws::lift_none, crate::proofs::EndLaws::lift_found, crate::proofs::EndLaws::lift_end, crate::proofs::EndLaws::at_none, crate::proofs::EndLaws::within))]
fn lift_in(alloc: Global, ends: &mut Items<ChannelEnd>, cable: u16) -> Option<ReceiverEnd>
    ensures end { result ≡ as_receiver (end_in cable ends.old) }
    ensures left { ends.new ≡ lifted_ends cable ends.old }
{
    match place_of(ends, cable) {
        None => None,
        Some(at) => lift(alloc, ends.at_mut(at)),
    }
}

/// The receiver end of a cable, with the messages that it keeps taken out of its place. It takes no memory.
pub fn lift_receiver(alloc: Global, own: &mut Own, cable: u16) -> Option<ReceiverEnd>
    ensures end { result ≡ receiver_end cable own.old }
    ensures left { own.new ≡ with_lifted cable own.old }
{
    lift_in(alloc, &mut own.ends, cable)
}
