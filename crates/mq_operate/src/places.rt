//! The end that a command speaks of.
ghost use Rattle.std.specs.Prelude.{◌≡◌, ◌==◌, Some, true, false, position, option_copied, IfOk, IfSome};
ghost use Rattle.mq_objects.specs.Names.{channel_of};
ghost use Rattle.mq_spec_node.specs.Node as nodes;
ghost use Rattle.mq_spec_manager.specs.Agents.{is_sending_kind};
ghost use Rattle.mq_spec_node.specs.Words.{cable_of, limits_of, sender_named};
ghost use Rattle.mq_turn_parts.specs.from_events.States.{node_in};
ghost use Rattle.mq_operate.specs.Places.{IsPlace, IsSeatAt, defined_sends, receives_for, seat_in, sends_for};

use mq_base::{ChName, Items, NoMemory};
use mq_cabled::{as_sender, place_in};
use mq_disk::Disk;
use mq_objects::{Channel, ChannelKind};
use mq_own::{ChannelEnd, EndKind, Own, SenderEnd};
use mq_receiver::Receiver;
use mq_sender::Limits;
use mq_turn_parts::below::{Manager, NodeParts};

/// A receiver's end without the messages that it keeps.
#[derive(Drop)]
pub struct Seat {
    /// The cable's place in the scenario, from 0.
    pub cable: u16,
    pub channel: ChName,
    pub machine: Receiver,
}

/// The end that a channel's definition here speaks of.
#[derive(Drop)]
pub enum Place {
    /// There is none.
    Absent,
    Sends(SenderEnd),
    Receives(Seat),
}

fn sends_for(channel: &ChName, end: &ChannelEnd) -> bool
    ensures { result ≡ sends_for channel.now end.now }
{
    match &end.kind {
        EndKind::Sends(end) => *channel == end.channel,
        EndKind::Receives(_) => false,
    }
}

fn receives_for(channel: &ChName, end: &ChannelEnd) -> bool
    ensures { result ≡ receives_for channel.now end.now }
{
    match &end.kind {
        EndKind::Sends(_) => false,
        EndKind::Receives(end) => *channel == end.channel,
    }
}

fn sender_place(ends: &[ChannelEnd], channel: &ChName) -> Option<usize>
    ensures { result ≡ position (sends_for channel.now) ends.now }
{
    ends.iter().position(|end| sends_for(channel, end))
}

fn receiver_place(ends: &[ChannelEnd], channel: &ChName) -> Option<usize>
    ensures { result ≡ position (receives_for channel.now) ends.now }
{
    ends.iter().position(|end| receives_for(channel, end))
}

/// The sender's end of a channel, as it stands. It takes no memory.
#[tactic(auto, using(crate::proofs::PlaceLaws::named_none, crate::proofs::PlaceLaws::named_get, crate::proofs::PlaceLaws::named_away))]
fn sender_named(ends: &Items<ChannelEnd>, channel: &ChName) -> Option<SenderEnd>
    ensures { result ≡ sender_named channel.now ends.now }
{
    match sender_place(ends.as_slice(), channel) {
        None => None,
        Some(at) => match ends.get(at) {
            None => None,
            Some(end) => as_sender(end),
        },
    }
}

fn limits_of(channel: Option<&Channel>) -> Limits
    ensures { result ≡ limits_of (option_copied channel.entry) }
{
    match channel {
        None => Limits {
            batch_size: 0,
            sequence_wrap: 0,
            short_retry: 0,
        },
        Some(channel) => match channel.kind {
            ChannelKind::Sender(batch_size, short_retry, _) => Limits {
                batch_size,
                sequence_wrap: channel.sequence_wrap,
                short_retry,
            },
            ChannelKind::Receiver(_) => Limits {
                batch_size: 0,
                sequence_wrap: channel.sequence_wrap,
                short_retry: 0,
            },
        },
    }
}

/// What a channel's definition here says of it.
pub fn limits_here<D: Disk>(manager: &Manager<D>, channel: &ChName) -> Limits
    ensures { result ≡ limits_of (channel_of channel.now manager.now.plain.definitions) }
{
    limits_of(manager.core.parts.defs.channel(channel))
}

fn kind_sends(kind: &ChannelKind) -> bool
    ensures { result ≡ is_sending_kind kind.now }
{
    match kind {
        ChannelKind::Sender(_, _, _) => true,
        ChannelKind::Receiver(_) => false,
    }
}

fn defined_sends(channel: Option<&Channel>) -> Option<bool>
    ensures { result ≡ defined_sends (option_copied channel.entry) }
{
    match channel {
        None => None,
        Some(channel) => Some(kind_sends(&channel.kind)),
    }
}

/// Which kind of end a channel's definition here speaks of.
fn sends_here<D: Disk>(manager: &Manager<D>, channel: &ChName) -> Option<bool>
    ensures { result ≡ defined_sends (channel_of channel.now manager.now.plain.definitions) }
{
    defined_sends(manager.core.parts.defs.channel(channel))
}

/// The sender's end of a channel at a node.
pub fn sender_in<D: Disk>(parts: &NodeParts<D>, channel: &ChName) -> Option<SenderEnd>
    ensures { result ≡ sender_named channel.now parts.now.own.ends }
{
    sender_named(&parts.own.ends, channel)
}

/// The end of a sender that is defined here.
#[tactic(auto, using(crate::proofs::PlaceLaws::no_sender_here))]
fn sender_here<D: Disk>(parts: &NodeParts<D>, channel: &ChName) -> Place
    requires defined { defined_sends (channel_of channel.now parts.now.manager.plain.definitions) ≡ Some true }
    ensures { IsPlace channel.now result (node_in parts.now) }
{
    match sender_in(parts, channel) {
        None => Place::Absent,
        Some(end) => Place::Sends(end),
    }
}

/// The first end of that cable stands there.
#[tactic(auto, using(crate::proofs::ReceiverLaws::first_at))]
fn is_first(ends: &Items<ChannelEnd>, cable: u16, at: usize) -> bool
    ensures { result ≡ true → position (λ (x : nodes.ChannelEnd). cable_of x == cable) ends.now ≡ Some at }
{
    match place_in(ends.as_slice(), cable) {
        None => false,
        Some(first) => first == at,
    }
}

fn seat_in(end: &ChannelEnd) -> Option<Seat>
    ensures { result ≡ seat_in end.now }
{
    match &end.kind {
        EndKind::Sends(_) => None,
        EndKind::Receives(end) => Some(Seat {
            cable: end.cable,
            channel: end.channel,
            machine: end.machine,
        }),
    }
}

/// The receiver's end that stands there; none where it isn't the first of its cable, which never comes.
#[tactic(auto, using(crate::proofs::ReceiverLaws::seated))]
fn seat_at(ends: &Items<ChannelEnd>, at: usize) -> Option<Seat>
    ensures { IfSome result (λ seat. (e : nodes.ReceiverEnd) × IsSeatAt at seat e ends.now) }
{
    match ends.get(at) {
        None => None,
        Some(end) => match seat_in(end) {
            None => None,
            Some(seat) => {
                if is_first(ends, seat.cable, at) {
                    return Some(seat);
                }
                None
            }
        },
    }
}

/// The place of a receiver's end of a channel at a node.
fn receiver_at<D: Disk>(parts: &NodeParts<D>, channel: &ChName) -> Option<usize>
    ensures { result ≡ position (receives_for channel.now) parts.now.own.ends }
{
    receiver_place(parts.own.ends.as_slice(), channel)
}

fn seat_own(own: &Own, at: usize) -> Option<Seat>
    ensures { IfSome result (λ seat. (e : nodes.ReceiverEnd) × IsSeatAt at seat e own.now.ends) }
{
    seat_at(&own.ends, at)
}

/// The receiver's end at a place of a node.
fn seat_here<D: Disk>(parts: &NodeParts<D>, at: usize) -> Option<Seat>
    ensures { IfSome result (λ seat. (e : nodes.ReceiverEnd) × IsSeatAt at seat e parts.now.own.ends) }
{
    seat_own(&parts.own, at)
}

/// The end of a receiver that is defined here.
fn receiver_here<D: Disk>(parts: &NodeParts<D>, channel: &ChName) -> Result<Place, NoMemory>
    requires defined { defined_sends (channel_of channel.now parts.now.manager.plain.definitions) ≡ Some false }
    ensures { IfOk result (λ place. IsPlace channel.now place (node_in parts.now)) }
{
    match receiver_at(parts, channel) {
        None => Ok(Place::Absent),
        Some(at) => match seat_here(parts, at) {
            None => Err(NoMemory),
            Some(seat) => Ok(Place::Receives(seat)),
        },
    }
}

/// The end that a channel's definition here speaks of. It takes no memory.
///
/// # Errors
///
/// Where two ends have one cable, which never comes.
#[tactic(auto, using(crate::proofs::PlaceLaws::undefined_here))]
pub fn place_here<D: Disk>(parts: &NodeParts<D>, channel: &ChName) -> Result<Place, NoMemory>
    ensures { IfOk result (λ place. IsPlace channel.now place (node_in parts.now)) }
{
    match sends_here(&parts.manager, channel) {
        None => Ok(Place::Absent),
        Some(true) => Ok(sender_here(parts, channel)),
        Some(false) => receiver_here(parts, channel),
    }
}
