//! Where a message that a channel brings is put: by its route, or as a dead letter, or not at all.
ghost use Rattle.std.specs.Prelude.{◌≡◌, ◌+◌, List, true, Some, Ok, nat_le, nat_lt, option_copied, IfOk};
ghost use Rattle.mq_calls.specs.Words.{PathStep as Step, Plain, local_of};
ghost use Rattle.mq_spec_manager.specs.Agents.{dead_or, land, landing, uses_dead};
ghost use Rattle.mq_core.specs.Views.{plain_of};
ghost use Rattle.mq_core.specs.Ties.{Tied};
ghost use Rattle.mq_moves.specs.Landed.{at_end, route_by};
ghost use Rattle.mq_receive.specs.Ahead.{is_on, times_on, depth_ahead, can_take_at, may_be_dead, dead_at, resolved_at, land_at, IsAhead};
ghost use Rattle.mq_receive.specs.Arriving.{Lands};

use mq_base::{ChName, NoMemory, QName};
use mq_calls::{AgentStop, PlaceFault};
use mq_codes::Reason;
use mq_core::{Arrival, Parts};
use mq_disk::Disk;
use mq_message::{Bytes, Message};
use mq_moves::below::{dead_message, dest_at, names_of, queue_at};
use mq_moves::refused_by;
use mq_objects::{Channel, ChannelKind, LocalQueue, Usage};
use mq_resolve::{PathStep, RouteEnd, resolve};
use std::alloc::Global;

fn is_on(arrival: &Arrival, queue: &QName) -> bool
    ensures { result ≡ is_on queue.now arrival.now }
{
    *queue == arrival.queue
}

/// How many messages of a batch were placed on a queue.
fn times_on(landed: &[Arrival], queue: &QName) -> u64
    ensures { result ≡ times_on queue.now landed.now }
{
    landed
        .iter()
        .filter(|arrival| is_on(arrival, queue))
        .count() as u64
}

/// A queue of so many messages, and so many more, has a place left.
fn has_place(most: u32, depth: u64, more: u64) -> bool
    ensures { result ≡ nat_lt (depth + more) most }
{
    match depth.checked_add(more) {
        None => false,
        Some(sum) => sum < u64::from(most),
    }
}

/// USEDLQ(YES).
fn uses_dead(channel: Option<&Channel>) -> bool
    ensures { result ≡ uses_dead (option_copied channel.entry) }
{
    match channel {
        None => false,
        Some(channel) => match &channel.kind {
            ChannelKind::Sender(_, _, _) => false,
            ChannelKind::Receiver(dead) => *dead,
        },
    }
}

/// A body so long fits behind a header.
fn has_room(most: u32, bytes: usize) -> bool
    ensures { result ≡ nat_le (bytes + 172) most }
{
    match bytes.checked_add(172) {
        None => false,
        Some(sum) => sum <= most as usize,
    }
}

/// A local queue takes a dead letter with a body so long.
fn can_take<D: Disk>(parts: &Parts<D>, queue: &LocalQueue, bytes: usize, landed: &[Arrival]) -> bool
    requires tied { Tied parts.now }
    ensures { result ≡ can_take_at (Some queue.now) bytes (plain_of parts.now) (depth_ahead landed.now (plain_of parts.now)) }
{
    if queue.usage == Usage::Transmission {
        return false;
    }
    if !queue.put_enabled {
        return false;
    }
    if !has_place(
        queue.max_depth,
        parts.depth(&queue.name),
        times_on(landed, &queue.name),
    ) {
        return false;
    }
    if !has_room(queue.max_message_length, bytes) {
        return false;
    }
    has_room(parts.defs.manager().max_message_length, bytes)
}

/// The dead-letter queue takes a dead letter with a body so long.
fn takes_dead<D: Disk>(parts: &Parts<D>, bytes: usize, landed: &[Arrival]) -> bool
    requires tied { Tied parts.now }
    ensures { result ≡ can_take_at (local_of (plain_of parts.now).definitions.manager.dead_letter_queue (plain_of parts.now).definitions) bytes (plain_of parts.now) (depth_ahead landed.now (plain_of parts.now)) }
{
    match parts.defs.local(&parts.defs.manager().dead_letter_queue) {
        None => false,
        Some(queue) => can_take(parts, queue, bytes, landed),
    }
}

/// A message with a body so long may be a dead letter of the channel.
fn may_be_dead<D: Disk>(
    parts: &Parts<D>,
    channel: &ChName,
    bytes: usize,
    landed: &[Arrival],
) -> bool
    requires tied { Tied parts.now }
    ensures { result ≡ may_be_dead channel.now bytes (plain_of parts.now) (depth_ahead landed.now (plain_of parts.now)) }
{
    if !uses_dead(parts.defs.channel(channel)) {
        return false;
    }
    takes_dead(parts, bytes, landed)
}

/// A message as a dead letter.
fn dead_arrival<D: Disk>(
    parts: &Parts<D>,
    channel: &ChName,
    reason: Reason,
    message: &Message,
    dropped: Option<QName>,
) -> Result<Arrival, PlaceFault>
    requires tied { Tied parts.now }
    ensures { Lands (dead_or true channel.now reason message.now (plain_of parts.now)) dropped result }
{
    match dead_message(parts.alloc, channel, &reason, message, parts.moment) {
        Ok(message) => Ok(Arrival {
            queue: parts.defs.manager().dead_letter_queue,
            message,
            dead: Some(reason),
            dropped,
        }),
        Err(NoMemory) => Err(PlaceFault::Stop(AgentStop::NoMemory)),
    }
}

/// A message as a dead letter, where the channel and the dead-letter queue allow it.
#[tactic(auto, using(crate::proofs::AheadLaws::lands_refused, crate::proofs::AheadLaws::lands_dead))]
fn dead_letter<D: Disk>(
    parts: &Parts<D>,
    channel: &ChName,
    reason: Reason,
    message: &Message,
    dropped: Option<QName>,
    landed: &[Arrival],
) -> Result<Arrival, PlaceFault>
    requires tied { Tied parts.now }
    ensures { Lands (dead_at channel.now reason message.now (plain_of parts.now) (depth_ahead landed.now (plain_of parts.now))) dropped result }
{
    if !may_be_dead(parts, channel, message.body.len(), landed) {
        return Err(PlaceFault::Refused(reason));
    }
    dead_arrival(parts, channel, reason, message, dropped)
}

/// A message at the end of its route.
fn routed(alloc: Global, message: &Message, end: &RouteEnd) -> Result<Message, NoMemory>
    ensures { IfOk result (λ m. m ≡ at_end end.now message.now) }
{
    match Bytes::from_slice(alloc, message.body.as_slice()) {
        Ok(body) => Ok(Message {
            ident: message.ident,
            md: message.md,
            route: dest_at(end),
            deadline: message.deadline,
            body,
        }),
        Err(_) => Err(NoMemory),
    }
}

/// A message by its route.
fn arrival_by_route<D: Disk>(
    parts: &Parts<D>,
    message: &Message,
    end: &RouteEnd,
    dropped: Option<QName>,
) -> Result<Arrival, PlaceFault>
    ensures { (path : List Step) → Lands (Ok (landing (route_by end.now path) message.now)) dropped result }
{
    match routed(parts.alloc, message, end) {
        Ok(message) => Ok(Arrival {
            queue: queue_at(end),
            message,
            dead: None,
            dropped,
        }),
        Err(NoMemory) => Err(PlaceFault::Stop(AgentStop::NoMemory)),
    }
}

/// A message whose route is found.
fn land_routed<D: Disk>(
    parts: &Parts<D>,
    channel: &ChName,
    message: &Message,
    end: &RouteEnd,
    path: &[PathStep],
    dropped: Option<QName>,
    landed: &[Arrival],
) -> Result<Arrival, PlaceFault>
    requires tied { Tied parts.now }
    ensures { Lands (resolved_at (Ok (route_by end.now path.now)) channel.now message.now (plain_of parts.now) (depth_ahead landed.now (plain_of parts.now))) dropped result }
{
    let more = times_on(landed, &queue_at(end));
    match refused_by(parts, end, path, message.body.len(), more) {
        None => arrival_by_route(parts, message, end, dropped),
        Some(reason) => dead_letter(parts, channel, reason, message, dropped, landed),
    }
}

fn land_by<D: Disk>(
    parts: &Parts<D>,
    channel: &ChName,
    message: &Message,
    dropped: Option<QName>,
    landed: &[Arrival],
) -> Result<Arrival, PlaceFault>
    requires tied { Tied parts.now }
    ensures { Lands (land_at channel.now message.now (plain_of parts.now) (depth_ahead landed.now (plain_of parts.now))) dropped result }
{
    let names = names_of(&message.route);
    match resolve(&parts.defs, &parts.name, &names.queue, &names.qmgr) {
        Ok(route) => {
            let path = route.path.as_slice();
            land_routed(parts, channel, message, &route.end, path, dropped, landed)
        }
        Err(reason) => dead_letter(parts, channel, reason, message, dropped, landed),
    }
}

/// Where a message that a channel brings is put, once the messages of its batch before it stand on their queues: by its route; as a dead
/// letter, where its route is refused, the channel has USEDLQ(YES), and the dead-letter queue takes it (IBM MQ: "Undelivered messages").
/// The row that is dropped for it is noted.
///
/// # Errors
///
/// Refused: what name resolution refuses, 2045, 2051, 2030, 2031, 2053. No memory.
pub fn land<D: Disk>(
    parts: &Parts<D>,
    channel: &ChName,
    message: &Message,
    dropped: Option<QName>,
    landed: &[Arrival],
) -> Result<Arrival, PlaceFault>
    requires tied { Tied parts.now }
    ensures { (p : Plain) → IsAhead landed.now (plain_of parts.now) p → Lands (land channel.now message.now p) dropped result }
{
    land_by(parts, channel, message, dropped, landed)
}
