//! The plan of a receiver's commit: where each message of the batch lands, with those before it on their queues.
ghost use Rattle.std.specs.Prelude.{◌≡◌, ◌∷◌, List, Option, Some};
ghost use Rattle.mq_calls.specs.Words.{Message as PlainMessage, Reason as PlainReason};
ghost use Rattle.std.specs.Prelude.{Result as AnyResult};
ghost use Rattle.mq_spec_manager.specs.Agents.{Landed};
ghost use Rattle.mq_core.specs.Views.{plain_of};
ghost use Rattle.mq_core.specs.Ties.{Tied};
ghost use Rattle.mq_law_manager.specs.Facts.{Sound, AreNamed};
ghost use Rattle.mq_receive.specs.Standings.{has_landed, is_landed, standing_among, standing_as};
ghost use Rattle.mq_core.specs.Writes.{standing_of};
ghost use Rattle.mq_receive.specs.Planned.{Goes, IsPlan, Plans};

use crate::arriving::land;
use crate::idents::{Found, standing};
use mq_base::{ChName, Items, QName};
use mq_calls::{AgentStop, PlaceFault};
use mq_core::{Arrival, Parts};
use mq_disk::Disk;
use mq_message::{Ident, Message};

fn is_landed(arrival: &Arrival, ident: &Ident) -> bool
    ensures { result ≡ is_landed ident.now arrival.now }
{
    *ident == arrival.message.ident
}

/// A message of the ident has landed.
fn has_landed(landed: &[Arrival], ident: &Ident) -> bool
    ensures { result ≡ has_landed ident.now landed.now }
{
    landed.iter().any(|arrival| is_landed(arrival, ident))
}

/// How the ident of a message stands behind those of its batch that have landed.
fn standing_among<D: Disk>(parts: &Parts<D>, message: &Message, landed: &Items<Arrival>) -> Found
    ensures { standing_as result ≡ standing_among landed.now message.now (plain_of parts.now) }
{
    if has_landed(landed.as_slice(), &message.ident) {
        return Found::Present;
    }
    standing(parts, message)
}

/// A message lands behind those of its batch that have landed.
fn land_next<D: Disk>(
    parts: &Parts<D>,
    channel: &ChName,
    message: &Message,
    dropped: Option<QName>,
    landed: &mut Items<Arrival>,
) -> Result<(), PlaceFault>
    requires tied { Tied parts.now }
    requires standing { standing_among landed.old message.now (plain_of parts.now) ≡ standing_of dropped }
    ensures { (whole : AnyResult Landed PlainReason) (rest : List PlainMessage) → IsPlan whole channel.now landed.old (message.now ∷ rest) (plain_of parts.now) → Goes whole channel.now rest (plain_of parts.now) result landed.new }
{
    let arrival = match land(parts, channel, message, dropped, landed.as_slice()) {
        Ok(arrival) => arrival,
        Err(fault) => return Err(fault),
    };
    match landed.push(arrival) {
        Ok(()) => Ok(()),
        Err(_) => Err(PlaceFault::Stop(AgentStop::NoMemory)),
    }
}

/// A message of a batch lands, or is left out.
fn plan_next<D: Disk>(
    parts: &Parts<D>,
    channel: &ChName,
    message: &Message,
    landed: &mut Items<Arrival>,
) -> Result<(), PlaceFault>
    requires tied { Tied parts.now }
    ensures { (whole : AnyResult Landed PlainReason) (rest : List PlainMessage) → IsPlan whole channel.now landed.old (message.now ∷ rest) (plain_of parts.now) → Goes whole channel.now rest (plain_of parts.now) result landed.new }
{
    match standing_among(parts, message, landed) {
        Found::Present => Ok(()),
        Found::Absent => land_next(parts, channel, message, None, landed),
        Found::InDoubt { queue } => land_next(parts, channel, message, Some(queue), landed),
    }
}

/// Where the messages of a batch land, in order. One whose ident stands here otherwise is left out.
///
/// # Errors
///
/// Refused: as the first message that cannot land (`land`). No memory.
pub fn plan<D: Disk>(
    parts: &Parts<D>,
    channel: &ChName,
    batch: &[Message],
) -> Result<Items<Arrival>, PlaceFault>
    requires tied { Tied parts.now }
    requires sound { Sound (plain_of parts.now) }
    requires named { AreNamed (plain_of parts.now).queues }
    ensures { Plans channel.now batch.now (plain_of parts.now) result }
{
    let mut landed = Items::new(parts.alloc);
    for message in batch {
        match plan_next(parts, channel, message, &mut landed) {
            Ok(()) => {}
            Err(fault) => return Err(fault),
        }
    }
    Ok(landed)
}
