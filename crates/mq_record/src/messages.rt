//! Reading messages from the front of some bytes.

ghost use Rattle.std.specs.Prelude.{◌≡◌};
ghost use Rattle.mq_frame.specs.Reading.{Same, Gives};
ghost use Rattle.mq_record.specs.Reading.{persistent, kept_md_at, routed_if, route_at, body_at, message_at, add_at, remove_at};

use mq_calls::{Add, Remove};
use mq_frame::reading::{
    byte_at, deadline_at, dest_at, ident_at, md_at, name_at, piece_at, u32_at,
};
use mq_frame::{Miss, Stop};
use mq_message::{Bytes, Dest, Md, Message};
use std::alloc::Global;

/// The longest body of a message, in bytes.
const LONGEST_BODY: u32 = 4_194_304;

/// The descriptor of a persistent message.
#[tactic(auto, unfolding(crate::specs::Reading::kept_md_at))]
fn kept_md_at(bytes: &[u8]) -> Result<(Md, &[u8]), Miss>
    ensures { Same (λ x. (x.0, x.1.now)) result (kept_md_at bytes.now) }
{
    let (md, rest) = md_at(bytes)?;
    if md.persistence != 1 {
        return Err(Miss::Wrong(rest.len()));
    }
    Ok((md, rest))
}

/// A flag, and where the message goes behind a 1.
#[tactic(auto, unfolding(crate::specs::Reading::route_at))]
fn route_at(bytes: &[u8]) -> Result<(Option<Dest>, &[u8]), Miss>
    ensures { Same (λ x. (x.0, x.1.now)) result (route_at bytes.now) }
{
    let (number, rest) = byte_at(bytes, 0, 1)?;
    if number == 0 {
        return Ok((None, rest));
    }
    let (dest, rest) = match dest_at(rest) {
        Ok(found) => found,
        Err(miss) => return Err(miss),
    };
    Ok((Some(dest), rest))
}

/// A body behind its length.
#[tactic(auto, unfolding(crate::specs::Reading::body_at))]
fn body_at(bytes: &[u8]) -> Result<(&[u8], &[u8]), Miss>
    ensures { Same (λ x. (x.0.now, x.1.now)) result (body_at bytes.now) }
{
    let (long, rest) = u32_at(bytes)?;
    if long > LONGEST_BODY {
        return Err(Miss::Wrong(rest.len()));
    }
    piece_at(rest, long as usize)
}

/// A persistent message.
#[tactic(auto, unfolding(crate::specs::Reading::message_at))]
pub fn message_at(alloc: Global, bytes: &[u8]) -> Result<(Message, &[u8]), Stop>
    ensures { Gives (λ x. (x.0, x.1.now)) result (message_at bytes.now) }
{
    let (ident, rest) = ident_at(bytes)?;
    let (md, rest) = kept_md_at(rest)?;
    let (deadline, rest) = deadline_at(rest)?;
    let (route, rest) = match route_at(rest) {
        Ok(found) => found,
        Err(miss) => return Err(Stop::Miss(miss)),
    };
    let (body, rest) = body_at(rest)?;
    let body = Bytes::from_slice(alloc, body)?;
    let message = Message {
        ident,
        md,
        route,
        deadline,
        body,
    };
    Ok((message, rest))
}

/// A message and the queue on which it is put.
#[tactic(auto, unfolding(crate::specs::Reading::add_at))]
pub fn add_at(alloc: Global, bytes: &[u8]) -> Result<(Add, &[u8]), Stop>
    ensures { Gives (λ x. (x.0, x.1.now)) result (add_at bytes.now) }
{
    let (queue, rest) = match name_at(bytes) {
        Ok(found) => found,
        Err(miss) => return Err(Stop::Miss(miss)),
    };
    let (message, rest) = match message_at(alloc, rest) {
        Ok(found) => found,
        Err(stop) => return Err(stop),
    };
    Ok((Add { queue, message }, rest))
}

/// A row that goes, by its queue and its ident.
#[tactic(auto, unfolding(crate::specs::Reading::remove_at))]
pub fn remove_at(bytes: &[u8]) -> Result<(Remove, &[u8]), Miss>
    ensures { Same (λ x. (x.0, x.1.now)) result (remove_at bytes.now) }
{
    let (queue, rest) = match name_at(bytes) {
        Ok(found) => found,
        Err(miss) => return Err(miss),
    };
    let (ident, rest) = ident_at(rest)?;
    Ok((Remove { queue, ident }, rest))
}
