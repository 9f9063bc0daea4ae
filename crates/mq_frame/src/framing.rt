//! A frame from the front of some bytes.

ghost use Rattle.std.specs.Prelude.{◌≡◌, ◌≤◌};
ghost use Rattle.byteorder.specs.Endian.{big_bytes};
ghost use Rattle.mq_frame.specs.Frames.{most_body};
ghost use Rattle.mq_frame.specs.Reading.{Same, Gives, fixed_at, message_at, shape_number, bind_at, status_at, msg_at, end_at, ack_at, err_at, kind_at, frame_at};

use crate::fault::{Miss, Stop};
use crate::frame::{Frame, FrameKind};
use crate::reading::{
    byte_at, deadline_at, dest_at, fixed_at, ident_at, md_at, piece_at, positive_at, shape_at,
    u32_at, u64_at,
};
use crate::shape::FrameShape;
use byteorder::{BigEndian, ByteOrder};
use mq_message::{Bytes, Message};
use std::alloc::Global;

/// A message without a route, whose body is so long.
#[tactic(auto, unfolding(crate::specs::Reading::message_at))]
fn message_at(alloc: Global, bytes: &[u8], length: u32) -> Result<(Message, &[u8]), Stop>
    ensures { Gives (λ x. (x.0, x.1.now)) result (message_at length bytes.now) }
{
    let (ident, rest) = ident_at(bytes)?;
    let (md, rest) = md_at(rest)?;
    let (deadline, rest) = deadline_at(rest)?;
    let rest = fixed_at(rest, &[0])?;
    let rest = counted_at(rest, length)?;
    let (body, rest) = piece_at(rest, length as usize)?;
    let body = Bytes::from_slice(alloc, body)?;
    let message = Message {
        ident,
        md,
        route: None,
        deadline,
        body,
    };
    Ok((message, rest))
}

/// The bytes behind a number of four bytes.
fn counted_at(bytes: &[u8], number: u32) -> Result<&[u8], Miss>
    ensures { Same (λ x. (tt, x.now)) result (fixed_at (big_bytes 4 number) bytes.now) }
{
    let mut wanted = [0; 4];
    BigEndian::write_u32(&mut wanted, number);
    fixed_at(bytes, &wanted)
}

#[tactic(auto, unfolding(crate::specs::Reading::bind_at))]
fn bind_at(bytes: &[u8]) -> Result<(FrameKind, &[u8]), Stop>
    ensures { Gives (λ x. (x.0, x.1.now)) result (bind_at bytes.now) }
{
    let (last, rest) = u32_at(bytes)?;
    let (force, rest) = byte_at(rest, 0, 1)?;
    Ok((
        FrameKind::Bind {
            last,
            force: force == 1,
        },
        rest,
    ))
}

#[tactic(auto, unfolding(crate::specs::Reading::status_at))]
fn status_at(bytes: &[u8]) -> Result<(FrameKind, &[u8]), Stop>
    ensures { Gives (λ x. (x.0, x.1.now)) result (status_at bytes.now) }
{
    let (unit_session, rest) = u64_at(bytes)?;
    let (unit_n, rest) = u64_at(rest)?;
    let (last, rest) = u32_at(rest)?;
    Ok((
        FrameKind::Status {
            unit_session,
            unit_n,
            last,
        },
        rest,
    ))
}

#[tactic(auto, unfolding(crate::specs::Reading::end_at))]
fn end_at(bytes: &[u8]) -> Result<(FrameKind, &[u8]), Stop>
    ensures { Gives (λ x. (x.0, x.1.now)) result (end_at bytes.now) }
{
    let (n, rest) = u64_at(bytes)?;
    let (count, rest) = positive_at(rest)?;
    let (last, rest) = u32_at(rest)?;
    Ok((FrameKind::End { n, count, last }, rest))
}

#[tactic(auto, unfolding(crate::specs::Reading::ack_at))]
fn ack_at(bytes: &[u8]) -> Result<(FrameKind, &[u8]), Stop>
    ensures { Gives (λ x. (x.0, x.1.now)) result (ack_at bytes.now) }
{
    let (n, rest) = u64_at(bytes)?;
    Ok((FrameKind::Ack { n }, rest))
}

#[tactic(auto, unfolding(crate::specs::Reading::err_at))]
fn err_at(bytes: &[u8]) -> Result<(FrameKind, &[u8]), Stop>
    ensures { Gives (λ x. (x.0, x.1.now)) result (err_at bytes.now) }
{
    let (n, rest) = u64_at(bytes)?;
    let (reason, rest) = u32_at(rest)?;
    Ok((FrameKind::Err { n, reason }, rest))
}

#[tactic(auto, unfolding(crate::specs::Reading::msg_at))]
fn msg_at(alloc: Global, bytes: &[u8], length: u32) -> Result<(FrameKind, &[u8]), Stop>
    ensures { Gives (λ x. (x.0, x.1.now)) result (msg_at length bytes.now) }
{
    let (n, rest) = u64_at(bytes)?;
    let (index, rest) = positive_at(rest)?;
    let (number, rest) = u32_at(rest)?;
    let (dest, rest) = match dest_at(rest) {
        Ok(found) => found,
        Err(miss) => return Err(Stop::Miss(miss)),
    };
    let (message, rest) = match message_at(alloc, rest, length) {
        Ok(found) => found,
        Err(stop) => return Err(stop),
    };
    Ok((
        FrameKind::Msg {
            n,
            index,
            number,
            dest,
            message,
        },
        rest,
    ))
}

/// The fields of a frame of that shape.
fn kind_at(alloc: Global, bytes: &[u8], shape: FrameShape) -> Result<(FrameKind, &[u8]), Stop>
    ensures { Gives (λ x. (x.0, x.1.now)) result (kind_at shape bytes.now) }
{
    match shape {
        FrameShape::Bind => bind_at(bytes),
        FrameShape::Status => status_at(bytes),
        FrameShape::Msg(length) => msg_at(alloc, bytes, length),
        FrameShape::End => end_at(bytes),
        FrameShape::Ack => ack_at(bytes),
        FrameShape::Err => err_at(bytes),
    }
}

/// The number that a frame of the shape has for its kind.
fn shape_number(shape: FrameShape) -> u8
    ensures { result ≡ shape_number shape }
{
    match shape {
        FrameShape::Bind => 1,
        FrameShape::Status => 2,
        FrameShape::Msg(_) => 3,
        FrameShape::End => 4,
        FrameShape::Ack => 5,
        FrameShape::Err => 6,
    }
}

/// The frame at the front of some bytes, and the bytes behind it.
#[tactic(auto, unfolding(crate::specs::Reading::frame_at))]
pub fn frame_at(alloc: Global, bytes: &[u8]) -> Result<(Frame, &[u8]), Stop>
    ensures { Gives (λ x. (x.0, x.1.now)) result (frame_at bytes.now) }
{
    let (shape, rest) = shape_at(bytes)?;
    let rest = fixed_at(rest, &[shape_number(shape)])?;
    let (stamp, rest) = u64_at(rest)?;
    let (session, rest) = u64_at(rest)?;
    let (kind, rest) = match kind_at(alloc, rest, shape) {
        Ok(found) => found,
        Err(stop) => return Err(stop),
    };
    Ok((
        Frame {
            stamp,
            session,
            kind,
        },
        rest,
    ))
}
