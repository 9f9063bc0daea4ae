//! Frames as bytes.

ghost use Rattle.std.specs.Prelude.{◌≡◌, ◌++◌, ◌∷◌, [], OnOk, IfOk, IfSome, length};
ghost use Rattle.byteorder.specs.Endian.{big_bytes};
ghost use Rattle.mq_frame.specs.Frames.{ident_bytes, deadline_bytes, dest_bytes, route_bytes, message_bytes, flag, kind_number, fields_bytes, content_bytes, frame_bytes, IsIdent, IsDest, IsMessage, IsKind, IsFrame, HasSpelling, HasWords};
ghost use Rattle.mq_frame.specs.declared.frame.Seen.TheVariants as seen;
ghost use Rattle.mq_frame.specs.Sight.{Shows};

use crate::frame::{Frame, FrameKind};
use byteorder::{BigEndian, ByteOrder};
use mq_message::below::NoMemory;
use mq_message::{Bytes, Dest, Ident, Message, md_to_bytes};
use std::alloc::{AllocError, Global};

fn push_u32(out: &mut Bytes, number: u32) -> Result<(), AllocError>
    ensures { OnOk result (out.new ≡ out.old ++ big_bytes 4 number) }
{
    let mut bytes = [0; 4];
    BigEndian::write_u32(&mut bytes, number);
    out.extend_from_slice(&bytes)
}

fn push_u64(out: &mut Bytes, number: u64) -> Result<(), AllocError>
    ensures { OnOk result (out.new ≡ out.old ++ big_bytes 8 number) }
{
    let mut bytes = [0; 8];
    BigEndian::write_u64(&mut bytes, number);
    out.extend_from_slice(&bytes)
}

/// The lowest four bytes of a length.
fn push_length(out: &mut Bytes, number: usize) -> Result<(), AllocError>
    ensures { OnOk result (out.new ≡ out.old ++ big_bytes 4 number) }
{
    let mut bytes = [0; 8];
    BigEndian::write_u64(&mut bytes, number as u64);
    let (_, low) = bytes.split_at(4);
    out.extend_from_slice(low)
}

fn push_ident(out: &mut Bytes, ident: &Ident) -> Result<(), AllocError>
    ensures bytes { OnOk result (out.new ≡ out.old ++ ident_bytes ident.now) }
    ensures ident { OnOk result (IsIdent ident.now) }
{
    out.push(ident.manager)?;
    push_u64(out, ident.incarnation)?;
    push_u64(out, ident.number)
}

fn push_dest(out: &mut Bytes, dest: &Dest) -> Result<(), AllocError>
    ensures bytes { OnOk result (out.new ≡ out.old ++ dest_bytes dest.now) }
    ensures dest { OnOk result (IsDest dest.now) }
{
    out.extend_from_slice(dest.queue.bytes())?;
    out.extend_from_slice(dest.qmgr.bytes())
}

#[tactic(auto, unfolding(crate::specs::Frames::deadline_bytes))]
fn push_deadline(out: &mut Bytes, deadline: Option<u64>) -> Result<(), AllocError>
    ensures { OnOk result (out.new ≡ out.old ++ deadline_bytes deadline) }
{
    match deadline {
        None => push_u64(out, u64::MAX),
        Some(moment) => push_u64(out, moment),
    }
}

fn push_route(out: &mut Bytes, route: &Option<Dest>) -> Result<(), AllocError>
    ensures bytes { OnOk result (out.new ≡ out.old ++ route_bytes route.now) }
    ensures dest { OnOk result (IfSome route.now IsDest) }
{
    match route {
        None => out.push(0),
        Some(dest) => {
            out.push(1)?;
            push_dest(out, dest)
        }
    }
}

/// Adds the bytes of a message at the end, as a frame or a log record has them.
///
/// # Errors
///
/// No memory: a part of them may have been added.
pub fn push_message(out: &mut Bytes, message: &Message) -> Result<(), AllocError>
    ensures bytes { OnOk result (out.new ≡ out.old ++ message_bytes message.now) }
    // its fields have their ranges
    ensures message { OnOk result (HasWords message.now → IsMessage message.now) }
{
    push_ident(out, &message.ident)?;
    out.extend_from_slice(&md_to_bytes(&message.md))?;
    push_deadline(out, message.deadline)?;
    push_route(out, &message.route)?;
    push_length(out, message.body.len())?;
    out.extend_from_slice(message.body.as_slice())
}

fn kind_number(kind: &FrameKind) -> u8
    ensures { result ≡ kind_number kind.now }
{
    match kind {
        FrameKind::Bind { .. } => 1,
        FrameKind::Status { .. } => 2,
        FrameKind::Msg { .. } => 3,
        FrameKind::End { .. } => 4,
        FrameKind::Ack { .. } => 5,
        FrameKind::Err { .. } => 6,
    }
}

fn flag(set: bool) -> u8
    ensures { result ≡ flag set }
{
    if set { 1 } else { 0 }
}

fn push_fields(out: &mut Bytes, kind: &FrameKind) -> Result<(), AllocError>
    ensures bytes { OnOk result (out.new ≡ out.old ++ fields_bytes kind.now) }
    ensures kind { OnOk result (HasSpelling kind.now → IsKind kind.now) }
{
    match kind {
        FrameKind::Bind { last, force } => {
            push_u32(out, *last)?;
            out.push(flag(*force))
        }
        FrameKind::Status {
            unit_session,
            unit_n,
            last,
        } => {
            push_u64(out, *unit_session)?;
            push_u64(out, *unit_n)?;
            push_u32(out, *last)
        }
        FrameKind::Msg {
            n,
            index,
            number,
            dest,
            message,
        } => {
            push_u64(out, *n)?;
            push_u32(out, *index)?;
            push_u32(out, *number)?;
            push_dest(out, dest)?;
            push_message(out, message)
        }
        FrameKind::End { n, count, last } => {
            push_u64(out, *n)?;
            push_u32(out, *count)?;
            push_u32(out, *last)
        }
        FrameKind::Ack { n } => push_u64(out, *n),
        FrameKind::Err { n, reason } => {
            push_u64(out, *n)?;
            push_u32(out, *reason)
        }
    }
}

fn content(alloc: Global, frame: &Frame) -> Result<Bytes, AllocError>
    ensures bytes { IfOk result (λ out. out ≡ content_bytes frame.now) }
    ensures frame { IfOk result (λ _. HasSpelling frame.now.kind → IsFrame frame.now) }
{
    let mut out = Bytes::new(alloc);
    out.push(kind_number(&frame.kind))?;
    push_u64(&mut out, frame.stamp)?;
    push_u64(&mut out, frame.session)?;
    push_fields(&mut out, &frame.kind)?;
    Ok(out)
}

/// The bytes of a frame: the length of what follows in four bytes, the kind, the stamp, the session, and the
/// kind's fields, each number highest byte first (this project's choice).
///
/// # Errors
///
/// No memory.
pub fn encode(alloc: Global, frame: &Frame) -> Result<Bytes, NoMemory>
    ensures bytes { IfOk result (λ out. out ≡ frame_bytes frame.now) }
    // what the types don't say of a frame is all that keeps its bytes from showing it again
    ensures frame { IfOk result (λ out. HasSpelling frame.now.kind → Shows out (seen.Frame frame.now)) }
{
    let content = content(alloc, frame)?;
    let mut out = Bytes::new(alloc);
    push_length(&mut out, content.len())?;
    out.extend_from_slice(content.as_slice())?;
    Ok(out)
}
