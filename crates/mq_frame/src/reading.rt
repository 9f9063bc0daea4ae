//! Numbers, names and structures from the front of some bytes.

ghost use Rattle.std.specs.Prelude.{◌≡◌, ◌≤◌, ◌<◌, ◌^◌, ◌-◌, ◌∷◌, [], length, take, drop, slice_index};
ghost use Rattle.byteorder.specs.Endian.{big_bytes};
ghost use Rattle.mq_message.specs.from_base.Name.{IsName};
ghost use Rattle.mq_frame.specs.Reading.{Same, Gives, byte_at, fixed_at, number_at, positive_at, piece_at, name_front, name_at, dest_at, ident_at, deadline_at, md_at, shape_of, third_most, last_at, shape_at};

use crate::fault::Miss;
use crate::shape::FrameShape;
use byteorder::{BigEndian, ByteOrder};
use mq_message::below::{NameFault, QName};
use mq_message::{Dest, Ident, MD_SIZE, Md, md_of};

/// The longest body of a message, in bytes.
const LONGEST_BODY: u32 = 4_194_304;

/// The length of a MSG with the longest body.
const LONGEST: u32 = 483 + LONGEST_BODY;

/// One byte of a range, and the bytes behind it.
pub fn byte_at(bytes: &[u8], low: u8, high: u8) -> Result<(u8, &[u8]), Miss>
    ensures { Same (λ x. (x.0, x.1.now)) result (byte_at low high bytes.now) }
{
    match bytes {
        [] => Err(Miss::Short),
        [byte, rest @ ..] => {
            if low <= *byte && *byte <= high {
                Ok((*byte, rest))
            } else {
                Err(Miss::Wrong(bytes.len()))
            }
        }
    }
}

/// The bytes behind those that are wanted.
pub fn fixed_at<'a>(bytes: &'a [u8], wanted: &[u8]) -> Result<&'a [u8], Miss>
    ensures { Same (λ x. (tt, x.now)) result (fixed_at wanted.now bytes.now) }
{
    let mut rest = bytes;
    for byte in wanted {
        let (_, after) = byte_at(rest, *byte, *byte)?;
        rest = after;
    }
    Ok(rest)
}

/// A number of four bytes.
pub fn u32_at(bytes: &[u8]) -> Result<(u32, &[u8]), Miss>
    ensures { Same (λ x. (x.0, x.1.now)) result (number_at 4 bytes.now) }
{
    if bytes.len() < 4 {
        return Err(Miss::Short);
    }
    let (_, rest) = bytes.split_at(4);
    Ok((BigEndian::read_u32(bytes), rest))
}

/// A number of eight bytes.
pub fn u64_at(bytes: &[u8]) -> Result<(u64, &[u8]), Miss>
    ensures { Same (λ x. (x.0, x.1.now)) result (number_at 8 bytes.now) }
{
    if bytes.len() < 8 {
        return Err(Miss::Short);
    }
    let (_, rest) = bytes.split_at(8);
    Ok((BigEndian::read_u64(bytes), rest))
}

/// A number of four bytes above 0.
#[tactic(auto, unfolding(crate::specs::Reading::positive_at))]
pub fn positive_at(bytes: &[u8]) -> Result<(u32, &[u8]), Miss>
    ensures { Same (λ x. (x.0, x.1.now)) result (positive_at bytes.now) }
{
    let (number, rest) = u32_at(bytes)?;
    if number == 0 {
        return Err(Miss::Wrong(bytes.len() - 3));
    }
    Ok((number, rest))
}

/// So many bytes.
pub fn piece_at(bytes: &[u8], width: usize) -> Result<(&[u8], &[u8]), Miss>
    ensures { Same (λ x. (x.0.now, x.1.now)) result (piece_at width bytes.now) }
{
    if bytes.len() < width {
        return Err(Miss::Short);
    }
    Ok(bytes.split_at(width))
}

/// How many bytes at the front stand in a name that fits its field.
fn name_len(bytes: &[u8]) -> usize
    ensures length { result ≡ length (name_front 48 bytes.now) }
    ensures within { result ≤ length bytes.now }
    ensures name { IsName 48 (take result bytes.now) }
    ensures front { take result bytes.now ≡ name_front 48 bytes.now }
{
    let (field, _) = bytes.split_at(bytes.len().min(48));
    match QName::of(field) {
        Ok(_) => field.len(),
        Err(NameFault::BadByte(place)) => place,
        Err(_) => 0,
    }
}

/// The name that a text of name bytes is; no byte is the blank name.
fn name_of_text(text: &[u8]) -> QName
    requires { IsName 48 text.now }
    ensures { result ≡ text.now }
{
    match QName::of(text) {
        Ok(name) => name,
        Err(_) => QName::blank(),
    }
}

/// A name or the blank name, in a field of 48 bytes.
#[tactic(auto, unfolding(crate::specs::Reading::name_at))]
pub fn name_at(bytes: &[u8]) -> Result<(QName, &[u8]), Miss>
    ensures { Same (λ x. (x.0, x.1.now)) result (name_at bytes.now) }
{
    let len = name_len(bytes);
    let (text, rest) = bytes.split_at(len);
    let (blanks, _) = [b' '; 48].split_at(48 - len);
    let rest = fixed_at(rest, blanks)?;
    Ok((name_of_text(text), rest))
}

/// A queue and its queue manager.
#[tactic(auto, unfolding(crate::specs::Reading::dest_at))]
pub fn dest_at(bytes: &[u8]) -> Result<(Dest, &[u8]), Miss>
    ensures { Same (λ x. (x.0, x.1.now)) result (dest_at bytes.now) }
{
    let (queue, rest) = match name_at(bytes) {
        Ok(found) => found,
        Err(miss) => return Err(miss),
    };
    match name_at(rest) {
        Ok((qmgr, rest)) => Ok((Dest { queue, qmgr }, rest)),
        Err(miss) => Err(miss),
    }
}

/// What a message is known by.
#[tactic(auto, unfolding(crate::specs::Reading::ident_at))]
pub fn ident_at(bytes: &[u8]) -> Result<(Ident, &[u8]), Miss>
    ensures { Same (λ x. (x.0, x.1.now)) result (ident_at bytes.now) }
{
    let (manager, rest) = byte_at(bytes, 0, 255)?;
    let (incarnation, rest) = u64_at(rest)?;
    let (number, rest) = u64_at(rest)?;
    Ok((
        Ident {
            manager,
            incarnation,
            number,
        },
        rest,
    ))
}

/// A deadline; all ones stand for none.
#[tactic(auto, unfolding(crate::specs::Reading::deadline_at))]
pub fn deadline_at(bytes: &[u8]) -> Result<(Option<u64>, &[u8]), Miss>
    ensures { Same (λ x. (x.0, x.1.now)) result (deadline_at bytes.now) }
{
    let (number, rest) = u64_at(bytes)?;
    if number == u64::MAX {
        return Ok((None, rest));
    }
    Ok((Some(number), rest))
}

/// A message descriptor.
#[tactic(auto, unfolding(crate::specs::Reading::md_at))]
pub fn md_at(bytes: &[u8]) -> Result<(Md, &[u8]), Miss>
    ensures { Same (λ x. (x.0, x.1.now)) result (md_at bytes.now) }
{
    let fields = fixed_at(bytes, b"MD  \0\0\0\x01")?;
    let (_, rest) = piece_at(fields, MD_SIZE - 8)?;
    match md_of(bytes) {
        Ok(md) => Ok((md, rest)),
        Err(_) => unreachable!(),
    }
}

/// A frame's length, by what it says of the frame.
#[tactic(auto, unfolding(crate::specs::Reading::shape_at))]
pub fn shape_at(bytes: &[u8]) -> Result<(FrameShape, &[u8]), Miss>
    ensures { Same (λ x. (x.0, x.1.now)) result (shape_at bytes.now) }
{
    let (first, rest) = byte_at(bytes, 0, 0)?;
    let (second, rest) = byte_at(rest, 0, 64)?;
    let (third, rest) = byte_at(rest, 0, third_most(second))?;
    last_at([first, second, third], rest)
}

/// The highest third byte of a length behind a second one.
fn third_most(second: u8) -> u8
    ensures { result ≡ third_most second }
{
    if second == 64 { 1 } else { 255 }
}

/// The last byte of a length, behind the first three.
fn last_at(front: [u8; 3], bytes: &[u8]) -> Result<(FrameShape, &[u8]), Miss>
    ensures { Same (λ x. (x.0, x.1.now)) result (last_at (slice_index front 0) (slice_index front 1) (slice_index front 2) bytes.now) }
{
    match bytes {
        [] => Err(Miss::Short),
        [last, rest @ ..] => {
            let length = BigEndian::read_u32(&[front[0], front[1], front[2], *last]);
            match shape_of(length) {
                Some(shape) => Ok((shape, rest)),
                None => Err(Miss::Wrong(bytes.len())),
            }
        }
    }
}

/// What a length says of its frame.
fn shape_of(length: u32) -> Option<FrameShape>
    ensures { result ≡ shape_of length }
{
    match length {
        22 => Some(FrameShape::Bind),
        37 => Some(FrameShape::Status),
        33 => Some(FrameShape::End),
        25 => Some(FrameShape::Ack),
        29 => Some(FrameShape::Err),
        483..=LONGEST => Some(FrameShape::Msg(length - 483)),
        _ => None,
    }
}
