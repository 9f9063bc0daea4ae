//! Reading the fields of records from the front of some bytes.

ghost use Rattle.std.specs.Prelude.{◌≡◌, ◌==◌, position};
ghost use Rattle.mq_frame.specs.Reading.{Same};
ghost use Rattle.mq_record.specs.Reading.{word_of, channel_in, channel_at, unit_at, flag_at, operation_at, end_at, text_at};

use crate::record::Operation;
use mq_base::ChName;
use mq_calls::below::{End, Unit};
use mq_frame::Miss;
use mq_frame::reading::{byte_at, piece_at, u32_at, u64_at};

/// The place of the first blank.
fn first_blank(field: &[u8]) -> Option<usize>
    ensures { result ≡ position (λ byte. byte == 32) field.now }
{
    field.iter().position(|byte| *byte == b' ')
}

/// The bytes in front of the first blank.
fn word_of(field: &[u8]) -> &[u8]
    ensures { result.now ≡ word_of field.now }
{
    match first_blank(field) {
        Some(place) => {
            let (word, _) = field.split_at(place);
            word
        }
        None => field,
    }
}

/// A channel's name in a field of 20 bytes, padded with blanks.
#[tactic(auto, unfolding(crate::specs::Reading::channel_at))]
pub fn channel_at(bytes: &[u8]) -> Result<(ChName, &[u8]), Miss>
    ensures { Same (λ x. (x.0, x.1.now)) result (channel_at bytes.now) }
{
    let (field, rest) = piece_at(bytes, 20)?;
    match ChName::of(word_of(field)) {
        Ok(name) => {
            if name.bytes().as_slice() == field {
                Ok((name, rest))
            } else {
                Err(Miss::Wrong(rest.len()))
            }
        }
        Err(_) => Err(Miss::Wrong(rest.len())),
    }
}

/// A unit of a channel.
#[tactic(auto, unfolding(crate::specs::Reading::unit_at))]
pub fn unit_at(bytes: &[u8]) -> Result<(Unit, &[u8]), Miss>
    ensures { Same (λ x. (x.0, x.1.now)) result (unit_at bytes.now) }
{
    let (session, rest) = u64_at(bytes)?;
    let (n, rest) = u64_at(rest)?;
    Ok((Unit { session, n }, rest))
}

/// A flag: 0 or 1.
#[tactic(auto, unfolding(crate::specs::Reading::flag_at))]
pub fn flag_at(bytes: &[u8]) -> Result<(bool, &[u8]), Miss>
    ensures { Same (λ x. (x.0, x.1.now)) result (flag_at bytes.now) }
{
    let (number, rest) = byte_at(bytes, 0, 1)?;
    Ok((number == 1, rest))
}

/// What is done to objects: 1 for a set, 2 for a delete.
#[tactic(auto, unfolding(crate::specs::Reading::operation_at))]
pub fn operation_at(bytes: &[u8]) -> Result<(Operation, &[u8]), Miss>
    ensures { Same (λ x. (x.0, x.1.now)) result (operation_at bytes.now) }
{
    let (number, rest) = byte_at(bytes, 1, 2)?;
    let operation = if number == 1 {
        Operation::Set
    } else {
        Operation::Delete
    };
    Ok((operation, rest))
}

/// An end of a channel: 1 for the sender, 2 for the receiver.
#[tactic(auto, unfolding(crate::specs::Reading::end_at))]
pub fn end_at(bytes: &[u8]) -> Result<(End, &[u8]), Miss>
    ensures { Same (λ x. (x.0, x.1.now)) result (end_at bytes.now) }
{
    let (number, rest) = byte_at(bytes, 1, 2)?;
    let end = if number == 1 {
        End::Sender
    } else {
        End::Receiver
    };
    Ok((end, rest))
}

/// A text behind its length.
#[tactic(auto, unfolding(crate::specs::Reading::text_at))]
pub fn text_at(bytes: &[u8]) -> Result<(&[u8], &[u8]), Miss>
    ensures { Same (λ x. (x.0.now, x.1.now)) result (text_at bytes.now) }
{
    let (long, rest) = u32_at(bytes)?;
    piece_at(rest, long as usize)
}
