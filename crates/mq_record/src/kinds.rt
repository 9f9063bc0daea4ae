//! Reading a record by its kind.

ghost use Rattle.std.specs.Prelude.{◌≡◌, ◌≤◌};
ghost use Rattle.mq_frame.specs.Reading.{Gives};
ghost use Rattle.mq_record.specs.Reading.{Tells, started_at, objects_at, changes_at, session_at, prepared_at, resolved_at, bound_at, closed_at, received_at, seq_set_at, moved_at, kind_at, record_at};

use crate::fault::BodyFault;
use crate::lists::{adds_at, idents_at, several_adds, several_removes};
use crate::messages::message_at;
use crate::parts::{channel_at, end_at, flag_at, operation_at, text_at, unit_at};
use crate::record::WrittenRecord;
use mq_calls::LogRecord;
use mq_frame::reading::{byte_at, ident_at, name_at, u32_at, u64_at};
use mq_frame::{Miss, Stop};
use mq_message::Bytes;
use std::alloc::Global;

#[tactic(auto, unfolding(crate::specs::Reading::started_at))]
fn started_at(bytes: &[u8]) -> Result<(WrittenRecord, &[u8]), Stop>
    ensures { Gives (λ x. (x.0, x.1.now)) result (started_at bytes.now) }
{
    let (manager, rest) = byte_at(bytes, 0, 255)?;
    let (name, rest) = match name_at(rest) {
        Ok(found) => found,
        Err(miss) => return Err(Stop::Miss(miss)),
    };
    let (incarnation, rest) = u64_at(rest)?;
    let record = LogRecord::Started {
        manager,
        name,
        incarnation,
    };
    Ok((WrittenRecord::Other(record), rest))
}

#[tactic(auto, unfolding(crate::specs::Reading::objects_at))]
fn objects_at(alloc: Global, bytes: &[u8]) -> Result<(WrittenRecord, &[u8]), Stop>
    ensures { Gives (λ x. (x.0, x.1.now)) result (objects_at bytes.now) }
{
    let (operation, rest) = operation_at(bytes)?;
    let (text, rest) = text_at(rest)?;
    let text = Bytes::from_slice(alloc, text)?;
    Ok((WrittenRecord::Objects { operation, text }, rest))
}

#[tactic(auto, unfolding(crate::specs::Reading::changes_at))]
fn changes_at(alloc: Global, bytes: &[u8]) -> Result<(WrittenRecord, &[u8]), Stop>
    ensures { Gives (λ x. (x.0, x.1.now)) result (changes_at bytes.now) }
{
    let (adds, rest) = u32_at(bytes)?;
    let (removes, rest) = u32_at(rest)?;
    let (adds, rest) = match several_adds(alloc, adds, rest) {
        Ok(found) => found,
        Err(stop) => return Err(stop),
    };
    let (removes, rest) = match several_removes(alloc, removes, rest) {
        Ok(found) => found,
        Err(stop) => return Err(stop),
    };
    Ok((
        WrittenRecord::Other(LogRecord::Unit { adds, removes }),
        rest,
    ))
}

#[tactic(auto, unfolding(crate::specs::Reading::session_at))]
fn session_at(bytes: &[u8]) -> Result<(WrittenRecord, &[u8]), Stop>
    ensures { Gives (λ x. (x.0, x.1.now)) result (session_at bytes.now) }
{
    let (channel, rest) = match channel_at(bytes) {
        Ok(found) => found,
        Err(miss) => return Err(Stop::Miss(miss)),
    };
    let (partner, rest) = match name_at(rest) {
        Ok(found) => found,
        Err(miss) => return Err(Stop::Miss(miss)),
    };
    let (session, rest) = u64_at(rest)?;
    let record = LogRecord::Session {
        channel,
        partner,
        session,
    };
    Ok((WrittenRecord::Other(record), rest))
}

#[tactic(auto, unfolding(crate::specs::Reading::prepared_at))]
fn prepared_at(alloc: Global, bytes: &[u8]) -> Result<(WrittenRecord, &[u8]), Stop>
    ensures { Gives (λ x. (x.0, x.1.now)) result (prepared_at bytes.now) }
{
    let (channel, rest) = match channel_at(bytes) {
        Ok(found) => found,
        Err(miss) => return Err(Stop::Miss(miss)),
    };
    let (unit, rest) = unit_at(rest)?;
    let (last, rest) = u32_at(rest)?;
    let (queue, rest) = match name_at(rest) {
        Ok(found) => found,
        Err(miss) => return Err(Stop::Miss(miss)),
    };
    let (idents, rest) = match idents_at(alloc, rest) {
        Ok(found) => found,
        Err(stop) => return Err(stop),
    };
    let record = LogRecord::Prepared {
        channel,
        unit,
        last,
        queue,
        idents,
    };
    Ok((WrittenRecord::Other(record), rest))
}

#[tactic(auto, unfolding(crate::specs::Reading::resolved_at))]
fn resolved_at(bytes: &[u8]) -> Result<(WrittenRecord, &[u8]), Stop>
    ensures { Gives (λ x. (x.0, x.1.now)) result (resolved_at bytes.now) }
{
    let (channel, rest) = match channel_at(bytes) {
        Ok(found) => found,
        Err(miss) => return Err(Stop::Miss(miss)),
    };
    let (unit, rest) = unit_at(rest)?;
    let (commit, rest) = flag_at(rest)?;
    let (operator, rest) = flag_at(rest)?;
    let record = LogRecord::Resolved {
        channel,
        unit,
        commit,
        operator,
    };
    Ok((WrittenRecord::Other(record), rest))
}

#[tactic(auto, unfolding(crate::specs::Reading::bound_at))]
fn bound_at(bytes: &[u8]) -> Result<(WrittenRecord, &[u8]), Stop>
    ensures { Gives (λ x. (x.0, x.1.now)) result (bound_at bytes.now) }
{
    let (channel, rest) = match channel_at(bytes) {
        Ok(found) => found,
        Err(miss) => return Err(Stop::Miss(miss)),
    };
    let (partner, rest) = match name_at(rest) {
        Ok(found) => found,
        Err(miss) => return Err(Stop::Miss(miss)),
    };
    let (session, rest) = u64_at(rest)?;
    let (last, rest) = u32_at(rest)?;
    let record = LogRecord::Bound {
        channel,
        partner,
        session,
        last,
    };
    Ok((WrittenRecord::Other(record), rest))
}

#[tactic(auto, unfolding(crate::specs::Reading::closed_at))]
fn closed_at(bytes: &[u8]) -> Result<(WrittenRecord, &[u8]), Stop>
    ensures { Gives (λ x. (x.0, x.1.now)) result (closed_at bytes.now) }
{
    let (channel, rest) = match channel_at(bytes) {
        Ok(found) => found,
        Err(miss) => return Err(Stop::Miss(miss)),
    };
    let (session, rest) = u64_at(rest)?;
    Ok((
        WrittenRecord::Other(LogRecord::Closed { channel, session }),
        rest,
    ))
}

#[tactic(auto, unfolding(crate::specs::Reading::received_at))]
fn received_at(alloc: Global, bytes: &[u8]) -> Result<(WrittenRecord, &[u8]), Stop>
    ensures { Gives (λ x. (x.0, x.1.now)) result (received_at bytes.now) }
{
    let (channel, rest) = match channel_at(bytes) {
        Ok(found) => found,
        Err(miss) => return Err(Stop::Miss(miss)),
    };
    let (unit, rest) = unit_at(rest)?;
    let (last, rest) = u32_at(rest)?;
    let (adds, rest) = match adds_at(alloc, rest) {
        Ok(found) => found,
        Err(stop) => return Err(stop),
    };
    let record = LogRecord::Received {
        channel,
        unit,
        last,
        adds,
    };
    Ok((WrittenRecord::Other(record), rest))
}

#[tactic(auto, unfolding(crate::specs::Reading::seq_set_at))]
fn seq_set_at(bytes: &[u8]) -> Result<(WrittenRecord, &[u8]), Stop>
    ensures { Gives (λ x. (x.0, x.1.now)) result (seq_set_at bytes.now) }
{
    let (channel, rest) = match channel_at(bytes) {
        Ok(found) => found,
        Err(miss) => return Err(Stop::Miss(miss)),
    };
    let (end, rest) = end_at(rest)?;
    let (last, rest) = u32_at(rest)?;
    Ok((
        WrittenRecord::Other(LogRecord::SeqSet { channel, end, last }),
        rest,
    ))
}

#[tactic(auto, unfolding(crate::specs::Reading::moved_at))]
fn moved_at(alloc: Global, bytes: &[u8]) -> Result<(WrittenRecord, &[u8]), Stop>
    ensures { Gives (λ x. (x.0, x.1.now)) result (moved_at bytes.now) }
{
    let (from, rest) = match name_at(bytes) {
        Ok(found) => found,
        Err(miss) => return Err(Stop::Miss(miss)),
    };
    let (ident, rest) = ident_at(rest)?;
    let (to, rest) = match name_at(rest) {
        Ok(found) => found,
        Err(miss) => return Err(Stop::Miss(miss)),
    };
    let (message, rest) = match message_at(alloc, rest) {
        Ok(found) => found,
        Err(stop) => return Err(stop),
    };
    let record = LogRecord::Moved {
        from,
        ident,
        to,
        message,
    };
    Ok((WrittenRecord::Other(record), rest))
}

/// A record of that kind, behind the kind.
fn kind_at(alloc: Global, kind: u8, bytes: &[u8]) -> Result<(WrittenRecord, &[u8]), Stop>
    ensures { Gives (λ x. (x.0, x.1.now)) result (kind_at kind bytes.now) }
{
    match kind {
        1 => started_at(bytes),
        2 => objects_at(alloc, bytes),
        3 => changes_at(alloc, bytes),
        4 => session_at(bytes),
        5 => prepared_at(alloc, bytes),
        6 => resolved_at(bytes),
        7 => bound_at(bytes),
        8 => closed_at(bytes),
        9 => received_at(alloc, bytes),
        10 => seq_set_at(bytes),
        11 => moved_at(alloc, bytes),
        _ => Err(Stop::Miss(Miss::Wrong(bytes.len()))),
    }
}

/// The record at the front of some bytes, and the bytes behind it.
#[tactic(auto, unfolding(crate::specs::Reading::record_at))]
fn record_at(alloc: Global, bytes: &[u8]) -> Result<(WrittenRecord, &[u8]), Stop>
    ensures { Gives (λ x. (x.0, x.1.now)) result (record_at bytes.now) }
{
    let (kind, rest) = byte_at(bytes, 1, 11)?;
    kind_at(alloc, kind, rest)
}

/// The record that a body of the log is (this project's choice of layout; numbers highest byte first).
///
/// # Errors
///
/// `NoRecord` exactly where the body is no record's: a kind that isn't 1 to 11, fields that end before or
/// behind the body's end, a name that is none, a blank channel, a flag above 1, a message that isn't
/// persistent or whose body is above 4,194,304 bytes. `NoMemory`.
pub fn read_record(alloc: Global, body: &[u8]) -> Result<WrittenRecord, BodyFault>
    ensures { Tells body.now result }
{
    match record_at(alloc, body) {
        Ok((record, rest)) => {
            if rest.is_empty() {
                Ok(record)
            } else {
                Err(BodyFault::NoRecord)
            }
        }
        Err(Stop::NoMemory) => Err(BodyFault::NoMemory),
        Err(Stop::Miss(_)) => Err(BodyFault::NoRecord),
    }
}
