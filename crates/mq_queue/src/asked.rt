//! What is asked of a row: whether it is free, its ids, its place, its priority.
ghost use Rattle.std.specs.Prelude.{◌≡◌, ◌&&◌};
ghost use Rattle.mq_queue.specs.Rows.{is_id, is_wanted, is_after, is_before, is_free, is_persistent, has_priority, is_by_unit};
ghost use Rattle.mq_queue.specs.Queues.{is_at, is_fitting, is_waiting, lane_of};

use crate::row::{Row, lane_at};
use mq_message::{Holder, Message, Place, Want};

/// The lane of a message: by its priority, or the one lane of first in, first out.
pub fn lane_of(by_priority: bool, message: &Message) -> u8
    ensures { result ≡ lane_of by_priority message.now }
{
    if by_priority {
        lane_at(message.md.priority)
    } else {
        0
    }
}

/// Whether no unit and no batch holds it.
pub fn is_free(row: &Row) -> bool
    ensures { result ≡ is_free row.now }
{
    match row.by {
        None => true,
        Some(_) => false,
    }
}

/// Whether a unit holds it.
pub fn is_by_unit(row: &Row) -> bool
    ensures { result ≡ is_by_unit row.now.by }
{
    match row.by {
        None => false,
        Some(Holder::Unit(_)) => true,
        Some(Holder::Batch(_)) => false,
    }
}

fn is_id(wanted: &Option<[u8; 24]>, id: &[u8; 24]) -> bool
    ensures { result ≡ is_id wanted.now id.now }
{
    match wanted {
        None => true,
        Some(wanted) => wanted == id,
    }
}

/// Whether it has the ids that are asked for.
fn is_wanted(want: &Want, row: &Row) -> bool
    ensures { result ≡ is_wanted want.now row.now }
{
    is_id(&want.msg_id, &row.message.md.msg_id) && is_id(&want.correl_id, &row.message.md.correl_id)
}

/// Whether it is free and has the ids that are asked for.
pub fn is_fitting(want: &Want, row: &Row) -> bool
    ensures { result ≡ is_fitting want.now row.now }
{
    is_free(row) && is_wanted(want, row)
}

/// Whether a place stands before another: by lane, and then by arrival.
pub fn is_before(a: Place, b: Place) -> bool
    ensures { result ≡ is_before a b }
{
    a.lane < b.lane || (a.lane == b.lane && a.arrival < b.arrival)
}

/// Whether it stands behind a place, where one is given.
pub fn is_after(after: Option<Place>, row: &Row) -> bool
    ensures { result ≡ is_after after row.now }
{
    match after {
        None => true,
        Some(place) => is_before(place, row.place),
    }
}

/// Whether it stands at a place.
pub fn is_at(place: Place, row: &Row) -> bool
    ensures { result ≡ is_at place row.now }
{
    row.place.lane == place.lane && row.place.arrival == place.arrival
}

/// Whether a message is persistent.
pub fn is_persistent(message: &Message) -> bool
    ensures { result ≡ is_persistent message.now }
{
    message.md.persistence == 1
}

fn has_priority(least: u8, priority: i32) -> bool
    ensures { result ≡ has_priority least priority }
{
    least == 0 || least as i32 <= priority
}

/// Whether it is free and has at least this priority.
pub fn is_waiting(least: u8, row: &Row) -> bool
    ensures { result ≡ is_waiting least row.now }
{
    is_free(row) && has_priority(least, row.message.md.priority)
}
