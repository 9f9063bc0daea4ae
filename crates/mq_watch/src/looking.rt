//! Whether a monitor's get would find a message that fits, seen without a change.
ghost use Rattle.std.specs.Prelude.{◌≡◌, find, length, option_copied};
ghost use Rattle.mq_heads.specs.Headers.{xqh_bytes};
ghost use Rattle.mq_spec_manager.specs.Heads.{xqh_of};
ghost use Rattle.mq_spec_manager.specs.Words.{length_of};
ghost use Rattle.mq_core.specs.Views.{plain_of};
ghost use Rattle.mq_watch.specs.Looks.{fits, handle_fits, is_fresh, queue_fits, row_fits, seat_fits};

use mq_base::QName;
use mq_calls::{Handle, Hconn, Hobj};
use mq_core::{Core, Parts};
use mq_disk::Disk;
use mq_fill::queue_at;
use mq_handles::Seat;
use mq_heads::{Xqh, xqh_to_bytes};
use mq_message::{Dest, Md, Message};
use mq_place::{LocalRows, is_past};
use mq_queue::{Queue, Row};

/// The room of a monitor's get, in bytes.
pub(crate) const ROOM: u64 = 4_194_304;

/// Whether a row is free and hasn't expired.
fn is_fresh(moment: u64, row: &Row) -> bool
    ensures { result ≡ is_fresh moment row.now }
{
    match row.by {
        None => !is_past(moment, row.message.deadline),
        Some(_) => false,
    }
}

/// The first free row that hasn't expired.
fn first_fresh<'a, Q: Queue + Drop>(local: &'a LocalRows<Q>, moment: u64) -> Option<&'a Row>
    ensures { option_copied result ≡ find (is_fresh moment) local.now.queue.rows }
{
    let mut after = None;
    for seen in 0..local.len() {
        let Some(row) = local.next_row(after) else {
            return None;
        };
        if is_fresh(moment, row) {
            return Some(row);
        }
        after = Some(row.place);
    }
    None
}

fn header_of(dest: &Dest, md: &Md) -> Xqh
    ensures { result ≡ xqh_of dest.now md.now }
{
    Xqh {
        remote_q_name: *dest.queue.bytes(),
        remote_q_mgr_name: *dest.qmgr.bytes(),
        msg_desc: *md,
    }
}

/// The length of a message's header on a transmission queue, in bytes.
fn header_length(dest: &Dest, md: &Md) -> u64
    ensures value { result ≡ length (xqh_bytes (xqh_of dest.now md.now)) }
    ensures whole { result ≡ 428 }
{
    let header = xqh_to_bytes(&header_of(dest, md));
    header.len() as u64
}

/// How long a message is as it is read, in bytes.
fn length_of(message: &Message) -> u64
    ensures { result ≡ length_of message.now }
{
    let length = message.body.as_slice().len() as u64;
    match &message.route {
        None => length,
        Some(dest) => header_length(dest, &message.md) + length,
    }
}

/// Whether a row is there, and its message fits the monitor's room.
fn row_fits(row: Option<&Row>) -> bool
    ensures { result ≡ row_fits (option_copied row.entry) }
{
    match row {
        None => false,
        Some(row) => length_of(&row.message) <= ROOM,
    }
}

/// Whether the first row of a queue that the get would find is there, and fits.
#[tactic(auto, using(mq_core::proofs::PlaceLaws::queue_in_state, mq_core::proofs::ReadLaws::queue_none))]
fn queue_fits<D: Disk>(parts: &Parts<D>, queue: &QName) -> bool
    ensures { result ≡ queue_fits queue.now (plain_of parts.now) }
{
    match parts.queues.local(queue) {
        None => false,
        Some(local) => row_fits(first_fresh(local, parts.moment)),
    }
}

/// The first row of a handle's queue that the get would find fits.
fn handle_fits<D: Disk>(parts: &Parts<D>, handle: &Handle) -> bool
    ensures { result ≡ handle_fits (plain_of parts.now) handle.now }
{
    queue_fits(parts, &queue_at(&handle.leads))
}

fn seat_fits<D: Disk>(parts: &Parts<D>, seat: &Seat, ho: &Hobj) -> bool
    ensures { result ≡ seat_fits ho.now (plain_of parts.now) seat.now }
{
    match seat.handle(ho.number) {
        None => false,
        Some(handle) => handle_fits(parts, handle),
    }
}

/// Whether the get of this handle would find a message that fits, where no refusal applies. It walks over the rows of the queue before
/// that message, and takes no memory.
pub fn fits<D: Disk>(core: &Core<D>, hc: &Hconn, ho: &Hobj) -> bool
    ensures { result ≡ fits hc.now ho.now core.now.plain }
{
    match core.parts.connected(hc) {
        Err(_) => false,
        Ok(seat) => seat_fits(&core.parts, seat, ho),
    }
}
