//! The refusals of MQGET in their order.
ghost use Rattle.std.specs.Prelude.{◌≡◌, ℕ, ◌+◌, ◌<◌, ◌≤◌, ◌^◌, List, Option, length, option_copied, true};
ghost use Rattle.std.specs.List.{list_any};
ghost use Rattle.mq_queue.specs.declared.row.Row.{Row};
ghost use Rattle.mq_calls.specs.Words.{is_full, is_up, refusal};
ghost use Rattle.mq_spec_manager.specs.Words.{is_get_disabled, mqget, expired_need, taking_need, found_need, scan_need, get_tests};
ghost use Rattle.mq_spec_manager.specs.Get.{is_disabled_at};
ghost use Rattle.mq_core.specs.Views.{plain_of};
ghost use Rattle.mq_core.specs.Ties.{Tied};
ghost use Rattle.mq_get.specs.Gets.{Gets, Looks, aim_of, look};

use crate::reading::is_left;
use crate::survey::survey;
use crate::takes::{is_destructive, needs_browse};
use mq_base::QName;
use mq_calls::{Get, Handle, Hconn, Hobj};
use mq_codes::Reason;
use mq_core::below::Seat;
use mq_core::{Parts, is_input, is_sync_full};
use mq_disk::Disk;
use mq_fill::queue_at;
use mq_message::Place;
use mq_objects::{Defs, Object};
use mq_queue::{Row, is_persistent};
use mq_resolve::PathStep;

/// Where a get looks.
#[derive(Clone, Copy)]
pub struct Aim {
    pub queue: QName,
    /// The number of its handle, and the handle's cursor.
    pub handle: u64,
    pub cursor: Option<Place>,
}

fn aim_of(handle: &Handle) -> Aim
    ensures { result ≡ aim_of handle.now }
{
    Aim {
        queue: queue_at(&handle.leads),
        handle: handle.number,
        cursor: handle.cursor,
    }
}

fn is_get_disabled(object: Option<&Object>) -> bool
    ensures { result ≡ is_get_disabled (option_copied object.entry) }
{
    match object {
        Some(Object::Local(queue)) => !queue.get_enabled,
        Some(Object::Alias(queue)) => !queue.get_enabled,
        Some(Object::Remote(_)) => false,
        Some(Object::Channel(_)) => false,
        Some(Object::Process(_)) => false,
        None => false,
    }
}

fn is_disabled_at(defs: &Defs, step: &PathStep) -> bool
    ensures { result ≡ is_disabled_at defs.now.definitions step.now }
{
    match step {
        PathStep::Queue(name) => is_get_disabled(defs.queue(name)),
        PathStep::DefXmitq => false,
    }
}

/// Whether a definition on the path has GET(DISABLED).
fn is_inhibited(defs: &Defs, path: &[PathStep]) -> bool
    ensures { result ≡ list_any (is_disabled_at defs.now.definitions) path.now }
{
    path.iter().any(|step| is_disabled_at(defs, step))
}

/// What so many expired rows that last need of the log.
fn expired_need(lasting: u64) -> u64
    requires { lasting < 100000000 }
    ensures value { (rows : List Row) → length rows ≡ lasting → result ≡ expired_need rows }
    ensures small { result < 2 ^ 33 }
{
    if lasting == 0 { 0 } else { 14 + 65 * lasting }
}

/// What a row that is taken needs of the log.
fn taking_need(sync: bool, seat: &Seat) -> u64
    ensures value { result ≡ taking_need sync seat.now }
    ensures small { result ≤ 79 }
{
    if sync { seat.unit().more_need(65) } else { 79 }
}

/// What a row that is found needs of the log.
fn found_need(get: &Get, seat: &Seat, row: Option<&Row>) -> u64
    ensures value { result ≡ found_need get.now seat.now (option_copied row.entry) }
    ensures small { result ≤ 79 }
{
    match row {
        None => 0,
        Some(row) => {
            if is_destructive(&get.take)
                && is_persistent(&row.message)
                && !is_left(get, &row.message)
            {
                taking_need(get.sync, seat)
            } else {
                0
            }
        }
    }
}

/// The log lacks room for what the scan of a get finds.
fn is_log_full<D: Disk>(parts: &Parts<D>, seat: &Seat, aim: &Aim, get: &Get) -> bool
    requires tied { Tied parts.now }
    requires up { is_up (plain_of parts.now).running ≡ true }
    ensures { result ≡ is_full (scan_need get.now seat.now (look get.now aim.now (plain_of parts.now))) (plain_of parts.now) }
{
    let Some(local) = parts.queues.local(&aim.queue) else {
        return false;
    };
    let mut lasting = 0;
    let row = survey(local, get, aim.cursor, parts.moment, &mut lasting);
    if lasting >= 100_000_000 {
        return true;
    }
    parts.is_full(expired_need(lasting) + found_need(get, seat, row))
}

/// The refusals of a handle.
fn refused_by_handle<D: Disk>(
    parts: &Parts<D>,
    seat: &Seat,
    handle: &Handle,
    get: &Get,
) -> Option<Reason>
    ensures { result ≡ refusal (get_tests get.now (plain_of parts.now) seat.now handle.now) }
{
    if handle.stale {
        return Some(Reason::ObjectChanged);
    }
    if is_destructive(&get.take) && !is_input(&handle.how.input) {
        return Some(Reason::NotOpenForInput);
    }
    if needs_browse(&get.take) && !handle.how.browse {
        return Some(Reason::NotOpenForBrowse);
    }
    if is_inhibited(&parts.defs, handle.path.as_slice()) {
        return Some(Reason::GetInhibited);
    }
    if is_destructive(&get.take) && is_sync_full(parts, get.sync, seat) {
        return Some(Reason::SyncpointLimitReached);
    }
    None
}

/// The refusals behind a handle; else where the get looks.
fn can_look<D: Disk>(
    parts: &Parts<D>,
    seat: &Seat,
    handle: &Handle,
    get: &Get,
) -> Result<Aim, Reason>
    requires tied { Tied parts.now }
    requires up { is_up (plain_of parts.now).running ≡ true }
    ensures { (until : Option ℕ) → Looks get.now until (plain_of parts.now) seat.now handle.now result }
{
    match refused_by_handle(parts, seat, handle, get) {
        None => {}
        Some(reason) => return Err(reason),
    }
    let aim = aim_of(handle);
    if is_log_full(parts, seat, &aim, get) {
        return Err(Reason::ResourceProblem);
    }
    Ok(aim)
}

/// The refusals of MQGET.
pub(crate) fn can_get<D: Disk>(
    parts: &Parts<D>,
    hc: &Hconn,
    ho: &Hobj,
    get: &Get,
) -> Result<Aim, Reason>
    requires tied { Tied parts.now }
    ensures { (until : Option ℕ) → Gets (mqget hc.now ho.now get.now until (plain_of parts.now)) hc.now.number get.now until (plain_of parts.now) result }
{
    let seat = match parts.connected(hc) {
        Ok(seat) => seat,
        Err(reason) => return Err(reason),
    };
    let Some(handle) = seat.handle(ho.number) else {
        return Err(Reason::ObjectHandleError);
    };
    can_look(parts, seat, handle, get)
}
