//! The refusals of MQPUT and MQPUT1 in their order.
ghost use Rattle.std.specs.Prelude.{◌≡◌, ◌+◌, ◌<◌, ◌≤◌, ◌^◌, ℕ, List, None, length, IfSome, ◌-◌, true};
ghost use Rattle.mq_calls.specs.Words.{Message, depth, is_full, is_up, put_bytes, refusal, route_size};
ghost use Rattle.mq_spec_manager.specs.Words.{is_bad_expiry, put_need, log_full, next_ident, new_message, mqput, mqput1, is_high};
ghost use Rattle.mq_fill.specs.Drafts.{message_of};
ghost use Rattle.mq_core.specs.Views.{plain_of};
ghost use Rattle.mq_core.specs.Ties.{Tied};
ghost use Rattle.mq_mqi.specs.Puts.{Posts, Puts, options_tests, definitions_tests, counts_tests};

use mq_base::QName;
use mq_calls::{Hconn, Hobj};
use mq_codes::Reason;
use mq_core::below::Seat;
use mq_core::{Parts, is_sync_full, is_unfit_output};
use mq_disk::Disk;
use mq_fill::{Draft, is_blank, is_inhibited, make_draft, max_depth, max_length, queue_at};
use mq_message::{Dest, Ident, Md};
use mq_resolve::{PathStep, RouteEnd, resolve};

/// A message on its way to a queue, all but its body.
#[derive(Clone, Copy)]
pub struct Letter {
    /// The local queue on which its row stands.
    pub queue: QName,
    /// All but its body.
    pub draft: Draft,
}

/// Expiry is neither above 0 nor -1.
fn is_bad_expiry(expiry: i32) -> bool
    ensures { result ≡ is_bad_expiry expiry }
{
    expiry == 0 || expiry < -1
}

/// What the two names of a route take in a record.
fn route_bytes(route: &Option<Dest>) -> u64
    ensures value { result ≡ route_size route.now }
    ensures small { result ≤ 96 }
{
    match route {
        None => 0,
        Some(_) => 96,
    }
}

/// What a persistent message of a body so long takes in a record.
fn draft_bytes(draft: &Draft, size: usize) -> u64
    requires small { size < 2 ^ 32 }
    ensures bytes { (body : List ℕ) → length body ≡ size → result ≡ 402 + length body + route_size draft.now.route }
    ensures small { result < 2 ^ 33 }
{
    402 + size as u64 + route_bytes(&draft.route)
}

/// The options of a put: Expiry, and a reply queue for a request.
fn refused_by_options(md: &Md) -> Option<Reason>
    ensures { result ≡ refusal (options_tests md.now) }
{
    if is_bad_expiry(md.expiry) {
        return Some(Reason::ExpiryError);
    }
    if md.msg_type == 1 && is_blank(&md.reply_to_q) {
        return Some(Reason::MissingReplyToQueue);
    }
    None
}

/// What a persistent put takes of the log.
fn put_need<D: Disk>(parts: &Parts<D>, sync: bool, seat: &Seat, bytes: u64) -> u64
    requires { bytes + 14 < 2 ^ 64 }
    ensures { (m : Message) → bytes ≡ put_bytes m → result ≡ put_need sync seat.now m }
{
    if sync {
        seat.unit().more_need(bytes)
    } else {
        14 + bytes
    }
}

/// The log lacks room for a persistent message with a body so long.
fn is_log_full<D: Disk>(
    parts: &Parts<D>,
    sync: bool,
    seat: &Seat,
    draft: &Draft,
    size: usize,
) -> bool
    requires tied { Tied parts.now }
    requires up { is_up (plain_of parts.now).running ≡ true }
    requires small { size < 2 ^ 32 }
    ensures { (body : List ℕ) → length body ≡ size → result ≡ log_full sync seat.now (message_of draft.now body) (plain_of parts.now) }
{
    if draft.md.persistence != 1 {
        return false;
    }
    parts.is_full(put_need(parts, sync, seat, draft_bytes(draft, size)))
}

/// The message, all but its body.
fn draft_of<D: Disk>(
    parts: &Parts<D>,
    seat: &Seat,
    end: &RouteEnd,
    path: &[PathStep],
    md: &Md,
) -> Draft
    requires tied { Tied parts.now }
    requires idents { parts.now.idents + 1 < 2 ^ 64 }
    ensures message { (body : List ℕ) → message_of result body ≡ new_message seat.now (record { end = end.now; path = path.now }) md.now body (plain_of parts.now) }
    ensures deadline { IfSome result.deadline (λ d. d < 2 ^ 64 - 1) }
{
    make_draft(
        &parts.next_ident(),
        seat.appl(),
        end,
        path,
        md,
        &parts.name,
        &parts.defs,
        parts.moment,
    )
}

/// PUT(DISABLED) and MAXMSGL.
fn refused_by_definitions<D: Disk>(
    parts: &Parts<D>,
    path: &[PathStep],
    queue: &QName,
    bytes: usize,
) -> Option<Reason>
    ensures value { result ≡ refusal (definitions_tests path.now queue.now bytes (plain_of parts.now)) }
    ensures small { result ≡ None → bytes < 2 ^ 32 }
{
    if is_inhibited(&parts.defs, path) {
        return Some(Reason::PutInhibited);
    }
    if (max_length(parts.defs.local(queue)) as usize) < bytes {
        return Some(Reason::MessageTooBigForQueue);
    }
    if (parts.defs.manager().max_message_length as usize) < bytes {
        return Some(Reason::MessageTooBigForQueueManager);
    }
    None
}

/// MAXUMSGS and MAXDEPTH.
fn refused_by_counts<D: Disk>(
    parts: &Parts<D>,
    seat: &Seat,
    queue: &QName,
    sync: bool,
) -> Option<Reason>
    requires tied { Tied parts.now }
    ensures { result ≡ refusal (counts_tests seat.now queue.now sync (plain_of parts.now)) }
{
    if is_sync_full(parts, sync, seat) {
        return Some(Reason::SyncpointLimitReached);
    }
    if u64::from(max_depth(parts.defs.local(queue))) <= parts.depth(queue) {
        return Some(Reason::QueueFull);
    }
    None
}

/// The refusals behind a route; else the message, all but its body.
fn can_post<D: Disk>(
    parts: &Parts<D>,
    seat: &Seat,
    end: &RouteEnd,
    path: &[PathStep],
    md: &Md,
    body: &[u8],
    sync: bool,
) -> Result<Letter, Reason>
    requires tied { Tied parts.now }
    requires up { is_up (plain_of parts.now).running ≡ true }
    requires idents { parts.now.idents + 1 < 2 ^ 64 }
    ensures { Posts seat.now (record { end = end.now; path = path.now }) md.now body.now sync (plain_of parts.now) result }
{
    match refused_by_options(md) {
        None => {}
        Some(reason) => return Err(reason),
    }
    let queue = queue_at(end);
    match refused_by_definitions(parts, path, &queue, body.len()) {
        None => {}
        Some(reason) => return Err(reason),
    }
    match refused_by_counts(parts, seat, &queue, sync) {
        None => {}
        Some(reason) => return Err(reason),
    }
    let draft = draft_of(parts, seat, end, path, md);
    if is_log_full(parts, sync, seat, &draft, body.len()) {
        return Err(Reason::ResourceProblem);
    }
    Ok(Letter { queue, draft })
}

/// The refusals of MQPUT.
pub(crate) fn can_put<D: Disk>(
    parts: &Parts<D>,
    hc: &Hconn,
    ho: &Hobj,
    md: &Md,
    body: &[u8],
    sync: bool,
) -> Result<Letter, Reason>
    requires tied { Tied parts.now }
    requires idents { parts.now.idents + 1 < 2 ^ 64 }
    ensures { Puts (mqput hc.now ho.now md.now body.now sync (plain_of parts.now)) hc.now.number (is_high md.now.priority) sync body.now (plain_of parts.now) result }
{
    let seat = match parts.connected(hc) {
        Ok(seat) => seat,
        Err(reason) => return Err(reason),
    };
    let Some(handle) = seat.handle(ho.number) else {
        return Err(Reason::ObjectHandleError);
    };
    if handle.stale {
        return Err(Reason::ObjectChanged);
    }
    if !handle.how.output {
        return Err(Reason::NotOpenForOutput);
    }
    can_post(
        parts,
        seat,
        &handle.leads,
        handle.path.as_slice(),
        md,
        body,
        sync,
    )
}

/// The refusals of MQPUT1.
pub(crate) fn can_put1<D: Disk>(
    parts: &Parts<D>,
    hc: &Hconn,
    name: &QName,
    qmgr: &QName,
    md: &Md,
    body: &[u8],
    sync: bool,
) -> Result<Letter, Reason>
    requires tied { Tied parts.now }
    requires idents { parts.now.idents + 1 < 2 ^ 64 }
    ensures { Puts (mqput1 hc.now name.now qmgr.now md.now body.now sync (plain_of parts.now)) hc.now.number (is_high md.now.priority) sync body.now (plain_of parts.now) result }
{
    let seat = match parts.connected(hc) {
        Ok(seat) => seat,
        Err(reason) => return Err(reason),
    };
    let route = match resolve(&parts.defs, &parts.name, name, qmgr) {
        Ok(route) => route,
        Err(reason) => return Err(reason),
    };
    if is_unfit_output(parts, &route.end) {
        return Err(Reason::OptionNotValidForType);
    }
    can_post(
        parts,
        seat,
        &route.end,
        route.path.as_slice(),
        md,
        body,
        sync,
    )
}
