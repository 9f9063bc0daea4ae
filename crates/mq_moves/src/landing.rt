//! Where a message is put by a route: what refuses it at the end of the route, and how it stands there.
ghost use Rattle.std.specs.Prelude.{◌≡◌, ◌+◌, ◌<◌, ◌^◌, None, nat_le};
ghost use Rattle.mq_calls.specs.Words.{depth, refusal};
ghost use Rattle.mq_spec_manager.specs.Words.{queue_at};
ghost use Rattle.mq_spec_manager.specs.Agents.{route_tests};
ghost use Rattle.mq_agents.specs.from_core.Views.{plain_of};
ghost use Rattle.mq_agents.specs.from_core.Ties.{Tied};
ghost use Rattle.mq_moves.specs.Landed.{route_by, tests_at};

use mq_agents::below::{Parts, is_inhibited, is_unfit_output, max_depth, max_length, queue_at};
use mq_base::QName;
use mq_codes::Reason;
use mq_disk::Disk;
use mq_resolve::{PathStep, RouteEnd};

/// A queue of so many messages, and so many more, has as many as it may.
fn is_at_most(most: u32, depth: u64, more: u64) -> bool
    ensures { result ≡ nat_le most (depth + more) }
{
    match depth.checked_add(more) {
        None => true,
        Some(sum) => u64::from(most) <= sum,
    }
}

/// What refuses a message of so many bytes at the end of a route whose queue is to have so many messages more before it, in this order:
/// 2045, 2051, 2030, 2031, 2053 (MQI reference, MQPUT).
pub fn refused_by<D: Disk>(
    parts: &Parts<D>,
    end: &RouteEnd,
    path: &[PathStep],
    bytes: usize,
    more: u64,
) -> Option<Reason>
    requires tied { Tied parts.now }
    ensures value { result ≡ refusal (tests_at (route_by end.now path.now) bytes (plain_of parts.now) (depth (queue_at end.now) (plain_of parts.now) + more)) }
    ensures small { result ≡ None → bytes < 2 ^ 32 }
{
    if is_unfit_output(parts, end) {
        return Some(Reason::OptionNotValidForType);
    }
    let queue = queue_at(end);
    if is_inhibited(&parts.defs, path) {
        return Some(Reason::PutInhibited);
    }
    if (max_length(parts.defs.local(&queue)) as usize) < bytes {
        return Some(Reason::MessageTooBigForQueue);
    }
    if (parts.defs.manager().max_message_length as usize) < bytes {
        return Some(Reason::MessageTooBigForQueueManager);
    }
    if is_at_most(
        max_depth(parts.defs.local(&queue)),
        parts.depth(&queue),
        more,
    ) {
        return Some(Reason::QueueFull);
    }
    None
}

/// What refuses a message of so many bytes at the end of a route, in that order. Where nothing does, the queue at the end is defined.
pub fn refused_at<D: Disk>(
    parts: &Parts<D>,
    end: &RouteEnd,
    path: &[PathStep],
    bytes: usize,
) -> Option<Reason>
    requires tied { Tied parts.now }
    ensures value { result ≡ refusal (route_tests (route_by end.now path.now) bytes (plain_of parts.now)) }
    ensures small { result ≡ None → bytes < 2 ^ 32 }
{
    refused_by(parts, end, path, bytes, 0)
}
