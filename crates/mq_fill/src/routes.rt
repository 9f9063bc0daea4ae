//! How a message stands at the end of a route (IBM MQ reference, "Name resolution").
ghost use Rattle.std.specs.Prelude.{◌≡◌};
ghost use Rattle.mq_spec_manager.specs.Words.{dest_at, queue_at};

use mq_base::QName;
use mq_message::Dest;
use mq_resolve::RouteEnd;

/// The local queue on which its row stands.
pub fn queue_at(end: &RouteEnd) -> QName
    ensures { result ≡ queue_at end.now }
{
    match end {
        RouteEnd::Local(queue) => *queue,
        RouteEnd::Via { xq, .. } => *xq,
    }
}

/// The names with which it goes on; none on an ordinary queue.
pub fn dest_at(end: &RouteEnd) -> Option<Dest>
    ensures { result ≡ dest_at end.now }
{
    match end {
        RouteEnd::Local(_) => None,
        RouteEnd::Via { rq, rqm, .. } => Some(Dest {
            queue: *rq,
            qmgr: *rqm,
        }),
    }
}
