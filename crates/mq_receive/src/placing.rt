//! The messages of a batch take their places.
ghost use Rattle.std.specs.Prelude.{◌≡◌, ◌+◌, ◌*◌, ◌≤◌, ◌∷◌, ◌++◌, [], length, flat_map};
ghost use Rattle.mq_core.specs.Ties.{IsReady};
ghost use Rattle.mq_core.specs.Writes.{arrival_dids};
ghost use Rattle.mq_receive.specs.Placed.{dropped_at, undoubted_at, cleared_for, landed_at, landed_all, AreLanding, unexpected_in};

use crate::doubts::strike_all;
use crate::filling::lasts;
use mq_base::{Items, QName};
use mq_calls::{Did, Why};
use mq_core::below::{Effects, IndexedQueue, Queues};
use mq_core::{Arrival, Parts};
use mq_disk::Disk;
use mq_message::Ident;

/// A message waits for its place no longer.
fn unexpect(queues: &mut Queues<IndexedQueue>, arrival: &Arrival)
    ensures { queues.new ≡ unexpected_in (arrival.now ∷ []) queues.old }
{
    queues.unpend(&arrival.queue);
}

/// The messages of a batch wait for their places no longer. It takes no memory.
pub(crate) fn unexpect_all(queues: &mut Queues<IndexedQueue>, landed: &[Arrival])
    ensures { queues.new ≡ unexpected_in landed.now queues.old }
{
    for arrival in landed {
        unexpect(queues, arrival);
    }
}

/// The row of a unit in doubt goes for a message.
fn drop_row<D: Disk>(parts: &mut Parts<D>, dropped: &Option<QName>, ident: &Ident)
    ensures { parts.new ≡ dropped_at dropped.now ident.now parts.old }
{
    match dropped {
        None => {}
        Some(queue) => {
            let _message = parts.queues.remove(queue, ident);
        }
    }
}

/// The ident of a message that lasts goes off all lists of units in doubt.
fn strike_if<D: Disk>(parts: &mut Parts<D>, persistent: bool, ident: &Ident)
    ensures { parts.new ≡ undoubted_at persistent ident.now parts.old }
{
    if persistent {
        strike_all(&mut parts.ends.senders, ident);
    }
}

/// A message takes its place.
fn place_one<D: Disk>(parts: &mut Parts<D>, arrival: Arrival)
    requires ready { IsReady arrival.queue arrival.message (cleared_for arrival parts.old) }
    ensures { parts.new ≡ landed_at arrival parts.old }
{
    let Arrival {
        queue,
        message,
        dropped,
        ..
    } = arrival;
    let ident = message.ident;
    let persistent = lasts(&message);
    drop_row(parts, &dropped, &ident);
    strike_if(parts, persistent, &ident);
    parts.place(&queue, message);
}

/// The messages of a batch take their places, in order. It takes no memory.
pub(crate) fn place_all<D: Disk>(parts: &mut Parts<D>, landed: Items<Arrival>)
    requires ready { AreLanding landed parts.old }
    ensures { parts.new ≡ landed_all landed parts.old }
{
    let mut left = landed.into_vec();
    left.reverse();
    while let Some(arrival) = left.pop() {
        place_one(parts, arrival);
    }
}

/// Tells where a message landed, and the row that goes for it.
fn tell_one(effects: &mut Effects, arrival: &Arrival)
    requires { 2 ≤ effects.old.room }
    ensures dids { effects.new.dids ≡ effects.old.dids ++ arrival_dids arrival.now }
    ensures room { effects.old.room ≤ effects.new.room + 2 }
{
    match &arrival.dropped {
        None => {}
        Some(queue) => effects.tell(Did::Removed {
            queue: *queue,
            ident: arrival.message.ident,
            why: Why::CameBack,
        }),
    }
    effects.tell(Did::Placed {
        queue: arrival.queue,
        ident: arrival.message.ident,
        dead: arrival.dead,
    });
}

/// Tells of the messages of a batch, in order. It takes no memory.
pub(crate) fn tell_landed(effects: &mut Effects, landed: &[Arrival])
    requires { 2 * length landed.now ≤ effects.old.room }
    ensures dids { effects.new.dids ≡ effects.old.dids ++ flat_map arrival_dids landed.now }
    ensures room { effects.old.room ≤ effects.new.room + 2 * length landed.now }
{
    for arrival in landed {
        tell_one(effects, arrival);
    }
}
