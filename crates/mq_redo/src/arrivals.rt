//! What lasts of a batch of messages whose receiver's commit was stopped.
ghost use Rattle.std.specs.Prelude.{◌≡◌, ◌+◌, ◌<◌, ◌≤◌, ◌++◌, length};
ghost use Rattle.std.specs.List.{flat_map, list_any};
ghost use Rattle.mq_calls.specs.declared.records.Add.{Add};
ghost use Rattle.mq_queue.specs.Rows.{same_ident};
ghost use Rattle.mq_core.specs.Views.{plain_of};
ghost use Rattle.mq_core.specs.Writes.{arrival_adds};
ghost use Rattle.mq_redo.specs.Redone.{adds_ident, is_in, dropped_of, arrived_of};

use crate::telling::{tell_if, tell_removed};
use mq_base::QName;
use mq_calls::{Did, Why};
use mq_core::below::Effects;
use mq_core::{Arrival, Parts};
use mq_disk::Disk;
use mq_message::{Ident, Message};
use mq_queue::is_persistent;

fn adds_ident(arrival: &Arrival, ident: &Ident) -> bool
    ensures { result ≡ adds_ident ident.now arrival.now }
{
    is_persistent(&arrival.message) && *ident == arrival.message.ident
}

fn any_adds(landed: &[Arrival], ident: &Ident) -> bool
    ensures { result ≡ list_any (adds_ident ident.now) landed.now }
{
    landed.iter().any(|arrival| adds_ident(arrival, ident))
}

/// Whether a persistent message of a batch has the ident.
fn is_added(landed: &[Arrival], ident: &Ident) -> bool
    ensures { result ≡ is_in ident.now (flat_map arrival_adds landed.now) }
{
    any_adds(landed, ident)
}

fn tell_dropped<D: Disk>(
    effects: &mut Effects,
    parts: &Parts<D>,
    dropped: &Option<QName>,
    message: &Message,
)
    requires room { 0 < effects.old.room }
    ensures dids { effects.new.dids ≡ effects.old.dids ++ dropped_of dropped.now message.now (plain_of parts.now) }
    ensures room { effects.old.room ≤ effects.new.room + 1 }
{
    match dropped {
        None => {}
        Some(queue) => tell_removed(effects, parts, queue, &message.ident, Why::CameBack),
    }
}

fn tell_arrived<D: Disk>(
    effects: &mut Effects,
    parts: &Parts<D>,
    landed: &[Arrival],
    arrival: &Arrival,
)
    requires room { 1 < effects.old.room }
    ensures dids { effects.new.dids ≡ effects.old.dids ++ arrived_of (flat_map arrival_adds landed.now) (plain_of parts.now) arrival.now }
    ensures room { effects.old.room ≤ effects.new.room + 2 }
{
    let lasts = is_added(landed, &arrival.message.ident);
    tell_dropped(effects, parts, &arrival.dropped, &arrival.message);
    tell_if(
        effects,
        lasts,
        Did::Placed {
            queue: arrival.queue,
            ident: arrival.message.ident,
            dead: arrival.dead,
        },
    );
}

/// Tells of the messages of a batch: of those that last, and of the rows of units in doubt that stood till then.
#[tactic(auto, using(crate::proofs::TellLaws::twice_fits, crate::proofs::TellLaws::twice_next))]
pub(crate) fn tell_all_arrived<D: Disk>(effects: &mut Effects, parts: &Parts<D>, landed: &[Arrival])
    requires room { length landed.now + length landed.now ≤ effects.old.room }
    ensures dids { effects.new.dids ≡ effects.old.dids ++ flat_map (arrived_of (flat_map arrival_adds landed.now) (plain_of parts.now)) landed.now }
    ensures room { effects.old.room ≤ effects.new.room + (length landed.now + length landed.now) }
{
    for arrival in landed {
        tell_arrived(effects, parts, landed, arrival);
    }
}
