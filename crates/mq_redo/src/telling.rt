//! What lasts of one thing after another, told into room that was taken before.
ghost use Rattle.std.specs.Prelude.{◌≡◌, ◌+◌, ◌<◌, ◌≤◌, ◌++◌, length};
ghost use Rattle.std.specs.List.{flat_map};
ghost use Rattle.mq_calls.specs.Reads.{stands};
ghost use Rattle.mq_core.specs.Views.{plain_of};
ghost use Rattle.mq_redo.specs.Redone.{only_if, removed_of, settled_of, taken_of, placed_of};

use mq_base::QName;
use mq_calls::{Did, Item, Remove, Why};
use mq_core::Parts;
use mq_core::below::Effects;
use mq_disk::Disk;
use mq_message::Ident;
use mq_queue::is_persistent;

/// Whether a row of that ident stands anywhere. It looks at one queue alone.
#[tactic(auto, using(crate::proofs::StandLaws::stands_home))]
fn stands<D: Disk>(parts: &Parts<D>, ident: &Ident) -> bool
    ensures { result ≡ stands ident.now (plain_of parts.now) }
{
    parts.queues.home(ident).is_some()
}

/// Tells it, where it lasts.
pub(crate) fn tell_if(effects: &mut Effects, lasts: bool, did: Did)
    requires room { 0 < effects.old.room }
    ensures dids { effects.new.dids ≡ effects.old.dids ++ only_if lasts did }
    ensures room { effects.old.room ≤ effects.new.room + 1 }
{
    if lasts {
        effects.tell(did);
    }
}

/// Tells that a row was removed, where a row of that ident stands.
pub(crate) fn tell_removed<D: Disk>(
    effects: &mut Effects,
    parts: &Parts<D>,
    queue: &QName,
    ident: &Ident,
    why: Why,
)
    requires room { 0 < effects.old.room }
    ensures dids { effects.new.dids ≡ effects.old.dids ++ removed_of queue.now why (plain_of parts.now) ident.now }
    ensures room { effects.old.room ≤ effects.new.room + 1 }
{
    let lasts = stands(parts, ident);
    tell_if(
        effects,
        lasts,
        Did::Removed {
            queue: *queue,
            ident: *ident,
            why,
        },
    );
}

fn tell_settled<D: Disk>(effects: &mut Effects, parts: &Parts<D>, commit: bool, row: &Remove)
    requires room { 0 < effects.old.room }
    ensures dids { effects.new.dids ≡ effects.old.dids ++ settled_of commit (plain_of parts.now) row.now }
    ensures room { effects.old.room ≤ effects.new.room + 1 }
{
    let lasts = stands(parts, &row.ident);
    let did = if commit {
        Did::Removed {
            queue: row.queue,
            ident: row.ident,
            why: Why::Sent,
        }
    } else {
        Did::Released {
            queue: row.queue,
            ident: row.ident,
        }
    };
    tell_if(effects, lasts, did);
}

fn tell_taken<D: Disk>(effects: &mut Effects, parts: &Parts<D>, item: &Item)
    requires room { 0 < effects.old.room }
    ensures dids { effects.new.dids ≡ effects.old.dids ++ taken_of (plain_of parts.now) item.now }
    ensures room { effects.old.room ≤ effects.new.room + 1 }
{
    match item {
        Item::Put { .. } => {}
        Item::Take { queue, ident, .. } => tell_removed(effects, parts, queue, ident, Why::Got),
    }
}

fn tell_placed(effects: &mut Effects, item: &Item)
    requires room { 0 < effects.old.room }
    ensures dids { effects.new.dids ≡ effects.old.dids ++ placed_of item.now }
    ensures room { effects.old.room ≤ effects.new.room + 1 }
{
    match item {
        Item::Put { queue, message } => tell_if(
            effects,
            is_persistent(message),
            Did::Placed {
                queue: *queue,
                ident: message.ident,
                dead: None,
            },
        ),
        Item::Take { .. } => {}
    }
}

/// Tells of rows of a queue that go: of those that stand.
#[tactic(auto, using(crate::proofs::TellLaws::tell_fits, crate::proofs::TellLaws::tell_next))]
pub(crate) fn tell_all_removed<D: Disk>(
    effects: &mut Effects,
    parts: &Parts<D>,
    queue: &QName,
    idents: &[Ident],
    why: Why,
)
    requires room { length idents.now ≤ effects.old.room }
    ensures dids { effects.new.dids ≡ effects.old.dids ++ flat_map (removed_of queue.now why (plain_of parts.now)) idents.now }
    ensures room { effects.old.room ≤ effects.new.room + length idents.now }
{
    for ident in idents {
        tell_removed(effects, parts, queue, ident, why);
    }
}

/// Tells of rows of a unit in doubt: of those that stand.
#[tactic(auto, using(crate::proofs::TellLaws::tell_fits, crate::proofs::TellLaws::tell_next))]
pub(crate) fn tell_all_settled<D: Disk>(
    effects: &mut Effects,
    parts: &Parts<D>,
    commit: bool,
    rows: &[Remove],
)
    requires room { length rows.now ≤ effects.old.room }
    ensures dids { effects.new.dids ≡ effects.old.dids ++ flat_map (settled_of commit (plain_of parts.now)) rows.now }
    ensures room { effects.old.room ≤ effects.new.room + length rows.now }
{
    for row in rows {
        tell_settled(effects, parts, commit, row);
    }
}

/// Tells of the rows that a unit got: of those that stand.
#[tactic(auto, using(crate::proofs::TellLaws::tell_fits, crate::proofs::TellLaws::tell_next))]
pub(crate) fn tell_all_taken<D: Disk>(effects: &mut Effects, parts: &Parts<D>, unit: &[Item])
    requires room { length unit.now ≤ effects.old.room }
    ensures dids { effects.new.dids ≡ effects.old.dids ++ flat_map (taken_of (plain_of parts.now)) unit.now }
    ensures room { effects.old.room ≤ effects.new.room + length unit.now }
{
    for item in unit {
        tell_taken(effects, parts, item);
    }
}

/// Tells of the puts of a unit: of those that last.
#[tactic(auto, using(crate::proofs::TellLaws::tell_fits, crate::proofs::TellLaws::tell_next))]
pub(crate) fn tell_all_placed(effects: &mut Effects, unit: &[Item])
    requires room { length unit.now ≤ effects.old.room }
    ensures dids { effects.new.dids ≡ effects.old.dids ++ flat_map placed_of unit.now }
    ensures room { effects.old.room ≤ effects.new.room + length unit.now }
{
    for item in unit {
        tell_placed(effects, item);
    }
}
