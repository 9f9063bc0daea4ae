//! What the end of a unit does to a manager's parts, item by item.
ghost use Rattle.std.specs.Prelude.{◌≡◌, ◌+◌, ◌≤◌, ◌<◌, ◌^◌, ◌∷◌, [], true, length, IsSome, IfSome};
ghost use Rattle.mq_calls.specs.Words.{connection_at, unit_need};
ghost use Rattle.mq_calls.specs.declared.state.Connection.{Connection};
ghost use Rattle.mq_spec_manager.specs.Units.{adds_of, removes_of, record_of, commit_delta, backout_part};
ghost use Rattle.mq_core.specs.from_unit.Forced.{IsEnded};
ghost use Rattle.mq_core.specs.from_handles.Rising.{AreRising, connection_number};
ghost use Rattle.mq_core.specs.Placing.{put_each, take_each};
ghost use Rattle.mq_core.specs.Forced.{downed};
ghost use Rattle.mq_core.specs.declared.parts.StoppedWrite.TheVariants as writes;
ghost use Rattle.mq_ends.specs.Ends.{ended_unit, HasRoom, AreReady, IfForced, backed_each, backed, settled, left_if};

use mq_base::Items;
use mq_calls::Item;
use mq_core::below::{Effects, Ended};
use mq_core::{Mode, Parts, StoppedWrite};
use mq_disk::{Disk, Stop};

/// Forces the record of a unit that has a persistent item. It takes no memory.
pub(crate) fn force_unit<D: Disk>(parts: &mut Parts<D>, number: u64) -> Result<(), Stop>
    requires live { parts.old.log.live ≡ true }
    requires there { IsSome (connection_at number parts.old.desk.live) }
    requires room { IfSome (connection_at number parts.old.desk.live) (λ c. unit_need c.unit ≤ parts.old.log.room) }
    requires body { IfSome (connection_at number parts.old.desk.live) (λ c. unit_need c.unit ≤ parts.old.body.room + length parts.old.body.bytes) }
    requires small { IfSome (connection_at number parts.old.desk.live) (λ c. unit_need c.unit < 2 ^ 32) }
    ensures { IfSome (connection_at number parts.old.desk.live) (λ c. IfForced (record_of (adds_of c.unit) (removes_of c.unit)) parts.old result parts.new) }
{
    let seat = match parts.live.get(number) {
        None => unreachable!(),
        Some(seat) => seat,
    };
    if !seat.unit().is_forced() {
        return Ok(());
    }
    parts.body.clear();
    seat.unit().write_record(&mut parts.body);
    parts.force_body()
}

/// The write of a unit's end was stopped. It takes no memory.
pub(crate) fn go_down_commit<D: Disk>(parts: &mut Parts<D>, number: u64, ends: bool)
    ensures { parts.new ≡ downed (writes.Commit number ends) parts.old }
{
    parts.queues.drop_volatile();
    parts.mode = Mode::Down {
        write: Some(StoppedWrite::Commit { number, ends }),
        starts: 0,
        read: None,
    };
}

/// The items of a unit that has just ended, and room for what its end tells.
fn end_unit<D: Disk>(parts: &mut Parts<D>, number: u64) -> Ended
    requires there { IsSome (connection_at number parts.old.desk.live) }
    requires room { IfSome (connection_at number parts.old.desk.live) (λ c. HasRoom c parts.old) }
    ensures parts { IfSome (connection_at number parts.old.desk.live) (λ c. parts.new ≡ ended_unit number c parts.old) }
    ensures ended { IfSome (connection_at number parts.old.desk.live) (λ c. IsEnded c.unit result) }
    ensures rising { AreRising connection_number parts.old.desk.live }
{
    let need = match parts.live.get(number) {
        None => unreachable!(),
        Some(seat) => seat.unit().need(),
    };
    parts.return_record(need);
    parts.live.end_unit(parts.alloc, number)
}

/// A row that a unit held goes.
fn take_row<D: Disk>(parts: &mut Parts<D>, item: &Item)
    ensures { parts.new ≡ take_each (item.now ∷ []) parts.old }
{
    match item {
        Item::Put { .. } => {}
        Item::Take { queue, ident, .. } => {
            let _message = parts.queues.remove(queue, ident);
        }
    }
}

/// The rows that a unit held go.
fn take_rows<D: Disk>(parts: &mut Parts<D>, items: &[Item])
    ensures { parts.new ≡ take_each items.now parts.old }
{
    for item in items {
        take_row(parts, item);
    }
}

/// A put of a unit is placed.
fn place_row<D: Disk>(parts: &mut Parts<D>, item: Item)
    requires ready { AreReady (item ∷ []) parts.old }
    ensures { parts.new ≡ put_each (item ∷ []) parts.old }
{
    match item {
        Item::Put { queue, message } => parts.place(&queue, message),
        Item::Take { .. } => {}
    }
}

/// The puts of a unit are placed, in the order of their calls.
fn place_rows<D: Disk>(parts: &mut Parts<D>, items: Items<Item>)
    requires ready { AreReady items parts.old }
    ensures { parts.new ≡ put_each items parts.old }
{
    let mut left = items.into_vec();
    left.reverse();
    while let Some(item) = left.pop() {
        place_row(parts, item);
    }
}

/// A row that a unit held is free again at its place; a put waits no longer.
fn free_row<D: Disk>(parts: &mut Parts<D>, item: &Item)
    ensures { parts.new ≡ backed_each (item.now ∷ []) parts.old }
{
    match item {
        Item::Put { queue, .. } => parts.queues.unpend(queue),
        Item::Take { queue, ident, .. } => parts.queues.release(queue, ident, true),
    }
}

/// The rows that a unit held are free again at their places, and its puts wait no longer.
fn free_rows<D: Disk>(parts: &mut Parts<D>, items: &[Item])
    ensures { parts.new ≡ backed_each items.now parts.old }
{
    for item in items {
        free_row(parts, item);
    }
}

/// The connection ends too, or not.
fn leave_if<D: Disk>(parts: &mut Parts<D>, number: u64, ends: bool)
    ensures { parts.new ≡ left_if ends number parts.old }
{
    if ends {
        parts.live.disconnect(number);
    }
}

/// A unit is committed behind its write: what it held goes, and its puts are placed. It takes no memory.
pub(crate) fn settle_unit<D: Disk>(parts: &mut Parts<D>, number: u64, ends: bool) -> Effects
    requires there { IsSome (connection_at number parts.old.desk.live) }
    requires room { IfSome (connection_at number parts.old.desk.live) (λ c. HasRoom c parts.old) }
    requires ready { IfSome (connection_at number parts.old.desk.live) (λ c. AreReady c.unit (take_each c.unit (ended_unit number c parts.old))) }
    ensures parts { IfSome (connection_at number parts.old.desk.live) (λ c. parts.new ≡ settled number ends c parts.old) }
    ensures told { IfSome (connection_at number parts.old.desk.live) (λ c. result.dids ≡ commit_delta c) }
    ensures rising { AreRising connection_number parts.old.desk.live }
{
    let Ended { items, mut effects } = end_unit(parts, number);
    effects.tell_commit(items.as_slice());
    take_rows(parts, items.as_slice());
    place_rows(parts, items);
    leave_if(parts, number, ends);
    effects
}

/// A unit is backed out. It takes no memory.
pub(crate) fn back_out_unit<D: Disk>(parts: &mut Parts<D>, number: u64) -> Effects
    requires there { IsSome (connection_at number parts.old.desk.live) }
    requires room { IfSome (connection_at number parts.old.desk.live) (λ c. HasRoom c parts.old) }
    ensures parts { IfSome (connection_at number parts.old.desk.live) (λ c. parts.new ≡ backed number c parts.old) }
    ensures told { IfSome (connection_at number parts.old.desk.live) (λ c. result.dids ≡ (backout_part c).delta) }
{
    let Ended { items, mut effects } = end_unit(parts, number);
    effects.tell_backout(items.as_slice());
    free_rows(parts, items.as_slice());
    effects
}
