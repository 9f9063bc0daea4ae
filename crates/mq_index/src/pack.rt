//! A store whose slots are mostly empty is packed: its rows move into a store of their number.
ghost use Rattle.std.specs.Prelude.{◌≡◌, ◌+◌, ◌<◌, ◌≤◌, [], Option, Some, length, slice_get, slice_set, None};
ghost use Rattle.mq_queue.specs.declared.row.Row as rows;
ghost use Rattle.mq_index.specs.Moves.{HasCome, MayCome};
ghost use Rattle.mq_index.specs.Slots.{one, total};
ghost use Rattle.mq_index.specs.Walks.{stored};

use crate::store::Store;

/// The row of a slot moves, where it has one.
fn move_row(from: &mut Store, to: &mut Store, at: usize)
    requires there { at < length from.old.slots }
    requires may { (row : rows.Row) → slice_get from.old.slots at ≡ Some (Some row) → MayCome row to.old }
    ensures from { from.new.slots ≡ slice_set from.old.slots at None }
    ensures come { (slot : Option rows.Row) → slice_get from.old.slots at ≡ Some slot → HasCome slot to.old to.new }
{
    match from.take(at) {
        None => {}
        Some(row) => to.push(row),
    }
}

/// All rows move into an empty store, in order.
fn move_rows(from: &mut Store, to: &mut Store)
    requires empty { to.old.slots ≡ [] }
    requires first { to.old.arrivals ≡ 0 }
    requires enough { total one from.old.slots ≤ to.old.room }
    ensures rows { stored to.new.slots ≡ stored from.old.slots }
    ensures room { to.new.room + total one from.old.slots ≡ to.old.room }
    ensures arrivals { to.new.arrivals ≤ from.old.arrivals }
{
    for at in 0..from.slots() {
        move_row(from, to, at);
    }
}

/// Packs a store of at least sixteen slots, where no more than half of them have a row. So it costs no more than the rows that
/// went since the last time, and memory stays in proportion to what stands. Where there is no memory for that, it stays as it is.
pub fn pack(store: &mut Store)
    ensures rows { stored store.new.slots ≡ stored store.old.slots }
    ensures arrivals { store.new.arrivals ≡ store.old.arrivals }
    ensures room { store.old.room ≤ store.new.room }
{
    let slots = store.slots();
    if slots < 16 || slots / 2 < store.rows() {
        return;
    }
    let mut fresh = Store::new(store.alloc());
    match fresh.reserve(store.needs()) {
        Ok(()) => {
            let arrivals = store.arrivals();
            move_rows(store, &mut fresh);
            fresh.raise(arrivals);
            *store = fresh;
        }
        Err(_) => {}
    }
}
