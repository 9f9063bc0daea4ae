//! Rows of a shelf on their queue, one after another.
ghost use Rattle.std.specs.Prelude.{◌≡◌, OnOk};
ghost use Rattle.mq_rebuild.specs.Rebuilt.{held_as, row_added, rows_added, CanAdd, CanAddAll};

use mq_base::{Items, NoMemory, QName};
use mq_index::IndexedQueue;
use mq_message::{Holder, Ident};
use mq_place::Queues;
use mq_queue::Row;

fn hold_as(queues: &mut Queues<IndexedQueue>, name: &QName, ident: &Ident, by: &Option<Holder>)
    ensures { queues.new.states ≡ held_as name.now ident.now by.now queues.old.states }
{
    match by {
        None => {}
        Some(by) => queues.hold(name, ident, by),
    }
}

/// A row takes the last place of its lane, and is held by who held it.
fn add_row(queues: &mut Queues<IndexedQueue>, name: &QName, row: Row) -> Result<(), NoMemory>
    requires can { CanAdd name.now row queues.old.states }
    ensures { OnOk result (queues.new.states ≡ row_added name.now row queues.old.states) }
{
    if queues.expect(name).is_err() {
        return Err(NoMemory);
    }
    let Row {
        place: _,
        message,
        by,
    } = row;
    let ident = message.ident;
    queues.place(name, message);
    hold_as(queues, name, &ident, &by);
    Ok(())
}

/// Rows one after another.
pub fn add_rows(
    queues: &mut Queues<IndexedQueue>,
    name: &QName,
    rows: Items<Row>,
) -> Result<(), NoMemory>
    requires can { CanAddAll name.now rows queues.old.states }
    ensures { OnOk result (queues.new.states ≡ rows_added name.now rows queues.old.states) }
{
    let mut left = rows.into_vec();
    left.reverse();
    while let Some(row) = left.pop() {
        if add_row(queues, name, row).is_err() {
            return Err(NoMemory);
        }
    }
    Ok(())
}
