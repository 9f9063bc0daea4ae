//! The rows of a queue, copied in order of place.
ghost use Rattle.std.specs.Prelude.{◌≡◌, ◌++◌, ◌∷◌, [], OnOk};
ghost use Rattle.mq_calls.specs.Reads.{queue_in};
ghost use Rattle.mq_place.specs.States.{queues_of};

use mq_base::{Items, NoMemory, QName};
use mq_place::{LocalRows, Queues};
use mq_queue::{Queue, Row};
use std::alloc::Global;

fn put_row(out: &mut Items<Row>, alloc: Global, row: &Row) -> Result<(), NoMemory>
    ensures { OnOk result (out.new ≡ out.old ++ row.now ∷ []) }
{
    let copy = row.try_clone(alloc)?;
    out.push(copy)?;
    Ok(())
}

/// The rows of a queue at the end of others, in order of place.
pub fn put_rows<Q: Queue + Drop>(
    out: &mut Items<Row>,
    alloc: Global,
    local: &LocalRows<Q>,
) -> Result<(), NoMemory>
    ensures { OnOk result (out.new ≡ out.old ++ local.now.queue.rows) }
{
    let mut after = None;
    for seen in 0..local.len() {
        let Some(row) = local.next_row(after) else {
            return Ok(());
        };
        let place = row.place;
        put_row(out, alloc, row)?;
        after = Some(place);
    }
    Ok(())
}

/// Those of the queue of a name; none where there is none.
pub fn put_stored<Q: Queue + Drop>(
    out: &mut Items<Row>,
    alloc: Global,
    queues: &Queues<Q>,
    name: &QName,
) -> Result<(), NoMemory>
    ensures { OnOk result (out.new ≡ out.old ++ (queue_in name.now (queues_of queues.now.states)).rows) }
{
    match queues.local(name) {
        None => Ok(()),
        Some(local) => put_rows(out, alloc, local),
    }
}
