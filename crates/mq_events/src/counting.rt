//! Whether the queues of a manager have few rows, so that its counters are low when it begins.
ghost use Rattle.std.specs.Prelude.{◌≡◌, true};
ghost use Rattle.std.specs.List.{AllByRecursion};
ghost use Rattle.mq_objects.specs.Names.{locals_of};
ghost use Rattle.mq_manager.specs.from_core.Views.{plain_of};
ghost use Rattle.mq_events.specs.Counts.{HasFew, HasFewRows};

use mq_disk::Disk;
use mq_manager::below::{Core, Parts};
use mq_objects::{LocalQueue, Object};

/// The most rows of a queue with which a manager may begin: no memory holds so many.
const MOST_ROWS: u64 = 1 << 62;

/// Whether a local queue has at most 2^62 rows.
#[tactic(auto, using(crate::proofs::RowLaws::few_some, crate::proofs::RowLaws::few_none))]
fn has_few<D: Disk>(parts: &Parts<D>, queue: &LocalQueue) -> bool
    ensures { result ≡ true → HasFew (plain_of parts.now) queue.now }
{
    match parts.queues.local(&queue.name) {
        None => true,
        Some(rows) => {
            if rows.len() > MOST_ROWS {
                return false;
            }
            true
        }
    }
}

/// Whether each local queue that is defined has at most 2^62 rows.
fn are_few<D: Disk>(parts: &Parts<D>) -> bool
    ensures { result ≡ true → AllByRecursion (HasFew (plain_of parts.now)) (locals_of parts.now.defs.definitions) }
{
    for slot in parts.defs.slots() {
        if let Some(Object::Local(queue)) = slot {
            if !has_few(parts, queue) {
                return false;
            }
        }
    }
    true
}

/// Whether no queue of a manager has more than 2^62 rows. It walks over all queues, and takes no memory.
#[tactic(auto, using(crate::proofs::RowLaws::all_few))]
pub fn has_few_rows<D: Disk>(core: &Core<D>) -> bool
    ensures { result ≡ true → HasFewRows core.now.plain }
{
    are_few(&core.parts)
}
