//! How many free rows of a store have at least a priority.
ghost use Rattle.std.specs.Prelude.{◌≡◌};
ghost use Rattle.mq_queue.specs.Counts.{weight};
ghost use Rattle.mq_index.specs.Slots.{slot_weight, total};

use mq_queue::{Row, weight};

fn slot_weight(least: u8, slot: &Option<Row>) -> u64
    ensures { result ≡ slot_weight least slot.now }
{
    match slot {
        None => 0,
        Some(row) => weight(least, row),
    }
}

/// How many free rows have at least a priority, by a walk over all.
pub fn count_rows(slots: &[Option<Row>], least: u8) -> u64
    ensures { result ≡ total (weight least) slots.now }
{
    let mut sum = 0;
    for at in 0..slots.len() {
        sum += slot_weight(least, &slots[at]);
    }
    sum
}
