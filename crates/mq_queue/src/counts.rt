//! Ten counters of free rows: how many have at least the priority 0, 1, and so on to 9.
ghost use Rattle.std.specs.Prelude.{◌≡◌};
ghost use Rattle.mq_queue.specs.Queues.{count_waiting};
ghost use Rattle.mq_queue.specs.Counts.{AreCounts, IsOneMore, HaveRoom, AreEnough, weight};

use crate::asked::is_waiting;
use crate::row::Row;
use std::collections::VecDeque;

/// What a row adds to the counter of a priority: 1 or 0.
pub fn weight(least: u8, row: &Row) -> u64
    ensures { result ≡ weight least row.now }
{
    if is_waiting(least, row) { 1 } else { 0 }
}

/// Counts a row in, if it is free.
pub fn count_in(frees: &mut [u64; 10], row: &Row)
    requires { HaveRoom row.now frees.old }
    ensures { IsOneMore row.now frees.old frees.new }
{
    for least in 0..10u8 {
        frees[least as usize] += weight(least, row);
    }
}

/// Counts a row out, if it is free.
pub fn count_out(frees: &mut [u64; 10], row: &Row)
    requires { AreEnough row.now frees.old }
    ensures { IsOneMore row.now frees.new frees.old }
{
    for least in 0..10u8 {
        frees[least as usize] -= weight(least, row);
    }
}

/// The counters of rows.
pub fn counts_of(rows: &VecDeque<Row>) -> [u64; 10]
    ensures { AreCounts result rows.now.items }
{
    let mut frees = [0; 10];
    for at in 0..rows.len() {
        count_in(&mut frees, &rows[at]);
    }
    frees
}

/// How many free rows have at least a priority, by a walk over all.
pub fn count_rows(rows: &VecDeque<Row>, least: u8) -> u64
    ensures { result ≡ count_waiting least rows.now.items }
{
    rows.iter().filter(|row| is_waiting(least, row)).count() as u64
}
