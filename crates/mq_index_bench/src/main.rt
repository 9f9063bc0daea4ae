//! What calls of an indexed queue cost, with 1,000 rows and with 100,000. The counts go to standard output, the times to
//! standard error.
#![tactic(auto)]

mod measure;

use measure::{Measured, measure};
use mq_base::NoMemory;
use mq_index::IndexedQueue;
use std::io;

/// Prints what was measured, the times on standard error.
fn print(rt: &HostRuntime, rows: u64, measured: Result<Measured, NoMemory>) -> io::Result<()> {
    let Ok(found) = measured else {
        return println!(*rt; "no memory");
    };
    println!(*rt;
        "rows {rows}: got {}, seen {}, drained {}",
        found.got, found.seen, found.drained
    )?;
    eprintln!(*rt;
        "rows {rows}, microseconds: fill {}, gets {}, browse {}, drain {}",
        found.fill_time, found.get_time, found.browse_time, found.drain_time
    )
}

fn main(rt: HostRuntime) -> io::Result<()> {
    print(
        &rt,
        1_000,
        measure::<IndexedQueue>(rt.alloc(), &rt, 1_000, 50_000),
    )?;
    print(
        &rt,
        100_000,
        measure::<IndexedQueue>(rt.alloc(), &rt, 100_000, 50_000),
    )
}
