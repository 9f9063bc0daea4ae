//! What forced appends and a start cost: `mq_log_bench` over a disk in memory, `mq_log_bench file` over the file
//! BENCH.a.qlog of the current folder, which it empties first. The calls of the disk go to standard output, the times to
//! standard error.
#![tactic(auto)]

mod counting;
mod measure;

use counting::Calls;
use measure::{Measured, measure};
use mq_base::QName;
use mq_disk::{Disk, FileShelf, Image, MemDisk, Shelf, Side};
use mq_log::StartFault;
use std::{env, io};

/// How many bodies are appended in memory.
const BODIES: u32 = 100_000;

/// How many bodies are appended to a file, which waits for the device at each.
const FILE_BODIES: u32 = 1_000;

/// The room of a disk in memory for all bodies: each with its gate and its length, and the last gate.
const ROOM: usize = 105 * BODIES as usize + 1;

/// Prints the calls of a disk.
fn print_calls(rt: &HostRuntime, what: &str, calls: Calls) -> io::Result<()> {
    let Calls {
        reads,
        writes,
        cuts,
        syncs,
    } = calls;
    println!(*rt; "{what}: writes {writes}, syncs {syncs}, cuts {cuts}, reads {reads}")
}

/// Prints what was measured, the times on standard error.
fn print(rt: &HostRuntime, measured: Result<Measured, StartFault>) -> io::Result<()> {
    let Ok(found) = measured else {
        return println!(*rt; "the log wasn't started");
    };
    let (first, second) = (found.first, found.second);
    println!(*rt;
        "appended {} and {}, read {}",
        first.appended, second.appended, found.read
    )?;
    print_calls(rt, "first start and appends", found.at_appends)?;
    print_calls(rt, "start", found.at_start)?;
    let (appends, more) = (first.time, second.time);
    eprintln!(*rt;
        "microseconds: appends {appends} and {more}, start {}",
        found.start_time
    )
}

fn measure_memory(rt: &HostRuntime) -> Result<Measured, StartFault> {
    let failing = Vec::new(rt.alloc());
    match MemDisk::new(rt.alloc(), &[], ROOM, Image::Kept, failing) {
        Ok(disk) => measure(rt.alloc(), rt, disk, BODIES),
        Err(_) => Err(StartFault::NoMemory),
    }
}

fn measure_file(rt: &HostRuntime) -> Result<Measured, StartFault> {
    let Ok(name) = QName::of(b"BENCH") else {
        return Err(StartFault::Disk);
    };
    let Ok(mut disk) = FileShelf::new(rt).take(&name, Side::A) else {
        return Err(StartFault::Disk);
    };
    disk.cut(0)?;
    measure(rt.alloc(), rt, disk, FILE_BODIES)
}

fn main(rt: HostRuntime) -> io::Result<()> {
    let in_file = env::args(&rt)?.skip(1).any(|word| word.as_str() == "file");
    if in_file {
        print(&rt, measure_file(&rt))
    } else {
        print(&rt, measure_memory(&rt))
    }
}
