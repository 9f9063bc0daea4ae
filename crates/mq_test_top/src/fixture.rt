//! What the tests of each file begin with: disks on a shelf, and the call.

use mq_base::{MemSink, MemSource, QName};
use mq_disk::{Disk, Image, MemDisk, MemShelf, Shelf, Side};
use mq_gate::Gate;
use mq_top::{Ended, Status, mqnet};
use std::alloc::Global;
use std::sync::Wait;
use std::test::*;
use std::thread::Threads;

/// What a call of the program leaves.
#[derive(Drop)]
pub struct Ran<D: Disk> {
    pub status: Status,
    pub report: String,
    pub told: Option<String>,
    /// Those of the managers in their order, or where there is no network those that were taken.
    pub disks: Vec<D>,
}

/// Puts a disk with this log on a shelf, under a manager's name.
pub fn put_disk(
    alloc: Global,
    shelf: &mut MemShelf<MemDisk>,
    manager: &[u8],
    log: &[u8],
    room: usize,
    image: Image,
    failing: Vec<u64>,
) {
    let Ok(name) = QName::of(manager) else {
        return;
    };
    let Ok(disk) = MemDisk::new(alloc, log, room, image, failing) else {
        return;
    };
    let _put = shelf.put(name, Side::A, disk);
}

/// Calls the program with these words, at the moment 0. (It has no clause, so a test carries nothing of what the call promises, and the
/// network is taken apart here, so no test drops it.)
pub fn call<H: Shelf, R: Threads + Wait + Sync, G: Gate + Sync>(
    rt: &R,
    alloc: Global,
    words: &[&str],
    source: &mut MemSource,
    sink: &mut MemSink,
    shelf: &mut H,
    gate: &G,
) -> Result<Ran<H::D>, Fail>
where
    H::D: Send,
{
    let mut strings = Vec::new(alloc);
    for word in words {
        strings.push(String::from_str(alloc, word)?)?;
    }
    let Ended {
        status,
        network,
        disks,
        told,
    } = mqnet(rt, alloc, &strings, source, sink, shelf, 0, gate);
    let disks = match network {
        Some(rested) => rested.into_disks(),
        None => disks,
    };
    Ok(Ran {
        status,
        report: String::from_str(alloc, str::from_utf8(sink.held())?)?,
        told,
        disks,
    })
}
