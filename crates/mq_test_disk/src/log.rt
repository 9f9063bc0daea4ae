//! mq_log: starts, forced appends under cuts and faults, reservations.

use mq_base::QName;
use mq_disk::{Cutter, Disk, FileShelf, Image, MemDisk, Shelf, Side, Stop};
use mq_log::{Bodies, Found, Log, LogFull, StartFault, next_body};
use std::alloc::Global;
use std::test::*;

/// What comes of a step.
#[derive(Clone, Copy, PartialEq)]
enum Told {
    /// The call was made, and the answer to the question is yes.
    Done,
    /// A reservation is refused.
    Full,
    /// A cut stopped the call.
    Cut,
    /// The disk failed, or a restart gave up.
    Failed,
    /// The answer is no, or no log takes this step.
    No,
}

fn asked(answer: bool) -> Told {
    if answer { Told::Done } else { Told::No }
}

fn forced(answer: Result<(), Stop>) -> Told {
    match answer {
        Ok(()) => Told::Done,
        Err(Stop::Cut) => Told::Cut,
        Err(Stop::Disk) => Told::Failed,
    }
}

fn restarted(answer: Result<Found, StartFault>) -> Told {
    match answer {
        Ok(_) => Told::Done,
        Err(_) => Told::Failed,
    }
}

/// A log on a disk of these bytes, with room for three bodies.
fn started(
    alloc: Global,
    bytes: &[u8],
    image: Image,
    failing: Vec<u64>,
) -> Result<Log<MemDisk>, StartFault> {
    let Ok(disk) = MemDisk::new(alloc, bytes, 100, image, failing) else {
        return Err(StartFault::NoMemory);
    };
    match Log::start(alloc, Cutter::new(disk), 60) {
        Ok(log) => Ok(log),
        Err(refused) => Err(refused.fault),
    }
}

fn holds(mut bodies: Bodies<'_>, wanted: &[&[u8]]) -> bool {
    for body in wanted {
        match next_body(&bodies) {
            Some(split) if split.body == *body => bodies = split.rest,
            _ => return false,
        }
    }
    next_body(&bodies).is_none()
}

/// Appends a body in room that is taken before.
fn append<D: Disk>(log: &mut Log<D>, body: &[u8]) -> Told {
    if body.len() > 100 {
        return Told::No;
    }
    let Ok(()) = log.room(body.len() as u64 + 5) else {
        return Told::No;
    };
    if !log.is_live() {
        return Told::No;
    }
    forced(log.append_forced(body))
}

/// Appends a body of two parts in room that is taken before.
fn append_parts(log: &mut Log<MemDisk>, head: &[u8], adds: &[u8]) -> Told {
    if head.len() > 100 || adds.len() > 100 {
        return Told::No;
    }
    let Ok(()) = log.room(head.len() as u64 + adds.len() as u64 + 5) else {
        return Told::No;
    };
    if !log.is_live() {
        return Told::No;
    }
    forced(log.append_parts(head, adds, b""))
}

fn reserve(log: &mut Log<MemDisk>, bytes: u64) -> Told {
    if !log.is_live() {
        return Told::No;
    }
    match log.reserve(bytes) {
        Ok(()) => Told::Done,
        Err(LogFull::Full) => Told::Full,
        Err(LogFull::NoMemory) => Told::No,
    }
}

fn give_back(log: &mut Log<MemDisk>, bytes: u64) -> Told {
    if bytes > log.reserved() {
        return Told::No;
    }
    log.give_back(bytes);
    Told::Done
}

/// A call of a log, or a question about it.
enum Step {
    Append(&'static [u8]),
    Restart,
    Reserve(u64),
    GiveBack(u64),
    /// Is there room for so many bytes?
    Fits(u64),
    /// Are these its length and what is reserved?
    Numbers(u64, u64),
    IsLive,
    /// Are these its bodies?
    Holds(&'static [&'static [u8]]),
}

fn take_step(alloc: Global, log: &mut Log<MemDisk>, step: &Step) -> Told {
    match step {
        Step::Append(body) => append(log, body),
        Step::Restart => restarted(log.restart(alloc)),
        Step::Reserve(bytes) => reserve(log, *bytes),
        Step::GiveBack(bytes) => give_back(log, *bytes),
        Step::Fits(bytes) => asked(log.fits(*bytes)),
        Step::Numbers(len, reserved) => asked(log.len() == *len && log.reserved() == *reserved),
        Step::IsLive => asked(log.is_live()),
        Step::Holds(bodies) => asked(holds(log.bodies(), bodies)),
    }
}

/// The first step, from 0, of which something else comes.
fn first_wrong(alloc: Global, log: &mut Log<MemDisk>, steps: &[(Step, Told)]) -> Option<usize> {
    for (place, (step, wanted)) in steps.iter().enumerate() {
        if take_step(alloc, log, step) != *wanted {
            return Some(place);
        }
    }
    None
}

/// Bytes of a disk, and the bodies that a start reads from them.
const STARTS: [(&[u8], &[&[u8]]); 6] = [
    (b"", &[]),
    (b"\xa5", &[]),
    (b"\0", &[]),
    (b"\0\xa5\0\0\0\0\0", &[]),
    (b"\xa5\0\0\0\0\0", &[b""]),
    (b"\xa5\0\0\0\x01A\0\xa5\xa5", &[b"A"]),
];

/// Bytes that are no log, and the place of their bad gate.
const NO_LOGS: [(&[u8], u64); 4] = [
    (b"\xa5\0", 0),
    (b"\xa5\0\0\0\0", 0),
    (b"\xa5\0\0\0\x02A\0", 0),
    (b"\xa5\0\0\0\x01A\xa5", 6),
];

#[test]
fn a_start_reads_up_to_the_first_closed_gate(rt: HostRuntime) -> Result<(), Fail> {
    for (bytes, bodies) in &STARTS {
        let log = started(rt.alloc(), bytes, Image::Kept, Vec::new(rt.alloc()))?;
        assert!(rt; holds(log.bodies(), bodies), "{bytes:?}");
    }
    Ok(())
}

#[test]
fn a_start_tells_the_place_of_a_bad_gate(rt: HostRuntime) {
    for (bytes, place) in &NO_LOGS {
        let refused = started(rt.alloc(), bytes, Image::Kept, Vec::new(rt.alloc())).err();
        assert_eq!(rt; refused, Some(StartFault::BadLog(*place)), "{bytes:?}");
    }
}

/// Appends `first` and then `the second`, where a cut is armed for that one's call k. What comes of the second.
fn append_both(log: &mut Log<MemDisk>, k: u32) -> Told {
    if append(log, b"first") != Told::Done {
        return Told::No;
    }
    log.arm(k);
    let told = append_parts(log, b"the", b" second");
    log.arm(0);
    told
}

/// Whether the second's body stands behind the first's. None where other bodies stand.
fn second_stands(log: &Log<MemDisk>) -> Option<bool> {
    if holds(log.bodies(), &[b"first"]) {
        return Some(false);
    }
    if holds(log.bodies(), &[b"first", b"the second"]) {
        return Some(true);
    }
    None
}

/// Whether that comes of the second, and its body stands so after a restart.
fn is_cut(alloc: Global, log: &mut Log<MemDisk>, k: u32, wanted: Told, stands: bool) -> bool {
    append_both(log, k) == wanted
        && restarted(log.restart(alloc)) == Told::Done
        && second_stands(log) == Some(stands)
}

#[test]
fn a_cut_body_stands_only_where_its_gate_was_opened(rt: HostRuntime) -> Result<(), Fail> {
    for image in [Image::Kept, Image::Lost, Image::Torn] {
        for k in 1..6u32 {
            let kept = k == 5 || k == 4 && image == Image::Kept;
            let told = if k < 5 { Told::Cut } else { Told::Done };
            let mut log = started(rt.alloc(), b"", image, Vec::new(rt.alloc()))?;
            assert!(rt;
                is_cut(rt.alloc(), &mut log, k, told, kept),
                "{image:?} {k}"
            );
        }
    }
    Ok(())
}

#[test]
fn a_disk_that_fails_stops_a_start(rt: HostRuntime) -> Result<(), Fail> {
    for call in 0..5u64 {
        let failing = vec![in rt.alloc(); call]?;
        let refused = started(rt.alloc(), b"", Image::Kept, failing).err();
        assert_eq!(rt; refused, Some(StartFault::Disk), "{call}");
    }
    Ok(())
}

const LOST: &[(Step, Told)] = &[
    (Step::Append(b"body"), Told::Failed),
    (Step::IsLive, Told::No),
    (Step::Restart, Told::Done),
    (Step::Holds(&[b"body"]), Told::No),
    (Step::Holds(&[]), Told::Done),
];

const OPENED: &[(Step, Told)] = &[
    (Step::Append(b"body"), Told::Failed),
    (Step::IsLive, Told::No),
    (Step::Restart, Told::Done),
    (Step::Holds(&[b"body"]), Told::Done),
    (Step::Holds(&[]), Told::No),
];

const KEPT: &[(Step, Told)] = &[
    (Step::Append(b"body"), Told::Done),
    (Step::IsLive, Told::Done),
    (Step::Restart, Told::Failed),
    (Step::Restart, Told::Done),
    (Step::Holds(&[b"body"]), Told::Done),
    (Step::Holds(&[]), Told::No),
];

/// The call of the disk that fails, and steps of an empty log.
const FAILING: [(u64, &[(Step, Told)]); 5] = [
    (5, LOST),
    (6, LOST),
    (7, LOST),
    (8, OPENED),
    (9, KEPT),
];

#[test]
fn a_disk_that_fails_stops_the_call(rt: HostRuntime) -> Result<(), Fail> {
    for (call, steps) in &FAILING {
        let failing = vec![in rt.alloc(); *call]?;
        let mut log = started(rt.alloc(), b"", Image::Kept, failing)?;
        assert_eq!(rt; first_wrong(rt.alloc(), &mut log, steps), None, "{call}");
    }
    Ok(())
}

const RESERVATIONS: &[(Step, Told)] = &[
    (Step::Reserve(60), Told::Full),
    (Step::Reserve(59), Told::Done),
    (Step::Reserve(1), Told::Full),
    (Step::GiveBack(10), Told::Done),
    (Step::Fits(10), Told::Done),
    (Step::Fits(11), Told::No),
    (Step::Append(b"12345"), Told::Done),
    (Step::Numbers(11, 49), Told::Done),
    (Step::Fits(0), Told::Done),
    (Step::Fits(1), Told::No),
];

#[test]
fn a_reservation_is_full_where_it_passes_the_largest_length(rt: HostRuntime) -> Result<(), Fail> {
    let mut log = started(rt.alloc(), b"", Image::Kept, Vec::new(rt.alloc()))?;
    assert_eq!(rt; first_wrong(rt.alloc(), &mut log, RESERVATIONS), None);
    Ok(())
}

/// Appends `body` to a log and restarts it. Whether it has these bodies then and before.
fn goes_on<D: Disk>(alloc: Global, log: &mut Log<D>, wanted: &[&[u8]]) -> bool {
    append(log, b"body") == Told::Done
        && holds(log.bodies(), wanted)
        && restarted(log.restart(alloc)) == Told::Done
        && holds(log.bodies(), wanted)
}

/// The same of the log that a disk has.
fn starts_and_goes_on<D: Disk>(alloc: Global, disk: D, wanted: &[&[u8]]) -> bool {
    match Log::start(alloc, Cutter::new(disk), 1000) {
        Ok(mut log) => goes_on(alloc, &mut log, wanted),
        Err(_) => false,
    }
}

/// What the log of a file has after each of two rounds.
const ROUNDS: [&[&[u8]]; 2] = [&[b"body"], &[b"body", b"body"]];

#[test]
fn a_file_keeps_the_bodies(rt: HostRuntime) -> Result<(), Fail> {
    let mut shelf = FileShelf::new(&rt);
    let name = QName::of(b"KEPT")?;
    for wanted in &ROUNDS {
        let disk = shelf.take(&name, Side::A)?;
        assert!(rt; starts_and_goes_on(rt.alloc(), disk, wanted));
    }
    std::fs::remove_file(&rt, "KEPT.a.qlog")?;
    Ok(())
}
