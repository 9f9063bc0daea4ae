//! mq_disk: disks in memory and as files, fuses, cuts and shelves.

use mq_base::QName;
use mq_disk::{
    Cutter, Disk, Failed, FileDisk, FileShelf, Fuse, Image, MemDisk, MemShelf, Shelf, Side, Stop,
    TakeFault,
};
use std::alloc::Global;
use std::process::Abort;
use std::test::*;

/// A call of a disk, or a question about it.
enum Step {
    Write(u64, &'static [u8]),
    Cut(u64),
    Sync,
    Restart,
    /// Is this its length?
    Len(u64),
    /// Are these its bytes?
    Holds(&'static [u8]),
}

/// What comes of a step.
#[derive(Clone, Copy, PartialEq)]
enum Told {
    /// The call was made, and the answer to the question is yes.
    Done,
    /// The disk failed.
    Failed,
    /// A cut stopped the call.
    Cut,
    /// The answer is no, or no disk takes this step.
    No,
}

fn done(answer: Result<(), Failed>) -> Told {
    match answer {
        Ok(()) => Told::Done,
        Err(_) => Told::Failed,
    }
}

fn asked(answer: bool) -> Told {
    if answer { Told::Done } else { Told::No }
}

fn told_len(answer: Result<u64, Failed>, wanted: u64) -> Told {
    match answer {
        Ok(len) => asked(len == wanted),
        Err(_) => Told::Failed,
    }
}

fn write(disk: &mut MemDisk, place: u64, bytes: &[u8]) -> Told {
    if place <= disk.bytes().len() as u64 {
        done(disk.write_at(place, bytes))
    } else {
        Told::No
    }
}

fn cut(disk: &mut MemDisk, len: u64) -> Told {
    if len <= disk.bytes().len() as u64 {
        done(disk.cut(len))
    } else {
        Told::No
    }
}

fn holds(disk: &MemDisk, bytes: &[u8]) -> bool {
    disk.bytes() == bytes
}

fn take_step(disk: &mut MemDisk, step: &Step) -> Told {
    match step {
        Step::Write(place, bytes) => write(disk, *place, bytes),
        Step::Cut(len) => cut(disk, *len),
        Step::Sync => done(disk.sync()),
        Step::Restart => done(disk.restart()),
        Step::Len(wanted) => told_len(disk.len(), *wanted),
        Step::Holds(bytes) => asked(holds(disk, bytes)),
    }
}

/// The first step, from 0, of which something else comes.
fn first_wrong(disk: &mut MemDisk, steps: &[(Step, Told)]) -> Option<usize> {
    for (place, (step, wanted)) in steps.iter().enumerate() {
        if take_step(disk, step) != *wanted {
            return Some(place);
        }
    }
    None
}

/// What a restart leaves, and steps of a disk `abc` with room for seven bytes.
type Row = (Image, &'static [(Step, Told)]);

fn all_come(rt: &impl Abort, alloc: Global, rows: &[Row]) -> Result<(), Fail> {
    for (image, steps) in rows {
        let mut disk = MemDisk::new(alloc, b"abc", 7, *image, Vec::new(alloc))?;
        let wrong = first_wrong(&mut disk, steps);
        assert!(rt; wrong.is_none(), "{image:?}: step {wrong:?}");
    }
    Ok(())
}

const WRITES: [Row; 3] = [
    (
        Image::Kept,
        &[
            (Step::Write(3, b"defg"), Told::Done),
            (Step::Holds(b"abcdefg"), Told::Done),
            (Step::Restart, Told::Done),
            (Step::Holds(b"abcdefg"), Told::Done),
        ],
    ),
    (
        Image::Lost,
        &[
            (Step::Write(3, b"defg"), Told::Done),
            (Step::Holds(b"abcdefg"), Told::Done),
            (Step::Restart, Told::Done),
            (Step::Holds(b"abc"), Told::Done),
        ],
    ),
    (
        Image::Torn,
        &[
            (Step::Write(3, b"defg"), Told::Done),
            (Step::Holds(b"abcdefg"), Told::Done),
            (Step::Restart, Told::Done),
            (Step::Holds(b"abcde"), Told::Done),
        ],
    ),
];

#[test]
fn a_restart_leaves_the_image_of_a_write(rt: HostRuntime) -> Result<(), Fail> {
    all_come(&rt, rt.alloc(), &WRITES)
}

const CUTS: [Row; 3] = [
    (
        Image::Kept,
        &[
            (Step::Cut(1), Told::Done),
            (Step::Restart, Told::Done),
            (Step::Holds(b"a"), Told::Done),
        ],
    ),
    (
        Image::Lost,
        &[
            (Step::Cut(1), Told::Done),
            (Step::Restart, Told::Done),
            (Step::Holds(b"abc"), Told::Done),
        ],
    ),
    (
        Image::Torn,
        &[
            (Step::Cut(1), Told::Done),
            (Step::Restart, Told::Done),
            (Step::Holds(b"a"), Told::Done),
        ],
    ),
];

#[test]
fn a_restart_leaves_the_image_of_a_cut(rt: HostRuntime) -> Result<(), Fail> {
    all_come(&rt, rt.alloc(), &CUTS)
}

const SYNCED: &[(Step, Told)] = &[
    (Step::Write(1, b"xy"), Told::Done),
    (Step::Sync, Told::Done),
    (Step::Restart, Told::Done),
    (Step::Holds(b"axy"), Told::Done),
];

#[test]
fn a_restart_keeps_what_was_synced(rt: HostRuntime) -> Result<(), Fail> {
    all_come(
        &rt,
        rt.alloc(),
        &[
            (Image::Kept, SYNCED),
            (Image::Lost, SYNCED),
            (Image::Torn, SYNCED),
        ],
    )
}

const LISTED: &[(Step, Told)] = &[
    (Step::Write(0, b"abcd"), Told::Done),
    (Step::Sync, Told::Failed),
    (Step::Write(4, b"e"), Told::Failed),
    (Step::Len(4), Told::Failed),
    (Step::Len(4), Told::Done),
];

#[test]
fn the_listed_calls_and_a_write_past_the_room_fail(rt: HostRuntime) -> Result<(), Fail> {
    let failing = vec![in rt.alloc(); 1, 3]?;
    let mut disk = MemDisk::new(rt.alloc(), b"", 4, Image::Kept, failing)?;
    assert_eq!(rt; first_wrong(&mut disk, LISTED), None);
    Ok(())
}

/// A call of a disk behind a cut, or a question about it.
enum CutStep {
    Arm(u32),
    /// A write at its begin.
    Write(&'static [u8]),
    Sync,
    Restart,
    /// Is this its length?
    Len(u64),
    /// Is it armed for this call from now?
    Armed(u32),
}

fn passed(answer: Result<(), Stop>) -> Told {
    match answer {
        Ok(()) => Told::Done,
        Err(Stop::Cut) => Told::Cut,
        Err(Stop::Disk) => Told::Failed,
    }
}

fn passed_len(answer: Result<u64, Stop>, wanted: u64) -> Told {
    match answer {
        Ok(len) => asked(len == wanted),
        Err(Stop::Cut) => Told::Cut,
        Err(Stop::Disk) => Told::Failed,
    }
}

fn arm(disk: &mut Cutter<MemDisk>, k: u32) -> Told {
    disk.arm(k);
    Told::Done
}

fn take_cut_step(disk: &mut Cutter<MemDisk>, step: &CutStep) -> Told {
    match step {
        CutStep::Arm(k) => arm(disk, *k),
        CutStep::Write(bytes) => passed(disk.write_at(0, bytes)),
        CutStep::Sync => passed(disk.sync()),
        CutStep::Restart => done(disk.restart()),
        CutStep::Len(wanted) => passed_len(disk.len(), *wanted),
        CutStep::Armed(wanted) => asked(disk.armed() == *wanted),
    }
}

fn first_wrong_cut(disk: &mut Cutter<MemDisk>, steps: &[(CutStep, Told)]) -> Option<usize> {
    for (place, (step, wanted)) in steps.iter().enumerate() {
        if take_cut_step(disk, step) != *wanted {
            return Some(place);
        }
    }
    None
}

/// Steps of an empty disk behind a cut that is armed for no call, and for each of the first three.
const STOPPED: [&[(CutStep, Told)]; 4] = [
    &[
        (CutStep::Arm(0), Told::Done),
        (CutStep::Write(b"ab"), Told::Done),
        (CutStep::Len(2), Told::Done),
        (CutStep::Sync, Told::Done),
        (CutStep::Armed(0), Told::Done),
        (CutStep::Restart, Told::Done),
        (CutStep::Sync, Told::Done),
    ],
    &[
        (CutStep::Arm(1), Told::Done),
        (CutStep::Write(b"ab"), Told::Cut),
        (CutStep::Len(2), Told::Cut),
        (CutStep::Sync, Told::Cut),
        (CutStep::Armed(0), Told::Done),
        (CutStep::Restart, Told::Done),
        (CutStep::Sync, Told::Done),
    ],
    &[
        (CutStep::Arm(2), Told::Done),
        (CutStep::Write(b"ab"), Told::Done),
        (CutStep::Len(2), Told::Done),
        (CutStep::Sync, Told::Cut),
        (CutStep::Armed(0), Told::Done),
        (CutStep::Restart, Told::Done),
        (CutStep::Sync, Told::Done),
    ],
    &[
        (CutStep::Arm(3), Told::Done),
        (CutStep::Write(b"ab"), Told::Done),
        (CutStep::Len(2), Told::Done),
        (CutStep::Sync, Told::Done),
        (CutStep::Armed(1), Told::Done),
        (CutStep::Restart, Told::Done),
        (CutStep::Sync, Told::Cut),
    ],
];

#[test]
fn a_cut_stops_the_armed_call_and_those_after_it(rt: HostRuntime) -> Result<(), Fail> {
    for (k, steps) in STOPPED.iter().enumerate() {
        let disk = MemDisk::new(rt.alloc(), b"", 4, Image::Kept, Vec::new(rt.alloc()))?;
        let mut disk = Cutter::new(disk);
        let wrong = first_wrong_cut(&mut disk, steps);
        assert!(rt; wrong.is_none(), "armed {k}: step {wrong:?}");
    }
    Ok(())
}

/// A call of a disk behind a fuse, or a question about it.
enum FuseStep {
    /// Is this its length?
    Len(u64),
    /// Is this its first byte?
    First(u8),
    Sync,
    /// All bytes are cut off.
    Empty,
    Restart,
    /// Is the disk behind it empty?
    IsEmpty,
}

fn told_first(disk: &mut Fuse<MemDisk>, wanted: u8) -> Told {
    if disk.inner().bytes().len() == 0 {
        return Told::No;
    }
    let mut first = [0u8; 1];
    match disk.read_at(0, &mut first) {
        Ok(()) => asked(first == [wanted]),
        Err(_) => Told::Failed,
    }
}

fn take_fuse_step(disk: &mut Fuse<MemDisk>, step: &FuseStep) -> Told {
    match step {
        FuseStep::Len(wanted) => told_len(disk.len(), *wanted),
        FuseStep::First(wanted) => told_first(disk, *wanted),
        FuseStep::Sync => done(disk.sync()),
        FuseStep::Empty => done(disk.cut(0)),
        FuseStep::Restart => done(disk.restart()),
        FuseStep::IsEmpty => asked(disk.inner().bytes().is_empty()),
    }
}

/// Steps of a disk `abc` behind a fuse for two calls.
const BLOWN: [(FuseStep, Told); 7] = [
    (FuseStep::Len(3), Told::Done),
    (FuseStep::First(b'a'), Told::Done),
    (FuseStep::Sync, Told::Failed),
    (FuseStep::Empty, Told::Failed),
    (FuseStep::Restart, Told::Done),
    (FuseStep::Empty, Told::Done),
    (FuseStep::IsEmpty, Told::Done),
];

#[test]
fn a_fuse_blows_and_a_restart_mends_it(rt: HostRuntime) -> Result<(), Fail> {
    let disk = MemDisk::new(rt.alloc(), b"abc", 3, Image::Kept, Vec::new(rt.alloc()))?;
    let mut disk = Fuse::new(disk, 2);
    for (place, (step, wanted)) in BLOWN.iter().enumerate() {
        assert!(rt; take_fuse_step(&mut disk, step) == *wanted, "step {place}");
    }
    Ok(())
}

fn name_of(text: &[u8]) -> QName {
    QName::of(text).unwrap_or(QName::blank())
}

/// Puts a disk with one byte on a shelf.
fn put(
    alloc: Global,
    shelf: &mut MemShelf<MemDisk>,
    name: &[u8],
    side: Side,
    bytes: &[u8],
) -> Result<(), Fail> {
    let disk = MemDisk::new(alloc, bytes, 1, Image::Kept, Vec::new(alloc))?;
    shelf.put(name_of(name), side, disk)?;
    Ok(())
}

/// A shelf of three disks, of which the fourth take fails.
fn three(alloc: Global) -> Result<MemShelf<MemDisk>, Fail> {
    let mut shelf = MemShelf::new(alloc, vec![in alloc; 3]?);
    put(alloc, &mut shelf, b"ROME", Side::B, b"1")?;
    put(alloc, &mut shelf, b"PARIS", Side::A, b"2")?;
    put(alloc, &mut shelf, b"ROME", Side::A, b"3")?;
    Ok(shelf)
}

/// Takes of this shelf, and the bytes of the disk that is had; none where the take fails.
const TAKES: [(&[u8], Side, Option<&[u8]>); 5] = [
    (b"ROME", Side::A, Some(b"3")),
    (b"ROME", Side::A, None),
    (b"ROME", Side::B, Some(b"1")),
    (b"PARIS", Side::A, None),
    (b"PARIS", Side::A, Some(b"2")),
];

/// Whether a take comes out so.
fn is_taken(shelf: &mut MemShelf<MemDisk>, name: &[u8], side: Side, wanted: Option<&[u8]>) -> bool {
    match (shelf.take(&name_of(name), side), wanted) {
        (Ok(disk), Some(bytes)) => disk.bytes() == bytes,
        (Err(TakeFault::Failed), None) => true,
        _ => false,
    }
}

#[test]
fn a_shelf_gives_each_disk_once(rt: HostRuntime) -> Result<(), Fail> {
    let mut shelf = three(rt.alloc())?;
    for (place, (name, side, wanted)) in TAKES.iter().enumerate() {
        assert!(rt; is_taken(&mut shelf, name, *side, *wanted), "take {place}");
    }
    Ok(())
}

/// Leaves `axyz` on an empty disk.
fn write_twice(disk: &mut impl Disk) -> Result<(), Failed> {
    disk.cut(0)?;
    disk.write_at(0, b"abc")?;
    disk.write_at(1, b"xyz")?;
    disk.sync()
}

/// The bytes of a disk, where they are four.
fn four(disk: &mut FileDisk) -> Result<Option<[u8; 4]>, Failed> {
    if disk.len()? != 4 {
        return Ok(None);
    }
    let mut all = [0u8; 4];
    disk.read_at(0, &mut all)?;
    Ok(Some(all))
}

#[test]
fn a_file_keeps_what_was_written(rt: HostRuntime) -> Result<(), Fail> {
    let mut shelf = FileShelf::new(&rt);
    let mut disk = shelf.take(&QName::of(b"LON/DON")?, Side::A)?;
    write_twice(&mut disk)?;
    disk.restart()?;
    assert_eq!(rt; four(&mut disk)?, Some(*b"axyz"));
    let text = std::fs::read_to_string(&rt, "LON&DON.a.qlog")?;
    assert_eq!(rt; text.as_str(), "axyz");
    std::fs::remove_file(&rt, "LON&DON.a.qlog")?;
    Ok(())
}

/// Leaves `ab` on a disk.
fn write_and_cut(disk: &mut impl Disk) -> Result<(), Failed> {
    disk.cut(0)?;
    disk.write_at(0, b"abcd")?;
    disk.cut(2)?;
    disk.sync()
}

#[test]
fn a_file_that_was_cut_is_taken_again_as_it_is(rt: HostRuntime) -> Result<(), Fail> {
    let mut shelf = FileShelf::new(&rt);
    let name = QName::of(b"PARIS")?;
    let mut disk = shelf.take(&name, Side::B)?;
    write_and_cut(&mut disk)?;
    assert_eq!(rt; shelf.take(&name, Side::B)?.len(), Ok(2));
    std::fs::remove_file(&rt, "PARIS.b.qlog")?;
    Ok(())
}
