//! What a story says of its run: a conflict, a disk that failed, a log that was bad, or nothing of these.
ghost use Rattle.std.specs.Prelude.{◌≡◌, ◌<◌, length};
ghost use Rattle.std.specs.List.{list_any};
ghost use Rattle.mq_story.specs.Spots.{line_at, lines_of};
ghost use Rattle.mq_ending.specs.Verdicts.{acted_disk, any_disk, bad_acted, bad_of, bad_place, disk_at, first_bad, first_bad_at, op_disk, sc_disk, start_bad, start_disk, tells_disk, verdict, verdict_number};

use mq_calls::{RestartFault, ScRefusal};
use mq_disk::Stop;
use mq_history::{Acted, Conflict, History, OpRefusal, Reply, Scenario};
use mq_net_ledger::below::conflict;
use mq_story::{Spot, entry_at};

/// Bytes that are no log of a manager.
#[derive(Clone, Copy)]
pub struct BadLog {
    /// The manager's place in the scenario, from 0.
    pub manager: u16,
    /// The place of the gate at fault, in bytes.
    pub gate: u64,
}

/// What a story says of its run, the first of these that holds.
#[derive(Clone, Copy)]
pub enum Verdict {
    /// An operator settled a unit in doubt, and its receiver doesn't bear that out: the first such settlement.
    Conflict(Conflict),
    /// A disk failed.
    DiskFault,
    /// The bytes that a restart read are no log of its manager: the first such restart.
    BadLog(BadLog),
    /// None of these.
    Whole,
}

impl Verdict {
    /// The status that the report tells.
    pub fn number(&self) -> u8
        ensures { result ≡ verdict_number self.now }
    {
        match self {
            Verdict::Conflict(_) => 8,
            Verdict::DiskFault => 5,
            Verdict::BadLog(_) => 9,
            Verdict::Whole => 0,
        }
    }
}

fn sc_disk(refusal: &ScRefusal) -> bool
    ensures { result ≡ sc_disk refusal.now }
{
    match refusal {
        ScRefusal::Disk => true,
        _ => false,
    }
}

fn op_disk(refusal: &OpRefusal) -> bool
    ensures { result ≡ op_disk refusal.now }
{
    match refusal {
        OpRefusal::Disk => true,
        _ => false,
    }
}

fn start_disk(fault: &RestartFault) -> bool
    ensures { result ≡ start_disk fault.now }
{
    match fault {
        RestartFault::Disk => true,
        _ => false,
    }
}

fn acted_disk(acted: &Acted) -> bool
    ensures { result ≡ acted_disk acted.now }
{
    match acted {
        Acted::Sc(refusal) => sc_disk(refusal),
        Acted::Op(refusal) => op_disk(refusal),
        Acted::Start(fault) => start_disk(fault),
        _ => false,
    }
}

/// Whether an answer tells of a disk that failed.
fn tells_disk(reply: &Reply) -> bool
    ensures { result ≡ tells_disk reply.now }
{
    match reply {
        Reply::Stopped(Stop::Disk) => true,
        Reply::Acted(acted) => acted_disk(acted),
        _ => false,
    }
}

fn start_bad(fault: &RestartFault) -> Option<u64>
    ensures { result ≡ start_bad fault.now }
{
    match fault {
        RestartFault::BadLog(place) => Some(*place),
        _ => None,
    }
}

fn bad_acted(acted: &Acted) -> Option<u64>
    ensures { result ≡ bad_acted acted.now }
{
    match acted {
        Acted::Start(fault) => start_bad(fault),
        _ => None,
    }
}

/// The gate at fault, where an answer tells of a log that is bad.
fn bad_place(reply: &Reply) -> Option<u64>
    ensures { result ≡ bad_place reply.now }
{
    match reply {
        Reply::Acted(acted) => bad_acted(acted),
        _ => None,
    }
}

#[tactic(auto, using(crate::proofs::VerdictLaws::disk_none, crate::proofs::VerdictLaws::disk_entry))]
fn disk_at(histories: &[History], spot: Spot) -> bool
    ensures { result ≡ disk_at histories.now spot }
{
    match entry_at(histories, spot) {
        None => false,
        Some(entry) => tells_disk(&entry.reply),
    }
}

fn any_disk_at(histories: &[History], spots: &[Spot]) -> bool
    ensures { result ≡ list_any (disk_at histories.now) spots.now }
{
    spots.iter().any(|spot| disk_at(histories, *spot))
}

/// Whether an entry of a story tells of a disk that failed.
fn any_disk(histories: &[History], spots: &[Spot]) -> bool
    ensures { result ≡ any_disk (lines_of histories.now spots.now) }
{
    any_disk_at(histories, spots)
}

fn bad_of(manager: usize, place: Option<u64>) -> Option<BadLog>
    requires { manager < 256 }
    ensures { result ≡ bad_of manager place }
{
    match place {
        None => None,
        Some(gate) => Some(BadLog {
            manager: manager as u16,
            gate,
        }),
    }
}

/// The log that the entry at a spot tells of, where it was bad.
#[tactic(auto, using(crate::proofs::VerdictLaws::bad_none, crate::proofs::VerdictLaws::bad_entry, crate::proofs::VerdictLaws::bad_far))]
fn bad_at(histories: &[History], spot: Spot) -> Option<BadLog>
    requires { length histories.now < 256 }
    ensures { result ≡ first_bad (line_at histories.now spot) }
{
    if spot.manager < histories.len() {
        match entry_at(histories, spot) {
            None => None,
            Some(entry) => bad_of(spot.manager, bad_place(&entry.reply)),
        }
    } else {
        None
    }
}

fn first_bad_at(histories: &[History], spots: &[Spot]) -> Option<BadLog>
    requires { length histories.now < 256 }
    ensures { result ≡ first_bad_at histories.now spots.now }
{
    for spot in spots {
        if let Some(bad) = bad_at(histories, *spot) {
            return Some(bad);
        }
    }
    None
}

/// The first log that a restart of a story found bad.
fn first_bad(histories: &[History], spots: &[Spot]) -> Option<BadLog>
    requires { length histories.now < 256 }
    ensures { result ≡ first_bad (lines_of histories.now spots.now) }
{
    first_bad_at(histories, spots)
}

/// What a story says of its run. It takes no memory.
pub fn verdict_of(scenario: &Scenario, histories: &[History], spots: &[Spot]) -> Verdict
    requires { length histories.now < 256 }
    ensures { result ≡ verdict scenario.now histories.now (lines_of histories.now spots.now) }
{
    if let Some(found) = conflict(scenario, histories, spots) {
        return Verdict::Conflict(found);
    }
    if any_disk(histories, spots) {
        return Verdict::DiskFault;
    }
    match first_bad(histories, spots) {
        Some(bad) => Verdict::BadLog(bad),
        None => Verdict::Whole,
    }
}
