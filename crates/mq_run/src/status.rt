//! How a call of the program ends.
ghost use Rattle.std.specs.Prelude.{◌≡◌};
ghost use Rattle.mq_run.specs.Words as terms;

use mq_ending::{BadLog, Verdict};
use mq_history::{Apart, Conflict};
use mq_nodes::Stop;
use mq_scn_lines::Limit;
use mq_scn_text::Cause;
use mq_world::below::NetFault;

/// Why a line can't stand in a scenario.
#[derive(Clone, Copy)]
pub enum BadCause {
    /// By itself, or where it stands.
    Line(Cause),
    /// It passes a limit.
    Limit(Limit),
}

/// How a call of the program ended. Those that come as they are met, before all else is done, write nothing.
#[derive(Clone, Copy)]
pub enum Status {
    /// All was done and written.
    Ok,
    /// The words ask for nothing that the program does.
    BadWords,
    /// The bytes are no scenario: the first line that can't stand in one, counted from 1, and why.
    BadScenario(u32, BadCause),
    /// The source failed.
    ReadFault,
    /// The sink failed after so many bytes.
    WriteFault(u64),
    /// A disk failed, or the shelf.
    DiskFault,
    /// There was no memory.
    NoMemory,
    /// The source gave more than 1,048,576 bytes.
    TooLong,
    /// An operator settled a unit in doubt, and its receiver doesn't bear that out.
    Conflict(Conflict),
    /// The bytes that a start or a restart read are no log of that manager: the first such one.
    BadLog(BadLog),
    /// The managers' logs, each good, don't belong together.
    Apart(Apart),
    /// This manager, a place in the scenario from 0, made its last event.
    Spent(u16),
}

impl Status {
    /// The exit status of the program.
    pub fn number(&self) -> u8
        ensures { result ≡ terms.status_number self.now }
    {
        match self {
            Status::Ok => 0,
            Status::BadWords => 1,
            Status::BadScenario(_, _) => 2,
            Status::ReadFault => 3,
            Status::WriteFault(_) => 4,
            Status::DiskFault => 5,
            Status::NoMemory => 6,
            Status::TooLong => 7,
            Status::Conflict(_) => 8,
            Status::BadLog(_) => 9,
            Status::Apart(_) => 10,
            Status::Spent(_) => 11,
        }
    }
}

impl Status {
    /// What is told of it where no line of the input is.
    pub fn words(&self) -> &'static str {
        match self {
            Status::Ok => "all was done and written",
            Status::BadWords =>
                "usage: mqnet run < SCENARIO, or mqnet check < SCENARIO, or mqnet soak N with N from 1 to 1000",
            Status::BadScenario(_, _) => "the input is no scenario",
            Status::ReadFault => "the input can't be read",
            Status::WriteFault(_) => "the output can't be written",
            Status::DiskFault => "a file of a manager's log can't be read or written",
            Status::NoMemory => "memory ran out",
            Status::TooLong => "the input has more than 1,048,576 bytes",
            Status::Conflict(_) =>
                "an operator settled a unit in doubt otherwise than its receiver did",
            Status::BadLog(_) => "the file of a manager is no log of it",
            Status::Apart(_) => "the logs of the managers don't belong together",
            Status::Spent(_) => "a manager has made all events that it can count",
        }
    }
}

/// How a run ends that was done whole, and whose report is written.
pub fn verdict_status(verdict: &Verdict) -> Status
    ensures { result ≡ terms.verdict_status verdict.now }
{
    match verdict {
        Verdict::Whole => Status::Ok,
        Verdict::Conflict(found) => Status::Conflict(*found),
        Verdict::DiskFault => Status::DiskFault,
        Verdict::BadLog(bad) => Status::BadLog(*bad),
    }
}

/// How one ends whose managers were not begun.
pub fn net_status(fault: NetFault) -> Status
    ensures { result ≡ terms.net_status fault }
{
    match fault {
        NetFault::DiskFault => Status::DiskFault,
        NetFault::BadLog(manager, gate) => Status::BadLog(BadLog { manager, gate }),
        NetFault::NoMemory => Status::NoMemory,
    }
}

/// How one ends that was broken off within its steps.
pub fn stop_status(stop: Stop) -> Status
    ensures { result ≡ terms.stop_status stop }
{
    match stop {
        Stop::NoMemory => Status::NoMemory,
        Stop::Spent(manager) => Status::Spent(manager),
    }
}
