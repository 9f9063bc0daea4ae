//! Refusals of commands, first starts and restarts, and how an inner call ends without its answer.

use mq_disk::Stop;
use mq_disk::below::Items;
use mq_resolve::below::Keyword;

/// The lines that a command shows; none but for DISPLAY.
#[derive(Drop)]
pub struct Shown {
    pub lines: Items<Items<u8>>,
}

/// Why a command on objects is refused, in the order in which the causes are tried.
#[derive(Clone, Copy)]
pub enum ScRefusal {
    /// The manager is down.
    Down,
    Exists,
    Missing,
    BadValue(Keyword),
    InUse,
    NotEmpty,
    NoMemory,
    Disk,
    Cut,
}

/// Why a restart is refused.
#[derive(Clone, Copy)]
pub enum RestartFault {
    Up,
    Disk,
    Cut,
    /// The bytes are no log of this manager; the place of the gate at fault.
    BadLog(u64),
    NoMemory,
}

/// Why a first start is refused.
#[derive(Clone, Copy)]
pub enum BeginFault {
    Disk,
    /// The bytes are no log of this manager; the place of the gate at fault.
    BadLog(u64),
    NoMemory,
}

/// Whether a restart found the body of the write that was stopped.
#[derive(Clone, Copy)]
pub struct Kept {
    pub kept: bool,
}

/// How an inner call ends without its answer: it is refused, it finds no memory, or its forced
/// write was stopped.
#[derive(Clone, Copy)]
pub enum Halt<F> {
    Refused(F),
    NoMemory,
    Stopped(Stop),
}
