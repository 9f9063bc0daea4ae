//! What restarts read of a log, and how a restart ends.
use mq_calls::RestartFault;
use mq_log::Found;

/// What the restarts since the stop have read of the log of a manager that is down.
#[derive(Clone, Copy)]
pub enum LogRead {
    /// None has read it; so it is while the manager is up.
    Unread,
    /// One has, and the log holds the write that was stopped, or not.
    Known(bool),
    /// One has read a log that the manager's history does not allow: the bytes were changed from outside.
    Foreign,
}

/// How a manager came up.
#[derive(Clone, Copy)]
pub enum Returned {
    /// As its history says: with the write that was stopped or without it, behind so many Started records of restarts that were
    /// stopped themselves.
    Own { kept: bool, started: u64 },
    /// From other bytes, which were changed from outside.
    Foreign,
}

/// Why a manager did not come up.
#[derive(Clone, Copy)]
pub struct Unreturned {
    /// Why.
    pub fault: RestartFault,
    /// Whether its own Started record was being written.
    pub in_write: bool,
    /// How many device calls are left before an armed cut, 0 for none.
    pub left: u32,
}

/// Why a manager did not come up, and how far it came.
#[derive(Clone, Copy)]
pub struct Unraised {
    /// Why.
    pub fault: RestartFault,
    /// What its log was found to be, where it was read.
    pub found: Option<Found>,
    /// Whether its own Started record was being written.
    pub in_write: bool,
}
