//! What a manager's state and a call leave open (this project's choice).

use crate::commands::RestartFault;
use mq_disk::Stop;

/// What a manager's state and a call leave open. Only these come from outside.
#[derive(Clone, Copy)]
pub enum Choice {
    /// Memory was there, and each forced write was made.
    Runs,
    /// There was no memory.
    NoMemory,
    /// A forced write was stopped: by what, the how manieth part of the call it belongs to, from 0,
    /// and how many device calls are left before an armed cut, 0 for none.
    Stopped { by: Stop, part: u32, left: u32 },
}

/// How a restart ends.
#[derive(Clone, Copy)]
pub enum Return {
    /// It comes up: the stopped write was found or not, and so many Started records of restarts
    /// that were stopped themselves.
    Comes {
        kept: bool,
        started: u64,
    },
    /// It is refused, in its own Started write or before it, with so many device calls left before
    /// an armed cut.
    Fails {
        fault: RestartFault,
        in_write: bool,
        left: u32,
    },
}
