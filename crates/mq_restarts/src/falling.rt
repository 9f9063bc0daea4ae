//! What a restart that is refused leaves.
ghost use Rattle.std.specs.Prelude.{◌≡◌, ◌+◌, ◌^◌, ◌<◌};
ghost use Rattle.mq_restart.specs.Falls.{fallen_mode, read_noted, left_by, fallen, starts_of};

use crate::reading::{is_kept, read_found};
use mq_calls::RestartFault;
use mq_disk::Disk;
use mq_log::Found;
use mq_restart::below::{Mode, Parts, ReadLog};
use mq_restart::{LogRead, Unraised};

fn fallen_mode(mode: Mode, read: Option<ReadLog>, in_write: bool) -> Mode
    requires few { starts_of mode + 1 < 2 ^ 64 }
    ensures { result ≡ fallen_mode read in_write mode }
{
    match mode {
        Mode::Up => Mode::Up,
        Mode::Down {
            write,
            starts,
            read: old,
        } => Mode::Down {
            write,
            starts: if in_write { starts + 1 } else { starts },
            read: match read {
                None => old,
                Some(read) => Some(read),
            },
        },
    }
}

fn read_noted(read: LogRead, length: u64, found: Option<Found>) -> Option<ReadLog>
    ensures { result ≡ read_noted read length found }
{
    match found {
        None => None,
        Some(found) => Some(ReadLog {
            kept: is_kept(read_found(read, found)),
            length,
        }),
    }
}

fn left_by(fault: RestartFault, armed: u32, left: u32) -> u32
    ensures { result ≡ left_by fault armed left }
{
    match fault {
        RestartFault::NoMemory => armed,
        RestartFault::Up => left,
        RestartFault::Disk => left,
        RestartFault::Cut => left,
        RestartFault::BadLog(_) => left,
    }
}

/// Notes what a restart that was refused has read, and whether its Started record was stopped; where there was no memory, the
/// cut is armed again as it was.
pub(crate) fn fall<D: Disk>(
    parts: &mut Parts<D>,
    read: LogRead,
    length: u64,
    armed: u32,
    e: &Unraised,
)
    requires few { starts_of parts.old.mode + 1 < 2 ^ 64 }
    ensures { parts.new ≡ fallen read length armed e.now parts.old }
{
    let mode = std::mem::replace(&mut parts.mode, Mode::Up);
    parts.mode = fallen_mode(mode, read_noted(read, length, e.found), e.in_write);
    let left = left_by(e.fault, armed, parts.log.armed());
    parts.log.arm(left);
}
