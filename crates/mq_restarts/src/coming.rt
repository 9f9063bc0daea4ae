//! A manager that is down comes up from what its log tells, whatever that is.
ghost use Rattle.std.specs.Prelude.{◌≡◌, ◌+◌, ◌^◌, ◌<◌, false, Some, MatchResult};
ghost use Rattle.mq_restart.specs.Begun.{IsFresh};
ghost use Rattle.mq_restart.specs.Raised.{read_fault};
ghost use Rattle.mq_restarts.specs.Comings.{ComesOwn, ComesFar, StaysOwn, StaysFar, ComesBack, StaysBack};

use crate::images::{above, image_of};
use crate::raising::{reread, start_from};
use crate::reading::{is_foreign, read_found};
use mq_calls::{Image, RestartFault};
use mq_disk::Disk;
use mq_log::Found;
use mq_restart::below::{Parts, RecoverFault};
use mq_restart::{LogRead, Unraised};
use mq_told::LogTold;

/// What a restart found that came up, and the image of a log that was changed from outside.
#[derive(Drop)]
pub(crate) struct Coming {
    pub found: Found,
    /// The log's length in bytes, as it was read.
    pub length: u64,
    /// What the log told, where it was changed from outside.
    pub image: Option<Image>,
}

fn read_fault(fault: RecoverFault) -> RestartFault
    ensures { result ≡ read_fault fault }
{
    match fault {
        RecoverFault::BadRecord(place) => RestartFault::BadLog(place),
        RecoverFault::NoMemory => RestartFault::NoMemory,
    }
}

fn unread(fault: RecoverFault, found: Found) -> Unraised
    ensures { result ≡ record { fault = read_fault fault; found = Some found; in_write = false } }
{
    let fault = read_fault(fault);
    Unraised {
        fault,
        found: Some(found),
        in_write: false,
    }
}

/// A manager comes up from its own log.
fn come_own<D: Disk>(
    parts: &mut Parts<D>,
    told: &mut Option<LogTold>,
    found: Found,
) -> Result<(), Unraised>
    requires fresh { IsFresh parts.old.log.max parts.old.log }
    ensures { MatchResult result (λ _. ComesOwn parts.old parts.new) (λ e. StaysOwn found parts.old e parts.new) }
{
    let image = match image_of(parts, told) {
        Ok(image) => image,
        Err(fault) => return Err(unread(fault, found)),
    };
    start_from(parts, image, found)
}

/// A manager comes up from a log that was changed from outside, in an incarnation above the first of those that it can't have begun
/// itself; the image that it took, with the incarnation in front of its own.
fn come_far<D: Disk>(
    parts: &mut Parts<D>,
    told: &mut Option<LogTold>,
    found: Found,
    least: u64,
) -> Result<Image, Unraised>
    requires fresh { IsFresh parts.old.log.max parts.old.log }
    requires low { least + 1 < 2 ^ 61 }
    ensures { MatchResult result (λ i. ComesFar least parts.old i parts.new) (λ e. StaysFar least found parts.old e parts.new) }
{
    let image = match image_of(parts, told) {
        Ok(image) => image,
        Err(fault) => return Err(unread(fault, found)),
    };
    let copy = match image_of(parts, told) {
        Ok(copy) => copy,
        Err(fault) => return Err(unread(fault, found)),
    };
    match start_from(parts, above(image, least), found) {
        Ok(()) => Ok(above(copy, least)),
        Err(e) => Err(e),
    }
}

/// A manager that is down reads its log again and comes up from it, or stays down.
///
/// # Errors
///
/// What stopped its disk, the place of the gate at fault, or no memory; and how far it came. All but the log is as it was.
pub(crate) fn come_back<D: Disk>(
    parts: &mut Parts<D>,
    told: &mut Option<LogTold>,
    read: LogRead,
    least: u64,
) -> Result<Coming, Unraised>
    requires low { least + 1 < 2 ^ 61 }
    ensures { MatchResult result (λ c. ComesBack D.tells read least parts.old c parts.new) (λ e. StaysBack D.tells read least parts.old e parts.new) }
{
    let found = match reread(parts) {
        Ok(found) => found,
        Err(e) => return Err(e),
    };
    let length = parts.log.len();
    if is_foreign(read_found(read, found)) {
        match come_far(parts, told, found, least) {
            Ok(image) => Ok(Coming {
                found,
                length,
                image: Some(image),
            }),
            Err(e) => Err(e),
        }
    } else {
        match come_own(parts, told, found) {
            Ok(()) => Ok(Coming {
                found,
                length,
                image: None,
            }),
            Err(e) => Err(e),
        }
    }
}
