//! A manager that is down reads its log again, and its Started record is forced behind what was built.
ghost use Rattle.std.specs.Prelude.{◌≡◌, ◌+◌, ◌^◌, ◌<◌, Some, MatchResult};
ghost use Rattle.mq_restart.specs.Begun.{IsFresh};
ghost use Rattle.mq_restart.specs.Raised.{raised_parts, start_fault, stop_fault, Fell, IsRaised, IsUnraised};
ghost use Rattle.mq_calls.specs.Recovery.{IsImage};
ghost use Rattle.mq_restarts.specs.Comings.{IsReread, Rises, Halts};

use mq_base::{Items, NoMemory};
use mq_calls::{Image, RestartFault};
use mq_disk::{Disk, Stop};
use mq_log::{Found, StartFault};
use mq_restart::below::{Built, ChannelEnds, Live, Mode, Parts, build, started_bytes};
use mq_restart::{Unraised, make_room};

fn start_fault(fault: StartFault) -> RestartFault
    ensures { result ≡ start_fault fault }
{
    match fault {
        StartFault::Disk => RestartFault::Disk,
        StartFault::Cut => RestartFault::Cut,
        StartFault::BadLog(place) => RestartFault::BadLog(place),
        StartFault::NoMemory => RestartFault::NoMemory,
    }
}

fn stop_fault(stop: Stop) -> RestartFault
    ensures { result ≡ stop_fault stop }
{
    match stop {
        Stop::Cut => RestartFault::Cut,
        Stop::Disk => RestartFault::Disk,
    }
}

/// The log is read again.
///
/// # Errors
///
/// What stopped its disk, the place of the gate at fault, or no memory. All but the log is as it was.
pub(crate) fn reread<D: Disk>(parts: &mut Parts<D>) -> Result<Found, Unraised>
    ensures { MatchResult result (λ found. IsReread D.tells parts.old found parts.new) (λ e. Fell D.tells parts.old e parts.new) }
{
    let found = match parts.log.restart(parts.alloc) {
        Ok(found) => found,
        Err(fault) => {
            let fault = start_fault(fault);
            return Err(Unraised {
                fault,
                found: None,
                in_write: false,
            });
        }
    };
    Ok(found)
}

// The parts of a manager that was built take the place of those that were. It takes no memory.
fn come_up<D: Disk>(parts: &mut Parts<D>, built: Built)
    requires low { built.incarnation + 1 < 2 ^ 64 }
    ensures { parts.new ≡ raised_parts built parts.old }
{
    let Built {
        defs,
        queues,
        senders,
        receivers,
        bound,
        rows,
        incarnation,
    } = built;
    parts.mode = Mode::Up;
    parts.defs = defs;
    parts.queues = queues;
    parts.live = Live::new(parts.alloc);
    parts.ends = ChannelEnds {
        senders,
        receivers,
        seizures: Items::new(parts.alloc),
        batches: Items::new(parts.alloc),
        bound,
        rows,
    };
    parts.incarnation = incarnation + 1;
    parts.idents = 0;
}

/// The Started record of a manager that was built is forced, and it comes up.
fn start_built<D: Disk>(parts: &mut Parts<D>, built: Built, found: Found) -> Result<(), Unraised>
    requires low { built.incarnation + 1 < 2 ^ 64 }
    requires fresh { IsFresh parts.old.log.max parts.old.log }
    ensures found { MatchResult result (λ _. Unit {0}) (λ e. e.found ≡ Some found) }
    ensures raised { MatchResult result (λ _. IsRaised built parts.old parts.new) (λ e. IsUnraised built parts.old e parts.new) }
{
    match make_room(&mut parts.log, &built) {
        Ok(()) => {}
        Err(NoMemory) => {
            return Err(Unraised {
                fault: RestartFault::NoMemory,
                found: Some(found),
                in_write: false,
            });
        }
    }
    let record = started_bytes(parts.number, &parts.name, built.incarnation + 1);
    match parts.log.append_forced(&record) {
        Ok(()) => {
            come_up(parts, built);
            Ok(())
        }
        Err(stop) => {
            let fault = stop_fault(stop);
            Err(Unraised {
                fault,
                found: Some(found),
                in_write: true,
            })
        }
    }
}

/// A manager comes up from an image, with its Started record behind the bodies of its log.
///
/// # Errors
///
/// The write was stopped, or there was no memory. All but the log is as it was.
pub(crate) fn start_from<D: Disk>(
    parts: &mut Parts<D>,
    image: Image,
    found: Found,
) -> Result<(), Unraised>
    requires well { IsImage image }
    requires low { image.incarnation + 1 < 2 ^ 64 }
    requires fresh { IsFresh parts.old.log.max parts.old.log }
    ensures found { MatchResult result (λ _. Unit {0}) (λ e. e.found ≡ Some found) }
    ensures ends { MatchResult result (λ _. Rises parts.old image parts.new) (λ e. Halts parts.old image e parts.new) }
{
    let built = match build(parts.alloc, image) {
        Ok(built) => built,
        Err(_) => {
            return Err(Unraised {
                fault: RestartFault::NoMemory,
                found: Some(found),
                in_write: false,
            });
        }
    };
    start_built(parts, built, found)
}
