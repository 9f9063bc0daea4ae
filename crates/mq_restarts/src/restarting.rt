//! The call `restart` of a queue manager.
ghost use Rattle.std.specs.Prelude.{◌≡◌, ◌-◌, [], None, false, if◌then◌else◌, MatchResult};
ghost use Rattle.mq_calls.specs.Words.{is_up};
ghost use Rattle.mq_restart.specs.from_redo.Redone.{redone_of};
ghost use Rattle.mq_restart.specs.Stands.{LogStands};
ghost use Rattle.mq_restart.specs.Returned.{Stayed, Passes};
ghost use Rattle.mq_restarts.specs.Comings.{IsFirstAbove};
ghost use Rattle.mq_restarts.specs.Backs.{IsBack};

use crate::coming::{Coming, come_back};
use crate::falling::fall;
use crate::reading::{
    cut_left, first_above, incarnation, is_kept, length_at_stop, read_fallen, read_found, read_up,
};
use mq_calls::{Image, RestartFault};
use mq_disk::Disk;
use mq_restart::below::{Core, Effects, tell_redone};
use mq_restart::{LogRead, Unreturned};
use mq_told::LogTold;

/// How a manager came up.
#[derive(Drop)]
pub enum Back {
    /// As its history says: with the write that was stopped or without it, behind so many Started records of restarts that were
    /// stopped themselves.
    Own {
        kept: bool,
        started: u64,
    },
    /// From a log that was changed from outside: what it took, the log's length in bytes then, and how many device calls are left
    /// before an armed cut, 0 for none.
    Foreign {
        image: Image,
        length: u64,
        left: u32,
    },
}

fn keep_if(effects: &mut Effects, kept: bool)
    ensures { effects.new.dids ≡ if kept then effects.old.dids else [] }
{
    if !kept {
        effects.clear();
    }
}

/// How many Started records of stopped restarts stand between two incarnations.
fn started_since(before: u64, now: u64) -> u64
    ensures { result ≡ now - before - 1 }
{
    now.saturating_sub(before).saturating_sub(1)
}

fn refused(fault: RestartFault, armed: u32) -> Unreturned
    ensures { result ≡ record { fault = fault; in_write = false; left = armed } }
{
    Unreturned {
        fault,
        in_write: false,
        left: armed,
    }
}

/// A manager that is down restarts; what a stopped write did is told already.
fn return_from<D: Disk>(
    core: &mut Core<D>,
    read: &mut LogRead,
    told: &mut Option<LogTold>,
    least: u64,
) -> Result<Back, Unreturned>
    requires down { is_up core.old.plain.running ≡ false }
    requires told { core.old.delta ≡ redone_of core.old.plain }
    requires unstopped { core.old.stopped ≡ None }
    requires stands { LogStands D.tells read.old core.old.log core.old.plain }
    requires least { IsFirstAbove least core.old.plain }
    ensures ends { MatchResult result (λ b. IsBack D.tells core.old.plain b core.new) (λ e. Stayed D.tells core.old.plain core.old.faults e core.new) }
    ensures stands { LogStands D.tells read.new core.new.log core.new.plain }
    ensures passes { Passes core.old core.new }
{
    let length = length_at_stop(&core.parts);
    let armed = cut_left(&core.parts);
    let before = incarnation(&core.parts);
    let coming = match come_back(&mut core.parts, told, *read, least) {
        Ok(coming) => coming,
        Err(e) => {
            fall(&mut core.parts, *read, length, armed, &e);
            *read = read_fallen(*read, e.found);
            core.effects.clear();
            let left = cut_left(&core.parts);
            return Err(Unreturned {
                fault: e.fault,
                in_write: e.in_write,
                left,
            });
        }
    };
    let Coming {
        found,
        length: long,
        image,
    } = coming;
    let known = read_found(*read, found);
    let now = incarnation(&core.parts);
    *read = read_up(known, now);
    match image {
        None => {
            let kept = is_kept(known);
            keep_if(&mut core.effects, kept);
            let started = started_since(before, now);
            Ok(Back::Own { kept, started })
        }
        Some(image) => {
            core.effects.clear();
            let left = cut_left(&core.parts);
            Ok(Back::Foreign {
                image,
                length: long,
                left,
            })
        }
    }
}

/// Restarts a manager that is down: it comes up from its log alone, as a first start does. Where the log holds the write that
/// was stopped, what that did is told. From a log that was changed from outside it goes on in an incarnation that its history
/// can't have begun, and the image that it took is handed out. What its log tells is kept with its bytes: where those are found again
/// at its beginning, the bodies behind them alone are read.
///
/// # Errors
///
/// `Up`, where it is up. `Disk`, only where the disk's count rose; `Cut`, at the armed device call; `BadLog`, with the place of the
/// gate at fault; `NoMemory`, also where a number has become so high that no restart would read it. It is then as before, but that
/// the calls made count for an armed cut; after `NoMemory` that is armed again as it was.
pub fn restart<D: Disk>(
    core: &mut Core<D>,
    read: &mut LogRead,
    told: &mut Option<LogTold>,
) -> Result<Back, Unreturned>
    requires stands { LogStands D.tells read.old core.old.log core.old.plain }
    ensures ends { MatchResult result (λ b. IsBack D.tells core.old.plain b core.new) (λ e. Stayed D.tells core.old.plain core.old.faults e core.new) }
    ensures stands { LogStands D.tells read.new core.new.log core.new.plain }
    ensures passes { Passes core.old core.new }
{
    core.begin_call();
    let armed = cut_left(&core.parts);
    if core.is_up() {
        return Err(refused(RestartFault::Up, armed));
    }
    let Some(least) = first_above(&core.parts) else {
        return Err(refused(RestartFault::NoMemory, armed));
    };
    if tell_redone(&core.parts, &mut core.effects).is_err() {
        core.effects.clear();
        return Err(refused(RestartFault::NoMemory, armed));
    }
    return_from(core, read, told, least)
}
