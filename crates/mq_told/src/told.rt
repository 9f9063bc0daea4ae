//! What the log of a manager has told, kept with its bytes.
ghost use Rattle.std.specs.Prelude.{◌≡◌, ◌==◌, ◌&&◌, ℕ, List, IfSome, MatchResult};
ghost use Rattle.std.specs.Str.{bytes_eq};
ghost use Rattle.mq_log.specs.Bodies.{frames, AllFit};
ghost use Rattle.mq_recover.specs.Found.{given_as};
ghost use Rattle.mq_recover.specs.Recovering.{seen};
ghost use Rattle.mq_told.specs.Fronts.{HasTold, IsFront, Fails, TellsAll};

use crate::front::{Front, begin_with, behind, go_on, no_front};
use mq_base::QName;
use mq_recover::RecoverFault;
use std::alloc::Global;
use std::marker::Model;

/// What the log of a manager has told, kept with its bytes: so that a later restart, which finds these bytes at the beginning of
/// its log, reads the bodies behind them alone. Contracts see nothing of it.
#[derive(Drop)]
pub struct LogTold {
    manager: u8,
    name: QName,
    front: Front,
}

impl Model for LogTold {
    ghost use Rattle.mq_recover.specs.Recovering.{seen};
    ghost use Rattle.mq_recover.specs.Found.{given_as};
    ghost use Rattle.mq_told.specs.Fronts.{HasTold};

    ghost Value = { Unit {0} };

    ghost view = { λ t. tt };

    ghost invariant = { λ t. HasTold (given_as t.manager t.name) t.front.framed (seen t.front.recovering) };
}

fn is_name(a: &QName, b: &QName) -> bool
    ensures { result ≡ bytes_eq a.now b.now }
{
    *a == *b
}

// Whether the records of one manager are the other's.
fn is_same(manager: u8, name: &QName, other: u8, named: &QName) -> bool
    ensures { result ≡ (manager == other && bytes_eq name.now named.now) }
{
    manager == other && is_name(name, named)
}

// What was kept, where it is of this manager and a log begins with its bytes.
fn taken(manager: u8, name: &QName, old: LogTold, framed: &[u8]) -> Option<Front>
    ensures { IfSome result (IsFront (given_as manager name.now) framed.now) }
{
    if !is_same(old.manager, &old.name, manager, name) {
        return None;
    }
    if !begin_with(framed, old.front.framed.as_slice()) {
        return None;
    }
    Some(old.front)
}

// What its first bodies told before, where a log begins with their bytes, else none of them.
fn front_of(
    alloc: Global,
    manager: u8,
    name: &QName,
    before: Option<LogTold>,
    framed: &[u8],
) -> Front
    ensures { IsFront (given_as manager name.now) framed.now result }
{
    let Some(before) = before else {
        return no_front(alloc);
    };
    match taken(manager, name, before, framed) {
        None => no_front(alloc),
        Some(front) => front,
    }
}

/// What the bodies of a log tell, read on from what its first ones told before, where its bytes begin with theirs.
///
/// # Errors
///
/// The place of the first body that is no record or doesn't apply. No memory.
pub fn tell(
    alloc: Global,
    manager: u8,
    name: &QName,
    before: Option<LogTold>,
    framed: &[u8],
) -> Result<Front, RecoverFault>
    ensures { (all : List (List ℕ)) → AllFit all → framed.now ≡ frames all → MatchResult result (TellsAll (given_as manager name.now) all) (Fails (given_as manager name.now) all) }
{
    let mut front = front_of(alloc, manager, name, before, framed);
    let rest = behind(front.framed.as_slice(), framed);
    match go_on(alloc, manager, name, &mut front, rest) {
        Ok(()) => Ok(front),
        Err(fault) => Err(fault),
    }
}

/// Keeps what the bodies of a log told, with their bytes.
pub fn keep(manager: u8, name: &QName, front: Front) -> LogTold
    requires { HasTold (given_as manager name.now) front.framed (seen front.recovering) }
{
    LogTold {
        manager,
        name: *name,
        front,
    }
}
