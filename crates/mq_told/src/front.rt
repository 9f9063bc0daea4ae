//! The first bodies of a log, with what they told.
ghost use Rattle.std.specs.Prelude.{◌≡◌, ◌++◌, ◌<◌, ◌≤◌, ◌^◌, nat_eq, ℕ, List, length, drop, OnOk};
ghost use Rattle.std.specs.List.{starts_with};
ghost use Rattle.mq_log.specs.Bodies.{frames, AllFit};
ghost use Rattle.mq_calls.specs.State.{Given};
ghost use Rattle.mq_recover.specs.Recovering.{seen};
ghost use Rattle.mq_recover.specs.Found.{given_as};
ghost use Rattle.mq_told.specs.Fronts.{HasTold, IsFront, Goes};

use mq_base::{Items, NoMemory, QName};
use mq_log::Bodies;
use mq_recover::{RecoverFault, Recovering, Start, walk_on};
use std::alloc::Global;

/// The first bodies of a log, with what they told.
#[derive(Drop)]
pub struct Front {
    /// Their bytes, one behind the other.
    pub framed: Items<u8>,
    /// What they told.
    pub recovering: Recovering,
}

/// No body.
pub fn no_front(alloc: Global) -> Front
    ensures { (given : Given) (framed : List ℕ) → IsFront given framed result }
{
    let framed = Items::new(alloc);
    let recovering = Recovering::new(alloc);
    Front { framed, recovering }
}

/// Whether bytes begin with those.
pub fn begin_with(framed: &[u8], front: &[u8]) -> bool
    ensures { result ≡ starts_with nat_eq framed.now front.now }
{
    framed.starts_with(front)
}

/// The bytes behind those that they begin with.
pub fn behind<'a>(front: &[u8], framed: &'a [u8]) -> &'a [u8]
    requires { length front.now ≤ length framed.now }
    ensures { result.now ≡ drop (length front.now) framed.now }
{
    let (_, rest) = framed.split_at(front.len());
    rest
}

fn size(framed: &[u8]) -> u64
    ensures is { result ≡ length framed.now }
    ensures low { result < 2 ^ 63 }
{
    framed.len() as u64
}

fn append(framed: &mut Items<u8>, rest: &[u8]) -> Result<(), NoMemory>
    ensures { OnOk result (framed.new ≡ framed.old ++ rest.now) }
{
    framed.extend_from_slice(rest)?;
    Ok(())
}

/// A log whose first bodies have told something is read on, from the bytes behind them.
///
/// # Errors
///
/// The place of the first body that is no record or doesn't apply. No memory.
pub fn go_on(
    alloc: Global,
    manager: u8,
    name: &QName,
    front: &mut Front,
    rest: &[u8],
) -> Result<(), RecoverFault>
    requires { HasTold (given_as manager name.now) front.old.framed (seen front.old.recovering) }
    ensures { (all : List (List ℕ)) → AllFit all → front.old.framed ++ rest.now ≡ frames all → Goes (given_as manager name.now) all front.new result }
{
    let place = size(front.framed.as_slice());
    let bodies = Bodies { framed: rest };
    match walk_on(
        alloc,
        manager,
        name,
        Start::Later,
        &mut front.recovering,
        place,
        &bodies,
    ) {
        Ok(()) => {}
        Err(fault) => return Err(fault),
    }
    match append(&mut front.framed, rest) {
        Ok(()) => Ok(()),
        Err(_) => Err(RecoverFault::NoMemory),
    }
}
