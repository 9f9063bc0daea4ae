//! The image of the bodies of a log.
ghost use Rattle.std.specs.Prelude.{◌≡◌, ◌+◌, ◌<◌, ◌^◌, ℕ, Bool, true, false, List, IfOk, IfSome, length};
ghost use Rattle.mq_log.specs.Bodies.{frames, AllFit};
ghost use Rattle.mq_log.specs.Walk.{Walks};
ghost use Rattle.mq_calls.specs.State.{Given};
ghost use Rattle.mq_recover_read.specs.from_spec_log.Bodies.{begins, image, image_from, empty_image, is_started};
ghost use Rattle.mq_recover.specs.declared.recovery.RecoverFault.TheVariants as faults;
ghost use Rattle.mq_recover.specs.Recovering.{seen};
ghost use Rattle.mq_recover.specs.Found.{start_in, given_as, walked, Recovers, Told};

use crate::recovering::Recovering;
use crate::start::Start;
use mq_base::{NoMemory, QName};
use mq_calls::{Image, LogRecord};
use mq_log::{Bodies, Split, next_body};
use mq_recover_read::log_record;
use std::alloc::Global;

/// Why a log tells no image.
#[derive(Clone, Copy)]
pub enum RecoverFault {
    /// The body behind this gate is no record of this manager, or doesn't apply to what stands in front of it; the
    /// gate's place is the number of bytes in front of it.
    BadRecord(u64),
    /// Memory ran out.
    NoMemory,
}

impl From<NoMemory> for RecoverFault {
    ghost from_gives = { λ _ e. e ≡ faults.NoMemory };

    fn from(_: NoMemory) -> Self {
        RecoverFault::NoMemory
    }
}

// The first of some bodies, where fewer bytes are behind it, as in each log.
fn step<'a>(bodies: &Bodies<'a>) -> Option<Split<'a>>
    ensures walks { (all : List (List ℕ)) → AllFit all → bodies.now.framed.now ≡ frames all → Walks all result }
    ensures shorter { IfSome result (λ s. length s.rest.framed.now < length bodies.now.framed.now) }
{
    let split = next_body(bodies)?;
    if split.rest.framed.len() < bodies.framed.len() {
        Some(split)
    } else {
        None
    }
}

fn is_started(record: &Option<LogRecord>) -> bool
    ensures { result ≡ is_started record.now }
{
    match record {
        Some(LogRecord::Started { .. }) => true,
        _ => false,
    }
}

/// Whether a log of these bodies begins with a start. One without a body does.
///
/// # Errors
///
/// No memory.
pub fn begins(alloc: Global, bodies: &Bodies<'_>) -> Result<bool, NoMemory>
    ensures { (all : List (List ℕ)) → AllFit all → bodies.now.framed.now ≡ frames all → IfOk result (λ yes. yes ≡ begins all) }
{
    match step(bodies) {
        None => Ok(true),
        Some(split) => {
            let record = log_record(alloc, split.body)?;
            Ok(is_started(&record))
        }
    }
}

/// Bodies tell more behind what those in front of them have told, whose bytes are so many. It reads just these bodies.
///
/// # Errors
///
/// The place of the first body that is no record or doesn't apply, counted from the beginning of the log. No memory. What was told
/// is then of no more use.
pub fn walk_on(
    alloc: Global,
    manager: u8,
    name: &QName,
    start: Start,
    told: &mut Recovering,
    place: u64,
    bodies: &Bodies<'_>,
) -> Result<(), RecoverFault>
    requires { place + length bodies.now.framed.now < 2 ^ 64 }
    ensures { (all : List (List ℕ)) → AllFit all → bodies.now.framed.now ≡ frames all → Told (image_from (given_as manager name.now) (start_in start) place all (seen told.old)) (walked told.new result) }
{
    let mut left = *bodies;
    let mut place = place;
    while let Some(split) = step(&left) {
        let Some(record) = log_record(alloc, split.body)? else {
            return Err(RecoverFault::BadRecord(place));
        };
        if !told.follow(alloc, manager, name, start, record)? {
            return Err(RecoverFault::BadRecord(place));
        }
        place += (left.framed.len() - split.rest.framed.len()) as u64;
        left = split.rest;
    }
    Ok(())
}

fn walk(
    alloc: Global,
    manager: u8,
    name: &QName,
    start: Start,
    bodies: &Bodies<'_>,
) -> Result<Recovering, RecoverFault>
    ensures { (all : List (List ℕ)) → AllFit all → bodies.now.framed.now ≡ frames all → Told (image_from (given_as manager name.now) (start_in start) 0 all empty_image) result }
{
    let mut told = Recovering::new(alloc);
    match walk_on(alloc, manager, name, start, &mut told, 0, bodies) {
        Ok(()) => Ok(told),
        Err(fault) => Err(fault),
    }
}

/// The image that the bodies of a log tell, of the manager with this number and name.
///
/// # Errors
///
/// The place of the first body that is no record or doesn't apply; 0 where the log doesn't begin with a start. No memory.
pub fn image(
    alloc: Global,
    manager: u8,
    name: &QName,
    start: Start,
    bodies: &Bodies<'_>,
) -> Result<Image, RecoverFault>
    ensures { (given : Given) → given.number ≡ manager → given.name ≡ name.now → (all : List (List ℕ)) → AllFit all → bodies.now.framed.now ≡ frames all → Recovers (image given (start_in start) all) result }
{
    if !begins(alloc, bodies)? {
        return Err(RecoverFault::BadRecord(0));
    }
    let told = match walk(alloc, manager, name, start, bodies) {
        Ok(told) => told,
        Err(fault) => return Err(fault),
    };
    Ok(told.into_image(alloc)?)
}
