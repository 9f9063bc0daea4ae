//! The image that the log of a manager tells.
ghost use Rattle.std.specs.Prelude.{◌≡◌, ℕ, List, Ok, Err, MatchResult};
ghost use Rattle.mq_log.specs.Bodies.{frames, AllFit};
ghost use Rattle.mq_calls.specs.State.{Given};
ghost use Rattle.mq_recover.specs.from_spec_log.Applies.Start.{Later};
ghost use Rattle.mq_recover.specs.from_spec_log.Bodies.{image};
ghost use Rattle.mq_recover.specs.declared.recovery.RecoverFault.TheVariants.{NoMemory};
ghost use Rattle.mq_recover.specs.Found.{Recovers, given_as};
ghost use Rattle.mq_recover.specs.Recovering.{seen};
ghost use Rattle.mq_told.specs.Fronts.{AreBodies, Opens, IsWhole, Misses};

use crate::front::Front;
use crate::told::{LogTold, keep, tell};
use mq_base::QName;
use mq_calls::Image;
use mq_disk::Disk;
use mq_log::{Bodies, Log};
use mq_recover::{RecoverFault, begins};
use std::alloc::Global;

// A log's bodies begin with a start.
fn opens(alloc: Global, bodies: &Bodies<'_>) -> Result<(), RecoverFault>
    ensures { (given : Given) → (all : List (List ℕ)) → AllFit all → bodies.now.framed.now ≡ frames all → Opens given all result }
{
    match begins(alloc, bodies) {
        Ok(true) => Ok(()),
        Ok(false) => Err(RecoverFault::BadRecord(0)),
        Err(_) => Err(RecoverFault::NoMemory),
    }
}

// What they tell, from a start on.
fn told_front(
    alloc: Global,
    manager: u8,
    name: &QName,
    before: Option<LogTold>,
    bodies: &Bodies<'_>,
) -> Result<Front, RecoverFault>
    ensures { (all : List (List ℕ)) → AllFit all → bodies.now.framed.now ≡ frames all → MatchResult result (IsWhole (given_as manager name.now) all) (Misses manager name.now all) }
{
    match opens(alloc, bodies) {
        Ok(()) => tell(alloc, manager, name, before, bodies.framed),
        Err(fault) => Err(fault),
    }
}

// A copy of the image that was told.
fn image_in(alloc: Global, front: &Front) -> Result<Image, RecoverFault>
    ensures { MatchResult result (λ image. image ≡ seen front.now.recovering) (λ fault. fault ≡ NoMemory) }
{
    match front.recovering.to_image(alloc) {
        Ok(image) => Ok(image),
        Err(_) => Err(RecoverFault::NoMemory),
    }
}

// The image that a log tells, with what is kept for the next restart.
#[derive(Drop)]
struct Telling {
    image: Image,
    kept: LogTold,
}

fn read_on(
    alloc: Global,
    manager: u8,
    name: &QName,
    before: Option<LogTold>,
    bodies: &Bodies<'_>,
) -> Result<Telling, RecoverFault>
    requires { AreBodies bodies.now.framed.now }
    ensures { (given : Given) → given.number ≡ manager → given.name ≡ name.now → (all : List (List ℕ)) → AllFit all → bodies.now.framed.now ≡ frames all → MatchResult result (λ t. Recovers (image given Later all) (Ok t.image)) (λ fault. Recovers (image given Later all) (Err fault)) }
{
    let front = match told_front(alloc, manager, name, before, bodies) {
        Ok(front) => front,
        Err(fault) => return Err(fault),
    };
    let image = match image_in(alloc, &front) {
        Ok(image) => image,
        Err(fault) => return Err(fault),
    };
    let kept = keep(manager, name, front);
    Ok(Telling { image, kept })
}

fn put(told: &mut Option<LogTold>, kept: LogTold) {
    *told = Some(kept);
}

fn image_of(
    alloc: Global,
    manager: u8,
    name: &QName,
    told: &mut Option<LogTold>,
    bodies: &Bodies<'_>,
) -> Result<Image, RecoverFault>
    requires { AreBodies bodies.now.framed.now }
    ensures { (given : Given) → given.number ≡ manager → given.name ≡ name.now → (all : List (List ℕ)) → AllFit all → bodies.now.framed.now ≡ frames all → Recovers (image given Later all) result }
{
    let before = told.take();
    let Telling { image, kept } = match read_on(alloc, manager, name, before, bodies) {
        Ok(telling) => telling,
        Err(fault) => return Err(fault),
    };
    put(told, kept);
    Ok(image)
}

/// The image that a log tells to a restart of the manager with this number and name. What it tells is kept with its bytes, and where
/// they begin with those that were kept before, the bodies behind these alone are read.
///
/// # Errors
///
/// The place of the first body that is no record of this manager or doesn't apply; 0 where the log doesn't begin with a start. No
/// memory. Nothing is kept then.
pub fn image_on<D: Disk>(
    alloc: Global,
    manager: u8,
    name: &QName,
    told: &mut Option<LogTold>,
    log: &Log<D>,
) -> Result<Image, RecoverFault>
    ensures { (given : Given) → given.number ≡ manager → given.name ≡ name.now → Recovers (image given Later log.now.bodies) result }
{
    let bodies = log.bodies();
    image_of(alloc, manager, name, told, &bodies)
}
