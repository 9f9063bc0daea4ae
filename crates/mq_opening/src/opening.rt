//! With what the history of a manager opens: the image that its first start read, and how long its log was.
ghost use Rattle.std.specs.Prelude.{◌≡◌, ◌-◌, IfOk};
ghost use Rattle.mq_log.specs.State.{log_length};
ghost use Rattle.mq_spec_log.specs.Applies.Start.{Later};
ghost use Rattle.mq_spec_log.specs.Bodies.{image};
ghost use Rattle.mq_restart.specs.Begun.{given_by};
ghost use Rattle.mq_restart.specs.from_recover.Found.{Recovers};
ghost use Rattle.mq_opening.specs.Opened.{IsOpening, IsOpenLength, JustBegun, before_start};

use mq_base::{NoMemory, QName};
use mq_calls::Image;
use mq_disk::Disk;
use mq_log::Log;
use mq_restart::below::{Core, Parts, RecoverFault, Start, image};
use std::alloc::Global;

/// The length of a Started record in the log.
const STARTED_NEED: u64 = 63;

/// The image that a log tells, with all its Started records.
fn image_now<D: Disk>(
    alloc: Global,
    number: u8,
    name: &QName,
    log: &Log<D>,
) -> Result<Image, RecoverFault>
    ensures { Recovers (image (given_by number name.now log.now.max) Later log.now.bodies) result }
{
    let bodies = log.bodies();
    image(alloc, number, name, Start::Later, &bodies)
}

/// The same of a manager's parts.
fn image_in<D: Disk>(alloc: Global, parts: &Parts<D>) -> Result<Image, RecoverFault>
    ensures { Recovers (image (given_by parts.now.number parts.now.name parts.now.log.max) Later parts.now.log.bodies) result }
{
    image_now(alloc, parts.number, &parts.name, &parts.log)
}

/// The length of the log before its last record, a Started one.
fn length_in<D: Disk>(parts: &Parts<D>) -> u64
    ensures { result ≡ log_length parts.now.log.bodies - 63 }
{
    parts.log.len().saturating_sub(STARTED_NEED)
}

/// The image without its last Started record.
fn before_start(image: Image) -> Image
    ensures { result ≡ before_start image }
{
    let Image {
        definitions,
        shelves,
        senders,
        receivers,
        incarnation,
    } = image;
    Image {
        definitions,
        shelves,
        senders,
        receivers,
        incarnation: incarnation.saturating_sub(1),
    }
}

/// The image that the first start of a manager read, where it has just begun. The log tells it once more: no row is copied from
/// the queues.
///
/// # Errors
///
/// No memory.
pub fn opening_of<D: Disk>(alloc: Global, core: &Core<D>) -> Result<Image, NoMemory>
    requires begun { JustBegun D.tells core.now }
    ensures { IfOk result (λ i. IsOpening D.tells core.now i) }
{
    match image_in(alloc, &core.parts) {
        Ok(image) => Ok(before_start(image)),
        Err(RecoverFault::NoMemory) => Err(NoMemory),
        Err(RecoverFault::BadRecord(_)) => unreachable!(),
    }
}

/// How long its log was then, in bytes.
pub fn opening_length<D: Disk>(core: &Core<D>) -> u64
    ensures { IsOpenLength D.tells core.now result }
{
    length_in(&core.parts)
}
