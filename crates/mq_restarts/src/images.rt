//! What the log of a manager tells.
ghost use Rattle.std.specs.Prelude.{◌≡◌, MatchResult};
ghost use Rattle.std.specs.List.{AllByRecursion};
ghost use Rattle.mq_frame.specs.Reading.{IsBytes};
ghost use Rattle.mq_restart.specs.from_spec_log.Applies.Start.{Later};
ghost use Rattle.mq_restart.specs.from_spec_log.Bodies.{image};
ghost use Rattle.mq_restart.specs.from_recover.Found.{Recovers};
ghost use Rattle.mq_restart.specs.Begun.{given_by, IsUnread};
ghost use Rattle.mq_restart.specs.Raised.{given_of};
ghost use Rattle.mq_restarts.specs.Comings.{above, IsToldBy};

use mq_base::QName;
use mq_calls::Image;
use mq_disk::Disk;
use mq_log::Log;
use mq_restart::below::{Parts, RecoverFault};
use mq_told::{LogTold, image_on};
use std::alloc::Global;

// (what stands in memory as bytes is bytes)
fn are_bytes(bytes: &[u8])
    ensures { IsBytes bytes.now }
{}

/// The image that a log tells to a restart.
fn told_by<D: Disk>(
    alloc: Global,
    number: u8,
    name: &QName,
    told: &mut Option<LogTold>,
    log: &Log<D>,
) -> Result<Image, RecoverFault>
    ensures recovers { Recovers (image (given_by number name.now log.now.max) Later log.now.bodies) result }
    ensures bytes { AllByRecursion IsBytes log.now.bodies }
{
    let bodies = log.bodies();
    are_bytes(bodies.framed);
    image_on(alloc, number, name, told, log)
}

/// The image that the log of a manager tells, read on from what it told before.
///
/// # Errors
///
/// The place of the first body that is no record of this manager or doesn't apply. No memory.
pub(crate) fn image_of<D: Disk>(
    parts: &Parts<D>,
    told: &mut Option<LogTold>,
) -> Result<Image, RecoverFault>
    ensures { MatchResult result (λ i. IsToldBy parts.now i) (λ fault. IsUnread (given_of parts.now) Later parts.now.log.bodies fault) }
{
    match told_by(parts.alloc, parts.number, &parts.name, told, &parts.log) {
        Ok(image) => Ok(image),
        Err(fault) => Err(fault),
    }
}

/// An image whose incarnation is at least this one.
pub(crate) fn above(image: Image, least: u64) -> Image
    ensures { result ≡ above least image }
{
    let mut image = image;
    image.incarnation = image.incarnation.max(least);
    image
}
