//! What the log of a manager tells, read and built.
ghost use Rattle.std.specs.Prelude.{MatchResult};
ghost use Rattle.std.specs.List.{AllByRecursion};
ghost use Rattle.mq_frame.specs.Reading.{IsBytes};
ghost use Rattle.mq_spec_log.specs.Bodies.{image};
ghost use Rattle.mq_recover.specs.Found.{start_in, Recovers};
ghost use Rattle.mq_restart.specs.Begun.{given_by, IsReadFrom, IsUnread};

use mq_base::{NoMemory, QName};
use mq_calls::Image;
use mq_disk::Disk;
use mq_log::Log;
use mq_rebuild::{Built, build};
use mq_recover::{RecoverFault, Start, image};
use std::alloc::Global;

// (what stands in memory as bytes is bytes)
fn are_bytes(bytes: &[u8])
    ensures { IsBytes bytes.now }
{}

/// The bodies of a log are bytes. It does nothing.
pub fn bodies_are_bytes<D: Disk>(log: &Log<D>)
    ensures { AllByRecursion IsBytes log.now.bodies }
{
    let bodies = log.bodies();
    are_bytes(bodies.framed);
}

/// The image that a log tells.
fn image_of<D: Disk>(
    alloc: Global,
    number: u8,
    name: &QName,
    start: Start,
    log: &Log<D>,
) -> Result<Image, RecoverFault>
    ensures recovers { Recovers (image (given_by number name.now log.now.max) (start_in start) log.now.bodies) result }
    ensures bytes { AllByRecursion IsBytes log.now.bodies }
{
    let bodies = log.bodies();
    are_bytes(bodies.framed);
    image(alloc, number, name, start, &bodies)
}

/// What a manager is built of, from its log.
///
/// # Errors
///
/// The place of the first body that is no record of this manager or doesn't apply. No memory.
pub fn built_of<D: Disk>(
    alloc: Global,
    number: u8,
    name: &QName,
    start: Start,
    log: &Log<D>,
) -> Result<Built, RecoverFault>
    ensures { MatchResult result (λ built. IsReadFrom (given_by number name.now log.now.max) (start_in start) log.now.bodies built) (λ fault. IsUnread (given_by number name.now log.now.max) (start_in start) log.now.bodies fault) }
{
    let image = match image_of(alloc, number, name, start, log) {
        Ok(image) => image,
        Err(fault) => return Err(fault),
    };
    match build(alloc, image) {
        Ok(built) => Ok(built),
        Err(_) => Err(RecoverFault::NoMemory),
    }
}
