//! The memory of a receiver's commit.
ghost use Rattle.std.specs.Prelude.{◌≡◌, ◌+◌, ◌*◌, ◌<◌, ◌≤◌, ◌^◌, [], length, OnOk, OnErr, IfOk};
ghost use Rattle.mq_core.specs.Forced.{HasMoreRoom};
ghost use Rattle.mq_receive.specs.Placed.{expected_all, IsAwaited};

use crate::placing::unexpect_all;
use mq_base::NoMemory;
use mq_core::below::{Effects, IndexedQueue, Queues};
use mq_core::{Arrival, Parts};
use mq_disk::Disk;

/// The messages of a batch wait for their places from now on, with the memory that they take.
///
/// # Errors
///
/// No memory; none waits.
fn expect_all(queues: &mut Queues<IndexedQueue>, landed: &[Arrival]) -> Result<(), NoMemory>
    ensures ok { OnOk result (queues.new ≡ record queues.old { states = expected_all landed.now queues.old.states }) }
    ensures err { OnErr result (queues.new ≡ queues.old) }
{
    for at in 0..landed.len() {
        match queues.expect(&landed[at].queue) {
            Ok(()) => {}
            Err(_) => {
                let (before, _) = landed.split_at(at);
                unexpect_all(queues, before);
                return Err(NoMemory);
            }
        }
    }
    Ok(())
}

/// How much is told of so many messages at most: two things of each, and what was received.
fn most_told(messages: usize) -> Result<usize, NoMemory>
    ensures { IfOk result (λ n. n ≡ 2 * messages + 2) }
{
    let Some(twice) = messages.checked_mul(2) else {
        return Err(NoMemory);
    };
    let Some(most) = twice.checked_add(2) else {
        return Err(NoMemory);
    };
    Ok(most)
}

/// The memory of a record of so many bytes, and of what is told.
fn make_record_room<D: Disk>(
    parts: &mut Parts<D>,
    effects: &mut Effects,
    told: usize,
    need: u64,
) -> Result<(), NoMemory>
    ensures ok { OnOk result (IsAwaited [] need parts.old parts.new) }
    ensures err { OnErr result (HasMoreRoom parts.old parts.new) }
    ensures dids { effects.new.dids ≡ effects.old.dids }
    ensures room { OnOk result (told ≤ effects.new.room) }
{
    if effects.reserve(told).is_err() {
        return Err(NoMemory);
    }
    if parts.log.room(need).is_err() {
        return Err(NoMemory);
    }
    parts.body.clear();
    if parts.body.reserve(need as usize).is_err() {
        return Err(NoMemory);
    }
    Ok(())
}

/// Takes all the memory of a commit: for the rows, which wait from now on, for a record of so many bytes, for what is told.
///
/// # Errors
///
/// No memory; none waits.
pub(crate) fn make_room<D: Disk>(
    parts: &mut Parts<D>,
    effects: &mut Effects,
    landed: &[Arrival],
    need: u64,
) -> Result<(), NoMemory>
    ensures ok { OnOk result (IsAwaited landed.now need parts.old parts.new) }
    ensures err { OnErr result (HasMoreRoom parts.old parts.new) }
    ensures dids { effects.new.dids ≡ effects.old.dids }
    ensures room { OnOk result (2 * length landed.now + 2 ≤ effects.new.room) }
    ensures few { OnOk result (2 * length landed.now + 2 < 2 ^ 64) }
{
    let told = match most_told(landed.len()) {
        Ok(told) => told,
        Err(NoMemory) => return Err(NoMemory),
    };
    match make_record_room(parts, effects, told, need) {
        Ok(()) => {}
        Err(NoMemory) => return Err(NoMemory),
    }
    match expect_all(&mut parts.queues, landed) {
        Ok(()) => Ok(()),
        Err(NoMemory) => Err(NoMemory),
    }
}
