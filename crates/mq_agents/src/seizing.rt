//! A sender opens its transmission queue and leaves it; a receiver is bound or not.
ghost use Rattle.std.specs.Prelude.{◌≡◌, Ok, is_some, true, false, not, ◌||◌};
ghost use Rattle.mq_calls.specs.Words.{MeetsInRoom, MeetsOrWants, channel_of, has_held_by_other, is_open_for_input, receiver_in};
ghost use Rattle.mq_spec_manager.specs.Agents.{IsUp, IsSenderHere, channel_queue, leave, seize, set_bound};
ghost use Rattle.mq_core.specs.Views.{plain_of};
ghost use Rattle.mq_agents.specs.Ends.{Seizes, by_seize};
ghost use Rattle.mq_agents.specs.Removing.{IsBoundNow, receiver_unbound};
ghost use Rattle.mq_sides.specs.Bonds.{has_seat};
ghost use Rattle.mq_core.specs.Values.{manager_of, WritesLog};

use crate::walking::has_held_by_other;
use mq_base::{ChName, NoMemory, QName};
use mq_calls::{SeizeFault, Seizure};
use mq_core::{Core, Parts};
use mq_disk::Disk;
use mq_objects::ChannelKind;
use mq_sides::{drop_side, receiver_of, set_side};

/// The transmission queue that a sender's definition names.
fn channel_queue<D: Disk>(parts: &Parts<D>, channel: &ChName) -> QName
    ensures { result ≡ channel_queue (channel_of channel.now (plain_of parts.now).definitions) }
{
    match parts.defs.channel(channel) {
        None => QName::blank(),
        Some(channel) => match channel.kind {
            ChannelKind::Sender(_, _, xmitq) => xmitq,
            ChannelKind::Receiver(_) => QName::blank(),
        },
    }
}

fn is_open<D: Disk>(parts: &Parts<D>, queue: &QName) -> bool
    ensures { result ≡ is_open_for_input queue.now (plain_of parts.now) }
{
    parts.live.is_read(queue) || parts.is_read_by_sender(queue)
}

#[tactic(auto, using(mq_core::proofs::PlaceLaws::queue_in_state, mq_core::proofs::ReadLaws::queue_none))]
fn is_held_by_other<D: Disk>(parts: &Parts<D>, channel: &ChName, queue: &QName) -> bool
    ensures { result ≡ has_held_by_other channel.now queue.now (plain_of parts.now) }
{
    match parts.queues.local(queue) {
        None => false,
        Some(local) => has_held_by_other(local, channel),
    }
}

/// The refusals of a sender's start; else its queue.
fn can_seize<D: Disk>(parts: &Parts<D>, channel: &ChName) -> Result<QName, SeizeFault>
    ensures { Seizes channel.now (plain_of parts.now) result }
{
    let queue = channel_queue(parts, channel);
    if !parts.is_transmission_queue(&queue) {
        return Err(SeizeFault::BadQueue);
    }
    if is_open(parts, &queue) || is_held_by_other(parts, channel, &queue) {
        return Err(SeizeFault::QueueInUse);
    }
    Ok(queue)
}

/// A sender opens its transmission queue, alone: `BadQueue` where its definition names no local queue of USAGE(XMITQ),
/// `QueueInUse` where that is open for input, or a unit, or another channel holds a row.
///
/// # Errors
///
/// As said, and no memory; nothing has changed.
pub fn seize<D: Disk>(core: &mut Core<D>, channel: &ChName) -> Result<(), SeizeFault>
    requires up { IsUp core.old.plain }
    requires here { IsSenderHere channel.now core.old.plain }
    ensures meets { MeetsOrWants (manager_of core.old) (seize channel.now core.old.plain) (by_seize result) (manager_of core.new) }
    ensures told { WritesLog core.old (seize channel.now core.old.plain) (by_seize result) core.new }
{
    let queue = match can_seize(&core.parts, channel) {
        Ok(queue) => queue,
        Err(fault) => {
            core.begin_call();
            return Err(fault);
        }
    };
    core.begin_call();
    let seizure = Seizure {
        channel: *channel,
        queue,
    };
    match set_side(&mut core.parts.ends.seizures, seizure) {
        Ok(()) => Ok(()),
        Err(NoMemory) => Err(SeizeFault::NoMemory),
    }
}

/// A sender leaves its transmission queue. It takes no memory.
pub fn leave<D: Disk>(core: &mut Core<D>, channel: &ChName)
    requires up { IsUp core.old.plain }
    ensures meets { MeetsInRoom (manager_of core.old) (leave channel.now core.old.plain) (Ok tt) (manager_of core.new) }
    ensures told { WritesLog core.old (leave channel.now core.old.plain) (Ok tt) core.new }
{
    core.begin_call();
    drop_side(core.parts.alloc, &mut core.parts.ends.seizures, channel);
}

// A receiver is bound where it has hardened something, and so has its place. It takes no memory.
fn put_bond<D: Disk>(parts: &mut Parts<D>, channel: &ChName)
    requires seated { is_some (receiver_in channel.now parts.old.ends.receivers) ≡ true → has_seat channel.now parts.old.ends.bound.seats ≡ true }
    ensures { IsBoundNow channel.now parts.old parts.new }
{
    if receiver_of(&parts.ends.receivers, channel).is_none() {
        return;
    }
    match parts.ends.bound.bind(channel) {
        Ok(()) => {}
        Err(NoMemory) => unreachable!(),
    }
}

// A receiver isn't bound, and keeps its place. It takes no memory.
fn drop_bond<D: Disk>(parts: &mut Parts<D>, channel: &ChName)
    ensures { parts.new ≡ receiver_unbound channel.now parts.old }
{
    parts.ends.bound.unbind(channel);
}

/// A receiver is bound from now on; one that has hardened nothing has no session to be bound in, and stays as it is.
/// It takes no memory.
pub fn bind<D: Disk>(core: &mut Core<D>, channel: &ChName)
    requires up { IsUp core.old.plain }
    ensures meets { MeetsOrWants (manager_of core.old) (set_bound channel.now true core.old.plain) (Ok tt) (manager_of core.new) }
    ensures room { MeetsInRoom (manager_of core.old) (set_bound channel.now true core.old.plain) (Ok tt) (manager_of core.new) }
    ensures told { WritesLog core.old (set_bound channel.now true core.old.plain) (Ok tt) core.new }
{
    core.begin_call();
    put_bond(&mut core.parts, channel);
}

/// A receiver isn't bound from now on. It takes no memory.
pub fn unbind<D: Disk>(core: &mut Core<D>, channel: &ChName)
    requires up { IsUp core.old.plain }
    ensures meets { MeetsOrWants (manager_of core.old) (set_bound channel.now false core.old.plain) (Ok tt) (manager_of core.new) }
    ensures room { MeetsInRoom (manager_of core.old) (set_bound channel.now false core.old.plain) (Ok tt) (manager_of core.new) }
    ensures told { WritesLog core.old (set_bound channel.now false core.old.plain) (Ok tt) core.new }
{
    core.begin_call();
    drop_bond(&mut core.parts, channel);
}

/// Whether a receiver is bound from now on; one that has hardened nothing never is. It takes no memory.
pub fn set_bound<D: Disk>(core: &mut Core<D>, channel: &ChName, bound: bool)
    requires up { IsUp core.old.plain }
    ensures meets { MeetsInRoom (manager_of core.old) (set_bound channel.now bound core.old.plain) (Ok tt) (manager_of core.new) }
    ensures told { WritesLog core.old (set_bound channel.now bound core.old.plain) (Ok tt) core.new }
{
    if bound {
        bind(core, channel);
        return;
    }
    unbind(core, channel);
}
