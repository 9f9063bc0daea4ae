//! A receiver's commit of messages that have landed: one forced record, and then they take their places.
ghost use Rattle.std.specs.List.{AllByRecursion};
ghost use Rattle.std.specs.Prelude.{◌≡◌, ◌+◌, ◌*◌, ◌<◌, ◌≤◌, ◌^◌, ◌∷◌, ◌++◌, [], true, length, flat_map, IfOk, OnOk};
ghost use Rattle.mq_calls.specs.Words.{need, receiver_data, receiver_or};
ghost use Rattle.mq_core.specs.Counting.{CanCount};
ghost use Rattle.mq_core.specs.Forced.{HasMoreRoom, IsForced};
ghost use Rattle.mq_core.specs.Ties.{EndsReady, Tied, mode_is_up};
ghost use Rattle.mq_core.specs.Views.{plain_of};
ghost use Rattle.mq_core.specs.Writes.{arrival_dids};
ghost use Rattle.mq_calls.specs.declared.deltas.Did.TheVariants as did;
ghost use Rattle.mq_receive.specs.Filling.{CanStand};
ghost use Rattle.mq_receive.specs.Standings.{AreFitting};
ghost use Rattle.mq_receive.specs.Committed.{batch_record, batch_part, side_after, IsReadyFor, WritesBatch, given_up, Commits};

use crate::filling::put_received;
use crate::placing::{place_all, tell_landed, unexpect_all};
use crate::rooms::make_room;
use mq_base::{ChName, Items, NoMemory};
use mq_calls::{Did, ReceiverSide};
use mq_core::below::{Effects, KeptReceiver, receiver_data, swap_side, undo_side};
use mq_core::{Arrival, Parts, StoppedWrite, return_room};
use mq_disk::{Disk, Stop};
use mq_moves::below::{Unwritten, aside_for, go_down};
use mq_sync::{ReceiverData, Unit};

/// Forces the record of a batch. It takes no memory.
fn force_received<D: Disk>(
    parts: &mut Parts<D>,
    channel: &ChName,
    unit: Unit,
    last: u32,
    landed: &[Arrival],
) -> Result<(), Stop>
    requires live { parts.old.log.live ≡ true }
    requires room { need (batch_record channel.now unit last landed.now) ≤ parts.old.log.room }
    requires body { need (batch_record channel.now unit last landed.now) ≤ parts.old.body.room + length parts.old.body.bytes }
    requires small { need (batch_record channel.now unit last landed.now) < 2 ^ 32 }
    requires can { AllByRecursion CanStand landed.now }
    ensures { IsForced (batch_record channel.now unit last landed.now) parts.old result parts.new }
{
    parts.body.clear();
    put_received(channel, unit, last, landed, &mut parts.body);
    parts.force_body()
}

/// Forces the record of a batch, with what it says of the receiver; where its write was stopped nothing of that stands.
fn write_received<D: Disk>(
    parts: &mut Parts<D>,
    channel: &ChName,
    unit: Unit,
    last: u32,
    landed: &[Arrival],
    side: KeptReceiver,
) -> Result<(), Unwritten>
    requires live { parts.old.log.live ≡ true }
    requires room { need (batch_record channel.now unit last landed.now) ≤ parts.old.log.room }
    requires body { need (batch_record channel.now unit last landed.now) ≤ parts.old.body.room + length parts.old.body.bytes }
    requires small { need (batch_record channel.now unit last landed.now) < 2 ^ 32 }
    requires can { AllByRecursion CanStand landed.now }
    ensures { WritesBatch (batch_record channel.now unit last landed.now) side parts.old result parts.new }
{
    let undo = match swap_side(&mut parts.ends.receivers, side) {
        Ok(undo) => undo,
        Err(NoMemory) => return Err(Unwritten::NoMemory),
    };
    match force_received(parts, channel, unit, last, landed) {
        Ok(()) => Ok(()),
        Err(stop) => {
            undo_side(&mut parts.ends.receivers, undo);
            Err(Unwritten::Stopped(stop))
        }
    }
}

/// What the receiver of a channel has behind its commit of a unit.
fn side_after<D: Disk>(parts: &Parts<D>, channel: &ChName, unit: Unit, last: u32) -> ReceiverSide
    ensures { result ≡ side_after channel.now unit last (plain_of parts.now) }
{
    let old = receiver_data(&parts.ends.receivers, channel);
    ReceiverSide {
        channel: *channel,
        hardened: ReceiverData {
            partner: old.partner,
            session: old.session,
            closed: old.closed,
            unit,
            last,
        },
    }
}

/// The same with the room that it needs.
fn kept_after<D: Disk>(
    parts: &Parts<D>,
    channel: &ChName,
    unit: Unit,
    last: u32,
) -> Result<KeptReceiver, NoMemory>
    ensures { IfOk result (λ k. k ≡ side_after channel.now unit last (plain_of parts.now)) }
{
    let side = side_after(parts, channel, unit, last);
    KeptReceiver::new(parts.alloc, side)
}

/// Sets aside what the log takes when the receiver's session is closed, where nothing stood for the channel.
pub(crate) fn aside<D: Disk>(parts: &mut Parts<D>, channel: &ChName) -> Result<(), NoMemory>
    ensures more { HasMoreRoom parts.old parts.new }
    ensures ready { OnOk result (EndsReady parts.old.ends parts.old.log.spare → IsReadyFor channel.now parts.new) }
{
    let closed = is_closed(parts, channel);
    match aside_for(parts, channel, closed) {
        Ok(()) => Ok(()),
        Err(NoMemory) => Err(NoMemory),
    }
}

/// Whether the session of a channel's receiver is closed.
fn is_closed<D: Disk>(parts: &Parts<D>, channel: &ChName) -> bool
    ensures { result ≡ (receiver_or (receiver_data channel.now (plain_of parts.now))).closed }
{
    let data = receiver_data(&parts.ends.receivers, channel);
    data.closed
}

/// A commit that was not written: its messages wait no longer. A stopped write takes the manager down. It takes no memory.
fn give_up<D: Disk>(
    parts: &mut Parts<D>,
    unwritten: Unwritten,
    channel: &ChName,
    unit: Unit,
    last: u32,
    landed: Items<Arrival>,
)
    ensures { parts.new ≡ given_up unwritten channel.now unit last landed parts.old }
{
    unexpect_all(&mut parts.queues, landed.as_slice());
    match unwritten {
        Unwritten::NoMemory => {}
        Unwritten::Stopped(_) => go_down(
            parts,
            StoppedWrite::Received {
                channel: *channel,
                unit,
                last,
                landed,
            },
        ),
    }
}

/// Tells what a commit did, in order. It takes no memory.
fn tell_received(effects: &mut Effects, channel: &ChName, unit: Unit, landed: &[Arrival])
    requires { 2 * length landed.now + 2 ≤ effects.old.room }
    ensures { effects.new.dids ≡ effects.old.dids ++ (flat_map arrival_dids landed.now ++ did.Received channel.now unit ∷ []) }
{
    tell_landed(effects, landed);
    effects.tell(Did::Received {
        channel: *channel,
        unit,
    });
}

/// A batch is committed: what it needs is taken, its record is forced, its messages take their places.
pub(crate) fn commit<D: Disk>(
    parts: &mut Parts<D>,
    effects: &mut Effects,
    channel: &ChName,
    unit: Unit,
    last: u32,
    landed: Items<Arrival>,
    bytes: u64,
) -> Result<(), Unwritten>
    requires up { mode_is_up parts.old.mode ≡ true }
    requires tied { Tied parts.old }
    requires ends { IsReadyFor channel.now parts.old }
    requires low { CanCount (plain_of parts.old) }
    requires fits { AreFitting landed (plain_of parts.old) }
    requires can { AllByRecursion CanStand landed }
    requires need { bytes ≡ need (batch_record channel.now unit last landed) }
    requires small { bytes < 2 ^ 32 }
    ensures { Commits (batch_part channel.now unit last landed (plain_of parts.old)) (batch_record channel.now unit last landed) parts.old effects.old.dids result parts.new effects.new.dids }
{
    let side = match kept_after(parts, channel, unit, last) {
        Ok(side) => side,
        Err(NoMemory) => return Err(Unwritten::NoMemory),
    };
    match make_room(parts, effects, landed.as_slice(), bytes) {
        Ok(()) => {}
        Err(NoMemory) => return Err(Unwritten::NoMemory),
    }
    match write_received(parts, channel, unit, last, landed.as_slice(), side) {
        Ok(()) => {}
        Err(unwritten) => {
            give_up(parts, unwritten, channel, unit, last, landed);
            return Err(unwritten);
        }
    }
    tell_received(effects, channel, unit, landed.as_slice());
    return_room(parts, bytes);
    place_all(parts, landed);
    Ok(())
}
