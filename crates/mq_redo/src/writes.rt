//! What lasts of each kind of write that was stopped.
ghost use Rattle.std.specs.Prelude.{◌≡◌, ◌++◌, ◌∷◌, [], true, None, Some, OnOk};
ghost use Rattle.std.specs.List.{flat_map};
ghost use Rattle.mq_calls.specs.Words.{batch_of, connection_at};
ghost use Rattle.mq_spec_manager.specs.Stops.{redone_delta};
ghost use Rattle.mq_spec_manager.specs.Agents.{harden_part, move_part, received_part};
ghost use Rattle.mq_core.specs.Ties.{Tied};
ghost use Rattle.mq_core.specs.Views.{plain_of, frozen_of, noted, noted_commit, noted_batch, channels_of};
ghost use Rattle.mq_core.specs.Writes.{all_landed, now_part, gone_part, settled_part};
ghost use Rattle.mq_redo.specs.Redone.{redone_of, redone_part, taken_of, placed_of};

use crate::arrivals::tell_all_arrived;
use crate::telling::{tell_all_placed, tell_all_removed, tell_all_settled, tell_all_taken};
use mq_base::{ChName, NoMemory, QName};
use mq_calls::{Did, Note, Remove, Why};
use mq_core::below::{Effects, Seat, batch_of};
use mq_core::{Arrival, Mode, Parts, StoppedWrite};
use mq_disk::Disk;
use mq_message::{Dest, Ident, Message};
use mq_queue::is_persistent;
use mq_sync::Unit;

fn tell_one(effects: &mut Effects, did: Did) -> Result<(), NoMemory>
    requires none { effects.old.dids ≡ [] }
    ensures ok { OnOk result (effects.new.dids ≡ did ∷ []) }
{
    if effects.reserve(1).is_err() {
        return Err(NoMemory);
    }
    effects.tell(did);
    Ok(())
}

fn tell_put<D: Disk>(
    effects: &mut Effects,
    parts: &Parts<D>,
    queue: &QName,
    message: &Message,
) -> Result<(), NoMemory>
    requires none { effects.old.dids ≡ [] }
    ensures ok { OnOk result (effects.new.dids ≡ redone_part (now_part queue.now message.now) (plain_of parts.now)) }
{
    if !is_persistent(message) {
        return Ok(());
    }
    tell_one(
        effects,
        Did::Placed {
            queue: *queue,
            ident: message.ident,
            dead: None,
        },
    )
}

fn tell_moved<D: Disk>(
    effects: &mut Effects,
    parts: &Parts<D>,
    from: &QName,
    target: &Dest,
    bare: bool,
    to: &QName,
    message: &Message,
) -> Result<(), NoMemory>
    requires none { effects.old.dids ≡ [] }
    ensures ok { OnOk result (effects.new.dids ≡ redone_part (move_part from.now target.now bare (record { queue = to.now; message = message.now; dead = None })) (plain_of parts.now)) }
{
    if !is_persistent(message) {
        return Ok(());
    }
    tell_one(
        effects,
        Did::Moved {
            from: *from,
            ident: message.ident,
            to: *to,
            target: *target,
            bare,
        },
    )
}

fn tell_removal<D: Disk>(
    effects: &mut Effects,
    parts: &Parts<D>,
    queue: &QName,
    removes: &[Remove],
    idents: &[Ident],
    why: Why,
) -> Result<(), NoMemory>
    requires none { effects.old.dids ≡ [] }
    ensures ok { OnOk result (effects.new.dids ≡ redone_part (gone_part queue.now removes.now idents.now why) (plain_of parts.now)) }
{
    if effects.reserve(idents.len()).is_err() {
        return Err(NoMemory);
    }
    tell_all_removed(effects, parts, queue, idents, why);
    Ok(())
}

fn tell_settlement<D: Disk>(
    effects: &mut Effects,
    parts: &Parts<D>,
    channel: &ChName,
    unit: &Unit,
    commit: bool,
    operator: bool,
    rows: &[Remove],
) -> Result<(), NoMemory>
    requires none { effects.old.dids ≡ [] }
    ensures ok { OnOk result (effects.new.dids ≡ redone_part (settled_part channel.now unit.now commit operator rows.now (frozen_of parts.now)) (plain_of parts.now)) }
{
    let Some(most) = rows.len().checked_add(1) else {
        return Err(NoMemory);
    };
    if effects.reserve(most).is_err() {
        return Err(NoMemory);
    }
    tell_all_settled(effects, parts, commit, rows);
    effects.tell(Did::Hardened {
        channel: *channel,
        note: Note::Resolved {
            unit: *unit,
            commit,
            operator,
        },
    });
    Ok(())
}

fn tell_unit<D: Disk>(effects: &mut Effects, parts: &Parts<D>, seat: &Seat) -> Result<(), NoMemory>
    requires none { effects.old.dids ≡ [] }
    ensures ok { OnOk result (effects.new.dids ≡ flat_map (taken_of (plain_of parts.now)) seat.now.unit ++ flat_map placed_of seat.now.unit) }
{
    let unit = seat.unit().items();
    let Some(most) = unit.len().checked_add(unit.len()) else {
        return Err(NoMemory);
    };
    if effects.reserve(most).is_err() {
        return Err(NoMemory);
    }
    tell_all_taken(effects, parts, unit);
    tell_all_placed(effects, unit);
    Ok(())
}

fn tell_commit<D: Disk>(
    effects: &mut Effects,
    parts: &Parts<D>,
    number: u64,
    ends: bool,
) -> Result<(), NoMemory>
    requires tied { Tied parts.now }
    requires none { effects.old.dids ≡ [] }
    ensures ok { OnOk result (effects.new.dids ≡ redone_delta true (noted_commit ends (connection_at number (plain_of parts.now).connections)) (plain_of parts.now)) }
{
    match parts.live.get(number) {
        None => Ok(()),
        Some(seat) => {
            if seat.unit().is_forced() {
                tell_unit(effects, parts, seat)
            } else {
                Ok(())
            }
        }
    }
}

fn tell_prepared<D: Disk>(
    effects: &mut Effects,
    parts: &Parts<D>,
    channel: &ChName,
    last: u32,
) -> Result<(), NoMemory>
    requires none { effects.old.dids ≡ [] }
    ensures ok { OnOk result (effects.new.dids ≡ redone_delta true (noted_batch channel.now last (batch_of channel.now (plain_of parts.now).channels.batches) (frozen_of parts.now)) (plain_of parts.now)) }
{
    match batch_of(&parts.ends.batches, channel) {
        None => Ok(()),
        Some(batch) => tell_one(
            effects,
            Did::Prepared {
                channel: *channel,
                unit: batch.unit,
            },
        ),
    }
}

fn tell_hardened<D: Disk>(
    effects: &mut Effects,
    parts: &Parts<D>,
    channel: &ChName,
    note: &Note,
) -> Result<(), NoMemory>
    requires none { effects.old.dids ≡ [] }
    ensures ok { OnOk result (effects.new.dids ≡ redone_part (harden_part channel.now note.now (frozen_of parts.now)) (plain_of parts.now)) }
{
    tell_one(
        effects,
        Did::Hardened {
            channel: *channel,
            note: *note,
        },
    )
}

fn tell_received<D: Disk>(
    effects: &mut Effects,
    parts: &Parts<D>,
    channel: &ChName,
    unit: &Unit,
    last: u32,
    landed: &[Arrival],
) -> Result<(), NoMemory>
    requires none { effects.old.dids ≡ [] }
    ensures ok { OnOk result (effects.new.dids ≡ redone_part (received_part channel.now unit.now last (all_landed landed.now) (frozen_of parts.now)) (plain_of parts.now)) }
{
    let Some(twice) = landed.len().checked_add(landed.len()) else {
        return Err(NoMemory);
    };
    let Some(most) = twice.checked_add(1) else {
        return Err(NoMemory);
    };
    if effects.reserve(most).is_err() {
        return Err(NoMemory);
    }
    tell_all_arrived(effects, parts, landed);
    effects.tell(Did::Received {
        channel: *channel,
        unit: *unit,
    });
    Ok(())
}

fn tell_write<D: Disk>(
    effects: &mut Effects,
    parts: &Parts<D>,
    write: &StoppedWrite,
) -> Result<(), NoMemory>
    requires tied { Tied parts.now }
    requires none { effects.old.dids ≡ [] }
    ensures ok { OnOk result (effects.new.dids ≡ redone_delta true (noted (frozen_of parts.now) (Some write.now)) (plain_of parts.now)) }
{
    match write {
        StoppedWrite::Put { queue, message } => tell_put(effects, parts, queue, message),
        StoppedWrite::Commit { number, ends } => tell_commit(effects, parts, *number, *ends),
        StoppedWrite::Removal {
            queue,
            removes,
            idents,
            why,
        } => tell_removal(
            effects,
            parts,
            queue,
            removes.as_slice(),
            idents.as_slice(),
            *why,
        ),
        StoppedWrite::Objects { .. } => Ok(()),
        StoppedWrite::Hardened { channel, note } => tell_hardened(effects, parts, channel, note),
        StoppedWrite::Settled {
            channel,
            unit,
            commit,
            operator,
            rows,
        } => tell_settlement(
            effects,
            parts,
            channel,
            unit,
            *commit,
            *operator,
            rows.as_slice(),
        ),
        StoppedWrite::Prepared { channel, last } => tell_prepared(effects, parts, channel, *last),
        StoppedWrite::Moved {
            from,
            target,
            bare,
            to,
            message,
        } => tell_moved(effects, parts, from, target, *bare, to, message),
        StoppedWrite::Received {
            channel,
            unit,
            last,
            landed,
        } => tell_received(effects, parts, channel, unit, *last, landed.as_slice()),
    }
}

/// Tells what the write that was stopped did to what lasts, where one was: so a restart tells it that finds its record. Nothing
/// is told before.
///
/// # Errors
///
/// No memory; some of it may then be told.
pub fn tell_redone<D: Disk>(parts: &Parts<D>, effects: &mut Effects) -> Result<(), NoMemory>
    requires tied { Tied parts.now }
    requires none { effects.old.dids ≡ [] }
    ensures ok { OnOk result (effects.new.dids ≡ redone_of (plain_of parts.now)) }
{
    match &parts.mode {
        Mode::Up => Ok(()),
        Mode::Down { write, .. } => match write {
            None => Ok(()),
            Some(write) => tell_write(effects, parts, write),
        },
    }
}
