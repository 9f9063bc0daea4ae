//! A batch becomes the unit in doubt of its channel.
ghost use Rattle.std.specs.Prelude.{◌≡◌, ◌+◌, ◌*◌, ◌<◌, ◌≤◌, ◌^◌, ℕ, List, Some, true, false, length, option_copied, IfOk, OnOk, OnErr};
ghost use Rattle.std.specs.List.{flat_map, AllByRecursion};
ghost use Rattle.mq_frame.specs.Frames.{ident_bytes, IsIdent};
ghost use Rattle.mq_calls.specs.Words.{MeetsOrWants, batch_of, is_full, need, set_sender};
ghost use Rattle.mq_spec_manager.specs.Agents.{IsUp, CanPrepare, prepare, prepared_doubt, prepared_record};
ghost use Rattle.mq_record.specs.Room.{with_piece};
ghost use Rattle.mq_core.specs.declared.parts.StoppedWrite.TheVariants as writes;
ghost use Rattle.mq_core.specs.Views.{plain_of};
ghost use Rattle.mq_calls.specs.declared.state.SenderSide.{SenderSide as Sender};
ghost use Rattle.mq_core.specs.Ties.{EndsReady, Tied};
ghost use Rattle.mq_calls.specs.Recovery.{listed};
ghost use Rattle.mq_core.specs.Forced.{HasMoreRoom};
ghost use Rattle.mq_agents.specs.Ends.{by_prepare};
ghost use Rattle.mq_agents.specs.Written.{Writes, with_senders};
ghost use Rattle.mq_agents.specs.Removing.{Doubts, ident_put, IsDoubtOf, IsFilled, doubt_record, without_one};
ghost use Rattle.mq_core.specs.Values.{manager_of, WritesLog};

use crate::hardening::{
    Unwritten, agent_of, aside_log, force_side, go_down_if, kept_sender, sender_now, stop_of,
};
use mq_base::{ChName, Items, NoMemory};
use mq_calls::{AgentStop, Batch, Did, PrepareFault, SenderSide};
use mq_core::{Core, Parts, StoppedWrite};
use mq_disk::Disk;
use mq_get::make_record_room;
use mq_message::Ident;
use mq_record::{Buffer, prepared_front};
use mq_sides::{KeptSender, batch_of, drop_side};
use mq_sync::{InDoubt, SenderData};

/// The most idents whose record is shorter than 2^32 bytes.
const MOST_IDENTS: usize = 252_645_129;

/// What the log takes of a unit in doubt that is settled, in bytes.
pub(crate) const SETTLING: u64 = 44;

/// Whether the log lacks the room for a batch to be prepared.
#[tactic(auto, using(crate::proofs::FillLaws::full_long))]
fn is_batch_full<D: Disk>(parts: &Parts<D>, batch: &Batch) -> bool
    requires tied { Tied parts.now }
    requires up { IsUp (plain_of parts.now) }
    ensures full { (channel : List ℕ) (last : ℕ) → result ≡ is_full (need (prepared_record channel last batch.now)) (plain_of parts.now) }
    ensures few { result ≡ false → length batch.now.idents ≤ 252645129 }
{
    if batch.idents.len() > MOST_IDENTS {
        return true;
    }
    parts.is_full(98 + 17 * batch.idents.len() as u64)
}

fn copy_batch<D: Disk>(parts: &Parts<D>, batch: &Batch, last: u32) -> Result<InDoubt, NoMemory>
    ensures { IfOk result (λ d. d ≡ prepared_doubt last batch.now) }
{
    match Items::from_slice(parts.alloc, batch.idents.as_slice()) {
        Ok(idents) => Ok(InDoubt {
            unit: batch.unit,
            queue: batch.queue,
            idents,
            last,
        }),
        Err(_) => Err(NoMemory),
    }
}

/// The batch of a channel that is not prepared.
pub(crate) fn batch_now<'a, D: Disk>(parts: &'a Parts<D>, channel: &ChName) -> Option<&'a Batch>
    ensures { option_copied result ≡ batch_of channel.now (plain_of parts.now).channels.batches }
{
    batch_of(&parts.ends.batches, channel)
}

#[tactic(auto, unfolding(crate::specs::Removing::ident_put))]
fn put_one(body: &mut Buffer, ident: &Ident)
    requires { 17 ≤ body.old.room }
    ensures bytes { body.new ≡ ident_put ident.now body.old }
    ensures ident { IsIdent ident.now }
{
    body.put_ident(ident);
}

#[tactic(auto, using(crate::proofs::FillLaws::put_fits, crate::proofs::FillLaws::put_next))]
fn put_idents(body: &mut Buffer, idents: &[Ident])
    requires { 17 * length idents.now ≤ body.old.room }
    ensures bytes { body.new ≡ with_piece (flat_map ident_bytes idents.now) body.old }
    ensures idents { AllByRecursion IsIdent idents.now }
{
    for ident in idents {
        put_one(body, ident);
    }
}

/// The record of a unit in doubt is put into the body, and there is room for it in the log.
fn fill_prepared<D: Disk>(
    parts: &mut Parts<D>,
    channel: &ChName,
    doubt: &InDoubt,
) -> Result<(), NoMemory>
    requires few { length doubt.now.idents ≤ 252645129 }
    ensures ok { OnOk result (IsFilled (doubt_record channel.now doubt.now) parts.old parts.new) }
    ensures err { OnErr result (HasMoreRoom parts.old parts.new) }
{
    let count = doubt.idents.len();
    match make_record_room(parts, 98 + 17 * count as u64) {
        Ok(()) => {}
        Err(NoMemory) => return Err(NoMemory),
    }
    parts.body.clear();
    parts.body.put(&prepared_front(channel, doubt.unit, doubt.last, &doubt.queue, count as u32));
    put_idents(&mut parts.body, doubt.idents.as_slice());
    Ok(())
}

/// Forces the record in the body, with what it says of a sender; where its write was stopped nothing of that stands, and the manager is down.
fn write_doubt<D: Disk>(
    parts: &mut Parts<D>,
    channel: &ChName,
    last: u32,
    side: KeptSender,
) -> Result<(), Unwritten>
    requires live { parts.old.log.live ≡ true }
    requires small { length parts.old.body.bytes < 2 ^ 32 }
    requires ends { EndsReady (with_senders (set_sender side parts.old.ends.senders) parts.old.ends) parts.old.log.spare }
    ensures { Writes parts.old.body.bytes (with_senders (set_sender side parts.old.ends.senders) parts.old.ends) (writes.Prepared channel.now last) parts.old result parts.new }
{
    match force_side(
        &mut parts.ends.senders,
        &mut parts.log,
        parts.body.as_slice(),
        side,
    ) {
        Ok(_) => {}
        Err(unwritten) => {
            let write = StoppedWrite::Prepared {
                channel: *channel,
                last,
            };
            go_down_if(parts, unwritten, write);
            return Err(unwritten);
        }
    }
    Ok(())
}

/// Sets aside what the settlement of a unit of so many rows takes: of the log, and for the note of its stopped write.
fn aside_for_doubt<D: Disk>(parts: &mut Parts<D>, count: usize) -> Result<(), NoMemory>
    ensures more { HasMoreRoom parts.old parts.new }
    ensures ready { OnOk result (EndsReady parts.old.ends parts.old.log.spare → (side : Sender) → length (listed side.hardened.in_doubt) ≡ count → EndsReady (with_senders (set_sender side parts.new.ends.senders) parts.new.ends) parts.new.log.spare) }
{
    match aside_rows(parts, count) {
        Ok(()) => {}
        Err(NoMemory) => return Err(NoMemory),
    }
    match aside_log(parts, SETTLING) {
        Ok(()) => Ok(()),
        Err(NoMemory) => Err(NoMemory),
    }
}

/// Makes room for so many rows of a note.
fn aside_rows<D: Disk>(parts: &mut Parts<D>, count: usize) -> Result<(), NoMemory>
    ensures more { HasMoreRoom parts.old parts.new }
    ensures spare { parts.new.log.spare ≡ parts.old.log.spare }
    ensures ends { parts.new.ends ≡ record parts.old.ends { rows = parts.new.ends.rows } }
    ensures room { OnOk result (parts.old.ends.rows.room + length parts.old.ends.rows.rows + count ≤ parts.new.ends.rows.room + length parts.new.ends.rows.rows) }
{
    match parts.ends.rows.set_aside(count) {
        Ok(()) => {}
        Err(NoMemory) => return Err(NoMemory),
    }
    Ok(())
}

/// The batch of a channel is no more. It takes no memory.
fn drop_batch<D: Disk>(parts: &mut Parts<D>, channel: &ChName)
    ensures { parts.new ≡ record parts.old { ends = without_one channel.now parts.old.ends } }
{
    drop_side(parts.alloc, &mut parts.ends.batches, channel);
}

/// The batch of a channel becomes its unit in doubt.
fn prepare_unit<D: Disk>(
    core: &mut Core<D>,
    channel: &ChName,
    last: u32,
    doubt: InDoubt,
) -> Result<(), PrepareFault>
    requires up { IsUp core.old.plain }
    requires batch { IsDoubtOf doubt last (batch_of channel.now core.old.plain.channels.batches) }
    requires few { length doubt.idents ≤ 252645129 }
    requires fits { is_full (need (doubt_record channel.now doubt)) core.old.plain ≡ false }
    ensures meets { MeetsOrWants (manager_of core.old) (prepare channel.now last core.old.plain) (by_prepare result) (manager_of core.new) }
    ensures told { WritesLog core.old (prepare channel.now last core.old.plain) (by_prepare result) core.new }
{
    core.begin_call();
    match core.effects.reserve(1) {
        Ok(()) => {}
        Err(NoMemory) => return Err(PrepareFault::Stop(AgentStop::NoMemory)),
    }
    let old = match sender_now(&core.parts, channel) {
        Ok(old) => old,
        Err(NoMemory) => return Err(PrepareFault::Stop(AgentStop::NoMemory)),
    };
    match aside_for_doubt(&mut core.parts, doubt.idents.len()) {
        Ok(()) => {}
        Err(NoMemory) => return Err(PrepareFault::Stop(AgentStop::NoMemory)),
    }
    match fill_prepared(&mut core.parts, channel, &doubt) {
        Ok(()) => {}
        Err(NoMemory) => return Err(PrepareFault::Stop(AgentStop::NoMemory)),
    }
    let unit = doubt.unit;
    let side = SenderSide {
        channel: *channel,
        hardened: SenderData {
            partner: old.partner,
            session: old.session,
            last: old.last,
            force: false,
            in_doubt: Some(doubt),
        },
    };
    let kept = match kept_sender(&core.parts, side) {
        Ok(kept) => kept,
        Err(NoMemory) => return Err(PrepareFault::Stop(AgentStop::NoMemory)),
    };
    match write_doubt(&mut core.parts, channel, last, kept) {
        Ok(()) => {}
        Err(unwritten) => {
            let stopped = stop_of(unwritten);
            let agent = agent_of(unwritten);
            core.stopped = stopped;
            return Err(PrepareFault::Stop(agent));
        }
    }
    drop_batch(&mut core.parts, channel);
    core.effects.tell(Did::Prepared {
        channel: *channel,
        unit,
    });
    Ok(())
}

/// The unit in doubt that the batch of a channel becomes; none where it has no batch.
fn doubt_of<D: Disk>(
    parts: &Parts<D>,
    channel: &ChName,
    last: u32,
) -> Result<Option<InDoubt>, PrepareFault>
    requires tied { Tied parts.now }
    requires up { IsUp (plain_of parts.now) }
    ensures { Doubts channel.now last (plain_of parts.now) result }
{
    let Some(batch) = batch_now(parts, channel) else {
        return Ok(None);
    };
    if is_batch_full(parts, batch) {
        return Err(PrepareFault::NoRoom);
    }
    match copy_batch(parts, batch, last) {
        Ok(doubt) => Ok(Some(doubt)),
        Err(NoMemory) => Err(PrepareFault::Stop(AgentStop::NoMemory)),
    }
}

/// The batch of a channel becomes its unit in doubt, behind a forced record: `NoRoom` exactly where the log has no room for it.
///
/// # Errors
///
/// As said; the disk or the cut stopped the write, and the manager is down; no memory, and nothing has changed.
pub fn prepare<D: Disk>(core: &mut Core<D>, channel: &ChName, last: u32) -> Result<(), PrepareFault>
    requires up { IsUp core.old.plain }
    requires can { CanPrepare channel.now core.old.plain }
    ensures meets { MeetsOrWants (manager_of core.old) (prepare channel.now last core.old.plain) (by_prepare result) (manager_of core.new) }
    ensures told { WritesLog core.old (prepare channel.now last core.old.plain) (by_prepare result) core.new }
{
    match doubt_of(&core.parts, channel, last) {
        Ok(None) => {
            core.begin_call();
            Ok(())
        }
        Ok(Some(doubt)) => prepare_unit(core, channel, last, doubt),
        Err(fault) => {
            core.begin_call();
            Err(fault)
        }
    }
}
