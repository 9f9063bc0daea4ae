//! A sender's batch: rows are held.
ghost use Rattle.std.specs.Prelude.{◌≡◌, ◌<◌, ◌≤◌, map, take, length, IfOk, OnOk, OnErr};
ghost use Rattle.mq_calls.specs.Words.{MeetsOrWants, free_rows};
ghost use Rattle.mq_spec_manager.specs.Words.{idents_of};
ghost use Rattle.mq_spec_manager.specs.Agents.{IsUp, CanHold, hold_batch};
ghost use Rattle.mq_get.specs.from_unit.Told.{told, told_all};
ghost use Rattle.mq_core.specs.Views.{plain_of};
ghost use Rattle.mq_agents.specs.Ends.{by_memory, held_did};
ghost use Rattle.mq_agents.specs.Removing.{batch_held};
ghost use Rattle.mq_core.specs.Values.{manager_of, WritesLog};

use crate::reading::queue_of_sender;
use mq_base::{ChName, Items, NoMemory, QName};
use mq_calls::{Batch, Did};
use mq_core::{Core, Parts};
use mq_disk::Disk;
use mq_get::below::Effects;
use mq_message::{Holder, Ident};
use mq_sides::{KeptBatch, set_side};
use mq_sync::Unit;

fn tell_one_held(effects: &mut Effects, queue: &QName, ident: &Ident, by: &Holder)
    requires { 0 < effects.old.room }
    ensures { effects.new ≡ told (held_did queue.now by.now ident.now) effects.old }
{
    effects.tell(Did::Held {
        queue: *queue,
        ident: *ident,
        by: *by,
    });
}

/// Tells that rows are held. It takes no memory.
#[tactic(auto, using(crate::proofs::TellLaws::tell_fits, crate::proofs::TellLaws::tell_next))]
fn tell_held(effects: &mut Effects, queue: &QName, idents: &[Ident], by: &Holder)
    requires { length idents.now ≤ effects.old.room }
    ensures { effects.new ≡ told_all (map (held_did queue.now by.now) idents.now) effects.old }
{
    for ident in idents {
        tell_one_held(effects, queue, ident, by);
    }
}

/// The idents of the first free rows of a queue, at most so many.
fn first_idents<D: Disk>(
    parts: &Parts<D>,
    queue: &QName,
    most: u32,
) -> Result<Items<Ident>, NoMemory>
    ensures { IfOk result (λ v. v ≡ idents_of (take most (free_rows queue.now (plain_of parts.now)))) }
{
    let mut idents = Items::new(parts.alloc);
    match parts
        .queues
        .free_idents(queue, u64::from(most), &mut idents)
    {
        Ok(()) => Ok(idents),
        Err(NoMemory) => Err(NoMemory),
    }
}

fn copy_idents<D: Disk>(parts: &Parts<D>, idents: &[Ident]) -> Result<Items<Ident>, NoMemory>
    ensures { IfOk result (λ v. v ≡ idents.now) }
{
    match Items::from_slice(parts.alloc, idents) {
        Ok(idents) => Ok(idents),
        Err(_) => Err(NoMemory),
    }
}

/// A batch holds these rows, and has the room for its release.
fn put_batch<D: Disk>(parts: &mut Parts<D>, batch: Batch, idents: &[Ident]) -> Result<(), NoMemory>
    ensures ok { OnOk result (parts.new ≡ batch_held batch idents.now parts.old) }
    ensures err { OnErr result (parts.new ≡ parts.old) }
{
    let queue = batch.queue;
    let by = Holder::Batch(batch.channel);
    let kept = match KeptBatch::new(parts.alloc, batch) {
        Ok(kept) => kept,
        Err(NoMemory) => return Err(NoMemory),
    };
    match set_side(&mut parts.ends.batches, kept) {
        Ok(()) => {}
        Err(NoMemory) => return Err(NoMemory),
    }
    parts.queues.hold_each(&queue, idents, &by);
    Ok(())
}

/// A sender holds the first free rows of its queue, at most so many, as the next unit; their number.
///
/// # Errors
///
/// No memory; nothing has changed.
pub fn hold_batch<D: Disk>(
    core: &mut Core<D>,
    channel: &ChName,
    unit: &Unit,
    most: u32,
) -> Result<u32, NoMemory>
    requires up { IsUp core.old.plain }
    requires can { CanHold channel.now core.old.plain }
    ensures meets { MeetsOrWants (manager_of core.old) (hold_batch channel.now unit.now most core.old.plain) (by_memory result) (manager_of core.new) }
    ensures told { WritesLog core.old (hold_batch channel.now unit.now most core.old.plain) (by_memory result) core.new }
{
    core.begin_call();
    let queue = queue_of_sender(&core.parts, channel);
    let idents = match first_idents(&core.parts, &queue, most) {
        Ok(idents) => idents,
        Err(NoMemory) => return Err(NoMemory),
    };
    let listed = match copy_idents(&core.parts, idents.as_slice()) {
        Ok(listed) => listed,
        Err(NoMemory) => return Err(NoMemory),
    };
    match core.effects.reserve(idents.len()) {
        Ok(()) => {}
        Err(NoMemory) => return Err(NoMemory),
    }
    let batch = Batch {
        channel: *channel,
        unit: *unit,
        queue,
        idents: listed,
    };
    match put_batch(&mut core.parts, batch, idents.as_slice()) {
        Ok(()) => {}
        Err(NoMemory) => return Err(NoMemory),
    }
    let by = Holder::Batch(*channel);
    tell_held(&mut core.effects, &queue, idents.as_slice(), &by);
    Ok(idents.len() as u32)
}
