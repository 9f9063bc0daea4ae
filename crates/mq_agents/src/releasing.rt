//! A sender's batch that is not prepared is released.
ghost use Rattle.std.specs.Prelude.{◌≡◌, ◌<◌, ◌≤◌, map, length, Ok};
ghost use Rattle.mq_calls.specs.Words.{MeetsInRoom, batch_of};
ghost use Rattle.mq_spec_manager.specs.Agents.{IsUp, HasBatch, release_batch};
ghost use Rattle.mq_get.specs.from_unit.Told.{told, told_all};
ghost use Rattle.mq_core.specs.Views.{plain_of};
ghost use Rattle.mq_agents.specs.Releasing.{batch_freed, released_did};
ghost use Rattle.mq_core.specs.Values.{manager_of, WritesLog};

use mq_base::{ChName, QName};
use mq_calls::Did;
use mq_core::{Core, Parts};
use mq_disk::Disk;
use mq_get::below::Effects;
use mq_message::{Holder, Ident};
use mq_sides::{KeptBatch, take_side};

fn tell_one_released(effects: &mut Effects, queue: &QName, ident: &Ident)
    requires { 0 < effects.old.room }
    ensures { effects.new ≡ told (released_did queue.now ident.now) effects.old }
{
    effects.tell(Did::Released {
        queue: *queue,
        ident: *ident,
    });
}

/// Tells that rows are free again. It takes no memory.
#[tactic(auto, using(crate::proofs::TellLaws::tell_fits, crate::proofs::TellLaws::tell_next))]
fn tell_released(effects: &mut Effects, queue: &QName, idents: &[Ident])
    requires { length idents.now ≤ effects.old.room }
    ensures { effects.new ≡ told_all (map (released_did queue.now) idents.now) effects.old }
{
    for ident in idents {
        tell_one_released(effects, queue, ident);
    }
}

/// The rows of a batch are free again at their places, and it is no more. It takes no memory.
#[tactic(auto, using(mq_sides::proofs::PlaceLaws::batch_found))]
fn take_batch<D: Disk>(parts: &mut Parts<D>, channel: &ChName) -> Option<KeptBatch>
    ensures batch { result ≡ batch_of channel.now (plain_of parts.old).channels.batches }
    ensures freed { parts.new ≡ batch_freed channel.now parts.old }
{
    parts.queues.free_held(&Holder::Batch(*channel));
    take_side(parts.alloc, &mut parts.ends.batches, channel)
}

/// A batch that is not prepared is released: its rows are free again, at their places, with no backout counted. It takes no memory: the
/// batch was held with the room that this needs.
pub fn release_batch<D: Disk>(core: &mut Core<D>, channel: &ChName)
    requires up { IsUp core.old.plain }
    requires batch { HasBatch channel.now core.old.plain }
    ensures meets { MeetsInRoom (manager_of core.old) (release_batch channel.now core.old.plain) (Ok tt) (manager_of core.new) }
    ensures told { WritesLog core.old (release_batch channel.now core.old.plain) (Ok tt) core.new }
{
    core.begin_call();
    let Some(kept) = take_batch(&mut core.parts, channel) else {
        return;
    };
    let (batch, effects) = kept.into_parts();
    core.effects = effects;
    tell_released(&mut core.effects, &batch.queue, batch.idents.as_slice());
}
