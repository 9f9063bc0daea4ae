//! A batch that a sender's turn holds, and gives up again where the cable refuses its first message.
ghost use Rattle.std.specs.Prelude.{◌≡◌, true, IfOk};
ghost use Rattle.mq_calls.specs.declared.choices.Choice.TheVariants as choices;
ghost use Rattle.mq_core.specs.Views.{plain_of};
ghost use Rattle.mq_calls.specs.Words.{do_all};
ghost use Rattle.mq_spec_manager.specs.Agents.{CanHold, HasBatch, HasNoDoubt, IsUp, hold_batch, release_batch};
ghost use Rattle.mq_spec_node.specs.Words.{parts_of};
ghost use Rattle.mq_turn_parts.specs.from_agents.Releasing.{batch_freed};
ghost use Rattle.mq_turn_parts.specs.Turns.{IsBehind, MadeOr};

use crate::asking::{has_no_batch, has_seized};
use mq_base::{ChName, NoMemory};
use mq_core::below::{drop_side, sender_of};
use mq_core::{Core, Parts};
use mq_disk::Disk;
use mq_message::Holder;
use mq_sync::Unit;
use mq_turn_parts::below::{Manager, NodeParts, Told};
use mq_turn_parts::ran;

/// It has nothing in doubt.
fn has_no_doubt<D: Disk>(parts: &Parts<D>, channel: &ChName) -> bool
    ensures { result ≡ true → HasNoDoubt channel.now (plain_of parts.now) }
{
    match sender_of(&parts.ends.senders, channel) {
        None => true,
        Some(hardened) => hardened.in_doubt.is_none(),
    }
}

/// The channel may hold a batch.
#[tactic(auto, using(crate::proofs::HoldLaws::can_hold))]
fn may_hold<D: Disk>(manager: &Manager<D>, channel: &ChName) -> bool
    requires up { IsUp manager.now.plain }
    ensures { result ≡ true → CanHold channel.now manager.now.plain }
{
    manager.facts();
    has_seized(manager, channel)
        && has_no_batch(&manager.core.parts, channel)
        && has_no_doubt(&manager.core.parts, channel)
}

/// The first free rows are held as a batch.
fn held<D: Disk>(
    manager: &mut Manager<D>,
    channel: &ChName,
    unit: &Unit,
    most: u32,
) -> Result<Told, NoMemory>
    requires up { IsUp manager.old.plain }
    requires can { CanHold channel.now manager.old.plain }
    ensures told { MadeOr (parts_of (hold_batch channel.now unit.now most manager.old.plain)) result manager.old manager.new }
    ensures ran { IfOk result (λ t. t.choice ≡ choices.Runs) }
{
    match manager.hold_batch(channel, unit, most) {
        Ok(_) => Ok(ran(manager)),
        Err(NoMemory) => Err(NoMemory),
    }
}

/// So, where the channel may; where it may not, which never comes, there is no memory.
#[tactic(auto, using(mq_turn_parts::proofs::AgentLaws::as_was))]
fn held_if<D: Disk>(
    manager: &mut Manager<D>,
    channel: &ChName,
    unit: &Unit,
    most: u32,
) -> Result<Told, NoMemory>
    requires up { IsUp manager.old.plain }
    ensures told { MadeOr (parts_of (hold_batch channel.now unit.now most manager.old.plain)) result manager.old manager.new }
    ensures ran { IfOk result (λ t. (t.choice ≡ choices.Runs) × CanHold channel.now manager.old.plain) }
{
    if !may_hold(manager, channel) {
        return Err(NoMemory);
    }
    held(manager, channel, unit, most)
}

/// So at a node.
pub(crate) fn held_in<D: Disk>(
    parts: &mut NodeParts<D>,
    channel: &ChName,
    unit: &Unit,
    most: u32,
) -> Result<Told, NoMemory>
    requires up { IsUp parts.old.manager.plain }
    ensures same { parts.new ≡ record parts.old { manager = parts.new.manager } }
    ensures told { MadeOr (parts_of (hold_batch channel.now unit.now most parts.old.manager.plain)) result parts.old.manager parts.new.manager }
    ensures ran { IfOk result (λ t. (t.choice ≡ choices.Runs) × CanHold channel.now parts.old.manager.plain) }
{
    held_if(&mut parts.manager, channel, unit, most)
}

fn free_batch<D: Disk>(parts: &mut Parts<D>, channel: &ChName)
    ensures { parts.new ≡ batch_freed channel.now parts.old }
{
    parts.queues.free_held(&Holder::Batch(*channel));
    drop_side(parts.alloc, &mut parts.ends.batches, channel);
}

/// A batch that was just held is given up. It takes no memory, and tells nothing.
fn give_up_in<D: Disk>(core: &mut Core<D>, channel: &ChName)
    requires up { IsUp core.old.plain }
    requires batch { HasBatch channel.now core.old.plain }
    ensures plain { core.new.plain ≡ do_all (parts_of (release_batch channel.now core.old.plain)) core.old.plain }
    ensures log { core.new.log ≡ core.old.log }
    ensures faults { core.new.faults ≡ core.old.faults }
{
    core.begin_call();
    free_batch(&mut core.parts, channel);
}

/// So at a manager, whose type is kept (proofs/GiveLaws `given_kept`); with HoldLaws `given_up` all is as before it was held.
#[tactic(auto, using(crate::proofs::GiveLaws::give_behind))]
fn give_up<D: Disk>(manager: &mut Manager<D>, channel: &ChName)
    requires up { IsUp manager.old.plain }
    requires batch { HasBatch channel.now manager.old.plain }
    ensures { IsBehind (parts_of (release_batch channel.now manager.old.plain)) manager.old manager.new }
{
    give_up_in(&mut manager.core, channel);
}

/// So at a node.
pub(crate) fn give_up_at<D: Disk>(parts: &mut NodeParts<D>, channel: &ChName)
    requires up { IsUp parts.old.manager.plain }
    requires batch { HasBatch channel.now parts.old.manager.plain }
    ensures same { parts.new ≡ record parts.old { manager = parts.new.manager } }
    ensures behind { IsBehind (parts_of (release_batch channel.now parts.old.manager.plain)) parts.old.manager parts.new.manager }
{
    give_up(&mut parts.manager, channel);
}
