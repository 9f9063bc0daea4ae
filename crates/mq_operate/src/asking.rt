//! What a command asks of a manager before it acts there.
ghost use Rattle.std.specs.Prelude.{◌≡◌, Some, None, true, false, option_map, is_some};
ghost use Rattle.mq_core.specs.Views.{plain_of};
ghost use Rattle.mq_sender.specs.States.{kept_of};
ghost use Rattle.mq_calls.specs.Words.{in_doubt_of, sender_data};
ghost use Rattle.mq_spec_manager.specs.Agents.{HasBatch, HasNoBatch, unit_of};

use mq_base::ChName;
use mq_core::Parts;
use mq_disk::Disk;
use mq_sender::Kept;
use mq_sides::{batch_of, sender_of};
use mq_sync::{SenderData, Unit};
use mq_turn_parts::below::Manager;

fn kept_in<D: Disk>(parts: &Parts<D>, channel: &ChName) -> Kept
    ensures { result ≡ kept_of (sender_data channel.now (plain_of parts.now)) }
{
    Kept::of(sender_of(&parts.ends.senders, channel))
}

/// What is hardened of a sender.
pub fn kept_here<D: Disk>(manager: &Manager<D>, channel: &ChName) -> Kept
    ensures { result ≡ kept_of (sender_data channel.now manager.now.plain) }
{
    kept_in(&manager.core.parts, channel)
}

fn holds<D: Disk>(parts: &Parts<D>, channel: &ChName) -> bool
    ensures batch { result ≡ true → HasBatch channel.now (plain_of parts.now) }
    ensures none { result ≡ false → HasNoBatch channel.now (plain_of parts.now) }
{
    match batch_of(&parts.ends.batches, channel) {
        None => false,
        Some(_) => true,
    }
}

/// It holds a batch.
pub fn has_batch<D: Disk>(manager: &Manager<D>, channel: &ChName) -> bool
    ensures batch { result ≡ true → HasBatch channel.now manager.now.plain }
    ensures none { result ≡ false → HasNoBatch channel.now manager.now.plain }
{
    holds(&manager.core.parts, channel)
}

fn unit_of(hardened: &SenderData) -> Option<Unit>
    ensures { result ≡ option_map unit_of hardened.now.in_doubt }
{
    match &hardened.in_doubt {
        None => None,
        Some(doubt) => Some(doubt.unit),
    }
}

fn unit_in<D: Disk>(parts: &Parts<D>, channel: &ChName) -> Option<Unit>
    ensures { result ≡ option_map unit_of (in_doubt_of (sender_data channel.now (plain_of parts.now))) }
{
    match sender_of(&parts.ends.senders, channel) {
        None => None,
        Some(hardened) => unit_of(hardened),
    }
}

/// Its unit in doubt.
pub fn unit_in_doubt<D: Disk>(manager: &Manager<D>, channel: &ChName) -> Option<Unit>
    ensures { result ≡ option_map unit_of (in_doubt_of (sender_data channel.now manager.now.plain)) }
{
    unit_in(&manager.core.parts, channel)
}

/// It has one.
#[tactic(auto, using(crate::proofs::SenderLaws::unit_none, crate::proofs::SenderLaws::unit_some))]
pub fn is_in_doubt<D: Disk>(manager: &Manager<D>, channel: &ChName) -> bool
    ensures { result ≡ is_some (in_doubt_of (sender_data channel.now manager.now.plain)) }
{
    match unit_in_doubt(manager, channel) {
        None => false,
        Some(_) => true,
    }
}
