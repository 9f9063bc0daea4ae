//! What a manager says of the use of its objects.
ghost use Rattle.std.specs.Prelude.{◌≡◌, ◌||◌, is_some, true};
ghost use Rattle.mq_calls.specs.Words.{has_rows, stored, seizure_of, in_doubt_of, sender_in};
ghost use Rattle.mq_spec_manager.specs.Commands.{uses_of};
ghost use Rattle.mq_core.specs.Views.{plain_of};
ghost use Rattle.mq_core.specs.Ties.{Tied};

use mq_base::{ChName, QName};
use mq_calls::Seizure;
use mq_core::below::KeptSender;
use mq_core::{ChannelEnds, Core, Parts};
use mq_disk::Disk;
use mq_resolve::PathStep;
use mq_sc_apply::InUse;

fn is_seized(seizures: &[Seizure], channel: &ChName) -> bool
    ensures { result ≡ is_some (seizure_of channel.now seizures.now) }
{
    for seizure in seizures {
        if *channel == seizure.channel {
            return true;
        }
    }
    false
}

fn is_in_doubt(senders: &[KeptSender], channel: &ChName) -> bool
    ensures { result ≡ is_some (in_doubt_of (sender_in channel.now senders.now)) }
{
    for kept in senders {
        let side = kept.side();
        if *channel == side.channel {
            return side.hardened.in_doubt.is_some();
        }
    }
    false
}

/// Whether a queue has a row, or an uncommitted put waits for it.
#[tactic(auto, using(crate::proofs::UseLaws::rows_are))]
fn has_rows<D: Disk>(parts: &Parts<D>, queue: &QName) -> bool
    requires tied { Tied parts.now }
    ensures { result ≡ has_rows queue.now (plain_of parts.now) }
{
    parts.queues.has_rows(queue)
}

#[tactic(auto, using(mq_core::proofs::PlaceLaws::queue_in_state, mq_core::proofs::ReadLaws::queue_none))]
fn is_switched_off<D: Disk>(parts: &Parts<D>, queue: &QName) -> bool
    ensures { result ≡ (stored queue.now (plain_of parts.now)).switched_off }
{
    match parts.queues.local(queue) {
        None => false,
        Some(rows) => rows.is_switched_off(),
    }
}

/// What a manager says of the use of its objects.
#[derive(Drop)]
pub struct ObjectUse<'a, D: Disk> {
    /// The manager.
    pub core: &'a Core<D>,
}

impl<'a, D: Disk> InUse for ObjectUse<'a, D> {
    ghost facts = { λ u. uses_of u.core.now.plain };

    fn on_path(&self, name: &QName) -> bool {
        let core = self.core;
        core.parts.live.has_step(&PathStep::Queue(*name))
    }

    fn defxmitq_on_path(&self) -> bool {
        let core = self.core;
        core.parts.live.has_step(&PathStep::DefXmitq)
    }

    fn sending(&self, name: &QName) -> bool {
        let core = self.core;
        core.parts.is_read_by_sender(name)
    }

    fn channel_busy(&self, name: &ChName) -> bool {
        let core = self.core;
        is_seized(core.parts.ends.seizures.as_slice(), name)
            || core.parts.ends.bound.is_bound(name)
            || is_in_doubt(core.parts.ends.senders.as_slice(), name)
    }

    fn has_rows(&self, name: &QName) -> bool {
        let core = self.core;
        has_rows(&core.parts, name)
    }

    fn depth(&self, name: &QName) -> u64 {
        let core = self.core;
        core.parts.depth(name)
    }

    fn trigger_off(&self, name: &QName) -> bool {
        let core = self.core;
        is_switched_off(&core.parts, name)
    }
}
