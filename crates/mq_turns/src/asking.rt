//! What a sender's end asks of its manager before it acts there.
ghost use Rattle.std.specs.Prelude.{◌≡◌, ◌<◌, Some, true, option_map};
ghost use Rattle.mq_core.specs.Views.{plain_of};
ghost use Rattle.mq_calls.specs.Words.{in_doubt_of, sender_data};
ghost use Rattle.mq_sync.specs.Settlement.{sender_or};
ghost use Rattle.mq_spec_manager.specs.Agents.{HasNoBatch, HasSeized, unit_of};

use mq_base::ChName;
use mq_core::Parts;
use mq_core::below::{batch_of, seizure_of, sender_of};
use mq_disk::Disk;
use mq_sync::{SenderData, Unit};
use mq_turn_parts::below::Manager;

/// The channel has its queue open.
fn is_seized<D: Disk>(parts: &Parts<D>, channel: &ChName) -> bool
    ensures { result ≡ true → HasSeized channel.now (plain_of parts.now) }
{
    match seizure_of(&parts.ends.seizures, channel) {
        None => false,
        Some(_) => true,
    }
}

/// It holds no batch.
pub(crate) fn has_no_batch<D: Disk>(parts: &Parts<D>, channel: &ChName) -> bool
    ensures { result ≡ true → HasNoBatch channel.now (plain_of parts.now) }
{
    match batch_of(&parts.ends.batches, channel) {
        None => true,
        Some(_) => false,
    }
}

fn is_unit(hardened: &SenderData, unit: &Unit) -> bool
    ensures { result ≡ true → option_map unit_of hardened.now.in_doubt ≡ Some unit.now }
{
    match &hardened.in_doubt {
        None => false,
        Some(doubt) => doubt.unit == *unit,
    }
}

/// The unit is in doubt.
fn is_in_doubt<D: Disk>(parts: &Parts<D>, channel: &ChName, unit: &Unit) -> bool
    ensures { result ≡ true → option_map unit_of (in_doubt_of (sender_data channel.now (plain_of parts.now))) ≡ Some unit.now }
{
    match sender_of(&parts.ends.senders, channel) {
        None => false,
        Some(hardened) => is_unit(hardened, unit),
    }
}

/// The session is above the one that is hardened.
fn is_new_session<D: Disk>(parts: &Parts<D>, channel: &ChName, session: u64) -> bool
    ensures { result ≡ true → (sender_or (sender_data channel.now (plain_of parts.now))).session < session }
{
    match sender_of(&parts.ends.senders, channel) {
        None => 0 < session,
        Some(hardened) => hardened.session < session,
    }
}

/// The channel has its queue open at a manager.
pub(crate) fn has_seized<D: Disk>(manager: &Manager<D>, channel: &ChName) -> bool
    ensures { result ≡ true → HasSeized channel.now manager.now.plain }
{
    is_seized(&manager.core.parts, channel)
}

/// The unit is in doubt, and no batch is held beside it.
pub(crate) fn may_settle<D: Disk>(manager: &Manager<D>, channel: &ChName, unit: &Unit) -> bool
    ensures { result ≡ true → (option_map unit_of (in_doubt_of (sender_data channel.now manager.now.plain)) ≡ Some unit.now) × HasNoBatch channel.now manager.now.plain }
{
    is_in_doubt(&manager.core.parts, channel, unit) && has_no_batch(&manager.core.parts, channel)
}

/// The session may be hardened.
pub(crate) fn may_begin<D: Disk>(manager: &Manager<D>, channel: &ChName, session: u64) -> bool
    ensures { result ≡ true → (sender_or (sender_data channel.now manager.now.plain)).session < session }
{
    is_new_session(&manager.core.parts, channel, session)
}
