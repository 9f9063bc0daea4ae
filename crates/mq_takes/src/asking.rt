//! What a receiver's end asks of its manager before it acts there.
ghost use Rattle.std.specs.Prelude.{◌≡◌, ◌<◌, true};
ghost use Rattle.mq_calls.specs.declared.agents.Note.TheVariants as notes;
ghost use Rattle.mq_takes.specs.Words as words;

use mq_base::ChName;
use mq_core::Parts;
use mq_disk::Disk;
use mq_sides::receiver_data;
use mq_turn_parts::below::Manager;

/// The session is the one that is hardened, and it is open.
fn is_open<D: Disk>(parts: &Parts<D>, channel: &ChName, session: u64) -> bool
    ensures { result ≡ true → words.CanHarden channel.now (notes.Closed session) (words.plain_of parts.now) }
{
    let hardened = receiver_data(&parts.ends.receivers, channel);
    0 < session && session == hardened.session && !hardened.closed
}

/// The session is above the one that is hardened.
fn is_new<D: Disk>(parts: &Parts<D>, channel: &ChName, session: u64) -> bool
    ensures { result ≡ true → (words.receiver_or (words.receiver_data channel.now (words.plain_of parts.now))).session < session }
{
    let hardened = receiver_data(&parts.ends.receivers, channel);
    hardened.session < session
}

/// The session may be closed at a manager.
pub(crate) fn may_close<D: Disk>(manager: &Manager<D>, channel: &ChName, session: u64) -> bool
    ensures { result ≡ true → words.CanHarden channel.now (notes.Closed session) manager.now.plain }
{
    is_open(&manager.core.parts, channel, session)
}

/// The session may be bound at a manager.
pub(crate) fn may_bind<D: Disk>(manager: &Manager<D>, channel: &ChName, session: u64) -> bool
    ensures { result ≡ true → (words.receiver_or (words.receiver_data channel.now manager.now.plain)).session < session }
{
    is_new(&manager.core.parts, channel, session)
}
