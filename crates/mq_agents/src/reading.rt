//! What a manager tells channel ends and the handler, without a change.
ghost use Rattle.std.specs.Prelude.{◌≡◌, ℕ, Some, None, option_copied, option_map, not, filter, nat_lt, length};
ghost use Rattle.mq_calls.specs.Words.{is_up, free_rows, is_expired, local_of};
ghost use Rattle.mq_spec_manager.specs.Agents.{kept, next_row, batch_row, at_number, stock, queue_of_sender, is_enabled, expired_rows};
ghost use Rattle.mq_queue.specs.declared.row.Row.{Row};
ghost use Rattle.mq_message.specs.declared.message.Message.{Message};
ghost use Rattle.mq_core.specs.Views.{plain_of};
ghost use Rattle.mq_agents.specs.Ends.{kept_of, place_and_message};

use crate::walking::has_past;
use mq_base::{ChName, QName};
use mq_core::{Core, Parts};
use mq_disk::Disk;
use mq_message::{Ident, Message, Place};
use mq_objects::Defs;
use mq_sides::{batch_of, receiver_of, seizure_of, sender_of};
use mq_sync::{ReceiverData, SenderData, Stock};

/// What is kept of a channel's ends here: what each has hardened, of which at least one has.
pub struct Hardened<'a> {
    /// What the sender has hardened.
    pub sender: Option<&'a SenderData>,
    /// What the receiver has hardened.
    pub receiver: Option<&'a ReceiverData>,
}

/// What this manager's ends of a channel have hardened; none exactly where nothing was hardened yet. It takes no memory.
pub fn kept<'a, D: Disk>(core: &'a Core<D>, channel: &ChName) -> Option<Hardened<'a>>
    ensures { kept_of (option_map (λ k. (option_copied k.sender, option_copied k.receiver)) result) ≡ kept channel.now core.now.plain }
{
    let sender = sender_of(&core.parts.ends.senders, channel);
    let receiver = receiver_of(&core.parts.ends.receivers, channel);
    match sender {
        Some(sender) => Some(Hardened {
            sender: Some(sender),
            receiver,
        }),
        None => match receiver {
            None => None,
            Some(receiver) => Some(Hardened {
                sender: None,
                receiver: Some(receiver),
            }),
        },
    }
}

/// The definitions. It takes no memory.
pub fn defs<D: Disk>(core: &Core<D>) -> &Defs
    ensures { result.now.definitions ≡ core.now.plain.definitions }
{
    &core.parts.defs
}

/// The moment, in milliseconds since 1970. It takes no memory.
pub fn moment<D: Disk>(core: &Core<D>) -> u64
    ensures { result ≡ core.now.plain.moment }
{
    core.parts.moment
}

/// Whether the manager is up. It takes no memory.
pub fn is_up<D: Disk>(core: &Core<D>) -> bool
    ensures { result ≡ is_up core.now.plain.running }
{
    core.is_up()
}

/// The first free row of a queue above a place; none exactly where there is none. It takes no memory.
pub fn next_row<'a, D: Disk>(
    core: &'a Core<D>,
    queue: &QName,
    after: Option<Place>,
) -> Option<(Place, &'a Message)>
    ensures { option_map (λ r. (r.0, r.1.now)) result ≡ option_map place_and_message (next_row queue.now after core.now.plain) }
{
    match core.parts.queues.next_free(queue, after) {
        None => None,
        Some(row) => Some((row.place, &row.message)),
    }
}

/// The ident of a number, from 1.
#[tactic(auto, using(crate::proofs::WalkLaws::at_number_less))]
fn ident_at(idents: &[Ident], index: u32) -> Option<&Ident>
    ensures { option_copied result ≡ at_number index idents.now }
{
    if index == 0 {
        return None;
    }
    idents.get(index as usize - 1)
}

/// The row of that number in the batch of a channel, from 1; none exactly where the batch has none. It takes no memory.
pub fn batch_row<'a, D: Disk>(
    core: &'a Core<D>,
    channel: &ChName,
    index: u32,
) -> Option<&'a Message>
    ensures { option_copied result ≡ batch_row channel.now index core.now.plain }
{
    let Some(batch) = batch_of(&core.parts.ends.batches, channel) else {
        return None;
    };
    let Some(ident) = ident_at(batch.idents.as_slice(), index) else {
        return None;
    };
    core.parts.queues.message(&batch.queue, ident)
}

/// The queue that a sender has open.
pub(crate) fn queue_of_sender<D: Disk>(parts: &Parts<D>, channel: &ChName) -> QName
    ensures { result ≡ queue_of_sender channel.now (plain_of parts.now) }
{
    match seizure_of(&parts.ends.seizures, channel) {
        None => QName::blank(),
        Some(seizure) => seizure.queue,
    }
}

fn is_enabled<D: Disk>(parts: &Parts<D>, queue: &QName) -> bool
    ensures { result ≡ is_enabled (local_of queue.now (plain_of parts.now).definitions) }
{
    match parts.defs.local(queue) {
        None => false,
        Some(local) => local.get_enabled,
    }
}

/// Whether free rows of a queue have expired.
#[tactic(auto, using(mq_core::proofs::PlaceLaws::queue_in_state, mq_core::proofs::ReadLaws::queue_none))]
fn has_expired<D: Disk>(parts: &Parts<D>, queue: &QName) -> bool
    ensures { result ≡ nat_lt 0 (length (expired_rows queue.now (plain_of parts.now))) }
{
    match parts.queues.local(queue) {
        None => false,
        Some(local) => has_past(local, parts.moment),
    }
}

/// How many rows of a queue are free.
#[tactic(auto, using(crate::proofs::WalkLaws::waiting_rows))]
fn count_free<D: Disk>(parts: &Parts<D>, queue: &QName) -> u64
    ensures { result ≡ length (free_rows queue.now (plain_of parts.now)) }
{
    parts.queues.free(queue, 0)
}

/// What a sender sees of its queue, whether it has it open or not. It takes no memory.
pub fn stock<D: Disk>(core: &Core<D>, channel: &ChName) -> Stock
    ensures { result ≡ stock channel.now core.now.plain }
{
    let queue = queue_of_sender(&core.parts, channel);
    Stock {
        enabled: is_enabled(&core.parts, &queue),
        expired: has_expired(&core.parts, &queue),
        free: count_free(&core.parts, &queue),
    }
}
