//! What is kept for a channel, list by list.
ghost use Rattle.std.specs.Prelude.{◌≡◌, option_copied, IfOk};
ghost use Rattle.mq_unit.specs.from_calls.Words.{batch_of, receiver_in, receiver_or, sender_or, seizure_of, sender_in};

use crate::kept::{KeptBatch, KeptReceiver, KeptSender};
use crate::sides::side_of;
use mq_base::{ChName, Items, NoMemory, QName};
use mq_unit::below::{Batch, ReceiverData, Seizure, SenderData, Unit, copy_doubt};
use std::alloc::Global;

/// What the sender of a channel has hardened.
#[tactic(auto, using(crate::proofs::PlaceLaws::sender_found))]
pub fn sender_of<'a>(sides: &'a Items<KeptSender>, channel: &ChName) -> Option<&'a SenderData>
    ensures { option_copied result ≡ sender_in channel.now sides.now }
{
    match side_of(sides, channel) {
        None => None,
        Some(kept) => Some(&kept.side().hardened),
    }
}

/// What the receiver of a channel has hardened.
#[tactic(auto, using(crate::proofs::PlaceLaws::receiver_found))]
pub fn receiver_of<'a>(sides: &'a Items<KeptReceiver>, channel: &ChName) -> Option<&'a ReceiverData>
    ensures { option_copied result ≡ receiver_in channel.now sides.now }
{
    match side_of(sides, channel) {
        None => None,
        Some(kept) => Some(&kept.side().hardened),
    }
}

/// The queue that a running sender has open.
#[tactic(auto, using(crate::proofs::PlaceLaws::seizure_found))]
pub fn seizure_of<'a>(seizures: &'a Items<Seizure>, channel: &ChName) -> Option<&'a Seizure>
    ensures { option_copied result ≡ seizure_of channel.now seizures.now }
{
    side_of(seizures, channel)
}

/// The batch of a channel that is not prepared.
#[tactic(auto, using(crate::proofs::PlaceLaws::batch_found))]
pub fn batch_of<'a>(batches: &'a Items<KeptBatch>, channel: &ChName) -> Option<&'a Batch>
    ensures { option_copied result ≡ batch_of channel.now batches.now }
{
    match side_of(batches, channel) {
        None => None,
        Some(kept) => Some(kept.batch()),
    }
}

fn copy_sender(alloc: Global, old: &SenderData) -> Result<SenderData, NoMemory>
    ensures { IfOk result (λ d. d ≡ old.now) }
{
    let in_doubt = copy_doubt(alloc, &old.in_doubt)?;
    Ok(SenderData {
        partner: old.partner,
        session: old.session,
        last: old.last,
        force: old.force,
        in_doubt,
    })
}

fn sender_or_blank(alloc: Global, found: Option<&SenderData>) -> Result<SenderData, NoMemory>
    ensures { IfOk result (λ d. d ≡ sender_or (option_copied found.entry)) }
{
    match found {
        None => Ok(SenderData {
            partner: QName::blank(),
            session: 0,
            last: 0,
            force: false,
            in_doubt: None,
        }),
        Some(old) => copy_sender(alloc, old),
    }
}

/// A copy of what the sender of a channel has hardened; of what a new one has where there is none.
///
/// # Errors
///
/// No memory.
pub fn sender_data(
    alloc: Global,
    sides: &Items<KeptSender>,
    channel: &ChName,
) -> Result<SenderData, NoMemory>
    ensures { IfOk result (λ d. d ≡ sender_or (sender_in channel.now sides.now)) }
{
    sender_or_blank(alloc, sender_of(sides, channel))
}

fn receiver_or_blank(found: Option<&ReceiverData>) -> ReceiverData
    ensures { result ≡ receiver_or (option_copied found.entry) }
{
    match found {
        None => ReceiverData {
            partner: QName::blank(),
            session: 0,
            closed: false,
            unit: Unit { session: 0, n: 0 },
            last: 0,
        },
        Some(old) => ReceiverData {
            partner: old.partner,
            session: old.session,
            closed: old.closed,
            unit: old.unit,
            last: old.last,
        },
    }
}

/// What the receiver of a channel has hardened; what a new one has where there is none. It takes no memory.
pub fn receiver_data(sides: &Items<KeptReceiver>, channel: &ChName) -> ReceiverData
    ensures { result ≡ receiver_or (receiver_in channel.now sides.now) }
{
    receiver_or_blank(receiver_of(sides, channel))
}
