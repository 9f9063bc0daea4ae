//! What the two ends of a channel had hardened at the first starts.
ghost use Rattle.std.specs.Prelude.{◌≡◌, option_copied, slice_get};
ghost use Rattle.mq_calls.specs.Reads.{sender_in};
ghost use Rattle.mq_sync.specs.Settlement.{sender_or, receiver_or};
ghost use Rattle.mq_net_apart.specs.Opened.{opened_sender};

use mq_base::{ChName, QName};
use mq_calls::SenderSide;
use mq_history::History;
use mq_sync::{InDoubt, ReceiverData, SenderData, Unit};

/// What a sender has hardened.
pub fn sender_in<'a>(sides: &'a [SenderSide], channel: &ChName) -> Option<&'a SenderData>
    ensures { option_copied result ≡ sender_in channel.now sides.now }
{
    for side in sides {
        if *channel == side.channel {
            return Some(&side.hardened);
        }
    }
    None
}

/// What a sender at a manager had hardened.
pub fn opened_sender<'a>(
    histories: &'a [History],
    manager: usize,
    channel: &ChName,
) -> Option<&'a SenderData>
    ensures { option_copied result ≡ opened_sender channel.now (slice_get histories.now manager) }
{
    match histories.get(manager) {
        None => None,
        Some(history) => sender_in(history.opening.senders.as_slice(), channel),
    }
}

/// The partner that a sender keeps, blank for none.
pub fn sender_partner(sender: Option<&SenderData>) -> QName
    ensures { result ≡ (sender_or (option_copied sender.entry)).partner }
{
    match sender {
        None => QName::blank(),
        Some(data) => data.partner,
    }
}

/// The session of a sender, 0 for none.
pub fn sender_session(sender: Option<&SenderData>) -> u64
    ensures { result ≡ (sender_or (option_copied sender.entry)).session }
{
    match sender {
        None => 0,
        Some(data) => data.session,
    }
}

/// The unit in doubt of a sender, if any.
pub fn doubt_of<'a>(sender: Option<&'a SenderData>) -> Option<&'a InDoubt>
    ensures { option_copied result ≡ (sender_or (option_copied sender.entry)).in_doubt }
{
    match sender {
        None => None,
        Some(data) => data.in_doubt.as_ref(),
    }
}

/// The partner that a receiver keeps, blank for none.
pub fn receiver_partner(receiver: Option<&ReceiverData>) -> QName
    ensures { result ≡ (receiver_or (option_copied receiver.entry)).partner }
{
    match receiver {
        None => QName::blank(),
        Some(data) => data.partner,
    }
}

/// The session of a receiver, 0 for none.
pub fn receiver_session(receiver: Option<&ReceiverData>) -> u64
    ensures { result ≡ (receiver_or (option_copied receiver.entry)).session }
{
    match receiver {
        None => 0,
        Some(data) => data.session,
    }
}

/// The last unit that a receiver committed, (0, 0) for none.
pub fn receiver_unit(receiver: Option<&ReceiverData>) -> Unit
    ensures { result ≡ (receiver_or (option_copied receiver.entry)).unit }
{
    match receiver {
        None => Unit { session: 0, n: 0 },
        Some(data) => data.unit,
    }
}
