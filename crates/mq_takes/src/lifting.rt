//! A receiver end that was lifted out of its place.
ghost use Rattle.std.specs.Prelude.{◌≡◌};
ghost use Rattle.mq_takes.specs.Words as words;

use mq_cabled::{lift_receiver, set_end};
use mq_disk::Disk;
use mq_own::{ChannelEnd, EndKind, ReceiverEnd};
use mq_turn_parts::below::NodeParts;

/// The receiver end of a cable, lifted out of its place. It takes no memory.
pub(crate) fn lift<D: Disk>(parts: &mut NodeParts<D>, cable: u16) -> Option<ReceiverEnd>
    ensures end { result ≡ words.receiver_end cable parts.old.own }
    ensures left { parts.new ≡ record parts.old { own = words.with_lifted cable parts.old.own } }
{
    lift_receiver(parts.alloc, &mut parts.own, cable)
}

/// An end that was lifted stands in its place again. It takes no memory.
pub(crate) fn put_back<D: Disk>(parts: &mut NodeParts<D>, end: ReceiverEnd)
    ensures { parts.new ≡ words.whole end parts.old }
{
    let kind = EndKind::Receives(end);
    set_end(&mut parts.own, ChannelEnd { kind });
}

/// The cable of an end.
pub(crate) fn cable_of(end: &ReceiverEnd) -> u16
    ensures { result ≡ end.now.cable }
{
    end.cable
}
