//! The lines of a receiver's turn table that take an item.
ghost use Rattle.std.specs.Prelude.{◌≡◌};
ghost use Rattle.mq_takes.specs.Words as words;

use crate::binding::binding_turn;
use crate::closing::closing_turn;
use crate::quiet::quiet_turn;
use mq_base::{ChName, NoMemory};
use mq_cable::Wire;
use mq_core::Parts;
use mq_disk::Disk;
use mq_frame::Seen;
use mq_objects::ChannelKind;
use mq_own::ReceiverEnd;
use mq_receiver::ReceiverDoes;
use mq_turn_parts::Turn;
use mq_turn_parts::below::{Manager, NodeParts};
use mq_wires::Sight;

fn is_defined<D: Disk>(parts: &Parts<D>, channel: &ChName) -> bool
    ensures { result ≡ words.is_receiver_defined channel.now (words.plain_of parts.now).definitions }
{
    match parts.defs.channel(channel) {
        None => false,
        Some(channel) => match channel.kind {
            ChannelKind::Sender(_, _, _) => false,
            ChannelKind::Receiver(_) => true,
        },
    }
}

/// The definition of a receiver is there.
pub(crate) fn is_defined_at<D: Disk>(manager: &Manager<D>, channel: &ChName) -> bool
    ensures { result ≡ words.is_receiver_defined channel.now manager.now.plain.definitions }
{
    is_defined(&manager.core.parts, channel)
}

/// The next line of a receiver's table, by what was seen. It takes no memory.
pub(crate) fn next_line<D: Disk>(
    manager: &Manager<D>,
    end: &ReceiverEnd,
    seen: &Seen,
) -> ReceiverDoes
    ensures { result ≡ words.receiver_next end.now.machine seen.now (words.is_receiver_defined end.now.channel manager.now.plain.definitions) }
{
    let defined = is_defined_at(manager, &end.channel);
    end.machine.next(seen, defined)
}

/// The turn of a receiver's end that was lifted out of its place (`mq_cabled::lift_receiver`), in room that is there: the item that was
/// seen is taken, with what this line of the table does, but for a unit's commit. The end stands in its place behind it.
///
/// # Errors
///
/// No memory; nothing has changed, and the end stands in its place. So it is too where the manager has hardened another session than
/// the end knows of, which never comes.
pub(crate) fn item_turn<D: Disk, W: Wire>(
    parts: &mut NodeParts<D>,
    wire: &mut W,
    end: ReceiverEnd,
    does: ReceiverDoes,
    sight: Sight,
) -> Result<Turn, NoMemory>
    requires may { words.MayTakeTurn end parts.old }
    requires takes { words.IsItemLine does }
    requires next { does ≡ words.receiver_next end.machine sight.seen (words.is_receiver_defined end.channel parts.old.manager.plain.definitions) }
    requires saw { words.HasSeen (W.front_of wire.old) sight.seen sight.stamp }
    ensures { words.TakesOver W.Wire wire.old wire.new end sight.seen parts.old result parts.new }
{
    match does {
        ReceiverDoes::Bind => binding_turn(parts, wire, end, sight),
        ReceiverDoes::Close => closing_turn(parts, wire, end, sight),
        ReceiverDoes::Ignore => quiet_turn(parts, wire, end, ReceiverDoes::Ignore, sight),
        ReceiverDoes::Keep => quiet_turn(parts, wire, end, ReceiverDoes::Keep, sight),
        ReceiverDoes::Again => quiet_turn(parts, wire, end, ReceiverDoes::Again, sight),
        ReceiverDoes::Still | ReceiverDoes::PushOwed | ReceiverDoes::Place(_) => unreachable!(),
    }
}
