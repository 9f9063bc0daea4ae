//! How the ident of a message that a channel brings stands at the manager already.
ghost use Rattle.std.specs.Prelude.{◌≡◌, ◌&&◌, ◌||◌, None, Some, option_copied};
ghost use Rattle.std.specs.List.{list_any};
ghost use Rattle.mq_calls.specs.Words.{in_doubt_of, same_ident};
ghost use Rattle.mq_spec_manager.specs.Agents.{doubts, is_doubted_by, is_unborn, same_flag, standing_at, standing_by};
ghost use Rattle.mq_core.specs.Views.{plain_of};
ghost use Rattle.mq_receive.specs.Standings.{standing_as};

use crate::filling::lasts;
use mq_base::{ChName, QName};
use mq_core::Parts;
use mq_core::below::sender_of;
use mq_disk::Disk;
use mq_message::{Holder, Ident, Message};
use mq_queue::Row;
use mq_sync::{InDoubt, SenderData};

/// How an ident stands at a manager (this project's choice).
#[derive(Drop)]
pub enum Found {
    /// Nowhere.
    Absent,
    /// In a row of a unit in doubt: a message of the ident drops the row.
    InDoubt {
        /// The queue of the row.
        queue: QName,
    },
    /// Otherwise: a message of the ident is kept out.
    Present,
}

fn is_among(idents: &[Ident], ident: &Ident) -> bool
    ensures { result ≡ list_any (same_ident ident.now) idents.now }
{
    idents.iter().any(|other| *ident == *other)
}

/// A unit in doubt names the ident.
fn lists(doubt: &Option<InDoubt>, ident: &Ident) -> bool
    ensures { result ≡ doubts ident.now doubt.now }
{
    match doubt {
        None => false,
        Some(doubt) => is_among(doubt.idents.as_slice(), ident),
    }
}

fn sender_lists(sender: Option<&SenderData>, ident: &Ident) -> bool
    ensures { result ≡ doubts ident.now (in_doubt_of (option_copied sender.entry)) }
{
    match sender {
        None => false,
        Some(data) => lists(&data.in_doubt, ident),
    }
}

/// A unit in doubt names the ident, and holds the row.
fn is_doubted_by<D: Disk>(parts: &Parts<D>, ident: &Ident, by: &Option<Holder>) -> bool
    ensures { result ≡ is_doubted_by ident.now by.now (plain_of parts.now) }
{
    match by {
        None => false,
        Some(Holder::Unit(_)) => false,
        Some(Holder::Batch(channel)) => {
            sender_lists(sender_of(&parts.ends.senders, channel), ident)
        }
    }
}

/// An ident of this manager that was not given yet.
fn is_unborn<D: Disk>(parts: &Parts<D>, ident: &Ident) -> bool
    ensures { result ≡ is_unborn ident.now (plain_of parts.now) }
{
    ident.manager == parts.number
        && (parts.incarnation < ident.incarnation
            || (ident.incarnation == parts.incarnation && parts.idents < ident.number))
}

fn is_same(a: bool, b: bool) -> bool
    ensures { result ≡ same_flag a b }
{
    if a { b } else { !b }
}

/// How an ident stands of which there is a row.
fn standing_in_row<D: Disk>(parts: &Parts<D>, message: &Message, queue: QName, row: &Row) -> Found
    ensures { standing_as result ≡ standing_by message.now (Some (record { queue = queue; row = row.now })) (plain_of parts.now) }
{
    if is_doubted_by(parts, &message.ident, &row.by)
        && is_same(lasts(message), lasts(&row.message))
    {
        return Found::InDoubt { queue };
    }
    Found::Present
}

/// How an ident stands of which there is no row.
fn standing_apart<D: Disk>(parts: &Parts<D>, message: &Message) -> Found
    ensures { standing_as result ≡ standing_by message.now None (plain_of parts.now) }
{
    if parts.live.has_put(&message.ident) || is_unborn(parts, &message.ident) {
        return Found::Present;
    }
    Found::Absent
}

/// How the ident of a message that a channel brings stands at a manager already: nowhere; in a row that a unit in doubt holds and
/// names, which the message drops; or otherwise, so that the message is kept out (this project's choice). It asks, and takes no memory.
pub fn standing<D: Disk>(parts: &Parts<D>, message: &Message) -> Found
    ensures { standing_as result ≡ standing_at message.now (plain_of parts.now) }
{
    let Some(queue) = parts.queues.home(&message.ident) else {
        return standing_apart(parts, message);
    };
    let Some(local) = parts.queues.local(&queue) else {
        unreachable!()
    };
    let Some(row) = local.row(&message.ident) else {
        unreachable!()
    };
    standing_in_row(parts, message, queue, row)
}
