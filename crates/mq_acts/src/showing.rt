//! DISPLAY CHSTATUS at a manager: a line for each end of a channel that is asked for.
ghost use Rattle.std.specs.Prelude.{◌≡◌, ◌++◌, [], ◌∷◌, IfOk, OnOk, option_copied};
ghost use Rattle.mq_calls.specs.Words.{receiver_data, sender_data};
ghost use Rattle.mq_spec_node.specs.Status.{channel_at, is_asked, status_line};
ghost use Rattle.mq_acts.specs.Shows.{lines_of, shown_as};

use mq_base::{ChName, Items};
use mq_calls::{ScRefusal, Shown};
use mq_disk::Disk;
use mq_events::below::{Hardened, Manager};
use mq_history::Acted;
use mq_own::{ChannelEnd, EndKind};
use mq_status::{receiver_line, sender_line};
use mq_sync::{ReceiverData, SenderData};
use std::alloc::{AllocError, Global};

/// What the manager's sender of a channel has hardened.
#[tactic(auto, using(crate::proofs::KeptLaws::sender_is, crate::proofs::KeptLaws::none_sender))]
pub fn sender_kept<'a, D: Disk>(manager: &'a Manager<D>, channel: &ChName) -> Option<&'a SenderData>
    ensures { option_copied result ≡ sender_data channel.now manager.now.plain }
{
    match manager.kept(channel) {
        None => None,
        Some(
            Hardened {
                sender,
                receiver: _,
            },
        ) => sender,
    }
}

/// What the manager's receiver of a channel has hardened.
#[tactic(auto, using(crate::proofs::KeptLaws::receiver_is, crate::proofs::KeptLaws::none_receiver))]
pub fn receiver_kept<'a, D: Disk>(
    manager: &'a Manager<D>,
    channel: &ChName,
) -> Option<&'a ReceiverData>
    ensures { option_copied result ≡ receiver_data channel.now manager.now.plain }
{
    match manager.kept(channel) {
        None => None,
        Some(
            Hardened {
                sender: _,
                receiver,
            },
        ) => receiver,
    }
}

/// The line of an end.
fn line_of<D: Disk>(
    alloc: Global,
    manager: &Manager<D>,
    end: &ChannelEnd,
) -> Result<Items<u8>, AllocError>
    ensures { IfOk result (λ text. text ≡ status_line manager.now.plain end.now) }
{
    match &end.kind {
        EndKind::Sends(end) => sender_line(alloc, end, sender_kept(manager, &end.channel)),
        EndKind::Receives(end) => receiver_line(alloc, end, receiver_kept(manager, &end.channel)),
    }
}

/// The name of an end's channel.
fn name_of(end: &ChannelEnd) -> &[u8]
    ensures { result.now ≡ channel_at end.now }
{
    match &end.kind {
        EndKind::Sends(end) => end.channel.text(),
        EndKind::Receives(end) => end.channel.text(),
    }
}

/// Whether the end is asked for: by its whole name, or by the beginning of it.
fn is_asked(name: &[u8], any_end: bool, end: &ChannelEnd) -> bool
    ensures { result ≡ is_asked name.now any_end end.now }
{
    if any_end {
        name_of(end).starts_with(name)
    } else {
        name == name_of(end)
    }
}

/// The line of an end, where it is asked for, behind other lines.
fn push_line<D: Disk>(
    alloc: Global,
    lines: &mut Items<Items<u8>>,
    manager: &Manager<D>,
    name: &[u8],
    any_end: bool,
    end: &ChannelEnd,
) -> Result<(), AllocError>
    ensures { OnOk result (lines.new ≡ lines.old ++ lines_of name.now any_end manager.now.plain (end.now ∷ [])) }
{
    if !is_asked(name, any_end, end) {
        return Ok(());
    }
    let line = line_of(alloc, manager, end)?;
    lines.push(line)
}

/// The lines of the ends that are asked for, in order.
fn push_lines<D: Disk>(
    alloc: Global,
    manager: &Manager<D>,
    name: &[u8],
    any_end: bool,
    ends: &[ChannelEnd],
) -> Result<Items<Items<u8>>, AllocError>
    ensures { IfOk result (λ lines. lines ≡ lines_of name.now any_end manager.now.plain ends.now) }
{
    let mut lines = Items::new(alloc);
    for end in ends {
        push_line(alloc, &mut lines, manager, name, any_end, end)?;
    }
    Ok(lines)
}

/// What DISPLAY CHSTATUS answers: the lines; `Down` at a manager that is down, `Missing` for a whole name without a line.
///
/// # Errors
///
/// No memory for the lines; nothing has changed.
pub fn show_status<D: Disk>(
    alloc: Global,
    manager: &Manager<D>,
    ends: &[ChannelEnd],
    name: &[u8],
    any_end: bool,
) -> Result<Acted, AllocError>
    ensures { IfOk result (λ acted. acted ≡ shown_as name.now any_end manager.now.plain ends.now) }
{
    if !manager.is_up() {
        return Ok(Acted::Sc(ScRefusal::Down));
    }
    let lines = push_lines(alloc, manager, name, any_end, ends)?;
    if lines.is_empty() && !any_end {
        return Ok(Acted::Sc(ScRefusal::Missing));
    }
    Ok(Acted::Shown(Shown { lines }))
}
