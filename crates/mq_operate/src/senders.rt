//! Commands on a sender's end.
ghost use Rattle.std.specs.Prelude.{◌≡◌, Some, false, true, option_map};
ghost use Rattle.mq_calls.specs.declared.agents.Note.TheVariants as notes;
ghost use Rattle.mq_calls.specs.declared.choices.Choice.TheVariants as choices;
ghost use Rattle.mq_sender.specs.States.{is_running, kept_of, started, stopped};
ghost use Rattle.mq_calls.specs.Words.{in_doubt_of, sender_data};
ghost use Rattle.mq_spec_manager.specs.Agents.{CanHarden, IsSenderHere, IsUp, harden, release_batch, seize, unit_of};
ghost use Rattle.mq_spec_node.specs.Words.{is_bad_number, is_in_doubt, limits_here, operated, parts_of, reset_end, resolve_end, start_end, start_seized, stop_end};
ghost use Rattle.mq_spec_node.specs.Node.ChannelEnd.{Sends};
ghost use Rattle.mq_turn_parts.specs.from_events.States.{node_in};
ghost use Rattle.mq_turn_parts.specs.Turns.{IsBehind, MadeOr, left_parts};
ghost use Rattle.mq_operate.specs.Senders.{SoughtOr, own_if, unset as unset_by};
ghost use Rattle.mq_operate.specs.Works.{Works};

use crate::asking::{has_batch, is_in_doubt, kept_here, unit_in_doubt};
use crate::working::{Worked, keep_own, refused};
use mq_base::{ChName, NoMemory};
use mq_calls::{Note, SeizeFault};
use mq_disk::Disk;
use mq_history::OpRefusal;
use mq_own::{ChannelEnd, EndKind, SenderEnd};
use mq_sender::{Kept, Limits};
use mq_sync::{End, Settle, Unit};
use mq_turn_parts::below::{Manager, NodeParts, Told};
use mq_turn_parts::{hardened, is_commit, keep_end, leave_in, nothing_done, ran, released};
use std::alloc::Global;

/// A sender opens its transmission queue, or is refused.
fn sought<D: Disk>(manager: &mut Manager<D>, channel: &ChName) -> Result<Worked, NoMemory>
    requires up { IsUp manager.old.plain }
    requires here { IsSenderHere channel.now manager.old.plain }
    ensures { SoughtOr (seize channel.now manager.old.plain) result manager.old manager.new }
{
    match manager.seize(channel) {
        Ok(()) => Ok(Worked {
            told: ran(manager),
            refusal: None,
        }),
        Err(SeizeFault::NoMemory) => Err(NoMemory),
        Err(SeizeFault::BadQueue) => Ok(Worked {
            told: ran(manager),
            refusal: Some(OpRefusal::BadQueue),
        }),
        Err(SeizeFault::QueueInUse) => Ok(Worked {
            told: ran(manager),
            refusal: Some(OpRefusal::QueueInUse),
        }),
    }
}

/// So at a node.
fn sought_in<D: Disk>(parts: &mut NodeParts<D>, end: &SenderEnd) -> Result<Worked, NoMemory>
    requires up { IsUp parts.old.manager.plain }
    requires here { IsSenderHere end.now.channel parts.old.manager.plain }
    ensures same { parts.new ≡ record parts.old { manager = parts.new.manager } }
    ensures sought { SoughtOr (seize end.now.channel parts.old.manager.plain) result parts.old.manager parts.new.manager }
{
    sought(&mut parts.manager, &end.channel)
}

/// Whether the end runs.
fn runs(end: &SenderEnd) -> bool
    ensures { result ≡ is_running end.now.machine.state }
{
    end.machine.is_running()
}

/// What is hardened of it.
fn kept_of_end<D: Disk>(parts: &NodeParts<D>, end: &SenderEnd) -> Kept
    ensures { result ≡ kept_of (sender_data end.now.channel parts.now.manager.plain) }
{
    kept_here(&parts.manager, &end.channel)
}

fn started(end: &SenderEnd, kept: Kept, limits: Limits) -> SenderEnd
    ensures { result ≡ record end.now { machine = started kept limits } }
{
    let mut machine = end.machine;
    machine.start(kept, limits);
    SenderEnd {
        cable: end.cable,
        channel: end.channel,
        partner: end.partner,
        machine,
    }
}

/// The end after a command that wasn't refused.
fn keep_if<D: Disk>(parts: &mut NodeParts<D>, worked: &Worked, end: SenderEnd)
    ensures { parts.new ≡ record parts.old { own = own_if worked.now.refusal worked.now.told.choice worked.now.told.delta (Sends end) parts.old.own } }
{
    if worked.refusal.is_none() {
        let kind = EndKind::Sends(end);
        keep_end(parts, &worked.told, ChannelEnd { kind });
    }
}

/// START of a sender that doesn't run.
fn start_seized<D: Disk>(
    parts: &mut NodeParts<D>,
    end: &SenderEnd,
    limits: Limits,
) -> Result<Worked, NoMemory>
    requires up { IsUp parts.old.manager.plain }
    requires here { IsSenderHere end.now.channel parts.old.manager.plain }
    requires limits { limits ≡ limits_here end.now.channel (node_in parts.old) }
    ensures { Works (start_seized end.now (seize end.now.channel parts.old.manager.plain) (node_in parts.old)) parts.old result parts.new }
{
    let kept = kept_of_end(parts, end);
    let after = started(end, kept, limits);
    match sought_in(parts, end) {
        Err(NoMemory) => Err(NoMemory),
        Ok(worked) => {
            keep_if(parts, &worked, after);
            Ok(worked)
        }
    }
}

/// START of a sender's end.
#[tactic(auto, using(crate::proofs::StartLaws::start_running, crate::proofs::StartLaws::start_still))]
pub fn start_sender<D: Disk>(
    parts: &mut NodeParts<D>,
    end: &SenderEnd,
    limits: Limits,
) -> Result<Worked, NoMemory>
    requires up { IsUp parts.old.manager.plain }
    requires here { IsSenderHere end.now.channel parts.old.manager.plain }
    requires limits { limits ≡ limits_here end.now.channel (node_in parts.old) }
    ensures { Works (start_end (Some (Sends end.now)) (node_in parts.old)) parts.old result parts.new }
{
    if runs(end) {
        return Ok(refused(parts.alloc, OpRefusal::Running));
    }
    start_seized(parts, end, limits)
}

/// A batch that is not prepared is released, where there is one.
#[tactic(auto, using(crate::proofs::StartLaws::none_released))]
fn released_if<D: Disk>(
    alloc: Global,
    manager: &mut Manager<D>,
    channel: &ChName,
) -> Result<Told, NoMemory>
    requires up { IsUp manager.old.plain }
    ensures { MadeOr (parts_of (release_batch channel.now manager.old.plain)) result manager.old manager.new }
{
    if has_batch(manager, channel) {
        return released(manager, channel);
    }
    Ok(nothing_done(alloc))
}

/// So at a node.
fn released_in<D: Disk>(parts: &mut NodeParts<D>, end: &SenderEnd) -> Result<Told, NoMemory>
    requires up { IsUp parts.old.manager.plain }
    ensures same { parts.new ≡ record parts.old { manager = parts.new.manager } }
    ensures told { MadeOr (parts_of (release_batch end.now.channel parts.old.manager.plain)) result parts.old.manager parts.new.manager }
{
    released_if(parts.alloc, &mut parts.manager, &end.channel)
}

/// A sender that stops leaves its queue, where all before was done.
fn left_in<D: Disk>(parts: &mut NodeParts<D>, end: &SenderEnd, told: &Told)
    requires up { told.now.choice ≡ choices.Runs → IsUp parts.old.manager.plain }
    ensures same { parts.new ≡ record parts.old { manager = parts.new.manager } }
    ensures behind { IsBehind (left_parts end.now.channel told.now.choice false parts.old.manager.plain) parts.old.manager parts.new.manager }
{
    leave_in(parts, &end.channel, told, false);
}

fn stopped(end: &SenderEnd) -> SenderEnd
    ensures { result ≡ record end.now { machine = stopped end.now.machine } }
{
    let mut machine = end.machine;
    machine.stop();
    SenderEnd {
        cable: end.cable,
        channel: end.channel,
        partner: end.partner,
        machine,
    }
}

/// STOP of a sender's end: a batch that is not prepared is released, one in doubt stays.
#[tactic(auto, using(mq_turn_parts::proofs::RunLaws::stays_up))]
pub fn stop_sender<D: Disk>(parts: &mut NodeParts<D>, end: &SenderEnd) -> Result<Worked, NoMemory>
    requires up { IsUp parts.old.manager.plain }
    ensures { Works (stop_end (Some (Sends end.now)) (node_in parts.old)) parts.old result parts.new }
{
    let after = stopped(end);
    match released_in(parts, end) {
        Err(NoMemory) => Err(NoMemory),
        Ok(told) => {
            left_in(parts, end, &told);
            let kind = EndKind::Sends(after);
            keep_end(parts, &told, ChannelEnd { kind });
            Ok(Worked {
                told,
                refusal: None,
            })
        }
    }
}

/// A note of a channel's end is hardened, at a node.
pub fn hardened_in<D: Disk>(
    parts: &mut NodeParts<D>,
    channel: &ChName,
    note: &Note,
) -> Result<Told, NoMemory>
    requires up { IsUp parts.old.manager.plain }
    requires can { CanHarden channel.now note.now parts.old.manager.plain }
    ensures same { parts.new ≡ record parts.old { manager = parts.new.manager } }
    ensures told { MadeOr (parts_of (harden channel.now note.now parts.old.manager.plain)) result parts.old.manager parts.new.manager }
{
    hardened(&mut parts.manager, channel, note)
}

/// A note of a sender is hardened, and its end stays.
pub fn note_sender<D: Disk>(
    parts: &mut NodeParts<D>,
    channel: &ChName,
    note: &Note,
) -> Result<Worked, NoMemory>
    requires up { IsUp parts.old.manager.plain }
    requires can { CanHarden channel.now note.now parts.old.manager.plain }
    ensures { Works (operated (parts_of (harden channel.now note.now parts.old.manager.plain)) parts.old.own) parts.old result parts.new }
{
    match hardened_in(parts, channel, note) {
        Err(NoMemory) => Err(NoMemory),
        Ok(told) => {
            keep_own(parts, &told);
            Ok(Worked {
                told,
                refusal: None,
            })
        }
    }
}

/// So of an end.
fn note_end<D: Disk>(
    parts: &mut NodeParts<D>,
    end: &SenderEnd,
    note: &Note,
) -> Result<Worked, NoMemory>
    requires up { IsUp parts.old.manager.plain }
    requires can { CanHarden end.now.channel note.now parts.old.manager.plain }
    ensures { Works (operated (parts_of (harden end.now.channel note.now parts.old.manager.plain)) parts.old.own) parts.old result parts.new }
{
    note_sender(parts, &end.channel, note)
}

/// Whether a sequence number is outside 1 to SEQWRAP.
pub fn is_bad_number(number: u32, limits: &Limits) -> bool
    ensures { result ≡ is_bad_number number limits.now }
{
    number == 0 || limits.sequence_wrap < number
}

/// Whether it has a unit in doubt.
fn doubts<D: Disk>(parts: &NodeParts<D>, end: &SenderEnd) -> bool
    ensures { result ≡ is_in_doubt end.now.channel (node_in parts.now) }
{
    is_in_doubt(&parts.manager, &end.channel)
}

/// Its unit in doubt.
fn unit_of_end<D: Disk>(parts: &NodeParts<D>, end: &SenderEnd) -> Option<Unit>
    ensures { result ≡ option_map unit_of (in_doubt_of (sender_data end.now.channel parts.now.manager.plain)) }
{
    unit_in_doubt(&parts.manager, &end.channel)
}

/// The first refusal of RESET of a sender's end.
fn unset<D: Disk>(
    parts: &NodeParts<D>,
    end: &SenderEnd,
    number: u32,
    limits: &Limits,
) -> Option<OpRefusal>
    requires limits { limits.now ≡ limits_here end.now.channel (node_in parts.now) }
    ensures { result ≡ unset_by end.now number (node_in parts.now) }
{
    if doubts(parts, end) {
        return Some(OpRefusal::InDoubt);
    }
    if runs(end) {
        return Some(OpRefusal::Running);
    }
    if is_bad_number(number, limits) {
        return Some(OpRefusal::BadNumber);
    }
    None
}

/// RESET of a sender's end: the last number becomes the given one less 1.
#[tactic(auto, using(crate::proofs::StartLaws::reset_refused, crate::proofs::StartLaws::reset_done, crate::proofs::StartLaws::reset_can, crate::proofs::StartLaws::reset_low))]
pub fn reset_sender<D: Disk>(
    parts: &mut NodeParts<D>,
    end: &SenderEnd,
    number: u32,
    limits: &Limits,
) -> Result<Worked, NoMemory>
    requires up { IsUp parts.old.manager.plain }
    requires limits { limits.now ≡ limits_here end.now.channel (node_in parts.old) }
    ensures { Works (reset_end number (Some (Sends end.now)) (node_in parts.old)) parts.old result parts.new }
{
    match unset(parts, end, number, limits) {
        Some(reason) => Ok(refused(parts.alloc, reason)),
        None => {
            let note = Note::SeqSet {
                end: End::Sender,
                last: number - 1,
            };
            note_end(parts, end, &note)
        }
    }
}

/// RESOLVE of a sender that doesn't run and has that unit in doubt. No batch is held beside it.
#[tactic(auto, using(crate::proofs::SenderLaws::resolve_can))]
fn resolve_unit<D: Disk>(
    parts: &mut NodeParts<D>,
    channel: &ChName,
    unit: Unit,
    commit: bool,
) -> Result<Worked, NoMemory>
    requires up { IsUp parts.old.manager.plain }
    requires doubt { option_map unit_of (in_doubt_of (sender_data channel.now parts.old.manager.plain)) ≡ Some unit }
    ensures { Works (operated (parts_of (harden channel.now (notes.Resolved unit commit true) parts.old.manager.plain)) parts.old.own) parts.old result parts.new }
{
    parts.manager.facts();
    let note = Note::Resolved {
        unit,
        commit,
        operator: true,
    };
    note_sender(parts, channel, &note)
}

/// So of an end.
fn resolve_of_end<D: Disk>(
    parts: &mut NodeParts<D>,
    end: &SenderEnd,
    unit: Unit,
    commit: bool,
) -> Result<Worked, NoMemory>
    requires up { IsUp parts.old.manager.plain }
    requires doubt { option_map unit_of (in_doubt_of (sender_data end.now.channel parts.old.manager.plain)) ≡ Some unit }
    ensures { Works (operated (parts_of (harden end.now.channel (notes.Resolved unit commit true) parts.old.manager.plain)) parts.old.own) parts.old result parts.new }
{
    resolve_unit(parts, &end.channel, unit, commit)
}

/// RESOLVE at a sender's end that has that unit in doubt.
#[tactic(auto, using(crate::proofs::SenderLaws::resolve_running, crate::proofs::SenderLaws::resolve_done))]
fn resolve_doubt<D: Disk>(
    parts: &mut NodeParts<D>,
    end: &SenderEnd,
    unit: Unit,
    settle: Settle,
) -> Result<Worked, NoMemory>
    requires up { IsUp parts.old.manager.plain }
    requires doubt { option_map unit_of (in_doubt_of (sender_data end.now.channel parts.old.manager.plain)) ≡ Some unit }
    ensures { Works (resolve_end settle (Some end.now) (node_in parts.old)) parts.old result parts.new }
{
    if runs(end) {
        return Ok(refused(parts.alloc, OpRefusal::Running));
    }
    let commit = is_commit(settle);
    resolve_of_end(parts, end, unit, commit)
}

/// RESOLVE at a sender's end.
#[tactic(auto, using(crate::proofs::SenderLaws::resolve_none))]
pub fn resolve_sender<D: Disk>(
    parts: &mut NodeParts<D>,
    end: &SenderEnd,
    settle: Settle,
) -> Result<Worked, NoMemory>
    requires up { IsUp parts.old.manager.plain }
    ensures { Works (resolve_end settle (Some end.now) (node_in parts.old)) parts.old result parts.new }
{
    match unit_of_end(parts, end) {
        None => Ok(refused(parts.alloc, OpRefusal::NotInDoubt)),
        Some(unit) => resolve_doubt(parts, end, unit, settle),
    }
}
