//! What channel ends write, of channels whose names are not blank and with sessions that a restart reads.
ghost use Rattle.mq_calls.specs.Words.{MeetsInRoom, MeetsOrWants};
ghost use Rattle.std.specs.Prelude.{◌≡◌, false};
ghost use Rattle.std.specs.List.{AllByRecursion};
ghost use Rattle.mq_frame.specs.Reading.{IsBytes};
ghost use Rattle.mq_spec_manager.specs.Agents.{IsUp, CanHarden, CanPrepare, harden, prepare, receive};
ghost use Rattle.mq_receive.specs.from_agents.Ends.{by_agent, by_place, by_prepare};
ghost use Rattle.mq_law_manager.specs.Facts.{Sound, AreNamed};
ghost use Rattle.mq_receive.specs.from_core.Counting.{CanCount};
ghost use Rattle.mq_receive.specs.from_core.Values.{WritesLog, begun_call, manager_of};
ghost use Rattle.mq_manager.specs.Reads.{IsEnding, has_name, is_ending, is_low, can_harden};

use mq_base::ChName;
use mq_calls::{AgentStop, Note, PlaceFault, PrepareFault};
use mq_disk::Disk;
use mq_message::Message;
use mq_receive::below::Core;
use mq_restarts::below::bodies_are_bytes;
use mq_sync::{End, Unit};

/// The first session that no restart would read.
const HIGH_SESSION: u64 = 2_305_843_009_213_693_952;

/// The bodies of a manager's log are bytes. It does nothing.
pub fn log_is_bytes<D: Disk>(core: &Core<D>)
    ensures { AllByRecursion IsBytes core.now.log.bodies }
{
    bodies_are_bytes(&core.parts.log);
}

fn has_name(channel: &ChName) -> bool
    ensures { result ≡ has_name channel.now }
{
    0 < channel.text().len()
}

fn is_low(note: &Note) -> bool
    ensures { result ≡ is_low note.now }
{
    match note {
        Note::Session { session, .. } => *session < HIGH_SESSION,
        Note::Resolved { .. } => true,
        Note::Bound { .. } => true,
        Note::Closed { .. } => true,
        Note::SeqSet { .. } => true,
    }
}

fn is_ending(note: &Note) -> bool
    ensures { result ≡ is_ending note.now }
{
    match note {
        Note::Session { .. } => false,
        Note::Resolved { .. } => true,
        Note::Bound { .. } => false,
        Note::Closed { .. } => true,
        Note::SeqSet { .. } => false,
    }
}

fn can_harden(channel: &ChName, note: &Note) -> bool
    ensures { result ≡ can_harden channel.now note.now }
{
    is_ending(note) || has_name(channel) && is_low(note)
}

/// A channel's end hardens a note; where no restart would read its record, there is no memory for it. A session is closed, and a unit
/// in doubt settled, without memory.
#[tactic(auto, using(crate::proofs::WantLaws::harden_wants, crate::proofs::WantLaws::harden_untold))]
pub fn harden_note<D: Disk>(
    core: &mut Core<D>,
    channel: &ChName,
    note: &Note,
) -> Result<(), AgentStop>
    requires up { IsUp core.old.plain }
    requires sound { Sound core.old.plain }
    requires named { AreNamed core.old.plain.queues }
    requires can { CanHarden channel.now note.now core.old.plain }
    ensures meets { MeetsOrWants (manager_of core.old) (harden channel.now note.now core.old.plain) (by_agent result) (manager_of core.new) }
    ensures room { IsEnding note.now → MeetsInRoom (manager_of core.old) (harden channel.now note.now core.old.plain) (by_agent result) (manager_of core.new) }
    ensures told { WritesLog core.old (harden channel.now note.now core.old.plain) (by_agent result) core.new }
    ensures unfit { can_harden channel.now note.now ≡ false → core.new ≡ begun_call core.old }
{
    if !can_harden(channel, note) {
        core.begin_call();
        return Err(AgentStop::NoMemory);
    }
    harden_kind(core, channel, note)
}

/// The batch of a channel becomes its unit in doubt; where the channel's name is blank, there is no memory for it.
#[tactic(auto, using(crate::proofs::WantLaws::prepare_wants, crate::proofs::WantLaws::prepare_untold))]
pub fn prepare_named<D: Disk>(
    core: &mut Core<D>,
    channel: &ChName,
    last: u32,
) -> Result<(), PrepareFault>
    requires up { IsUp core.old.plain }
    requires can { CanPrepare channel.now core.old.plain }
    ensures meets { MeetsOrWants (manager_of core.old) (prepare channel.now last core.old.plain) (by_prepare result) (manager_of core.new) }
    ensures told { WritesLog core.old (prepare channel.now last core.old.plain) (by_prepare result) core.new }
    ensures unfit { has_name channel.now ≡ false → core.new ≡ begun_call core.old }
{
    if !has_name(channel) {
        core.begin_call();
        return Err(PrepareFault::Stop(AgentStop::NoMemory));
    }
    mq_receive::below::prepare(core, channel, last)
}

/// A receiver commits the messages of a unit; where the channel's name is blank, there is no memory for it.
#[tactic(auto, using(crate::proofs::WantLaws::receive_wants, crate::proofs::WantLaws::receive_untold))]
pub fn receive_named<D: Disk>(
    core: &mut Core<D>,
    channel: &ChName,
    unit: &Unit,
    last: u32,
    batch: &[Message],
) -> Result<(), PlaceFault>
    requires up { IsUp core.old.plain }
    requires low { CanCount core.old.plain }
    requires sound { Sound core.old.plain }
    requires named { AreNamed core.old.plain.queues }
    ensures meets { MeetsOrWants (manager_of core.old) (receive channel.now unit.now last batch.now core.old.plain) (by_place result) (manager_of core.new) }
    ensures told { WritesLog core.old (receive channel.now unit.now last batch.now core.old.plain) (by_place result) core.new }
    ensures unfit { has_name channel.now ≡ false → core.new ≡ begun_call core.old }
{
    if !has_name(channel) {
        core.begin_call();
        return Err(PlaceFault::Stop(AgentStop::NoMemory));
    }
    mq_receive::receive(core, channel, unit, last, batch)
}

fn harden_kind<D: Disk>(core: &mut Core<D>, channel: &ChName, note: &Note) -> Result<(), AgentStop>
    requires up { IsUp core.old.plain }
    requires sound { Sound core.old.plain }
    requires named { AreNamed core.old.plain.queues }
    requires can { CanHarden channel.now note.now core.old.plain }
    ensures meets { MeetsOrWants (manager_of core.old) (harden channel.now note.now core.old.plain) (by_agent result) (manager_of core.new) }
    ensures room { IsEnding note.now → MeetsInRoom (manager_of core.old) (harden channel.now note.now core.old.plain) (by_agent result) (manager_of core.new) }
    ensures told { WritesLog core.old (harden channel.now note.now core.old.plain) (by_agent result) core.new }
{
    match note {
        Note::Session { partner, session } => mq_receive::below::harden_session(
            core, channel, partner, *session,
        ),
        Note::Resolved {
            unit,
            commit,
            operator,
        } => mq_receive::below::harden_resolved(core, channel, unit, *commit, *operator),
        Note::Bound {
            partner,
            session,
            last,
        } => mq_receive::below::harden_bound(core, channel, partner, *session, *last),
        Note::Closed { session } => mq_receive::below::harden_closed(core, channel, *session),
        Note::SeqSet { end, last } => match end {
            End::Sender => mq_receive::below::harden_last_sent(core, channel, *last),
            End::Receiver => mq_receive::below::harden_last_received(core, channel, *last),
        },
    }
}
