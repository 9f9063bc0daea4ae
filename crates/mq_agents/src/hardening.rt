//! What channel ends harden beside their messages.
ghost use Rattle.std.specs.Prelude.{◌≡◌, ◌+◌, ◌<◌, ◌≤◌, ◌^◌, [], true, find, length, option_copied, None, IfOk, OnOk};
ghost use Rattle.std.specs.Str.{bytes_eq};
ghost use Rattle.mq_calls.specs.Words.{set_named, MeetsOrWants, MeetsInRoom, receiver_in, set_sender, set_receiver, sender_or, sender_data, receiver_data};
ghost use Rattle.mq_spec_manager.specs.Agents.{IsUp, CanHarden, harden};
ghost use Rattle.mq_calls.specs.declared.agents.Note.TheVariants as notes;
ghost use Rattle.mq_sync.specs.declared.data.End.TheVariants as sync_ends;
ghost use Rattle.mq_record.specs.Records.{record_bytes};
ghost use Rattle.mq_core.specs.declared.parts.StoppedWrite.TheVariants as writes;
ghost use Rattle.mq_calls.specs.declared.state.ReceiverSide.{ReceiverSide as Receiver};
ghost use Rattle.mq_sides.specs.Places.{AreByName, standing};
ghost use Rattle.mq_sides.specs.Bonds.{has_seat};
ghost use Rattle.mq_core.specs.Ties.{EndsReady};
ghost use Rattle.mq_core.specs.Forced.{HasMoreRoom, downed};
ghost use Rattle.mq_core.specs.Views.{plain_of};
ghost use Rattle.mq_agents.specs.Ends.{by_agent, stopped_agent};
ghost use Rattle.mq_agents.specs.Written.{IsWhole, Forces, Lacks, Writes, WritesOver, downed_if, WantsNone, drawn, is_live, live_need, agent_of, stop_of, with_senders, with_receivers, note_record, IsSenderNote, IsReceiverNote, noted_sender, noted_receiver};
ghost use Rattle.mq_core.specs.Values.{manager_of, WritesLog};

use mq_base::{ChName, Items, NoMemory, QName};
use mq_calls::{AgentStop, Did, Note, ReceiverSide, SenderSide};
use mq_core::{Core, Mode, Parts, StoppedWrite};
use mq_disk::{Disk, Stop};
use mq_get::below::Effects;
use mq_log::Log;
use mq_record::{bound_bytes, closed_bytes, seq_set_bytes, session_bytes};
use mq_sides::{
    KeptReceiver, KeptSender, OfChannel, receiver_data, receiver_of, sender_data, swap_side,
    undo_side,
};
use mq_sync::{End, ReceiverData, SenderData};

/// What the log takes of a session that is closed, in bytes.
const CLOSING: u64 = 34;

/// Why a record was not written: no memory, or what stopped its write.
#[derive(Clone, Copy)]
pub enum Unwritten {
    NoMemory,
    Stopped(Stop),
}

/// A stopped write, as channel ends are told.
pub fn agent_stop(stop: Stop) -> AgentStop
    ensures { result ≡ stopped_agent stop }
{
    match stop {
        Stop::Cut => AgentStop::Cut,
        Stop::Disk => AgentStop::Disk,
    }
}

/// A stopped write takes the manager down. It takes no memory.
pub fn go_down<D: Disk>(parts: &mut Parts<D>, write: StoppedWrite)
    ensures { parts.new ≡ downed write parts.old }
{
    parts.queues.drop_volatile();
    drop(std::mem::replace(
        &mut parts.mode,
        Mode::Down {
            write: Some(write),
            starts: 0,
            read: None,
        },
    ));
}

/// What stopped a write; none where there was no memory.
pub fn stop_of(unwritten: Unwritten) -> Option<Stop>
    ensures { result ≡ stop_of unwritten }
{
    match unwritten {
        Unwritten::NoMemory => None,
        Unwritten::Stopped(stop) => Some(stop),
    }
}

/// Why a record was not written, as channel ends are told.
pub fn agent_of(unwritten: Unwritten) -> AgentStop
    ensures { result ≡ agent_of unwritten }
{
    match unwritten {
        Unwritten::NoMemory => AgentStop::NoMemory,
        Unwritten::Stopped(stop) => agent_stop(stop),
    }
}

/// Forces a record, with what it says of a channel's end; what stood for its channel is handed back. Where its write was stopped nothing of
/// that stands. It takes no memory where the log has room, and something stands for the channel.
pub(crate) fn force_side<T: OfChannel + Drop, D: Disk>(
    items: &mut Items<T>,
    log: &mut Log<D>,
    bytes: &[u8],
    side: T,
) -> Result<Option<T>, Unwritten>
    requires live { log.old.live ≡ true }
    requires small { length bytes.now < 2 ^ 32 }
    ensures forced { Forces bytes.now (standing T.channel_of (T.channel_of side) items.old) (set_named T.channel_of side items.old) items.old log.old result items.new log.new }
    ensures lacks { Lacks (AreByName T.channel_of items.old → find (λ (x : T). bytes_eq (T.channel_of side) (T.channel_of x)) items.old ≡ None) (5 + length bytes.now) log.old result }
{
    match log.room(5 + bytes.len() as u64) {
        Ok(()) => {}
        Err(NoMemory) => return Err(Unwritten::NoMemory),
    }
    let undo = match swap_side(items, side) {
        Ok(undo) => undo,
        Err(NoMemory) => return Err(Unwritten::NoMemory),
    };
    match log.append_forced(bytes) {
        Ok(()) => Ok(undo.before),
        Err(stop) => {
            undo_side(items, undo);
            Err(Unwritten::Stopped(stop))
        }
    }
}

/// Where the write of a record was stopped, the manager goes down. It takes no memory.
pub(crate) fn go_down_if<D: Disk>(parts: &mut Parts<D>, unwritten: Unwritten, write: StoppedWrite)
    ensures { parts.new ≡ downed_if write unwritten parts.old }
{
    match unwritten {
        Unwritten::NoMemory => {}
        Unwritten::Stopped(_) => go_down(parts, write),
    }
}

/// Forces a record, with what it says of a sender; where its write was stopped nothing of that stands, and the manager is down.
fn write_sender<D: Disk>(
    parts: &mut Parts<D>,
    channel: &ChName,
    note: &Note,
    bytes: &[u8],
    side: KeptSender,
) -> Result<(), Unwritten>
    requires live { parts.old.log.live ≡ true }
    requires small { length bytes.now < 2 ^ 32 }
    requires ends { EndsReady (with_senders (set_sender side parts.old.ends.senders) parts.old.ends) parts.old.log.spare }
    ensures { Writes bytes.now (with_senders (set_sender side parts.old.ends.senders) parts.old.ends) (writes.Hardened channel.now note.now) parts.old result parts.new }
{
    match force_side(&mut parts.ends.senders, &mut parts.log, bytes, side) {
        Ok(_) => {}
        Err(unwritten) => {
            let write = StoppedWrite::Hardened {
                channel: *channel,
                note: *note,
            };
            go_down_if(parts, unwritten, write);
            return Err(unwritten);
        }
    }
    Ok(())
}

/// Forces a record, with what it says of a receiver; what stood for its channel is handed back. Where its write was stopped nothing of that
/// stands, and the manager is down. It takes no memory where the log has room, and something stands for the channel.
fn write_receiver<D: Disk>(
    parts: &mut Parts<D>,
    channel: &ChName,
    note: &Note,
    bytes: &[u8],
    side: KeptReceiver,
) -> Result<Option<KeptReceiver>, Unwritten>
    requires live { parts.old.log.live ≡ true }
    requires small { length bytes.now < 2 ^ 32 }
    requires ends { EndsReady (with_receivers (set_receiver side parts.old.ends.receivers) parts.old.ends) parts.old.log.spare }
    ensures written { WritesOver (standing (λ (r : Receiver). r.channel) side.channel parts.old.ends.receivers) bytes.now (with_receivers (set_receiver side parts.old.ends.receivers) parts.old.ends) (writes.Hardened channel.now note.now) parts.old result parts.new }
    ensures lacks { Lacks (AreByName (λ (r : Receiver). r.channel) parts.old.ends.receivers → find (λ (r : Receiver). bytes_eq side.channel r.channel) parts.old.ends.receivers ≡ None) (5 + length bytes.now) parts.old.log result }
{
    let before = match force_side(&mut parts.ends.receivers, &mut parts.log, bytes, side) {
        Ok(before) => before,
        Err(unwritten) => {
            let write = StoppedWrite::Hardened {
                channel: *channel,
                note: *note,
            };
            go_down_if(parts, unwritten, write);
            return Err(unwritten);
        }
    };
    Ok(before)
}

/// What a sender has hardened, with the room that it needs.
pub(crate) fn kept_sender<D: Disk>(
    parts: &Parts<D>,
    side: SenderSide,
) -> Result<KeptSender, NoMemory>
    ensures { IfOk result (λ k. k ≡ side) }
{
    KeptSender::new(parts.alloc, side)
}

/// What a receiver has hardened, with the room that it needs.
fn kept_receiver<D: Disk>(parts: &Parts<D>, side: ReceiverSide) -> Result<KeptReceiver, NoMemory>
    ensures { IfOk result (λ k. k ≡ side) }
{
    KeptReceiver::new(parts.alloc, side)
}

/// Gives a channel its place among the receivers that may be bound.
///
/// # Errors
///
/// No memory; nothing has changed.
fn seat_channel<D: Disk>(parts: &mut Parts<D>, channel: &ChName) -> Result<(), NoMemory>
    ensures more { HasMoreRoom parts.old parts.new }
    ensures seat { OnOk result (has_seat channel.now parts.new.ends.bound.seats ≡ true) }
{
    match parts.ends.bound.seat(channel) {
        Ok(()) => {}
        Err(NoMemory) => return Err(NoMemory),
    }
    Ok(())
}

/// Sets aside what a receiver needs that hardens something: a place among those that may be bound, and what the log takes when its
/// session is closed, where that is open from now on and none was.
///
/// # Errors
///
/// No memory; nothing has changed but room.
pub fn aside_for<D: Disk>(
    parts: &mut Parts<D>,
    channel: &ChName,
    closed: bool,
) -> Result<(), NoMemory>
    ensures more { HasMoreRoom parts.old parts.new }
    ensures ready { OnOk result (EndsReady parts.old.ends parts.old.log.spare → (side : Receiver) → side.channel ≡ channel.now → side.hardened.closed ≡ closed → EndsReady (with_receivers (set_receiver side parts.new.ends.receivers) parts.new.ends) parts.new.log.spare) }
{
    match seat_channel(parts, channel) {
        Ok(()) => {}
        Err(NoMemory) => return Err(NoMemory),
    }
    match aside_session(parts, channel, closed) {
        Ok(()) => {}
        Err(NoMemory) => return Err(NoMemory),
    }
    Ok(())
}

/// Sets aside what the log takes when a session of a receiver is closed, where its session is open from now on and none was.
fn aside_session<D: Disk>(
    parts: &mut Parts<D>,
    channel: &ChName,
    closed: bool,
) -> Result<(), NoMemory>
    ensures more { HasMoreRoom parts.old parts.new }
    ensures ready { OnOk result (EndsReady parts.old.ends parts.old.log.spare → has_seat channel.now parts.old.ends.bound.seats ≡ true → (side : Receiver) → side.channel ≡ channel.now → side.hardened.closed ≡ closed → EndsReady (with_receivers (set_receiver side parts.new.ends.receivers) parts.new.ends) parts.new.log.spare) }
{
    if closed {
        return Ok(());
    }
    if has_live(parts, channel) {
        return Ok(());
    }
    match aside_log(parts, CLOSING) {
        Ok(()) => Ok(()),
        Err(NoMemory) => Err(NoMemory),
    }
}

/// Sets so many bytes of the log's memory aside.
pub(crate) fn aside_log<D: Disk>(parts: &mut Parts<D>, bytes: u64) -> Result<(), NoMemory>
    ensures more { HasMoreRoom parts.old parts.new }
    ensures ends { parts.new.ends ≡ parts.old.ends }
    ensures spare { OnOk result (parts.new.log.spare ≡ parts.old.log.spare + bytes) }
{
    match parts.log.set_aside(bytes) {
        Ok(()) => {}
        Err(NoMemory) => return Err(NoMemory),
    }
    Ok(())
}

/// Whether the session of a channel's receiver is open.
fn has_live<D: Disk>(parts: &Parts<D>, channel: &ChName) -> bool
    ensures { result ≡ is_live (receiver_in channel.now parts.now.ends.receivers) }
{
    is_live(receiver_of(&parts.ends.receivers, channel))
}

/// Whether an end's session is open.
fn is_live(data: Option<&ReceiverData>) -> bool
    ensures { result ≡ is_live (option_copied data.entry) }
{
    match data {
        None => false,
        Some(data) => !data.closed,
    }
}

/// The room in which what stood for a channel told that its session is closed. It takes no memory.
fn room_of<D: Disk>(parts: &Parts<D>, before: Option<KeptReceiver>) -> Effects
    ensures told { result.dids ≡ [] }
    ensures room { live_need before ≤ result.room }
{
    match before {
        None => Effects::new(parts.alloc),
        Some(kept) => {
            let (_side, effects) = kept.into_parts();
            effects
        }
    }
}

/// What the sender of a channel has hardened, to be changed.
pub(crate) fn sender_now<D: Disk>(
    parts: &Parts<D>,
    channel: &ChName,
) -> Result<SenderData, NoMemory>
    ensures { IfOk result (λ d. d ≡ sender_or (sender_data channel.now (plain_of parts.now))) }
{
    sender_data(parts.alloc, &parts.ends.senders, channel)
}

/// What the sender of a channel has hardened after a note of its session or its number; other notes leave it as it is.
fn noted_sender<D: Disk>(
    parts: &Parts<D>,
    channel: &ChName,
    note: &Note,
) -> Result<SenderSide, NoMemory>
    ensures { IfOk result (λ s. s ≡ noted_sender channel.now note.now (plain_of parts.now)) }
{
    let old = match sender_now(parts, channel) {
        Ok(old) => old,
        Err(NoMemory) => return Err(NoMemory),
    };
    let channel = *channel;
    match note {
        Note::Session { partner, session } => Ok(SenderSide {
            channel,
            hardened: SenderData {
                partner: *partner,
                session: *session,
                ..old
            },
        }),
        Note::SeqSet { last, .. } => Ok(SenderSide {
            channel,
            hardened: SenderData {
                last: *last,
                force: true,
                ..old
            },
        }),
        Note::Resolved { .. } | Note::Bound { .. } | Note::Closed { .. } => Ok(SenderSide {
            channel,
            hardened: old,
        }),
    }
}

/// What the receiver of a channel has hardened after such a note. It takes no memory.
fn noted_receiver<D: Disk>(parts: &Parts<D>, channel: &ChName, note: &Note) -> ReceiverSide
    ensures { result ≡ noted_receiver channel.now note.now (plain_of parts.now) }
{
    let old = receiver_data(&parts.ends.receivers, channel);
    let channel = *channel;
    match note {
        Note::Bound {
            partner,
            session,
            last,
        } => ReceiverSide {
            channel,
            hardened: ReceiverData {
                partner: *partner,
                session: *session,
                closed: false,
                last: *last,
                ..old
            },
        },
        Note::Closed { .. } => ReceiverSide {
            channel,
            hardened: ReceiverData {
                closed: true,
                ..old
            },
        },
        Note::SeqSet { last, .. } => ReceiverSide {
            channel,
            hardened: ReceiverData { last: *last, ..old },
        },
        Note::Session { .. } | Note::Resolved { .. } => ReceiverSide {
            channel,
            hardened: old,
        },
    }
}

/// A sender hardens a note of its own, in a record of these bytes.
fn harden_sender<D: Disk>(
    core: &mut Core<D>,
    channel: &ChName,
    note: &Note,
    bytes: &[u8],
) -> Result<(), AgentStop>
    requires up { IsUp core.old.plain }
    requires bytes { bytes.now ≡ record_bytes (note_record channel.now note.now) }
    requires size { IsWhole bytes.now (note_record channel.now note.now) }
    requires small { length bytes.now < 2 ^ 32 }
    requires sender { IsSenderNote channel.now note.now core.old.plain }
    ensures meets { MeetsOrWants (manager_of core.old) (harden channel.now note.now core.old.plain) (by_agent result) (manager_of core.new) }
    ensures told { WritesLog core.old (harden channel.now note.now core.old.plain) (by_agent result) core.new }
{
    core.begin_call();
    match core.effects.reserve(1) {
        Ok(()) => {}
        Err(NoMemory) => return Err(AgentStop::NoMemory),
    }
    let side = match noted_sender(&core.parts, channel, note) {
        Ok(side) => side,
        Err(NoMemory) => return Err(AgentStop::NoMemory),
    };
    let kept = match kept_sender(&core.parts, side) {
        Ok(kept) => kept,
        Err(NoMemory) => return Err(AgentStop::NoMemory),
    };
    match write_sender(&mut core.parts, channel, note, bytes, kept) {
        Ok(()) => {}
        Err(unwritten) => {
            let stopped = stop_of(unwritten);
            let agent = agent_of(unwritten);
            core.stopped = stopped;
            return Err(agent);
        }
    }
    core.effects.tell(Did::Hardened {
        channel: *channel,
        note: *note,
    });
    Ok(())
}

/// A receiver hardens a note of its own, in a record of these bytes.
fn harden_receiver<D: Disk>(
    core: &mut Core<D>,
    channel: &ChName,
    note: &Note,
    bytes: &[u8],
) -> Result<(), AgentStop>
    requires up { IsUp core.old.plain }
    requires bytes { bytes.now ≡ record_bytes (note_record channel.now note.now) }
    requires size { IsWhole bytes.now (note_record channel.now note.now) }
    requires small { length bytes.now < 2 ^ 32 }
    requires receiver { IsReceiverNote channel.now note.now core.old.plain }
    ensures meets { MeetsOrWants (manager_of core.old) (harden channel.now note.now core.old.plain) (by_agent result) (manager_of core.new) }
    ensures told { WritesLog core.old (harden channel.now note.now core.old.plain) (by_agent result) core.new }
{
    core.begin_call();
    match core.effects.reserve(1) {
        Ok(()) => {}
        Err(NoMemory) => return Err(AgentStop::NoMemory),
    }
    let side = noted_receiver(&core.parts, channel, note);
    let closed = side.hardened.closed;
    let kept = match kept_receiver(&core.parts, side) {
        Ok(kept) => kept,
        Err(NoMemory) => return Err(AgentStop::NoMemory),
    };
    match aside_for(&mut core.parts, channel, closed) {
        Ok(()) => {}
        Err(NoMemory) => return Err(AgentStop::NoMemory),
    }
    match write_receiver(&mut core.parts, channel, note, bytes, kept) {
        Ok(_) => {}
        Err(unwritten) => {
            let stopped = stop_of(unwritten);
            let agent = agent_of(unwritten);
            core.stopped = stopped;
            return Err(agent);
        }
    }
    core.effects.tell(Did::Hardened {
        channel: *channel,
        note: *note,
    });
    Ok(())
}

/// What was set aside for a record is room of the log again. It takes no memory.
pub(crate) fn draw<D: Disk>(parts: &mut Parts<D>, bytes: u64)
    requires { bytes ≤ parts.old.log.spare }
    ensures { parts.new ≡ drawn bytes parts.old }
{
    parts.log.draw(bytes);
}

/// A receiver whose session is open hardens that it is closed. It takes no memory: the room was made when the session was hardened.
fn close<D: Disk>(
    core: &mut Core<D>,
    channel: &ChName,
    note: &Note,
    bytes: &[u8],
) -> Result<(), AgentStop>
    requires up { IsUp core.old.plain }
    requires bytes { bytes.now ≡ record_bytes (note_record channel.now note.now) }
    requires size { IsWhole bytes.now (note_record channel.now note.now) }
    requires small { length bytes.now ≤ 29 }
    requires receiver { IsReceiverNote channel.now note.now core.old.plain }
    requires closed { (noted_receiver channel.now note.now core.old.plain).hardened.closed ≡ true }
    requires live { is_live (receiver_data channel.now core.old.plain) ≡ true }
    ensures wants { WantsNone result }
    ensures meets { MeetsOrWants (manager_of core.old) (harden channel.now note.now core.old.plain) (by_agent result) (manager_of core.new) }
    ensures told { WritesLog core.old (harden channel.now note.now core.old.plain) (by_agent result) core.new }
{
    core.begin_call();
    let side = noted_receiver(&core.parts, channel, note);
    draw(&mut core.parts, CLOSING);
    let kept = KeptReceiver::of_closed(core.parts.alloc, side);
    let before = match write_receiver(&mut core.parts, channel, note, bytes, kept) {
        Ok(before) => before,
        Err(unwritten) => {
            let stopped = stop_of(unwritten);
            let agent = agent_of(unwritten);
            core.stopped = stopped;
            return Err(agent);
        }
    };
    core.effects = room_of(&core.parts, before);
    core.effects.tell(Did::Hardened {
        channel: *channel,
        note: *note,
    });
    Ok(())
}

/// A sender hardens the next session with its partner.
///
/// # Errors
///
/// The disk or the cut stopped the write, and the manager is down; no memory, and nothing has changed.
pub fn harden_session<D: Disk>(
    core: &mut Core<D>,
    channel: &ChName,
    partner: &QName,
    session: u64,
) -> Result<(), AgentStop>
    requires up { IsUp core.old.plain }
    ensures meets { MeetsOrWants (manager_of core.old) (harden channel.now (notes.Session partner.now session) core.old.plain) (by_agent result) (manager_of core.new) }
    ensures told { WritesLog core.old (harden channel.now (notes.Session partner.now session) core.old.plain) (by_agent result) core.new }
{
    let note = Note::Session {
        partner: *partner,
        session,
    };
    harden_sender(
        core,
        channel,
        &note,
        &session_bytes(channel, partner, session),
    )
}

/// An operator sets the last sequence number of a sender; the next session tells its partner to take it over.
///
/// # Errors
///
/// The disk or the cut stopped the write, and the manager is down; no memory, and nothing has changed.
pub fn harden_last_sent<D: Disk>(
    core: &mut Core<D>,
    channel: &ChName,
    last: u32,
) -> Result<(), AgentStop>
    requires up { IsUp core.old.plain }
    ensures meets { MeetsOrWants (manager_of core.old) (harden channel.now (notes.SeqSet sync_ends.Sender last) core.old.plain) (by_agent result) (manager_of core.new) }
    ensures told { WritesLog core.old (harden channel.now (notes.SeqSet sync_ends.Sender last) core.old.plain) (by_agent result) core.new }
{
    let end = End::Sender;
    let note = Note::SeqSet { end, last };
    harden_sender(core, channel, &note, &seq_set_bytes(channel, end, last))
}

/// A receiver hardens that it is bound in a session, with the last sequence number.
///
/// # Errors
///
/// The disk or the cut stopped the write, and the manager is down; no memory, and nothing has changed.
pub fn harden_bound<D: Disk>(
    core: &mut Core<D>,
    channel: &ChName,
    partner: &QName,
    session: u64,
    last: u32,
) -> Result<(), AgentStop>
    requires up { IsUp core.old.plain }
    ensures meets { MeetsOrWants (manager_of core.old) (harden channel.now (notes.Bound partner.now session last) core.old.plain) (by_agent result) (manager_of core.new) }
    ensures told { WritesLog core.old (harden channel.now (notes.Bound partner.now session last) core.old.plain) (by_agent result) core.new }
{
    let note = Note::Bound {
        partner: *partner,
        session,
        last,
    };
    harden_receiver(
        core,
        channel,
        &note,
        &bound_bytes(channel, partner, session, last),
    )
}

/// A receiver hardens that its session is closed. Of one that is open it takes no memory.
///
/// # Errors
///
/// The disk or the cut stopped the write, and the manager is down; no memory, where no session is open, and nothing has changed.
pub fn harden_closed<D: Disk>(
    core: &mut Core<D>,
    channel: &ChName,
    session: u64,
) -> Result<(), AgentStop>
    requires up { IsUp core.old.plain }
    ensures meets { MeetsOrWants (manager_of core.old) (harden channel.now (notes.Closed session) core.old.plain) (by_agent result) (manager_of core.new) }
    ensures told { WritesLog core.old (harden channel.now (notes.Closed session) core.old.plain) (by_agent result) core.new }
    ensures room { CanHarden channel.now (notes.Closed session) core.old.plain → MeetsInRoom (manager_of core.old) (harden channel.now (notes.Closed session) core.old.plain) (by_agent result) (manager_of core.new) }
{
    let note = Note::Closed { session };
    let bytes = closed_bytes(channel, session);
    if has_live(&core.parts, channel) {
        return close(core, channel, &note, &bytes);
    }
    harden_receiver(core, channel, &note, &bytes)
}

/// An operator sets the last sequence number of a receiver.
///
/// # Errors
///
/// The disk or the cut stopped the write, and the manager is down; no memory, and nothing has changed.
pub fn harden_last_received<D: Disk>(
    core: &mut Core<D>,
    channel: &ChName,
    last: u32,
) -> Result<(), AgentStop>
    requires up { IsUp core.old.plain }
    ensures meets { MeetsOrWants (manager_of core.old) (harden channel.now (notes.SeqSet sync_ends.Receiver last) core.old.plain) (by_agent result) (manager_of core.new) }
    ensures told { WritesLog core.old (harden channel.now (notes.SeqSet sync_ends.Receiver last) core.old.plain) (by_agent result) core.new }
{
    let end = End::Receiver;
    let note = Note::SeqSet { end, last };
    harden_receiver(core, channel, &note, &seq_set_bytes(channel, end, last))
}
