//! A unit in doubt is settled: its rows go, or are free again.
ghost use Rattle.std.specs.Prelude.{◌≡◌, ◌+◌, ◌++◌, ◌<◌, ◌≤◌, ◌^◌, [], Some, None, true, false, find, is_some, map, length, take, flat_map, option_copied, OnErr, OnOk};
ghost use Rattle.std.specs.Str.{bytes_eq};
ghost use Rattle.mq_message.specs.declared.place.Holder.TheVariants as holders;
ghost use Rattle.mq_calls.specs.Words.{MeetsInRoom, MeetsOrWants, set_sender, sender_data, sender_or, data_settled, settle_by, stored};
ghost use Rattle.mq_calls.specs.Reads.{in_doubt_of};
ghost use Rattle.mq_spec_manager.specs.Agents.{CanHarden, IsUp, harden, held_on, held_rows, settle_did};
ghost use Rattle.mq_law_manager.specs.Facts.{Sound, AreNamed};
ghost use Rattle.mq_place.specs.States.{queues_of};
ghost use Rattle.mq_place.specs.Rooms.{RoomStays};
ghost use Rattle.mq_sides.specs.Kept.{told_need};
ghost use Rattle.mq_sides.specs.Places.{AreByName, standing};
ghost use Rattle.mq_calls.specs.declared.agents.Note.TheVariants as notes;
ghost use Rattle.mq_calls.specs.declared.records.LogRecord.TheVariants as records;
ghost use Rattle.mq_record.specs.Records.{record_bytes};
ghost use Rattle.mq_get.specs.from_unit.Told.{told, told_all};
ghost use Rattle.mq_core.specs.declared.parts.StoppedWrite.TheVariants as writes;
ghost use Rattle.mq_calls.specs.Recovery.{listed};
ghost use Rattle.mq_calls.specs.declared.state.SenderSide.{SenderSide as Sender};
ghost use Rattle.mq_core.specs.Ties.{EndsReady};
ghost use Rattle.mq_core.specs.Views.{plain_of};
ghost use Rattle.mq_agents.specs.Ends.{by_agent};
ghost use Rattle.mq_agents.specs.Written.{IsWhole, Lacks, WantsNone, WritesOver, drawn_if, drawn_need, with_senders};
ghost use Rattle.mq_agents.specs.Settling.{AreLone, IsShortOf, doubt_before, each_settled, freed_room, none_named, row_settled, rows_settled, with_named};
ghost use Rattle.mq_core.specs.Values.{manager_of, WritesLog};

use crate::hardening::{Unwritten, agent_of, draw, force_side, go_down, stop_of};
use crate::preparing::SETTLING;
use crate::walking::first_held;
use mq_base::{ChName, NoMemory, QName};
use mq_calls::{AgentStop, Did, Note, Remove, SenderSide, Why};
use mq_core::{Core, Parts, StoppedWrite};
use mq_disk::Disk;
use mq_get::below::Effects;
use mq_message::Holder;
use mq_place::RowRoom;
use mq_record::resolved_bytes;
use mq_sides::{KeptSender, sender_of};
use mq_sync::{InDoubt, SenderData, Unit};

/// What a sender has hardened once its unit in doubt is settled: a commit takes its last number over.
fn settled_data(old: &SenderData, commit: bool) -> SenderData
    ensures { result ≡ data_settled (Some (settle_by commit)) old.now }
{
    let last = match &old.in_doubt {
        None => old.last,
        Some(doubt) => doubt.last,
    };
    SenderData {
        partner: old.partner,
        session: old.session,
        last: if commit { last } else { old.last },
        force: old.force,
        in_doubt: None,
    }
}

/// So the sender of a channel; a new one where there is none.
fn settled_or_blank(found: Option<&SenderData>, commit: bool) -> SenderData
    ensures { result ≡ data_settled (Some (settle_by commit)) (sender_or (option_copied found.entry)) }
{
    match found {
        None => SenderData {
            partner: QName::blank(),
            session: 0,
            last: 0,
            force: false,
            in_doubt: None,
        },
        Some(old) => settled_data(old, commit),
    }
}

/// What a channel's sender has hardened once its unit in doubt is settled. It takes no memory.
fn settled_side<D: Disk>(parts: &Parts<D>, channel: &ChName, commit: bool) -> SenderSide
    ensures { result ≡ record { channel = channel.now; hardened = data_settled (Some (settle_by commit)) (sender_or (sender_data channel.now (plain_of parts.now))) } }
{
    SenderSide {
        channel: *channel,
        hardened: settled_or_blank(sender_of(&parts.ends.senders, channel), commit),
    }
}

/// The rows that are named, with their room; none is there any more. It takes no memory.
fn take_rows<D: Disk>(parts: &mut Parts<D>) -> RowRoom
    ensures rows { result ≡ parts.old.ends.rows }
    ensures same { parts.new ≡ with_named none_named parts.old }
{
    let none = RowRoom::new(parts.alloc);
    std::mem::replace(&mut parts.ends.rows, none)
}

/// Other rows are named. It takes no memory.
fn put_rows<D: Disk>(parts: &mut Parts<D>, rows: RowRoom)
    ensures { parts.new ≡ with_named rows parts.old }
{
    parts.ends.rows = rows;
}

/// No row is named any more, and so much of the room is kept no longer. It takes no memory.
fn free_rows<D: Disk>(parts: &mut Parts<D>, less: usize)
    requires { less ≤ parts.old.ends.rows.room + length parts.old.ends.rows.rows }
    ensures { parts.new ≡ with_named (freed_room less parts.old.ends.rows) parts.old }
{
    parts.ends.rows.clear();
    parts.ends.rows.give_back(less);
}

/// Names the rows that a holder has, queue by queue. It walks over the rows of all queues.
fn all_held<D: Disk>(parts: &Parts<D>, by: &Holder, rows: &mut RowRoom) -> Result<(), NoMemory>
    ensures rows { OnOk result (rows.new.rows ≡ rows.old.rows ++ held_rows by.now (plain_of parts.now)) }
    ensures room { RoomStays rows.old rows.new }
    ensures memory { OnErr result (rows.old.room < length (held_rows by.now (plain_of parts.now))) }
{
    match parts.queues.held_rows(by, rows) {
        Ok(()) => Ok(()),
        Err(NoMemory) => Err(NoMemory),
    }
}

/// Names the first rows that a holder has on a queue, at most so many. It walks to the last of them.
#[tactic(auto, using(mq_core::proofs::PlaceLaws::queue_in_state, mq_core::proofs::ReadLaws::queue_none))]
fn rows_on<D: Disk>(
    parts: &Parts<D>,
    queue: &QName,
    by: &Holder,
    most: usize,
    rows: &mut RowRoom,
) -> Result<(), NoMemory>
    ensures rows { OnOk result (rows.new.rows ≡ rows.old.rows ++ take most (held_on by.now (stored queue.now (plain_of parts.now)))) }
    ensures room { RoomStays rows.old rows.new }
    ensures memory { OnErr result (rows.old.room < length (take most (held_on by.now (stored queue.now (plain_of parts.now))))) }
{
    match parts.queues.local(queue) {
        None => Ok(()),
        Some(local) => match first_held(local, by, most, rows) {
            Ok(()) => Ok(()),
            Err(NoMemory) => Err(NoMemory),
        },
    }
}

/// What a channel's sender has in doubt.
fn doubt_now<'a, D: Disk>(parts: &'a Parts<D>, channel: &ChName) -> Option<&'a InDoubt>
    ensures { option_copied result ≡ in_doubt_of (sender_data channel.now (plain_of parts.now)) }
{
    let Some(data) = sender_of(&parts.ends.senders, channel) else {
        return None;
    };
    match &data.in_doubt {
        None => None,
        Some(doubt) => Some(doubt),
    }
}

/// Whether a channel's sender has a unit in doubt.
fn has_doubt<D: Disk>(parts: &Parts<D>, channel: &ChName) -> bool
    ensures { result ≡ is_some (in_doubt_of (sender_data channel.now (plain_of parts.now))) }
{
    match doubt_now(parts, channel) {
        None => false,
        Some(_) => true,
    }
}

/// Names the rows that the batch of a channel holds, queue by queue, where none was named. Where as many of them stand on the queue of
/// the unit in doubt as that lists, there are no others, and the walk ends with the last of them. Where there is room for the rows that
/// the unit lists, it takes no memory.
fn name_rows<D: Disk>(
    parts: &Parts<D>,
    channel: &ChName,
    rows: &mut RowRoom,
) -> Result<(), NoMemory>
    requires sound { Sound (plain_of parts.now) }
    requires named { AreNamed (plain_of parts.now).queues }
    requires none { rows.old.rows ≡ [] }
    ensures rows { OnOk result (rows.new.rows ≡ held_rows (holders.Batch channel.now) (plain_of parts.now)) }
    ensures room { RoomStays rows.old rows.new }
    ensures memory { OnErr result (IsShortOf (rows.old.room + length rows.old.rows) (in_doubt_of (sender_data channel.now (plain_of parts.now)))) }
{
    let by = Holder::Batch(*channel);
    let Some(doubt) = doubt_now(parts, channel) else {
        return match all_held(parts, &by, rows) {
            Ok(()) => Ok(()),
            Err(NoMemory) => Err(NoMemory),
        };
    };
    let most = doubt.idents.len();
    match rows_on(parts, &doubt.queue, &by, most, rows) {
        Ok(()) => {}
        Err(NoMemory) => return Err(NoMemory),
    }
    if rows.as_slice().len() == most {
        return Ok(());
    }
    rows.clear();
    match all_held(parts, &by, rows) {
        Ok(()) => Ok(()),
        Err(NoMemory) => Err(NoMemory),
    }
}

/// So in the room that is kept for the notes of stopped writes; rows that were named before are not any more.
fn list_rows<D: Disk>(parts: &mut Parts<D>, channel: &ChName) -> Result<(), NoMemory>
    requires sound { Sound (plain_of parts.old) }
    requires named { AreNamed (plain_of parts.old).queues }
    ensures same { parts.new ≡ with_named parts.new.ends.rows parts.old }
    ensures room { RoomStays parts.old.ends.rows parts.new.ends.rows }
    ensures rows { OnOk result (parts.new.ends.rows.rows ≡ held_rows (holders.Batch channel.now) (plain_of parts.old)) }
    ensures memory { OnErr result (IsShortOf (parts.old.ends.rows.room + length parts.old.ends.rows.rows) (in_doubt_of (sender_data channel.now (plain_of parts.old)))) }
{
    let mut rows = take_rows(parts);
    rows.clear();
    match name_rows(parts, channel, &mut rows) {
        Ok(()) => {
            put_rows(parts, rows);
            Ok(())
        }
        Err(NoMemory) => {
            put_rows(parts, rows);
            Err(NoMemory)
        }
    }
}

/// How many rows are named.
fn rows_named<D: Disk>(parts: &Parts<D>) -> usize
    ensures { result ≡ length parts.now.ends.rows.rows }
{
    parts.ends.rows.as_slice().len()
}

/// Makes room for what is told of so many rows and of their settlement, but where a unit in doubt has it.
fn tell_room(effects: &mut Effects, count: usize, had: bool) -> Result<(), NoMemory>
    ensures dids { effects.new.dids ≡ effects.old.dids }
    ensures room { OnOk result (had ≡ false → count + 1 ≤ effects.new.room) }
    ensures wants { OnErr result (had ≡ false) }
{
    if had {
        return Ok(());
    }
    let Some(most) = count.checked_add(1) else {
        return Err(NoMemory);
    };
    match effects.reserve(most) {
        Ok(()) => Ok(()),
        Err(NoMemory) => Err(NoMemory),
    }
}

/// How many rows the unit in doubt lists of what stood for a channel.
fn listed_before(before: &Option<KeptSender>) -> usize
    ensures { result ≡ length (listed (doubt_before before.now)) }
{
    match before {
        None => 0,
        Some(side) => rows_listed(side),
    }
}

/// How many rows the unit in doubt of a sender lists.
fn rows_listed(side: &KeptSender) -> usize
    ensures { result ≡ length (listed side.now.hardened.in_doubt) }
{
    match &side.side().hardened.in_doubt {
        None => 0,
        Some(doubt) => doubt.idents.len(),
    }
}

/// A unit in doubt that stood for a channel is told of in the room that was kept with it. It takes no memory.
fn take_room(effects: &mut Effects, before: Option<KeptSender>)
    requires { effects.old.dids ≡ [] }
    ensures dids { effects.new.dids ≡ [] }
    ensures room { told_need (doubt_before before) ≤ effects.new.room }
    ensures same { doubt_before before ≡ None → effects.new ≡ effects.old }
{
    let Some(kept) = before else {
        return;
    };
    let (side, room) = kept.into_parts();
    if side.hardened.in_doubt.is_none() {
        return;
    }
    *effects = room;
}

/// Forces the record of a unit in doubt that is settled, with what it says of the sender; what stood for its channel is handed back. Where
/// its write was stopped nothing of that stands, the rows that were named are noted, and the manager is down. It takes no memory where
/// the log has room, and something stands for the channel.
fn write_settled<D: Disk>(
    parts: &mut Parts<D>,
    channel: &ChName,
    unit: &Unit,
    commit: bool,
    operator: bool,
    bytes: &[u8],
    side: KeptSender,
) -> Result<Option<KeptSender>, Unwritten>
    requires live { parts.old.log.live ≡ true }
    requires small { length bytes.now < 2 ^ 32 }
    requires ends { EndsReady (with_senders (set_sender side parts.old.ends.senders) parts.old.ends) parts.old.log.spare }
    ensures written { WritesOver (standing (λ (s : Sender). s.channel) side.channel parts.old.ends.senders) bytes.now (with_senders (set_sender side parts.old.ends.senders) parts.old.ends) (writes.Settled channel.now unit.now commit operator parts.old.ends.rows.rows) parts.old result parts.new }
    ensures lacks { Lacks (AreByName (λ (s : Sender). s.channel) parts.old.ends.senders → find (λ (s : Sender). bytes_eq side.channel s.channel) parts.old.ends.senders ≡ None) (5 + length bytes.now) parts.old.log result }
{
    let before = match force_side(&mut parts.ends.senders, &mut parts.log, bytes, side) {
        Ok(before) => before,
        Err(Unwritten::NoMemory) => return Err(Unwritten::NoMemory),
        Err(Unwritten::Stopped(stop)) => {
            let rows = take_rows(parts);
            go_down(
                parts,
                StoppedWrite::Settled {
                    channel: *channel,
                    unit: *unit,
                    commit,
                    operator,
                    rows: rows.into_items(),
                },
            );
            return Err(Unwritten::Stopped(stop));
        }
    };
    Ok(before)
}

/// A row goes, or is free again at its place, with no backout counted. It takes no memory.
fn settle_row<D: Disk>(parts: &mut Parts<D>, row: &Remove, commit: bool)
    ensures { parts.new ≡ row_settled commit row.now parts.old }
{
    if commit {
        let _message = parts.queues.remove(&row.queue, &row.ident);
    } else {
        parts.queues.release(&row.queue, &row.ident, false);
    }
}

/// So each of some rows.
fn settle_each<D: Disk>(parts: &mut Parts<D>, rows: &[Remove], commit: bool)
    ensures { parts.new ≡ each_settled commit rows.now parts.old }
{
    for row in rows {
        settle_row(parts, row, commit);
    }
}

/// The rows that are named, which are all that a holder has, go, or are free again at their places. It takes no memory.
fn settle_rows<D: Disk>(parts: &mut Parts<D>, by: &Holder, commit: bool)
    requires listed { parts.old.ends.rows.rows ≡ flat_map (held_on by.now) (queues_of parts.old.queues.states) }
    requires lone { AreLone (queues_of parts.old.queues.states) }
    ensures { parts.new ≡ rows_settled commit by.now parts.old }
{
    let rows = take_rows(parts);
    settle_each(parts, rows.as_slice(), commit);
    put_rows(parts, rows);
}

fn tell_one_settled(effects: &mut Effects, row: &Remove, commit: bool)
    requires { 0 < effects.old.room }
    ensures { effects.new ≡ told (settle_did commit row.now) effects.old }
{
    if commit {
        effects.tell(Did::Removed {
            queue: row.queue,
            ident: row.ident,
            why: Why::Sent,
        });
    } else {
        effects.tell(Did::Released {
            queue: row.queue,
            ident: row.ident,
        });
    }
}

/// Tells that rows have gone, or are free again. It takes no memory.
#[tactic(auto, using(crate::proofs::TellLaws::tell_fits, crate::proofs::TellLaws::tell_next))]
fn tell_settled(effects: &mut Effects, rows: &[Remove], commit: bool)
    requires { length rows.now ≤ effects.old.room }
    ensures { effects.new ≡ told_all (map (settle_did commit) rows.now) effects.old }
{
    for row in rows {
        tell_one_settled(effects, row, commit);
    }
}

/// So of the rows that are named.
fn tell_rows<D: Disk>(effects: &mut Effects, parts: &Parts<D>, commit: bool)
    requires { length parts.now.ends.rows.rows ≤ effects.old.room }
    ensures { effects.new ≡ told_all (map (settle_did commit) parts.now.ends.rows.rows) effects.old }
{
    tell_settled(effects, parts.ends.rows.as_slice(), commit);
}

/// What was set aside for a unit in doubt is room of the log again. It takes no memory.
fn draw_if<D: Disk>(parts: &mut Parts<D>, had: bool)
    requires { drawn_need had ≤ parts.old.log.spare }
    ensures { parts.new ≡ drawn_if had parts.old }
{
    if had {
        draw(parts, SETTLING);
    }
}

/// What a sender has hardened that has nothing in doubt. It takes no memory.
fn kept_settled<D: Disk>(parts: &Parts<D>, side: SenderSide) -> KeptSender
    requires { side.hardened.in_doubt ≡ None }
    ensures { result ≡ side }
{
    KeptSender::of_settled(parts.alloc, side)
}

/// A sender hardens a record of these bytes, which says that its unit in doubt is settled. Of one that is in doubt it takes no memory: the
/// room was made when it was prepared.
fn settle_unit<D: Disk>(
    core: &mut Core<D>,
    channel: &ChName,
    unit: &Unit,
    commit: bool,
    operator: bool,
    bytes: &[u8],
) -> Result<(), AgentStop>
    requires up { IsUp core.old.plain }
    requires sound { Sound core.old.plain }
    requires named { AreNamed core.old.plain.queues }
    requires bytes { bytes.now ≡ record_bytes (records.Resolved channel.now unit.now commit operator) }
    requires size { IsWhole bytes.now (records.Resolved channel.now unit.now commit operator) }
    requires small { length bytes.now ≤ 39 }
    ensures wants { is_some (in_doubt_of (sender_data channel.now core.old.plain)) ≡ true → WantsNone result }
    ensures meets { MeetsOrWants (manager_of core.old) (harden channel.now (notes.Resolved unit.now commit operator) core.old.plain) (by_agent result) (manager_of core.new) }
    ensures told { WritesLog core.old (harden channel.now (notes.Resolved unit.now commit operator) core.old.plain) (by_agent result) core.new }
{
    core.begin_call();
    match list_rows(&mut core.parts, channel) {
        Ok(()) => {}
        Err(NoMemory) => return Err(AgentStop::NoMemory),
    }
    let count = rows_named(&core.parts);
    let had = has_doubt(&core.parts, channel);
    match tell_room(&mut core.effects, count, had) {
        Ok(()) => {}
        Err(NoMemory) => return Err(AgentStop::NoMemory),
    }
    draw_if(&mut core.parts, had);
    let side = settled_side(&core.parts, channel, commit);
    let kept = kept_settled(&core.parts, side);
    let before = match write_settled(
        &mut core.parts,
        channel,
        unit,
        commit,
        operator,
        bytes,
        kept,
    ) {
        Ok(before) => before,
        Err(unwritten) => {
            let stopped = stop_of(unwritten);
            let agent = agent_of(unwritten);
            core.stopped = stopped;
            return Err(agent);
        }
    };
    let less = listed_before(&before);
    take_room(&mut core.effects, before);
    let by = Holder::Batch(*channel);
    settle_rows(&mut core.parts, &by, commit);
    tell_rows(&mut core.effects, &core.parts, commit);
    free_rows(&mut core.parts, less);
    core.effects.tell(Did::Hardened {
        channel: *channel,
        note: Note::Resolved {
            unit: *unit,
            commit,
            operator,
        },
    });
    Ok(())
}

/// A sender hardens that its unit in doubt is settled, by its partner's word or by an operator: committed, its rows go; backed out, they
/// are free again at their places, with no backout counted. Of one that is in doubt it takes no memory.
///
/// # Errors
///
/// The disk or the cut stopped the write, and the manager is down; no memory, where nothing is in doubt, and nothing has changed.
pub fn harden_resolved<D: Disk>(
    core: &mut Core<D>,
    channel: &ChName,
    unit: &Unit,
    commit: bool,
    operator: bool,
) -> Result<(), AgentStop>
    requires up { IsUp core.old.plain }
    requires sound { Sound core.old.plain }
    requires named { AreNamed core.old.plain.queues }
    ensures meets { MeetsOrWants (manager_of core.old) (harden channel.now (notes.Resolved unit.now commit operator) core.old.plain) (by_agent result) (manager_of core.new) }
    ensures told { WritesLog core.old (harden channel.now (notes.Resolved unit.now commit operator) core.old.plain) (by_agent result) core.new }
    ensures room { CanHarden channel.now (notes.Resolved unit.now commit operator) core.old.plain → MeetsInRoom (manager_of core.old) (harden channel.now (notes.Resolved unit.now commit operator) core.old.plain) (by_agent result) (manager_of core.new) }
{
    settle_unit(
        core,
        channel,
        unit,
        commit,
        operator,
        &resolved_bytes(channel, *unit, commit, operator),
    )
}
