//! Rows that leave a queue, some of them in a record of their own.
ghost use Rattle.std.specs.Prelude.{◌≡◌, ◌+◌, ◌*◌, ◌<◌, ◌≤◌, ◌^◌, ◌++◌, ◌∷◌, [], true, map, length, IfOk, OnOk, OnErr};
ghost use Rattle.std.specs.List.{flat_map, AllByRecursion};
ghost use Rattle.mq_message.specs.declared.message.Ident.{Ident};
ghost use Rattle.mq_calls.specs.declared.deltas.Did.TheVariants as did;
ghost use Rattle.mq_calls.specs.declared.records.LogRecord.TheVariants as records;
ghost use Rattle.mq_calls.specs.Words.{need, record_size};
ghost use Rattle.mq_unit.specs.from_record.Records.{remove_bytes, IsRemove};
ghost use Rattle.mq_unit.specs.from_record.Room.{with_piece};
ghost use Rattle.mq_unit.specs.Told.{told_all};
ghost use Rattle.mq_core.specs.Forced.{IsForced, HasMoreRoom};
ghost use Rattle.mq_get.specs.Leaving.{leaving_met, leaving_need, removes_met, met_ident};
ghost use Rattle.mq_get.specs.Rooms.{IsRoomy, Writes, Drops, out_of, downed_out};

use mq_base::{Items, NoMemory, QName};
use mq_calls::{Did, Remove, Why};
use mq_core::{Mode, Parts, StoppedWrite};
use mq_disk::{Disk, Stop};
use mq_message::Ident;
use mq_scan::Met;
use mq_unit::Effects;
use mq_unit::below::{Buffer, unit_front};
use std::alloc::Global;

/// Rows that leave a queue.
#[derive(Drop)]
pub struct Leaving {
    /// Those that last, as the record names them.
    pub removes: Items<Remove>,
    /// All of them, in order of place.
    pub idents: Items<Ident>,
}

/// The idents of rows that a scan met.
fn idents_of(alloc: Global, mets: &[Met]) -> Result<Items<Ident>, NoMemory>
    ensures { IfOk result (λ idents. idents ≡ map met_ident mets.now) }
{
    let mut idents = Items::new(alloc);
    for met in mets {
        match idents.push(met.ident) {
            Ok(()) => {}
            Err(_) => return Err(NoMemory),
        }
    }
    Ok(idents)
}

/// A row more where it lasts.
fn push_if_lasting(removes: &mut Items<Remove>, queue: &QName, met: &Met) -> Result<(), NoMemory>
    ensures { OnOk result (removes.new ≡ removes.old ++ removes_met queue.now (met.now ∷ [])) }
{
    if !met.persistent {
        return Ok(());
    }
    match removes.push(Remove {
        queue: *queue,
        ident: met.ident,
    }) {
        Ok(()) => Ok(()),
        Err(_) => Err(NoMemory),
    }
}

/// Those that last of rows that a scan met.
fn removes_of(alloc: Global, queue: &QName, mets: &[Met]) -> Result<Items<Remove>, NoMemory>
    ensures { IfOk result (λ removes. removes ≡ removes_met queue.now mets.now) }
{
    let mut removes = Items::new(alloc);
    for met in mets {
        match push_if_lasting(&mut removes, queue, met) {
            Ok(()) => {}
            Err(NoMemory) => return Err(NoMemory),
        }
    }
    Ok(removes)
}

/// The rows that a scan met, as they leave.
pub(crate) fn leaving_of(alloc: Global, queue: &QName, mets: &[Met]) -> Result<Leaving, NoMemory>
    ensures { IfOk result (λ l. l ≡ leaving_met queue.now mets.now) }
{
    let removes = match removes_of(alloc, queue, mets) {
        Ok(removes) => removes,
        Err(NoMemory) => return Err(NoMemory),
    };
    match idents_of(alloc, mets) {
        Ok(idents) => Ok(Leaving { removes, idents }),
        Err(NoMemory) => Err(NoMemory),
    }
}

/// What the record of rows that leave takes of the log, in bytes; 0 where there is none.
pub(crate) fn leaving_need(leaving: &Leaving) -> u64
    requires { leaving_need leaving.now.removes < 2 ^ 33 }
    ensures { result ≡ leaving_need leaving.now.removes }
{
    let lasting = leaving.removes.len() as u64;
    if lasting == 0 { 0 } else { 14 + 65 * lasting }
}

/// Takes memory for records of so many bytes, and for their frames in the log.
///
/// # Errors
///
/// No memory; nothing has changed but what has room.
pub fn make_record_room<D: Disk>(parts: &mut Parts<D>, need: u64) -> Result<(), NoMemory>
    ensures ok { OnOk result (IsRoomy need parts.old parts.new) }
    ensures err { OnErr result (HasMoreRoom parts.old parts.new) }
{
    match parts.log.room(need) {
        Ok(()) => {}
        Err(_) => return Err(NoMemory),
    }
    parts.body.clear();
    match parts.body.reserve(need as usize) {
        Ok(()) => Ok(()),
        Err(_) => Err(NoMemory),
    }
}

/// Takes memory for records of so many bytes, and for so many things that are told.
pub(crate) fn make_room<D: Disk>(
    parts: &mut Parts<D>,
    effects: &mut Effects,
    need: u64,
    dids: usize,
) -> Result<(), NoMemory>
    ensures ok { OnOk result (IsRoomy need parts.old parts.new) }
    ensures err { OnErr result (HasMoreRoom parts.old parts.new) }
    ensures dids { effects.new.dids ≡ effects.old.dids }
    ensures room { OnOk result (dids ≤ effects.new.room) }
{
    match effects.reserve(dids) {
        Ok(()) => {}
        Err(NoMemory) => return Err(NoMemory),
    }
    make_record_room(parts, need)
}

fn put_removes(body: &mut Buffer, removes: &[Remove])
    requires { 65 * length removes.now ≤ body.old.room }
    ensures bytes { body.new ≡ with_piece (flat_map remove_bytes removes.now) body.old }
    ensures removes { AllByRecursion IsRemove removes.now }
{
    for remove in removes {
        body.put_remove(&remove.queue, &remove.ident);
    }
}

/// Forces the record of rows that leave. It takes no memory.
fn force_removes<D: Disk>(parts: &mut Parts<D>, removes: &[Remove]) -> Result<(), Stop>
    requires live { parts.old.log.live ≡ true }
    requires room { need (records.Unit [] removes.now) ≤ parts.old.log.room }
    requires body { need (records.Unit [] removes.now) ≤ parts.old.body.room + length parts.old.body.bytes }
    requires small { record_size (records.Unit [] removes.now) < 2 ^ 32 }
    ensures { IsForced (records.Unit [] removes.now) parts.old result parts.new }
{
    parts.body.clear();
    parts.body.put(&unit_front(0, removes.len() as u32));
    put_removes(&mut parts.body, removes);
    parts.log.append_forced(parts.body.as_slice())
}

/// Forces the record of rows that leave, where one of them lasts. It takes no memory.
pub(crate) fn force_leaving<D: Disk>(parts: &mut Parts<D>, leaving: &Leaving) -> Result<(), Stop>
    requires live { parts.old.log.live ≡ true }
    requires room { leaving_need leaving.now.removes ≤ parts.old.log.room }
    requires body { leaving_need leaving.now.removes ≤ parts.old.body.room + length parts.old.body.bytes }
    requires small { leaving_need leaving.now.removes < 2 ^ 32 }
    ensures { Writes leaving.now.removes parts.old result parts.new }
{
    if leaving.removes.is_empty() {
        return Ok(());
    }
    force_removes(parts, leaving.removes.as_slice())
}

/// Tells that rows have left.
fn tell_removed(effects: &mut Effects, queue: &QName, idents: &[Ident], why: Why)
    requires { length idents.now ≤ effects.old.room }
    ensures { effects.new ≡ told_all (map (λ (i : Ident). did.Removed queue.now i why) idents.now) effects.old }
{
    for ident in idents {
        effects.tell(Did::Removed {
            queue: *queue,
            ident: *ident,
            why,
        });
    }
}

/// Rows leave a queue. It takes no memory.
pub(crate) fn take_out<D: Disk>(
    parts: &mut Parts<D>,
    effects: &mut Effects,
    queue: &QName,
    leaving: &Leaving,
    why: Why,
)
    requires { length leaving.now.idents ≤ effects.old.room }
    ensures parts { parts.new ≡ out_of queue.now leaving.now.idents parts.old }
    ensures told { effects.new ≡ told_all (map (λ (i : Ident). did.Removed queue.now i why) leaving.now.idents) effects.old }
{
    parts.queues.remove_each(queue, leaving.idents.as_slice());
    tell_removed(effects, queue, leaving.idents.as_slice(), why);
}

/// The write of rows that leave was stopped. It takes no memory.
pub(crate) fn go_down_leaving<D: Disk>(
    parts: &mut Parts<D>,
    queue: &QName,
    leaving: Leaving,
    why: Why,
)
    ensures { parts.new ≡ downed_out queue.now leaving why parts.old }
{
    let Leaving { removes, idents } = leaving;
    parts.queues.drop_volatile();
    parts.mode = Mode::Down {
        write: Some(StoppedWrite::Removal {
            queue: *queue,
            removes,
            idents,
            why,
        }),
        starts: 0,
        read: None,
    };
}

/// Rows leave a queue, behind a forced write where one of them lasts. It takes no memory.
pub(crate) fn drop_rows<D: Disk>(
    parts: &mut Parts<D>,
    effects: &mut Effects,
    queue: &QName,
    leaving: Leaving,
    why: Why,
) -> Result<(), Stop>
    requires live { parts.old.log.live ≡ true }
    requires room { leaving_need leaving.removes ≤ parts.old.log.room }
    requires body { leaving_need leaving.removes ≤ parts.old.body.room + length parts.old.body.bytes }
    requires small { leaving_need leaving.removes < 2 ^ 32 }
    requires told { length leaving.idents ≤ effects.old.room }
    ensures { Drops queue.now leaving why parts.old effects.old result parts.new effects.new }
{
    match force_leaving(parts, &leaving) {
        Ok(()) => {
            take_out(parts, effects, queue, &leaving, why);
            Ok(())
        }
        Err(stop) => {
            go_down_leaving(parts, queue, leaving, why);
            Err(stop)
        }
    }
}
