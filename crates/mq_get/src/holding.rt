//! A row that a get holds for the unit of its connection.
ghost use Rattle.std.specs.Prelude.{◌≡◌, ◌+◌, ◌∷◌, ◌++◌, [], ◌<◌, ◌≤◌, ◌^◌, true, false, IsSome, IfSome, OnOk, OnErr, length};
ghost use Rattle.mq_calls.specs.declared.deltas.Why.TheVariants as whys;
ghost use Rattle.mq_calls.specs.declared.state.Item.TheVariants.{Take};
ghost use Rattle.mq_calls.specs.Words.{Do, connection_at, more_need, unit_need};
ghost use Rattle.mq_message.specs.declared.place.Holder.TheVariants as holders;
ghost use Rattle.mq_calls.specs.declared.deltas.Did.TheVariants as did;
ghost use Rattle.mq_unit.specs.Told.{told};
ghost use Rattle.mq_core.specs.Forced.{HasMoreRoom};
ghost use Rattle.mq_get.specs.Does.{MayClear, ComesTo};
ghost use Rattle.mq_get.specs.Leaving.{gone_parts, held_part, leaving_need};
ghost use Rattle.mq_get.specs.Rooms.{IsGivenBack, IsItemMore, Holds, holding, unheld};

use crate::leaving::{
    Leaving, force_leaving, go_down_leaving, leaving_need, leaving_of, make_room, take_out,
};
use mq_base::{NoMemory, QName};
use mq_calls::{Did, GetAnswer, Halt, Item, Why};
use mq_codes::Reason;
use mq_core::{Parts, return_room};
use mq_disk::{Disk, Stop};
use mq_message::Holder;
use mq_scan::Met;
use mq_unit::Effects;

/// What a row that is held needs of the log in the unit of a connection.
fn hold_need<D: Disk>(parts: &Parts<D>, number: u64, persistent: bool) -> u64
    requires { IsSome (connection_at number parts.now.desk.live) }
    ensures some { persistent ≡ true → IfSome (connection_at number parts.now.desk.live) (λ c. result ≡ more_need c.unit 65) }
    ensures none { persistent ≡ false → result ≡ 0 }
    ensures small { result ≤ 79 }
{
    if !persistent {
        return 0;
    }
    match parts.live.get(number) {
        None => unreachable!(),
        Some(seat) => seat.unit().more_need(65),
    }
}

/// A row waits in the unit of a connection, with the room that the unit's end needs for it.
fn pend_take<D: Disk>(
    parts: &mut Parts<D>,
    number: u64,
    queue: &QName,
    met: Met,
    need: u64,
) -> Result<(), NoMemory>
    requires live { parts.old.log.live ≡ true }
    requires need { IfSome (connection_at number parts.old.desk.live) (λ c. unit_need (c.unit ++ Take queue.now met.ident met.persistent ∷ []) < 2 ^ 64) }
    ensures ok { OnOk result (IsItemMore number (Take queue.now met.ident met.persistent) need parts.old parts.new) }
    ensures err { OnErr result (HasMoreRoom parts.old parts.new) }
{
    match parts.reserve_record(need) {
        Ok(()) => {}
        Err(NoMemory) => return Err(NoMemory),
    }
    let item = Item::Take {
        queue: *queue,
        ident: met.ident,
        persistent: met.persistent,
    };
    match parts.live.pend(number, item) {
        Ok(()) => Ok(()),
        Err(NoMemory) => {
            parts.return_record(need);
            Err(NoMemory)
        }
    }
}

/// A row waits in the unit of a connection; where there is no memory for it, room for records is given back.
fn pend_in_room<D: Disk>(
    parts: &mut Parts<D>,
    number: u64,
    queue: &QName,
    met: Met,
    need: u64,
    room: u64,
) -> Result<(), NoMemory>
    requires live { parts.old.log.live ≡ true }
    requires need { IfSome (connection_at number parts.old.desk.live) (λ c. unit_need (c.unit ++ Take queue.now met.ident met.persistent ∷ []) < 2 ^ 64) }
    requires room { room ≤ parts.old.body.room + length parts.old.body.bytes }
    ensures ok { OnOk result (IsItemMore number (Take queue.now met.ident met.persistent) need parts.old parts.new) }
    ensures err { OnErr result (IsGivenBack room parts.old parts.new) }
{
    match pend_take(parts, number, queue, met, need) {
        Ok(()) => Ok(()),
        Err(NoMemory) => {
            return_room(parts, room);
            Err(NoMemory)
        }
    }
}

/// A row that waited in the unit of a connection is given up. It takes no memory.
fn unpend_take<D: Disk>(parts: &mut Parts<D>, number: u64, need: u64)
    requires log { need ≤ parts.old.log.reserved }
    requires body { need ≤ parts.old.body.room + length parts.old.body.bytes }
    ensures { parts.new ≡ unheld number need parts.old }
{
    parts.live.give_up(number);
    parts.return_record(need);
}

/// A row is held. It takes no memory.
fn hold_row<D: Disk>(
    parts: &mut Parts<D>,
    effects: &mut Effects,
    number: u64,
    queue: &QName,
    met: Met,
)
    requires { 1 ≤ effects.old.room }
    ensures parts { parts.new ≡ holding number queue.now met.ident parts.old }
    ensures told { effects.new ≡ told (did.Held queue.now met.ident (holders.Unit number)) effects.old }
{
    let by = Holder::Unit(number);
    parts.queues.hold(queue, &met.ident, &by);
    effects.tell(Did::Held {
        queue: *queue,
        ident: met.ident,
        by,
    });
}

/// A row that waits in the unit of a connection is held, behind the expired rows that leave.
fn hold_behind<D: Disk>(
    parts: &mut Parts<D>,
    effects: &mut Effects,
    number: u64,
    queue: &QName,
    leaving: Leaving,
    met: Met,
    need: u64,
) -> Result<(), Stop>
    requires live { parts.old.log.live ≡ true }
    requires room { leaving_need leaving.removes ≤ parts.old.log.room }
    requires body { leaving_need leaving.removes + need ≤ parts.old.body.room + length parts.old.body.bytes }
    requires small { leaving_need leaving.removes < 2 ^ 32 }
    requires reserved { need ≤ parts.old.log.reserved }
    requires told { length leaving.idents + 1 ≤ effects.old.room }
    ensures { Holds number queue.now leaving met need parts.old effects.old result parts.new effects.new }
{
    match force_leaving(parts, &leaving) {
        Ok(()) => {
            take_out(parts, effects, queue, &leaving, Why::Expired);
            hold_row(parts, effects, number, queue, met);
            Ok(())
        }
        Err(stop) => {
            unpend_take(parts, number, need);
            go_down_leaving(parts, queue, leaving, Why::Expired);
            Err(stop)
        }
    }
}

/// A row is held for the unit of a connection, behind the expired rows that leave.
pub(crate) fn get_held<D: Disk>(
    parts: &mut Parts<D>,
    effects: &mut Effects,
    number: u64,
    queue: &QName,
    mets: &[Met],
    met: Met,
    answer: GetAnswer,
) -> Result<GetAnswer, Halt<Reason>>
    requires may { MayClear queue.now mets.now parts.old effects.old }
    requires live { IsSome (connection_at number parts.old.desk.live) }
    ensures { ComesTo (Do answer (gone_parts whys.Expired queue.now mets.now ++ held_part number queue.now met ∷ [])) parts.old result parts.new effects.new }
{
    let leaving = match leaving_of(parts.alloc, queue, mets) {
        Ok(leaving) => leaving,
        Err(NoMemory) => return Err(Halt::NoMemory),
    };
    let need = hold_need(parts, number, met.persistent);
    let room = leaving_need(&leaving) + need;
    let Some(dids) = mets.len().checked_add(1) else {
        return Err(Halt::NoMemory);
    };
    match make_room(parts, effects, room, dids) {
        Ok(()) => {}
        Err(NoMemory) => return Err(Halt::NoMemory),
    }
    match pend_in_room(parts, number, queue, met, need, room) {
        Ok(()) => {}
        Err(NoMemory) => return Err(Halt::NoMemory),
    }
    match hold_behind(parts, effects, number, queue, leaving, met, need) {
        Ok(()) => {
            return_room(parts, room);
            Ok(answer)
        }
        Err(stop) => Err(Halt::Stopped(stop)),
    }
}
