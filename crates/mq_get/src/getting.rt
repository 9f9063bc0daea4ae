//! MQGET.
ghost use Rattle.std.specs.Prelude.{◌≡◌, ◌+◌, ◌∷◌, ◌++◌, ◌&&◌, [], ◌<◌, ◌≤◌, ◌^◌, true, false, not, IsSome, length};
ghost use Rattle.mq_calls.specs.State.{Plain};
ghost use Rattle.mq_calls.specs.declared.deltas.Why.TheVariants as whys;
ghost use Rattle.mq_calls.specs.State.Change.{SetCursor};
ghost use Rattle.mq_calls.specs.Words.{Meets, Do, connection_at, change_connection, is_up, silent};
ghost use Rattle.mq_core.specs.from_handles.Seats.{cursor_set};
ghost use Rattle.mq_spec_manager.specs.Words.{mqget, got_answer, is_under, is_waiting, without_row, persistent_rows, expired_need};
ghost use Rattle.mq_core.specs.Views.{plain_of};
ghost use Rattle.mq_core.specs.Ties.{Tied, mode_is_up};
ghost use Rattle.mq_core.specs.Values.{MeetsTold, WritesLog, manager_of};
ghost use Rattle.mq_get.specs.Does.{MayClear, ComesTo, stop_of, Clears, DropsBoth};
ghost use Rattle.mq_get.specs.Gets.{get_at, look, plan_step, hit_step};
ghost use Rattle.mq_get.specs.Leaving.{gone_part, gone_parts, leaving_need, removes_met};

use crate::finding::{Hit, Plan, look};
use crate::holding::get_held;
use crate::leaving::{Leaving, drop_rows, leaving_need, leaving_of, make_room};
use crate::refusals::{Aim, can_get};
use crate::takes::{is_destructive, is_under};
use mq_base::{NoMemory, QName};
use mq_calls::{Answer, Get, GetAnswer, Got, Halt, Hconn, Hobj, Why};
use mq_codes::Reason;
use mq_core::{Core, Parts, return_room};
use mq_disk::{Disk, Stop};
use mq_message::Place;
use mq_scan::Met;
use mq_unit::Effects;

/// What an application gets; it is warned of a message that was cut.
fn got_answer(long: bool, got: Got) -> Answer<Got>
    ensures { result ≡ got_answer long got }
{
    if long {
        Answer::Warning(Reason::TruncatedMessageAccepted, got)
    } else {
        Answer::Ok(got)
    }
}

/// The get may wait still.
fn is_waiting(until: Option<u64>, moment: u64) -> bool
    ensures { (p : Plain) → p.moment ≡ moment → result ≡ is_waiting until p }
{
    match until {
        None => false,
        Some(until) => moment < until,
    }
}

/// The expired rows that a scan met leave, behind a write of their own where one of them lasts.
pub fn drop_expired<D: Disk>(
    parts: &mut Parts<D>,
    effects: &mut Effects,
    queue: &QName,
    mets: &[Met],
) -> Result<(), Halt<Reason>>
    requires tied { Tied parts.old }
    requires up { mode_is_up parts.old.mode ≡ true }
    requires told { effects.old.dids ≡ [] }
    requires short { leaving_need (removes_met queue.now mets.now) < 2 ^ 32 }
    ensures { Clears queue.now mets.now parts.old result parts.new effects.new }
{
    let leaving = match leaving_of(parts.alloc, queue, mets) {
        Ok(leaving) => leaving,
        Err(NoMemory) => return Err(Halt::NoMemory),
    };
    let need = leaving_need(&leaving);
    match make_room(parts, effects, need, mets.len()) {
        Ok(()) => {}
        Err(NoMemory) => return Err(Halt::NoMemory),
    }
    match drop_rows(parts, effects, queue, leaving, Why::Expired) {
        Ok(()) => {
            return_room(parts, need);
            Ok(())
        }
        Err(stop) => Err(Halt::Stopped(stop)),
    }
}

/// An answer, behind the expired rows that leave.
fn answer_behind<D: Disk>(
    parts: &mut Parts<D>,
    effects: &mut Effects,
    queue: &QName,
    mets: &[Met],
    answer: GetAnswer,
) -> Result<GetAnswer, Halt<Reason>>
    requires { MayClear queue.now mets.now parts.old effects.old }
    ensures { ComesTo (Do answer (gone_parts whys.Expired queue.now mets.now)) parts.old result parts.new effects.new }
{
    match drop_expired(parts, effects, queue, mets) {
        Ok(()) => Ok(answer),
        Err(halt) => Err(halt),
    }
}

/// The cursor of a handle goes to a row. It takes no memory.
fn move_cursor<D: Disk>(parts: &mut Parts<D>, number: u64, handle: u64, place: Place)
    ensures { parts.new ≡ record parts.old { desk = record { live = change_connection number (cursor_set handle place) parts.old.desk.live; last = parts.old.desk.last } } }
{
    parts.live.set_cursor(number, handle, place);
}

/// A row is browsed: the cursor goes to it.
fn get_browsed<D: Disk>(
    parts: &mut Parts<D>,
    effects: &mut Effects,
    number: u64,
    aim: &Aim,
    mets: &[Met],
    place: Place,
    answer: GetAnswer,
) -> Result<GetAnswer, Halt<Reason>>
    requires may { MayClear aim.now.queue mets.now parts.old effects.old }
    requires live { IsSome (connection_at number parts.old.desk.live) }
    ensures { ComesTo (Do answer (gone_parts whys.Expired aim.now.queue mets.now ++ silent (SetCursor number aim.now.handle place ∷ []) ∷ [])) parts.old result parts.new effects.new }
{
    match drop_expired(parts, effects, &aim.queue, mets) {
        Ok(()) => {
            move_cursor(parts, number, aim.handle, place);
            Ok(answer)
        }
        Err(halt) => Err(halt),
    }
}

/// The expired rows leave, and then the row that was found, each behind a write of its own where it lasts.
fn drop_both<D: Disk>(
    parts: &mut Parts<D>,
    effects: &mut Effects,
    queue: &QName,
    gone: Leaving,
    taken: Leaving,
) -> Result<(), Stop>
    requires live { parts.old.log.live ≡ true }
    requires room { leaving_need gone.removes + leaving_need taken.removes ≤ parts.old.log.room }
    requires body { leaving_need gone.removes + leaving_need taken.removes ≤ parts.old.body.room + length parts.old.body.bytes }
    requires small { leaving_need gone.removes < 2 ^ 32 }
    requires few { leaving_need taken.removes < 2 ^ 32 }
    requires told { length gone.idents + length taken.idents ≤ effects.old.room }
    ensures { DropsBoth queue.now gone taken parts.old effects.old result parts.new effects.new }
{
    match drop_rows(parts, effects, queue, gone, Why::Expired) {
        Ok(()) => {}
        Err(stop) => return Err(stop),
    }
    drop_rows(parts, effects, queue, taken, Why::Got)
}

/// A row is taken outside units: it leaves.
fn get_taken<D: Disk>(
    parts: &mut Parts<D>,
    effects: &mut Effects,
    queue: &QName,
    mets: &[Met],
    met: Met,
    answer: GetAnswer,
) -> Result<GetAnswer, Halt<Reason>>
    requires { MayClear queue.now mets.now parts.old effects.old }
    ensures { ComesTo (Do answer (gone_parts whys.Expired queue.now mets.now ++ gone_part whys.Got queue.now (met ∷ []) ∷ [])) parts.old result parts.new effects.new }
{
    let gone = match leaving_of(parts.alloc, queue, mets) {
        Ok(leaving) => leaving,
        Err(NoMemory) => return Err(Halt::NoMemory),
    };
    let taken = match leaving_of(parts.alloc, queue, &[met]) {
        Ok(leaving) => leaving,
        Err(NoMemory) => return Err(Halt::NoMemory),
    };
    let need = leaving_need(&gone) + leaving_need(&taken);
    let Some(dids) = mets.len().checked_add(1) else {
        return Err(Halt::NoMemory);
    };
    match make_room(parts, effects, need, dids) {
        Ok(()) => {}
        Err(NoMemory) => return Err(Halt::NoMemory),
    }
    match drop_both(parts, effects, queue, gone, taken) {
        Ok(()) => {
            return_room(parts, need);
            Ok(answer)
        }
        Err(stop) => Err(Halt::Stopped(stop)),
    }
}

/// A row that fits, or is cut.
fn get_hit<D: Disk>(
    parts: &mut Parts<D>,
    effects: &mut Effects,
    number: u64,
    aim: &Aim,
    get: &Get,
    mets: &[Met],
    hit: Hit,
) -> Result<GetAnswer, Halt<Reason>>
    requires may { MayClear aim.now.queue mets.now parts.old effects.old }
    requires live { IsSome (connection_at number parts.old.desk.live) }
    ensures { ComesTo (hit_step false get.now number aim.now hit (gone_parts whys.Expired aim.now.queue mets.now)) parts.old result parts.new effects.new }
{
    let Hit {
        met,
        place,
        long,
        got,
    } = hit;
    let answer = GetAnswer::Done(got_answer(long, got));
    if !is_destructive(&get.take) {
        return get_browsed(parts, effects, number, aim, mets, place, answer);
    }
    if get.sync {
        return get_held(parts, effects, number, &aim.queue, mets, met, answer);
    }
    get_taken(parts, effects, &aim.queue, mets, met, answer)
}

/// The row is too long, and not to be cut.
fn is_left(hit: &Hit, get: &Get) -> bool
    ensures { result ≡ (hit.now.long && not get.now.truncate) }
{
    hit.long && !get.truncate
}

/// A row that is found, or one that doesn't fit.
fn get_found<D: Disk>(
    parts: &mut Parts<D>,
    effects: &mut Effects,
    number: u64,
    aim: &Aim,
    get: &Get,
    mets: &[Met],
    hit: Hit,
) -> Result<GetAnswer, Halt<Reason>>
    requires may { MayClear aim.now.queue mets.now parts.old effects.old }
    requires live { IsSome (connection_at number parts.old.desk.live) }
    ensures { ComesTo (hit_step (hit.long && not get.now.truncate) get.now number aim.now hit (gone_parts whys.Expired aim.now.queue mets.now)) parts.old result parts.new effects.new }
{
    if is_left(&hit, get) {
        let answer = Answer::Warning(Reason::TruncatedMessageFailed, hit.got);
        return answer_behind(parts, effects, &aim.queue, mets, GetAnswer::Done(answer));
    }
    get_hit(parts, effects, number, aim, get, mets, hit)
}

/// No row is found: the get waits, or answers so.
fn get_none<D: Disk>(
    parts: &mut Parts<D>,
    effects: &mut Effects,
    queue: &QName,
    get: &Get,
    until: Option<u64>,
    mets: &[Met],
) -> Result<GetAnswer, Halt<Reason>>
    requires { MayClear queue.now mets.now parts.old effects.old }
    ensures { ComesTo (without_row (is_under get.now.take) (is_waiting until (plain_of parts.old)) (gone_parts whys.Expired queue.now mets.now)) parts.old result parts.new effects.new }
{
    if is_under(&get.take) {
        let answer = GetAnswer::Done(Answer::Failed(Reason::NoMessageUnderCursor));
        return answer_behind(parts, effects, queue, mets, answer);
    }
    if is_waiting(until, parts.moment) {
        return Ok(GetAnswer::NotYet);
    }
    let answer = GetAnswer::Done(Answer::Failed(Reason::NoMessageAvailable));
    answer_behind(parts, effects, queue, mets, answer)
}

/// What a get finds is taken or told.
fn do_get<D: Disk>(
    parts: &mut Parts<D>,
    effects: &mut Effects,
    number: u64,
    aim: &Aim,
    get: &Get,
    until: Option<u64>,
    plan: Plan,
) -> Result<GetAnswer, Halt<Reason>>
    requires may { MayClear aim.now.queue plan.mets parts.old effects.old }
    requires live { IsSome (connection_at number parts.old.desk.live) }
    ensures { ComesTo (plan_step get.now until (plain_of parts.old) number aim.now plan.mets plan.hit) parts.old result parts.new effects.new }
{
    let Plan { mets, hit } = plan;
    match hit {
        None => get_none(parts, effects, &aim.queue, get, until, mets.as_slice()),
        Some(hit) => get_found(parts, effects, number, aim, get, mets.as_slice(), hit),
    }
}

/// What stopped a call.
fn stop_of(ended: &Result<GetAnswer, Halt<Reason>>) -> Option<Stop>
    ensures { result ≡ stop_of ended.now }
{
    match ended {
        Ok(_) => None,
        Err(Halt::Refused(_)) => None,
        Err(Halt::NoMemory) => None,
        Err(Halt::Stopped(stop)) => Some(*stop),
    }
}

/// A get for which no refusal applies.
fn get_now<D: Disk>(
    core: &mut Core<D>,
    number: u64,
    aim: &Aim,
    get: &Get,
    until: Option<u64>,
) -> Result<GetAnswer, Halt<Reason>>
    requires up { is_up core.old.plain.running ≡ true }
    requires live { IsSome (connection_at number core.old.plain.connections) }
    requires short { expired_need (persistent_rows (look get.now aim.now core.old.plain).expired) < 2 ^ 32 }
    ensures { MeetsTold core.old (get_at number get.now until aim.now core.old.plain) result core.new }
{
    core.begin_call();
    let plan = match look(&core.parts, aim, get) {
        Ok(plan) => plan,
        Err(NoMemory) => return Err(Halt::NoMemory),
    };
    let result = do_get(
        &mut core.parts,
        &mut core.effects,
        number,
        aim,
        get,
        until,
        plan,
    );
    core.stopped = stop_of(&result);
    result
}

/// MQGET. Source: MQI application reference, MQGET.
pub fn mqget<D: Disk>(
    core: &mut Core<D>,
    hc: Hconn,
    ho: Hobj,
    get: &Get,
    until: Option<u64>,
) -> Result<GetAnswer, Halt<Reason>>
    ensures meets { Meets (manager_of core.old) (mqget hc ho get.now until core.old.plain) result (manager_of core.new) }
    ensures told { WritesLog core.old (mqget hc ho get.now until core.old.plain) result core.new }
{
    match can_get(&core.parts, &hc, &ho, get) {
        Ok(aim) => get_now(core, hc.number, &aim, get, until),
        Err(reason) => {
            core.begin_call();
            Err(Halt::Refused(reason))
        }
    }
}
