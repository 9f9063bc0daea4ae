//! MQCONN, MQOPEN, MQCLOSE.
ghost use Rattle.std.specs.Prelude.{◌≡◌, ◌+◌, ◌^◌, ◌<◌, IsSome, IfSome, true};
ghost use Rattle.mq_calls.specs.Words.{Meets, MeetsInRoom, is_up, connection_at, handle_at};
ghost use Rattle.mq_spec_manager.specs.Words.{mqconn, mqopen, mqclose};
ghost use Rattle.mq_core.specs.Calls.{open_at, close_at, HasHandle};
ghost use Rattle.mq_core.specs.Values.{manager_of, WritesLog};

use mq_base::QName;
use mq_calls::{Answer, Appl, Halt, Hconn, Hobj, Open};
use mq_codes::Reason;
use mq_core::Core;
use mq_disk::Disk;
use mq_resolve::Route;

/// MQCONN: a new connection, without handles (MQI reference, MQCONN).
///
/// # Errors
///
/// Refused: 2058, 2059. No memory; nothing has changed.
pub fn mqconn<D: Disk>(
    core: &mut Core<D>,
    qmgr: &QName,
    appl: &Appl,
) -> Result<Answer<Hconn>, Halt<Reason>>
    requires count { core.old.plain.numbers.connections + 1 < 2 ^ 64 }
    ensures meets { Meets (manager_of core.old) (mqconn qmgr.now appl.now core.old.plain) result (manager_of core.new) }
    ensures told { WritesLog core.old (mqconn qmgr.now appl.now core.old.plain) result core.new }
{
    core.begin_call();
    if core.parts.is_other_name(qmgr) {
        return Err(Halt::Refused(Reason::QueueManagerNameError));
    }
    if !core.parts.is_up() {
        return Err(Halt::Refused(Reason::QueueManagerNotAvailable));
    }
    match core.parts.connect(appl) {
        Ok(hconn) => Ok(Answer::Ok(hconn)),
        Err(_) => Err(Halt::NoMemory),
    }
}

fn open<D: Disk>(
    core: &mut Core<D>,
    number: u64,
    how: &Open,
    route: Route,
) -> Result<Answer<Hobj>, Halt<Reason>>
    requires up { is_up core.old.plain.running ≡ true }
    requires live { IsSome (connection_at number core.old.plain.connections) }
    requires count { IfSome (connection_at number core.old.plain.connections) (λ c. c.last_handle + 1 < 2 ^ 64) }
    ensures meets { Meets (manager_of core.old) (open_at number how.now route core.old.plain) result (manager_of core.new) }
    ensures told { WritesLog core.old (open_at number how.now route core.old.plain) result core.new }
{
    core.begin_call();
    let ho = match core.parts.open(number, how, route) {
        Ok(ho) => ho,
        Err(_) => return Err(Halt::NoMemory),
    };
    Ok(Answer::Ok(ho))
}

/// MQOPEN: a name is resolved once, and a handle leads where it leads (MQI reference, MQOPEN).
///
/// # Errors
///
/// Refused: 2018, 2009, 2046, those of name resolution, 2045, 2042, 2017. No memory; nothing has changed.
pub fn mqopen<D: Disk>(
    core: &mut Core<D>,
    hc: Hconn,
    name: &QName,
    qmgr: &QName,
    how: &Open,
) -> Result<Answer<Hobj>, Halt<Reason>>
    requires count { IfSome (connection_at hc.number core.old.plain.connections) (λ c. c.last_handle + 1 < 2 ^ 64) }
    ensures meets { Meets (manager_of core.old) (mqopen hc name.now qmgr.now how.now core.old.plain) result (manager_of core.new) }
    ensures told { WritesLog core.old (mqopen hc name.now qmgr.now how.now core.old.plain) result core.new }
{
    match core.parts.can_open(&hc, name, qmgr, how) {
        Ok(route) => open(core, hc.number, how, route),
        Err(reason) => {
            core.begin_call();
            Err(Halt::Refused(reason))
        }
    }
}

fn close<D: Disk>(core: &mut Core<D>, number: u64, ho: &Hobj) -> Result<Answer<()>, Halt<Reason>>
    requires up { is_up core.old.plain.running ≡ true }
    requires live { IfSome (connection_at number core.old.plain.connections) (HasHandle ho.now) }
    requires there { IsSome (connection_at number core.old.plain.connections) }
    ensures meets { MeetsInRoom (manager_of core.old) (close_at number ho.now core.old.plain) result (manager_of core.new) }
    ensures told { WritesLog core.old (close_at number ho.now core.old.plain) result core.new }
{
    core.begin_call();
    core.parts.close(number, ho);
    Ok(Answer::Ok(()))
}

/// MQCLOSE: a handle goes, stale or not (MQI reference, MQCLOSE). It takes no memory.
///
/// # Errors
///
/// Refused: 2018, 2009, 2019.
pub fn mqclose<D: Disk>(core: &mut Core<D>, hc: Hconn, ho: Hobj) -> Result<Answer<()>, Halt<Reason>>
    ensures meets { MeetsInRoom (manager_of core.old) (mqclose hc ho core.old.plain) result (manager_of core.new) }
    ensures told { WritesLog core.old (mqclose hc ho core.old.plain) result core.new }
{
    match core.parts.can_close(&hc, &ho) {
        Ok(()) => close(core, hc.number, &ho),
        Err(reason) => {
            core.begin_call();
            Err(Halt::Refused(reason))
        }
    }
}
