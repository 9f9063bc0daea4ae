//! MQCMIT, MQBACK, MQDISC.
ghost use Rattle.std.specs.Prelude.{◌≡◌, true, IsSome};
ghost use Rattle.mq_calls.specs.Words.{MeetsInRoom, is_up, connection_at};
ghost use Rattle.mq_core.specs.Counting.{CanCount};
ghost use Rattle.mq_spec_manager.specs.Words.{mqcmit, mqback, mqdisc};
ghost use Rattle.mq_ends.specs.Ends.{commit_at, back_at};
ghost use Rattle.mq_core.specs.Values.{manager_of, WritesLog};

use crate::units::{back_out_unit, force_unit, go_down_commit, settle_unit};
use mq_calls::{Answer, Halt, Hconn};
use mq_codes::Reason;
use mq_core::Core;
use mq_disk::Disk;

/// The unit of a live connection is committed behind its write, and the connection ends or not.
fn commit<D: Disk>(core: &mut Core<D>, number: u64, ends: bool) -> Result<Answer<()>, Halt<Reason>>
    requires up { is_up core.old.plain.running ≡ true }
    requires live { IsSome (connection_at number core.old.plain.connections) }
    requires low { CanCount core.old.plain }
    ensures meets { MeetsInRoom (manager_of core.old) (commit_at number ends core.old.plain) result (manager_of core.new) }
    ensures told { WritesLog core.old (commit_at number ends core.old.plain) result core.new }
{
    core.begin_call();
    match force_unit(&mut core.parts, number) {
        Ok(()) => {}
        Err(stop) => {
            go_down_commit(&mut core.parts, number, ends);
            core.stopped = Some(stop);
            return Err(Halt::Stopped(stop));
        }
    }
    core.effects = settle_unit(&mut core.parts, number, ends);
    Ok(Answer::Ok(()))
}

/// MQCMIT: the unit's rows go, its puts are placed in the order of their calls, behind one forced write of its persistent
/// items (MQI reference, MQCMIT). It takes no memory.
///
/// # Errors
///
/// Refused: 2018, 2009. Stopped: its write was stopped, by the armed cut or by the disk.
pub fn mqcmit<D: Disk>(core: &mut Core<D>, hc: Hconn) -> Result<Answer<()>, Halt<Reason>>
    requires low { CanCount core.old.plain }
    ensures meets { MeetsInRoom (manager_of core.old) (mqcmit hc core.old.plain) result (manager_of core.new) }
    ensures told { WritesLog core.old (mqcmit hc core.old.plain) result core.new }
{
    match core.parts.reached(&hc) {
        Ok(()) => commit(core, hc.number, false),
        Err(reason) => {
            core.begin_call();
            Err(Halt::Refused(reason))
        }
    }
}

/// MQDISC: the unit is committed, and the connection ends with its handles (MQI reference, MQDISC). It takes no memory.
///
/// # Errors
///
/// Refused: 2018, 2009. Stopped: the unit's write was stopped, by the armed cut or by the disk.
pub fn mqdisc<D: Disk>(core: &mut Core<D>, hc: Hconn) -> Result<Answer<()>, Halt<Reason>>
    requires low { CanCount core.old.plain }
    ensures meets { MeetsInRoom (manager_of core.old) (mqdisc hc core.old.plain) result (manager_of core.new) }
    ensures told { WritesLog core.old (mqdisc hc core.old.plain) result core.new }
{
    match core.parts.reached(&hc) {
        Ok(()) => commit(core, hc.number, true),
        Err(reason) => {
            core.begin_call();
            Err(Halt::Refused(reason))
        }
    }
}

/// The unit of a live connection is backed out.
fn back<D: Disk>(core: &mut Core<D>, number: u64) -> Result<Answer<()>, Halt<Reason>>
    requires up { is_up core.old.plain.running ≡ true }
    requires live { IsSome (connection_at number core.old.plain.connections) }
    ensures meets { MeetsInRoom (manager_of core.old) (back_at number core.old.plain) result (manager_of core.new) }
    ensures told { WritesLog core.old (back_at number core.old.plain) result core.new }
{
    core.begin_call();
    core.effects = back_out_unit(&mut core.parts, number);
    Ok(Answer::Ok(()))
}

/// MQBACK: the rows that the unit held are free again at their places, each with one backout more, and its puts are gone
/// (MQI reference, MQBACK). It takes no memory, and nothing is written.
///
/// # Errors
///
/// Refused: 2018, 2009.
pub fn mqback<D: Disk>(core: &mut Core<D>, hc: Hconn) -> Result<Answer<()>, Halt<Reason>>
    ensures meets { MeetsInRoom (manager_of core.old) (mqback hc core.old.plain) result (manager_of core.new) }
    ensures told { WritesLog core.old (mqback hc core.old.plain) result core.new }
{
    match core.parts.reached(&hc) {
        Ok(()) => back(core, hc.number),
        Err(reason) => {
            core.begin_call();
            Err(Halt::Refused(reason))
        }
    }
}
