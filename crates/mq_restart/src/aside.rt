//! The room of the log that a manager takes as it comes up.
ghost use Rattle.std.specs.Prelude.{◌≡◌, ◌+◌, ◌≤◌, sum_by, IfOk, OnOk};
ghost use Rattle.mq_calls.specs.declared.state.SenderSide.{SenderSide};
ghost use Rattle.mq_calls.specs.declared.state.ReceiverSide.{ReceiverSide};
ghost use Rattle.mq_redo.specs.from_core.Ties.{doubt_bytes, session_bytes, ends_need};
ghost use Rattle.mq_restart.specs.Begun.{begun_ends};

use mq_base::NoMemory;
use mq_disk::Disk;
use mq_log::Log;
use mq_rebuild::Built;
use mq_rebuild::below::{KeptReceiver, KeptSender};
use mq_sync::InDoubt;

/// What the record that settles a unit in doubt takes of the log, in bytes.
fn doubt_bytes(doubt: &Option<InDoubt>) -> u64
    ensures { result ≡ doubt_bytes doubt.now }
{
    match doubt {
        None => 0,
        Some(_) => 44,
    }
}

/// What the record that closes a session takes of it, in bytes.
fn session_bytes(closed: bool) -> u64
    ensures { result ≡ session_bytes closed }
{
    if closed { 0 } else { 34 }
}

fn senders_need(sides: &[KeptSender]) -> Result<u64, NoMemory>
    ensures { IfOk result (λ n. n ≡ sum_by (λ (s : SenderSide). doubt_bytes s.hardened.in_doubt) sides.now) }
{
    let mut sum = 0u64;
    for kept in sides {
        sum = match sum.checked_add(doubt_bytes(&kept.side().hardened.in_doubt)) {
            Some(sum) => sum,
            None => return Err(NoMemory),
        };
    }
    Ok(sum)
}

fn receivers_need(sides: &[KeptReceiver]) -> Result<u64, NoMemory>
    ensures { IfOk result (λ n. n ≡ sum_by (λ (r : ReceiverSide). session_bytes r.hardened.closed) sides.now) }
{
    let mut sum = 0u64;
    for kept in sides {
        sum = match sum.checked_add(session_bytes(kept.side().hardened.closed)) {
            Some(sum) => sum,
            None => return Err(NoMemory),
        };
    }
    Ok(sum)
}

/// What the records take that end what channel ends have begun, in bytes.
fn ends_need(built: &Built) -> Result<u64, NoMemory>
    ensures { IfOk result (λ n. n ≡ ends_need (begun_ends built.now)) }
{
    let doubts = match senders_need(built.senders.as_slice()) {
        Ok(doubts) => doubts,
        Err(NoMemory) => return Err(NoMemory),
    };
    let sessions = match receivers_need(built.receivers.as_slice()) {
        Ok(sessions) => sessions,
        Err(NoMemory) => return Err(NoMemory),
    };
    match doubts.checked_add(sessions) {
        Some(all) => Ok(all),
        None => Err(NoMemory),
    }
}

/// Sets aside what the channel ends need of the log, and takes the room of a Started record.
///
/// # Errors
///
/// No memory.
#[tactic(auto, using(crate::proofs::AsideLaws::same_roomed, crate::proofs::AsideLaws::same_aside, crate::proofs::AsideLaws::is_aside))]
pub fn make_room<D: Disk>(log: &mut Log<D>, built: &Built) -> Result<(), NoMemory>
    ensures same { log.new ≡ record log.old { room = log.new.room; spare = log.new.spare } }
    ensures room { OnOk result (log.new.reserved + 63 ≤ log.new.room) }
    ensures aside { OnOk result (ends_need (begun_ends built.now) ≤ log.new.spare) }
{
    let need = match ends_need(built) {
        Ok(need) => need,
        Err(NoMemory) => return Err(NoMemory),
    };
    match log.set_aside(need) {
        Ok(()) => {}
        Err(NoMemory) => return Err(NoMemory),
    }
    match log.room(63) {
        Ok(()) => Ok(()),
        Err(NoMemory) => Err(NoMemory),
    }
}
