//! A sender takes the expired rows off its queue.
ghost use Rattle.std.specs.Prelude.{◌≡◌, ◌++◌, ◌∷◌, [], ◌*◌, ◌<◌, ◌≤◌, map, filter, length, IfOk, OnOk};
ghost use Rattle.mq_queue.specs.Rows.{is_free};
ghost use Rattle.mq_get.specs.from_scan.Scans.{met_of};
ghost use Rattle.mq_calls.specs.Words.{MeetsOrWants};
ghost use Rattle.mq_spec_manager.specs.Agents.{IsUp, HasSeized, expire, expired_rows};
ghost use Rattle.mq_core.specs.Views.{plain_of};
ghost use Rattle.mq_agents.specs.Ends.{by_agent};
ghost use Rattle.mq_agents.specs.Expiring.{agent_of_halt, is_past_row, stop_of_halt};
ghost use Rattle.mq_core.specs.Values.{manager_of, WritesLog};

use crate::hardening::agent_stop;
use crate::reading::queue_of_sender;
use mq_base::{ChName, Items, NoMemory, QName};
use mq_calls::{AgentStop, Halt};
use mq_codes::Reason;
use mq_core::{Core, Parts};
use mq_disk::{Disk, Stop};
use mq_get::below::Met;
use mq_get::drop_expired;
use mq_place::{LocalRows, is_past};
use mq_queue::{Queue, Row};
use std::alloc::Global;

/// The most rows whose record is shorter than 2^32 bytes.
const MOST_ROWS: usize = 66_076_419;

/// A row more where its deadline has come.
fn push_if_past(mets: &mut Items<Met>, moment: u64, row: &Row) -> Result<(), NoMemory>
    ensures { OnOk result (mets.new ≡ mets.old ++ map met_of (filter (is_past_row moment) (row.now ∷ []))) }
{
    if !is_past(moment, row.message.deadline) {
        return Ok(());
    }
    match mets.push(Met {
        ident: row.message.ident,
        persistent: row.message.md.persistence == 1,
    }) {
        Ok(()) => Ok(()),
        Err(_) => Err(NoMemory),
    }
}

/// The free rows of a queue whose deadlines have come, in order of place.
fn past_rows<Q: Queue + Drop>(
    alloc: Global,
    local: &LocalRows<Q>,
    moment: u64,
) -> Result<Items<Met>, NoMemory>
    ensures { IfOk result (λ mets. mets ≡ map met_of (filter (is_past_row moment) (filter is_free local.now.queue.rows))) }
{
    let _len = local.len();
    let mut mets = Items::new(alloc);
    let mut after = None;
    for seen in 0..local.len() {
        let Some(row) = local.next_free(after) else {
            return Ok(mets);
        };
        match push_if_past(&mut mets, moment, row) {
            Ok(()) => {}
            Err(NoMemory) => return Err(NoMemory),
        }
        after = Some(row.place);
    }
    Ok(mets)
}

/// The expired free rows of a queue.
#[tactic(auto, using(mq_core::proofs::PlaceLaws::queue_in_state, mq_core::proofs::ReadLaws::queue_none))]
fn expired_mets<D: Disk>(parts: &Parts<D>, queue: &QName) -> Result<Items<Met>, NoMemory>
    ensures { IfOk result (λ mets. mets ≡ map met_of (expired_rows queue.now (plain_of parts.now))) }
{
    match parts.queues.local(queue) {
        None => Ok(Items::new(parts.alloc)),
        Some(local) => past_rows(parts.alloc, local, parts.moment),
    }
}

/// How a call ended that is not refused.
fn agent_of_halt(halt: &Halt<Reason>) -> AgentStop
    ensures { result ≡ agent_of_halt halt.now }
{
    match halt {
        Halt::Refused(_) => AgentStop::NoMemory,
        Halt::NoMemory => AgentStop::NoMemory,
        Halt::Stopped(stop) => agent_stop(*stop),
    }
}

fn stop_of_halt(halt: &Halt<Reason>) -> Option<Stop>
    ensures { result ≡ stop_of_halt halt.now }
{
    match halt {
        Halt::Refused(_) => None,
        Halt::NoMemory => None,
        Halt::Stopped(stop) => Some(*stop),
    }
}

/// The expired free rows of the queue that a sender has seized leave it, behind one forced record where one of them lasts. It is not
/// refused for want of room in the log.
///
/// # Errors
///
/// The disk or the cut stopped the write, and the manager is down; no memory, and nothing has changed.
pub fn expire<D: Disk>(core: &mut Core<D>, channel: &ChName) -> Result<(), AgentStop>
    requires up { IsUp core.old.plain }
    requires seized { HasSeized channel.now core.old.plain }
    ensures meets { MeetsOrWants (manager_of core.old) (expire channel.now core.old.plain) (by_agent result) (manager_of core.new) }
    ensures told { WritesLog core.old (expire channel.now core.old.plain) (by_agent result) core.new }
{
    core.begin_call();
    let queue = queue_of_sender(&core.parts, channel);
    let mets = match expired_mets(&core.parts, &queue) {
        Ok(mets) => mets,
        Err(NoMemory) => return Err(AgentStop::NoMemory),
    };
    if mets.len() > MOST_ROWS {
        return Err(AgentStop::NoMemory);
    }
    match drop_expired(&mut core.parts, &mut core.effects, &queue, mets.as_slice()) {
        Ok(()) => Ok(()),
        Err(halt) => {
            let stopped = stop_of_halt(&halt);
            let agent = agent_of_halt(&halt);
            core.stopped = stopped;
            Err(agent)
        }
    }
}
