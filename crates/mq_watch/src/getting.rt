//! A monitor's turn as an event of its node.
ghost use Rattle.std.specs.Prelude.{◌≡◌, ◌==◌, true, find, Some, option_copied};
ghost use Rattle.mq_events.specs.Outcomes.{Ends};
ghost use Rattle.mq_spec_node.specs.Words.{begins, monitor_get, monitor_in};
ghost use Rattle.mq_events.specs.Counts.{KeepsCounts};
ghost use Rattle.mq_events.specs.Events.{MayAct};
ghost use Rattle.mq_events.specs.States.{IsKept, IsServed};
ghost use Rattle.mq_watch.specs.Looks.{fits};
ghost use Rattle.mq_watch.specs.Turns.{Turns, get_of, is_refused, monitored, watched_by};

use crate::beginning::begins;
use crate::looking::{ROOM, fits};
use mq_base::NoMemory;
use mq_calls::{Answer, Choice, Get, Hconn, Hobj, Take};
use mq_disk::Disk;
use mq_events::{Node, NodeParts, Outcome, mqget};
use mq_history::{Actor, Call, Reply};
use mq_message::Want;
use mq_own::Monitor;

/// What a monitor's turn did.
#[derive(Clone, Copy)]
pub enum Monitored {
    /// Nothing: there is no message to get.
    Idle,
    /// It got a message that begins this script, a place in the scenario.
    Started(u16),
    /// It got another one.
    Got,
}

/// A monitor's connection, and its initiation queue.
#[derive(Clone, Copy)]
pub struct Watched {
    pub connection: Hconn,
    pub queue: Hobj,
}

fn find_monitor(monitors: &[Monitor], number: u16) -> Option<&Monitor>
    ensures { option_copied result ≡ find (λ m. m.number == number) monitors.now }
{
    monitors.iter().find(|monitor| monitor.number == number)
}

/// The monitor of a number.
#[tactic(auto, using(crate::proofs::MonitorLaws::monitor_found))]
pub(crate) fn monitor_in(monitors: &[Monitor], number: u16) -> Option<&Monitor>
    ensures { option_copied result ≡ monitor_in number monitors.now }
{
    find_monitor(monitors, number)
}

/// Where a monitor gets, if it is connected and has its queue open.
fn watched_by(monitor: Option<&Monitor>) -> Option<Watched>
    ensures { result ≡ watched_by (option_copied monitor.entry) }
{
    let Some(monitor) = monitor else {
        return None;
    };
    match (monitor.connection, monitor.handle) {
        (Some(connection), Some(queue)) => Some(Watched { connection, queue }),
        _ => None,
    }
}

/// A monitor's get: the next message, without sync and without wait.
fn monitor_get() -> Get
    ensures { result ≡ monitor_get }
{
    Get {
        sync: false,
        take: Take::Next,
        want: Want {
            msg_id: None,
            correl_id: None,
        },
        room: ROOM,
        truncate: false,
    }
}

fn get_of(watched: &Watched) -> Call
    ensures { result ≡ get_of watched.now }
{
    Call::Mqget {
        hc: watched.connection,
        ho: watched.queue,
        get: monitor_get(),
        until: None,
    }
}

/// A get that was refused: it has changed nothing.
fn is_refused(outcome: &Outcome) -> bool
    ensures { result ≡ is_refused outcome.now.choice outcome.now.reply }
{
    match &outcome.choice {
        Choice::Runs => match &outcome.reply {
            Reply::Got(Answer::Failed(_)) => true,
            _ => false,
        },
        Choice::NoMemory => false,
        Choice::Stopped { .. } => false,
    }
}

fn answer_of(script: Option<u16>) -> Monitored
    ensures { result ≡ monitored script }
{
    match script {
        None => Monitored::Got,
        Some(script) => Monitored::Started(script),
    }
}

/// The get at the manager.
fn get<D: Disk>(parts: &mut NodeParts<D>, watched: &Watched) -> Result<Option<Outcome>, NoMemory>
    ensures same { parts.new ≡ record parts.old { manager = parts.new.manager } }
    ensures ends { Ends (get_of watched.now) parts.old.manager result parts.new.manager }
{
    mqget(
        &mut parts.manager,
        watched.connection,
        watched.queue,
        &monitor_get(),
        None,
    )
}

fn monitors_of<D: Disk>(parts: &NodeParts<D>) -> &[Monitor]
    ensures { result.now ≡ parts.now.own.monitors }
{
    parts.own.monitors.as_slice()
}

/// Where a node's monitor gets, if it is connected and has its queue open.
fn watched_in<D: Disk>(parts: &NodeParts<D>, number: u16) -> Option<Watched>
    ensures { result ≡ watched_by (monitor_in number parts.now.own.monitors) }
{
    watched_by(monitor_in(monitors_of(parts), number))
}

/// Whether its get would find a message that fits.
fn fits_in<D: Disk>(parts: &NodeParts<D>, watched: &Watched) -> bool
    ensures { result ≡ fits watched.now.connection watched.now.queue parts.now.manager.plain }
{
    fits(&parts.manager.core, &watched.connection, &watched.queue)
}

/// The script of a node that a monitor's get begins.
fn begun_by<D: Disk>(parts: &NodeParts<D>, reply: &Reply) -> Option<u16>
    ensures { result ≡ begins parts.now.own.scripts parts.now.history.entries reply.now }
{
    begins(
        parts.own.scripts.as_slice(),
        parts.entries.as_slice(),
        reply,
    )
}

/// A turn of a monitor that would find a message that fits, where its get isn't refused.
///
/// # Errors
///
/// No memory; nothing has changed.
fn turn_at<D: Disk>(
    parts: &mut NodeParts<D>,
    number: u16,
    watched: &Watched,
) -> Result<Monitored, NoMemory>
    requires kept { IsKept parts.old }
    requires served { IsServed parts.old }
    requires may { MayAct parts.old }
    requires watched { watched_by (monitor_in number parts.old.own.monitors) ≡ Some watched.now }
    requires fits { fits watched.now.connection watched.now.queue parts.old.manager.plain ≡ true }
    ensures kept { IsKept parts.new }
    ensures counts { KeepsCounts parts.old parts.new }
    ensures did { Turns number parts.old result parts.new }
{
    parts.reserve(1)?;
    match get(parts, watched) {
        Err(NoMemory) => Err(NoMemory),
        Ok(None) => Ok(Monitored::Idle),
        Ok(Some(outcome)) => {
            if is_refused(&outcome) {
                return Ok(Monitored::Idle);
            }
            let script = begun_by(parts, &outcome.reply);
            parts.finish(Actor::Monitor(number), get_of(watched), outcome);
            Ok(answer_of(script))
        }
    }
}

#[tactic(auto, using(mq_events::proofs::KeepLaws::same_counts, crate::proofs::MonitorLaws::unwatched, crate::proofs::MonitorLaws::unfit))]
fn turn<D: Disk>(parts: &mut NodeParts<D>, number: u16) -> Result<Monitored, NoMemory>
    requires kept { IsKept parts.old }
    requires served { IsServed parts.old }
    requires may { MayAct parts.old }
    ensures kept { IsKept parts.new }
    ensures counts { KeepsCounts parts.old parts.new }
    ensures did { Turns number parts.old result parts.new }
{
    let Some(watched) = watched_in(parts, number) else {
        return Ok(Monitored::Idle);
    };
    if fits_in(parts, &watched) {
        return turn_at(parts, number, &watched);
    }
    Ok(Monitored::Idle)
}

/// A turn of a trigger monitor, as one event: an MQGET of the next message on its initiation queue, without sync, ids, wait or
/// truncation, with room for 4,194,304 bytes. `Idle` exactly where it isn't connected with its queue open, or that get, not stopped,
/// would answer a reason other than 0 and 2071; there is no event then, and nothing has changed. `Started` exactly where the get
/// answered OK and its body begins with a trigger message whose ApplId is the label of a script of this node of which no line was done.
///
/// # Errors
///
/// No memory; nothing has changed.
#[tactic(auto, using(crate::proofs::MonitorLaws::turned_node))]
pub fn monitor_turn<D: Disk>(node: &mut Node<D>, monitor: u16) -> Result<Monitored, NoMemory>
    requires served { IsServed node.old }
    requires may { MayAct node.old }
    ensures { Turns monitor node.old result node.new }
{
    turn(&mut node.parts, monitor)
}
