//! Restarts, as events.
ghost use Rattle.std.specs.Prelude.{◌≡◌, []};
ghost use Rattle.mq_history.specs.declared.acts.Act.TheVariants as acts;
ghost use Rattle.mq_history.specs.declared.calls.Call.TheVariants as calls;
ghost use Rattle.mq_events.specs.States.{IsServed};
ghost use Rattle.mq_events.specs.Events.{MayAct};
ghost use Rattle.mq_events.specs.Counts.{IsNode};
ghost use Rattle.mq_acts.specs.Restarts.{BeganFew, RestartsAs, StayedAs, TellsAs, acted_by, came_as, chance_of, is_wanting, own_behind, restart_entry};

use crate::beginning::begin;
use mq_base::{Items, NoMemory};
use mq_calls::{Delta, RestartFault, Return};
use mq_disk::Disk;
use mq_events::below::{Back, Manager, Unreturned};
use mq_events::{Node, NodeParts};
use mq_frame::Seen;
use mq_history::{Act, Acted, Actor, Call, Chance, Effect, Entry, Reply};
use std::alloc::Global;

/// What a restart came to, as the history keeps it.
#[derive(Drop)]
pub(crate) struct Restarted {
    pub chance: Chance,
    /// Why it was refused; none where the manager came up.
    pub refused: Option<RestartFault>,
    pub delta: Delta,
}

fn chance_of(back: Back) -> Chance
    ensures { result ≡ chance_of back }
{
    match back {
        Back::Own { kept, started } => Chance::Restart(Return::Comes { kept, started }),
        Back::Foreign {
            image,
            length,
            left,
        } => Chance::Foreign {
            image,
            length,
            left,
        },
    }
}

/// How a manager came up, as the history keeps it.
fn came(back: Back, delta: Delta) -> Restarted
    ensures { result ≡ came_as back delta }
{
    Restarted {
        chance: chance_of(back),
        refused: None,
        delta,
    }
}

/// Whether there was no memory.
fn is_wanting(fault: RestartFault) -> bool
    ensures { result ≡ is_wanting fault }
{
    match fault {
        RestartFault::NoMemory => true,
        RestartFault::Up => false,
        RestartFault::Disk => false,
        RestartFault::Cut => false,
        RestartFault::BadLog(_) => false,
    }
}

/// A restart that was refused, as the history keeps it. None for want of memory, which is no event.
fn stayed(e: Unreturned, delta: Delta) -> Result<Restarted, NoMemory>
    requires none { delta ≡ [] }
    ensures { StayedAs e result }
{
    if is_wanting(e.fault) {
        return Err(NoMemory);
    }
    Ok(Restarted {
        chance: Chance::Restart(Return::Fails {
            fault: e.fault,
            in_write: e.in_write,
            left: e.left,
        }),
        refused: Some(e.fault),
        delta,
    })
}

/// A restart of the manager, with what the history keeps of it.
///
/// # Errors
///
/// No memory; nothing has changed.
fn restart_manager<D: Disk>(manager: &mut Manager<D>, alloc: Global) -> Result<Restarted, NoMemory>
    ensures { RestartsAs D.tells manager.old result manager.new }
{
    match manager.restart() {
        Ok(back) => Ok(came(back, manager.take_delta())),
        Err(e) => stayed(e, Items::new(alloc)),
    }
}

/// How a restart is answered.
fn acted_by(refused: Option<RestartFault>) -> Acted
    ensures { result ≡ acted_by refused }
{
    match refused {
        None => Acted::Done,
        Some(fault) => Acted::Start(fault),
    }
}

/// The entry of a restart.
fn restart_entry(alloc: Global, stamp: u64, actor: Actor, r: Restarted) -> Entry
    ensures { result ≡ restart_entry stamp actor r }
{
    let Restarted {
        chance,
        refused,
        delta,
    } = r;
    Entry {
        stamp,
        actor,
        call: Call::Act(Act::Restart),
        chance,
        reply: Reply::Acted(acted_by(refused)),
        effect: Effect {
            delta,
            pushed: None,
            extras: 0,
            popped: Seen::Nothing,
            received: Items::new(alloc),
        },
    }
}

/// The manager of a node restarts.
fn restart_parts<D: Disk>(parts: &mut NodeParts<D>) -> Result<Restarted, NoMemory>
    ensures same { parts.new ≡ record parts.old { manager = parts.new.manager } }
    ensures ends { RestartsAs D.tells parts.old.manager result parts.new.manager }
{
    restart_manager(&mut parts.manager, parts.alloc)
}

/// Where the manager came up, the node's own begins.
fn begin_parts<D: Disk>(parts: &mut NodeParts<D>, refused: Option<RestartFault>)
    ensures same { parts.new ≡ record parts.old { own = own_behind refused parts.old.manager.plain parts.old.own; spare = record parts.old.spare { few = parts.new.spare.few } } }
    ensures few { BeganFew refused parts.old parts.new }
{
    match refused {
        None => {
            begin(&mut parts.own, &parts.manager);
            parts.recount();
        }
        Some(_) => {}
    }
}

/// A restart, as an event.
fn restart_in<D: Disk>(parts: &mut NodeParts<D>, actor: Actor) -> Result<Acted, NoMemory>
    requires node { IsNode parts.old }
    requires served { IsServed parts.old }
    requires may { MayAct parts.old }
    ensures node { IsNode parts.new }
    ensures did { TellsAs D.tells actor (calls.Act acts.Restart) parts.old result parts.new }
{
    if parts.reserve(1).is_err() {
        return Err(NoMemory);
    }
    let r = match restart_parts(parts) {
        Ok(r) => r,
        Err(NoMemory) => return Err(NoMemory),
    };
    let refused = r.refused;
    begin_parts(parts, refused);
    let entry = restart_entry(parts.alloc, parts.stamp + 1, actor, r);
    parts.add(entry);
    Ok(acted_by(refused))
}

/// A restart, as an event: of a manager that is up it is refused and is nothing else. The ends begin with what is hardened.
///
/// # Errors
///
/// No memory; nothing has changed.
pub fn restart<D: Disk>(node: &mut Node<D>, actor: Actor) -> Result<Acted, NoMemory>
    requires served { IsServed node.old }
    requires may { MayAct node.old }
    ensures { TellsAs D.tells actor (calls.Act acts.Restart) node.old result node.new }
{
    restart_in(&mut node.parts, actor)
}
