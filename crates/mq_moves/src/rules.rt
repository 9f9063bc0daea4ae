//! A row goes to the end of a rule's route: what refuses it, in order, and the message as it stands there.
ghost use Rattle.std.specs.Prelude.{◌≡◌, ◌<◌, ◌^◌, ℕ, List, true, Some, None, drop, length, IfOk};
ghost use Rattle.mq_calls.specs.Words.{MeetsOrWants, stored};
ghost use Rattle.mq_agents.specs.from_core.Counting.{CanCount};
ghost use Rattle.mq_spec_manager.specs.Words.{is_dead};
ghost use Rattle.mq_spec_manager.specs.Agents.{IsUp, CanMove, bare_if, row_with, move_full, move_row};
ghost use Rattle.mq_agents.specs.from_core.Views.{plain_of};
ghost use Rattle.mq_agents.specs.from_core.Ties.{Tied};
ghost use Rattle.mq_agents.specs.Ends.{by_place};
ghost use Rattle.mq_moves.specs.Landed.{Moves, at_end, message_moved};
ghost use Rattle.mq_agents.specs.from_core.Values.{manager_of, WritesLog};

use crate::landing::refused_at;
use crate::moving::move_message;
use mq_agents::below::{Core, Parts, dest_at, put_bytes, queue_at};
use mq_base::{Items, NoMemory, QName};
use mq_calls::{AgentStop, PlaceFault};
use mq_codes::Reason;
use mq_disk::Disk;
use mq_heads::dlh_of;
use mq_message::{Bytes, Dest, Ident, Md, Message};
use mq_resolve::{RouteEnd, resolve};
use std::alloc::Global;

/// A message that a rule's target takes.
#[derive(Drop)]
pub struct Moving {
    /// The local queue on which it will stand.
    pub queue: QName,
    /// The message as it will stand there.
    pub message: Message,
}

/// The descriptor of a message without the header of a dead letter, which gives back three fields; or as it is.
#[tactic(auto, using(crate::proofs::LandLaws::dead_head_is))]
fn bare_md(message: &Message, bare: bool) -> Md
    requires { bare ≡ true → is_dead message.now.body ≡ true }
    ensures { result ≡ (bare_if bare message.now).md }
{
    if !bare {
        return message.md;
    }
    match dlh_of(message.body.as_slice()) {
        Err(_) => message.md,
        Ok(head) => {
            let format = head.format;
            let mut md = message.md;
            md.format = format;
            md.encoding = head.encoding;
            md.coded_char_set_id = head.coded_char_set_id;
            md
        }
    }
}

/// Its body.
fn bare_body(alloc: Global, message: &Message, bare: bool) -> Result<Bytes, NoMemory>
    requires { bare ≡ true → is_dead message.now.body ≡ true }
    ensures { IfOk result (λ b. b ≡ (bare_if bare message.now).body) }
{
    let body = message.body.as_slice();
    let rest = if bare { header_off(body) } else { body };
    match Items::from_slice(alloc, rest) {
        Ok(body) => Ok(body),
        Err(_) => Err(NoMemory),
    }
}

/// What follows the header of a dead letter.
fn header_off(body: &[u8]) -> &[u8]
    requires { is_dead body.now ≡ true }
    ensures { result.now ≡ drop 172 body.now }
{
    let (_head, rest) = body.split_at(172);
    rest
}

/// A message at the end of a route, without its header where that goes.
fn message_at(
    alloc: Global,
    message: &Message,
    end: &RouteEnd,
    bare: bool,
) -> Result<Message, NoMemory>
    requires { bare ≡ true → is_dead message.now.body ≡ true }
    ensures { IfOk result (λ m. m ≡ at_end end.now (bare_if bare message.now)) }
{
    match bare_body(alloc, message, bare) {
        Ok(body) => Ok(Message {
            ident: message.ident,
            md: bare_md(message, bare),
            route: dest_at(end),
            deadline: message.deadline,
            body,
        }),
        Err(NoMemory) => Err(NoMemory),
    }
}

/// The message of a row as a rule's target takes it.
fn moved_message<D: Disk>(
    parts: &Parts<D>,
    from: &QName,
    ident: &Ident,
    end: &RouteEnd,
    bare: bool,
) -> Result<Message, NoMemory>
    requires can { CanMove from.now ident.now bare (plain_of parts.now) }
    ensures { IfOk result (λ m. message_moved bare end.now (row_with (Some ident.now) (stored from.now (plain_of parts.now)).rows) ≡ Some m) }
{
    match parts.queues.message(from, ident) {
        None => Err(NoMemory),
        Some(message) => message_at(parts.alloc, message, end, bare),
    }
}

/// A message lasts, and the log has no room for the record of its move.
#[tactic(auto, using(crate::proofs::LandLaws::full_moved))]
fn is_move_full<D: Disk>(parts: &Parts<D>, message: &Message) -> bool
    requires tied { Tied parts.now }
    requires up { IsUp (plain_of parts.now) }
    requires small { length message.now.body < 2 ^ 32 }
    ensures { (from to : List ℕ) → result ≡ move_full from (record { queue = to; message = message.now; dead = None }) (plain_of parts.now) }
{
    if message.md.persistence != 1 {
        return false;
    }
    parts.is_full(71 + put_bytes(message))
}

/// What refuses the move of a row, in order; else the message for its target.
fn can_move<D: Disk>(
    parts: &Parts<D>,
    from: &QName,
    ident: &Ident,
    to: &Dest,
    bare: bool,
) -> Result<Moving, PlaceFault>
    requires tied { Tied parts.now }
    requires up { IsUp (plain_of parts.now) }
    requires can { CanMove from.now ident.now bare (plain_of parts.now) }
    ensures { Moves from.now ident.now to.now bare (plain_of parts.now) result }
{
    let route = match resolve(&parts.defs, &parts.name, &to.queue, &to.qmgr) {
        Ok(route) => route,
        Err(reason) => return Err(PlaceFault::Refused(reason)),
    };
    let message = match moved_message(parts, from, ident, &route.end, bare) {
        Ok(message) => message,
        Err(NoMemory) => return Err(PlaceFault::Stop(AgentStop::NoMemory)),
    };
    match refused_at(parts, &route.end, route.path.as_slice(), message.body.len()) {
        None => {}
        Some(reason) => return Err(PlaceFault::Refused(reason)),
    }
    if is_move_full(parts, &message) {
        return Err(PlaceFault::Refused(Reason::ResourceProblem));
    }
    Ok(Moving {
        queue: queue_at(&route.end),
        message,
    })
}

/// The row of an ident goes to the end of a rule's route: FWD, or RETRY; without its header where `bare`. Where its message lasts, it
/// goes behind one forced record, in which it leaves the one queue and stands on the other.
///
/// # Errors
///
/// Refused: what name resolution refuses, 2045, 2051, 2030, 2031, 2053, and 2102 where the message lasts and the log has no room for its record.
/// The disk or the cut stopped the write, and the manager is down; no memory, and nothing has changed.
pub fn move_row<D: Disk>(
    core: &mut Core<D>,
    from: &QName,
    ident: &Ident,
    to: &Dest,
    bare: bool,
) -> Result<(), PlaceFault>
    requires up { IsUp core.old.plain }
    requires low { CanCount core.old.plain }
    requires can { CanMove from.now ident.now bare core.old.plain }
    ensures meets { MeetsOrWants (manager_of core.old) (move_row from.now ident.now to.now bare core.old.plain) (by_place result) (manager_of core.new) }
    ensures told { WritesLog core.old (move_row from.now ident.now to.now bare core.old.plain) (by_place result) core.new }
{
    match can_move(&core.parts, from, ident, to, bare) {
        Ok(Moving { queue, message }) => move_message(core, from, to, bare, &queue, message),
        Err(fault) => {
            core.begin_call();
            Err(fault)
        }
    }
}
