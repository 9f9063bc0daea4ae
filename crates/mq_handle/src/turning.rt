//! A handler's turn as an event of its node.
ghost use Rattle.std.specs.Prelude.{◌≡◌, ◌==◌, ◌<◌, ◌&&◌, Bool, true, IfSome, length, position, count_by, option_copied, slice_get};
ghost use Rattle.mq_spec_manager.specs.Agents.{CanMove, IsUp};
ghost use Rattle.mq_spec_node.specs.Words.{is_none};
ghost use Rattle.mq_events.specs.Counts.{IsNode, KeepsCounts};
ghost use Rattle.mq_events.specs.Events.{MayAct};
ghost use Rattle.mq_events.specs.States.{IsKept, IsLow, IsServed, node_in};
ghost use Rattle.mq_handle.specs.Letters.{letter_by};
ghost use Rattle.mq_handle.specs.Treatments.{TreatsAt};
ghost use Rattle.mq_handle.specs.Turns.{Finds, FindsOne, Turns, is_number, turn_of};

use crate::finding::{DueLetter, find_letter};
use crate::treating::treat_at;
use mq_base::NoMemory;
use mq_disk::Disk;
use mq_events::below::Manager;
use mq_events::{Node, NodeParts, Outcome};
use mq_history::{Actor, Call};
use mq_own::Handler;

/// A handler's turn: which of the node's handlers takes it, and its dead letter.
#[derive(Clone, Copy)]
pub struct DueTurn {
    /// The handler's place among those of its node, from 0.
    pub at: usize,
    pub letter: DueLetter,
}

/// The place of the first handler of a number.
fn place_of(handlers: &[Handler], number: u16) -> Option<usize>
    ensures { result ≡ position (is_number number) handlers.now }
{
    handlers.iter().position(|handler| handler.number == number)
}

fn handler_at(handlers: &[Handler], at: usize) -> Option<&Handler>
    ensures { option_copied result ≡ slice_get handlers.now at }
{
    handlers.get(at)
}

/// Whether a number is that of one handler alone.
fn is_alone(handlers: &[Handler], number: u16) -> bool
    ensures { result ≡ (count_by (is_number number) handlers.now == 1) }
{
    handlers
        .iter()
        .filter(|handler| handler.number == number)
        .count()
        == 1
}

/// The dead letter that a manager's handler takes next.
fn letter_at<D: Disk>(manager: &Manager<D>, handler: &Handler) -> Option<DueLetter>
    ensures letter { result ≡ letter_by handler.now manager.now.plain }
    ensures can { IfSome result (λ l. IsUp manager.now.plain × ((bare : Bool) → CanMove l.queue l.ident bare manager.now.plain)) }
{
    find_letter(&manager.core, handler)
}

fn handlers_of<D: Disk>(parts: &NodeParts<D>) -> &[Handler]
    ensures { result.now ≡ parts.now.own.handlers }
{
    parts.own.handlers.as_slice()
}

fn manager_of<D: Disk>(parts: &NodeParts<D>) -> &Manager<D>
    ensures { result.now ≡ parts.now.manager }
{
    &parts.manager
}

/// Whether a turn of the handler of a number can be told: its manager may count, and no other handler has the number.
fn may_treat<D: Disk>(parts: &NodeParts<D>, number: u16) -> bool
    ensures { result ≡ (parts.now.spare.few && (count_by (is_number number) parts.now.own.handlers == 1)) }
{
    parts.few && is_alone(handlers_of(parts), number)
}

/// The turn that a handler takes next; none where it is idle. It takes no memory.
#[tactic(auto, using(crate::proofs::TurnLaws::never_past))]
fn next_turn<D: Disk>(parts: &NodeParts<D>, number: u16) -> Option<DueTurn>
    ensures { Finds number (node_in parts.now) result }
{
    let handlers = handlers_of(parts);
    let Some(at) = place_of(handlers, number) else {
        return None;
    };
    let Some(handler) = handler_at(handlers, at) else {
        return None;
    };
    match letter_at(manager_of(parts), handler) {
        None => None,
        Some(letter) => Some(DueTurn { at, letter }),
    }
}

/// What is to be done with a dead letter is done, and its handler remembers it.
///
/// # Errors
///
/// No memory; nothing has changed.
fn treat<D: Disk>(parts: &mut NodeParts<D>, due: &DueTurn) -> Result<Outcome, NoMemory>
    requires place { due.now.at < length parts.old.own.handlers }
    requires up { IsUp parts.old.manager.plain }
    requires low { IsLow parts.old }
    requires can { (bare : Bool) → CanMove due.now.letter.queue due.now.letter.ident bare parts.old.manager.plain }
    ensures same { parts.new ≡ record parts.old { manager = parts.new.manager; own = record parts.old.own { handlers = parts.new.own.handlers } } }
    ensures treats { TreatsAt due.now.letter due.now.at parts.old.own.handlers parts.old.manager result parts.new.own.handlers parts.new.manager }
{
    let alloc = parts.alloc;
    treat_at(
        alloc,
        &mut parts.manager,
        &mut parts.own.handlers,
        due.at,
        &due.letter,
    )
}

/// The turn that was found, as an event of its node.
///
/// # Errors
///
/// No memory; nothing has changed.
fn take_turn<D: Disk>(
    parts: &mut NodeParts<D>,
    number: u16,
    due: &DueTurn,
) -> Result<bool, NoMemory>
    requires node { IsNode parts.old }
    requires served { IsServed parts.old }
    requires may { MayAct parts.old }
    requires few { parts.old.spare.few ≡ true }
    requires found { FindsOne due.now number (node_in parts.old) }
    requires alone { count_by (is_number number) parts.old.own.handlers ≡ 1 }
    ensures kept { IsKept parts.new }
    ensures counts { KeepsCounts parts.old parts.new }
    ensures did { Turns number parts.old result parts.new }
{
    parts.reserve(1)?;
    match treat(parts, due) {
        Err(NoMemory) => Err(NoMemory),
        Ok(outcome) => {
            parts.finish(Actor::Handler(number), Call::Turn, outcome);
            Ok(true)
        }
    }
}

/// A turn of a handler, as an event of its node: false where the turn is idle.
///
/// # Errors
///
/// No memory; nothing has changed.
#[tactic(auto, using(crate::proofs::TurnLaws::may_few, crate::proofs::TurnLaws::may_one, crate::proofs::TurnLaws::idles, crate::proofs::TurnLaws::same_still, crate::proofs::TurnLaws::same_counts))]
fn turn<D: Disk>(parts: &mut NodeParts<D>, number: u16) -> Result<bool, NoMemory>
    requires node { IsNode parts.old }
    requires served { IsServed parts.old }
    requires may { MayAct parts.old }
    ensures kept { IsKept parts.new }
    ensures counts { KeepsCounts parts.old parts.new }
    ensures did { Turns number parts.old result parts.new }
{
    let Some(due) = next_turn(parts, number) else {
        return Ok(false);
    };
    if may_treat(parts, number) {
        return take_turn(parts, number, &due);
    }
    Err(NoMemory)
}

/// A turn of the dead-letter handler of a rules table, as one event: it takes the first free dead letter on its queue, in order of
/// place, that it doesn't ignore and whose next try is due, and does with it what the rule in force says (IBM MQ, "Processing messages
/// on a dead-letter queue"). False exactly where there is none, or the manager is down, or the queue isn't a get-enabled local queue
/// of USAGE(NORMAL); nothing has changed then. A turn whose write is stopped is one, and the manager is down.
///
/// # Errors
///
/// No memory; nothing has changed.
#[tactic(auto, using(crate::proofs::ClimbLaws::turned_node))]
pub fn handler_turn<D: Disk>(node: &mut Node<D>, rules: u16) -> Result<bool, NoMemory>
    requires served { IsServed node.old }
    requires may { MayAct node.old }
    ensures { Turns rules node.old result node.new }
{
    turn(&mut node.parts, rules)
}

/// Whether the handler's next turn would be idle. It takes no memory.
#[tactic(auto, using(crate::proofs::TurnLaws::idle_none, crate::proofs::TurnLaws::idle_some))]
pub fn handler_idle<D: Disk>(node: &Node<D>, rules: u16) -> bool
    ensures { result ≡ is_none (turn_of rules (node_in node.now)) }
{
    match next_turn(&node.parts, rules) {
        None => true,
        Some(_) => false,
    }
}
