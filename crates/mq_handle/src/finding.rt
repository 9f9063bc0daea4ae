//! The dead letter that a handler takes next.
ghost use Rattle.std.specs.Prelude.{◌≡◌, ◌&&◌, option_copied, option_map};
ghost use Rattle.mq_calls.specs.State.{Plain};
ghost use Rattle.mq_spec_node.specs.Words.{input_queue, is_readable, is_due, tries_of, next_letter, failed_of};
ghost use Rattle.mq_spec_node.specs.Terms.{local_of};
ghost use Rattle.mq_spec_manager.specs.Agents.{IsUp};
ghost use Rattle.mq_events.specs.from_manager.Facts.{IsWell};
ghost use Rattle.mq_handle.specs.Letters.{is_dead_letter, takes, letter_by};

use crate::choosing::{Ruling, rule_on};
use crate::tries::{is_due, tries_of};
use mq_base::QName;
use mq_core::Core;
use mq_disk::Disk;
use mq_heads::dlh_of;
use mq_message::{Ident, Message};
use mq_moves::below::{moment, next_row};
use mq_objects::{Defs, LocalQueue, Usage};
use mq_own::{Handler, Tried};
use mq_rules::Table;

/// A dead letter that a handler takes, and what is to be done with it.
#[derive(Clone, Copy)]
pub struct DueLetter {
    /// The queue on which it stands.
    pub queue: QName,
    pub ident: Ident,
    /// The failed tries of the rule in force.
    pub failed: u32,
    pub ruling: Ruling,
}

/// The queue that a handler reads: INPUTQ, or DEADQ where that is blank.
fn input_queue(table: &Table, defs: &Defs) -> QName
    ensures { (p : Plain) → p.definitions ≡ defs.now.definitions → result ≡ input_queue table.now p }
{
    if table.input_q.is_blank() {
        defs.manager().dead_letter_queue
    } else {
        table.input_q
    }
}

/// Whether it is a local queue of USAGE(NORMAL) with GET(ENABLED).
fn is_readable(queue: Option<&LocalQueue>) -> bool
    ensures { result ≡ is_readable (option_copied queue.entry) }
{
    match queue {
        None => false,
        Some(queue) => {
            queue.get_enabled
                && match queue.usage {
                    Usage::Normal => true,
                    Usage::Transmission => false,
                }
        }
    }
}

/// Whether a message stands behind a dead letter's header, and its descriptor says so.
fn is_dead_letter(message: &Message) -> bool
    ensures { result ≡ is_dead_letter message.now }
{
    message.md.format == *b"MQDEAD  " && dlh_of(message.body.as_slice()).is_ok()
}

/// Whether the message of a free row is a dead letter whose next try is due.
fn takes(queue: &QName, handler: &Handler, moment: u64, message: &Message) -> bool
    ensures { result ≡ takes queue.now handler.now moment message.now }
{
    is_dead_letter(message) && is_due(moment, tries_of(handler, queue, &message.ident))
}

/// The first dead letter on a queue whose next try is due. It walks over the free rows before it, and for each dead letter of them
/// over the tries.
fn next_letter<'a, D: Disk>(
    core: &'a Core<D>,
    queue: &QName,
    handler: &Handler,
) -> Option<&'a Message>
    requires up { IsUp core.now.plain }
    requires well { IsWell core.now.plain }
    ensures { option_copied result ≡ option_map (λ row. row.message) (next_letter queue.now handler.now core.now.plain) }
{
    let now = moment(core);
    let mut after = None;
    'walking: while let Some((place, message)) = next_row(core, queue, after) {
        if takes(queue, handler, now, message) {
            return Some(message);
        }
        after = Some(place);
    }
    None
}

fn failed_of(tried: Option<&Tried>) -> u32
    ensures { result ≡ failed_of (option_copied tried.entry) }
{
    match tried {
        None => 0,
        Some(tried) => tried.failed,
    }
}

/// The dead letter that a handler takes next, with what is to be done with it; none where the turn is idle. It takes no memory.
pub fn find_letter<D: Disk>(core: &Core<D>, handler: &Handler) -> Option<DueLetter>
    requires well { IsWell core.now.plain }
    ensures { result ≡ letter_by handler.now core.now.plain }
{
    if !core.is_up() {
        return None;
    }
    let queue = input_queue(&handler.table, &core.parts.defs);
    if !is_readable(core.parts.defs.local(&queue)) {
        return None;
    }
    match next_letter(core, &queue, handler) {
        None => None,
        Some(message) => {
            let tried = tries_of(handler, &queue, &message.ident);
            Some(DueLetter {
                queue,
                ident: message.ident,
                failed: failed_of(tried),
                ruling: rule_on(&handler.table, message, tried),
            })
        }
    }
}
