//! The condition of a trigger, tried once for a message that a commit has placed.
ghost use Rattle.std.specs.Prelude.{◌≡◌};
ghost use Rattle.mq_handles.specs.from_queue.Rows.{has_priority};
ghost use Rattle.mq_handles.specs.from_objects.Names.{local_of};
ghost use Rattle.mq_handles.specs.from_calls.Words.{Plain, is_triggered, is_long_ago, is_depth};
ghost use Rattle.mq_trigger.specs.Seen.{IsSeen, is_sent_from, is_open, due_by_type, served_in, is_due};

use mq_base::QName;
use mq_handles::Live;
use mq_handles::below::{Defs, LocalQueue, Seizure, TriggerType, Usage};

/// What is tried of a local queue: the message's priority, and how the queue stands behind it.
#[derive(Clone, Copy)]
pub struct Tried {
    /// The Priority of the message, as its descriptor has it.
    pub priority: i32,
    /// Free rows of priority at least TRIGMPRI, the message's own among them.
    pub waiting: u64,
    /// When a trigger of the queue became due, if one did since the manager's start; in milliseconds since 1970.
    pub last_due: Option<u64>,
    /// It counts as NOTRIGGER, since a trigger of TRIGTYPE(DEPTH) became due.
    pub switched_off: bool,
    /// The manager's moment, in milliseconds since 1970.
    pub moment: u64,
}

/// TRIGTYPE(DEPTH), after which a queue counts as NOTRIGGER.
pub fn is_depth(kind: TriggerType) -> bool
    ensures { result ≡ is_depth kind }
{
    kind == TriggerType::Depth
}

fn has_priority(least: u8, priority: i32) -> bool
    ensures { result ≡ has_priority least priority }
{
    least == 0 || least as i32 <= priority
}

/// The interval has passed since a moment, where there is one.
fn is_long_ago(interval: u64, moment: u64, last: Option<u64>) -> bool
    ensures { result ≡ is_long_ago interval moment last }
{
    match last {
        None => false,
        Some(last) => match last.checked_add(interval) {
            None => false,
            Some(then) => then <= moment,
        },
    }
}

fn is_sent_from(seizures: &[Seizure], queue: &QName) -> bool
    ensures { result ≡ is_sent_from queue.now seizures.now }
{
    seizures
        .iter()
        .any(|seizure| queue.text() == seizure.queue.text())
}

/// A handle or a running sender has the queue open for input.
fn is_open(live: &Live, seizures: &[Seizure], queue: &QName) -> bool
    ensures { result ≡ is_open queue.now live.now.live seizures.now }
{
    live.is_read(queue) || is_sent_from(seizures, queue)
}

fn is_due_by_type(
    defs: &Defs,
    live: &Live,
    seizures: &[Seizure],
    local: &LocalQueue,
    tried: &Tried,
) -> bool
    ensures { result ≡ due_by_type local.now.trigger_type defs.now.definitions live.now.live seizures.now local.now tried.now }
{
    match local.trigger_type {
        TriggerType::First => {
            let interval = defs.manager().trigger_interval as u64;
            (tried.waiting == 1 || is_long_ago(interval, tried.moment, tried.last_due))
                && !is_open(live, seizures, &local.name)
        }
        TriggerType::Every => true,
        TriggerType::Depth => {
            local.trigger_depth as u64 <= tried.waiting && !is_open(live, seizures, &local.name)
        }
        TriggerType::Never => false,
    }
}

/// INITQ is an ordinary local queue that may be read, and a handle reads it.
fn is_served(defs: &Defs, live: &Live, name: &QName) -> bool
    ensures { result ≡ served_in (local_of name.now defs.now.definitions) live.now.live }
{
    match defs.local(name) {
        None => false,
        Some(local) => {
            local.usage == Usage::Normal && local.get_enabled && live.is_read(&local.name)
        }
    }
}

fn is_due(defs: &Defs, live: &Live, seizures: &[Seizure], local: &LocalQueue, tried: &Tried) -> bool
    ensures { result ≡ is_due defs.now.definitions live.now.live seizures.now local.now tried.now }
{
    local.trigger
        && !tried.switched_off
        && has_priority(local.trigger_priority, tried.priority)
        && is_due_by_type(defs, live, seizures, local, tried)
        && is_served(defs, live, &local.initiation_queue)
        && defs.process(&local.process).is_some()
}

/// Whether a trigger of a local queue becomes due for a message that was placed on it: it has TRIGGER and does not count
/// as NOTRIGGER, the message has at least TRIGMPRI, TRIGTYPE says so, INITQ is served, and PROCESS is defined.
pub fn is_triggered(
    defs: &Defs,
    live: &Live,
    seizures: &[Seizure],
    local: &LocalQueue,
    tried: &Tried,
) -> bool
    ensures { (p : Plain) → IsSeen defs.now.definitions live.now.live seizures.now local.now tried.now p → result ≡ is_triggered local.now tried.now.priority p }
{
    is_due(defs, live, seizures, local, tried)
}
