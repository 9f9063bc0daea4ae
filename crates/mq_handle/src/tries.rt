//! What a handler knows of dead letters that it has tried.
ghost use Rattle.std.specs.Prelude.{◌≡◌, ◌+◌, ◌++◌, ◌∷◌, [], ◌<◌, not, filter, find, option_copied, IfOk, OnOk, OnErr};
ghost use Rattle.std.specs.Vec.{vec_len, vec_capacity};
ghost use Rattle.mq_spec_node.specs.Words.{is_tried, tries_of, is_due, tried_as};
ghost use Rattle.mq_handle.specs.Treatments.{ignoring, later};

use crate::choosing::Dispatch;
use mq_base::{NoMemory, QName};
use mq_message::Ident;
use mq_own::{Handler, Tried};

fn is_tried(queue: &QName, ident: &Ident, tried: &Tried) -> bool
    ensures { result ≡ is_tried queue.now ident.now tried.now }
{
    *queue == tried.queue && *ident == tried.ident
}

/// What is known of a row, if it was tried.
fn tried_of<'a>(tried: &'a [Tried], queue: &QName, ident: &Ident) -> Option<&'a Tried>
    ensures { option_copied result ≡ find (is_tried queue.now ident.now) tried.now }
{
    tried.iter().find(|one| is_tried(queue, ident, one))
}

/// What a handler knows of a row. It walks over its tries.
pub fn tries_of<'a>(handler: &'a Handler, queue: &QName, ident: &Ident) -> Option<&'a Tried>
    ensures { option_copied result ≡ tries_of queue.now ident.now handler.now }
{
    tried_of(handler.tried.as_slice(), queue, ident)
}

/// Whether it isn't ignored, and its next try is due.
pub fn is_due(moment: u64, tried: Option<&Tried>) -> bool
    ensures { result ≡ is_due moment (option_copied tried.entry) }
{
    match tried {
        None => true,
        Some(tried) => !tried.ignored && tried.due <= moment,
    }
}

/// A row's tries take the place of what was known of it, in room that is there.
pub fn remember(tried: &mut Vec<Tried>, new: Tried)
    requires room { vec_len tried.old < vec_capacity tried.old }
    ensures { tried.new.items ≡ filter (λ t. not (is_tried new.queue new.ident t)) tried.old.items ++ new ∷ [] }
{
    let queue = new.queue;
    let ident = new.ident;
    tried.retain(|one| !is_tried(&queue, &ident, one));
    tried.push_reserved(new);
}

/// A row is left alone from now on.
///
/// # Errors
///
/// No memory; nothing has changed.
pub fn ignore(handler: &mut Handler, queue: &QName, ident: &Ident) -> Result<(), NoMemory>
    ensures ok { OnOk result (handler.new ≡ tried_as (ignoring queue.now ident.now) handler.old) }
    ensures err { OnErr result (handler.new ≡ handler.old) }
{
    if handler.tried.reserve(1).is_err() {
        return Err(NoMemory);
    }
    remember(
        &mut handler.tried,
        Tried {
            queue: *queue,
            ident: *ident,
            ignored: true,
            from: 0,
            failed: 0,
            due: 0,
        },
    );
    Ok(())
}

/// What is known of a row after a try more that failed, at this moment.
///
/// # Errors
///
/// No memory stands for a number of a rule or a moment that does not fit.
pub fn failed_once(
    queue: &QName,
    ident: &Ident,
    rule: &Dispatch,
    failed: u32,
    interval: u32,
    moment: u64,
) -> Result<Tried, NoMemory>
    ensures { IfOk result (λ t. t ≡ later queue.now ident.now rule.now (failed + 1) interval moment) }
{
    let tries = u64::from(failed) + 1;
    if u64::from(rule.retries) <= tries {
        let Some(next) = rule.rule.checked_add(1) else {
            return Err(NoMemory);
        };
        return Ok(Tried {
            queue: *queue,
            ident: *ident,
            ignored: false,
            from: next,
            failed: 0,
            due: 0,
        });
    }
    let Some(due) = moment.checked_add(1000 * u64::from(interval)) else {
        return Err(NoMemory);
    };
    let Ok(tries) = u32::try_from(tries) else {
        return Err(NoMemory);
    };
    Ok(Tried {
        queue: *queue,
        ident: *ident,
        ignored: false,
        from: rule.rule,
        failed: tries,
        due,
    })
}
