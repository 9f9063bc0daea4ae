//! What managers did, and which of it in a step, as their marks tell.
ghost use Rattle.std.specs.Prelude.{◌≡◌, ◌-◌, min, take, drop, option_copied, slice_get};
ghost use Rattle.mq_net_report.specs.Steps.{entries_of, marks_of, end_of, begin_of, before_step, in_step, is_idle};

use mq_history::{Entry, History};

/// The history of the manager at a place.
pub fn history_at(histories: &[History], manager: usize) -> Option<&History>
    ensures { option_copied result ≡ slice_get histories.now manager }
{
    match histories.get(manager) {
        None => None,
        Some(history) => Some(history),
    }
}

/// What a manager did.
pub fn entries_of<'a>(history: Option<&'a History>) -> &'a [Entry]
    ensures { result.now ≡ entries_of (option_copied history.entry) }
{
    match history {
        None => &[],
        Some(history) => history.entries.as_slice(),
    }
}

/// The number of entries at a step's end.
#[tactic(auto, using(crate::proofs::PartLaws::get_nil))]
fn end_at(history: Option<&History>, step: usize) -> u64
    ensures { result ≡ end_of (slice_get (marks_of (option_copied history.entry)) step) }
{
    match history {
        None => 0,
        Some(history) => match history.marks.get(step) {
            None => 0,
            Some(mark) => mark.entries,
        },
    }
}

fn begin_at(history: Option<&History>, step: usize) -> u64
    ensures { result ≡ begin_of step (option_copied history.entry) }
{
    if step == 0 {
        0
    } else {
        end_at(history, step - 1)
    }
}

fn at_most(n: u64, most: usize) -> usize
    ensures { result ≡ min n most }
{
    if n < most as u64 { n as usize } else { most }
}

/// The first so many entries.
#[tactic(auto, using(crate::proofs::PartLaws::take_within))]
fn first(entries: &[Entry], n: u64) -> &[Entry]
    ensures { result.now ≡ take n entries.now }
{
    let (front, _) = entries.split_at(at_most(n, entries.len()));
    front
}

/// The entries behind the first so many.
#[tactic(auto, using(crate::proofs::PartLaws::drop_within))]
fn behind(entries: &[Entry], n: u64) -> &[Entry]
    ensures { result.now ≡ drop n entries.now }
{
    let (_, rest) = entries.split_at(at_most(n, entries.len()));
    rest
}

/// What a manager did before a step.
pub fn before_step<'a>(history: Option<&'a History>, step: usize) -> &'a [Entry]
    ensures { result.now ≡ before_step step (option_copied history.entry) }
{
    first(entries_of(history), begin_at(history, step))
}

/// What a manager did in a step.
pub fn in_step<'a>(history: Option<&'a History>, step: usize) -> &'a [Entry]
    ensures { result.now ≡ in_step step (option_copied history.entry) }
{
    let begin = begin_at(history, step);
    let end = end_at(history, step);
    first(
        behind(entries_of(history), begin),
        end.saturating_sub(begin),
    )
}

/// Whether a step ended idle.
#[tactic(auto, using(crate::proofs::PartLaws::get_nil))]
pub fn is_idle(histories: &[History], step: usize) -> bool
    ensures { result ≡ is_idle step histories.now }
{
    match histories.get(0) {
        None => false,
        Some(history) => match history.marks.get(step) {
            None => false,
            Some(mark) => mark.idle,
        },
    }
}
