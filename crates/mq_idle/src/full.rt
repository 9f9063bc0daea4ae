//! Whether a direction is full, and whether it is empty.
ghost use Rattle.std.specs.Prelude.{◌≡◌, ◌==◌, suc};
ghost use Rattle.mq_cable.specs.Faults.{fault_of, names};
ghost use Rattle.mq_idle.specs.Idle.{comes_now, none_lies, refuses};

use mq_cable::{Fault, Items, Offers};

/// How many items are a full direction (this project's choice).
const MOST: usize = 64;

/// Whether a fault's frame is the one behind so many.
fn follows(on: u32, number: u64) -> bool
    ensures { result ≡ (on == suc number) }
{
    on > 0 && on as u64 - 1 == number
}

fn names_next(number: u64, fault: Fault) -> bool
    ensures { result ≡ names (suc number) fault }
{
    match fault {
        Fault::Drop(on) => follows(on, number),
        Fault::Late(on, _) => follows(on, number),
        Fault::Copy(on, _) => follows(on, number),
        Fault::Spoil(on) => follows(on, number),
    }
}

/// The fault on the frame behind so many.
fn next_fault(faults: &[Fault], number: u64) -> Option<Fault>
    ensures { result ≡ fault_of (suc number) faults.now }
{
    faults
        .iter()
        .copied()
        .find(|fault| names_next(number, *fault))
}

/// A frame with this fault is to lie there now.
fn comes_now(fault: Option<Fault>) -> bool
    ensures { result ≡ comes_now fault }
{
    match fault {
        None => true,
        Some(Fault::Drop(_)) => false,
        Some(Fault::Late(_, _)) => false,
        Some(Fault::Copy(_, _)) => true,
        Some(Fault::Spoil(_)) => true,
    }
}

/// A full direction refuses the next frame.
pub(crate) fn refuses(faults: &[Fault], items: &Items, offers: &Offers) -> bool
    ensures { result ≡ refuses faults.now (record { items = items.now; offers = offers.now }) }
{
    items.len() >= MOST && comes_now(next_fault(faults, offers.number()))
}

#[tactic(auto, using(crate::proofs::LookLaws::none_long))]
pub(crate) fn none_lies(items: &Items) -> bool
    ensures { result ≡ none_lies items.now }
{
    items.len() == 0
}
