//! The reasons with which a delta tells idents as dead letters, found by ident.
ghost use Rattle.std.specs.Prelude.{◌≡◌, OnOk, IfOk, option_copied};
ghost use Rattle.mq_message.specs.declared.message.Ident.{Ident};
ghost use Rattle.mq_net_apart.specs.from_net_rows.Homes.{home_of};
ghost use Rattle.mq_spec_network.specs.Ledger.{dead_reason};
ghost use Rattle.mq_net_ledger.specs.Reasons.{now_told, told_if, reason_of, reason_by, AreTold};

use indexmap::IndexMap;
use mq_base::NoMemory;
use mq_calls::Did;
use mq_codes::Reason;
use mq_message::Ident;
use mq_net_apart::below::{home_of, note_home};
use std::alloc::Global;

/// Notes where a delta tells an ident as placed.
fn note(known: &mut IndexMap<Ident, usize>, did: &Did, at: usize) -> Result<(), NoMemory>
    ensures { OnOk result ((i : Ident) → home_of known.new i ≡ now_told did.now at i (home_of known.old i)) }
{
    match did {
        Did::Placed { ident, .. } => note_home(known, ident, at),
        _ => Ok(()),
    }
}

/// The same of the entry at a place, if there is one.
fn note_at(known: &mut IndexMap<Ident, usize>, delta: &[Did], at: usize) -> Result<(), NoMemory>
    ensures { OnOk result ((i : Ident) → home_of known.new i ≡ told_if delta.now at i (home_of known.old i)) }
{
    match delta.get(at) {
        None => Ok(()),
        Some(did) => note(known, did, at),
    }
}

/// Where a delta tells each ident as placed for the first time.
pub fn places_told(alloc: Global, delta: &[Did]) -> Result<IndexMap<Ident, usize>, NoMemory>
    ensures { IfOk result (λ known. AreTold (home_of known) delta.now) }
{
    let mut known: IndexMap<Ident, usize> = IndexMap::new(alloc);
    let mut left = delta.len();
    'noting: while 0 < left {
        left -= 1;
        note_at(&mut known, delta, left)?;
    }
    Ok(known)
}

fn reason_of(did: Option<&Did>) -> Option<Reason>
    ensures { result ≡ reason_of (option_copied did.entry) }
{
    match did {
        Some(Did::Placed { dead, .. }) => *dead,
        _ => None,
    }
}

fn reason_at(delta: &[Did], place: Option<usize>) -> Option<Reason>
    ensures { result ≡ reason_by delta.now place }
{
    match place {
        None => None,
        Some(at) => reason_of(delta.get(at)),
    }
}

/// The reason with which a delta tells an ident as a dead letter.
pub fn dead_reason(delta: &[Did], known: &IndexMap<Ident, usize>, ident: &Ident) -> Option<Reason>
    requires { AreTold (home_of known.now) delta.now }
    ensures { result ≡ dead_reason ident.now delta.now }
{
    reason_at(delta, home_of(known, ident))
}
