//! When idents were struck off the lists of units in doubt. Only those that some unit has listed are noted.
ghost use Rattle.std.specs.Prelude.{◌≡◌, ◌||◌, nat_le, true, if◌then◌else◌, OnOk, OnErr, filter};
ghost use Rattle.std.specs.List.{list_any};
ghost use Rattle.mq_message.specs.declared.message.Ident.{Ident};
ghost use Rattle.mq_queue.specs.Rows.{same_ident};
ghost use Rattle.mq_recover.specs.Kept.{struck_at, is_known, left_of};

use indexmap::IndexMap;
use mq_base::{Items, NoMemory};
use mq_message::Ident;
use mq_sync::InDoubt;

/// The number of the last strike of an ident, 0 for none.
pub fn struck_at(struck: &IndexMap<Ident, u64>, ident: &Ident) -> u64
    ensures { result ≡ struck_at struck.now ident.now }
{
    match struck.get(ident) {
        None => 0,
        Some(when) => *when,
    }
}

/// Whether an ident is noted.
pub fn is_known(struck: &IndexMap<Ident, u64>, ident: &Ident) -> bool
    ensures { result ≡ is_known struck.now ident.now }
{
    struck.get(ident).is_some()
}

/// An ident is struck, by the strike of that number.
///
/// # Errors
///
/// No memory; nothing changes.
pub fn strike(struck: &mut IndexMap<Ident, u64>, ident: &Ident, number: u64) -> Result<(), NoMemory>
    ensures known { OnOk result ((other : Ident) → is_known struck.new other ≡ (same_ident ident.now other || is_known struck.old other)) }
    ensures struck { OnOk result ((other : Ident) → struck_at struck.new other ≡ (if same_ident ident.now other then number else struck_at struck.old other)) }
    ensures unknown { OnErr result ((other : Ident) → is_known struck.new other ≡ is_known struck.old other) }
    ensures unstruck { OnErr result ((other : Ident) → struck_at struck.new other ≡ struck_at struck.old other) }
{
    struck.insert(*ident, number)?;
    Ok(())
}

// Notes an ident, where it isn't.
fn know(struck: &mut IndexMap<Ident, u64>, ident: &Ident) -> Result<(), NoMemory>
    ensures known { OnOk result ((other : Ident) → is_known struck.new other ≡ (same_ident ident.now other || is_known struck.old other)) }
    ensures unknown { OnErr result ((other : Ident) → is_known struck.new other ≡ is_known struck.old other) }
    ensures same { (other : Ident) → struck_at struck.new other ≡ struck_at struck.old other }
{
    if is_known(struck, ident) {
        return Ok(());
    }
    strike(struck, ident, 0)
}

/// Notes idents; those that were noted stay so, and none is struck.
///
/// # Errors
///
/// No memory.
pub fn know_each(struck: &mut IndexMap<Ident, u64>, idents: &[Ident]) -> Result<(), NoMemory>
    ensures known { OnOk result ((other : Ident) → list_any (λ (ident : Ident). same_ident ident other) idents.now ≡ true → is_known struck.new other ≡ true) }
    ensures kept { (other : Ident) → is_known struck.old other ≡ true → is_known struck.new other ≡ true }
    ensures same { (other : Ident) → struck_at struck.new other ≡ struck_at struck.old other }
{
    for ident in idents {
        know(struck, ident)?;
    }
    Ok(())
}

fn keep_left(idents: &mut Vec<Ident>, struck: &IndexMap<Ident, u64>, since: u64)
    ensures { idents.new.items ≡ filter (λ (ident : Ident). nat_le (struck_at struck.now ident) since) idents.old.items }
{
    idents.retain(|ident| struck_at(struck, ident) <= since);
}

/// A unit in doubt without the idents that were struck since.
pub fn left_of(struck: &IndexMap<Ident, u64>, since: u64, doubt: Option<InDoubt>) -> Option<InDoubt>
    ensures { result ≡ left_of (struck_at struck.now) since doubt }
{
    match doubt {
        None => None,
        Some(doubt) => {
            let mut idents = doubt.idents.into_vec();
            keep_left(&mut idents, struck, since);
            Some(InDoubt {
                unit: doubt.unit,
                queue: doubt.queue,
                idents: Items::from_vec(idents),
                last: doubt.last,
            })
        }
    }
}
