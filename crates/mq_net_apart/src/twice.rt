//! Idents that stand twice, by a search by hash for each.
ghost use Rattle.std.specs.Prelude.{◌≡◌, ◌||◌, not, OnOk, IfOk, count_by, nat_lt};
ghost use Rattle.mq_message.specs.declared.message.Ident.{Ident};
ghost use Rattle.mq_queue.specs.Rows.{same_ident};
ghost use Rattle.mq_shelves.specs.Spots.{is_met};
ghost use Rattle.mq_net_apart.specs.Twice.{again_in};

use indexmap::IndexMap;
use mq_base::NoMemory;
use mq_message::Ident;
use mq_shelves::meet;
use std::alloc::Global;

fn put(twice: &mut IndexMap<Ident, bool>, ident: &Ident) -> Result<(), NoMemory>
    ensures { OnOk result ((k : Ident) → is_met twice.new k ≡ (same_ident ident.now k || is_met twice.old k)) }
{
    let _first = meet(twice, ident)?;
    Ok(())
}

/// An ident joins those that stand twice, if it came again.
fn put_if(twice: &mut IndexMap<Ident, bool>, again: bool, ident: &Ident) -> Result<(), NoMemory>
    ensures { OnOk result ((k : Ident) → is_met twice.new k ≡ again_in again ident.now k (is_met twice.old k)) }
{
    if again { put(twice, ident) } else { Ok(()) }
}

/// Notes an ident: the first time among those met, later among those that stand twice too.
fn note(
    met: &mut IndexMap<Ident, bool>,
    twice: &mut IndexMap<Ident, bool>,
    ident: &Ident,
) -> Result<(), NoMemory>
    ensures met { OnOk result ((k : Ident) → is_met met.new k ≡ (same_ident ident.now k || is_met met.old k)) }
    ensures twice { OnOk result ((k : Ident) → is_met twice.new k ≡ again_in (not (not (is_met met.old ident.now))) ident.now k (is_met twice.old k)) }
{
    let first = meet(met, ident)?;
    put_if(twice, !first, ident)?;
    Ok(())
}

/// The idents that stand twice.
pub fn twice_of(alloc: Global, idents: &[Ident]) -> Result<IndexMap<Ident, bool>, NoMemory>
    ensures { IfOk result (λ twice. (k : Ident) → is_met twice k ≡ nat_lt 1 (count_by (same_ident k) idents.now)) }
{
    let mut met: IndexMap<Ident, bool> = IndexMap::new(alloc);
    let mut twice: IndexMap<Ident, bool> = IndexMap::new(alloc);
    for ident in idents {
        note(&mut met, &mut twice, ident)?;
    }
    Ok(twice)
}
