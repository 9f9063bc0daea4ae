//! Whether idents are told apart, by a search by hash for each.
ghost use Rattle.std.specs.Prelude.{◌≡◌, ◌||◌, not, OnOk, OnErr, IfOk};
ghost use Rattle.mq_message.specs.declared.message.Ident.{Ident};
ghost use Rattle.mq_queue.specs.Rows.{same_ident};
ghost use Rattle.mq_spec_log.specs.Applies.{are_distinct};
ghost use Rattle.mq_shelves.specs.Spots.{is_met};

use indexmap::IndexMap;
use mq_base::NoMemory;
use mq_message::Ident;
use std::alloc::Global;

/// Whether an ident was noted.
pub fn is_met(met: &IndexMap<Ident, bool>, ident: &Ident) -> bool
    ensures { result ≡ is_met met.now ident.now }
{
    met.get(ident).is_some()
}

/// Notes an ident; the answer says whether it wasn't there.
///
/// # Errors
///
/// No memory; nothing changes.
pub fn meet(met: &mut IndexMap<Ident, bool>, ident: &Ident) -> Result<bool, NoMemory>
    ensures first { IfOk result (λ first. first ≡ not (is_met met.old ident.now)) }
    ensures err { OnErr result ((other : Ident) → is_met met.new other ≡ is_met met.old other) }
    ensures now { OnOk result ((other : Ident) → is_met met.new other ≡ (same_ident ident.now other || is_met met.old other)) }
{
    let before = met.insert(*ident, true)?;
    Ok(!before.is_some())
}

/// Whether no ident stands twice.
///
/// # Errors
///
/// No memory.
pub fn are_distinct(alloc: Global, idents: &[Ident]) -> Result<bool, NoMemory>
    ensures { IfOk result (λ distinct. distinct ≡ are_distinct idents.now) }
{
    let mut met: IndexMap<Ident, bool> = IndexMap::new(alloc);
    for ident in idents {
        if !meet(&mut met, ident)? {
            return Ok(false);
        }
    }
    Ok(true)
}
