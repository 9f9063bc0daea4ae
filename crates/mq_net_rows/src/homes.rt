//! In which slot an ident stands: a map from idents to slots, which may still know rows that are gone.
ghost use Rattle.std.specs.Prelude.{◌≡◌, Some, None, if◌then◌else◌, OnOk, OnErr};
ghost use Rattle.mq_queue.specs.Rows.{same_ident};
ghost use Rattle.mq_net_rows.specs.Homes.{home_of};

use indexmap::IndexMap;
use mq_base::NoMemory;
use mq_message::Ident;

/// The slot that was noted of an ident.
pub fn home_of(homes: &IndexMap<Ident, usize>, ident: &Ident) -> Option<usize>
    ensures { result ≡ home_of homes.now ident.now }
{
    homes.get(ident).copied()
}

/// Notes the slot of an ident.
pub fn note_home(
    homes: &mut IndexMap<Ident, usize>,
    ident: &Ident,
    slot: usize,
) -> Result<(), NoMemory>
    ensures home { OnOk result ((other : Ident) → home_of homes.new other ≡ (if same_ident ident.now other then Some slot else home_of homes.old other)) }
    ensures same { OnErr result ((other : Ident) → home_of homes.new other ≡ home_of homes.old other) }
{
    match homes.insert(*ident, slot) {
        Ok(_) => Ok(()),
        Err(_) => Err(NoMemory),
    }
}

/// Drops the note of an ident. It takes no memory.
pub fn drop_home(homes: &mut IndexMap<Ident, usize>, ident: &Ident)
    ensures { (other : Ident) → home_of homes.new other ≡ (if same_ident ident.now other then None else home_of homes.old other) }
{
    let _slot = homes.swap_remove(ident);
}
