//! In which slot the row with an ident lies.
ghost use Rattle.std.specs.Prelude.{◌≡◌, ◌<◌, ◌≤◌, ◌+◌, Some, None, if◌then◌else◌, OnOk};
ghost use Rattle.std.specs.HashMap.{spare};
ghost use Rattle.mq_message.specs.declared.message.Ident.{Ident};
ghost use Rattle.mq_queue.specs.Rows.{same_ident};
ghost use Rattle.mq_index.specs.Slots.{home_in};

use mq_base::NoMemory;
use mq_message::Ident;
use std::collections::HashMap;

/// The slot that was noted of an ident.
pub fn home_in(homes: &HashMap<Ident, usize>, ident: &Ident) -> Option<usize>
    ensures { result ≡ home_in homes.now ident.now }
{
    homes.get(ident).copied()
}

/// Notes the slot of an ident, in room that is there.
pub fn note_home(homes: &mut HashMap<Ident, usize>, ident: &Ident, slot: usize)
    requires room { 0 < spare homes.old }
    ensures noted { (other : Ident) → home_in homes.new other ≡ (if same_ident ident.now other then Some slot else home_in homes.old other) }
    ensures spare { spare homes.old ≤ spare homes.new + 1 }
{
    match homes.insert(*ident, slot) {
        Ok(_) => {}
        Err(_) => unreachable!(),
    }
}

/// Forgets an ident. It takes no memory.
pub fn drop_home(homes: &mut HashMap<Ident, usize>, ident: &Ident)
    ensures dropped { (other : Ident) → home_in homes.new other ≡ (if same_ident ident.now other then None else home_in homes.old other) }
    ensures spare { spare homes.old ≤ spare homes.new }
{
    let _slot = homes.remove(ident);
}

/// Makes room for so many more idents.
///
/// # Errors
///
/// No memory; nothing has changed.
pub fn reserve_homes(homes: &mut HashMap<Ident, usize>, more: usize) -> Result<(), NoMemory>
    ensures same { (other : Ident) → home_in homes.new other ≡ home_in homes.old other }
    ensures ok { OnOk result (more ≤ spare homes.new) }
    ensures spare { spare homes.old ≤ spare homes.new }
{
    match homes.reserve(more) {
        Ok(()) => Ok(()),
        Err(_) => Err(NoMemory),
    }
}
