//! On which queue an ident stands: a map from idents to names, which may still know rows that are gone.
ghost use Rattle.std.specs.Prelude.{◌≡◌, ◌+◌, ◌<◌, ◌≤◌, ◌&&◌, Some, None, if◌then◌else◌, OnOk};
ghost use Rattle.indexmap.specs.IndexMap.{spare};
ghost use Rattle.mq_queue.specs.Rows.{same_ident};
ghost use Rattle.mq_place.specs.Homes.{home_of, is_home};

use indexmap::IndexMap;
use mq_base::{NoMemory, QName};
use mq_message::Ident;

/// The queue that an ident was noted for.
pub fn home_of(homes: &IndexMap<Ident, QName>, ident: &Ident) -> Option<QName>
    ensures { result ≡ home_of homes.now ident.now }
{
    homes.get(ident).copied()
}

/// Takes memory for so many more idents. Room that is there is never refused.
pub fn reserve_homes(homes: &mut IndexMap<Ident, QName>, more: u64) -> Result<(), NoMemory>
    ensures same { (ident : Ident) → home_of homes.new ident ≡ home_of homes.old ident }
    ensures kept { spare homes.old ≤ spare homes.new }
    ensures ok { OnOk result (more ≤ spare homes.new) }
{
    homes.reserve(more as usize)?;
    Ok(())
}

/// Notes the queue of an ident. It takes no memory.
pub fn note_home(homes: &mut IndexMap<Ident, QName>, ident: &Ident, name: &QName)
    requires { 0 < spare homes.old }
    ensures home { (other : Ident) → home_of homes.new other ≡ (if same_ident ident.now other then Some name.now else home_of homes.old other) }
    ensures spare { spare homes.old ≤ spare homes.new + 1 }
{
    let _before = homes.insert(*ident, *name).unwrap();
}

fn is_home(name: &QName, home: Option<QName>) -> bool
    ensures { result ≡ is_home name.now home }
{
    match home {
        None => false,
        Some(home) => *name == home,
    }
}

/// Drops the note of an ident, where it is of that queue. It takes no memory.
pub fn drop_home(homes: &mut IndexMap<Ident, QName>, ident: &Ident, name: &QName)
    ensures home { (other : Ident) → home_of homes.new other ≡ (if same_ident ident.now other && is_home name.now (home_of homes.old ident.now) then None else home_of homes.old other) }
    ensures spare { spare homes.old ≤ spare homes.new }
{
    if is_home(name, home_of(homes, ident)) {
        let _name = homes.swap_remove(ident);
    }
}
