//! Places of names.
ghost use Rattle.std.specs.Prelude.{◌≡◌, ℕ, List, Some, if◌then◌else◌, OnOk, OnErr};
ghost use Rattle.std.specs.Str.{bytes_eq};
ghost use Rattle.indexmap.specs.IndexMap.{get as found_in};

use indexmap::IndexMap;
use mq_base::{NoMemory, QName};

/// The place that was noted of a name.
pub fn found(places: &IndexMap<QName, usize>, name: &QName) -> Option<usize>
    ensures { result ≡ found_in bytes_eq places.now name.now }
{
    places.get(name).copied()
}

/// Notes the place of a name.
pub fn note_name(
    places: &mut IndexMap<QName, usize>,
    name: &QName,
    at: usize,
) -> Result<(), NoMemory>
    ensures noted { OnOk result ((other : List ℕ) → found_in bytes_eq places.new other ≡ (if bytes_eq name.now other then Some at else found_in bytes_eq places.old other)) }
    ensures same { OnErr result ((other : List ℕ) → found_in bytes_eq places.new other ≡ found_in bytes_eq places.old other) }
{
    match places.insert(*name, at) {
        Ok(_) => Ok(()),
        Err(_) => Err(NoMemory),
    }
}
