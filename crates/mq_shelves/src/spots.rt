//! Where the row of an ident stands: a map that may still know rows that are gone.
ghost use Rattle.std.specs.Prelude.{◌≡◌, Some, if◌then◌else◌, OnOk, OnErr};
ghost use Rattle.mq_message.specs.declared.message.Ident.{Ident};
ghost use Rattle.mq_queue.specs.Rows.{same_ident};
ghost use Rattle.mq_shelves.specs.Spots.{spot_of};

use crate::rack::Stand;
use indexmap::IndexMap;
use mq_base::{NoMemory, QName};
use mq_message::Ident;

/// A place on a queue.
#[derive(Clone, Copy)]
pub struct Spot {
    /// The queue.
    pub queue: QName,
    /// Where on it.
    pub stand: Stand,
}

/// Where an ident was noted to stand.
pub fn spot_of(spots: &IndexMap<Ident, Spot>, ident: &Ident) -> Option<Spot>
    ensures { result ≡ spot_of spots.now ident.now }
{
    spots.get(ident).copied()
}

/// Notes where an ident stands.
pub fn note_spot(
    spots: &mut IndexMap<Ident, Spot>,
    ident: &Ident,
    spot: Spot,
) -> Result<(), NoMemory>
    ensures ok { OnOk result ((other : Ident) → spot_of spots.new other ≡ (if same_ident ident.now other then Some spot else spot_of spots.old other)) }
    ensures err { OnErr result ((other : Ident) → spot_of spots.new other ≡ spot_of spots.old other) }
{
    spots.insert(*ident, spot)?;
    Ok(())
}
