//! The rows of all queues by where they stand.
ghost use Rattle.std.specs.Prelude.{◌≡◌, option_copied};
ghost use Rattle.mq_shelves.specs.Racks.{row_at, standing};
ghost use Rattle.mq_shelves.specs.Spots.{spot_of};

use crate::slots::Racks;
use crate::spots::{Spot, spot_of};
use indexmap::IndexMap;
use mq_message::Ident;
use mq_queue::Row;

/// The row at a spot.
pub fn row_at<'a>(racks: &'a Racks, spot: &Spot) -> Option<&'a Row>
    ensures { option_copied result ≡ row_at racks.now spot.now }
{
    match racks.get(&spot.queue) {
        None => None,
        Some(rack) => rack.get(&spot.stand),
    }
}

/// Where the row with an ident stands.
pub fn standing(racks: &Racks, spots: &IndexMap<Ident, Spot>, ident: &Ident) -> Option<Spot>
    ensures { result ≡ standing racks.now ident.now (spot_of spots.now ident.now) }
{
    let spot = spot_of(spots, ident)?;
    let row = row_at(racks, &spot)?;
    if row.message.ident == *ident {
        Some(spot)
    } else {
        None
    }
}
