//! A frame that an end offers on the direction which it writes.
ghost use Rattle.std.specs.Prelude.{◌≡◌, ◌<◌, ◌≤◌, ◌^◌, []};
ghost use Rattle.mq_wires.specs.Wires.{OfferTold};

use mq_base::NoMemory;
use mq_cable::{Item, OfferFault, Offers, Wire};
use mq_frame::{Frame, encode};
use std::alloc::Global;

/// Offers a frame, as the scripted faults have it: how many extra items were pushed behind it; none where it is to be pushed now and
/// the direction was full.
///
/// # Errors
///
/// No memory; all is as before.
pub fn offer<W: Wire>(
    alloc: Global,
    frame: &Frame,
    offers: &mut Offers,
    wire: &mut W,
) -> Result<Option<u32>, NoMemory>
    requires stamp { frame.now.stamp ≤ 2 ^ 60 }
    requires count { offers.old.number < 2 ^ 48 }
    ensures told { OfferTold (λ xs. W.writes wire.old xs wire.new) (W.was_full wire.old wire.new) offers.old frame.now result offers.new }
    ensures read { W.reads wire.old [] wire.new × (W.front_of wire.new ≡ W.front_of wire.old) }
    ensures low { W.low wire.old → W.low wire.new }
{
    let bytes = match encode(alloc, frame) {
        Ok(bytes) => bytes,
        Err(NoMemory) => return Err(NoMemory),
    };
    let item = Item {
        stamp: frame.stamp,
        bytes,
    };
    match offers.offer(item, wire) {
        Ok(extras) => Ok(Some(extras)),
        Err(OfferFault::Full) => Ok(None),
        Err(OfferFault::NoMemory) => Err(NoMemory),
    }
}
