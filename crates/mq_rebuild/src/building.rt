//! What a manager is built of from an image.
ghost use Rattle.std.specs.Prelude.{◌≡◌, IfOk, map};
ghost use Rattle.mq_calls.specs.Recovery.{IsImage};
ghost use Rattle.mq_rebuild.specs.Rebuilt.{AreOnce, IsBuilt, IsRead, state_on};

use crate::objects::defs_of;
use crate::shelves::queues_of;
use crate::sides::{Sides, sides_of};
use mq_base::{Items, NoMemory};
use mq_calls::{Image, Shelf};
use mq_index::IndexedQueue;
use mq_objects::{Definitions, Defs};
use mq_place::{Queues, RowRoom};
use mq_sides::{Bonds, KeptReceiver, KeptSender};
use std::alloc::Global;

/// What a manager is built of from an image.
#[derive(Drop)]
pub struct Built {
    /// Its objects, found by name.
    pub defs: Defs,
    /// Its local queues with their rows.
    pub queues: Queues<IndexedQueue>,
    /// What each sender channel has hardened, in order of the channels' names, with its room.
    pub senders: Items<KeptSender>,
    /// What each receiver channel has hardened, in order of the channels' names, with its room.
    pub receivers: Items<KeptReceiver>,
    /// A place for each receiver among those that may be bound.
    pub bound: Bonds,
    /// Room for the rows of all units in doubt.
    pub rows: RowRoom,
    /// The greatest incarnation that was started, 0 for none.
    pub incarnation: u64,
}

/// The objects of an image, found by name, and the local queues that its shelves tell.
///
/// # Errors
///
/// No memory.
fn defs_with_queues(
    alloc: Global,
    definitions: Definitions,
    shelves: Items<Shelf>,
) -> Result<(Defs, Queues<IndexedQueue>), NoMemory>
    requires once { AreOnce definitions.objects }
    requires read { IsRead definitions shelves }
    ensures defs { IfOk result (λ made. made.0.definitions ≡ definitions) }
    ensures queues { IfOk result (λ made. made.1.states ≡ map (state_on definitions) shelves) }
{
    let defs = match defs_of(alloc, definitions) {
        Ok(defs) => defs,
        Err(NoMemory) => return Err(NoMemory),
    };
    match queues_of(alloc, &defs, shelves) {
        Ok(queues) => Ok((defs, queues)),
        Err(NoMemory) => {
            drop(defs);
            Err(NoMemory)
        }
    }
}

/// Builds what a manager needs from an image. Each row and each object is moved once, and found by a map; a row of a unit
/// in doubt is looked for once more.
///
/// # Errors
///
/// No memory.
#[tactic(auto, using(crate::proofs::BuildLaws::shelves_are, crate::proofs::BuildLaws::objects_are))]
pub fn build(alloc: Global, image: Image) -> Result<Built, NoMemory>
    requires image { IsImage image }
    ensures { IfOk result (λ built. IsBuilt image built) }
{
    let Image {
        definitions,
        shelves,
        senders,
        receivers,
        incarnation,
    } = image;
    let (defs, queues) = match defs_with_queues(alloc, definitions, shelves) {
        Ok(made) => made,
        Err(NoMemory) => return Err(NoMemory),
    };
    match sides_of(alloc, senders, receivers) {
        Ok(sides) => {
            let Sides {
                senders,
                rows,
                receivers,
                bound,
            } = sides;
            Ok(Built {
                defs,
                queues,
                senders,
                receivers,
                bound,
                rows,
                incarnation,
            })
        }
        Err(NoMemory) => {
            drop(queues);
            drop(defs);
            Err(NoMemory)
        }
    }
}
