//! All that a get finds, with the memory for what its answer holds.
ghost use Rattle.std.specs.Prelude.{◌≡◌, ◌++◌, map, IfOk, OnOk};
ghost use Rattle.std.specs.Option.{option_map};
ghost use Rattle.mq_calls.specs.State.{Plain};
ghost use Rattle.mq_scan.specs.Scans.{scan_of, met_of};
ghost use Rattle.mq_core.specs.Views.{plain_of};
ghost use Rattle.mq_get.specs.Gets.{hit_of, IsPlan};

use crate::reading::{got, is_too_long};
use crate::refusals::Aim;
use mq_base::{Items, NoMemory};
use mq_calls::{Get, Got};
use mq_core::Parts;
use mq_core::below::LocalRows;
use mq_disk::Disk;
use mq_message::Place;
use mq_queue::{Queue, Row, is_persistent};
use mq_scan::{Met, scan};
use std::alloc::Global;

/// What is kept of a row that a get finds.
#[derive(Drop)]
pub struct Hit {
    pub met: Met,
    pub place: Place,
    /// Longer than the caller's room.
    pub long: bool,
    pub got: Got,
}

/// All that a get finds.
#[derive(Drop)]
pub struct Plan {
    /// The expired rows that it meets, in order of place.
    pub mets: Items<Met>,
    pub hit: Option<Hit>,
}

fn hit_of(alloc: Global, get: &Get, row: &Row) -> Result<Hit, NoMemory>
    ensures { IfOk result (λ hit. hit ≡ hit_of get.now row.now) }
{
    match got(alloc, &row.message, get.room) {
        Ok(got) => Ok(Hit {
            met: Met {
                ident: row.message.ident,
                persistent: is_persistent(&row.message),
            },
            place: row.place,
            long: is_too_long(get, &row.message),
            got,
        }),
        Err(NoMemory) => Err(NoMemory),
    }
}

/// The row that a scan finds, and the expired rows that it meets before it.
fn find_hit<Q: Queue + Drop>(
    alloc: Global,
    local: &LocalRows<Q>,
    get: &Get,
    cursor: Option<Place>,
    moment: u64,
    mets: &mut Items<Met>,
) -> Result<Option<Hit>, NoMemory>
    ensures hit { IfOk result (λ hit. (p : Plain) → p.moment ≡ moment → hit ≡ option_map (hit_of get.now) (scan_of get.now cursor p local.now.queue.rows).found) }
    ensures mets { OnOk result ((p : Plain) → p.moment ≡ moment → mets.new ≡ mets.old ++ map met_of (scan_of get.now cursor p local.now.queue.rows).expired) }
{
    match scan(local, get, cursor, moment, mets) {
        Ok(None) => Ok(None),
        Ok(Some(row)) => match hit_of(alloc, get, row) {
            Ok(hit) => Ok(Some(hit)),
            Err(NoMemory) => Err(NoMemory),
        },
        Err(NoMemory) => Err(NoMemory),
    }
}

/// All that a get finds.
pub(crate) fn look<D: Disk>(parts: &Parts<D>, aim: &Aim, get: &Get) -> Result<Plan, NoMemory>
    ensures { IfOk result (IsPlan get.now aim.now (plain_of parts.now)) }
{
    let mut mets = Items::new(parts.alloc);
    let Some(local) = parts.queues.local(&aim.queue) else {
        return Ok(Plan { mets, hit: None });
    };
    match find_hit(parts.alloc, local, get, aim.cursor, parts.moment, &mut mets) {
        Ok(hit) => Ok(Plan { mets, hit }),
        Err(NoMemory) => Err(NoMemory),
    }
}
