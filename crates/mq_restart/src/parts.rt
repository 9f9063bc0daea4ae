//! A manager that comes up: its parts, tied to one another.
ghost use Rattle.std.specs.Prelude.{◌≡◌, ◌+◌, ◌^◌, ◌<◌};
ghost use Rattle.mq_redo.specs.from_core.Ties.{Tied};
ghost use Rattle.mq_restart.specs.Begun.{begun_parts, begun_core};

use mq_base::{Items, QName};
use mq_disk::Disk;
use mq_log::Log;
use mq_rebuild::Built;
use mq_rebuild::below::Effects;
use mq_record::Buffer;
use mq_redo::below::{ChannelEnds, Core, Live, Mode, Parts};
use std::alloc::Global;

/// The parts of a manager that was built, in the next incarnation. It takes no memory.
fn parts_of<D: Disk>(
    alloc: Global,
    number: u8,
    name: &QName,
    moment: u64,
    built: Built,
    log: Log<D>,
) -> Parts<D>
    requires low { built.incarnation + 1 < 2 ^ 64 }
    ensures { result ≡ begun_parts number name.now moment built log }
{
    Parts {
        alloc,
        number,
        name: *name,
        mode: Mode::Up,
        defs: built.defs,
        queues: built.queues,
        live: Live::new(alloc),
        ends: ChannelEnds {
            senders: built.senders,
            receivers: built.receivers,
            seizures: Items::new(alloc),
            batches: Items::new(alloc),
            bound: built.bound,
            rows: built.rows,
        },
        moment,
        incarnation: built.incarnation + 1,
        idents: 0,
        log,
        body: Buffer::new(alloc),
    }
}

/// A manager that was built and is up. It takes no memory.
pub fn core_of<D: Disk>(
    alloc: Global,
    number: u8,
    name: &QName,
    moment: u64,
    built: Built,
    log: Log<D>,
) -> Core<D>
    requires low { built.incarnation + 1 < 2 ^ 64 }
    requires tied { Tied (begun_parts number name.now moment built log) }
    ensures { result ≡ begun_core number name.now moment built log }
{
    Core {
        parts: parts_of(alloc, number, name, moment, built, log),
        effects: Effects::new(alloc),
        stopped: None,
    }
}
