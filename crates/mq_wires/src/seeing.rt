//! The item that waits on the direction which an end reads.
ghost use Rattle.std.specs.Prelude.{◌≡◌, ◌≤◌, ◌^◌, [], true, IfOk};
ghost use Rattle.mq_frame.specs.Sight.{Shows};
ghost use Rattle.mq_cable.specs.Lists.{list_of};
ghost use Rattle.mq_wires.specs.Wires.{HasStamp, Sees};

use mq_base::NoMemory;
use mq_cable::{Item, Wire};
use mq_frame::{Seen, seen_of};
use std::alloc::Global;

/// What an end sees.
#[derive(Drop)]
pub struct Sight {
    /// The frame that waits, or that what waits is none, or that nothing waits.
    pub seen: Seen,
    /// The stamp of the item that waits; 0 where none does.
    pub stamp: u64,
}

/// A frame has the stamp of the item that brings it.
fn has_stamp(seen: &Seen, stamp: u64) -> bool
    ensures { result ≡ true → HasStamp stamp seen.now }
{
    match seen {
        Seen::Nothing => true,
        Seen::Spoiled => true,
        Seen::Frame(frame) => frame.stamp == stamp,
    }
}

/// What an item shows.
fn show(alloc: Global, item: &Item) -> Result<Sight, NoMemory>
    ensures { IfOk result (λ sight. Shows item.now.bytes sight.seen × (sight.stamp ≡ item.now.stamp) × HasStamp item.now.stamp sight.seen) }
{
    let seen = match seen_of(alloc, item.bytes.as_slice()) {
        Ok(seen) => seen,
        Err(NoMemory) => return Err(NoMemory),
    };
    if !has_stamp(&seen, item.stamp) {
        return Err(NoMemory);
    }
    Ok(Sight {
        seen,
        stamp: item.stamp,
    })
}

/// What waits on the direction that an end reads; it stays there.
///
/// # Errors
///
/// No memory; also where a frame has another stamp than its item, which no end has pushed.
pub fn see<W: Wire>(alloc: Global, wire: &mut W) -> Result<Sight, NoMemory>
    requires low { W.low wire.old }
    ensures saw { IfOk result (λ sight. Sees (W.front_of wire.new) (W.was_empty wire.old wire.new) sight.seen sight.stamp) }
    ensures same { W.writes wire.old [] wire.new × W.reads wire.old [] wire.new }
    ensures low { W.low wire.new }
    ensures stamp { IfOk result (λ sight. sight.stamp ≤ 2 ^ 60) }
{
    if !wire.fetch() {
        return Ok(Sight {
            seen: Seen::Nothing,
            stamp: 0,
        });
    }
    match wire.front() {
        None => unreachable!(),
        Some(item) => show(alloc, item),
    }
}

/// Takes the item that waits. It takes no memory.
pub fn take<W: Wire>(wire: &mut W)
    ensures read { W.reads wire.old (list_of (W.front_of wire.old)) wire.new }
    ensures written { W.writes wire.old [] wire.new }
    ensures low { W.low wire.old → W.low wire.new }
{
    let _item = wire.pop();
}
