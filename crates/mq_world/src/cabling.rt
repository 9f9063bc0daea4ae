//! The cables of a network that starts, with a copy of their lines.
ghost use Rattle.std.specs.Prelude.{◌≡◌, IfOk};
ghost use Rattle.mq_world.specs.Words as words;

use mq_base::{Items, NoMemory};
use mq_history::CableLine;
use mq_ways::{Cable, cables_of, copy_faults};
use std::alloc::Global;

fn copy_line(alloc: Global, line: &CableLine) -> Result<CableLine, NoMemory>
    ensures { IfOk result (λ copy. copy ≡ line.now) }
{
    let out = copy_faults(alloc, &line.out)?;
    let back = copy_faults(alloc, &line.back)?;
    Ok(CableLine {
        channel: line.channel,
        sender: line.sender,
        receiver: line.receiver,
        out,
        back,
    })
}

/// A copy of the lines of cables.
fn lines_of(alloc: Global, lines: &[CableLine]) -> Result<Items<CableLine>, NoMemory>
    ensures { IfOk result (λ copy. copy ≡ lines.now) }
{
    let mut copy = Items::new(alloc);
    for line in lines {
        let line = copy_line(alloc, line)?;
        if copy.push(line).is_err() {
            return Err(NoMemory);
        }
    }
    Ok(copy)
}

/// The lines of a network's cables, and what lies on them.
pub struct Cabling {
    pub lines: Items<CableLine>,
    pub cables: Items<Cable>,
}

/// Cables on which nothing was offered, with a copy of their lines.
pub fn cabling_of(alloc: Global, lines: &[CableLine]) -> Result<Cabling, NoMemory>
    ensures lines { IfOk result (λ r. r.lines ≡ lines.now) }
    ensures cables { IfOk result (λ r. words.AreNew lines.now r.cables) }
{
    let copy = lines_of(alloc, lines)?;
    let cables = cables_of(alloc, lines)?;
    Ok(Cabling {
        lines: copy,
        cables,
    })
}
