//! Reading lists from the front of some bytes.

ghost use Rattle.std.specs.Prelude.{◌≡◌};
ghost use Rattle.mq_frame.specs.Reading.{Gives, ident_at};
ghost use Rattle.mq_record.specs.Reading.{add_at, remove_at, several_at, idents_at, adds_at};

use crate::messages::{add_at, remove_at};
use mq_base::Items;
use mq_calls::{Add, Remove};
use mq_frame::Stop;
use mq_frame::reading::{ident_at, u32_at};
use mq_message::Ident;
use std::alloc::Global;

/// So many adds.
pub fn several_adds(alloc: Global, count: u32, bytes: &[u8]) -> Result<(Items<Add>, &[u8]), Stop>
    ensures { Gives (λ x. (x.0, x.1.now)) result (several_at add_at count bytes.now) }
{
    let mut adds = Items::new(alloc);
    let mut rest = bytes;
    'adds: for _ in 0..count {
        let (add, after) = match add_at(alloc, rest) {
            Ok(found) => found,
            Err(stop) => return Err(stop),
        };
        adds.push(add)?;
        rest = after;
    }
    Ok((adds, rest))
}

/// So many removes.
pub fn several_removes(
    alloc: Global,
    count: u32,
    bytes: &[u8],
) -> Result<(Items<Remove>, &[u8]), Stop>
    ensures { Gives (λ x. (x.0, x.1.now)) result (several_at remove_at count bytes.now) }
{
    let mut removes = Items::new(alloc);
    let mut rest = bytes;
    'removes: for _ in 0..count {
        let (remove, after) = match remove_at(rest) {
            Ok(found) => found,
            Err(miss) => return Err(Stop::Miss(miss)),
        };
        removes.push(remove)?;
        rest = after;
    }
    Ok((removes, rest))
}

/// So many idents.
fn several_idents(alloc: Global, count: u32, bytes: &[u8]) -> Result<(Items<Ident>, &[u8]), Stop>
    ensures { Gives (λ x. (x.0, x.1.now)) result (several_at ident_at count bytes.now) }
{
    let mut idents = Items::new(alloc);
    let mut rest = bytes;
    'idents: for _ in 0..count {
        let (ident, after) = ident_at(rest)?;
        idents.push(ident)?;
        rest = after;
    }
    Ok((idents, rest))
}

/// A number of idents, and the idents.
#[tactic(auto, unfolding(crate::specs::Reading::idents_at))]
pub fn idents_at(alloc: Global, bytes: &[u8]) -> Result<(Items<Ident>, &[u8]), Stop>
    ensures { Gives (λ x. (x.0, x.1.now)) result (idents_at bytes.now) }
{
    let (count, rest) = u32_at(bytes)?;
    several_idents(alloc, count, rest)
}

/// A number of adds, and the adds.
#[tactic(auto, unfolding(crate::specs::Reading::adds_at))]
pub fn adds_at(alloc: Global, bytes: &[u8]) -> Result<(Items<Add>, &[u8]), Stop>
    ensures { Gives (λ x. (x.0, x.1.now)) result (adds_at bytes.now) }
{
    let (count, rest) = u32_at(bytes)?;
    several_adds(alloc, count, rest)
}
