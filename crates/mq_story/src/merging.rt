//! Histories merged by stamp, and then by manager.
ghost use Rattle.std.specs.Prelude.{◌≡◌, length, slice_get, option_copied, IfOk, IsSome, ◌+◌};
ghost use Rattle.mq_spec_network.specs.Story.{IsStory};
ghost use Rattle.mq_story.specs.Spots.{entry_of, lines_of, AreRising, stamp_of, IsFirst, earlier_of};

use mq_base::{Items, NoMemory};
use mq_spec_network::below::{Entry, History};
use std::alloc::Global;

/// Where an entry of a story stands.
#[derive(Clone, Copy)]
pub struct Spot {
    /// The manager's place in the scenario, from 0.
    pub manager: usize,
    /// The entry's place in its history, from 0.
    pub at: usize,
}

/// The entry at a spot; none where the histories have none there.
pub fn entry_at<'a>(histories: &'a [History], spot: Spot) -> Option<&'a Entry>
    ensures { option_copied result ≡ entry_of histories.now spot }
{
    match histories.get(spot.manager) {
        None => None,
        Some(history) => history.entries.get(spot.at),
    }
}

/// The stamp of the entry at a spot.
fn stamp_of(histories: &[History], spot: Spot) -> Option<u64>
    ensures { result ≡ stamp_of (entry_of histories.now spot) }
{
    match entry_at(histories, spot) {
        None => None,
        Some(entry) => Some(entry.stamp),
    }
}

/// The manager whose next entry comes first of the managers at the first so many places; none where no entry is left.
fn first_of(histories: &[History], heads: &[usize]) -> Option<usize>
    requires { length heads.now ≡ length histories.now }
    ensures { IsFirst histories.now heads.now result }
{
    let mut first = None;
    for manager in 0..heads.len() {
        let spot = Spot {
            manager,
            at: heads[manager],
        };
        if let Some(stamp) = stamp_of(histories, spot) {
            first = earlier(first, manager, stamp);
        }
    }
    match first {
        None => None,
        Some((manager, _)) => Some(manager),
    }
}

/// The first of two: the one of the smaller stamp, of equal ones the one that was there.
fn earlier(first: Option<(usize, u64)>, manager: usize, stamp: u64) -> Option<(usize, u64)>
    ensures { result ≡ earlier_of first manager stamp }
{
    match first {
        Some((other, least)) if least <= stamp => Some((other, least)),
        _ => Some((manager, stamp)),
    }
}

/// The place behind a spot.
fn behind(histories: &[History], spot: Spot) -> usize
    requires { IsSome (entry_of histories.now spot) }
    ensures { result ≡ spot.at + 1 }
{
    match histories.get(spot.manager) {
        Some(history) if spot.at < history.entries.len() => spot.at + 1,
        _ => unreachable!(),
    }
}

/// The story of histories whose stamps rise: the spots of all entries, by stamp, of equal ones by manager. In time of its
/// length, for each manager.
///
/// # Errors
///
/// No memory.
pub fn story_of(alloc: Global, histories: &[History]) -> Result<Items<Spot>, NoMemory>
    requires { AreRising histories.now }
    ensures story { IfOk result (λ spots. IsStory histories.now (lines_of histories.now spots)) }
    ensures there { IfOk result (λ spots. length (lines_of histories.now spots) ≡ length spots) }
{
    let mut spots = Items::new(alloc);
    let mut heads = match Vec::from_elem(alloc, 0usize, histories.len()) {
        Ok(heads) => heads,
        Err(_) => return Err(NoMemory),
    };
    'merging: while let Some(manager) = first_of(histories, heads.as_slice()) {
        let spot = Spot {
            manager,
            at: heads[manager],
        };
        match spots.push(spot) {
            Ok(()) => {}
            Err(_) => return Err(NoMemory),
        }
        heads[manager] = behind(histories, spot);
    }
    Ok(spots)
}
