//! Lists by channel: found, set and dropped by the channel's name.
ghost use Rattle.std.specs.Prelude.{◌≡◌, ℕ, List, find, filter, not, option_copied, slice_get, None, length, ◌<◌, ◌≤◌, IfOk, OnOk, OnErr};
ghost use Rattle.std.specs.List.{position};
ghost use Rattle.std.specs.Str.{bytes_eq};
ghost use Rattle.mq_unit.specs.from_calls.Words.{comes_before, set_named};
ghost use Rattle.mq_sides.specs.Places.{is_of, is_there, place_in, AreByName, CanUndo, standing, undone};

use crate::kept::{KeptBatch, KeptReceiver, KeptSender};
use mq_base::{ChName, Items, NoMemory};
use mq_unit::below::{ReceiverSide, Seizure, SenderSide};
use std::alloc::Global;

/// What is kept for one channel.
pub trait OfChannel {
    /// The channel's name.
    ghost channel_of: { Self → List ℕ };

    /// The channel's name.
    fn channel(&self) -> &ChName
        ensures { result.now ≡ channel_of self.now };
}

impl OfChannel for SenderSide {
    ghost channel_of = { λ s. s.channel };

    fn channel(&self) -> &ChName {
        &self.channel
    }
}

impl OfChannel for ReceiverSide {
    ghost channel_of = { λ s. s.channel };

    fn channel(&self) -> &ChName {
        &self.channel
    }
}

impl OfChannel for KeptSender {
    ghost channel_of = { λ s. s.channel };

    fn channel(&self) -> &ChName {
        &self.side().channel
    }
}

impl OfChannel for KeptReceiver {
    ghost channel_of = { λ s. s.channel };

    fn channel(&self) -> &ChName {
        &self.side().channel
    }
}

impl OfChannel for Seizure {
    ghost channel_of = { λ s. s.channel };

    fn channel(&self) -> &ChName {
        &self.channel
    }
}

impl OfChannel for KeptBatch {
    ghost channel_of = { λ s. s.channel };

    fn channel(&self) -> &ChName {
        &self.batch().channel
    }
}

impl OfChannel for ChName {
    ghost channel_of = { λ s. s };

    fn channel(&self) -> &ChName {
        self
    }
}

/// Whether a name comes before another in the order of their bytes.
fn comes_first(a: &ChName, b: &ChName) -> bool
    ensures { result ≡ comes_before a.now b.now }
{
    a.text().cmp(b.text()).is_lt()
}

// Whether a value is of the channel, or of one that comes after it.
fn is_placed_after<T: OfChannel>(x: &T, channel: &ChName) -> bool
    ensures { result ≡ is_there T.channel_of channel.now x.now }
{
    *channel == *x.channel() || comes_first(channel, x.channel())
}

/// The first place whose channel is this one, or comes after it; else behind the last.
#[tactic(auto, using(crate::proofs::PlaceLaws::place_next, crate::proofs::PlaceLaws::place_here, crate::proofs::PlaceLaws::place_none))]
fn side_place<T: OfChannel>(items: &[T], channel: &ChName) -> usize
    ensures value { result ≡ place_in T.channel_of channel.now items.now }
    ensures within { result ≤ length items.now }
{
    for place in 0..items.len() {
        let Some(x) = items.get(place) else {
            return place;
        };
        if is_placed_after(x, channel) {
            return place;
        }
    }
    items.len()
}

/// What is kept for a channel.
pub fn side_of<'a, T: OfChannel>(items: &'a Items<T>, channel: &ChName) -> Option<&'a T>
    ensures { option_copied result ≡ find (λ (x : T). bytes_eq channel.now (T.channel_of x)) items.now }
{
    items.as_slice().iter().find(|x| *channel == *x.channel())
}

/// Whether the value at a place is of the channel.
fn is_standing<T: OfChannel>(items: &[T], place: usize, channel: &ChName) -> bool
    ensures { result ≡ is_of T.channel_of channel.now (slice_get items.now place) }
{
    match items.get(place) {
        None => false,
        Some(x) => *channel == *x.channel(),
    }
}

/// What a value that is set for the channel takes the place of.
pub fn standing_of<'a, T: OfChannel>(items: &'a Items<T>, channel: &ChName) -> Option<&'a T>
    ensures { option_copied result ≡ standing T.channel_of channel.now items.now }
{
    let place = side_place(items.as_slice(), channel);
    match items.get(place) {
        None => None,
        Some(x) => {
            if *channel == *x.channel() {
                Some(x)
            } else {
                None
            }
        }
    }
}

/// How a list is as it was before a value was set: what stood at the value's place, if it took the place of one.
#[derive(Drop)]
pub struct Undo<T> {
    /// The place of the value, from 0.
    pub place: usize,
    /// What stood there before; none where the value was put between others.
    pub before: Option<T>,
}

/// What is kept for a channel takes the place of what was kept for it, or is put in order. It can be undone.
///
/// # Errors
///
/// No memory; nothing has changed. Where the list is in the order of its names, none is taken for a channel for which something is kept.
#[tactic(auto, using(crate::proofs::PlaceLaws::set_there, crate::proofs::PlaceLaws::set_new, crate::proofs::PlaceLaws::there_within))]
pub fn swap_side<T: OfChannel + Drop>(items: &mut Items<T>, new: T) -> Result<Undo<T>, NoMemory>
    ensures ok { OnOk result (items.new ≡ set_named T.channel_of new items.old) }
    ensures undo { IfOk result (λ u. CanUndo u.place u.before items.old items.new) }
    ensures before { IfOk result (λ u. u.before ≡ standing T.channel_of (T.channel_of new) items.old) }
    ensures err { OnErr result (items.new ≡ items.old) }
    ensures lacks { OnErr result (AreByName T.channel_of items.old → find (λ (x : T). bytes_eq (T.channel_of new) (T.channel_of x)) items.old ≡ None) }
{
    let place = side_place(items.as_slice(), new.channel());
    if is_standing(items.as_slice(), place, new.channel()) {
        let before = std::mem::replace(items.at_mut(place), new);
        return Ok(Undo {
            place,
            before: Some(before),
        });
    }
    match items.insert(place, new) {
        Ok(()) => {}
        Err(_) => return Err(NoMemory),
    }
    Ok(Undo {
        place,
        before: None,
    })
}

/// A value that was set is gone, and what it took the place of stands there again. It takes no memory.
pub fn undo_side<T: Drop>(items: &mut Items<T>, undo: Undo<T>)
    requires { undo.place < length items.old }
    ensures { items.new ≡ undone undo.place undo.before items.old }
{
    let Undo { place, before } = undo;
    let Some(before) = before else {
        let _added = items.remove(place);
        return;
    };
    *items.at_mut(place) = before;
}

/// What is kept for a channel takes the place of what was kept for it, or is put in order.
///
/// # Errors
///
/// No memory; nothing has changed. Where the list is in the order of its names, none is taken for a channel for which something is kept.
pub fn set_side<T: OfChannel + Drop>(items: &mut Items<T>, new: T) -> Result<(), NoMemory>
    ensures ok { OnOk result (items.new ≡ set_named T.channel_of new items.old) }
    ensures err { OnErr result (items.new ≡ items.old) }
    ensures lacks { OnErr result (AreByName T.channel_of items.old → find (λ (x : T). bytes_eq (T.channel_of new) (T.channel_of x)) items.old ≡ None) }
{
    match swap_side(items, new) {
        Ok(_) => Ok(()),
        Err(NoMemory) => Err(NoMemory),
    }
}

// Whether a value is of another channel.
fn is_of_other<T: OfChannel>(x: &T, channel: &ChName) -> bool
    ensures { result ≡ not (bytes_eq channel.now (T.channel_of x.now)) }
{
    !(*channel == *x.channel())
}

// The values of other channels stay.
fn keep_others<T: OfChannel + Drop>(values: &mut Vec<T>, channel: &ChName)
    ensures { values.new.items ≡ filter (λ (x : T). not (bytes_eq channel.now (T.channel_of x))) values.old.items }
{
    values.retain(|x| is_of_other(x, channel));
}

/// Nothing is kept for a channel any more. It takes no memory.
pub fn drop_side<T: OfChannel + Drop>(alloc: Global, items: &mut Items<T>, channel: &ChName)
    ensures { items.new ≡ filter (λ (x : T). not (bytes_eq channel.now (T.channel_of x))) items.old }
{
    let mut values = std::mem::replace(items, Items::new(alloc)).into_vec();
    keep_others(&mut values, channel);
    *items = Items::from_vec(values);
}

// The first place of a value of the channel.
fn place_of<T: OfChannel>(items: &[T], channel: &ChName) -> Option<usize>
    ensures { result ≡ position (λ (x : T). bytes_eq channel.now (T.channel_of x)) items.now }
{
    items.iter().position(|x| *channel == *x.channel())
}

/// What is kept for a channel is taken out; the values of other channels stay. It takes no memory.
#[tactic(auto, using(crate::proofs::TakeLaws::found_none, crate::proofs::TakeLaws::found_some, crate::proofs::TakeLaws::left_none, crate::proofs::TakeLaws::left_some))]
pub fn take_side<T: OfChannel + Drop>(
    alloc: Global,
    items: &mut Items<T>,
    channel: &ChName,
) -> Option<T>
    ensures value { result ≡ find (λ (x : T). bytes_eq channel.now (T.channel_of x)) items.old }
    ensures rest { items.new ≡ filter (λ (x : T). not (bytes_eq channel.now (T.channel_of x))) items.old }
{
    let Some(place) = place_of(items.as_slice(), channel) else {
        return None;
    };
    let side = items.remove(place);
    drop_side(alloc, items, channel);
    Some(side)
}
