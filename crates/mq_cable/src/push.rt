//! Extra items: those that a fault holds back or repeats.
ghost use Rattle.std.specs.Prelude.{◌≡◌, ℕ, ◌<◌, ◌≤◌, ◌^◌, [], ◌∷◌, List, length, take, map, filter, MatchOption, All};
ghost use Rattle.std.specs.List.{position, remove};
ghost use Rattle.mq_cable.specs.declared.item.Item.{Item};
ghost use Rattle.mq_cable.specs.declared.push.Kept.{Kept};
ghost use Rattle.mq_cable.specs.Offers.{due_of, is_due, is_left, item_of, IsLow};

use crate::item::{Full, Item};
use crate::wire::Wire;

/// An item that is still to be pushed, and the number of the frame after which it is.
#[derive(Drop)]
pub struct Kept {
    /// The number of a frame, from 1.
    pub after: u64,
    pub item: Item,
}

/// The place of the first kept item that is due after a frame.
fn due_place(kept: &[Kept], frame: u64) -> Option<usize>
    ensures { result ≡ position (is_due frame) kept.now }
{
    kept.iter().position(|entry| entry.after == frame)
}

/// Takes the first kept item that is due after a frame.
fn take_due(kept: &mut Vec<Kept>, frame: u64) -> Option<Item>
    ensures due { MatchOption result ((due_of frame kept.old.items ≡ []) × (kept.new.items ≡ kept.old.items)) (λ item. due_of frame kept.old.items ≡ item ∷ due_of frame kept.new.items) }
    ensures left { filter (is_left frame) kept.new.items ≡ filter (is_left frame) kept.old.items }
    ensures low { All IsLow kept.old.items → All IsLow kept.new.items × MatchOption result (Unit {0}) (λ item. item.stamp ≤ 2 ^ 60) }
{
    match due_place(kept.as_slice(), frame) {
        None => None,
        Some(at) => Some(kept.remove(at).item),
    }
}

/// Lets go of the kept items that are due after a frame.
fn drop_due(kept: &mut Vec<Kept>, frame: u64)
    ensures { kept.new.items ≡ filter (is_left frame) kept.old.items }
{
    'dropping: while let Some(Item { .. }) = take_due(kept, frame) {}
}

/// Pushes the kept items that are due after a frame, in order, until one finds the direction full; none of them
/// is kept. How many were pushed.
pub fn push_due<W: Wire>(kept: &mut Vec<Kept>, frame: u64, out: &mut W) -> u32
    requires low { All IsLow kept.old.items }
    requires few { length kept.old.items < 2 ^ 32 }
    ensures pushed { W.writes out.old (take result (due_of frame kept.old.items)) out.new }
    ensures most { result ≤ length (due_of frame kept.old.items) }
    ensures fewer { result < length (due_of frame kept.old.items) → W.was_full out.old out.new }
    ensures left { kept.new.items ≡ filter (is_left frame) kept.old.items }
    ensures read { W.reads out.old [] out.new × (W.front_of out.new ≡ W.front_of out.old) }
    ensures low { W.low out.old → W.low out.new }
{
    let mut extras = 0;
    'pushing: while let Some(item) = take_due(kept, frame) {
        if let Err(Full { item: _ }) = out.push(item) {
            drop_due(kept, frame);
            return extras;
        }
        extras += 1;
    }
    extras
}
