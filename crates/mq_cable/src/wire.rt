//! The two directions that one end of a channel uses.
ghost use Rattle.std.specs.Prelude.{◌≡◌, ℕ, ◌≤◌, ◌^◌, [], ◌∷◌, ◌++◌, List, Option, IfErr, OnOk, IfSome, IsSome, MatchBool};
ghost use Rattle.std.specs.Option.{option_copied};
ghost use Rattle.mq_message.specs.from_base.Outside.{Rose};
ghost use Rattle.mq_cable.specs.declared.item.Item.{Item};
ghost use Rattle.mq_cable.specs.Lists.{list_of};

use crate::item::{Full, Item};

/// The two directions that one end of a channel uses: it writes one and reads the other. No call takes memory.
pub trait Wire {
    /// The item that is fetched and not yet popped.
    ghost front_of: { Self → Option Item };

    /// From the first state to the second these items were pushed, in this order, and no others.
    ghost writes: { Self → List Item → Self → Type 0 };

    /// From the first state to the second these items were popped, in this order, and no others.
    ghost reads: { Self → List Item → Self → Type 0 };

    /// From the first state to the second a push was answered Full.
    ghost was_full: { Self → Self → Type 0 };

    /// From the first state to the second a fetch was answered false.
    ghost was_empty: { Self → Self → Type 0 };

    /// No item that is to be read has a stamp above 2^60.
    ghost low: { Self → Type 0 };

    /// How many pushes were answered Full, at most the last number of 64 bits.
    ghost fulls: { Self → ℕ };

    /// How many fetches were answered false, at most the last number of 64 bits.
    ghost empties: { Self → ℕ };

    /// Puts an item last in the direction written.
    ///
    /// # Errors
    ///
    /// `Full` where that direction had no room; the item comes back and nothing but the count has changed.
    fn push(&mut self, item: Item) -> Result<(), Full>
        requires { item.stamp ≤ 2 ^ 60 }
        ensures ok { OnOk result (writes self.old (item ∷ []) self.new) }
        ensures full { IfErr result (λ full. (full.item ≡ item) × writes self.old [] self.new × was_full self.old self.new) }
        ensures read { reads self.old [] self.new × (front_of self.new ≡ front_of self.old) }
        ensures low { low self.old → low self.new };

    /// Looks for an item of the direction read; one that is fetched already stays so. False where there is none.
    fn fetch(&mut self) -> bool
        ensures found { MatchBool result (IsSome (front_of self.new)) (was_empty self.old self.new) }
        ensures kept { IsSome (front_of self.old) → front_of self.new ≡ front_of self.old }
        ensures same { writes self.old [] self.new × reads self.old [] self.new }
        ensures low { low self.old → low self.new };

    /// The fetched item, which stays.
    fn front(&self) -> Option<&Item>
        ensures front { option_copied result ≡ front_of self.now }
        ensures low { low self.now → IfSome (front_of self.now) (λ item. item.stamp ≤ 2 ^ 60) };

    /// Takes the fetched item. None exactly where none is fetched.
    fn pop(&mut self) -> Option<Item>
        ensures front { result ≡ front_of self.old }
        ensures read { reads self.old (list_of result) self.new }
        ensures written { writes self.old [] self.new }
        ensures low { low self.old → low self.new };

    ghost writes_none: { (a : Self) → writes a [] a };

    ghost reads_none: { (a : Self) → reads a [] a };

    ghost writes_more: { (a b c : Self) (xs ys : List Item) → writes a xs b → writes b ys c → writes a (xs ++ ys) c };

    ghost reads_more: { (a b c : Self) (xs ys : List Item) → reads a xs b → reads b ys c → reads a (xs ++ ys) c };

    ghost full_later: { (a b c : Self) (xs : List Item) → writes a xs b → was_full b c → was_full a c };

    ghost full_rose: { (a b : Self) → was_full a b → Rose (fulls a) (fulls b) };

    ghost empty_rose: { (a b : Self) → was_empty a b → Rose (empties a) (empties b) };

    ghost fulls_stay: { (a b : Self) (xs : List Item) → writes a xs b → fulls a ≤ fulls b };

    ghost empties_stay: { (a b : Self) (xs : List Item) → reads a xs b → empties a ≤ empties b };
}
