//! Where each key stands first and last, and at each slot where its key stands next and stood before.
ghost use Rattle.std.specs.Prelude.{◌≡◌, ◌<◌, ◌≤◌, ◌+◌, ◌++◌, ◌∷◌, [], ℕ, slice_set, IsSome, IfSome, OnOk, OnErr, None, Some, if◌then◌else◌, length, slice_get, vec_len, vec_capacity};
ghost use Rattle.std.specs.HashMap.{spare};
ghost use Rattle.mq_index.specs.declared.keys.Key as keys;
ghost use Rattle.mq_index.specs.Keys.{ends_in, key_by, keyed, same_key};
ghost use Rattle.mq_index.specs.Chains.{HasRoom, IsChainOf, IsNext, Noted, StandsAt, ends_behind, ends_without, first_in, last_in, set_at};

use crate::keys::{
    Ends, Key, Kind, change_ends, drop_ends, ends_of, key_by, note_ends, reserve_ends,
};
use mq_base::NoMemory;
use mq_queue::Row;
use std::alloc::Global;
use std::collections::HashMap;

/// The slots of each key, each linked to the next and to the one before.
#[derive(Drop)]
pub struct Chain {
    /// Where the key of a slot stands next.
    pub nexts: Vec<Option<usize>>,
    /// Where it stood before.
    pub prevs: Vec<Option<usize>>,
    /// Where each key stands first and last.
    pub ends: HashMap<Key, Ends>,
}

/// The link of a place, where there is one, leads elsewhere.
fn set_link(links: &mut Vec<Option<usize>>, at: Option<usize>, to: Option<usize>)
    requires there { IfSome at (λ a. a < length links.old.items) }
    ensures linked { links.new.items ≡ set_at at to links.old.items }
    ensures len { vec_len links.new ≡ vec_len links.old }
    ensures capacity { vec_capacity links.new ≡ vec_capacity links.old }
{
    if let Some(at) = at {
        links[at] = to;
    }
}

fn first_in(ends: Option<Ends>) -> Option<usize>
    ensures { result ≡ first_in ends }
{
    match ends {
        None => None,
        Some(ends) => Some(ends.first),
    }
}

fn last_in(ends: Option<Ends>) -> Option<usize>
    ensures { result ≡ last_in ends }
{
    match ends {
        None => None,
        Some(ends) => Some(ends.last),
    }
}

/// A key's ends, where it comes last at a place.
fn ends_behind(before: Option<Ends>, at: usize) -> Ends
    ensures { result ≡ ends_behind before at }
{
    match before {
        None => Ends {
            first: at,
            last: at,
        },
        Some(ends) => Ends {
            first: ends.first,
            last: at,
        },
    }
}

/// A key's ends, where it goes from between two places.
fn ends_without(ends: Ends, prev: Option<usize>, next: Option<usize>) -> Option<Ends>
    ensures { result ≡ ends_without ends prev next }
{
    match prev {
        None => match next {
            None => None,
            Some(next) => Some(Ends {
                first: next,
                last: ends.last,
            }),
        },
        Some(prev) => match next {
            None => Some(Ends {
                first: ends.first,
                last: prev,
            }),
            Some(_) => Some(ends),
        },
    }
}

/// Notes a key's ends anew, or forgets it.
fn set_ends(ends: &mut HashMap<Key, Ends>, key: &Key, to: Option<Ends>)
    requires known { IsSome (ends_in ends.old key.now) }
    ensures noted { Noted key.now to (ends_in ends.old) (ends_in ends.new) }
    ensures spare { spare ends.old ≤ spare ends.new }
{
    match to {
        None => drop_ends(ends, key),
        Some(to) => change_ends(ends, key, to),
    }
}

impl Chain {
    /// No slot. It takes no memory.
    pub fn new(alloc: Global) -> Chain
        ensures chain { IsChainOf [] result }
        ensures room { HasRoom 0 result }
    {
        Chain {
            nexts: Vec::new(alloc),
            prevs: Vec::new(alloc),
            ends: HashMap::new(alloc),
        }
    }

    /// Makes room for so many more slots. It keeps what it has, also where it fails.
    ///
    /// # Errors
    ///
    /// No memory.
    pub fn reserve(
        &mut self,
        slots: &Vec<Option<Row>>,
        kind: Kind,
        more: usize,
    ) -> Result<(), NoMemory>
        requires chain { IsChainOf (keyed kind slots.now.items) self.old }
        ensures chain { IsChainOf (keyed kind slots.now.items) self.new }
        ensures enough { OnOk result (HasRoom more self.new) }
        ensures room { (n : ℕ) → HasRoom n self.old → HasRoom n self.new }
    {
        if self.nexts.reserve(more).is_err() || self.prevs.reserve(more).is_err() {
            return Err(NoMemory);
        }
        reserve_ends(&mut self.ends, more)
    }

    /// A row's key comes at the end, in room that is there.
    pub fn push(&mut self, slots: &Vec<Option<Row>>, kind: Kind, row: &Row)
        requires chain { IsChainOf (keyed kind slots.now.items) self.old }
        requires room { HasRoom 1 self.old }
        ensures chain { IsChainOf (keyed kind (slots.now.items ++ Some row.now ∷ [])) self.new }
        ensures room { (n : ℕ) → HasRoom (n + 1) self.old → HasRoom n self.new }
    {
        let key = key_by(kind, row);
        let at = self.nexts.len();
        let before = ends_of(&self.ends, &key);
        let last = last_in(before);
        set_link(&mut self.nexts, last, Some(at));
        note_ends(&mut self.ends, key, ends_behind(before, at));
        self.nexts.push_reserved(None);
        self.prevs.push_reserved(last);
    }

    /// A row's slot is unlinked: those before and behind it are linked to each other.
    pub fn unlink(&mut self, slots: &Vec<Option<Row>>, kind: Kind, at: usize, row: &Row)
        requires chain { IsChainOf (keyed kind slots.now.items) self.old }
        requires there { slice_get slots.now.items at ≡ Some (Some row.now) }
        ensures chain { IsChainOf (keyed kind (slice_set slots.now.items at None)) self.new }
        ensures room { (n : ℕ) → HasRoom n self.old → HasRoom n self.new }
    {
        let key = key_by(kind, row);
        let prev = self.prevs[at];
        let next = self.nexts[at];
        let Some(ends) = ends_of(&self.ends, &key) else {
            return;
        };
        set_ends(&mut self.ends, &key, ends_without(ends, prev, next));
        set_link(&mut self.nexts, prev, next);
        set_link(&mut self.prevs, next, prev);
    }

    /// Where a key stands first.
    pub fn first(&self, key: &Key, slots: &[Option<Row>], kind: Kind) -> Option<usize>
        requires chain { IsChainOf (keyed kind slots.now) self.now }
        ensures { IsNext key.now (keyed kind slots.now) None result }
    {
        first_in(ends_of(&self.ends, key))
    }

    /// Where a key stands next behind a slot of its.
    pub fn next(&self, key: &Key, at: usize, slots: &[Option<Row>], kind: Kind) -> Option<usize>
        requires chain { IsChainOf (keyed kind slots.now) self.now }
        requires there { StandsAt key.now at (keyed kind slots.now) }
        ensures { IsNext key.now (keyed kind slots.now) (Some at) result }
    {
        self.nexts[at]
    }
}
