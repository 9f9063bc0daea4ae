//! Both directions of a channel in one thread.
use crate::item::{Full, Item};
use crate::items::Items;
use crate::wire::Wire;

/// How many items may lie on a direction (this project's choice).
const MOST: usize = 64;

/// Both directions in one thread, for one turn: its counts begin at 0. The first item of the direction read counts
/// as fetched.
#[derive(Drop)]
pub struct Near {
    /// The direction read.
    pub read: Items,
    /// The direction written.
    pub write: Items,
    /// How many pushes were answered Full.
    pub fulls: u64,
    /// How many fetches were answered false.
    pub empties: u64,
}

impl Wire for Near {
    ghost use Rattle.mq_cable.specs.Lists.{first_of, AllLow};
    ghost use Rattle.mq_cable.specs.Ends.{Wrote, Took, FoundFull, FoundEmpty};
    ghost use Rattle.mq_cable.specs.Laws.{wrote_none, took_none, wrote_more, took_more, full_later};

    ghost front_of = { λ w. first_of w.read };

    ghost writes = { λ a xs b. Wrote a.write a.fulls xs b.write b.fulls };

    ghost reads = { λ a xs b. Took a.read a.empties xs b.read b.empties };

    ghost was_full = { λ a b. FoundFull a.fulls b.write b.fulls };

    ghost was_empty = { λ a b. FoundEmpty a.empties b.read b.empties };

    ghost low = { λ w. AllLow w.read };

    ghost fulls = { λ w. w.fulls };

    ghost empties = { λ w. w.empties };

    ghost writes_none = { λ a. wrote_none a.write a.fulls };

    ghost reads_none = { λ a. took_none a.read a.empties };

    ghost writes_more = { λ a b c xs ys p q. wrote_more a.write a.fulls b.write b.fulls c.write c.fulls xs ys p q };

    ghost reads_more = { λ a b c xs ys p q. took_more a.read a.empties b.read b.empties c.read c.empties xs ys p q };

    ghost full_later = { λ a b c xs p q. full_later a.write a.fulls b.write b.fulls c.write c.fulls xs p q };

    ghost full_rose = { λ a b p. p.rose };

    ghost empty_rose = { λ a b p. p.rose };

    ghost fulls_stay = { λ a b xs p. p.count };

    ghost empties_stay = { λ a b xs p. p.count };

    fn push(&mut self, item: Item) -> Result<(), Full> {
        if self.write.len() >= MOST {
            self.fulls = self.fulls.saturating_add(1);
            return Err(Full { item });
        }
        self.write.push(item)
    }

    fn fetch(&mut self) -> bool {
        if self.read.is_empty() {
            self.empties = self.empties.saturating_add(1);
            return false;
        }
        true
    }

    fn front(&self) -> Option<&Item> {
        self.read.front()
    }

    fn pop(&mut self) -> Option<Item> {
        self.read.pop()
    }
}
