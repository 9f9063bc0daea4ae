//! The entries of a node's history, with the memory for more.
ghost use Rattle.std.specs.Prelude.{◌≡◌, ◌<◌, ◌≤◌, ◌+◌, ◌-◌, ◌++◌, ◌∷◌, [], OnOk, length, option_copied};
ghost use Rattle.mq_events.specs.States.{last_entry};

use mq_base::NoMemory;
use mq_history::Entry;
use std::alloc::Global;
use std::marker::Model;

/// The last of these.
#[tactic(auto, using(crate::proofs::LastLaws::last_is))]
pub fn last_entry(entries: &[Entry]) -> Option<&Entry>
    ensures { option_copied result ≡ last_entry entries.now }
{
    entries.last()
}

/// The entries of a history. Of the memory for more, some is set aside: it is no room.
#[derive(Drop)]
pub struct Entries {
    list: Vec<Entry>,
    // For so many more.
    aside: usize,
}

impl Model for Entries {
    ghost use Rattle.std.specs.Prelude.{◌+◌, ◌-◌, ◌≤◌};
    ghost use Rattle.std.specs.Vec.{vec_len, vec_capacity};
    ghost use Rattle.mq_events.specs.States.{EntriesState};

    ghost Value = { EntriesState };

    ghost view = { λ e. record { list = e.list.items; room = vec_capacity e.list - vec_len e.list - e.aside; aside = e.aside } };

    ghost invariant = { λ e. vec_len e.list + e.aside ≤ vec_capacity e.list };
}

impl Entries {
    /// None. It takes no memory.
    pub fn new(alloc: Global) -> Entries
        ensures none { result.list ≡ [] }
        ensures aside { result.aside ≡ 0 }
    {
        Entries {
            list: Vec::new(alloc),
            aside: 0,
        }
    }

    /// How many there are.
    pub fn len(&self) -> usize
        ensures { result ≡ length self.now.list }
    {
        self.list.len()
    }

    /// The entries, in order.
    pub fn as_slice(&self) -> &[Entry]
        ensures { result.now ≡ self.now.list }
    {
        self.list.as_slice()
    }

    /// The entries alone. It takes no memory.
    pub fn into_vec(self) -> Vec<Entry>
        ensures { result.items ≡ self.list }
    {
        let Entries { list, aside: _ } = self;
        list
    }

    /// Takes the memory of so many more, beside what is set aside.
    ///
    /// # Errors
    ///
    /// No memory.
    pub fn reserve(&mut self, more: usize) -> Result<(), NoMemory>
        ensures same { self.new ≡ record self.old { room = self.new.room } }
        ensures ok { OnOk result (more ≤ self.new.room) }
        ensures least { self.old.room ≤ self.new.room }
    {
        let Some(all) = more.checked_add(self.aside) else {
            return Err(NoMemory);
        };
        if self.list.reserve(all).is_err() {
            return Err(NoMemory);
        }
        Ok(())
    }

    /// Sets the memory of so many at least aside.
    ///
    /// # Errors
    ///
    /// No memory.
    pub fn set_aside(&mut self, least: usize) -> Result<(), NoMemory>
        ensures same { self.new ≡ record self.old { room = self.new.room; aside = self.new.aside } }
        ensures ok { OnOk result (least ≤ self.new.aside) }
        ensures more { self.old.aside ≤ self.new.aside }
    {
        if least <= self.aside {
            return Ok(());
        }
        if self.list.reserve(least).is_err() {
            return Err(NoMemory);
        }
        self.aside = least;
        Ok(())
    }

    /// The memory of one that is set aside is room. It takes no memory.
    pub fn draw(&mut self)
        requires aside { 0 < self.old.aside }
        ensures { self.new ≡ record self.old { room = self.old.room + 1; aside = self.old.aside - 1 } }
    {
        self.aside -= 1;
    }

    /// One more, in room that is there. It takes no memory.
    pub fn add(&mut self, entry: Entry)
        requires room { 0 < self.old.room }
        ensures { self.new ≡ record self.old { list = self.old.list ++ entry ∷ []; room = self.old.room - 1 } }
    {
        self.list.push_reserved(entry);
    }
}
