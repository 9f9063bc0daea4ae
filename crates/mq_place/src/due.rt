//! The names of the queues that may have a trigger due, so that nobody walks over all queues.
ghost use Rattle.std.specs.Prelude.{◌≡◌, [], true, false, not, ℕ, List, filter, vec_len, vec_capacity, ◌≤◌};
ghost use Rattle.std.specs.List.{list_any};
ghost use Rattle.std.specs.Str.{bytes_eq};
ghost use Rattle.mq_place.specs.Due.{is_noted, AreAt};

use mq_base::{NoMemory, QName};
use std::alloc::Global;
use std::marker::Model;

/// On which queues triggers may be due.
#[derive(Clone, Copy)]
pub enum DueAt {
    /// On none.
    Nowhere,
    /// On this one, and on no other.
    One(QName),
    /// On any.
    Several,
}

/// The names of the queues that may have a trigger due. Contracts see them, and whether any queue may have one.
#[derive(Drop)]
pub struct DueNames {
    names: Vec<QName>,
    // For so many more names there is room.
    room: usize,
    // A name found no room.
    all: bool,
}

impl Model for DueNames {
    ghost use Rattle.std.specs.Prelude.{◌+◌, ◌≤◌, vec_len, vec_capacity};
    ghost use Rattle.mq_place.specs.Due.{DueSet};

    ghost Value = { DueSet };

    ghost view = { λ d. record { names = d.names.items; all = d.all } };

    ghost invariant = { λ d. vec_len d.names + d.room ≤ vec_capacity d.names };
}

// Whether a name is another one.
fn is_other(name: &QName, other: &QName) -> bool
    ensures { result ≡ not (bytes_eq name.now other.now) }
{
    !(*name == *other)
}

// The other names stay. It takes no memory.
fn keep_others(names: &mut Vec<QName>, name: &QName)
    ensures kept { names.new.items ≡ filter (λ (n : List ℕ). not (bytes_eq name.now n)) names.old.items }
    ensures bound { vec_len names.new ≤ vec_len names.old }
    ensures capacity { vec_capacity names.new ≡ vec_capacity names.old }
{
    names.retain(|other| is_other(name, other));
}

impl DueNames {
    /// No name. It takes no memory.
    pub fn new(alloc: Global) -> DueNames
        ensures { result ≡ record { names = []; all = false } }
    {
        DueNames {
            names: Vec::new(alloc),
            room: 0,
            all: false,
        }
    }

    /// Takes memory, so that there is room for so many more.
    ///
    /// # Errors
    ///
    /// No memory.
    pub fn reserve(&mut self, most: usize) -> Result<(), NoMemory>
        ensures { self.new ≡ self.old }
    {
        if most <= self.room {
            return Ok(());
        }
        if self.names.reserve(most).is_err() {
            return Err(NoMemory);
        }
        self.room = most;
        Ok(())
    }

    /// Notes a name, but where it is known to be noted. It takes no memory.
    pub fn add(&mut self, name: &QName, known: bool)
        requires known { known ≡ true → is_noted self.old name.now ≡ true }
        ensures kept { (other : List ℕ) → is_noted self.old other ≡ true → is_noted self.new other ≡ true }
        ensures there { is_noted self.new name.now ≡ true }
    {
        if known {
            return;
        }
        if self.room == 0 {
            self.all = true;
            return;
        }
        self.room -= 1;
        self.names.push_reserved(*name);
    }

    /// A name is noted no longer. It takes no memory.
    pub fn drop_name(&mut self, name: &QName)
        ensures { (other : List ℕ) → bytes_eq name.now other ≡ false → is_noted self.old other ≡ true → is_noted self.new other ≡ true }
    {
        let before = self.names.len();
        keep_others(&mut self.names, name);
        self.room += before - self.names.len();
    }

    /// No name is noted any more. It takes no memory.
    pub fn clear(&mut self)
        ensures { self.new ≡ record { names = []; all = false } }
    {
        self.room += self.names.len();
        self.names.clear();
        self.all = false;
    }

    /// Which names are noted: none, one, or several.
    #[tactic(auto, using(crate::proofs::DueLaws::none_noted))]
    pub fn which(&self) -> DueAt
        ensures { AreAt result (is_noted self.now) }
    {
        if self.all {
            return DueAt::Several;
        }
        let Some(name) = self.names.get(0) else {
            return DueAt::Nowhere;
        };
        if self.names.len() > 1 {
            return DueAt::Several;
        }
        DueAt::One(*name)
    }
}
