//! Idents that were taken, in order, each found in a map.
ghost use Rattle.std.specs.Prelude.{◌≡◌, ◌++◌, ◌∷◌, [], OnOk, OnErr};
ghost use Rattle.std.specs.List.{list_any};
ghost use Rattle.mq_queue.specs.Rows.{same_ident};

use indexmap::IndexMap;
use mq_base::{Items, NoMemory};
use mq_message::Ident;
use mq_net_rows::{home_of, note_home};
use std::alloc::Global;
use std::marker::Model;

/// Idents in the order in which they came. Whether one came is known in constant time.
#[derive(Drop)]
pub struct Gone {
    idents: Items<Ident>,
    // Each of them, and no other.
    known: IndexMap<Ident, usize>,
}

impl Model for Gone {
    ghost use Rattle.std.specs.Prelude.{List};
    ghost use Rattle.mq_message.specs.declared.message.Ident.{Ident};
    ghost use Rattle.mq_net_rows.specs.Homes.{home_of};
    ghost use Rattle.mq_net_books.specs.Gone.{AreKnown};

    ghost Value = { List Ident };

    ghost view = { λ g. g.idents };

    ghost invariant = { λ g. AreKnown (home_of g.known) g.idents };
}

impl Gone {
    /// None came.
    pub fn new(alloc: Global) -> Gone
        ensures { result ≡ [] }
    {
        Gone {
            idents: Items::new(alloc),
            known: IndexMap::new(alloc),
        }
    }

    /// One comes.
    pub fn push(&mut self, ident: &Ident) -> Result<(), NoMemory>
        ensures ok { OnOk result (self.new ≡ self.old ++ ident.now ∷ []) }
        ensures err { OnErr result (self.new ≡ self.old) }
    {
        if self.idents.push(*ident).is_err() {
            return Err(NoMemory);
        }
        if note_home(&mut self.known, ident, 0).is_err() {
            let _ident = self.idents.pop();
            return Err(NoMemory);
        }
        Ok(())
    }

    /// Whether an ident came.
    pub fn has(&self, ident: &Ident) -> bool
        ensures { result ≡ list_any (same_ident ident.now) self.now }
    {
        match home_of(&self.known, ident) {
            None => false,
            Some(_) => true,
        }
    }
}
