//! What a call did, told into room that was taken before.

ghost use Rattle.std.specs.Prelude.{◌≡◌, ◌+◌, ◌<◌, ◌≤◌, [], ◌++◌, length, OnOk, OnErr};
ghost use Rattle.std.specs.List.{flat_map};
ghost use Rattle.mq_spec_manager.specs.Units.{removed_item, placed_did, released_did};
ghost use Rattle.mq_unit.specs.Told.{told, told_all};

use mq_record::below::{Delta, Did, Item, Items, NoMemory, Why};
use std::alloc::Global;
use std::marker::Model;

/// What a call did, in order, and room for more: telling takes no memory and cannot fail.
#[derive(Drop)]
pub struct Effects {
    dids: Vec<Did>,
    /// For so many more there is room.
    room: usize,
}

impl Model for Effects {
    ghost use Rattle.std.specs.Prelude.{◌+◌, ◌≤◌, vec_len, vec_capacity};
    ghost use Rattle.mq_unit.specs.Told.{Telling};

    ghost Value = { Telling };

    ghost view = { λ e. record { dids = e.dids.items; room = e.room } };

    ghost invariant = { λ e. vec_len e.dids + e.room ≤ vec_capacity e.dids };
}

impl Effects {
    /// Nothing is told, and there is no room. It takes no memory.
    pub fn new(alloc: Global) -> Effects
        ensures { result ≡ record { dids = []; room = 0 } }
    {
        Effects {
            dids: Vec::new(alloc),
            room: 0,
        }
    }

    /// Takes memory, so that there is room for so many more.
    ///
    /// # Errors
    ///
    /// No memory; nothing has changed.
    pub fn reserve(&mut self, most: usize) -> Result<(), NoMemory>
        ensures dids { self.new.dids ≡ self.old.dids }
        ensures ok { OnOk result (most ≤ self.new.room) }
        ensures more { self.old.room ≤ self.new.room }
        ensures err { OnErr result (self.new ≡ self.old) }
    {
        if most <= self.room {
            return Ok(());
        }
        if self.dids.reserve(most).is_err() {
            return Err(NoMemory);
        }
        self.room = most;
        Ok(())
    }

    /// Tells one thing more. It takes no memory.
    pub fn tell(&mut self, did: Did)
        requires { 0 < self.old.room }
        ensures { self.new ≡ told did self.old }
    {
        self.room -= 1;
        self.dids.extend_from_slice(&[did]).unwrap();
    }

    /// Tells what the commit of a unit does: its rows go, and then its puts get their places. It takes no memory.
    pub fn tell_commit(&mut self, unit: &[Item])
        requires { length unit.now ≤ self.old.room }
        ensures { self.new ≡ told_all (flat_map removed_item unit.now ++ flat_map placed_did unit.now) self.old }
    {
        self.tell_all_removed(unit);
        self.tell_all_placed(unit);
    }

    /// Tells what the backout of a unit does: its rows are free again. It takes no memory.
    pub fn tell_backout(&mut self, unit: &[Item])
        requires { length unit.now ≤ self.old.room }
        ensures { self.new ≡ told_all (flat_map released_did unit.now) self.old }
    {
        self.tell_all_released(unit);
    }

    fn tell_all_removed(&mut self, unit: &[Item])
        requires { length (flat_map removed_item unit.now) ≤ self.old.room }
        ensures { self.new ≡ told_all (flat_map removed_item unit.now) self.old }
    {
        for item in unit {
            self.tell_removed(item);
        }
    }

    fn tell_all_placed(&mut self, unit: &[Item])
        requires { length (flat_map placed_did unit.now) ≤ self.old.room }
        ensures { self.new ≡ told_all (flat_map placed_did unit.now) self.old }
    {
        for item in unit {
            self.tell_placed(item);
        }
    }

    fn tell_all_released(&mut self, unit: &[Item])
        requires { length (flat_map released_did unit.now) ≤ self.old.room }
        ensures { self.new ≡ told_all (flat_map released_did unit.now) self.old }
    {
        for item in unit {
            self.tell_released(item);
        }
    }

    fn tell_removed(&mut self, item: &Item)
        requires { length (removed_item item.now) ≤ self.old.room }
        ensures { self.new ≡ told_all (removed_item item.now) self.old }
    {
        if let Item::Take { queue, ident, .. } = item {
            self.tell(Did::Removed {
                queue: *queue,
                ident: *ident,
                why: Why::Got,
            });
        }
    }

    fn tell_placed(&mut self, item: &Item)
        requires { length (placed_did item.now) ≤ self.old.room }
        ensures { self.new ≡ told_all (placed_did item.now) self.old }
    {
        if let Item::Put { queue, message } = item {
            self.tell(Did::Placed {
                queue: *queue,
                ident: message.ident,
                dead: None,
            });
        }
    }

    fn tell_released(&mut self, item: &Item)
        requires { length (released_did item.now) ≤ self.old.room }
        ensures { self.new ≡ told_all (released_did item.now) self.old }
    {
        if let Item::Take { queue, ident, .. } = item {
            self.tell(Did::Released {
                queue: *queue,
                ident: *ident,
            });
        }
    }

    /// Nothing is told, and its room is there again. It takes no memory.
    pub fn clear(&mut self)
        ensures { self.new ≡ record { dids = []; room = self.old.room + length self.old.dids } }
    {
        self.room += self.dids.len();
        self.dids.clear();
    }

    /// What is told, in order.
    pub fn as_slice(&self) -> &[Did]
        ensures { result.now ≡ self.now.dids }
    {
        self.dids.as_slice()
    }

    /// What is told, in order, as a delta. It takes no memory.
    pub fn into_delta(self) -> Delta
        ensures { result ≡ self.dids }
    {
        let Effects { dids, .. } = self;
        Items::from_vec(dids)
    }
}
