//! Rows that are named, in room that was taken before.
ghost use Rattle.std.specs.Prelude.{◌≡◌, ◌+◌, ◌-◌, ◌++◌, ◌∷◌, ◌<◌, ◌≤◌, [], IfOk, OnOk, OnErr};
ghost use Rattle.mq_place.specs.Rooms.{RoomStays, cleared_rows, one_named};

use mq_base::{Items, NoMemory};
use mq_calls::Remove;
use std::alloc::Global;
use std::marker::Model;

/// Rows that are named, in order, and room for more: naming takes no memory and cannot fail.
#[derive(Drop)]
pub struct RowRoom {
    rows: Vec<Remove>,
    /// For so many more there is room.
    room: usize,
}

impl Model for RowRoom {
    ghost use Rattle.std.specs.Prelude.{◌+◌, ◌≤◌, vec_len, vec_capacity};
    ghost use Rattle.mq_place.specs.Rooms.{RowsKept};

    ghost Value = { RowsKept };

    ghost view = { λ r. record { rows = r.rows.items; room = r.room } };

    ghost invariant = { λ r. vec_len r.rows + r.room ≤ vec_capacity r.rows };
}

impl RowRoom {
    /// None is named, and there is no room. It takes no memory.
    pub fn new(alloc: Global) -> RowRoom
        ensures { result ≡ record { rows = []; room = 0 } }
    {
        RowRoom {
            rows: Vec::new(alloc),
            room: 0,
        }
    }

    /// None is named, and there is room for so many.
    ///
    /// # Errors
    ///
    /// No memory.
    pub fn with_room(alloc: Global, most: usize) -> Result<RowRoom, NoMemory>
        ensures { IfOk result (λ r. r ≡ record { rows = []; room = most }) }
    {
        let mut rows = Vec::new(alloc);
        if rows.reserve(most).is_err() {
            return Err(NoMemory);
        }
        Ok(RowRoom { rows, room: most })
    }

    /// Takes memory, so that there is room for so many more than there was.
    ///
    /// # Errors
    ///
    /// No memory; nothing has changed.
    pub fn set_aside(&mut self, more: usize) -> Result<(), NoMemory>
        ensures ok { OnOk result (self.new ≡ record self.old { room = self.old.room + more }) }
        ensures err { OnErr result (self.new ≡ self.old) }
    {
        let Some(all) = self.room.checked_add(more) else {
            return Err(NoMemory);
        };
        if self.rows.reserve(all).is_err() {
            return Err(NoMemory);
        }
        self.room = all;
        Ok(())
    }

    /// Names one row more. It takes no memory.
    pub fn push(&mut self, row: Remove)
        requires { 0 < self.old.room }
        ensures { self.new ≡ one_named row self.old }
    {
        self.room -= 1;
        self.rows.extend_from_slice(&[row]).unwrap();
    }

    /// Names one row more. Only where there is no room does it take memory.
    ///
    /// # Errors
    ///
    /// No memory; nothing has changed.
    pub fn add(&mut self, row: Remove) -> Result<(), NoMemory>
        ensures rows { OnOk result (self.new.rows ≡ self.old.rows ++ row ∷ []) }
        ensures err { OnErr result (self.new ≡ self.old) }
        ensures room { RoomStays self.old self.new }
        ensures memory { OnErr result (self.old.room ≡ 0) }
    {
        if self.room > 0 {
            self.push(row);
            return Ok(());
        }
        match self.set_aside(1) {
            Ok(()) => {}
            Err(NoMemory) => return Err(NoMemory),
        }
        self.push(row);
        Ok(())
    }

    /// So much of the room is kept no longer. It takes no memory.
    pub fn give_back(&mut self, less: usize)
        requires { less ≤ self.old.room }
        ensures { self.new ≡ record self.old { room = self.old.room - less } }
    {
        self.room -= less;
    }

    /// The rows.
    pub fn as_slice(&self) -> &[Remove]
        ensures { result.now ≡ self.now.rows }
    {
        self.rows.as_slice()
    }

    /// None is named any more, and there is as much room for others. It takes no memory.
    pub fn clear(&mut self)
        ensures { self.new ≡ cleared_rows self.old }
    {
        self.room += self.rows.len();
        self.rows.clear();
    }

    /// The rows as a list. It takes no memory.
    pub fn into_items(self) -> Items<Remove>
        ensures { result ≡ self.rows }
    {
        let RowRoom { rows, room } = self;
        Items::from_vec(rows)
    }
}
