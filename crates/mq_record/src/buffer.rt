//! Room for bytes that is taken before anything is written into it.

ghost use Rattle.std.specs.Prelude.{◌≡◌, ◌+◌, ◌-◌, ◌≤◌, [], length, OnOk, OnErr};
ghost use Rattle.mq_record.specs.Room.{with_piece};

use mq_base::NoMemory;
use std::alloc::Global;
use std::marker::Model;

/// Bytes that grow in room taken before: writing takes no memory and cannot fail.
#[derive(Drop)]
pub struct Buffer {
    bytes: Vec<u8>,
    /// For so many bytes there is room behind those that stand there.
    room: usize,
}

impl Model for Buffer {
    ghost use Rattle.std.specs.Prelude.{◌+◌, ◌≤◌, vec_len, vec_capacity};
    ghost use Rattle.mq_record.specs.Room.{Buffered};

    ghost Value = { Buffered };

    ghost view = { λ b. record { bytes = b.bytes.items; room = b.room } };

    ghost invariant = { λ b. vec_len b.bytes + b.room ≤ vec_capacity b.bytes };
}

impl Buffer {
    /// A buffer with no byte and no room. It takes no memory.
    pub fn new(alloc: Global) -> Buffer
        ensures { result ≡ record { bytes = []; room = 0 } }
    {
        Buffer {
            bytes: Vec::new(alloc),
            room: 0,
        }
    }

    /// Takes memory for so many bytes more.
    ///
    /// # Errors
    ///
    /// No memory; nothing has changed.
    pub fn reserve(&mut self, more: usize) -> Result<(), NoMemory>
        ensures ok { OnOk result (self.new ≡ record self.old { room = self.old.room + more }) }
        ensures err { OnErr result (self.new ≡ self.old) }
    {
        let Some(room) = self.room.checked_add(more) else {
            return Err(NoMemory);
        };
        self.bytes.reserve(room)?;
        self.room = room;
        Ok(())
    }

    /// Gives room for so many bytes back. The memory stays with the buffer.
    pub fn give_back(&mut self, less: usize)
        requires { less ≤ self.old.room }
        ensures { self.new ≡ record self.old { room = self.old.room - less } }
    {
        self.room -= less;
    }

    /// No byte is left, and their room is there again.
    pub fn clear(&mut self)
        ensures { self.new ≡ record { bytes = []; room = self.old.room + length self.old.bytes } }
    {
        self.room += self.bytes.len();
        self.bytes.clear();
    }

    /// The bytes.
    pub fn as_slice(&self) -> &[u8]
        ensures { result.now ≡ self.now.bytes }
    {
        self.bytes.as_slice()
    }

    /// Puts a piece behind the bytes. It takes no memory.
    pub fn put(&mut self, piece: &[u8])
        requires { length piece.now ≤ self.old.room }
        ensures { self.new ≡ with_piece piece.now self.old }
    {
        self.bytes.extend_from_slice(piece).unwrap();
        self.room -= piece.len();
    }
}
