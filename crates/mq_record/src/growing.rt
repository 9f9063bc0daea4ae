//! Lists and messages of a record, one part after another into a buffer. No call takes memory.

ghost use Rattle.std.specs.Prelude.{◌≡◌, ◌≤◌, ◌+◌, length, IfSome};
ghost use Rattle.byteorder.specs.Endian.{big_bytes};
ghost use Rattle.mq_frame.specs.Frames.{ident_bytes, deadline_bytes, route_bytes, message_bytes, IsIdent, IsDest};
ghost use Rattle.mq_calls.specs.Sizes.{message_size, route_size};
ghost use Rattle.mq_record.specs.Records.{add_bytes, remove_bytes, CanBeKept, IsAdd, IsKept, IsRemove};
ghost use Rattle.mq_record.specs.Room.{with_piece};

use crate::buffer::Buffer;
use crate::fronts::ident_array;
use byteorder::{BigEndian, ByteOrder};
use mq_base::QName;
use mq_message::{Dest, Ident, Message, md_to_bytes};

impl Buffer {
    /// Puts an ident behind the bytes: 17 bytes.
    pub fn put_ident(&mut self, ident: &Ident)
        requires { 17 ≤ self.old.room }
        ensures bytes { self.new ≡ with_piece (ident_bytes ident.now) self.old }
        ensures ident { IsIdent ident.now }
    {
        self.put(&ident_array(ident));
    }

    /// Puts a remove behind the bytes: 65 bytes.
    pub fn put_remove(&mut self, queue: &QName, ident: &Ident)
        requires { 65 ≤ self.old.room }
        ensures bytes { self.new ≡ with_piece (remove_bytes (record { queue = queue.now; ident = ident.now })) self.old }
        ensures remove { IsRemove (record { queue = queue.now; ident = ident.now }) }
    {
        self.put(queue.bytes());
        self.put_ident(ident);
    }

    /// Puts an add behind the bytes: 402 bytes and the body, 96 more where the message has a route.
    pub fn put_add(&mut self, queue: &QName, message: &Message)
        requires { 48 + message_size message.now ≤ self.old.room }
        ensures bytes { self.new ≡ with_piece (add_bytes (record { queue = queue.now; message = message.now })) self.old }
        ensures add { CanBeKept message.now → IsAdd (record { queue = queue.now; message = message.now }) }
    {
        self.put(queue.bytes());
        self.put_message(message);
    }

    /// Puts a message behind the bytes: 354 bytes and the body, 96 more where it has a route.
    pub fn put_message(&mut self, message: &Message)
        requires { message_size message.now ≤ self.old.room }
        ensures bytes { self.new ≡ with_piece (message_bytes message.now) self.old }
        ensures message { CanBeKept message.now → IsKept message.now }
    {
        self.put_ident(&message.ident);
        self.put(&md_to_bytes(&message.md));
        self.put_deadline(message.deadline);
        self.put_route(&message.route);
        self.put_length(message.body.len());
        self.put(message.body.as_slice());
    }

    /// A deadline; all ones stand for none.
    #[tactic(auto, unfolding(mq_frame::specs::Frames::deadline_bytes))]
    fn put_deadline(&mut self, deadline: Option<u64>)
        requires { 8 ≤ self.old.room }
        ensures { self.new ≡ with_piece (deadline_bytes deadline) self.old }
    {
        match deadline {
            None => self.put_u64(u64::MAX),
            Some(moment) => self.put_u64(moment),
        }
    }

    /// A flag, and two names where there is a route.
    fn put_route(&mut self, route: &Option<Dest>)
        requires { 1 + route_size route.now ≤ self.old.room }
        ensures bytes { self.new ≡ with_piece (route_bytes route.now) self.old }
        ensures size { length (route_bytes route.now) ≡ 1 + route_size route.now }
        ensures dest { IfSome route.now IsDest }
    {
        match route {
            None => self.put(&[0]),
            Some(dest) => {
                self.put(&[1]);
                self.put(dest.queue.bytes());
                self.put(dest.qmgr.bytes());
            }
        }
    }

    fn put_u64(&mut self, number: u64)
        requires { 8 ≤ self.old.room }
        ensures { self.new ≡ with_piece (big_bytes 8 number) self.old }
    {
        let mut bytes = [0; 8];
        BigEndian::write_u64(&mut bytes, number);
        self.put(&bytes);
    }

    /// The lowest four bytes of a length.
    fn put_length(&mut self, number: usize)
        requires { 4 ≤ self.old.room }
        ensures { self.new ≡ with_piece (big_bytes 4 number) self.old }
    {
        let mut bytes = [0; 8];
        BigEndian::write_u64(&mut bytes, number as u64);
        let (_, low) = bytes.split_at(4);
        self.put(low);
    }
}
