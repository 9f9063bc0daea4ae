//! What is forced into the log, and what stands when a write was stopped.
ghost use Rattle.std.specs.Prelude.{◌≡◌, ◌+◌, ◌-◌, ◌<◌, ◌≤◌, ◌^◌, true, length, OnOk, OnErr, IfSome, IsSome};
ghost use Rattle.mq_calls.specs.Words.{need, put_bytes, record_size};
ghost use Rattle.mq_calls.specs.declared.records.LogRecord.{LogRecord};
ghost use Rattle.mq_sides.specs.from_record.Records.{CanBeKept, record_bytes};
ghost use Rattle.mq_core.specs.Writes.{FitsRecord, added};
ghost use Rattle.mq_core.specs.Ties.{IsReady};
ghost use Rattle.mq_core.specs.Placing.{put_in_place};
ghost use Rattle.mq_core.specs.Forced.{IsForced, IsExpected, HasMoreRoom, downed_put, counted_put, given_back};

use crate::parts::{Mode, Parts, StoppedWrite};
use mq_base::{NoMemory, QName};
use mq_disk::{Disk, Stop};
use mq_message::Message;
use mq_sides::below::{Effects, unit_front};

/// What a persistent message takes in a record, in bytes.
pub fn put_bytes(message: &Message) -> u64
    requires { length message.now.body < 2 ^ 32 }
    ensures { result ≡ put_bytes message.now }
{
    let route = match message.route {
        None => 0,
        Some(_) => 96,
    };
    402 + message.body.len() as u64 + route
}

/// Takes all the memory of a put outside units: for its row, for so many bytes of the log, for one event that is told.
///
/// # Errors
///
/// No memory; nothing waits.
pub fn make_put_room<D: Disk>(
    parts: &mut Parts<D>,
    effects: &mut Effects,
    queue: &QName,
    need: u64,
) -> Result<(), NoMemory>
    ensures ok { OnOk result (IsExpected queue.now need parts.old parts.new) }
    ensures err { OnErr result (HasMoreRoom parts.old parts.new) }
    ensures dids { effects.new.dids ≡ effects.old.dids }
    ensures room { OnOk result (1 ≤ effects.new.room) }
{
    effects.reserve(1)?;
    parts.expect_put(queue, need)?;
    Ok(())
}

/// The room of a record, of so many bytes, is given back. It takes no memory.
pub fn return_room<D: Disk>(parts: &mut Parts<D>, need: u64)
    requires { need ≤ parts.old.body.room + length parts.old.body.bytes }
    ensures { parts.new ≡ given_back need parts.old }
{
    parts.body.clear();
    parts.body.give_back(need as usize);
}

impl<D: Disk> Parts<D> {
    /// Takes the memory of a put outside units: for its row, and for so many bytes of the log.
    pub fn expect_put(&mut self, queue: &QName, need: u64) -> Result<(), NoMemory>
        ensures ok { OnOk result (IsExpected queue.now need self.old self.new) }
        ensures err { OnErr result (HasMoreRoom self.old self.new) }
    {
        match self.log.room(need) {
            Ok(()) => {}
            Err(_) => return Err(NoMemory),
        }
        match self.queues.expect(queue) {
            Ok(()) => {}
            Err(_) => return Err(NoMemory),
        }
        self.body.clear();
        match self.body.reserve(need as usize) {
            Ok(()) => {}
            Err(_) => {
                self.queues.unpend(queue);
                return Err(NoMemory);
            }
        }
        Ok(())
    }

    /// Forces the record whose bytes stand in the body. It takes no memory.
    pub fn force_body(&mut self) -> Result<(), Stop>
        requires live { self.old.log.live ≡ true }
        requires small { length self.old.body.bytes < 2 ^ 32 }
        requires room { 5 + length self.old.body.bytes ≤ self.old.log.room }
        ensures { (r : LogRecord) → self.old.body.bytes ≡ record_bytes r → FitsRecord r → length (record_bytes r) ≡ record_size r → IsForced r self.old result self.new }
    {
        self.log.append_forced(self.body.as_slice())
    }

    /// Forces the record that adds one message. It takes no memory.
    pub fn force_put(&mut self, queue: &QName, message: &Message) -> Result<(), Stop>
        requires live { self.old.log.live ≡ true }
        requires room { need (added queue.now message.now) ≤ self.old.log.room }
        requires body { need (added queue.now message.now) ≤ self.old.body.room + length self.old.body.bytes }
        requires small { record_size (added queue.now message.now) < 2 ^ 32 }
        requires kept { CanBeKept message.now }
        ensures { IsForced (added queue.now message.now) self.old result self.new }
    {
        self.body.clear();
        self.body.put(&unit_front(1, 0));
        self.body.put_add(queue, message);
        self.log.append_forced(self.body.as_slice())
    }

    /// The write of a put was stopped. It takes no memory.
    pub fn go_down_put(&mut self, queue: &QName, message: Message)
        ensures { self.new ≡ downed_put queue.now message self.old }
    {
        self.queues.unpend(queue);
        self.queues.drop_volatile();
        self.mode = Mode::Down {
            write: Some(StoppedWrite::Put {
                queue: *queue,
                message,
            }),
            starts: 0,
            read: None,
        };
    }

    /// A put that waited is placed, and its ident is given. It takes no memory.
    pub fn settle_put(&mut self, queue: &QName, message: Message, need: u64)
        requires idents { self.old.idents + 1 < 2 ^ 64 }
        requires body { need ≤ self.old.body.room + length self.old.body.bytes }
        requires ready { IsReady queue.now message (counted_put need self.old) }
        ensures { self.new ≡ put_in_place queue.now message (counted_put need self.old) }
    {
        self.body.clear();
        self.body.give_back(need as usize);
        self.idents += 1;
        self.place(queue, message);
    }
}
