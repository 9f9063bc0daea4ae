//! Puts that wait in units.
ghost use Rattle.std.specs.Prelude.{◌≡◌, ◌+◌, ◌++◌, ◌∷◌, [], ◌^◌, ◌<◌, ◌≤◌, true, false, length, OnOk, OnErr, IfSome, IsSome};
ghost use Rattle.mq_calls.specs.Words.{connection_at, unit_need, more_need, put_bytes, is_persistent};
ghost use Rattle.mq_calls.specs.declared.state.Item.TheVariants.{Put};
ghost use Rattle.mq_core.specs.Forced.{IsPended, IsReserved, HasMoreRoom, returned};

use crate::forcing::put_bytes;
use crate::parts::Parts;
use mq_base::{NoMemory, QName};
use mq_calls::Item;
use mq_disk::Disk;
use mq_message::Message;

impl<D: Disk> Parts<D> {
    /// Reserves bytes of the log, and takes their memory.
    ///
    /// # Errors
    ///
    /// No memory; nothing is reserved.
    pub fn reserve_record(&mut self, need: u64) -> Result<(), NoMemory>
        requires live { self.old.log.live ≡ true }
        ensures ok { OnOk result (IsReserved need self.old self.new) }
        ensures err { OnErr result (HasMoreRoom self.old self.new) }
    {
        if need == 0 {
            return Ok(());
        }
        if self.log.reserve(need).is_err() {
            return Err(NoMemory);
        }
        self.body.clear();
        if self.body.reserve(need as usize).is_err() {
            self.log.give_back(need);
            return Err(NoMemory);
        }
        Ok(())
    }

    /// What was reserved is given back. It takes no memory.
    pub fn return_record(&mut self, need: u64)
        requires log { need ≤ self.old.log.reserved }
        requires body { need ≤ self.old.body.room + length self.old.body.bytes }
        ensures { self.new ≡ returned need self.old }
    {
        self.log.give_back(need);
        self.body.clear();
        self.body.give_back(need as usize);
    }

    /// What a put takes of the log in the unit of a connection.
    pub fn unit_put_need(&self, number: u64, message: &Message) -> u64
        requires there { IsSome (connection_at number self.now.desk.live) }
        requires short { is_persistent message.now ≡ true → length message.now.body < 2 ^ 32 }
        ensures some { is_persistent message.now ≡ true → IfSome (connection_at number self.now.desk.live) (λ c. result ≡ more_need c.unit (put_bytes message.now)) }
        ensures none { is_persistent message.now ≡ false → result ≡ 0 }
    {
        if message.md.persistence != 1 {
            return 0;
        }
        match self.live.get(number) {
            None => unreachable!(),
            Some(seat) => seat.unit().more_need(put_bytes(message)),
        }
    }

    /// A put waits in the unit of a connection until its end.
    pub fn pend_put(
        &mut self,
        number: u64,
        queue: &QName,
        message: Message,
        need: u64,
    ) -> Result<(), NoMemory>
        requires live { self.old.log.live ≡ true }
        requires idents { self.old.idents + 1 < 2 ^ 64 }
        requires need { IfSome (connection_at number self.old.desk.live) (λ c. unit_need (c.unit ++ Put queue.now message ∷ []) < 2 ^ 64) }
        ensures ok { OnOk result (IsPended number queue.now message need self.old self.new) }
        ensures err { OnErr result (HasMoreRoom self.old self.new) }
    {
        match self.reserve_record(need) {
            Ok(()) => {}
            Err(NoMemory) => return Err(NoMemory),
        }
        match self.queues.expect(queue) {
            Ok(()) => {}
            Err(_) => {
                self.return_record(need);
                return Err(NoMemory);
            }
        }
        match self.live.pend(
            number,
            Item::Put {
                queue: *queue,
                message,
            },
        ) {
            Ok(()) => {}
            Err(NoMemory) => {
                self.queues.unpend(queue);
                self.return_record(need);
                return Err(NoMemory);
            }
        }
        self.idents += 1;
        Ok(())
    }
}
