//! What each kind of record does, where it may.
ghost use Rattle.std.specs.Prelude.{◌≡◌, ◌&&◌, max, nat_lt, IfOk, Some};
ghost use Rattle.mq_calls.specs.declared.records.LogRecord.TheVariants as records;
ghost use Rattle.mq_sync.specs.declared.data.End.TheVariants as ends;
ghost use Rattle.mq_sync.specs.Settlement.{data_settled, settle_by};
ghost use Rattle.mq_recover_read.specs.from_spec_log.Applies.{suits, applies, can_change, can_prepare, can_receive, can_number, can_add_all, can_remove_all, is_unit, is_above, is_unit_in_doubt};
ghost use Rattle.mq_recover_read.specs.from_spec_log.Records.{doing, settled_rows, set_number};
ghost use Rattle.mq_recover_read.specs.from_spec_log.Shelves.{sender_at, receiver_at, with_sender, added, removed, added_all, removed_all};
ghost use Rattle.mq_recover.specs.Recovering.{seen, Does, can_move};
ghost use Rattle.mq_recover.specs.Found.{start_in, given_as};

use crate::bounds::{is_in_bounds, were_given};
use crate::objects::{can_change, change_shelves};
use crate::recovering::Recovering;
use crate::start::Start;
use mq_base::{ChName, Items, NoMemory, QName};
use mq_calls::{Add, LogRecord, Remove};
use mq_message::Ident;
use mq_objects::ObjectChange;
use mq_shelves::are_distinct;
use mq_sync::{End, InDoubt, ReceiverData, Unit};
use std::alloc::Global;

fn is_unit(unit: Unit) -> bool
    ensures { result ≡ is_unit unit }
{
    0 < unit.session && 0 < unit.n
}

fn is_above(a: Unit, b: Unit) -> bool
    ensures { result ≡ is_above a b }
{
    b.session < a.session || (a.session == b.session && b.n < a.n)
}

fn can_receive(unit: Unit, data: &ReceiverData) -> bool
    ensures { result ≡ can_receive unit data.now }
{
    is_unit(unit)
        && unit.session == data.session
        && !data.closed
        && 0 < data.session
        && is_above(unit, data.unit)
}

impl Recovering {
    fn start(&mut self, incarnation: u64)
        ensures { seen self.new ≡ record (seen self.old) { incarnation = max self.old.incarnation incarnation } }
    {
        self.incarnation = self.incarnation.max(incarnation);
    }

    fn change(&mut self, alloc: Global, change: ObjectChange) -> Result<bool, NoMemory>
        ensures { IfOk result (λ done. Does (can_change change self.old.defs.definitions self.old.shelves) (doing (records.Objects change) (seen self.old)) done (seen self.new)) }
    {
        if !can_change(&self.defs, &change, &self.shelves) {
            return Ok(false);
        }
        change_shelves(alloc, &self.defs, &mut self.shelves, &change)?;
        self.defs.reserve()?;
        self.defs.change(change);
        Ok(true)
    }
}

// Records of channels.
impl Recovering {
    fn begin_session(
        &mut self,
        channel: ChName,
        partner: QName,
        session: u64,
    ) -> Result<bool, NoMemory>
        ensures { IfOk result (λ done. Does (nat_lt (sender_at channel (seen self.old)).session session) (doing (records.Session channel partner session) (seen self.old)) done (seen self.new)) }
    {
        if self.session_of(&channel) >= session {
            return Ok(false);
        }
        self.begin(channel, partner, session)?;
        Ok(true)
    }

    fn can_prepare(
        &self,
        alloc: Global,
        channel: &ChName,
        unit: Unit,
        queue: &QName,
        idents: &[Ident],
    ) -> Result<bool, NoMemory>
        ensures { IfOk result (λ can. can ≡ can_prepare unit queue.now idents.now (sender_at channel.now (seen self.now)) self.now.shelves) }
    {
        if !is_unit(unit) || self.is_in_doubt(channel) || unit.session > self.session_of(channel) {
            return Ok(false);
        }
        if !are_distinct(alloc, idents)? {
            return Ok(false);
        }
        Ok(!self.shelves.holds_any(idents) && !self.shelves.stand_elsewhere(queue, idents))
    }

    fn prepare(&mut self, alloc: Global, channel: ChName, doubt: InDoubt) -> Result<bool, NoMemory>
        ensures { IfOk result (λ done. Does (can_prepare doubt.unit doubt.queue doubt.idents (sender_at channel (seen self.old)) self.old.shelves) (doing (records.Prepared channel doubt.unit doubt.last doubt.queue doubt.idents) (seen self.old)) done (seen self.new)) }
    {
        let idents = doubt.idents.as_slice();
        if !self.can_prepare(alloc, &channel, doubt.unit, &doubt.queue, idents)? {
            return Ok(false);
        }
        self.shelves.hold(alloc, &doubt.queue, idents, &channel)?;
        self.doubt(channel, doubt)?;
        Ok(true)
    }

    fn settle_rows(&mut self, channel: &ChName, commit: bool)
        ensures { seen self.new ≡ settled_rows commit channel.now (seen self.old) }
    {
        if commit {
            self.shelves.commit(channel);
        } else {
            self.shelves.back_out(channel);
        }
    }

    fn resolve(&mut self, channel: ChName, unit: Unit, commit: bool) -> Result<bool, NoMemory>
        ensures { IfOk result (λ done. Does (is_unit_in_doubt unit (sender_at channel (seen self.old)).in_doubt) (with_sender channel (data_settled (Some (settle_by commit)) (sender_at channel (seen self.old))) (settled_rows commit channel (seen self.old))) done (seen self.new)) }
    {
        if !self.is_unit_in_doubt(&channel, unit) {
            return Ok(false);
        }
        self.settle_rows(&channel, commit);
        self.settle(channel, commit)?;
        Ok(true)
    }

    fn bind(
        &mut self,
        channel: ChName,
        partner: QName,
        session: u64,
        last: u32,
    ) -> Result<bool, NoMemory>
        ensures { IfOk result (λ done. Does (nat_lt (receiver_at channel (seen self.old)).session session) (doing (records.Bound channel partner session last) (seen self.old)) done (seen self.new)) }
    {
        let data = self.receiver_at(&channel);
        if data.session >= session {
            return Ok(false);
        }
        let data = ReceiverData {
            partner,
            session,
            closed: false,
            unit: data.unit,
            last,
        };
        self.set_receiver(channel, data)?;
        Ok(true)
    }

    fn close(&mut self, channel: ChName, session: u64) -> Result<bool, NoMemory>
        ensures { IfOk result (λ done. Does (nat_lt 0 session) (doing (records.Closed channel session) (seen self.old)) done (seen self.new)) }
    {
        if session == 0 {
            return Ok(false);
        }
        let mut data = self.receiver_at(&channel);
        data.closed = data.closed || session == data.session;
        self.set_receiver(channel, data)?;
        Ok(true)
    }

    fn receive(
        &mut self,
        alloc: Global,
        channel: ChName,
        unit: Unit,
        last: u32,
        adds: Items<Add>,
    ) -> Result<bool, NoMemory>
        ensures { IfOk result (λ done. Does (can_receive unit (receiver_at channel (seen self.old)) && can_add_all adds (seen self.old)) (doing (records.Received channel unit last adds) (seen self.old)) done (seen self.new)) }
    {
        let data = self.receiver_at(&channel);
        if !can_receive(unit, &data) {
            return Ok(false);
        }
        if !self.add_all(alloc, adds)? {
            return Ok(false);
        }
        let mut data = self.receiver_at(&channel);
        data.unit = unit;
        data.last = last;
        self.set_receiver(channel, data)?;
        Ok(true)
    }

    fn number_sender(&mut self, channel: ChName, last: u32) -> Result<bool, NoMemory>
        ensures { IfOk result (λ done. Does (can_number ends.Sender (sender_at channel (seen self.old))) (set_number ends.Sender last channel (seen self.old)) done (seen self.new)) }
    {
        if self.is_in_doubt(&channel) {
            return Ok(false);
        }
        self.number(channel, last)?;
        Ok(true)
    }

    fn number_receiver(&mut self, channel: ChName, last: u32) -> Result<bool, NoMemory>
        ensures { IfOk result (λ done. Does (can_number ends.Receiver (sender_at channel (seen self.old))) (set_number ends.Receiver last channel (seen self.old)) done (seen self.new)) }
    {
        let mut data = self.receiver_at(&channel);
        data.last = last;
        self.set_receiver(channel, data)?;
        Ok(true)
    }

    fn number_end(&mut self, channel: ChName, end: End, last: u32) -> Result<bool, NoMemory>
        ensures { IfOk result (λ done. Does (can_number end (sender_at channel (seen self.old))) (set_number end last channel (seen self.old)) done (seen self.new)) }
    {
        match end {
            End::Sender => self.number_sender(channel, last),
            End::Receiver => self.number_receiver(channel, last),
        }
    }
}

// Records of messages.
impl Recovering {
    fn end_unit(
        &mut self,
        alloc: Global,
        adds: Items<Add>,
        removes: &[Remove],
    ) -> Result<bool, NoMemory>
        ensures { IfOk result (λ done. Does (can_remove_all removes.now (seen self.old) && can_add_all adds (removed_all removes.now (seen self.old))) (added_all adds (removed_all removes.now (seen self.old))) done (seen self.new)) }
    {
        if !self.remove_all(removes) {
            return Ok(false);
        }
        self.add_all(alloc, adds)
    }

    fn relocate(
        &mut self,
        alloc: Global,
        from: QName,
        ident: Ident,
        add: Add,
    ) -> Result<bool, NoMemory>
        ensures { IfOk result (λ done. Does (can_move from ident add (seen self.old)) (added add (removed (record { queue = from; ident = ident }) (seen self.old))) done (seen self.new)) }
    {
        if !(ident == add.message.ident) {
            return Ok(false);
        }
        if !self.remove(&Remove { queue: from, ident }) {
            return Ok(false);
        }
        self.add(alloc, add)
    }
}

// Records.
impl Recovering {
    fn enact(
        &mut self,
        alloc: Global,
        manager: u8,
        name: &QName,
        logged: LogRecord,
    ) -> Result<bool, NoMemory>
        ensures { IfOk result (λ done. Does (suits (given_as manager name.now) logged (seen self.old)) (doing logged (seen self.old)) done (seen self.new)) }
    {
        match logged {
            LogRecord::Started {
                manager: of,
                name: called,
                incarnation,
            } => {
                if !(of == manager && called == *name) {
                    return Ok(false);
                }
                self.start(incarnation);
                Ok(true)
            }
            LogRecord::Objects { change } => self.change(alloc, change),
            LogRecord::Unit { adds, removes } => self.end_unit(alloc, adds, removes.as_slice()),
            LogRecord::Session {
                channel,
                partner,
                session,
            } => self.begin_session(channel, partner, session),
            LogRecord::Prepared {
                channel,
                unit,
                last,
                queue,
                idents,
            } => {
                let doubt = InDoubt {
                    unit,
                    queue,
                    idents,
                    last,
                };
                self.prepare(alloc, channel, doubt)
            }
            LogRecord::Resolved {
                channel,
                unit,
                commit,
                ..
            } => self.resolve(channel, unit, commit),
            LogRecord::Bound {
                channel,
                partner,
                session,
                last,
            } => self.bind(channel, partner, session, last),
            LogRecord::Closed { channel, session } => self.close(channel, session),
            LogRecord::Received {
                channel,
                unit,
                last,
                adds,
            } => self.receive(alloc, channel, unit, last, adds),
            LogRecord::SeqSet { channel, end, last } => self.number_end(channel, end, last),
            LogRecord::Moved {
                from,
                ident,
                to,
                message,
            } => self.relocate(alloc, from, ident, Add { queue: to, message }),
        }
    }

    /// Does what a record says, where it applies.
    pub fn follow(
        &mut self,
        alloc: Global,
        manager: u8,
        name: &QName,
        start: Start,
        logged: LogRecord,
    ) -> Result<bool, NoMemory>
        ensures { IfOk result (λ done. Does (applies (given_as manager name.now) (start_in start) logged (seen self.old)) (doing logged (seen self.old)) done (seen self.new)) }
    {
        if !is_in_bounds(start, &logged) {
            return Ok(false);
        }
        if !were_given(manager, self.incarnation, &logged) {
            return Ok(false);
        }
        self.enact(alloc, manager, name, logged)
    }
}
