//! What calls read of a manager's parts: the connection check, and who uses a queue.
ghost use Rattle.std.specs.Prelude.{◌≡◌, ◌+◌, ◌^◌, ◌<◌, Ok, Err, not, MatchResult, ◌||◌, ◌&&◌, nat_le, length, true};
ghost use Rattle.mq_calls.specs.Words.{is_input, is_up, read_by_sender, has_held, local_of, depth, is_full};
ghost use Rattle.mq_spec_manager.specs.Words.{is_other, is_present, is_other_name, is_shut, is_sending, is_transmission_queue, is_unfit, next_ident, output_only, sync_full};
ghost use Rattle.mq_core.specs.Views.{plain_of};
ghost use Rattle.mq_core.specs.Ties.{Tied};
ghost use Rattle.mq_core.specs.Calls.{Reaches, Goes};

use crate::parts::{Mode, Parts};
use mq_base::QName;
use mq_calls::below::{RouteEnd, Usage};
use mq_calls::{Hconn, Input};
use mq_codes::Reason;
use mq_disk::Disk;
use mq_message::Ident;
use mq_trigger::below::Seat;

/// Whether an MQOPEN asks for input.
pub fn is_input(input: &Input) -> bool
    ensures { result ≡ is_input input.now }
{
    match input {
        Input::No => false,
        Input::Shared => true,
        Input::Exclusive => true,
    }
}

/// Whether the unit of a connection has as many messages as it may (MAXUMSGS).
pub fn is_sync_full<D: Disk>(parts: &Parts<D>, sync: bool, seat: &Seat) -> bool
    ensures { result ≡ sync_full sync seat.now (plain_of parts.now) }
{
    sync && parts.defs.manager().max_uncommitted as usize <= seat.unit().len()
}

/// Whether a route ends at a transmission queue that is named as an ordinary one.
pub fn is_unfit_output<D: Disk>(parts: &Parts<D>, end: &RouteEnd) -> bool
    ensures { result ≡ is_unfit output_only end.now (plain_of parts.now) }
{
    match end {
        RouteEnd::Local(queue) => parts.is_transmission_queue(queue),
        RouteEnd::Via { .. } => false,
    }
}

impl<D: Disk> Parts<D> {
    /// Whether the manager is up.
    pub fn is_up(&self) -> bool
        ensures { result ≡ is_up (plain_of self.now).running }
    {
        match self.mode {
            Mode::Up => true,
            Mode::Down { .. } => false,
        }
    }

    /// The name is neither blank nor the manager's own.
    pub fn is_other_name(&self, qmgr: &QName) -> bool
        ensures { result ≡ is_other_name qmgr.now (plain_of self.now) }
    {
        if qmgr.is_blank() {
            false
        } else {
            !(*qmgr == self.name)
        }
    }

    fn is_other(&self, hc: &Hconn) -> bool
        ensures { result ≡ is_other hc.now (plain_of self.now) }
    {
        hc.manager == 0 || hc.manager != self.number
    }

    fn is_present(&self, hc: &Hconn) -> bool
        ensures { result ≡ is_present hc.now (plain_of self.now) }
    {
        self.is_up() && hc.incarnation == self.incarnation
    }

    /// The connection check: 2018 and 2009.
    pub fn connected(&self, hc: &Hconn) -> Result<&Seat, Reason>
        ensures { MatchResult result (λ seat. Reaches hc.now (plain_of self.now) (Ok seat.now)) (λ reason. Reaches hc.now (plain_of self.now) (Err reason)) }
    {
        if self.is_other(hc) {
            return Err(Reason::ConnectionHandleError);
        }
        if !self.is_present(hc) {
            return Err(Reason::ConnectionBroken);
        }
        match self.live.get(hc.number) {
            None => Err(Reason::ConnectionHandleError),
            Some(seat) => Ok(seat),
        }
    }

    /// The connection check of a call that goes on by the connection's number.
    pub fn reached(&self, hc: &Hconn) -> Result<(), Reason>
        ensures { Goes hc.now (plain_of self.now) result }
    {
        match self.connected(hc) {
            Ok(_) => Ok(()),
            Err(reason) => Err(reason),
        }
    }

    /// The name is that of a local queue of USAGE(XMITQ).
    pub fn is_transmission_queue(&self, queue: &QName) -> bool
        ensures { result ≡ is_transmission_queue (local_of queue.now (plain_of self.now).definitions) }
    {
        match self.defs.local(queue) {
            None => false,
            Some(local) => local.usage == Usage::Transmission,
        }
    }

    /// A sender channel that runs reads the queue.
    pub fn is_read_by_sender(&self, queue: &QName) -> bool
        ensures { result ≡ read_by_sender queue.now (plain_of self.now) }
    {
        self.ends
            .seizures
            .as_slice()
            .iter()
            .any(|seizure| seizure.queue.text() == queue.text())
    }

    fn has_held(&self, queue: &QName) -> bool
        ensures { result ≡ has_held queue.now (plain_of self.now) }
    {
        self.queues.has_held(queue)
    }

    /// Who has the queue open for input keeps this input out.
    pub fn is_shut(&self, input: &Input, queue: &QName) -> bool
        ensures { result ≡ is_shut input.now queue.now (plain_of self.now) }
    {
        match input {
            Input::No => false,
            Input::Shared => self.live.is_exclusive(queue),
            Input::Exclusive => self.live.is_read(queue) || self.is_read_by_sender(queue),
        }
    }

    /// Input from a transmission queue that a channel reads, or on which rows are held.
    pub fn is_sending(&self, input: &Input, queue: &QName) -> bool
        ensures { result ≡ is_sending input.now queue.now (plain_of self.now) }
    {
        is_input(input)
            && self.is_transmission_queue(queue)
            && (self.is_read_by_sender(queue) || self.has_held(queue))
    }

    /// CURDEPTH: free rows and uncommitted puts of a queue.
    pub fn depth(&self, queue: &QName) -> u64
        requires tied { Tied self.now }
        ensures { result ≡ depth queue.now (plain_of self.now) }
    {
        self.queues.depth(queue)
    }

    /// The log lacks room for so many bytes more; no bytes always fit.
    pub fn is_full(&self, bytes: u64) -> bool
        requires tied { Tied self.now }
        requires up { is_up (plain_of self.now).running ≡ true }
        ensures { result ≡ is_full bytes (plain_of self.now) }
    {
        bytes > 0 && !self.log.fits(bytes)
    }

    /// The ident of the next message that is put here.
    pub fn next_ident(&self) -> Ident
        requires { self.now.idents + 1 < 2 ^ 64 }
        ensures { result ≡ next_ident (plain_of self.now) }
    {
        Ident {
            manager: self.number,
            incarnation: self.incarnation,
            number: self.idents + 1,
        }
    }
}
