//! Connections and handles of a manager's parts.
ghost use Rattle.std.specs.Prelude.{◌≡◌, ◌==◌, ◌+◌, ◌++◌, ◌∷◌, [], ◌^◌, ◌<◌, OnOk, OnErr, IfOk, IfSome, IsSome, ◌||◌, ◌&&◌, nat_le, length, Ok, Err};
ghost use Rattle.mq_calls.specs.Words.{connection_at, change_connection};
ghost use Rattle.mq_spec_manager.specs.Words.{new_hconn, new_connection, new_handle, is_unfit, is_in_use, is_nothing, reads};
ghost use Rattle.mq_trigger.specs.from_handles.Seats.{opened, closed};
ghost use Rattle.mq_core.specs.Views.{plain_of};
ghost use Rattle.mq_core.specs.Ties.{IsSeated};
ghost use Rattle.mq_core.specs.Calls.{Opens, Closes};

use crate::checks::is_input;
use crate::parts::Parts;
use mq_base::{NoMemory, QName};
use mq_calls::below::{Route, RouteEnd, resolve};
use mq_calls::{Appl, Hconn, Hobj, Open};
use mq_codes::Reason;
use mq_disk::Disk;
use mq_trigger::below::Seat;

fn is_nothing(how: &Open) -> bool
    ensures { result ≡ is_nothing how.now }
{
    !is_input(&how.input) && !how.browse && !how.output
}

fn is_read(how: &Open) -> bool
    ensures { result ≡ reads how.now }
{
    is_input(&how.input) || how.browse
}

impl<D: Disk> Parts<D> {
    /// A new connection.
    pub fn connect(&mut self, appl: &Appl) -> Result<Hconn, NoMemory>
        requires count { self.old.desk.last + 1 < 2 ^ 64 }
        ensures hconn { IfOk result (λ hc. hc ≡ new_hconn (plain_of self.old)) }
        ensures ok { OnOk result (self.new ≡ record self.old { desk = record { live = self.old.desk.live ++ new_connection appl.now (plain_of self.old) ∷ []; last = self.old.desk.last + 1 } }) }
        ensures err { OnErr result (self.new ≡ self.old) }
        ensures seated { IsSeated self.old self.new }
    {
        match self.live.connect(self.alloc, appl) {
            Ok(number) => Ok(Hconn {
                manager: self.number,
                incarnation: self.incarnation,
                number,
            }),
            Err(NoMemory) => Err(NoMemory),
        }
    }

    fn leads_nowhere_fit(&self, how: &Open, end: &RouteEnd) -> bool
        ensures { result ≡ is_unfit how.now end.now (plain_of self.now) }
    {
        match end {
            RouteEnd::Local(queue) => how.output && self.is_transmission_queue(queue),
            RouteEnd::Via { .. } => is_read(how),
        }
    }

    /// Who has the queue open stands in the way.
    fn is_in_use(&self, how: &Open, end: &RouteEnd) -> bool
        ensures { result ≡ is_in_use how.now end.now (plain_of self.now) }
    {
        match end {
            RouteEnd::Local(queue) => self.is_shut(&how.input, queue)
                || self.is_sending(&how.input, queue),
            RouteEnd::Via { .. } => false,
        }
    }

    fn has_no_handle(&self, seat: &Seat) -> bool
        ensures { result ≡ nat_le (plain_of self.now).definitions.manager.max_handles (length seat.now.handles) }
    {
        self.defs.manager().max_handles as usize <= seat.handle_count()
    }

    /// The refusals of MQOPEN in their order; else where the name leads.
    pub fn can_open(
        &self,
        hc: &Hconn,
        name: &QName,
        qmgr: &QName,
        how: &Open,
    ) -> Result<Route, Reason>
        ensures { Opens hc.now name.now qmgr.now how.now (plain_of self.now) result }
    {
        let seat = match self.connected(hc) {
            Ok(seat) => seat,
            Err(reason) => return Err(reason),
        };
        if is_nothing(how) {
            return Err(Reason::OptionsError);
        }
        let route = match resolve(&self.defs, &self.name, name, qmgr) {
            Ok(route) => route,
            Err(reason) => return Err(reason),
        };
        if self.leads_nowhere_fit(how, &route.end) {
            return Err(Reason::OptionNotValidForType);
        }
        if self.is_in_use(how, &route.end) {
            return Err(Reason::ObjectInUse);
        }
        if self.has_no_handle(seat) {
            return Err(Reason::HandleNotAvailable);
        }
        Ok(route)
    }

    /// A new handle of a connection.
    pub fn open(&mut self, number: u64, how: &Open, route: Route) -> Result<Hobj, NoMemory>
        requires live { IsSome (connection_at number self.old.desk.live) }
        requires count { IfSome (connection_at number self.old.desk.live) (λ c. c.last_handle + 1 < 2 ^ 64) }
        ensures number { IfOk result (λ ho. IfSome (connection_at number self.old.desk.live) (λ c. ho.number ≡ c.last_handle + 1)) }
        ensures ok { OnOk result (IfSome (connection_at number self.old.desk.live) (λ c. self.new ≡ record self.old { desk = record { live = change_connection number (opened (new_handle how.now route c)) self.old.desk.live; last = self.old.desk.last } })) }
        ensures err { OnErr result (self.new ≡ self.old) }
        ensures seated { IsSeated self.old self.new }
    {
        match self.live.open(number, how, route) {
            Ok(number) => Ok(Hobj { number }),
            Err(NoMemory) => Err(NoMemory),
        }
    }

    /// The refusals of MQCLOSE in their order.
    pub fn can_close(&self, hc: &Hconn, ho: &Hobj) -> Result<(), Reason>
        ensures { Closes hc.now ho.now (plain_of self.now) result }
    {
        let seat = match self.connected(hc) {
            Ok(seat) => seat,
            Err(reason) => return Err(reason),
        };
        match seat.handle(ho.number) {
            None => Err(Reason::ObjectHandleError),
            Some(_) => Ok(()),
        }
    }

    /// A handle of a connection goes.
    pub fn close(&mut self, number: u64, ho: &Hobj)
        ensures parts { self.new ≡ record self.old { desk = record { live = change_connection number (closed ho.now.number) self.old.desk.live; last = self.old.desk.last } } }
        ensures seated { IsSeated self.old self.new }
    {
        self.live.close(number, ho.number);
    }
}
