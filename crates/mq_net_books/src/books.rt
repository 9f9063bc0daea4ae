//! The ledger as it stands after some entries: places and users by manager, what is gone and what was got.
ghost use Rattle.std.specs.Prelude.{◌≡◌, ◌≤◌, ◌<◌, ◌++◌, ◌∷◌, [], None, Some, IfOk, OnOk, IfSome, option_copied, option_map, reverse, is_some, ◌+◌, ◌==◌, not, min, filter, map};
ghost use Rattle.std.specs.List.{list_any};
ghost use Rattle.mq_calls.specs.declared.state.Connection.{Connection};
ghost use Rattle.mq_queue.specs.Rows.{same_ident, is_persistent};
ghost use Rattle.mq_history.specs.declared.calls.Entry.{Entry};
ghost use Rattle.mq_spec_manager.specs.Stops.{last_moment};
ghost use Rattle.mq_spec_manager.specs.Put.{message_put};
ghost use Rattle.mq_spec_manager.specs.Commands.{definitions_after};
ghost use Rattle.mq_calls.specs.Reads.{connection_at};
ghost use Rattle.mq_calls.specs.Changes.{change_connection};
ghost use Rattle.mq_queue.specs.declared.row.Row.{Row};
ghost use Rattle.mq_history.specs.declared.story.ManagerPlaces.{ManagerPlaces};
ghost use Rattle.mq_objects.specs.Names.{local_of, process_of};
ghost use Rattle.mq_spec_network.specs.Ledger.{Users, row_in, place, take_from, take, take_got, lose, connection_of, connect, disconnect, resolved_at, opened_by, close, on_connection, pend, unit_of, back_out, row_at, placed_idents, take_everywhere, places_at, users_at, here_at, with_places, with_users, at_moment, is_admitted, is_placed_at, is_one_of, leave_queues};

use crate::accounts::Account;
use crate::caller::Caller;
use crate::callers;
use crate::gone::Gone;
use mq_base::{Items, NoMemory, QName};
use mq_calls::{Appl, Hconn, Hobj, Item, Open};
use mq_codes::Reason;
use mq_history::Entry;
use mq_message::{Bytes, Ident, Md, Message};
use mq_objects::{Command, LocalQueue, Process};
use mq_queue::{Row, is_persistent};
use mq_resolve::{PathStep, Route, RouteEnd};
use std::alloc::Global;
use std::marker::Model;

/// The last moment that a clock shows, in milliseconds since 1970.
const LAST_MOMENT: u64 = 253_402_300_799_999;

/// A call whose write was stopped, and the moment at which it was made.
#[derive(Clone, Copy)]
pub struct Halted<'a> {
    /// Its entry.
    pub entry: &'a Entry,
    /// In milliseconds since 1970.
    pub moment: u64,
}

/// What is told of a manager beside its places.
#[derive(Drop)]
pub struct User<'a> {
    moment: u64,
    connections: Items<Caller>,
    cut: Option<Halted<'a>>,
}

impl<'a> Model for User<'a> {
    ghost use Rattle.std.specs.Prelude.{◌≤◌, IfSome, option_map};
    ghost use Rattle.mq_spec_manager.specs.Stops.{last_moment};
    ghost use Rattle.mq_spec_network.specs.Ledger.{Users};

    ghost Value = { Users };

    ghost view = { λ u. record { moment = u.moment; connections = u.connections; cut = option_map (λ h. record { entry = h.entry.now; moment = h.moment }) u.cut } };

    ghost invariant = { λ u. (u.moment ≤ last_moment) × IfSome u.cut (λ h. h.moment ≤ last_moment) };
}

impl<'a> User<'a> {
    /// Nobody is connected yet.
    pub fn new(alloc: Global, moment: u64) -> User<'a>
        requires { moment ≤ last_moment }
        ensures { result ≡ record { moment = moment; connections = []; cut = None } }
    {
        User {
            moment,
            connections: Items::new(alloc),
            cut: None,
        }
    }

    fn connect(&mut self, alloc: Global, hc: &Hconn, appl: &Appl) -> Result<(), NoMemory>
        ensures { OnOk result (self.new ≡ record self.old { connections = self.old.connections ++ record { number = hc.now.number; appl = appl.now; handles = []; last_handle = 0; unit = [] } ∷ [] }) }
    {
        callers::connect(alloc, &mut self.connections, hc, appl)
    }

    fn disconnect(&mut self, alloc: Global, hc: &Hconn)
        ensures { self.new ≡ record self.old { connections = filter (λ (c : Connection). not (c.number == hc.now.number)) self.old.connections } }
    {
        callers::disconnect(alloc, &mut self.connections, hc);
    }

    fn open(&mut self, hc: &Hconn, how: &Open, ho: &Hobj, route: Route) -> Result<(), NoMemory>
        ensures { OnOk result (self.new ≡ record self.old { connections = change_connection hc.now.number (opened_by how.now ho.now route) self.old.connections }) }
    {
        callers::open(&mut self.connections, hc, how, ho, route)
    }

    fn close(&mut self, hc: &Hconn, ho: &Hobj)
        ensures { self.new ≡ record self.old { connections = change_connection hc.now.number (close ho.now) self.old.connections } }
    {
        callers::close(&mut self.connections, hc, ho);
    }

    fn pend(&mut self, hc: &Hconn, item: Item) -> Result<(), NoMemory>
        ensures { OnOk result (self.new ≡ record self.old { connections = change_connection hc.now.number (λ (c : Connection). record c { unit = c.unit ++ item ∷ [] }) self.old.connections }) }
    {
        callers::pend(&mut self.connections, hc, item)
    }

    fn end_unit(&mut self, alloc: Global, hc: &Hconn) -> Items<Item>
        ensures unit { result ≡ unit_of (connection_at hc.now.number self.old.connections) }
        ensures left { self.new ≡ record self.old { connections = change_connection hc.now.number (λ (c : Connection). record c { unit = [] }) self.old.connections } }
    {
        callers::end_unit(alloc, &mut self.connections, hc)
    }

    fn leave(&mut self)
        ensures { self.new ≡ record self.old { connections = [] } }
    {
        self.connections.clear();
    }

    fn set_moment(&mut self, moment: u64)
        requires { moment ≤ last_moment }
        ensures { self.new ≡ record self.old { moment = moment } }
    {
        self.moment = moment;
    }

    fn advance(&mut self, by: u64)
        ensures { self.new ≡ record self.old { moment = min (self.old.moment + by) last_moment } }
    {
        self.moment = later(self.moment, by);
    }

    fn halt(&mut self, entry: &'a Entry)
        ensures { self.new ≡ record self.old { cut = Some (record { entry = entry.now; moment = self.old.moment }) } }
    {
        self.cut = Some(Halted {
            entry,
            moment: self.moment,
        });
    }

    fn forget(&mut self)
        ensures { self.new ≡ record self.old { cut = None } }
    {
        self.cut = None;
    }
}

/// A moment so many milliseconds later, at most the last that a clock shows.
fn later(moment: u64, by: u64) -> u64
    requires { moment ≤ last_moment }
    ensures value { result ≡ min (moment + by) last_moment }
    ensures most { result ≤ last_moment }
{
    if by < LAST_MOMENT - moment {
        moment + by
    } else {
        LAST_MOMENT
    }
}

/// The ledger after some entries. Contracts see it as it is defined.
#[derive(Drop)]
pub struct Books<'a> {
    accounts: Items<Account>,
    users: Items<User<'a>>,
    // Each in the order in which they came.
    gone: Gone,
    got: Items<Ident>,
}

impl<'a> Model for Books<'a> {
    ghost use Rattle.std.specs.Prelude.{reverse};
    ghost use Rattle.mq_spec_network.specs.Ledger.{Ledger};

    ghost Value = { Ledger };

    ghost view = { λ b. record { places = b.accounts; users = b.users; gone = reverse b.gone; got = reverse b.got } };
}

impl<'a> Books<'a> {
    /// Nothing is gone and nothing was got.
    pub fn new(alloc: Global, accounts: Items<Account>, users: Items<User<'a>>) -> Books<'a>
        ensures { result ≡ record { places = accounts; users = users.entry; gone = []; got = [] } }
    {
        Books {
            accounts,
            users,
            gone: Gone::new(alloc),
            got: Items::new(alloc),
        }
    }

    /// What stands at each manager.
    pub fn into_accounts(self) -> Items<Account>
        ensures { result ≡ self.entry.places }
    {
        self.accounts
    }

    /// The moment of a manager.
    pub fn moment(&self, m: usize) -> u64
        ensures value { result ≡ (users_at m self.now).moment }
        ensures most { result ≤ last_moment }
    {
        match self.users.get(m) {
            None => 0,
            Some(user) => user.moment,
        }
    }

    /// The connection of a handle at a manager.
    pub fn connection(&self, m: usize, hc: &Hconn) -> Option<&Caller>
        ensures { option_copied result ≡ connection_of m hc.now self.now }
    {
        match self.users.get(m) {
            None => None,
            Some(user) => callers::connection_at(&user.connections, hc.number),
        }
    }

    /// Where a queue's name at a manager's name leads at a manager.
    pub fn resolved(
        &self,
        alloc: Global,
        m: usize,
        name: &QName,
        qmgr: &QName,
    ) -> Result<Route, Reason>
        ensures { result ≡ resolved_at m name.now qmgr.now self.now }
    {
        match self.accounts.get(m) {
            None => Account::nobody(alloc).resolve(name, qmgr),
            Some(account) => account.resolve(name, qmgr),
        }
    }

    /// A message as a call puts it at a manager.
    pub fn message_put(
        &self,
        alloc: Global,
        m: usize,
        ident: &Ident,
        appl: &Appl,
        end: &RouteEnd,
        path: &[PathStep],
        md: &Md,
        body: &Bytes,
    ) -> Result<Message, NoMemory>
        ensures { IfOk result (λ message. message ≡ message_put ident.now appl.now (record { end = end.now; path = path.now }) md.now body.now (here_at m self.now)) }
    {
        let moment = self.moment(m);
        match self.accounts.get(m) {
            None => Account::nobody(alloc).message_put(
                alloc, ident, appl, end, path, md, body, moment,
            ),
            Some(account) => account.message_put(alloc, ident, appl, end, path, md, body, moment),
        }
    }

    /// A message is placed on a queue of a manager.
    #[tactic(auto, using(crate::proofs::BookLaws::changed, crate::proofs::BookLaws::get_far))]
    pub fn place(&mut self, m: usize, name: &QName, message: Message) -> Result<(), NoMemory>
        ensures { OnOk result (self.new ≡ place m name.now message self.old) }
    {
        if m < self.accounts.len() {
            self.accounts.at_mut(m).place(name, message)
        } else {
            Ok(())
        }
    }

    /// No row of an ident stays at a manager.
    #[tactic(auto, using(crate::proofs::BookLaws::changed, crate::proofs::BookLaws::get_far))]
    pub fn take_from(&mut self, m: usize, ident: &Ident)
        ensures { self.new ≡ take_from m ident.now self.old }
    {
        if m < self.accounts.len() {
            self.accounts.at_mut(m).take(ident);
        }
    }

    /// Whether an ident has its place at a manager.
    fn is_placed(&self, m: usize, ident: &Ident) -> bool
        ensures { result ≡ is_placed_at ident.now (places_at m self.now) }
    {
        match self.accounts.get(m) {
            None => false,
            Some(account) => account.has(ident),
        }
    }

    /// An ident is taken away where its place is at a manager.
    #[tactic(auto, using(crate::proofs::BookLaws::reverse_more))]
    pub fn take(&mut self, m: usize, ident: &Ident) -> Result<(), NoMemory>
        ensures { OnOk result (self.new ≡ take m ident.now self.old) }
    {
        if self.is_placed(m, ident) {
            self.take_from(m, ident);
            self.gone.push(ident)?;
        }
        Ok(())
    }

    #[tactic(auto, using(crate::proofs::BookLaws::reverse_more))]
    fn note_got(&mut self, ident: &Ident) -> Result<(), NoMemory>
        ensures { OnOk result (self.new ≡ record self.old { got = ident.now ∷ self.old.got }) }
    {
        self.got.push(*ident)?;
        Ok(())
    }

    /// A committed get took an ident.
    pub fn take_got(&mut self, m: usize, ident: &Ident) -> Result<(), NoMemory>
        ensures { OnOk result (self.new ≡ take_got m ident.now self.old) }
    {
        self.note_got(ident)?;
        self.take(m, ident)
    }

    /// Nonpersistent rows of a manager go.
    #[tactic(auto, using(crate::proofs::BookLaws::changed, crate::proofs::BookLaws::get_far))]
    pub fn lose(&mut self, m: usize)
        ensures { self.new ≡ lose m self.old }
    {
        if m < self.accounts.len() {
            self.accounts.at_mut(m).lose();
        }
    }

    /// A command on objects changes the definitions of a manager.
    #[tactic(auto, using(crate::proofs::BookLaws::changed, crate::proofs::BookLaws::get_far))]
    pub fn obey_objects(
        &mut self,
        alloc: Global,
        m: usize,
        command: &Command,
    ) -> Result<(), NoMemory>
        ensures { OnOk result (self.new ≡ with_places m (λ p. record p { definitions = definitions_after command.now p.definitions }) self.old) }
    {
        if m < self.accounts.len() {
            self.accounts.at_mut(m).obey(alloc, command)
        } else {
            Ok(())
        }
    }

    /// The first row of an ident at a manager.
    pub fn row_of(&self, m: usize, ident: &Ident) -> Option<&Row>
        ensures { option_copied result ≡ row_in ident.now (places_at m self.now).queues }
    {
        match self.accounts.get(m) {
            None => None,
            Some(account) => account.row(ident),
        }
    }

    /// The local queue of a name at a manager.
    pub fn local(&self, m: usize, name: &QName) -> Option<&LocalQueue>
        ensures { option_copied result ≡ local_of name.now (places_at m self.now).definitions }
    {
        match self.accounts.get(m) {
            None => None,
            Some(account) => account.local(name),
        }
    }

    /// The process of a name at a manager.
    pub fn process(&self, m: usize, name: &QName) -> Option<&Process>
        ensures { option_copied result ≡ process_of name.now (places_at m self.now).definitions }
    {
        match self.accounts.get(m) {
            None => None,
            Some(account) => account.process(name),
        }
    }

    /// The queue of dead letters of a manager, blank for none.
    pub fn dead_letter_queue(&self, m: usize) -> QName
        ensures { result ≡ (places_at m self.now).definitions.manager.dead_letter_queue }
    {
        match self.accounts.get(m) {
            None => QName::blank(),
            Some(account) => account.dead_letter_queue(),
        }
    }

    /// The first row of an ident, at whatever manager.
    pub fn row_at(&self, ident: &Ident) -> Option<&Row>
        ensures { option_copied result ≡ row_at ident.now self.now.places }
    {
        row_at(self.accounts.as_slice(), ident)
    }

    /// Whether an ident has its place somewhere.
    #[tactic(auto, using(crate::proofs::BookLaws::placed_somewhere))]
    fn is_somewhere(&self, ident: &Ident) -> bool
        ensures { result ≡ list_any (same_ident ident.now) (placed_idents self.now) }
    {
        is_at(self.accounts.as_slice(), ident)
    }

    /// Whether an ident was taken.
    #[tactic(auto, using(crate::proofs::BookLaws::any_back))]
    fn is_gone(&self, ident: &Ident) -> bool
        ensures { result ≡ list_any (same_ident ident.now) self.now.gone }
    {
        self.gone.has(ident)
    }

    /// Whether a message that came had a place, or is nonpersistent and was not taken.
    pub fn is_admitted(&self, message: &Message) -> bool
        ensures { result ≡ is_admitted self.now message.now }
    {
        self.is_somewhere(&message.ident)
            || (!is_persistent(message) && !self.is_gone(&message.ident))
    }

    /// Idents are taken from the places that they have, at whatever manager.
    pub fn take_everywhere(&mut self, idents: &[Ident])
        ensures { self.new ≡ take_everywhere idents.now self.old }
    {
        take_everywhere(&mut self.accounts, idents);
    }

    /// Connections of a manager.
    #[tactic(auto, using(crate::proofs::BookLaws::changed, crate::proofs::BookLaws::get_far))]
    pub fn connect(
        &mut self,
        alloc: Global,
        m: usize,
        hc: &Hconn,
        appl: &Appl,
    ) -> Result<(), NoMemory>
        ensures { OnOk result (self.new ≡ connect m hc.now appl.now self.old) }
    {
        if m < self.users.len() {
            self.users.at_mut(m).connect(alloc, hc, appl)
        } else {
            Ok(())
        }
    }

    /// A connection goes.
    #[tactic(auto, using(crate::proofs::BookLaws::changed, crate::proofs::BookLaws::get_far))]
    pub fn disconnect(&mut self, alloc: Global, m: usize, hc: &Hconn)
        ensures { self.new ≡ disconnect m hc.now self.old }
    {
        if m < self.users.len() {
            self.users.at_mut(m).disconnect(alloc, hc);
        }
    }

    /// A handle more of a connection, which leads by a route.
    #[tactic(auto, using(crate::proofs::BookLaws::changed, crate::proofs::BookLaws::get_far))]
    pub fn open(
        &mut self,
        m: usize,
        hc: &Hconn,
        how: &Open,
        ho: &Hobj,
        route: Route,
    ) -> Result<(), NoMemory>
        ensures { OnOk result (self.new ≡ on_connection m hc.now (opened_by how.now ho.now route) self.old) }
    {
        if m < self.users.len() {
            self.users.at_mut(m).open(hc, how, ho, route)
        } else {
            Ok(())
        }
    }

    /// A handle of a connection goes.
    #[tactic(auto, using(crate::proofs::BookLaws::changed, crate::proofs::BookLaws::get_far))]
    pub fn close(&mut self, m: usize, hc: &Hconn, ho: &Hobj)
        ensures { self.new ≡ on_connection m hc.now (close ho.now) self.old }
    {
        if m < self.users.len() {
            self.users.at_mut(m).close(hc, ho);
        }
    }

    /// An item joins the unit of a connection.
    #[tactic(auto, using(crate::proofs::BookLaws::changed, crate::proofs::BookLaws::get_far))]
    pub fn pend(&mut self, m: usize, hc: &Hconn, item: Item) -> Result<(), NoMemory>
        ensures { OnOk result (self.new ≡ pend m hc.now item self.old) }
    {
        if m < self.users.len() {
            self.users.at_mut(m).pend(hc, item)
        } else {
            Ok(())
        }
    }

    /// The unit of a connection ends: what was in it.
    #[tactic(auto, using(crate::proofs::BookLaws::changed, crate::proofs::BookLaws::get_far, crate::proofs::BookLaws::unit_there, crate::proofs::BookLaws::unit_far))]
    pub fn end_unit(&mut self, alloc: Global, m: usize, hc: &Hconn) -> Items<Item>
        ensures unit { result ≡ unit_of (connection_of m hc.now self.old) }
        ensures left { self.new ≡ back_out m hc.now self.old }
    {
        if m < self.users.len() {
            self.users.at_mut(m).end_unit(alloc, hc)
        } else {
            Items::new(alloc)
        }
    }

    /// No connection stays.
    #[tactic(auto, using(crate::proofs::BookLaws::changed, crate::proofs::BookLaws::get_far))]
    pub fn leave_connections(&mut self, m: usize)
        ensures { self.new ≡ with_users m (λ u. record u { connections = [] }) self.old }
    {
        if m < self.users.len() {
            self.users.at_mut(m).leave();
        }
    }

    /// The moment of a manager is set.
    #[tactic(auto, using(crate::proofs::BookLaws::changed, crate::proofs::BookLaws::get_far))]
    pub fn set_moment(&mut self, m: usize, moment: u64)
        requires { moment ≤ last_moment }
        ensures { self.new ≡ at_moment m moment self.old }
    {
        if m < self.users.len() {
            self.users.at_mut(m).set_moment(moment);
        }
    }

    /// The moment of a manager advances, up to the last that a clock shows.
    #[tactic(auto, using(crate::proofs::BookLaws::changed, crate::proofs::BookLaws::get_far))]
    pub fn advance(&mut self, m: usize, by: u64)
        ensures { self.new ≡ with_users m (λ u. record u { moment = min (u.moment + by) last_moment }) self.old }
    {
        if m < self.users.len() {
            self.users.at_mut(m).advance(by);
        }
    }

    /// The write of an entry's call was stopped.
    #[tactic(auto, using(crate::proofs::BookLaws::changed, crate::proofs::BookLaws::get_far))]
    pub fn halt(&mut self, m: usize, entry: &'a Entry)
        ensures { self.new ≡ with_users m (λ u. record u { cut = Some (record { entry = entry.now; moment = u.moment }) }) self.old }
    {
        if m < self.users.len() {
            self.users.at_mut(m).halt(entry);
        }
    }

    /// The call whose write was stopped, if any.
    pub fn halted(&self, m: usize) -> Option<Halted<'a>>
        ensures value { option_map (λ h. record { entry = h.entry.now; moment = h.moment }) result ≡ (users_at m self.now).cut }
        ensures most { IfSome result (λ h. h.moment ≤ last_moment) }
    {
        match self.users.get(m) {
            None => None,
            Some(user) => user.cut,
        }
    }

    /// No write is stopped any more.
    #[tactic(auto, using(crate::proofs::BookLaws::changed, crate::proofs::BookLaws::get_far))]
    pub fn forget_halted(&mut self, m: usize)
        ensures { self.new ≡ with_users m (λ u. record u { cut = None }) self.old }
    {
        if m < self.users.len() {
            self.users.at_mut(m).forget();
        }
    }
}

/// The first row of an ident, at whatever manager.
fn row_at<'b>(accounts: &'b [Account], ident: &Ident) -> Option<&'b Row>
    ensures { option_copied result ≡ row_at ident.now accounts.now }
{
    for account in accounts {
        if let Some(row) = account.row(ident) {
            return Some(row);
        }
    }
    None
}

/// Whether a row of an ident stands somewhere.
fn is_at(accounts: &[Account], ident: &Ident) -> bool
    ensures { result ≡ is_some (row_at ident.now accounts.now) }
{
    match row_at(accounts, ident) {
        None => false,
        Some(_) => true,
    }
}

fn take_everywhere(accounts: &mut Items<Account>, idents: &[Ident])
    ensures { accounts.new ≡ map (λ (p : ManagerPlaces). record p { queues = leave_queues (λ (row : Row). not (is_one_of idents.now row)) p.queues }) accounts.old }
{
    for at in 0..accounts.len() {
        accounts.at_mut(at).take_all(idents);
    }
}
