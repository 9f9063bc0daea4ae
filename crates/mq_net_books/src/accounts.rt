//! What stands at one manager.
ghost use Rattle.std.specs.Prelude.{◌≡◌, [], ◌∷◌, ◌≤◌, ◌++◌, IfOk, OnOk, option_copied, not, false};
ghost use Rattle.std.specs.List.{list_any};
ghost use Rattle.mq_calls.specs.declared.image.Shelf.{Shelf};
ghost use Rattle.mq_queue.specs.declared.row.Row.{Row};
ghost use Rattle.mq_queue.specs.Rows.{has_ident, is_persistent};
ghost use Rattle.mq_resolve.specs.Resolved.{resolve};
ghost use Rattle.mq_spec_manager.specs.Commands.{definitions_after};
ghost use Rattle.mq_spec_manager.specs.Stops.{last_moment};
ghost use Rattle.mq_spec_manager.specs.Put.{message_put};
ghost use Rattle.mq_fill.specs.Drafts.{message_of};
ghost use Rattle.mq_calls.specs.Changes.{lane_of};
ghost use Rattle.mq_objects.specs.Names.{local_of, process_of, is_object, space_of, name_of};
ghost use Rattle.mq_spec_network.specs.Ledger.{place_at, leave_queues, is_one_of, is_placed_at, row_in, nobody};
ghost use Rattle.mq_net_rows.specs.Stored.{AreSorted};
ghost use Rattle.mq_net_books.specs.Openings.{AreNewFrom, IsSettled};

use crate::no_use::NoUse;
use mq_base::{Items, NoMemory, QName};
use mq_calls::{Appl, ScRefusal, Shelf, Shown};
use mq_codes::Reason;
use mq_fill::{Draft, make_draft};
use mq_history::ManagerPlaces;
use mq_message::{Bytes, Ident, Md, Message};
use mq_net_rows::Shelves;
use mq_objects::{
    Command, Definitions, Defs, Delivery, LocalQueue, Object, Process, copy_definitions,
};
use mq_queue::{Row, lane_at};
use mq_resolve::{PathStep, Route, RouteEnd, resolve};
use mq_sc_apply::apply;
use std::alloc::Global;
use std::marker::Model;

/// What stands at a manager: its name, its definitions, and its rows, queue by queue.
#[derive(Drop)]
pub struct Account {
    name: QName,
    defs: Defs,
    queues: Shelves,
}

impl Model for Account {
    ghost use Rattle.mq_history.specs.declared.story.ManagerPlaces.{ManagerPlaces};

    ghost Value = { ManagerPlaces };

    ghost view = { λ a. record { name = a.name; definitions = a.defs.definitions; queues = a.queues } };
}

/// An object stands last, where none has its name.
#[tactic(auto, using(crate::proofs::ObjectLaws::set_new))]
fn add_object(alloc: Global, defs: &mut Defs, object: &Object) -> Result<(), NoMemory>
    requires { list_any (is_object (space_of object.now) (name_of object.now)) defs.old.definitions.objects ≡ false }
    ensures { OnOk result (defs.new.definitions ≡ record { objects = defs.old.definitions.objects ++ object.now ∷ []; manager = defs.old.definitions.manager }) }
{
    let object = object.try_clone(alloc)?;
    match defs.reserve() {
        Ok(()) => {}
        Err(_) => return Err(NoMemory),
    }
    defs.set(object);
    Ok(())
}

/// The definitions, found by name.
fn defs_of(alloc: Global, definitions: &Definitions) -> Result<Defs, NoMemory>
    requires { AreNewFrom [] definitions.now.objects }
    ensures { IfOk result (λ d. d.definitions ≡ definitions.now) }
{
    let mut defs = Defs::new(alloc);
    defs.set_manager(definitions.manager.try_clone(alloc)?);
    'filling: for object in definitions.objects.as_slice() {
        add_object(alloc, &mut defs, object)?;
    }
    Ok(defs)
}

/// Whether a command was answered, and not refused for want of memory.
fn settled(answer: &Result<Shown, ScRefusal>) -> Result<(), NoMemory>
    ensures { OnOk result (IsSettled answer.now) }
{
    match answer {
        Ok(_) => Ok(()),
        Err(ScRefusal::NoMemory) => Err(NoMemory),
        Err(_) => Ok(()),
    }
}

/// A command on objects changes the definitions; a refused one leaves them.
fn obey(alloc: Global, defs: &mut Defs, command: &Command) -> Result<(), NoMemory>
    ensures { OnOk result (defs.new.definitions ≡ definitions_after command.now defs.old.definitions) }
{
    let answer = apply(alloc, defs, &QName::blank(), command, &NoUse);
    settled(&answer)
}

/// The lane of a message on a queue, there or not.
fn lane_of(queue: Option<&LocalQueue>, priority: i32) -> u8
    ensures { result ≡ lane_of (option_copied queue.entry) priority }
{
    match queue {
        None => 0,
        Some(queue) => match queue.delivery {
            Delivery::Priority => lane_at(priority),
            Delivery::Fifo => 0,
        },
    }
}

/// A message that was put, with its body.
pub fn with_body(alloc: Global, draft: &Draft, body: &Bytes) -> Result<Message, NoMemory>
    ensures { IfOk result (λ m. m ≡ message_of draft.now body.now) }
{
    Ok(Message {
        ident: draft.ident,
        md: draft.md,
        route: draft.route,
        deadline: draft.deadline,
        body: Bytes::from_slice(alloc, body.as_slice())?,
    })
}

impl Account {
    /// A manager's account as it begins.
    pub fn new(
        alloc: Global,
        name: QName,
        definitions: &Definitions,
        queues: Items<Shelf>,
    ) -> Result<Account, NoMemory>
        requires fresh { AreNewFrom [] definitions.now.objects }
        requires sorted { AreSorted queues }
        ensures { IfOk result (λ a. a ≡ record { name = name; definitions = definitions.now; queues = queues }) }
    {
        let defs = defs_of(alloc, definitions)?;
        let queues = Shelves::from_shelves(alloc, queues)?;
        Ok(Account { name, defs, queues })
    }

    /// The account of no manager.
    pub fn nobody(alloc: Global) -> Account
        ensures { result ≡ nobody }
    {
        Account {
            name: QName::blank(),
            defs: Defs::new(alloc),
            queues: Shelves::new(alloc),
        }
    }

    /// Its plain data.
    pub fn into_places(self, alloc: Global) -> Result<ManagerPlaces, NoMemory>
        ensures { IfOk result (λ p. p ≡ self) }
    {
        let definitions = copy_definitions(alloc, &self.defs)?;
        let queues = self.queues.to_shelves()?;
        Ok(ManagerPlaces {
            name: self.name,
            definitions,
            queues,
        })
    }

    /// A message is placed on the queue of a name.
    pub fn place(&mut self, name: &QName, message: Message) -> Result<(), NoMemory>
        ensures { OnOk result (self.new ≡ place_at name.now message self.old) }
    {
        let lane = lane_of(self.defs.local(name), message.md.priority);
        self.queues.put_in(name, lane, message)
    }

    /// Whether a row of an ident stands here.
    #[tactic(auto, using(crate::proofs::PlacedLaws::placed))]
    pub fn has(&self, ident: &Ident) -> bool
        ensures { result ≡ is_placed_at ident.now self.now }
    {
        self.queues.has(ident)
    }

    /// The first row of an ident.
    pub fn row(&self, ident: &Ident) -> Option<&Row>
        ensures { option_copied result ≡ row_in ident.now self.now.queues }
    {
        self.queues.row(ident)
    }

    /// No row of an ident stays.
    pub fn take(&mut self, ident: &Ident)
        ensures { self.new ≡ record self.old { queues = leave_queues (λ (row : Row). not (has_ident ident.now row)) self.old.queues } }
    {
        self.queues.leave(ident);
    }

    /// No row of these idents stays.
    pub fn take_all(&mut self, idents: &[Ident])
        ensures { self.new ≡ record self.old { queues = leave_queues (λ (row : Row). not (is_one_of idents.now row)) self.old.queues } }
    {
        self.queues.leave_all(idents);
    }

    /// Only persistent rows stay.
    pub fn lose(&mut self)
        ensures { self.new ≡ record self.old { queues = leave_queues (λ (row : Row). is_persistent row.message) self.old.queues } }
    {
        self.queues.lose();
    }

    /// Where a queue's name at a manager's name leads.
    pub fn resolve(&self, name: &QName, qmgr: &QName) -> Result<Route, Reason>
        ensures { result ≡ resolve self.now.definitions self.now.name name.now qmgr.now }
    {
        resolve(&self.defs, &self.name, name, qmgr)
    }

    /// The local queue of a name.
    pub fn local(&self, name: &QName) -> Option<&LocalQueue>
        ensures { option_copied result ≡ local_of name.now self.now.definitions }
    {
        self.defs.local(name)
    }

    /// The process of a name.
    pub fn process(&self, name: &QName) -> Option<&Process>
        ensures { option_copied result ≡ process_of name.now self.now.definitions }
    {
        self.defs.process(name)
    }

    /// The queue of dead letters, blank for none.
    pub fn dead_letter_queue(&self) -> QName
        ensures { result ≡ self.now.definitions.manager.dead_letter_queue }
    {
        self.defs.manager().dead_letter_queue
    }

    /// A message as a call puts it here.
    pub fn message_put(
        &self,
        alloc: Global,
        ident: &Ident,
        appl: &Appl,
        end: &RouteEnd,
        path: &[PathStep],
        md: &Md,
        body: &Bytes,
        moment: u64,
    ) -> Result<Message, NoMemory>
        requires { moment ≤ last_moment }
        ensures { IfOk result (λ m. m ≡ message_put ident.now appl.now (record { end = end.now; path = path.now }) md.now body.now (record { own = self.now.name; definitions = self.now.definitions; moment = moment })) }
    {
        let draft = make_draft(ident, appl, end, path, md, &self.name, &self.defs, moment);
        with_body(alloc, &draft, body)
    }

    /// A command on objects changes the definitions.
    pub fn obey(&mut self, alloc: Global, command: &Command) -> Result<(), NoMemory>
        ensures { OnOk result (self.new ≡ record self.old { definitions = definitions_after command.now self.old.definitions }) }
    {
        obey(alloc, &mut self.defs, command)
    }
}
