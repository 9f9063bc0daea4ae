//! Who is connected, with what open and what pending.
ghost use Rattle.std.specs.Prelude.{◌≡◌, ◌++◌, ◌∷◌, [], OnOk, option_copied};
ghost use Rattle.mq_calls.specs.Reads.{handle_at};
ghost use Rattle.mq_spec_network.specs.Ledger.{opened_by, close};

use crate::handles::Handles;
use mq_base::{Items, NoMemory};
use mq_calls::{Appl, Handle, Hobj, Item, Open};
use mq_resolve::Route;
use std::alloc::Global;
use std::marker::Model;

/// A connection. Contracts see it as the plain connection.
#[derive(Drop)]
pub struct Caller {
    number: u64,
    appl: Appl,
    handles: Handles,
    unit: Items<Item>,
}

impl Model for Caller {
    ghost use Rattle.mq_calls.specs.declared.state.Connection.{Connection};

    ghost Value = { Connection };

    ghost view = { λ c. record { number = c.number; appl = c.appl; handles = c.handles; last_handle = 0; unit = c.unit } };
}

impl Caller {
    /// With nothing open and nothing pending.
    pub fn new(alloc: Global, number: u64, appl: &Appl) -> Caller
        ensures { result ≡ record { number = number; appl = appl.now; handles = []; last_handle = 0; unit = [] } }
    {
        Caller {
            number,
            appl: *appl,
            handles: Handles::new(alloc),
            unit: Items::new(alloc),
        }
    }

    /// Its number in the manager's incarnation.
    pub fn number(&self) -> u64
        ensures { result ≡ self.now.number }
    {
        self.number
    }

    /// Who connected.
    pub fn appl(&self) -> &Appl
        ensures { result.now ≡ self.now.appl }
    {
        &self.appl
    }

    /// Its handle of a number.
    pub fn handle(&self, number: u64) -> Option<&Handle>
        ensures { option_copied result ≡ handle_at number self.now.handles }
    {
        self.handles.find(number)
    }

    /// A handle more, which leads by a route.
    pub fn open(&mut self, how: &Open, ho: &Hobj, route: Route) -> Result<(), NoMemory>
        ensures { OnOk result (self.new ≡ opened_by how.now ho.now route self.old) }
    {
        self.handles.push(Handle {
            number: ho.number,
            how: *how,
            leads: route.end,
            path: route.path,
            stale: false,
            cursor: None,
        })
    }

    /// A handle goes.
    pub fn close(&mut self, ho: &Hobj)
        ensures { self.new ≡ close ho.now self.old }
    {
        self.handles.remove(ho.number);
    }

    /// An item joins its unit.
    pub fn pend(&mut self, item: Item) -> Result<(), NoMemory>
        ensures { OnOk result (self.new ≡ record self.old { unit = self.old.unit ++ item ∷ [] }) }
    {
        self.unit.push(item)?;
        Ok(())
    }

    /// Its unit ends: what was in it.
    pub fn end_unit(&mut self, alloc: Global) -> Items<Item>
        ensures unit { result ≡ self.old.unit }
        ensures left { self.new ≡ record self.old { unit = [] } }
    {
        std::mem::replace(&mut self.unit, Items::new(alloc))
    }
}
