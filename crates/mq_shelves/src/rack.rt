//! The rows of one queue by where they stand.
ghost use Rattle.std.specs.Prelude.{◌≡◌, [], Some, OnOk, OnErr, IfOk, option_copied};
ghost use Rattle.std.specs.Map.{keys_of, lookup, remove_entry, set_value};
ghost use Rattle.std.specs.BTreeMap.{insert_entry, is_at};
ghost use Rattle.std.specs.Ordering.{eq_by_cmp};
ghost use Rattle.std.specs.List.{IsDistinct};
ghost use Rattle.mq_queue.specs.declared.row.Row.{Row};
ghost use Rattle.mq_shelves.specs.Racks.{stand_cmp, rows_of, has_none};

use crate::copies::copy_rows;
use mq_base::{Items, NoMemory};
use mq_message::Holder;
use mq_queue::Row;
use std::alloc::Global;
use std::collections::BTreeMap;
use std::marker::Model;

/// Where a row stands on its queue: by lane, and then by when it came.
#[derive(Clone, Copy, PartialEq, Eq, PartialOrd, Ord)]
pub struct Stand {
    /// 0 to 9: 9 less the priority, or 0 on a queue without lanes.
    pub lane: u8,
    /// The number of rows that came before it, on any queue.
    pub arrival: u64,
}

/// The rows of one queue by where they stand. Contracts see them in that order.
#[derive(Drop)]
pub struct Rack {
    rows: BTreeMap<Stand, Row>,
}

impl Model for Rack {
    ghost use Rattle.std.specs.Prelude.{List};
    ghost use Rattle.mq_queue.specs.declared.row.Row.{Row};
    ghost use Rattle.mq_shelves.specs.declared.rack.Stand.{Stand};

    ghost Value = { List (Stand × Row) };

    ghost view = { λ r. r.rows.entries };
}

impl Rack {
    /// No row.
    pub fn new(alloc: Global) -> Rack
        ensures { result ≡ [] }
    {
        Rack {
            rows: BTreeMap::new(alloc),
        }
    }

    /// The row that stands there.
    pub fn get(&self, stand: &Stand) -> Option<&Row>
        ensures { option_copied result ≡ lookup (is_at (stand_cmp stand.now)) self.now }
    {
        self.rows.get(stand)
    }

    /// Whether there is no row.
    pub fn is_empty(&self) -> bool
        ensures { result ≡ has_none self.now }
    {
        self.rows.is_empty()
    }

    /// A row comes to stand there.
    pub fn put(&mut self, stand: Stand, row: Row) -> Result<(), NoMemory>
        ensures ok { OnOk result (self.new ≡ insert_entry stand_cmp self.old stand row) }
        ensures err { OnErr result (self.new ≡ self.old) }
        ensures apart { IsDistinct (eq_by_cmp stand_cmp) (keys_of self.new) }
    {
        self.rows.insert(stand, row)?;
        Ok(())
    }

    /// The row that stands there goes.
    pub fn take(&mut self, stand: &Stand)
        ensures taken { self.new ≡ remove_entry (is_at (stand_cmp stand.now)) self.old }
        ensures apart { IsDistinct (eq_by_cmp stand_cmp) (keys_of self.new) }
    {
        let _row = self.rows.remove(stand);
    }

    /// The row that stands there is held, or free.
    pub fn hold(&mut self, stand: &Stand, by: Option<Holder>)
        ensures { (row : Row) → lookup (is_at (stand_cmp stand.now)) self.old ≡ Some row → self.new ≡ set_value (is_at (stand_cmp stand.now)) self.old (record row { by = by }) }
    {
        if let Some(row) = self.rows.get_mut(stand) {
            row.by = by;
        }
    }

    /// The rows in order.
    pub fn into_rows(self, alloc: Global) -> Result<Items<Row>, NoMemory>
        ensures { IfOk result (λ rows. rows ≡ rows_of self) }
    {
        let mut rows = Items::new(alloc);
        let mut left = self.rows;
        while let Some((_, row)) = left.pop_first() {
            rows.push(row)?;
        }
        Ok(rows)
    }

    /// Copies of the rows in order.
    pub fn copy_rows(&self, alloc: Global) -> Result<Items<Row>, NoMemory>
        ensures { IfOk result (λ rows. rows ≡ rows_of self.now) }
    {
        copy_rows(alloc, &self.rows)
    }
}
