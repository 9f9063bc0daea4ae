//! The rows of queues by the queues' names, in the order in which the queues came.
ghost use Rattle.std.specs.Prelude.{◌≡◌, ℕ, List, [], Some, None, if◌then◌else◌, OnOk, OnErr, option_copied, option_map};
ghost use Rattle.std.specs.Map.{keys_of, lookup, remove_entry, set_value};
ghost use Rattle.std.specs.BTreeMap.{insert_entry, is_at};
ghost use Rattle.std.specs.Ordering.{nat_cmp, eq_by_cmp};
ghost use Rattle.std.specs.List.{IsDistinct};
ghost use Rattle.std.specs.List.Sorted.{IsStrictlySortedBy};
ghost use Rattle.std.specs.Str.{bytes_eq};
ghost use Rattle.indexmap.specs.IndexMap.{insert_entry as named_entry};
ghost use Rattle.mq_queue.specs.declared.row.Row.{Row};
ghost use Rattle.mq_shelves.specs.declared.rack.Stand.{Stand};
ghost use Rattle.mq_shelves.specs.declared.slots.Slot.{Slot};
ghost use Rattle.mq_shelves.specs.Racks.{stand_cmp, or_nothing};
ghost use Rattle.mq_shelves.specs.Slots.{born_of, place_of, slot_entries};

use crate::rack::{Rack, Stand};
use indexmap::IndexMap;
use mq_base::{NoMemory, QName};
use mq_message::Holder;
use mq_queue::Row;
use std::alloc::Global;
use std::collections::BTreeMap;
use std::marker::Model;

/// A queue with its rows.
#[derive(Drop)]
pub struct Slot {
    /// The queue.
    pub name: QName,
    /// Its rows.
    pub rack: Rack,
}

// Where the queue of a name is kept.
fn place_of(born: &IndexMap<QName, u64>, slots: &BTreeMap<u64, Slot>, name: &QName) -> Option<u64>
    ensures { result ≡ place_of (born_of born.now name.now) slots.now.entries name.now }
{
    let Some(place) = born.get(name).copied() else {
        return None;
    };
    match slots.get(&place) {
        None => None,
        Some(slot) => {
            if *name == slot.name {
                Some(place)
            } else {
                None
            }
        }
    }
}

// The rows of a slot, where it is there.
fn rack_at<'a>(slots: &'a BTreeMap<u64, Slot>, place: u64) -> Option<&'a Rack>
    ensures { option_copied result ≡ option_map (λ (s : Slot). s.rack) (lookup (is_at (nat_cmp place)) slots.now.entries) }
{
    match slots.get(&place) {
        None => None,
        Some(slot) => Some(&slot.rack),
    }
}

// Notes when a queue came.
fn note_born(born: &mut IndexMap<QName, u64>, name: &QName, place: u64) -> Result<(), NoMemory>
    ensures ok { OnOk result ((other : List ℕ) → born_of born.new other ≡ (if bytes_eq name.now other then Some place else born_of born.old other)) }
    ensures err { OnErr result ((other : List ℕ) → born_of born.new other ≡ born_of born.old other) }
{
    born.insert(*name, place)?;
    Ok(())
}

// The row that stands there goes.
fn take_in(slots: &mut BTreeMap<u64, Slot>, place: u64, stand: &Stand)
    ensures slots { (slot : Slot) → lookup (is_at (nat_cmp place)) slots.old.entries ≡ Some slot → slots.new.entries ≡ set_value (is_at (nat_cmp place)) slots.old.entries (record slot { rack = remove_entry (is_at (stand_cmp stand.now)) slot.rack }) }
    ensures apart { (slot : Slot) → lookup (is_at (nat_cmp place)) slots.old.entries ≡ Some slot → IsDistinct (eq_by_cmp stand_cmp) (keys_of (remove_entry (is_at (stand_cmp stand.now)) slot.rack)) }
{
    if let Some(slot) = slots.get_mut(&place) {
        slot.rack.take(stand);
    }
}

// The row that stands there is held, or free.
fn hold_in(slots: &mut BTreeMap<u64, Slot>, place: u64, stand: &Stand, by: Option<Holder>)
    ensures kept { (slot : Slot) → lookup (is_at (nat_cmp place)) slots.old.entries ≡ Some slot → (rack : List (Stand × Row)) × (slots.new.entries ≡ set_value (is_at (nat_cmp place)) slots.old.entries (record slot { rack = rack })) }
    ensures held { (slot : Slot) (row : Row) → lookup (is_at (nat_cmp place)) slots.old.entries ≡ Some slot → lookup (is_at (stand_cmp stand.now)) slot.rack ≡ Some row → slots.new.entries ≡ set_value (is_at (nat_cmp place)) slots.old.entries (record slot { rack = set_value (is_at (stand_cmp stand.now)) slot.rack (record row { by = by }) }) }
{
    if let Some(slot) = slots.get_mut(&place) {
        slot.rack.hold(stand, by);
    }
}

// A row comes to stand there.
fn put_in(
    slots: &mut BTreeMap<u64, Slot>,
    place: u64,
    stand: Stand,
    row: Row,
) -> Result<(), NoMemory>
    ensures kept { (slot : Slot) → lookup (is_at (nat_cmp place)) slots.old.entries ≡ Some slot → (rack : List (Stand × Row)) × (slots.new.entries ≡ set_value (is_at (nat_cmp place)) slots.old.entries (record slot { rack = rack })) }
    ensures slots { (slot : Slot) → lookup (is_at (nat_cmp place)) slots.old.entries ≡ Some slot → OnOk result (slots.new.entries ≡ set_value (is_at (nat_cmp place)) slots.old.entries (record slot { rack = insert_entry stand_cmp slot.rack stand row })) }
    ensures apart { (slot : Slot) → lookup (is_at (nat_cmp place)) slots.old.entries ≡ Some slot → OnOk result (IsDistinct (eq_by_cmp stand_cmp) (keys_of (insert_entry stand_cmp slot.rack stand row))) }
    ensures err { OnErr result (slots.new.entries ≡ slots.old.entries) }
{
    match slots.get_mut(&place) {
        None => Ok(()),
        Some(slot) => slot.rack.put(stand, row),
    }
}

// The queue has these rows.
fn renew_in(slots: &mut BTreeMap<u64, Slot>, place: u64, rack: Rack)
    ensures { (slot : Slot) → lookup (is_at (nat_cmp place)) slots.old.entries ≡ Some slot → slots.new.entries ≡ set_value (is_at (nat_cmp place)) slots.old.entries (record slot { rack = rack }) }
{
    if let Some(slot) = slots.get_mut(&place) {
        slot.rack = rack;
    }
}

// The queue goes.
fn drop_in(slots: &mut BTreeMap<u64, Slot>, place: u64)
    ensures slots { slots.new.entries ≡ remove_entry (is_at (nat_cmp place)) slots.old.entries }
    ensures sorted { IsStrictlySortedBy nat_cmp (keys_of slots.new.entries) }
{
    let _slot = slots.remove(&place);
}

/// The rows of queues by the queues' names. Contracts see the queues in the order in which they came.
#[derive(Drop)]
pub struct Racks {
    // By when they came.
    slots: BTreeMap<u64, Slot>,
    // When the queue of a name came. Some names may have none any more.
    born: IndexMap<QName, u64>,
    // How many queues came.
    next: u64,
}

impl Model for Racks {
    ghost use Rattle.std.specs.Prelude.{List, ℕ};
    ghost use Rattle.mq_queue.specs.declared.row.Row.{Row};
    ghost use Rattle.mq_shelves.specs.declared.rack.Stand.{Stand};
    ghost use Rattle.mq_shelves.specs.Slots.{born_of, slot_entries, AreSlots};

    ghost Value = { List (List ℕ × List (Stand × Row)) };

    ghost view = { λ r. slot_entries r.slots.entries };

    ghost invariant = { λ r. AreSlots (born_of r.born) r.next r.slots.entries };
}

impl Racks {
    /// No queue.
    pub fn new(alloc: Global) -> Racks
        ensures { result ≡ [] }
    {
        Racks {
            slots: BTreeMap::new(alloc),
            born: IndexMap::new(alloc),
            next: 0,
        }
    }

    /// The rows of the queue of that name.
    pub fn get(&self, name: &QName) -> Option<&Rack>
        ensures { option_copied result ≡ lookup (bytes_eq name.now) self.now }
    {
        match place_of(&self.born, &self.slots, name) {
            None => None,
            Some(place) => rack_at(&self.slots, place),
        }
    }

    /// The row that stands there goes, where there is the queue.
    pub fn take(&mut self, name: &QName, stand: &Stand)
        ensures racks { (es : List (Stand × Row)) → lookup (bytes_eq name.now) self.old ≡ Some es → self.new ≡ set_value (bytes_eq name.now) self.old (remove_entry (is_at (stand_cmp stand.now)) es) }
        ensures apart { (es : List (Stand × Row)) → lookup (bytes_eq name.now) self.old ≡ Some es → IsDistinct (eq_by_cmp stand_cmp) (keys_of (remove_entry (is_at (stand_cmp stand.now)) es)) }
        ensures named { IsDistinct bytes_eq (keys_of self.new) }
    {
        if let Some(place) = place_of(&self.born, &self.slots, name) {
            take_in(&mut self.slots, place, stand);
        }
    }

    /// The row that stands there is held, or free, where there is the queue.
    pub fn hold(&mut self, name: &QName, stand: &Stand, by: Option<Holder>)
        ensures racks { (es : List (Stand × Row)) (row : Row) → lookup (bytes_eq name.now) self.old ≡ Some es → lookup (is_at (stand_cmp stand.now)) es ≡ Some row → self.new ≡ set_value (bytes_eq name.now) self.old (set_value (is_at (stand_cmp stand.now)) es (record row { by = by })) }
        ensures named { IsDistinct bytes_eq (keys_of self.new) }
    {
        if let Some(place) = place_of(&self.born, &self.slots, name) {
            hold_in(&mut self.slots, place, stand, by);
        }
    }

    // A queue that is new stands last.
    fn add(&mut self, name: &QName, rack: Rack) -> Result<(), NoMemory>
        requires { lookup (bytes_eq name.now) self.old ≡ None }
        ensures ok { OnOk result (self.new ≡ named_entry bytes_eq self.old name.now rack) }
        ensures err { OnErr result (self.new ≡ self.old) }
        ensures named { OnOk result (IsDistinct bytes_eq (keys_of self.new)) }
    {
        let place = self.next;
        let Some(next) = place.checked_add(1) else {
            return Err(NoMemory);
        };
        note_born(&mut self.born, name, place)?;
        self.next = next;
        self.slots.insert(place, Slot { name: *name, rack })?;
        Ok(())
    }

    // A row comes to stand on a queue that is new.
    fn put_first(
        &mut self,
        alloc: Global,
        name: &QName,
        stand: Stand,
        row: Row,
    ) -> Result<(), NoMemory>
        requires { lookup (bytes_eq name.now) self.old ≡ None }
        ensures ok { OnOk result (self.new ≡ named_entry bytes_eq self.old name.now (insert_entry stand_cmp [] stand row)) }
        ensures apart { OnOk result (IsDistinct (eq_by_cmp stand_cmp) (keys_of (insert_entry stand_cmp [] stand row))) }
        ensures err { OnErr result (self.new ≡ self.old) }
        ensures named { OnOk result (IsDistinct bytes_eq (keys_of self.new)) }
    {
        let mut rack = Rack::new(alloc);
        rack.put(stand, row)?;
        self.add(name, rack)
    }

    /// A row comes to stand there, on a queue that is there or new.
    pub fn put(
        &mut self,
        alloc: Global,
        name: &QName,
        stand: Stand,
        row: Row,
    ) -> Result<(), NoMemory>
        ensures ok { OnOk result (self.new ≡ named_entry bytes_eq self.old name.now (insert_entry stand_cmp (or_nothing (lookup (bytes_eq name.now) self.old)) stand row)) }
        ensures apart { OnOk result (IsDistinct (eq_by_cmp stand_cmp) (keys_of (insert_entry stand_cmp (or_nothing (lookup (bytes_eq name.now) self.old)) stand row))) }
        ensures err { OnErr result (self.new ≡ self.old) }
        ensures named { OnOk result (IsDistinct bytes_eq (keys_of self.new)) }
    {
        match place_of(&self.born, &self.slots, name) {
            Some(place) => put_in(&mut self.slots, place, stand, row),
            None => self.put_first(alloc, name, stand, row),
        }
    }

    /// A queue has these rows, there or new.
    pub fn set(&mut self, name: &QName, rack: Rack) -> Result<(), NoMemory>
        ensures ok { OnOk result (self.new ≡ named_entry bytes_eq self.old name.now rack) }
        ensures err { OnErr result (self.new ≡ self.old) }
        ensures named { OnOk result (IsDistinct bytes_eq (keys_of self.new)) }
    {
        match place_of(&self.born, &self.slots, name) {
            Some(place) => {
                renew_in(&mut self.slots, place, rack);
                Ok(())
            }
            None => self.add(name, rack),
        }
    }

    /// The queue of that name is no more.
    pub fn drop_queue(&mut self, name: &QName)
        ensures racks { self.new ≡ remove_entry (bytes_eq name.now) self.old }
        ensures named { IsDistinct bytes_eq (keys_of self.new) }
    {
        if let Some(place) = place_of(&self.born, &self.slots, name) {
            drop_in(&mut self.slots, place);
        }
    }

    /// The queues with their rows, by when they came.
    pub fn slots(&self) -> &BTreeMap<u64, Slot>
        ensures { slot_entries result.now.entries ≡ self.now }
    {
        &self.slots
    }

    /// The queues with their rows, by when they came.
    pub fn into_slots(self) -> BTreeMap<u64, Slot>
        ensures { slot_entries result.entries ≡ self }
    {
        self.slots
    }
}
