//! The definitions of a manager: its objects, found by name and kept in order of definition, and its own attributes.
ghost use Rattle.std.specs.Prelude.{◌≡◌, ◌+◌, ◌-◌, ◌==◌, ◌<◌, ◌≤◌, length, slice_get, option_copied, option_to_list, filter, is_some, vec_len, vec_capacity, OnOk};
ghost use Rattle.mq_objects.specs.Names.{named, space_in, object_in, is_object, queue_of, local_of, channel_of, process_of, subject_space, subject_name};
ghost use Rattle.mq_objects.specs.Defaults.{nothing_defined};
ghost use Rattle.mq_objects.specs.Changed.{set, delete, set_attributes, changed};
ghost use Rattle.mq_objects.specs.Keyed.{object_by};
ghost use Rattle.mq_objects.specs.Keys.{same_key};
ghost use Rattle.mq_objects.specs.Slots.{present, AreDistinct, IsFiled};
ghost use Rattle.indexmap.specs.IndexMap.{get, spare, index_map_len};

use crate::change::ObjectChange;
use crate::command::Subject;
use crate::key::{NameIn, NameSpace, ObjectKey};
use crate::object::{Channel, LocalQueue, ManagerAttributes, Object, Process};
use indexmap::IndexMap;
use mq_base::{ChName, QName};
use std::alloc::{AllocError, Global};
use std::marker::Model;

/// The objects of a manager in order of definition, found by name, and the manager's own attributes.
/// Contracts see the definitions, and for how many more objects memory is reserved.
#[derive(Drop)]
pub struct Defs {
    // In order of definition. A slot is empty where its object was deleted, and so are at most half of them.
    slots: Vec<Option<Object>>,
    // The slot of each object.
    places: IndexMap<ObjectKey, usize>,
    attributes: ManagerAttributes,
}

impl Model for Defs {
    ghost use Rattle.mq_objects.specs.Held.{Held};

    ghost Value = { Held };

    ghost use Rattle.std.specs.Prelude.{◌-◌, min, vec_len, vec_capacity};
    ghost use Rattle.indexmap.specs.IndexMap.{get, spare, index_map_len};
    ghost use Rattle.mq_objects.specs.Keys.{same_key};
    ghost use Rattle.mq_objects.specs.Slots.{present, IsFiled};

    ghost view = { λ d. record {
      definitions = record { objects = present d.slots.items; manager = d.attributes };
      room = min (spare d.places) (vec_capacity d.slots - vec_len d.slots);
    } };

    ghost invariant = { λ d. IsFiled d.slots.items (get same_key d.places) (index_map_len d.places) };
}

// Drops the empty slots. It takes no memory.
fn drop_empty(slots: &mut Vec<Option<Object>>)
    ensures full { slots.new.items ≡ filter is_some slots.old.items }
    ensures bound { vec_len slots.new ≤ vec_len slots.old }
    ensures capacity { vec_capacity slots.new ≡ vec_capacity slots.old }
{
    slots.retain(|slot| slot.is_some());
}

// Closes the gaps between the objects, and finds each at its new place. It takes no memory.
fn close_gaps(slots: &mut Vec<Option<Object>>, places: &mut IndexMap<ObjectKey, usize>)
    requires distinct { AreDistinct slots.old.items }
    requires counted { index_map_len places.old ≡ length (present slots.old.items) }
    ensures present { present slots.new.items ≡ present slots.old.items }
    ensures filed { IsFiled slots.new.items (get same_key places.new) (index_map_len places.new) }
    ensures slots_room { vec_capacity slots.old - vec_len slots.old ≤ vec_capacity slots.new - vec_len slots.new }
    ensures places_room { spare places.old ≤ spare places.new }
{
    drop_empty(slots);
    places.clear();
    for place in 0..slots.len() {
        let Some(object) = &slots[place] else {
            continue;
        };
        let _none = places.insert(ObjectKey::of(object), place).unwrap();
    }
}

impl Defs {
    /// Nothing is defined, and the manager's attributes are the defaults.
    pub fn new(alloc: Global) -> Defs
        ensures { result.definitions ≡ nothing_defined }
    {
        Defs {
            slots: Vec::new(alloc),
            places: IndexMap::new(alloc),
            attributes: ManagerAttributes::new(alloc),
        }
    }

    /// The manager's own attributes.
    pub fn manager(&self) -> &ManagerAttributes
        ensures { result.now ≡ self.now.definitions.manager }
    {
        &self.attributes
    }

    /// How many objects there are.
    pub fn len(&self) -> usize
        ensures { result ≡ length self.now.definitions.objects }
    {
        self.places.len()
    }

    /// Whether no object is defined.
    pub fn is_empty(&self) -> bool
        ensures { result ≡ (length self.now.definitions.objects == 0) }
    {
        self.places.len() == 0
    }

    /// The objects in order of definition, each in a slot of its own. A slot is empty where its object was deleted.
    pub fn slots(&self) -> &[Option<Object>]
        ensures { present result.now ≡ self.now.definitions.objects }
    {
        self.slots.as_slice()
    }

    /// The object at a place, in order of definition, counted from 0. It walks there: to go through all take `slots`.
    pub fn object_at(&self, place: usize) -> Option<&Object>
        ensures { option_copied result ≡ slice_get self.now.definitions.objects place }
    {
        let mut left = place;
        for slot in self.slots.as_slice() {
            let Some(object) = slot else {
                continue;
            };
            if left == 0 {
                return Some(object);
            }
            left -= 1;
        }
        None
    }

    /// The object of that name in a name space. No other one has it.
    pub fn by_name(&self, space: NameSpace, name: &[u8]) -> Option<&Object>
        ensures value { option_copied result ≡ object_in (space_in space) name.now self.now.definitions.objects }
        ensures only { filter (is_object (space_in space) name.now) self.now.definitions.objects ≡ option_to_list (option_copied result) }
    {
        let Some(place) = self.places.get(NameIn { space, name }) else {
            return None;
        };
        self.slots[*place].as_ref()
    }

    fn object(&self, key: &ObjectKey) -> Option<&Object>
        ensures { option_copied result ≡ object_by key.now self.now.definitions.objects }
    {
        let Some(place) = self.places.get(key) else {
            return None;
        };
        self.slots[*place].as_ref()
    }

    /// What stands under the name that a command names, of whatever kind.
    pub fn named(&self, subject: &Subject) -> Option<&Object>
        ensures { option_copied result ≡ named subject.now self.now.definitions }
    {
        self.object(&ObjectKey::of_subject(subject))
    }

    /// The queue of any kind with that name.
    pub fn queue(&self, name: &QName) -> Option<&Object>
        ensures { option_copied result ≡ queue_of name.now self.now.definitions }
    {
        self.object(&ObjectKey::Queue(*name))
    }

    /// The local queue with that name.
    pub fn local(&self, name: &QName) -> Option<&LocalQueue>
        ensures { option_copied result ≡ local_of name.now self.now.definitions }
    {
        match self.queue(name) {
            Some(Object::Local(queue)) => Some(queue),
            _ => None,
        }
    }

    /// The channel with that name.
    pub fn channel(&self, name: &ChName) -> Option<&Channel>
        ensures { option_copied result ≡ channel_of name.now self.now.definitions }
    {
        match self.object(&ObjectKey::Channel(*name)) {
            Some(Object::Channel(channel)) => Some(channel),
            _ => None,
        }
    }

    /// The process with that name.
    pub fn process(&self, name: &QName) -> Option<&Process>
        ensures { option_copied result ≡ process_of name.now self.now.definitions }
    {
        match self.object(&ObjectKey::Process(*name)) {
            Some(Object::Process(process)) => Some(process),
            _ => None,
        }
    }

    /// Takes the memory of one more object, so that a change which follows cannot fail.
    pub fn reserve(&mut self) -> Result<(), AllocError>
        ensures definitions { self.new.definitions ≡ self.old.definitions }
        ensures room { OnOk result (0 < self.new.room) }
        ensures kept { self.old.room ≤ self.new.room }
    {
        self.slots.reserve(1)?;
        self.places.reserve(1)
    }

    /// An object takes the place of the one that has its name, or stands last. It takes no memory.
    pub fn set(&mut self, object: Object)
        requires { 0 < self.old.room }
        ensures definitions { self.new.definitions ≡ set object self.old.definitions }
        ensures room { self.old.room ≤ self.new.room + 1 }
    {
        let key = ObjectKey::of(&object);
        let Some(place) = self.places.get(&key).copied() else {
            let _none = self.places.insert(key, self.slots.len()).unwrap();
            self.slots.push_reserved(Some(object));
            return;
        };
        self.slots[place] = Some(object);
    }

    /// The manager's own attributes. It takes no memory.
    pub fn set_manager(&mut self, attributes: ManagerAttributes)
        ensures definitions { self.new.definitions ≡ set_attributes attributes self.old.definitions }
        ensures room { self.new.room ≡ self.old.room }
    {
        self.attributes = attributes;
    }

    /// What stands under the name that a command names goes, and the others keep their order. It takes no memory, and
    /// constant time over many deletions.
    pub fn delete(&mut self, subject: &Subject)
        ensures definitions { self.new.definitions ≡ delete (subject_space subject.now) (subject_name subject.now) self.old.definitions }
        ensures room { self.old.room ≤ self.new.room }
    {
        let Some(place) = self.places.swap_remove(&ObjectKey::of_subject(subject)) else {
            return;
        };
        self.slots[place] = None;
        if self.places.len() < self.slots.len() / 2 {
            close_gaps(&mut self.slots, &mut self.places);
        }
    }

    /// The change that a command or a record of the log makes. It takes no memory.
    pub fn change(&mut self, change: ObjectChange)
        requires { 0 < self.old.room }
        ensures definitions { self.new.definitions ≡ changed change self.old.definitions }
        ensures room { self.old.room ≤ self.new.room + 1 }
    {
        match change {
            ObjectChange::Set(object) => self.set(object),
            ObjectChange::SetManager(attributes) => self.set_manager(attributes),
            ObjectChange::Delete(subject) => self.delete(&subject),
        }
    }
}
