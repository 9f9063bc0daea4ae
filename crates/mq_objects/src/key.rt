//! What objects are looked up by: the key of an object, and a name in a name space.
ghost use Rattle.std.specs.Prelude.{◌≡◌};
ghost use Rattle.std.proofs.Common.{rules};
ghost use Rattle.std.specs.Cmp.Rules.{comparing, hashing};

use crate::command::Subject;
use crate::object::Object;
use indexmap::Equivalent;
use mq_base::{ChName, QName};
use std::hash::{Hash, Hasher};

/// The name spaces of objects: queues of all kinds share one, channels and processes have their own
/// (IBM MQ: Rules for naming IBM MQ objects).
#[derive(Clone, Copy)]
pub enum NameSpace {
    /// Local queues, alias queues and remote queues.
    Queues,
    /// Channels of both kinds.
    Channels,
    /// Processes.
    Processes,
}

/// What an object is looked up by. Queues of all kinds share one name space; channels and processes
/// have their own.
#[derive(Clone, Copy)]
pub enum ObjectKey {
    /// A queue of any kind, by its name.
    Queue(QName),
    /// A channel, by its name.
    Channel(ChName),
    /// A process, by its name.
    Process(QName),
}

impl ObjectKey {
    ghost use Rattle.mq_objects.specs.Keys.{key_number, key_name, key_of, subject_key};

    /// The key of an object.
    pub fn of(object: &Object) -> ObjectKey
        ensures { result ≡ key_of object.now }
    {
        match object {
            Object::Local(queue) => ObjectKey::Queue(queue.name),
            Object::Alias(queue) => ObjectKey::Queue(queue.name),
            Object::Remote(queue) => ObjectKey::Queue(queue.name),
            Object::Channel(channel) => ObjectKey::Channel(channel.name),
            Object::Process(process) => ObjectKey::Process(process.name),
        }
    }

    /// The key of what a command names.
    pub fn of_subject(subject: &Subject) -> ObjectKey
        ensures { result ≡ subject_key subject.now }
    {
        match subject {
            Subject::Local(name) => ObjectKey::Queue(*name),
            Subject::Alias(name) => ObjectKey::Queue(*name),
            Subject::Remote(name) => ObjectKey::Queue(*name),
            Subject::Channel(name) => ObjectKey::Channel(*name),
            Subject::Process(name) => ObjectKey::Process(*name),
        }
    }

    fn number(&self) -> u8
        ensures { result ≡ key_number self.now }
    {
        match self {
            ObjectKey::Queue(_) => 0,
            ObjectKey::Channel(_) => 1,
            ObjectKey::Process(_) => 2,
        }
    }

    fn text(&self) -> &[u8]
        ensures { result.now ≡ key_name self.now }
    {
        match self {
            ObjectKey::Queue(name) => name.text(),
            ObjectKey::Channel(name) => name.text(),
            ObjectKey::Process(name) => name.text(),
        }
    }
}

impl PartialEq for ObjectKey {
    ghost use Rattle.mq_objects.specs.Keys.{same_key};

    ghost eq = { same_key };

    ghost laws = { Prim.search (comparing, rules) };

    fn eq(&self, other: &ObjectKey) -> bool {
        self.number() == other.number() && self.text() == other.text()
    }
}

impl Eq for ObjectKey {
    ghost laws = { Prim.search (comparing, rules) };
}

impl Hash for ObjectKey {
    ghost use Rattle.mq_objects.specs.Keys.{key_writes};

    ghost hash_input = { key_writes };

    ghost respects_eq = { Prim.search (hashing, rules) };

    fn hash<H: Hasher>(&self, state: &mut H) {
        state.write_u8(self.number());
        self.text().hash(state);
    }
}

/// A name in a name space. It finds the object whose key has that name.
#[derive(Clone, Copy)]
pub struct NameIn<'a> {
    /// The name space.
    pub space: NameSpace,
    /// The bytes of the name, without padding.
    pub name: &'a [u8],
}

impl NameIn<'_> {
    ghost use Rattle.mq_objects.specs.Keys.{space_number};

    fn number(&self) -> u8
        ensures { result ≡ space_number self.now.space }
    {
        match self.space {
            NameSpace::Queues => 0,
            NameSpace::Channels => 1,
            NameSpace::Processes => 2,
        }
    }
}

impl PartialEq for NameIn<'_> {
    ghost use Rattle.mq_objects.specs.Keys.{same_name};

    ghost eq = { same_name };

    ghost laws = { Prim.search (comparing, rules) };

    fn eq(&self, other: &NameIn<'_>) -> bool {
        self.number() == other.number() && self.name == other.name
    }
}

impl Eq for NameIn<'_> {
    ghost laws = { Prim.search (comparing, rules) };
}

impl Hash for NameIn<'_> {
    ghost use Rattle.mq_objects.specs.Keys.{name_writes};

    ghost hash_input = { name_writes };

    ghost respects_eq = { Prim.search (hashing, rules) };

    fn hash<H: Hasher>(&self, state: &mut H) {
        state.write_u8(self.number());
        self.name.hash(state);
    }
}

impl Equivalent<ObjectKey> for NameIn<'_> {
    ghost use Rattle.mq_objects.specs.Keys.{names, names_writes, names_others};

    ghost equivalent = { names };

    ghost respects_hash = { names_writes };

    ghost respects_eq = { λ n x y same. names_others n x same y };

    fn equivalent(&self, key: &ObjectKey) -> bool {
        self.number() == key.number() && self.name == key.text()
    }
}
