//! Objects of which a command gives no attribute.
ghost use Rattle.std.specs.Prelude.{◌≡◌};
ghost use Rattle.mq_objects.specs.Defaults.{new_local, new_alias, new_remote, new_channel, new_process, new_manager, new_object};

use crate::command::Subject;
use crate::object::{
    AliasQueue, Channel, ChannelKind, Delivery, LocalQueue, ManagerAttributes, Object, Process,
    RemoteQueue, TriggerType, Usage,
};
use mq_base::{ChName, Items, QName};
use std::alloc::Global;

impl LocalQueue {
    /// A local queue of which a command gives no attribute.
    pub fn new(alloc: Global, name: QName) -> LocalQueue
        ensures { result ≡ new_local name }
    {
        LocalQueue {
            name,
            default_priority: 0,
            default_persistent: false,
            get_enabled: true,
            initiation_queue: QName::blank(),
            max_depth: 5000,
            max_message_length: 4_194_304,
            delivery: Delivery::Priority,
            process: QName::blank(),
            put_enabled: true,
            trigger_data: Items::new(alloc),
            trigger_depth: 1,
            trigger: false,
            trigger_priority: 0,
            trigger_type: TriggerType::First,
            usage: Usage::Normal,
            kept: Items::new(alloc),
        }
    }
}

impl AliasQueue {
    /// An alias queue of which a command gives no attribute.
    pub fn new(alloc: Global, name: QName) -> AliasQueue
        ensures { result ≡ new_alias name }
    {
        AliasQueue {
            name,
            default_priority: 0,
            default_persistent: false,
            get_enabled: true,
            put_enabled: true,
            target: QName::blank(),
            kept: Items::new(alloc),
        }
    }
}

impl RemoteQueue {
    /// A remote queue of which a command gives no attribute.
    pub fn new(alloc: Global, name: QName) -> RemoteQueue
        ensures { result ≡ new_remote name }
    {
        RemoteQueue {
            name,
            default_priority: 0,
            default_persistent: false,
            put_enabled: true,
            remote_name: QName::blank(),
            remote_manager: QName::blank(),
            transmission_queue: QName::blank(),
            kept: Items::new(alloc),
        }
    }
}

impl Channel {
    /// A channel of which a command gives no attribute yet; CHLTYPE, which a DEFINE needs, says
    /// which kind it becomes.
    pub fn new(alloc: Global, name: ChName) -> Channel
        ensures { result ≡ new_channel name }
    {
        Channel {
            name,
            kind: ChannelKind::Sender(50, 10, QName::blank()),
            sequence_wrap: 999_999_999,
            fast: true,
            kept: Items::new(alloc),
        }
    }
}

impl Process {
    /// A process of which a command gives no attribute.
    pub fn new(alloc: Global, name: QName) -> Process
        ensures { result ≡ new_process name }
    {
        Process {
            name,
            appl_id: Items::new(alloc),
            appl_type: 6,
            environment_data: Items::new(alloc),
            user_data: Items::new(alloc),
            kept: Items::new(alloc),
        }
    }
}

impl ManagerAttributes {
    /// A manager's attributes where no command gives any.
    pub fn new(alloc: Global) -> ManagerAttributes
        ensures { result ≡ new_manager }
    {
        ManagerAttributes {
            dead_letter_queue: QName::blank(),
            default_transmission_queue: QName::blank(),
            max_handles: 256,
            max_message_length: 4_194_304,
            max_uncommitted: 10_000,
            trigger_interval: 999_999_999,
            kept: Items::new(alloc),
        }
    }
}

impl Object {
    /// The object that a command names, with each attribute at its default.
    pub fn new(alloc: Global, subject: &Subject) -> Object
        ensures { result ≡ new_object subject.now }
    {
        match subject {
            Subject::Local(name) => Object::Local(LocalQueue::new(alloc, *name)),
            Subject::Alias(name) => Object::Alias(AliasQueue::new(alloc, *name)),
            Subject::Remote(name) => Object::Remote(RemoteQueue::new(alloc, *name)),
            Subject::Channel(name) => Object::Channel(Channel::new(alloc, *name)),
            Subject::Process(name) => Object::Process(Process::new(alloc, *name)),
        }
    }
}
