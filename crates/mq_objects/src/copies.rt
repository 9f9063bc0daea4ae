//! Copies of objects, which an ALTER changes, and of the definitions of a manager.
ghost use Rattle.std.specs.Prelude.{◌≡◌, IfOk};
ghost use Rattle.mq_objects.specs.Slots.{present};

use crate::defs::Defs;
use crate::object::{
    AliasQueue, Channel, Definitions, KeptAttribute, LocalQueue, ManagerAttributes, Object,
    Process, RemoteQueue,
};
use mq_base::Items;
use std::alloc::{AllocError, Global};

/// A copy of a text.
pub fn copy_text(alloc: Global, text: &Items<u8>) -> Result<Items<u8>, AllocError>
    ensures { IfOk result (λ copy. copy ≡ text.now) }
{
    Items::from_slice(alloc, text.as_slice())
}

impl KeptAttribute {
    /// A copy, or `AllocError` where memory is short.
    pub fn try_clone(&self, alloc: Global) -> Result<KeptAttribute, AllocError>
        ensures { IfOk result (λ copy. copy ≡ self.now) }
    {
        Ok(KeptAttribute {
            keyword: copy_text(alloc, &self.keyword)?,
            value: copy_text(alloc, &self.value)?,
        })
    }
}

fn copy_kept(alloc: Global, kept: &Items<KeptAttribute>) -> Result<Items<KeptAttribute>, AllocError>
    ensures { IfOk result (λ copy. copy ≡ kept.now) }
{
    let mut copies = Items::new(alloc);
    for attribute in kept.as_slice() {
        copies.push(attribute.try_clone(alloc)?)?;
    }
    Ok(copies)
}

impl LocalQueue {
    /// A copy, or `AllocError` where memory is short.
    pub fn try_clone(&self, alloc: Global) -> Result<LocalQueue, AllocError>
        ensures { IfOk result (λ copy. copy ≡ self.now) }
    {
        Ok(LocalQueue {
            name: self.name,
            default_priority: self.default_priority,
            default_persistent: self.default_persistent,
            get_enabled: self.get_enabled,
            initiation_queue: self.initiation_queue,
            max_depth: self.max_depth,
            max_message_length: self.max_message_length,
            delivery: self.delivery,
            process: self.process,
            put_enabled: self.put_enabled,
            trigger_data: copy_text(alloc, &self.trigger_data)?,
            trigger_depth: self.trigger_depth,
            trigger: self.trigger,
            trigger_priority: self.trigger_priority,
            trigger_type: self.trigger_type,
            usage: self.usage,
            kept: copy_kept(alloc, &self.kept)?,
        })
    }
}

impl AliasQueue {
    /// A copy, or `AllocError` where memory is short.
    pub fn try_clone(&self, alloc: Global) -> Result<AliasQueue, AllocError>
        ensures { IfOk result (λ copy. copy ≡ self.now) }
    {
        Ok(AliasQueue {
            name: self.name,
            default_priority: self.default_priority,
            default_persistent: self.default_persistent,
            get_enabled: self.get_enabled,
            put_enabled: self.put_enabled,
            target: self.target,
            kept: copy_kept(alloc, &self.kept)?,
        })
    }
}

impl RemoteQueue {
    /// A copy, or `AllocError` where memory is short.
    pub fn try_clone(&self, alloc: Global) -> Result<RemoteQueue, AllocError>
        ensures { IfOk result (λ copy. copy ≡ self.now) }
    {
        Ok(RemoteQueue {
            name: self.name,
            default_priority: self.default_priority,
            default_persistent: self.default_persistent,
            put_enabled: self.put_enabled,
            remote_name: self.remote_name,
            remote_manager: self.remote_manager,
            transmission_queue: self.transmission_queue,
            kept: copy_kept(alloc, &self.kept)?,
        })
    }
}

impl Channel {
    /// A copy, or `AllocError` where memory is short.
    pub fn try_clone(&self, alloc: Global) -> Result<Channel, AllocError>
        ensures { IfOk result (λ copy. copy ≡ self.now) }
    {
        Ok(Channel {
            name: self.name,
            kind: self.kind,
            sequence_wrap: self.sequence_wrap,
            fast: self.fast,
            kept: copy_kept(alloc, &self.kept)?,
        })
    }
}

impl Process {
    /// A copy, or `AllocError` where memory is short.
    pub fn try_clone(&self, alloc: Global) -> Result<Process, AllocError>
        ensures { IfOk result (λ copy. copy ≡ self.now) }
    {
        Ok(Process {
            name: self.name,
            appl_id: copy_text(alloc, &self.appl_id)?,
            appl_type: self.appl_type,
            environment_data: copy_text(alloc, &self.environment_data)?,
            user_data: copy_text(alloc, &self.user_data)?,
            kept: copy_kept(alloc, &self.kept)?,
        })
    }
}

impl ManagerAttributes {
    /// A copy, or `AllocError` where memory is short.
    pub fn try_clone(&self, alloc: Global) -> Result<ManagerAttributes, AllocError>
        ensures { IfOk result (λ copy. copy ≡ self.now) }
    {
        Ok(ManagerAttributes {
            dead_letter_queue: self.dead_letter_queue,
            default_transmission_queue: self.default_transmission_queue,
            max_handles: self.max_handles,
            max_message_length: self.max_message_length,
            max_uncommitted: self.max_uncommitted,
            trigger_interval: self.trigger_interval,
            kept: copy_kept(alloc, &self.kept)?,
        })
    }
}

impl Object {
    /// A copy, or `AllocError` where memory is short.
    pub fn try_clone(&self, alloc: Global) -> Result<Object, AllocError>
        ensures { IfOk result (λ copy. copy ≡ self.now) }
    {
        Ok(match self {
            Object::Local(queue) => Object::Local(queue.try_clone(alloc)?),
            Object::Alias(queue) => Object::Alias(queue.try_clone(alloc)?),
            Object::Remote(queue) => Object::Remote(queue.try_clone(alloc)?),
            Object::Channel(channel) => Object::Channel(channel.try_clone(alloc)?),
            Object::Process(process) => Object::Process(process.try_clone(alloc)?),
        })
    }
}

fn copy_objects(alloc: Global, slots: &[Option<Object>]) -> Result<Items<Object>, AllocError>
    ensures { IfOk result (λ objects. objects ≡ present slots.now) }
{
    let mut objects = Items::new(alloc);
    for slot in slots {
        let Some(object) = slot else {
            continue;
        };
        objects.push(object.try_clone(alloc)?)?;
    }
    Ok(objects)
}

/// A copy of the definitions, in order of definition, or `AllocError` where memory is short.
pub fn copy_definitions(alloc: Global, defs: &Defs) -> Result<Definitions, AllocError>
    ensures { IfOk result (λ d. d ≡ defs.now.definitions) }
{
    Ok(Definitions {
        objects: copy_objects(alloc, defs.slots())?,
        manager: defs.manager().try_clone(alloc)?,
    })
}
