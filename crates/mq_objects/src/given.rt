//! Objects with the attributes that a command gives.
ghost use Rattle.std.specs.Prelude.{◌≡◌, OnOk, position};
ghost use Rattle.std.specs.Str.{bytes_eq};
ghost use Rattle.mq_objects.specs.Settings.{keep_attribute, set_local, set_alias, set_remote, typed, set_kind, set_channel, set_process, set_manager, set_object, set_all, set_all_manager};

use crate::copies::copy_text;
use crate::object::{
    AliasQueue, Channel, ChannelKind, KeptAttribute, LocalQueue, ManagerAttributes, Object,
    Process, RemoteQueue,
};
use crate::setting::{ChannelType, Setting};
use mq_base::{Items, QName};
use std::alloc::{AllocError, Global};

/// The place of the attribute that is kept under a keyword.
fn place_of(kept: &[KeptAttribute], keyword: &Items<u8>) -> Option<usize>
    ensures { result ≡ position (λ (k : KeptAttribute). bytes_eq keyword.now k.keyword) kept.now }
{
    kept.iter()
        .position(|k| keyword.as_slice() == k.keyword.as_slice())
}

/// Keeps an attribute without effect, in the place of the one with its keyword, else at the end.
fn put(kept: &mut Items<KeptAttribute>, attribute: KeptAttribute) -> Result<(), AllocError>
    ensures { OnOk result (kept.new ≡ keep_attribute attribute.keyword attribute.value kept.old) }
{
    match place_of(kept.as_slice(), &attribute.keyword) {
        Some(place) => {
            *kept.at_mut(place) = attribute;
            Ok(())
        }
        None => kept.push(attribute),
    }
}

fn keep(
    alloc: Global,
    kept: &mut Items<KeptAttribute>,
    keyword: &Items<u8>,
    value: &Items<u8>,
) -> Result<(), AllocError>
    ensures { OnOk result (kept.new ≡ keep_attribute keyword.now value.now kept.old) }
{
    let attribute = KeptAttribute {
        keyword: copy_text(alloc, keyword)?,
        value: copy_text(alloc, value)?,
    };
    put(kept, attribute)
}

impl LocalQueue {
    /// Gives the queue an attribute. One that a local queue does not have leaves it.
    pub fn give(&mut self, alloc: Global, setting: &Setting) -> Result<(), AllocError>
        ensures { OnOk result (self.new ≡ set_local setting.now self.old) }
    {
        match setting {
            Setting::DefaultPriority(n) => self.default_priority = *n,
            Setting::DefaultPersistent(b) => self.default_persistent = *b,
            Setting::GetEnabled(b) => self.get_enabled = *b,
            Setting::InitiationQueue(name) => self.initiation_queue = *name,
            Setting::MaxDepth(n) => self.max_depth = *n,
            Setting::MaxMessageLength(n) => self.max_message_length = *n,
            Setting::Delivery(d) => self.delivery = *d,
            Setting::Process(name) => self.process = *name,
            Setting::PutEnabled(b) => self.put_enabled = *b,
            Setting::TriggerData(text) => self.trigger_data = copy_text(alloc, text)?,
            Setting::TriggerDepth(n) => self.trigger_depth = *n,
            Setting::Trigger(b) => self.trigger = *b,
            Setting::TriggerPriority(n) => self.trigger_priority = *n,
            Setting::TriggerType(t) => self.trigger_type = *t,
            Setting::Usage(u) => self.usage = *u,
            Setting::Kept(keyword, value) => keep(alloc, &mut self.kept, keyword, value)?,
            _ => {}
        }
        Ok(())
    }
}

impl AliasQueue {
    /// Gives the alias an attribute. One that an alias does not have leaves it.
    pub fn give(&mut self, alloc: Global, setting: &Setting) -> Result<(), AllocError>
        ensures { OnOk result (self.new ≡ set_alias setting.now self.old) }
    {
        match setting {
            Setting::DefaultPriority(n) => self.default_priority = *n,
            Setting::DefaultPersistent(b) => self.default_persistent = *b,
            Setting::GetEnabled(b) => self.get_enabled = *b,
            Setting::PutEnabled(b) => self.put_enabled = *b,
            Setting::Target(name) => self.target = *name,
            Setting::Kept(keyword, value) => keep(alloc, &mut self.kept, keyword, value)?,
            _ => {}
        }
        Ok(())
    }
}

impl RemoteQueue {
    /// Gives the remote queue an attribute. One that a remote queue does not have leaves it.
    pub fn give(&mut self, alloc: Global, setting: &Setting) -> Result<(), AllocError>
        ensures { OnOk result (self.new ≡ set_remote setting.now self.old) }
    {
        match setting {
            Setting::DefaultPriority(n) => self.default_priority = *n,
            Setting::DefaultPersistent(b) => self.default_persistent = *b,
            Setting::PutEnabled(b) => self.put_enabled = *b,
            Setting::RemoteName(name) => self.remote_name = *name,
            Setting::RemoteManager(name) => self.remote_manager = *name,
            Setting::TransmissionQueue(name) => self.transmission_queue = *name,
            Setting::Kept(keyword, value) => keep(alloc, &mut self.kept, keyword, value)?,
            _ => {}
        }
        Ok(())
    }
}

impl ChannelKind {
    /// The kind that CHLTYPE gives: what it is already with its attributes, else the defaults.
    fn typed(self, channel_type: ChannelType) -> ChannelKind
        ensures { result ≡ typed channel_type self }
    {
        match (channel_type, self) {
            (ChannelType::Sender, ChannelKind::Receiver(_)) => {
                ChannelKind::Sender(50, 10, QName::blank())
            }
            (ChannelType::Receiver, ChannelKind::Sender(_, _, _)) => ChannelKind::Receiver(true),
            (_, kind) => kind,
        }
    }

    /// The kind with an attribute of one kind alone, or with CHLTYPE.
    fn given(self, setting: &Setting) -> ChannelKind
        ensures { result ≡ set_kind setting.now self }
    {
        match (setting, self) {
            (Setting::ChannelType(channel_type), kind) => kind.typed(*channel_type),
            (Setting::BatchSize(n), ChannelKind::Sender(_, retry, xmitq)) => {
                ChannelKind::Sender(*n, retry, xmitq)
            }
            (Setting::ShortRetry(n), ChannelKind::Sender(batch, _, xmitq)) => {
                ChannelKind::Sender(batch, *n, xmitq)
            }
            (Setting::TransmissionQueue(name), ChannelKind::Sender(batch, retry, _)) => {
                ChannelKind::Sender(batch, retry, *name)
            }
            (Setting::UseDeadLetterQueue(b), ChannelKind::Receiver(_)) => {
                ChannelKind::Receiver(*b)
            }
            (_, kind) => kind,
        }
    }
}

impl Channel {
    /// Gives the channel an attribute. One that a channel of its kind does not have leaves it.
    pub fn give(&mut self, alloc: Global, setting: &Setting) -> Result<(), AllocError>
        ensures { OnOk result (self.new ≡ set_channel setting.now self.old) }
    {
        match setting {
            Setting::SequenceWrap(n) => self.sequence_wrap = *n,
            Setting::Fast(b) => self.fast = *b,
            Setting::Kept(keyword, value) => keep(alloc, &mut self.kept, keyword, value)?,
            _ => self.kind = self.kind.given(setting),
        }
        Ok(())
    }
}

impl Process {
    /// Gives the process an attribute. One that a process does not have leaves it.
    pub fn give(&mut self, alloc: Global, setting: &Setting) -> Result<(), AllocError>
        ensures { OnOk result (self.new ≡ set_process setting.now self.old) }
    {
        match setting {
            Setting::ApplId(text) => self.appl_id = copy_text(alloc, text)?,
            Setting::ApplType(n) => self.appl_type = *n,
            Setting::EnvironmentData(text) => self.environment_data = copy_text(alloc, text)?,
            Setting::UserData(text) => self.user_data = copy_text(alloc, text)?,
            Setting::Kept(keyword, value) => keep(alloc, &mut self.kept, keyword, value)?,
            _ => {}
        }
        Ok(())
    }
}

impl ManagerAttributes {
    /// Gives the manager an attribute. One that a manager does not have leaves it.
    pub fn give(&mut self, alloc: Global, setting: &Setting) -> Result<(), AllocError>
        ensures { OnOk result (self.new ≡ set_manager setting.now self.old) }
    {
        match setting {
            Setting::DeadLetterQueue(name) => self.dead_letter_queue = *name,
            Setting::DefaultTransmissionQueue(name) => self.default_transmission_queue = *name,
            Setting::MaxHandles(n) => self.max_handles = *n,
            Setting::MaxMessageLength(n) => self.max_message_length = *n,
            Setting::MaxUncommitted(n) => self.max_uncommitted = *n,
            Setting::TriggerInterval(n) => self.trigger_interval = *n,
            Setting::Kept(keyword, value) => keep(alloc, &mut self.kept, keyword, value)?,
            _ => {}
        }
        Ok(())
    }

    /// Gives the manager all attributes of a command, in order.
    pub fn give_all(&mut self, alloc: Global, settings: &[Setting]) -> Result<(), AllocError>
        ensures { OnOk result (self.new ≡ set_all_manager settings.now self.old) }
    {
        for setting in settings {
            self.give(alloc, setting)?;
        }
        Ok(())
    }
}

impl Object {
    /// Gives the object an attribute. One that it does not have leaves it.
    pub fn give(&mut self, alloc: Global, setting: &Setting) -> Result<(), AllocError>
        ensures { OnOk result (self.new ≡ set_object setting.now self.old) }
    {
        match self {
            Object::Local(queue) => queue.give(alloc, setting),
            Object::Alias(queue) => queue.give(alloc, setting),
            Object::Remote(queue) => queue.give(alloc, setting),
            Object::Channel(channel) => channel.give(alloc, setting),
            Object::Process(process) => process.give(alloc, setting),
        }
    }

    /// Gives the object all attributes of a command, in order.
    pub fn give_all(&mut self, alloc: Global, settings: &[Setting]) -> Result<(), AllocError>
        ensures { OnOk result (self.new ≡ set_all settings.now self.old) }
    {
        for setting in settings {
            self.give(alloc, setting)?;
        }
        Ok(())
    }
}
