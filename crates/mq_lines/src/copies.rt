//! Copies of commands, which an entry keeps.
ghost use Rattle.std.specs.Prelude.{◌≡◌, IfOk};
ghost use Rattle.mq_objects.specs.declared.setting.Setting.TheVariants as settings;

use mq_base::{Items, NoMemory};
use mq_objects::{Alter, AlterManager, Define, Delete, Display, Keyword, Setting};
use mq_sc_parse::Command;
use std::alloc::Global;

fn copy_text(alloc: Global, text: &Items<u8>) -> Result<Items<u8>, NoMemory>
    ensures { IfOk result (λ copy. copy ≡ text.now) }
{
    Ok(Items::from_slice(alloc, text.as_slice())?)
}

fn copy_keywords(alloc: Global, keywords: &Items<Keyword>) -> Result<Items<Keyword>, NoMemory>
    ensures { IfOk result (λ copy. copy ≡ keywords.now) }
{
    Ok(Items::from_slice(alloc, keywords.as_slice())?)
}

/// An attribute that is kept without effect.
fn copy_kept(alloc: Global, keyword: &Items<u8>, value: &Items<u8>) -> Result<Setting, NoMemory>
    ensures { IfOk result (λ copy. copy ≡ settings.Kept keyword.now value.now) }
{
    let keyword = copy_text(alloc, keyword)?;
    let value = copy_text(alloc, value)?;
    Ok(Setting::Kept(keyword, value))
}

/// A setting that has a text.
fn copy_setting(alloc: Global, setting: &Setting) -> Result<Setting, NoMemory>
    ensures { IfOk result (λ copy. copy ≡ setting.now) }
{
    match setting {
        Setting::DefaultPriority(value) => Ok(Setting::DefaultPriority(*value)),
        Setting::DefaultPersistent(value) => Ok(Setting::DefaultPersistent(*value)),
        Setting::GetEnabled(value) => Ok(Setting::GetEnabled(*value)),
        Setting::InitiationQueue(value) => Ok(Setting::InitiationQueue(*value)),
        Setting::MaxDepth(value) => Ok(Setting::MaxDepth(*value)),
        Setting::MaxMessageLength(value) => Ok(Setting::MaxMessageLength(*value)),
        Setting::Delivery(value) => Ok(Setting::Delivery(*value)),
        Setting::Process(value) => Ok(Setting::Process(*value)),
        Setting::PutEnabled(value) => Ok(Setting::PutEnabled(*value)),
        Setting::TriggerData(text) => Ok(Setting::TriggerData(copy_text(alloc, text)?)),
        Setting::TriggerDepth(value) => Ok(Setting::TriggerDepth(*value)),
        Setting::Trigger(value) => Ok(Setting::Trigger(*value)),
        Setting::TriggerPriority(value) => Ok(Setting::TriggerPriority(*value)),
        Setting::TriggerType(value) => Ok(Setting::TriggerType(*value)),
        Setting::Usage(value) => Ok(Setting::Usage(*value)),
        Setting::Target(value) => Ok(Setting::Target(*value)),
        Setting::RemoteName(value) => Ok(Setting::RemoteName(*value)),
        Setting::RemoteManager(value) => Ok(Setting::RemoteManager(*value)),
        Setting::TransmissionQueue(value) => Ok(Setting::TransmissionQueue(*value)),
        Setting::ChannelType(value) => Ok(Setting::ChannelType(*value)),
        Setting::BatchSize(value) => Ok(Setting::BatchSize(*value)),
        Setting::SequenceWrap(value) => Ok(Setting::SequenceWrap(*value)),
        Setting::ShortRetry(value) => Ok(Setting::ShortRetry(*value)),
        Setting::UseDeadLetterQueue(value) => Ok(Setting::UseDeadLetterQueue(*value)),
        Setting::Fast(value) => Ok(Setting::Fast(*value)),
        Setting::ApplId(text) => Ok(Setting::ApplId(copy_text(alloc, text)?)),
        Setting::ApplType(value) => Ok(Setting::ApplType(*value)),
        Setting::EnvironmentData(text) => Ok(Setting::EnvironmentData(copy_text(alloc, text)?)),
        Setting::UserData(text) => Ok(Setting::UserData(copy_text(alloc, text)?)),
        Setting::DeadLetterQueue(value) => Ok(Setting::DeadLetterQueue(*value)),
        Setting::DefaultTransmissionQueue(value) => Ok(Setting::DefaultTransmissionQueue(*value)),
        Setting::MaxHandles(value) => Ok(Setting::MaxHandles(*value)),
        Setting::MaxUncommitted(value) => Ok(Setting::MaxUncommitted(*value)),
        Setting::TriggerInterval(value) => Ok(Setting::TriggerInterval(*value)),
        Setting::Kept(keyword, value) => copy_kept(alloc, keyword, value),
    }
}

fn copy_settings(alloc: Global, settings: &Items<Setting>) -> Result<Items<Setting>, NoMemory>
    ensures { IfOk result (λ copy. copy ≡ settings.now) }
{
    let mut copies = Items::new(alloc);
    for setting in settings.as_slice() {
        copies.push(copy_setting(alloc, setting)?)?;
    }
    Ok(copies)
}

fn copy_define(alloc: Global, define: &Define) -> Result<Define, NoMemory>
    ensures { IfOk result (λ copy. copy ≡ define.now) }
{
    let settings = copy_settings(alloc, &define.settings)?;
    Ok(Define {
        subject: define.subject,
        replace: define.replace,
        settings,
    })
}

fn copy_alter(alloc: Global, alter: &Alter) -> Result<Alter, NoMemory>
    ensures { IfOk result (λ copy. copy ≡ alter.now) }
{
    let settings = copy_settings(alloc, &alter.settings)?;
    Ok(Alter {
        subject: alter.subject,
        force: alter.force,
        settings,
    })
}

fn copy_alter_manager(alloc: Global, alter: &AlterManager) -> Result<AlterManager, NoMemory>
    ensures { IfOk result (λ copy. copy ≡ alter.now) }
{
    let settings = copy_settings(alloc, &alter.settings)?;
    Ok(AlterManager {
        force: alter.force,
        settings,
    })
}

fn copy_display(alloc: Global, display: &Display) -> Result<Display, NoMemory>
    ensures { IfOk result (λ copy. copy ≡ display.now) }
{
    let name = copy_text(alloc, &display.name)?;
    let asked = copy_keywords(alloc, &display.asked)?;
    Ok(Display {
        subjects: display.subjects,
        name,
        any_end: display.any_end,
        asked,
    })
}

fn copy_objects(
    alloc: Global,
    command: &mq_objects::Command,
) -> Result<mq_objects::Command, NoMemory>
    ensures { IfOk result (λ copy. copy ≡ command.now) }
{
    match command {
        mq_objects::Command::Define(define) => Ok(mq_objects::Command::Define(copy_define(
            alloc, define,
        )?)),
        mq_objects::Command::Alter(alter) => Ok(mq_objects::Command::Alter(copy_alter(
            alloc, alter,
        )?)),
        mq_objects::Command::AlterManager(alter) => Ok(mq_objects::Command::AlterManager(
            copy_alter_manager(alloc, alter)?,
        )),
        mq_objects::Command::Delete(delete) => Ok(mq_objects::Command::Delete(Delete {
            subject: delete.subject,
        })),
        mq_objects::Command::Display(display) => Ok(mq_objects::Command::Display(copy_display(
            alloc, display,
        )?)),
    }
}

/// A copy of a command.
///
/// # Errors
///
/// No memory.
pub fn copy_command(alloc: Global, command: &Command) -> Result<Command, NoMemory>
    ensures { IfOk result (λ copy. copy ≡ command.now) }
{
    match command {
        Command::Objects(objects) => Ok(Command::Objects(copy_objects(alloc, objects)?)),
        Command::Operate(op) => Ok(Command::Operate(*op)),
        Command::ShowStatus { name, any_end } => Ok(Command::ShowStatus {
            name: *name,
            any_end: *any_end,
        }),
    }
}
