//! DEFINE, ALTER and DELETE: what refuses them, and the change that each makes.
ghost use Rattle.std.specs.Prelude.{◌≡◌, Some, OnOk, IfOk, filter};
ghost use Rattle.std.specs.List.{list_any};
ghost use Rattle.mq_calls.specs.from_objects.Settings.{set_all, set_all_manager};
ghost use Rattle.mq_sc_apply.specs.Planned.{is_type_setting, defined_object, changed, define_at, define, bad_keyword, first_bad, bad_in, is_trigger_setting, switches_on, alter_good, alter_at, alter, default_changes, alter_attributes, alter_manager, delete_at, delete};
ghost use Rattle.mq_sc_apply.specs.Commands.{Gives};

use crate::answers::Planned;
use crate::changes::{
    changes_rows, is_busy, is_filled, is_on_path, is_sent_from, is_used, leads_elsewhere,
};
use crate::in_use::InUse;
use mq_calls::ScRefusal;
use mq_calls::below::{
    Alter, AlterManager, ChannelKind, ChannelType, Define, Defs, Delete, Keyword,
    ManagerAttributes, Object, ObjectChange, Setting, Subject, is_kind,
};
use std::alloc::{AllocError, Global};

fn is_type_setting(setting: &Setting) -> bool
    ensures { result ≡ is_type_setting setting.now }
{
    matches!(setting, Setting::ChannelType(_))
}

fn give_types(alloc: Global, object: &mut Object, settings: &[Setting]) -> Result<(), AllocError>
    ensures { OnOk result (object.new ≡ set_all (filter is_type_setting settings.now) object.old) }
{
    for setting in settings {
        if is_type_setting(setting) {
            object.give(alloc, setting)?;
        }
    }
    Ok(())
}

/// The object that a DEFINE makes: CHLTYPE first, then all that it gives.
///
/// # Errors
///
/// No memory.
pub fn defined_object(
    alloc: Global,
    subject: &Subject,
    settings: &[Setting],
) -> Result<Object, AllocError>
    ensures { IfOk result (λ object. object ≡ defined_object subject.now settings.now) }
{
    let mut object = Object::new(alloc, subject);
    give_types(alloc, &mut object, settings)?;
    object.give_all(alloc, settings)?;
    Ok(object)
}

fn altered_object(alloc: Global, old: &Object, settings: &[Setting]) -> Result<Object, AllocError>
    ensures { IfOk result (λ object. object ≡ set_all settings.now old.now) }
{
    let mut object = old.try_clone(alloc)?;
    object.give_all(alloc, settings)?;
    Ok(object)
}

fn altered_manager(
    alloc: Global,
    old: &ManagerAttributes,
    settings: &[Setting],
) -> Result<ManagerAttributes, AllocError>
    ensures { IfOk result (λ new. new ≡ set_all_manager settings.now old.now) }
{
    let mut new = old.try_clone(alloc)?;
    new.give_all(alloc, settings)?;
    Ok(new)
}

/// A change from one object to another of its name and kind.
fn changed<U: InUse>(
    force: bool,
    old: &Object,
    new: Object,
    on: bool,
    uses: &U,
) -> Result<Planned, ScRefusal>
    ensures { result ≡ changed force old.now new on (U.facts uses.now) }
{
    if is_used(force, old, &new, uses) {
        return Err(ScRefusal::InUse);
    }
    if changes_rows(old, &new) && is_filled(old, uses) {
        return Err(ScRefusal::NotEmpty);
    }
    let reroutes = leads_elsewhere(old, &new);
    Ok(Planned {
        change: ObjectChange::Set(new),
        reroutes,
        switches_on: on,
    })
}

fn define_over<U: InUse>(
    alloc: Global,
    command: &Define,
    old: &Object,
    uses: &U,
) -> Result<Planned, ScRefusal>
    ensures { Gives result (define_at command.now (defined_object command.now.subject command.now.settings) (Some old.now) (U.facts uses.now)) }
{
    if !command.replace || !is_kind(&command.subject, old) {
        return Err(ScRefusal::Exists);
    }
    let made = defined_object(alloc, &command.subject, command.settings.as_slice());
    match made {
        Ok(new) => changed(false, old, new, false, uses),
        Err(_) => Err(ScRefusal::NoMemory),
    }
}

/// DEFINE.
pub fn define<U: InUse>(
    alloc: Global,
    defs: &Defs,
    command: &Define,
    uses: &U,
) -> Result<Planned, ScRefusal>
    ensures { Gives result (define command.now defs.now.definitions (U.facts uses.now)) }
{
    if let Some(old) = defs.named(&command.subject) {
        return define_over(alloc, command, old, uses);
    }
    match defined_object(alloc, &command.subject, command.settings.as_slice()) {
        Ok(new) => Ok(Planned {
            change: ObjectChange::Set(new),
            reroutes: false,
            switches_on: false,
        }),
        Err(_) => Err(ScRefusal::NoMemory),
    }
}

/// The keyword of a setting that a channel of that kind cannot take.
fn bad_keyword(kind: &ChannelKind, setting: &Setting) -> Option<Keyword>
    ensures { result ≡ bad_keyword kind.now setting.now }
{
    match (kind, setting) {
        (ChannelKind::Sender(_, _, _), Setting::ChannelType(ChannelType::Receiver)) => {
            Some(Keyword::ChlType)
        }
        (ChannelKind::Sender(_, _, _), Setting::UseDeadLetterQueue(_)) => Some(Keyword::UseDlq),
        (ChannelKind::Receiver(_), Setting::ChannelType(ChannelType::Sender)) => {
            Some(Keyword::ChlType)
        }
        (ChannelKind::Receiver(_), Setting::BatchSize(_)) => Some(Keyword::BatchSz),
        (ChannelKind::Receiver(_), Setting::ShortRetry(_)) => Some(Keyword::ShortRty),
        (ChannelKind::Receiver(_), Setting::TransmissionQueue(_)) => Some(Keyword::XmitQ),
        _ => None,
    }
}

fn first_bad(kind: &ChannelKind, settings: &[Setting]) -> Option<Keyword>
    ensures { result ≡ first_bad kind.now settings.now }
{
    for setting in settings {
        if let Some(keyword) = bad_keyword(kind, setting) {
            return Some(keyword);
        }
    }
    None
}

/// The first keyword of an ALTER that the channel which is there cannot take.
fn bad_in(object: &Object, settings: &[Setting]) -> Option<Keyword>
    ensures { result ≡ bad_in object.now settings.now }
{
    match object {
        Object::Channel(channel) => first_bad(&channel.kind, settings),
        _ => None,
    }
}

fn is_trigger_setting(setting: &Setting) -> bool
    ensures { result ≡ is_trigger_setting setting.now }
{
    matches!(setting, Setting::Trigger(true))
}

fn has_trigger(settings: &[Setting]) -> bool
    ensures { result ≡ list_any is_trigger_setting settings.now }
{
    settings.iter().any(|setting| is_trigger_setting(setting))
}

fn switches_on(object: &Object, settings: &[Setting]) -> bool
    ensures { result ≡ switches_on object.now settings.now }
{
    match object {
        Object::Local(_) => has_trigger(settings),
        _ => false,
    }
}

fn alter_good<U: InUse>(
    alloc: Global,
    command: &Alter,
    old: &Object,
    uses: &U,
) -> Result<Planned, ScRefusal>
    ensures { Gives result (alter_good (bad_in old.now command.now.settings) command.now old.now (U.facts uses.now)) }
{
    if let Some(keyword) = bad_in(old, command.settings.as_slice()) {
        return Err(ScRefusal::BadValue(keyword));
    }
    let on = switches_on(old, command.settings.as_slice());
    match altered_object(alloc, old, command.settings.as_slice()) {
        Ok(new) => changed(command.force, old, new, on, uses),
        Err(_) => Err(ScRefusal::NoMemory),
    }
}

/// ALTER of an object.
pub fn alter<U: InUse>(
    alloc: Global,
    defs: &Defs,
    command: &Alter,
    uses: &U,
) -> Result<Planned, ScRefusal>
    ensures { Gives result (alter command.now defs.now.definitions (U.facts uses.now)) }
{
    match defs.named(&command.subject) {
        Some(old) if is_kind(&command.subject, old) => alter_good(alloc, command, old, uses),
        _ => Err(ScRefusal::Missing),
    }
}

/// ALTER QMGR.
pub fn alter_manager<U: InUse>(
    alloc: Global,
    defs: &Defs,
    command: &AlterManager,
    uses: &U,
) -> Result<Planned, ScRefusal>
    ensures { Gives result (alter_manager command.now defs.now.definitions (U.facts uses.now)) }
{
    let old = defs.manager();
    let Ok(new) = altered_manager(alloc, old, command.settings.as_slice()) else {
        return Err(ScRefusal::NoMemory);
    };
    let reroutes = old.default_transmission_queue != new.default_transmission_queue;
    if !command.force && reroutes && uses.defxmitq_on_path() {
        return Err(ScRefusal::InUse);
    }
    Ok(Planned {
        change: ObjectChange::SetManager(new),
        reroutes,
        switches_on: false,
    })
}

fn delete_there<U: InUse>(command: &Delete, old: &Object, uses: &U) -> Result<Planned, ScRefusal>
    ensures { result ≡ delete_at command.now (Some old.now) (U.facts uses.now) }
{
    if !is_kind(&command.subject, old) {
        return Err(ScRefusal::Missing);
    }
    if is_on_path(old, uses) || is_sent_from(old, uses) || is_busy(old, uses) {
        return Err(ScRefusal::InUse);
    }
    if is_filled(old, uses) {
        return Err(ScRefusal::NotEmpty);
    }
    Ok(Planned {
        change: ObjectChange::Delete(command.subject),
        reroutes: false,
        switches_on: false,
    })
}

/// DELETE. It takes no memory.
pub fn delete<U: InUse>(defs: &Defs, command: &Delete, uses: &U) -> Result<Planned, ScRefusal>
    ensures { result ≡ delete command.now defs.now.definitions (U.facts uses.now) }
{
    match defs.named(&command.subject) {
        Some(old) => delete_there(command, old, uses),
        None => Err(ScRefusal::Missing),
    }
}
