//! What a keyword with its value gives an object: the ranges of all attributes.

ghost use Rattle.std.specs.Prelude.{◌≡◌, IfOk};
ghost use Rattle.mq_objects.specs.declared.setting.Setting.TheVariants as settings;
ghost use Rattle.mq_sc_keys.specs.declared.giving.Given.TheVariants as given;
ghost use Rattle.mq_sc_keys.specs.Values.{is_absent, alone, kept_value, kept_flag, length_given, given_without_effect, given_beside_queues, given_of};

use crate::attributes::Kind;
use crate::keys::Key;
use crate::value::Value;
use crate::values::{
    appl_type_value, choice_value, delivery_value, enabled_or_not, name_value, number_value,
    priority_value, text_value, trigger_type_value, type_value, usage_value, yes_or_no,
};
use mq_objects::Setting;
use mq_objects::below::Items;
use std::alloc::{AllocError, Global};

/// What a keyword of DEFINE or ALTER gives.
#[derive(Drop)]
pub enum Given {
    /// Its value is none that it may have.
    Bad,
    /// No attribute: REPLACE, NOREPLACE, FORCE.
    Nothing,
    /// An attribute with its value.
    Setting(Setting),
}

macro_rules! set {
    ($value:expr, $setting:path) => {
        match $value {
            Some(value) => Ok(Given::Setting($setting(value))),
            None => Ok(Given::Bad),
        }
    };
}

fn is_absent(value: &Value) -> bool
    ensures { result ≡ is_absent value.now }
{
    match value {
        Value::Absent => true,
        Value::Text(_) | Value::Malformed => false,
    }
}

fn kept_value(alloc: Global, key: Key, value: &Value) -> Result<Given, AllocError>
    ensures { IfOk result (λ g. g ≡ kept_value key value.now) }
{
    let Some(text) = text_value(alloc, value, 264)? else {
        return Ok(Given::Bad);
    };
    let keyword = Items::from_slice(alloc, key.text())?;
    Ok(Given::Setting(Setting::Kept(keyword, text)))
}

fn kept_flag(alloc: Global, key: Key, value: &Value) -> Result<Given, AllocError>
    ensures { IfOk result (λ g. g ≡ kept_flag key value.now) }
{
    if !is_absent(value) {
        return Ok(Given::Bad);
    }
    let keyword = Items::from_slice(alloc, key.group().text())?;
    let flag = Items::from_slice(alloc, key.text())?;
    Ok(Given::Setting(Setting::Kept(keyword, flag)))
}

fn trigger_flag(trigger: bool, value: &Value) -> Given
    ensures { result ≡ alone (given.Setting (settings.Trigger trigger)) value.now }
{
    if is_absent(value) {
        Given::Setting(Setting::Trigger(trigger))
    } else {
        Given::Bad
    }
}

fn option_flag(value: &Value) -> Given
    ensures { result ≡ alone given.Nothing value.now }
{
    if is_absent(value) {
        Given::Nothing
    } else {
        Given::Bad
    }
}

fn length_given(alloc: Global, kind: Kind, value: &Value) -> Result<Given, AllocError>
    ensures { IfOk result (λ g. g ≡ length_given kind value.now) }
{
    match kind {
        Kind::Manager => set!(
            number_value(value, 32768, 4_194_304),
            Setting::MaxMessageLength
        ),
        Kind::Channel | Kind::Sender | Kind::Receiver => kept_value(alloc, Key::MaxMsgL, value),
        Kind::Local | Kind::Alias | Kind::Remote | Kind::Process | Kind::Queue | Kind::Status => {
            set!(number_value(value, 0, 4_194_304), Setting::MaxMessageLength)
        }
    }
}

/// What an attribute without effect gives, or an option.
fn given_without_effect(alloc: Global, key: Key, value: &Value) -> Result<Given, AllocError>
    ensures { IfOk result (λ g. g ≡ given_without_effect key value.now) }
{
    match key {
        Key::Share | Key::NoShare | Key::HardenBo | Key::NoHardenBo => kept_flag(alloc, key, value),
        Key::Descr
        | Key::DefSOpt
        | Key::BoThresh
        | Key::BoQName
        | Key::QDepthHi
        | Key::QDepthLo
        | Key::ConName
        | Key::TrpType
        | Key::DiscInt
        | Key::HbInt
        | Key::BatchInt
        | Key::LongRty
        | Key::LongTmr
        | Key::ShortTmr => kept_value(alloc, key, value),
        Key::Replace | Key::NoReplace | Key::Force => Ok(option_flag(value)),
        _ => Ok(Given::Bad),
    }
}

/// What an attribute gives that is none of queues, or an option.
fn given_beside_queues(alloc: Global, key: Key, value: &Value) -> Result<Given, AllocError>
    ensures { IfOk result (λ g. g ≡ given_beside_queues key value.now) }
{
    match key {
        Key::ChlType => set!(type_value(value), Setting::ChannelType),
        Key::BatchSz => set!(number_value(value, 1, 9999), Setting::BatchSize),
        Key::SeqWrap => set!(number_value(value, 100, 999_999_999), Setting::SequenceWrap),
        Key::ShortRty => set!(number_value(value, 0, 999_999_999), Setting::ShortRetry),
        Key::UseDlq => set!(yes_or_no(value), Setting::UseDeadLetterQueue),
        Key::NpmSpeed => set!(choice_value(value, b"FAST", b"NORMAL"), Setting::Fast),
        Key::ApplicId => set!(text_value(alloc, value, 256)?, Setting::ApplId),
        Key::ApplType => set!(appl_type_value(value), Setting::ApplType),
        Key::EnvrData => set!(text_value(alloc, value, 128)?, Setting::EnvironmentData),
        Key::UserData => set!(text_value(alloc, value, 128)?, Setting::UserData),
        Key::DeadQ => set!(name_value(value), Setting::DeadLetterQueue),
        Key::DefXmitQ => set!(name_value(value), Setting::DefaultTransmissionQueue),
        Key::MaxHands => set!(number_value(value, 0, 999_999_999), Setting::MaxHandles),
        Key::MaxUMsgs => set!(number_value(value, 1, 999_999_999), Setting::MaxUncommitted),
        Key::TrigInt => set!(
            number_value(value, 0, 999_999_999),
            Setting::TriggerInterval
        ),
        other => given_without_effect(alloc, other, value),
    }
}

/// What a keyword gives with its value. Source: MQSC reference, DEFINE QLOCAL, DEFINE QALIAS, DEFINE
/// QREMOTE, DEFINE CHANNEL, DEFINE PROCESS and ALTER QMGR; the subset is this project's choice.
///
/// # Errors
///
/// No memory. A value that the keyword may not have is `Bad`.
pub fn given_of(alloc: Global, kind: Kind, key: Key, value: &Value) -> Result<Given, AllocError>
    ensures { IfOk result (λ g. g ≡ given_of kind key value.now) }
{
    match key {
        Key::DefPrty => set!(priority_value(value), Setting::DefaultPriority),
        Key::DefPsist => set!(yes_or_no(value), Setting::DefaultPersistent),
        Key::Get => set!(enabled_or_not(value), Setting::GetEnabled),
        Key::InitQ => set!(name_value(value), Setting::InitiationQueue),
        Key::MaxDepth => set!(number_value(value, 0, 999_999_999), Setting::MaxDepth),
        Key::MaxMsgL => length_given(alloc, kind, value),
        Key::MsgDlvSq => set!(delivery_value(value), Setting::Delivery),
        Key::Process => set!(name_value(value), Setting::Process),
        Key::Put => set!(enabled_or_not(value), Setting::PutEnabled),
        Key::TrigData => set!(text_value(alloc, value, 64)?, Setting::TriggerData),
        Key::TrigDpth => set!(number_value(value, 1, 999_999_999), Setting::TriggerDepth),
        Key::Trigger => Ok(trigger_flag(true, value)),
        Key::NoTrigger => Ok(trigger_flag(false, value)),
        Key::TrigMPri => set!(priority_value(value), Setting::TriggerPriority),
        Key::TrigType => set!(trigger_type_value(value), Setting::TriggerType),
        Key::Usage => set!(usage_value(value), Setting::Usage),
        Key::Target | Key::TargQ => set!(name_value(value), Setting::Target),
        Key::RName => set!(name_value(value), Setting::RemoteName),
        Key::RQMName => set!(name_value(value), Setting::RemoteManager),
        Key::XmitQ => set!(name_value(value), Setting::TransmissionQueue),
        other => given_beside_queues(alloc, other, value),
    }
}
