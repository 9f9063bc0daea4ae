//! What DISPLAY shows for a keyword, and rules over the tables of keywords.

ghost use Rattle.std.specs.Prelude.{◌≡◌, ℕ, Bool, List, [], ◌∷◌};
ghost use Rattle.mq_objects.specs.declared.object.LocalQueue.{LocalQueue};
ghost use Rattle.mq_objects.specs.declared.object.AliasQueue.{AliasQueue};
ghost use Rattle.mq_objects.specs.declared.object.RemoteQueue.{RemoteQueue};
ghost use Rattle.mq_objects.specs.declared.object.Process.{Process};
ghost use Rattle.mq_objects.specs.declared.object.ManagerAttributes.{ManagerAttributes};
ghost use Rattle.mq_objects.specs.declared.object.ChannelKind.TheVariants as channels;
ghost use Rattle.mq_objects.specs.Attributes.{local_attributes, alias_attributes, remote_attributes, channel_attributes, process_attributes, manager_attributes};
ghost use Rattle.mq_sc_keys.specs.declared.attributes.Kind.TheVariants as kinds;
ghost use Rattle.mq_sc_keys.specs.Attributes.{attributes_of};
ghost use Rattle.mq_sc_keys.specs.Shown.{keyword_of, AllKnown, NoneElse, AreAllOf};

use crate::keys::Key;
use mq_objects::Keyword;

/// What DISPLAY shows for a keyword; nothing for one that is kept without effect.
pub fn keyword_of(key: Key) -> Keyword
    ensures { result ≡ keyword_of key }
{
    match key {
        Key::DefPrty => Keyword::DefPrty,
        Key::DefPsist => Keyword::DefPsist,
        Key::Get => Keyword::Get,
        Key::InitQ => Keyword::InitQ,
        Key::MaxDepth => Keyword::MaxDepth,
        Key::MaxMsgL => Keyword::MaxMsgL,
        Key::MsgDlvSq => Keyword::MsgDlvSq,
        Key::Process => Keyword::Process,
        Key::Put => Keyword::Put,
        Key::TrigData => Keyword::TrigData,
        Key::TrigDpth => Keyword::TrigDpth,
        Key::Trigger => Keyword::Trigger,
        Key::NoTrigger => Keyword::Trigger,
        Key::TrigMPri => Keyword::TrigMPri,
        Key::TrigType => Keyword::TrigType,
        Key::Usage => Keyword::Usage,
        Key::Target => Keyword::Target,
        Key::TargQ => Keyword::Target,
        Key::RName => Keyword::RName,
        Key::RQMName => Keyword::RQMName,
        Key::XmitQ => Keyword::XmitQ,
        Key::ChlType => Keyword::ChlType,
        Key::BatchSz => Keyword::BatchSz,
        Key::SeqWrap => Keyword::SeqWrap,
        Key::ShortRty => Keyword::ShortRty,
        Key::UseDlq => Keyword::UseDlq,
        Key::NpmSpeed => Keyword::NpmSpeed,
        Key::ApplicId => Keyword::ApplicId,
        Key::ApplType => Keyword::ApplType,
        Key::EnvrData => Keyword::EnvrData,
        Key::UserData => Keyword::UserData,
        Key::DeadQ => Keyword::DeadQ,
        Key::DefXmitQ => Keyword::DefXmitQ,
        Key::MaxHands => Keyword::MaxHands,
        Key::MaxUMsgs => Keyword::MaxUMsgs,
        Key::TrigInt => Keyword::TrigInt,
        Key::MaxPrty => Keyword::MaxPrty,
        Key::CurDepth => Keyword::CurDepth,
        _ => Keyword::Kept,
    }
}

/// Each attribute that DISPLAY shows is known by its word where an object of that kind is defined.
pub fn shown_attributes_are_known()
    ensures local { (q : LocalQueue) → AllKnown kinds.Local (local_attributes q) }
    ensures alias { (q : AliasQueue) → AllKnown kinds.Alias (alias_attributes q) }
    ensures remote { (q : RemoteQueue) → AllKnown kinds.Remote (remote_attributes q) }
    ensures sender { (batch retry wrap : ℕ) (xmitq : List ℕ) (fast : Bool) → AllKnown kinds.Sender (channel_attributes (channels.Sender batch retry xmitq) wrap fast) }
    ensures receiver { (dead fast : Bool) (wrap : ℕ) → AllKnown kinds.Receiver (channel_attributes (channels.Receiver dead) wrap fast) }
    ensures process { (p : Process) → AllKnown kinds.Process (process_attributes p) }
    ensures manager { (m : ManagerAttributes) → AllKnown kinds.Manager (manager_attributes m) }
{}

/// Where an object of a kind is defined, no keyword is known but those that DISPLAY shows and those that
/// are kept without effect, in any spelling; each that is kept is known, and each other spelling of a
/// known one.
pub fn known_keywords_are_shown_or_kept()
    ensures local { (q : LocalQueue) → NoneElse kinds.Local (local_attributes q) }
    ensures alias { (q : AliasQueue) → NoneElse kinds.Alias (alias_attributes q) }
    ensures remote { (q : RemoteQueue) → NoneElse kinds.Remote (remote_attributes q) }
    ensures sender { (batch retry wrap : ℕ) (xmitq : List ℕ) (fast : Bool) → NoneElse kinds.Sender (channel_attributes (channels.Sender batch retry xmitq) wrap fast) }
    ensures receiver { (dead fast : Bool) (wrap : ℕ) → NoneElse kinds.Receiver (channel_attributes (channels.Receiver dead) wrap fast) }
    ensures process { (p : Process) → NoneElse kinds.Process (process_attributes p) }
    ensures manager { (m : ManagerAttributes) → NoneElse kinds.Manager (manager_attributes m) }
{}

/// Commands on queues of any kind, and on channels of either type, know the keywords of each.
pub fn joint_tables_have_all()
    ensures queues { AreAllOf (attributes_of kinds.Local ∷ attributes_of kinds.Alias ∷ attributes_of kinds.Remote ∷ []) (attributes_of kinds.Queue) }
    ensures channels { AreAllOf (attributes_of kinds.Sender ∷ attributes_of kinds.Receiver ∷ []) (attributes_of kinds.Channel) }
{}
