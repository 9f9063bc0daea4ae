//! The keywords, and those of each kind of object. Source: MQSC reference.

ghost use Rattle.std.specs.Prelude.{◌≡◌, find};
ghost use Rattle.std.specs.Str.{bytes_eq};
ghost use Rattle.mq_sc_keys.specs.Keys.{key_text, text_beside_queues, text_without_effect, group_of, key_in};

/// A keyword of a command behind its object. Source: MQSC reference, DEFINE, ALTER and DISPLAY of
/// queues, channels, processes and the queue manager.
#[derive(Clone, Copy)]
pub enum Key {
    DefPrty,
    DefPsist,
    Get,
    InitQ,
    MaxDepth,
    MaxMsgL,
    MsgDlvSq,
    Process,
    Put,
    TrigData,
    TrigDpth,
    Trigger,
    NoTrigger,
    TrigMPri,
    TrigType,
    Usage,
    Target,
    TargQ,
    RName,
    RQMName,
    XmitQ,
    ChlType,
    BatchSz,
    SeqWrap,
    ShortRty,
    UseDlq,
    NpmSpeed,
    ApplicId,
    ApplType,
    EnvrData,
    UserData,
    DeadQ,
    DefXmitQ,
    MaxHands,
    MaxUMsgs,
    TrigInt,
    MaxPrty,
    CurDepth,
    Descr,
    Share,
    NoShare,
    DefSOpt,
    BoThresh,
    BoQName,
    HardenBo,
    NoHardenBo,
    QDepthHi,
    QDepthLo,
    ConName,
    TrpType,
    DiscInt,
    HbInt,
    BatchInt,
    LongRty,
    LongTmr,
    ShortTmr,
    Replace,
    NoReplace,
    Force,
    All,
    SeqNum,
    Action,
}

/// The attributes of QLOCAL.
pub const LOCAL: [Key; 26] = [
    Key::DefPrty,
    Key::DefPsist,
    Key::Get,
    Key::InitQ,
    Key::MaxDepth,
    Key::MaxMsgL,
    Key::MsgDlvSq,
    Key::Process,
    Key::Put,
    Key::TrigData,
    Key::TrigDpth,
    Key::Trigger,
    Key::NoTrigger,
    Key::TrigMPri,
    Key::TrigType,
    Key::Usage,
    Key::Descr,
    Key::Share,
    Key::NoShare,
    Key::DefSOpt,
    Key::BoThresh,
    Key::BoQName,
    Key::HardenBo,
    Key::NoHardenBo,
    Key::QDepthHi,
    Key::QDepthLo,
];

/// The attributes of QALIAS.
pub const ALIAS: [Key; 7] = [
    Key::DefPrty,
    Key::DefPsist,
    Key::Get,
    Key::Put,
    Key::Target,
    Key::TargQ,
    Key::Descr,
];

/// The attributes of QREMOTE.
pub const REMOTE: [Key; 7] = [
    Key::DefPrty,
    Key::DefPsist,
    Key::Put,
    Key::RName,
    Key::RQMName,
    Key::XmitQ,
    Key::Descr,
];

/// The attributes of CHANNEL of CHLTYPE(SDR).
pub const SENDER: [Key; 16] = [
    Key::ChlType,
    Key::BatchSz,
    Key::SeqWrap,
    Key::ShortRty,
    Key::XmitQ,
    Key::NpmSpeed,
    Key::Descr,
    Key::ConName,
    Key::TrpType,
    Key::DiscInt,
    Key::HbInt,
    Key::BatchInt,
    Key::LongRty,
    Key::LongTmr,
    Key::ShortTmr,
    Key::MaxMsgL,
];

/// The attributes of CHANNEL of CHLTYPE(RCVR).
pub const RECEIVER: [Key; 14] = [
    Key::ChlType,
    Key::UseDlq,
    Key::SeqWrap,
    Key::NpmSpeed,
    Key::Descr,
    Key::ConName,
    Key::TrpType,
    Key::DiscInt,
    Key::HbInt,
    Key::BatchInt,
    Key::LongRty,
    Key::LongTmr,
    Key::ShortTmr,
    Key::MaxMsgL,
];

/// The attributes of CHANNEL of either type.
pub const CHANNEL: [Key; 17] = [
    Key::ChlType,
    Key::BatchSz,
    Key::SeqWrap,
    Key::ShortRty,
    Key::XmitQ,
    Key::UseDlq,
    Key::NpmSpeed,
    Key::Descr,
    Key::ConName,
    Key::TrpType,
    Key::DiscInt,
    Key::HbInt,
    Key::BatchInt,
    Key::LongRty,
    Key::LongTmr,
    Key::ShortTmr,
    Key::MaxMsgL,
];

/// The attributes of PROCESS.
pub const PROCESS: [Key; 5] = [
    Key::ApplicId,
    Key::ApplType,
    Key::EnvrData,
    Key::UserData,
    Key::Descr,
];

/// The attributes of QMGR.
pub const MANAGER: [Key; 7] = [
    Key::DeadQ,
    Key::DefXmitQ,
    Key::MaxHands,
    Key::MaxMsgL,
    Key::MaxUMsgs,
    Key::TrigInt,
    Key::Descr,
];

/// The attributes of a queue of any kind.
pub const QUEUE: [Key; 31] = [
    Key::DefPrty,
    Key::DefPsist,
    Key::Get,
    Key::InitQ,
    Key::MaxDepth,
    Key::MaxMsgL,
    Key::MsgDlvSq,
    Key::Process,
    Key::Put,
    Key::TrigData,
    Key::TrigDpth,
    Key::Trigger,
    Key::NoTrigger,
    Key::TrigMPri,
    Key::TrigType,
    Key::Usage,
    Key::Target,
    Key::TargQ,
    Key::RName,
    Key::RQMName,
    Key::XmitQ,
    Key::Descr,
    Key::Share,
    Key::NoShare,
    Key::DefSOpt,
    Key::BoThresh,
    Key::BoQName,
    Key::HardenBo,
    Key::NoHardenBo,
    Key::QDepthHi,
    Key::QDepthLo,
];

/// What DEFINE knows beside the attributes.
pub const DEFINE_OPTIONS: [Key; 2] = [Key::Replace, Key::NoReplace];

/// What ALTER knows beside the attributes.
pub const ALTER_OPTIONS: [Key; 1] = [Key::Force];

/// What DISPLAY of queues knows beside the attributes.
pub const QUEUE_SHOWN: [Key; 2] = [Key::All, Key::CurDepth];

/// What DISPLAY QMGR knows beside the attributes.
pub const MANAGER_SHOWN: [Key; 2] = [Key::All, Key::MaxPrty];

/// What every other DISPLAY knows beside the attributes.
pub const SHOWN: [Key; 1] = [Key::All];

/// What RESET knows.
pub const RESET_KEYS: [Key; 1] = [Key::SeqNum];

/// What RESOLVE knows.
pub const RESOLVE_KEYS: [Key; 1] = [Key::Action];

impl Key {
    /// The keyword as it is written.
    pub fn text(self) -> &'static [u8]
        ensures { result.now ≡ key_text self }
    {
        match self {
            Key::DefPrty => b"DEFPRTY",
            Key::DefPsist => b"DEFPSIST",
            Key::Get => b"GET",
            Key::InitQ => b"INITQ",
            Key::MaxDepth => b"MAXDEPTH",
            Key::MaxMsgL => b"MAXMSGL",
            Key::MsgDlvSq => b"MSGDLVSQ",
            Key::Process => b"PROCESS",
            Key::Put => b"PUT",
            Key::TrigData => b"TRIGDATA",
            Key::TrigDpth => b"TRIGDPTH",
            Key::Trigger => b"TRIGGER",
            Key::NoTrigger => b"NOTRIGGER",
            Key::TrigMPri => b"TRIGMPRI",
            Key::TrigType => b"TRIGTYPE",
            Key::Usage => b"USAGE",
            Key::Target => b"TARGET",
            Key::TargQ => b"TARGQ",
            Key::RName => b"RNAME",
            Key::RQMName => b"RQMNAME",
            Key::XmitQ => b"XMITQ",
            other => other.text_beside_queues(),
        }
    }

    /// An attribute of channels, processes and the manager, or what only DISPLAY shows.
    fn text_beside_queues(self) -> &'static [u8]
        ensures { result.now ≡ text_beside_queues self }
    {
        match self {
            Key::ChlType => b"CHLTYPE",
            Key::BatchSz => b"BATCHSZ",
            Key::SeqWrap => b"SEQWRAP",
            Key::ShortRty => b"SHORTRTY",
            Key::UseDlq => b"USEDLQ",
            Key::NpmSpeed => b"NPMSPEED",
            Key::ApplicId => b"APPLICID",
            Key::ApplType => b"APPLTYPE",
            Key::EnvrData => b"ENVRDATA",
            Key::UserData => b"USERDATA",
            Key::DeadQ => b"DEADQ",
            Key::DefXmitQ => b"DEFXMITQ",
            Key::MaxHands => b"MAXHANDS",
            Key::MaxUMsgs => b"MAXUMSGS",
            Key::TrigInt => b"TRIGINT",
            Key::MaxPrty => b"MAXPRTY",
            Key::CurDepth => b"CURDEPTH",
            other => other.text_without_effect(),
        }
    }

    /// An attribute without effect, or an option of a command.
    fn text_without_effect(self) -> &'static [u8]
        ensures { result.now ≡ text_without_effect self }
    {
        match self {
            Key::Descr => b"DESCR",
            Key::Share => b"SHARE",
            Key::NoShare => b"NOSHARE",
            Key::DefSOpt => b"DEFSOPT",
            Key::BoThresh => b"BOTHRESH",
            Key::BoQName => b"BOQNAME",
            Key::HardenBo => b"HARDENBO",
            Key::NoHardenBo => b"NOHARDENBO",
            Key::QDepthHi => b"QDEPTHHI",
            Key::QDepthLo => b"QDEPTHLO",
            Key::ConName => b"CONNAME",
            Key::TrpType => b"TRPTYPE",
            Key::DiscInt => b"DISCINT",
            Key::HbInt => b"HBINT",
            Key::BatchInt => b"BATCHINT",
            Key::LongRty => b"LONGRTY",
            Key::LongTmr => b"LONGTMR",
            Key::ShortTmr => b"SHORTTMR",
            Key::Replace => b"REPLACE",
            Key::NoReplace => b"NOREPLACE",
            Key::Force => b"FORCE",
            Key::All => b"ALL",
            Key::SeqNum => b"SEQNUM",
            Key::Action => b"ACTION",
            _ => b"",
        }
    }

    /// The keyword that may stand but once together with this one.
    pub fn group(self) -> Key
        ensures { result ≡ group_of self }
    {
        match self {
            Key::NoTrigger => Key::Trigger,
            Key::TargQ => Key::Target,
            Key::NoShare => Key::Share,
            Key::NoHardenBo => Key::HardenBo,
            Key::NoReplace => Key::Replace,
            other => other,
        }
    }
}

/// The first of these keywords that is written so.
#[tactic(auto, unfolding(crate::specs::Keys::key_in))]
pub fn key_in(keys: &[Key], word: &[u8]) -> Option<Key>
    ensures { result ≡ key_in keys.now word.now }
{
    keys.iter().copied().find(|key| key.text() == word)
}
