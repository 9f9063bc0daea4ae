//! The verbs, the objects, and which go together.

ghost use Rattle.std.specs.Prelude.{◌≡◌, find, true, Some};
ghost use Rattle.mq_sc_keys.specs.Verbs.{verb_text, verb_short, object_text, object_short, takes, is_verb, is_object, verb_of, object_of};

/// The first word of a command. Source: MQSC reference.
#[derive(Clone, Copy)]
pub enum Verb {
    Define,
    Alter,
    Delete,
    Display,
    Start,
    Stop,
    Reset,
    Resolve,
}

/// What a command is on. Source: MQSC reference.
#[derive(Clone, Copy)]
pub enum Noun {
    Local,
    Alias,
    Remote,
    Channel,
    Process,
    Manager,
    /// Queues of any kind.
    Queue,
    /// The state of channels.
    Status,
}

/// Every verb.
pub const VERBS: [Verb; 8] = [
    Verb::Define,
    Verb::Alter,
    Verb::Delete,
    Verb::Display,
    Verb::Start,
    Verb::Stop,
    Verb::Reset,
    Verb::Resolve,
];

/// Every object.
pub const NOUNS: [Noun; 8] = [
    Noun::Local,
    Noun::Alias,
    Noun::Remote,
    Noun::Channel,
    Noun::Process,
    Noun::Manager,
    Noun::Queue,
    Noun::Status,
];

impl Verb {
    /// The word as it is written in full.
    pub fn text(self) -> &'static [u8]
        ensures { result.now ≡ verb_text self }
    {
        match self {
            Verb::Define => b"DEFINE",
            Verb::Alter => b"ALTER",
            Verb::Delete => b"DELETE",
            Verb::Display => b"DISPLAY",
            Verb::Start => b"START",
            Verb::Stop => b"STOP",
            Verb::Reset => b"RESET",
            Verb::Resolve => b"RESOLVE",
        }
    }

    /// The short form, or the verb itself where it has none.
    pub fn short(self) -> &'static [u8]
        ensures { result.now ≡ verb_short self }
    {
        match self {
            Verb::Define => b"DEF",
            Verb::Alter => b"ALT",
            Verb::Delete => b"DELETE",
            Verb::Display => b"DIS",
            Verb::Start => b"START",
            Verb::Stop => b"STOP",
            Verb::Reset => b"RESET",
            Verb::Resolve => b"RESOLVE",
        }
    }
}

impl Noun {
    /// The word as it is written in full.
    pub fn text(self) -> &'static [u8]
        ensures { result.now ≡ object_text self }
    {
        match self {
            Noun::Local => b"QLOCAL",
            Noun::Alias => b"QALIAS",
            Noun::Remote => b"QREMOTE",
            Noun::Channel => b"CHANNEL",
            Noun::Process => b"PROCESS",
            Noun::Manager => b"QMGR",
            Noun::Queue => b"QUEUE",
            Noun::Status => b"CHSTATUS",
        }
    }

    /// The synonym, or the word itself where it has none.
    pub fn short(self) -> &'static [u8]
        ensures { result.now ≡ object_short self }
    {
        match self {
            Noun::Local => b"QL",
            Noun::Alias => b"QA",
            Noun::Remote => b"QR",
            Noun::Channel => b"CHL",
            Noun::Process => b"PRO",
            Noun::Manager => b"QMGR",
            Noun::Queue => b"QUEUE",
            Noun::Status => b"CHS",
        }
    }
}

/// Which verb goes with which object.
pub fn takes(verb: Verb, noun: Noun) -> bool
    ensures { result ≡ takes verb noun }
{
    match verb {
        Verb::Define | Verb::Delete => !matches!(noun, Noun::Manager | Noun::Queue | Noun::Status),
        Verb::Alter => !matches!(noun, Noun::Queue | Noun::Status),
        Verb::Display => true,
        Verb::Start | Verb::Stop | Verb::Reset | Verb::Resolve => matches!(noun, Noun::Channel),
    }
}

fn is_verb(verb: Verb, word: &[u8]) -> bool
    ensures { result ≡ is_verb word.now verb }
{
    verb.text() == word || verb.short() == word
}

fn is_object(verb: Verb, noun: Noun, word: &[u8]) -> bool
    ensures { result ≡ is_object verb word.now noun }
{
    takes(verb, noun) && (noun.text() == word || noun.short() == word)
}

/// The verb that a word is, in upper case, in full or short; None where it is none.
#[tactic(auto, unfolding(crate::specs::Verbs::verb_of))]
pub fn verb_of(word: &[u8]) -> Option<Verb>
    ensures { result ≡ verb_of word.now }
{
    VERBS.iter().copied().find(|verb| is_verb(*verb, word))
}

/// The object that a word names behind a verb, in upper case, in full or short; None where none goes
/// with the verb.
#[tactic(auto, unfolding(crate::specs::Verbs::object_of))]
pub fn object_of(verb: Verb, word: &[u8]) -> Option<Noun>
    ensures { result ≡ object_of verb word.now }
{
    NOUNS
        .iter()
        .copied()
        .find(|noun| is_object(verb, *noun, word))
}

/// A verb is found by its text and by its short form, and so is an object behind a verb that takes it.
pub fn words_are_found()
    ensures verbs { (verb : Verb) → (verb_of (verb_text verb) ≡ Some verb) × (verb_of (verb_short verb) ≡ Some verb) }
    ensures objects { (verb : Verb) (noun : Noun) → takes verb noun ≡ true → (object_of verb (object_text noun) ≡ Some noun) × (object_of verb (object_short noun) ≡ Some noun) }
{}
