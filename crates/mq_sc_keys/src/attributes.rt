//! Which keywords go with a verb and a kind of object.

ghost use Rattle.std.specs.Prelude.{◌≡◌};
ghost use Rattle.mq_sc_keys.specs.Attributes.{attributes_of, shown_of, options_of, named_by, key_of};

use crate::keys::{
    ALIAS, ALTER_OPTIONS, CHANNEL, DEFINE_OPTIONS, Key, LOCAL, MANAGER, MANAGER_SHOWN, PROCESS,
    QUEUE, QUEUE_SHOWN, RECEIVER, REMOTE, RESET_KEYS, RESOLVE_KEYS, SENDER, SHOWN, key_in,
};
use crate::verbs::Verb;

/// Whose attributes a command names. A channel is of the CHLTYPE that its command gives.
#[derive(Clone, Copy)]
pub enum Kind {
    Local,
    Alias,
    Remote,
    /// A channel whose type isn't given.
    Channel,
    Sender,
    Receiver,
    Process,
    Manager,
    /// A queue of any kind, as DISPLAY QUEUE asks.
    Queue,
    /// The state of channels, as DISPLAY CHSTATUS asks.
    Status,
}

/// The attributes of a kind.
fn attributes_of(kind: Kind) -> &'static [Key]
    ensures { result.now ≡ attributes_of kind }
{
    match kind {
        Kind::Local => &LOCAL,
        Kind::Alias => &ALIAS,
        Kind::Remote => &REMOTE,
        Kind::Channel => &CHANNEL,
        Kind::Sender => &SENDER,
        Kind::Receiver => &RECEIVER,
        Kind::Process => &PROCESS,
        Kind::Manager => &MANAGER,
        Kind::Queue => &QUEUE,
        Kind::Status => &[],
    }
}

/// What DISPLAY knows beside the attributes.
fn shown_of(kind: Kind) -> &'static [Key]
    ensures { result.now ≡ shown_of kind }
{
    match kind {
        Kind::Local | Kind::Queue => &QUEUE_SHOWN,
        Kind::Manager => &MANAGER_SHOWN,
        Kind::Alias
        | Kind::Remote
        | Kind::Channel
        | Kind::Sender
        | Kind::Receiver
        | Kind::Process
        | Kind::Status => &SHOWN,
    }
}

/// The keywords that a verb has of its own.
fn options_of(verb: Verb, kind: Kind) -> &'static [Key]
    ensures { result.now ≡ options_of verb kind }
{
    match verb {
        Verb::Define => &DEFINE_OPTIONS,
        Verb::Alter => &ALTER_OPTIONS,
        Verb::Display => shown_of(kind),
        Verb::Reset => &RESET_KEYS,
        Verb::Resolve => &RESOLVE_KEYS,
        Verb::Delete | Verb::Start | Verb::Stop => &[],
    }
}

/// The attributes that a verb may name.
fn named_by(verb: Verb, kind: Kind) -> &'static [Key]
    ensures { result.now ≡ named_by verb kind }
{
    match verb {
        Verb::Define | Verb::Alter | Verb::Display => attributes_of(kind),
        Verb::Delete | Verb::Start | Verb::Stop | Verb::Reset | Verb::Resolve => &[],
    }
}

/// The keyword of a command that a word is; None where the verb has no such keyword for this kind.
/// Source: MQSC reference, DEFINE, ALTER, DISPLAY, RESET CHANNEL and RESOLVE CHANNEL.
#[tactic(auto, unfolding(crate::specs::Attributes::key_of))]
pub fn key_of(verb: Verb, kind: Kind, word: &[u8]) -> Option<Key>
    ensures { result ≡ key_of verb kind word.now }
{
    match key_in(named_by(verb, kind), word) {
        Some(key) => Some(key),
        None => key_in(options_of(verb, kind), word),
    }
}
