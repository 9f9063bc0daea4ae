//! The keywords of rules tables. Source: IBM MQ, "The dead-letter queue handler rules table".

ghost use Rattle.std.specs.Prelude.{◌≡◌};
ghost use Rattle.mq_rules_text.specs.Keywords.{text_word, number_word, word, keyword_of, is_control, same_keyword};

use mq_rules::{NumberField, TextField};

/// A keyword of a rules table.
#[derive(Clone, Copy)]
pub enum Keyword {
    /// A text that a rule tests by a pattern.
    Text(TextField),
    /// A number that a rule tests.
    Number(NumberField),
    Action,
    /// FWDQ.
    ForwardQueue,
    /// FWDQM.
    ForwardManager,
    Header,
    Retry,
    /// INPUTQ.
    InputQueue,
    /// INPUTQM.
    InputManager,
    /// RETRYINT.
    RetryInterval,
    Wait,
}

/// Every keyword.
pub const KEYWORDS: [Keyword; 22] = [
    Keyword::Text(TextField::IdentityData),
    Keyword::Text(TextField::ApplicationName),
    Keyword::Text(TextField::DestQueue),
    Keyword::Text(TextField::DestQueueManager),
    Keyword::Text(TextField::Format),
    Keyword::Text(TextField::ReplyQueue),
    Keyword::Text(TextField::ReplyQueueManager),
    Keyword::Text(TextField::UserIdentifier),
    Keyword::Number(NumberField::ApplicationType),
    Keyword::Number(NumberField::Feedback),
    Keyword::Number(NumberField::MessageType),
    Keyword::Number(NumberField::Persistence),
    Keyword::Number(NumberField::Reason),
    Keyword::Action,
    Keyword::ForwardQueue,
    Keyword::ForwardManager,
    Keyword::Header,
    Keyword::Retry,
    Keyword::InputQueue,
    Keyword::InputManager,
    Keyword::RetryInterval,
    Keyword::Wait,
];

fn text_word(field: TextField) -> &'static str
    ensures { result.now ≡ text_word field }
{
    match field {
        TextField::IdentityData => "APPLIDAT",
        TextField::ApplicationName => "APPLNAME",
        TextField::DestQueue => "DESTQ",
        TextField::DestQueueManager => "DESTQM",
        TextField::Format => "FORMAT",
        TextField::ReplyQueue => "REPLYQ",
        TextField::ReplyQueueManager => "REPLYQM",
        TextField::UserIdentifier => "USERID",
    }
}

fn number_word(field: NumberField) -> &'static str
    ensures { result.now ≡ number_word field }
{
    match field {
        NumberField::ApplicationType => "APPLTYPE",
        NumberField::Feedback => "FEEDBACK",
        NumberField::MessageType => "MSGTYPE",
        NumberField::Persistence => "PERSIST",
        NumberField::Reason => "REASON",
    }
}

/// The word that stands for a keyword.
fn word(keyword: Keyword) -> &'static str
    ensures { result.now ≡ word keyword }
{
    match keyword {
        Keyword::Text(field) => text_word(field),
        Keyword::Number(field) => number_word(field),
        Keyword::Action => "ACTION",
        Keyword::ForwardQueue => "FWDQ",
        Keyword::ForwardManager => "FWDQM",
        Keyword::Header => "HEADER",
        Keyword::Retry => "RETRY",
        Keyword::InputQueue => "INPUTQ",
        Keyword::InputManager => "INPUTQM",
        Keyword::RetryInterval => "RETRYINT",
        Keyword::Wait => "WAIT",
    }
}

/// The keyword that a word is, in upper case; None where it is none.
#[tactic(auto, unfolding(crate::specs::Keywords::keyword_of))]
pub fn keyword_of(text: &[u8]) -> Option<Keyword>
    ensures { result ≡ keyword_of text.now }
{
    KEYWORDS
        .iter()
        .copied()
        .find(|keyword| word(*keyword).as_bytes() == text)
}

/// Whether a keyword stands in the control entry, and in no other.
pub fn is_control(keyword: Keyword) -> bool
    ensures { result ≡ is_control keyword }
{
    match keyword {
        Keyword::InputQueue | Keyword::InputManager | Keyword::RetryInterval | Keyword::Wait =>
            true,
        Keyword::Text(_)
        | Keyword::Number(_)
        | Keyword::Action
        | Keyword::ForwardQueue
        | Keyword::ForwardManager
        | Keyword::Header
        | Keyword::Retry => false,
    }
}

/// Whether two keywords are the same.
#[tactic(auto, unfolding(crate::specs::Keywords::same_keyword))]
pub fn same_keyword(one: Keyword, other: Keyword) -> bool
    ensures { result ≡ same_keyword one other }
{
    word(one).as_bytes() == word(other).as_bytes()
}
