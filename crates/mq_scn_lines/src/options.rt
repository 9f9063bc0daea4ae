//! Options of script lines: words of their own or keywords with a value in brackets, in any order.

ghost use Rattle.std.specs.Prelude.{◌≡◌, ◌==◌, ◌<◌, length, option_copied};
ghost use Rattle.mq_scn_lines.specs.Words.{texts_of};
ghost use Rattle.mq_scn_lines.specs.Options.{option_word, has_value, group_of, same_group, is_word_of, option_of, is_group_of, has_group, are_options, says, value_of};

use crate::operands::bracketed;

/// An option of a script's line.
#[derive(Clone, Copy)]
pub enum LineOption {
    Sync,
    Priority,
    Persist,
    NoPersist,
    Expiry,
    MsgId,
    Correl,
    MsgType,
    ReplyQ,
    ReplyQMgr,
    Format,
    Feedback,
    IdentityData,
    First,
    Next,
    Cursor,
    Under,
    Room,
    Truncate,
    Wait,
    Shared,
    Exclusive,
    Browse,
    Output,
}

/// The options of a put.
pub const PUT_OPTIONS: [LineOption; 13] = [
    LineOption::Sync,
    LineOption::Priority,
    LineOption::Persist,
    LineOption::NoPersist,
    LineOption::Expiry,
    LineOption::MsgId,
    LineOption::Correl,
    LineOption::MsgType,
    LineOption::ReplyQ,
    LineOption::ReplyQMgr,
    LineOption::Format,
    LineOption::Feedback,
    LineOption::IdentityData,
];

/// The options of a get.
pub const GET_OPTIONS: [LineOption; 10] = [
    LineOption::Sync,
    LineOption::First,
    LineOption::Next,
    LineOption::Cursor,
    LineOption::Under,
    LineOption::MsgId,
    LineOption::Correl,
    LineOption::Room,
    LineOption::Truncate,
    LineOption::Wait,
];

/// The options of an open.
pub const OPEN_OPTIONS: [LineOption; 4] = [
    LineOption::Shared,
    LineOption::Exclusive,
    LineOption::Browse,
    LineOption::Output,
];

/// The word of an option; of one with a value its keyword and the bracket.
fn option_word(option: LineOption) -> &'static str
    ensures { result.now ≡ option_word option }
{
    match option {
        LineOption::Sync => "SYNC",
        LineOption::Priority => "PRTY(",
        LineOption::Persist => "PERSIST",
        LineOption::NoPersist => "NOPERSIST",
        LineOption::Expiry => "EXPIRY(",
        LineOption::MsgId => "MSGID(",
        LineOption::Correl => "CORREL(",
        LineOption::MsgType => "MSGTYPE(",
        LineOption::ReplyQ => "REPLYQ(",
        LineOption::ReplyQMgr => "REPLYQM(",
        LineOption::Format => "FORMAT(",
        LineOption::Feedback => "FEEDBACK(",
        LineOption::IdentityData => "IDDATA(",
        LineOption::First => "FIRST",
        LineOption::Next => "NEXT",
        LineOption::Cursor => "CURSOR",
        LineOption::Under => "UNDER",
        LineOption::Room => "ROOM(",
        LineOption::Truncate => "TRUNC",
        LineOption::Wait => "WAIT(",
        LineOption::Shared => "SHARED",
        LineOption::Exclusive => "EXCLUSIVE",
        LineOption::Browse => "BROWSE",
        LineOption::Output => "OUTPUT",
    }
}

/// Whether an option has a value in brackets.
fn has_value(option: LineOption) -> bool
    ensures { result ≡ has_value option }
{
    match option {
        LineOption::Priority
        | LineOption::Expiry
        | LineOption::MsgId
        | LineOption::Correl
        | LineOption::MsgType
        | LineOption::ReplyQ
        | LineOption::ReplyQMgr
        | LineOption::Format
        | LineOption::Feedback
        | LineOption::IdentityData
        | LineOption::Room
        | LineOption::Wait => true,
        LineOption::Sync
        | LineOption::Persist
        | LineOption::NoPersist
        | LineOption::First
        | LineOption::Next
        | LineOption::Cursor
        | LineOption::Under
        | LineOption::Truncate
        | LineOption::Shared
        | LineOption::Exclusive
        | LineOption::Browse
        | LineOption::Output => false,
    }
}

/// Of options of which a line has one at most, the first; of any other itself.
fn group_of(option: LineOption) -> LineOption
    ensures { result ≡ group_of option }
{
    match option {
        LineOption::NoPersist => LineOption::Persist,
        LineOption::Next | LineOption::Cursor | LineOption::Under => LineOption::First,
        LineOption::Exclusive => LineOption::Shared,
        LineOption::Sync
        | LineOption::Priority
        | LineOption::Persist
        | LineOption::Expiry
        | LineOption::MsgId
        | LineOption::Correl
        | LineOption::MsgType
        | LineOption::ReplyQ
        | LineOption::ReplyQMgr
        | LineOption::Format
        | LineOption::Feedback
        | LineOption::IdentityData
        | LineOption::First
        | LineOption::Room
        | LineOption::Truncate
        | LineOption::Wait
        | LineOption::Shared
        | LineOption::Browse
        | LineOption::Output => option,
    }
}

#[tactic(auto, unfolding(crate::specs::Options::same_group))]
fn same_group(one: LineOption, other: LineOption) -> bool
    ensures { result ≡ same_group one other }
{
    option_word(group_of(one)).as_bytes() == option_word(group_of(other)).as_bytes()
}

/// Whether a word gives an option.
#[tactic(auto, unfolding(crate::specs::Options::is_word_of))]
fn is_word_of(option: LineOption, word: &[u8]) -> bool
    ensures { result ≡ is_word_of option word.now }
{
    let text = option_word(option).as_bytes();
    if has_value(option) {
        bracketed(word, text).is_some()
    } else {
        word == text
    }
}

/// The option that a word gives, of those allowed.
#[tactic(auto, unfolding(crate::specs::Options::option_of))]
fn option_of(allowed: &[LineOption], word: &[u8]) -> Option<LineOption>
    ensures { result ≡ option_of allowed.now word.now }
{
    allowed
        .iter()
        .copied()
        .find(|option| is_word_of(*option, word))
}

/// Whether a word gives an option of the same group.
fn is_group_of(allowed: &[LineOption], option: LineOption, word: &[u8]) -> bool
    ensures { result ≡ is_group_of allowed.now option word.now }
{
    match option_of(allowed, word) {
        Some(other) => same_group(option, other),
        None => false,
    }
}

fn has_group(allowed: &[LineOption], option: LineOption, words: &[&[u8]]) -> bool
    ensures { result ≡ has_group allowed.now option (texts_of words.now) }
{
    let mut rest = words;
    'reading: while let [word, behind @ ..] = rest {
        if is_group_of(allowed, option, word) {
            return true;
        }
        rest = behind;
    }
    false
}

/// Whether each word is an option of those allowed, and no two are of one group.
pub fn are_options(allowed: &[LineOption], words: &[&[u8]]) -> bool
    ensures { result ≡ are_options allowed.now (texts_of words.now) }
{
    let mut rest = words;
    'reading: while let [word, behind @ ..] = rest {
        match option_of(allowed, word) {
            None => return false,
            Some(option) => {
                if has_group(allowed, option, behind) {
                    return false;
                }
            }
        }
        rest = behind;
    }
    true
}

/// Whether an option without a value is among words.
pub fn says(option: LineOption, words: &[&[u8]]) -> bool
    ensures { result ≡ says option (texts_of words.now) }
{
    let mut rest = words;
    'reading: while let [word, behind @ ..] = rest {
        if *word == option_word(option).as_bytes() {
            return true;
        }
        rest = behind;
    }
    false
}

/// The value that words give to an option, if any.
pub fn value_of<'a>(option: LineOption, words: &[&'a [u8]]) -> Option<&'a [u8]>
    ensures { option_copied result ≡ value_of option (texts_of words.now) }
{
    let mut rest = words;
    'reading: while let [word, behind @ ..] = rest {
        let value = bracketed(word, option_word(option).as_bytes());
        if value.is_some() {
            return value;
        }
        rest = behind;
    }
    None
}
