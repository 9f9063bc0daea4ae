//! Labels and names as words, and values in brackets.

ghost use Rattle.std.specs.Prelude.{◌≡◌, ◌==◌, ◌≤◌, ◌++◌, ◌∷◌, [], length, take, option_copied};
ghost use Rattle.std.specs.List.{list_all};
ghost use Rattle.std.specs.Str.{str_to_ascii_uppercase};
ghost use Rattle.mq_scn_lines.specs.Operands.{before_last, in_quotes, bracketed, label_in, name_in, is_blank, name_or_blank_in, folded_name};

use crate::fault::LineFault;
use mq_base::{ChName, Label, NameFault, QName};
use mq_text::behind;

/// The text without its last byte, where that is the byte given.
#[tactic(auto, using(crate::proofs::OperandLaws::last_is))]
pub fn before_last(text: &[u8], byte: u8) -> Option<&[u8]>
    ensures { option_copied result ≡ before_last byte text.now }
{
    let (last, front) = text.split_last()?;
    if *last != byte {
        return None;
    }
    Some(front)
}

/// What stands between the quotes of a word in quotes.
pub fn in_quotes(word: &[u8]) -> Option<&[u8]>
    ensures { option_copied result ≡ in_quotes word.now }
{
    match word {
        [b'\'', rest @ ..] => before_last(rest, b'\''),
        _ => None,
    }
}

/// What stands in the brackets of a word that begins with a keyword and its bracket.
pub fn bracketed<'a>(word: &'a [u8], keyword: &[u8]) -> Option<&'a [u8]>
    ensures { option_copied result ≡ bracketed keyword.now word.now }
{
    match behind(word, keyword) {
        Some(rest) => before_last(rest, b')'),
        None => None,
    }
}

/// The text with its letters in upper case, at the front of a field.
fn folded<const N: usize>(text: &[u8]) -> [u8; N]
    requires { length text.now ≤ N }
    ensures { take (length text.now) result ≡ str_to_ascii_uppercase text.now }
{
    let mut field = [0u8; N];
    let (front, _) = field.split_at_mut(text.len());
    front.copy_from_slice(text);
    front.make_ascii_uppercase();
    field
}

/// The label that a word is, its letters in upper case.
pub fn label_in(word: &[u8]) -> Result<Label, LineFault>
    ensures { result ≡ label_in word.now }
{
    if word.len() > 8 {
        return Err(LineFault::Name);
    }
    let field = folded::<8>(word);
    let (text, _) = field.split_at(word.len());
    match Label::of(text) {
        Some(label) => Ok(label),
        None => Err(LineFault::Name),
    }
}

fn folded_name(word: &[u8]) -> Result<QName, NameFault>
    ensures { result ≡ folded_name 48 word.now }
{
    if word.len() > 48 {
        return Err(NameFault::TooLong);
    }
    let field = folded::<48>(word);
    let (text, _) = field.split_at(word.len());
    QName::of(text)
}

fn folded_channel(word: &[u8]) -> Result<ChName, NameFault>
    ensures { result ≡ folded_name 20 word.now }
{
    if word.len() > 20 {
        return Err(NameFault::TooLong);
    }
    let field = folded::<20>(word);
    let (text, _) = field.split_at(word.len());
    ChName::of(text)
}

/// The name of a queue or a manager that a word is: in quotes as it stands, else its letters in upper case.
pub fn name_in(word: &[u8]) -> Result<QName, LineFault>
    ensures { result ≡ name_in 48 word.now }
{
    let name = match in_quotes(word) {
        Some(text) => QName::of(text),
        None => folded_name(word),
    };
    match name {
        Ok(name) => Ok(name),
        Err(_) => Err(LineFault::Name),
    }
}

/// The name of a channel that a word is.
pub fn channel_in(word: &[u8]) -> Result<ChName, LineFault>
    ensures { result ≡ name_in 20 word.now }
{
    let name = match in_quotes(word) {
        Some(text) => ChName::of(text),
        None => folded_channel(word),
    };
    match name {
        Ok(name) => Ok(name),
        Err(_) => Err(LineFault::Name),
    }
}

fn are_spaces(text: &[u8]) -> bool
    ensures { result ≡ list_all (λ b. b == 32) text.now }
{
    text.iter().all(|b| *b == b' ')
}

fn is_blank(word: &[u8]) -> bool
    ensures { result ≡ is_blank word.now }
{
    match in_quotes(word) {
        Some(text) => are_spaces(text),
        None => false,
    }
}

/// The name that a word is, or the blank name where only blanks or nothing stands in its quotes.
pub fn name_or_blank_in(word: &[u8]) -> Result<QName, LineFault>
    ensures { result ≡ name_or_blank_in word.now }
{
    if is_blank(word) {
        Ok(QName::blank())
    } else {
        name_in(word)
    }
}
