//! Attributes as text.
ghost use Rattle.std.specs.Prelude.{◌≡◌, ◌++◌, OnOk, codes};
ghost use Rattle.mq_objects.specs.Attributes.{number_of, word_of, text_of, flag_of, keyword_number, same_keyword, in_brackets, doubled, quoted, blank_or};
ghost use Rattle.std.specs.List.{list_any};
ghost use Rattle.mq_objects.specs.Written.{put, is_asked};

use crate::setting::Keyword;
use mq_base::Items;
use std::alloc::{AllocError, Global};

/// How attributes are written: as DISPLAY shows them, or as a command gives them.
#[derive(Clone, Copy)]
pub enum Style {
    /// As DISPLAY shows them: texts bare, and a blank for an empty one.
    Shown,
    /// As a command gives them: texts in quotes.
    Command,
}

/// How attributes are written, and which: those asked, or all where none is.
#[derive(Clone, Copy)]
pub struct How<'a> {
    /// Where memory is taken.
    pub alloc: Global,
    /// How they are written.
    pub style: Style,
    /// The keywords asked, none for all.
    pub asked: &'a [Keyword],
}

fn number_of_keyword(keyword: Keyword) -> u8
    ensures { result ≡ keyword_number keyword }
{
    keyword as u8
}

fn is_among(asked: &[Keyword], keyword: Keyword) -> bool
    ensures { result ≡ list_any (same_keyword keyword) asked.now }
{
    let number = number_of_keyword(keyword);
    asked.iter().any(|k| number == number_of_keyword(*k))
}

fn is_asked(asked: &[Keyword], keyword: Keyword) -> bool
    ensures { result ≡ is_asked asked.now keyword }
{
    asked.is_empty() || is_among(asked, keyword)
}

/// A text in single quotes, with each quote in it doubled.
pub fn write_quoted(text: &mut Items<u8>, value: &[u8]) -> Result<(), AllocError>
    ensures { OnOk result (text.new ≡ text.old ++ quoted value.now) }
{
    text.push(b'\'')?;
    for b in value {
        if *b == b'\'' {
            text.push(b'\'')?;
        }
        text.push(*b)?;
    }
    text.push(b'\'')
}

/// A blank, and a keyword with a value in brackets.
fn write_pair(text: &mut Items<u8>, word: &str, value: &[u8]) -> Result<(), AllocError>
    ensures { OnOk result (text.new ≡ text.old ++ (codes " " ++ in_brackets word.now value.now)) }
{
    text.push(b' ')?;
    text.extend_from_slice(word.as_bytes())?;
    text.push(b'(')?;
    text.extend_from_slice(value)?;
    text.push(b')')
}

/// A blank, and a keyword with a text in quotes and brackets.
pub fn write_quoted_pair(text: &mut Items<u8>, word: &[u8], value: &[u8]) -> Result<(), AllocError>
    ensures { OnOk result (text.new ≡ text.old ++ (codes " " ++ in_brackets word.now (quoted value.now))) }
{
    text.push(b' ')?;
    text.extend_from_slice(word)?;
    text.push(b'(')?;
    write_quoted(text, value)?;
    text.push(b')')
}

/// An attribute whose value is a number.
pub fn write_number(
    how: &How,
    text: &mut Items<u8>,
    keyword: Keyword,
    word: &str,
    n: u64,
) -> Result<(), AllocError>
    ensures { OnOk result (text.new ≡ put how.now.style how.now.asked.now text.old (number_of keyword word.now n)) }
{
    if !is_asked(how.asked, keyword) {
        return Ok(());
    }
    let value = format!(in how.alloc; "{n}")?;
    write_pair(text, word, value.as_bytes())
}

/// An attribute whose value is a word.
pub fn write_word(
    how: &How,
    text: &mut Items<u8>,
    keyword: Keyword,
    word: &str,
    value: &str,
) -> Result<(), AllocError>
    ensures { OnOk result (text.new ≡ put how.now.style how.now.asked.now text.old (word_of keyword word.now value.now)) }
{
    if !is_asked(how.asked, keyword) {
        return Ok(());
    }
    write_pair(text, word, value.as_bytes())
}

/// An attribute whose value is a name or a text: a blank where DISPLAY shows a blank one.
pub fn write_text(
    how: &How,
    text: &mut Items<u8>,
    keyword: Keyword,
    word: &str,
    value: &[u8],
) -> Result<(), AllocError>
    ensures { OnOk result (text.new ≡ put how.now.style how.now.asked.now text.old (text_of keyword word.now value.now)) }
{
    if !is_asked(how.asked, keyword) {
        return Ok(());
    }
    match how.style {
        Style::Command => write_quoted_pair(text, word.as_bytes(), value),
        Style::Shown if value.is_empty() => write_pair(text, word, b" "),
        Style::Shown => write_pair(text, word, value),
    }
}

/// An attribute that is a keyword alone.
pub fn write_flag(
    how: &How,
    text: &mut Items<u8>,
    keyword: Keyword,
    word: &str,
) -> Result<(), AllocError>
    ensures { OnOk result (text.new ≡ put how.now.style how.now.asked.now text.old (flag_of keyword word.now)) }
{
    if !is_asked(how.asked, keyword) {
        return Ok(());
    }
    text.push(b' ')?;
    text.extend_from_slice(word.as_bytes())
}
