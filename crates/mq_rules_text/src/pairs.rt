//! Entries as pairs of a keyword and its value.

ghost use Rattle.std.specs.Prelude.{◌≡◌, option_copied};
ghost use Rattle.std.specs.List.{list_any, list_all};
ghost use Rattle.mq_rules_text.specs.Faults.{Reads};
ghost use Rattle.mq_rules_text.specs.Pairs.{word_in, value_in, is_open, is_close, pair_of, pairs_of, same_word, allowed, controls, distinct};

use crate::fault::Flaw;
use crate::keyword::{Keyword, is_control, keyword_of, same_keyword};
use mq_base::Items;
use mq_sc_lex::{Token, TokenKind};
use std::alloc::Global;

/// A word with the value behind it in brackets.
#[derive(Drop)]
pub struct Pair {
    /// The keyword that the word is, if it is one.
    pub keyword: Option<Keyword>,
    pub value: Items<u8>,
}

fn word_in(token: &Token) -> Option<&[u8]>
    ensures { option_copied result ≡ word_in token.now.kind }
{
    match &token.kind {
        TokenKind::Word(text) => Some(text.as_slice()),
        TokenKind::Quoted(_) | TokenKind::Open | TokenKind::Close => None,
    }
}

fn value_in(token: &Token) -> Option<&[u8]>
    ensures { option_copied result ≡ value_in token.now.kind }
{
    match &token.kind {
        TokenKind::Word(text) => Some(text.as_slice()),
        TokenKind::Quoted(text) => Some(text.as_slice()),
        TokenKind::Open | TokenKind::Close => None,
    }
}

fn is_open(token: &Token) -> bool
    ensures { result ≡ is_open token.now.kind }
{
    match &token.kind {
        TokenKind::Open => true,
        TokenKind::Word(_) | TokenKind::Quoted(_) | TokenKind::Close => false,
    }
}

fn is_close(token: &Token) -> bool
    ensures { result ≡ is_close token.now.kind }
{
    match &token.kind {
        TokenKind::Close => true,
        TokenKind::Word(_) | TokenKind::Quoted(_) | TokenKind::Open => false,
    }
}

fn pair_of(
    alloc: Global,
    word: &Token,
    opening: &Token,
    value: &Token,
    closing: &Token,
) -> Result<Pair, Flaw>
    ensures { Reads result (pair_of word.now opening.now value.now closing.now) }
{
    if !is_open(opening) || !is_close(closing) {
        return Err(Flaw::Form);
    }
    match word_in(word) {
        None => Err(Flaw::Form),
        Some(word) => match value_in(value) {
            None => Err(Flaw::Form),
            Some(value) => Ok(Pair {
                keyword: keyword_of(word),
                value: Items::from_slice(alloc, value)?,
            }),
        },
    }
}

/// The pairs of an entry.
pub fn pairs_of(alloc: Global, tokens: &[Token]) -> Result<Items<Pair>, Flaw>
    ensures { Reads result (pairs_of tokens.now) }
{
    let mut pairs = Items::new(alloc);
    let mut rest = tokens;
    'reading: while let [word, opening, value, closing, further @ ..] = rest {
        let pair = pair_of(alloc, word, opening, value, closing)?;
        pairs.push(pair)?;
        rest = further;
    }
    if rest.is_empty() {
        Ok(pairs)
    } else {
        Err(Flaw::Form)
    }
}

fn controls(pair: &Pair) -> bool
    ensures { result ≡ controls pair.now }
{
    match pair.keyword {
        Some(keyword) => is_control(keyword),
        None => false,
    }
}

/// Whether an entry has a keyword of the control entry.
pub fn has_control(pairs: &[Pair]) -> bool
    ensures { result ≡ list_any controls pairs.now }
{
    pairs.iter().any(|pair| controls(pair))
}

fn allowed(control: bool, pair: &Pair) -> bool
    ensures { result ≡ allowed control pair.now }
{
    match pair.keyword {
        Some(keyword) => is_control(keyword) == control,
        None => false,
    }
}

/// Whether each word is a keyword of that kind of entry.
pub fn all_allowed(control: bool, pairs: &[Pair]) -> bool
    ensures { result ≡ list_all (allowed control) pairs.now }
{
    pairs.iter().all(|pair| allowed(control, pair))
}

fn same_word(one: &Pair, other: &Pair) -> bool
    ensures { result ≡ same_word one.now other.now }
{
    match (one.keyword, other.keyword) {
        (Some(one), Some(other)) => same_keyword(one, other),
        _ => false,
    }
}

fn stands_among(pair: &Pair, pairs: &[Pair]) -> bool
    ensures { result ≡ list_any (same_word pair.now) pairs.now }
{
    pairs.iter().any(|other| same_word(pair, other))
}

/// Whether no keyword is given twice.
pub fn distinct(pairs: &[Pair]) -> bool
    ensures { result ≡ distinct pairs.now }
{
    let mut rest = pairs;
    'reading: while let [pair, further @ ..] = rest {
        if stands_among(pair, further) {
            return false;
        }
        rest = further;
    }
    true
}
