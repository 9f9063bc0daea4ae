//! The tokens behind an object as keywords with their values.

ghost use Rattle.std.specs.Prelude.{◌≡◌, ◌+◌, ◌≤◌, position, length, IfOk, if◌then◌else◌};
ghost use Rattle.std.specs.List.{position_or_len};
ghost use Rattle.mq_sc_keys.specs.declared.value.Value.TheVariants.{Text, Absent};
ghost use Rattle.mq_sc_parse.specs.Splitting.{is_open_kind, is_close_kind, is_word_kind, is_open, is_close, is_bracket, closing_len, inner_len, word_of_kind, text_value, bracketed, value_at, value_len, item_at, item_len, items_of};

use mq_sc_keys::Value;
use mq_sc_keys::below::Items;
use mq_sc_lex::{Span, Token, TokenKind};
use std::alloc::{AllocError, Global};

/// A keyword of a command, as it is written, and its value. A token that can't be a keyword has no word.
#[derive(Drop)]
pub struct Item {
    /// In upper case.
    pub word: Items<u8>,
    /// Where the word stands.
    pub span: Span,
    pub value: Value,
}

fn is_open(token: &Token) -> bool
    ensures { result ≡ is_open token.now }
{
    match &token.kind {
        TokenKind::Open => true,
        TokenKind::Word(_) | TokenKind::Quoted(_) | TokenKind::Close => false,
    }
}

fn is_close(token: &Token) -> bool
    ensures { result ≡ is_close token.now }
{
    match &token.kind {
        TokenKind::Close => true,
        TokenKind::Word(_) | TokenKind::Quoted(_) | TokenKind::Open => false,
    }
}

fn is_word(token: &Token) -> bool
    ensures { result ≡ is_word_kind token.now.kind }
{
    match &token.kind {
        TokenKind::Word(_) => true,
        TokenKind::Quoted(_) | TokenKind::Open | TokenKind::Close => false,
    }
}

/// The word of a token, empty where it is none.
pub fn word_of(token: &Token) -> &[u8]
    ensures { result.now ≡ word_of_kind token.now.kind }
{
    match &token.kind {
        TokenKind::Word(word) => word.as_slice(),
        TokenKind::Quoted(_) | TokenKind::Open | TokenKind::Close => &[],
    }
}

fn copied(alloc: Global, text: &Items<u8>) -> Result<Value, AllocError>
    ensures { IfOk result (λ v. v ≡ Text text.now) }
{
    Ok(Value::Text(Items::from_slice(alloc, text.as_slice())?))
}

fn text_value(alloc: Global, token: &Token) -> Result<Value, AllocError>
    ensures { IfOk result (λ v. v ≡ text_value token.now.kind) }
{
    match &token.kind {
        TokenKind::Word(text) => copied(alloc, text),
        TokenKind::Quoted(text) => copied(alloc, text),
        TokenKind::Open | TokenKind::Close => Ok(Value::Malformed),
    }
}

fn bracketed(alloc: Global, tokens: &[Token]) -> Result<Value, AllocError>
    ensures { IfOk result (λ v. v ≡ bracketed tokens.now) }
{
    match tokens {
        [value, close, ..] if is_close(close) => text_value(alloc, value),
        _ => Ok(Value::Malformed),
    }
}

/// The value behind a keyword.
pub fn value_at(alloc: Global, tokens: &[Token]) -> Result<Value, AllocError>
    ensures { IfOk result (λ v. v ≡ value_at tokens.now) }
{
    match tokens {
        [open, rest @ ..] if is_open(open) => bracketed(alloc, rest),
        _ => Ok(Value::Absent),
    }
}

fn is_bracket(token: &Token) -> bool
    ensures { result ≡ is_bracket token.now }
{
    is_open(token) || is_close(token)
}

fn first_bracket(tokens: &[Token]) -> Option<usize>
    ensures { result ≡ position is_bracket tokens.now }
{
    tokens.iter().position(|token| is_bracket(token))
}

fn bracket_or_len(tokens: &[Token]) -> usize
    ensures place { result ≡ position_or_len is_bracket tokens.now }
    ensures within { result ≤ length tokens.now }
{
    match first_bracket(tokens) {
        Some(at) => at,
        None => tokens.len(),
    }
}

fn closing_len(tokens: &[Token]) -> usize
    ensures len { result ≡ closing_len tokens.now }
    ensures within { result ≤ length tokens.now }
{
    match tokens {
        [close, ..] if is_close(close) => 1,
        _ => 0,
    }
}

fn inner_len(tokens: &[Token]) -> usize
    ensures len { result ≡ inner_len tokens.now }
    ensures within { result ≤ length tokens.now }
{
    let at = bracket_or_len(tokens);
    let (_, rest) = tokens.split_at(at);
    at + closing_len(rest)
}

/// How many tokens a value takes: its bracket, and those up to the first bracket of either kind, which belongs to it if it closes.
pub fn value_len(tokens: &[Token]) -> usize
    ensures len { result ≡ value_len tokens.now }
    ensures within { result ≤ length tokens.now }
{
    match tokens {
        [open, rest @ ..] if is_open(open) => 1 + inner_len(rest),
        _ => 0,
    }
}

fn item_at(alloc: Global, token: &Token, rest: &[Token]) -> Result<Item, AllocError>
    ensures { IfOk result (λ i. i ≡ item_at token.now rest.now) }
{
    let word = Items::from_slice(alloc, word_of(token))?;
    let value = item_value(alloc, token, rest)?;
    Ok(Item {
        word,
        span: token.span,
        value,
    })
}

fn item_value(alloc: Global, token: &Token, rest: &[Token]) -> Result<Value, AllocError>
    ensures { IfOk result (λ v. v ≡ (if is_word_kind token.now.kind then value_at rest.now else Absent)) }
{
    if is_word(token) {
        value_at(alloc, rest)
    } else {
        Ok(Value::Absent)
    }
}

fn item_len(token: &Token, rest: &[Token]) -> usize
    ensures len { result ≡ item_len token.now rest.now }
    ensures within { result ≤ length rest.now }
{
    if is_word(token) { value_len(rest) } else { 0 }
}

/// The keywords of some tokens with their values.
///
/// # Errors
///
/// No memory.
pub fn items_of(alloc: Global, tokens: &[Token]) -> Result<Items<Item>, AllocError>
    ensures { IfOk result (λ items. items ≡ items_of tokens.now) }
{
    let mut items = Items::new(alloc);
    let mut at = 0;
    'splitting: while at < tokens.len() {
        let (_, after) = tokens.split_at(at + 1);
        let token = &tokens[at];
        items.push(item_at(alloc, token, after)?)?;
        at += 1 + item_len(token, after).min(after.len());
    }
    Ok(items)
}
