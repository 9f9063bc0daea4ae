//! What the reader gives: tokens, where they stand, and the lines of them that are commands.

use mq_text::below::Items;

/// Where a token stands. Between its first and last byte may stand a place at which its line goes on.
#[derive(Clone, Copy, Debug, PartialEq, Eq)]
pub struct Span {
    /// The physical line of its first byte, counted from 1.
    pub line: usize,
    /// The place of its first byte in the text, counted from 0.
    pub start: usize,
    /// The place behind its last byte.
    pub end: usize,
}

/// What a token is.
#[derive(Drop)]
pub enum TokenKind {
    /// Text without quotes, folded to upper case.
    Word(Items<u8>),
    /// What stands in quotes, as it is; two quotes are one.
    Quoted(Items<u8>),
    /// An opening bracket.
    Open,
    /// A closing bracket.
    Close,
}

/// A word, a text in quotes or a bracket, and where it stands.
#[derive(Drop)]
pub struct Token {
    pub span: Span,
    pub kind: TokenKind,
}

/// A command as its tokens.
#[derive(Drop)]
pub struct Line {
    /// The physical line on which it begins, counted from 1.
    pub number: usize,
    /// One at least.
    pub tokens: Items<Token>,
}
