//! Words, texts in quotes, brackets, commas and semicolons of a text.

ghost use Rattle.std.specs.Prelude.{◌≡◌, ◌+◌, ◌<◌, ◌≤◌, length, position, IfOk};
ghost use Rattle.std.specs.List.{position_or_len};
ghost use Rattle.mq_text.specs.Pieces.{is_break, front_of, pieces_of, FrontFits, Gives, AreSlices};
ghost use Rattle.mq_text.specs.declared.piece.PieceFault.TheVariants.{NoMemory};

use crate::quoting::quoted_len;
use mq_base::Items;
use std::alloc::{AllocError, Global};
use thiserror::Error;

/// What a piece of a text is.
#[derive(Clone, Copy, PartialEq, Eq)]
pub enum PieceKind {
    /// Bytes up to a blank, a quote, a bracket, a comma or a semicolon.
    Word,
    /// Text in single quotes, which are part of the piece.
    Quoted,
    /// An opening bracket.
    Open,
    /// A closing bracket.
    Close,
    Comma,
    Semicolon,
}

/// A piece of a text: its bytes, of which there is one at least.
#[derive(Clone, Copy)]
pub struct Piece {
    pub kind: PieceKind,
    /// The place of the first byte, counted from 0.
    pub start: usize,
    /// The place behind the last byte.
    pub end: usize,
}

/// What stands at the front of some bytes.
#[derive(Clone, Copy)]
pub enum Front {
    /// A blank.
    Gap,
    /// A piece and its length in bytes.
    Piece(PieceKind, usize),
    /// A quote that nothing closes.
    Unclosed,
}

/// Why a text has no pieces.
#[derive(Clone, Copy, Debug, Error)]
pub enum PieceFault {
    /// The quote at this place, counted from 0, is not closed.
    #[error("the quote at byte {0} is not closed")]
    OpenQuote(usize),
    /// Memory ran out.
    #[error("out of memory")]
    NoMemory,
}

impl From<AllocError> for PieceFault {
    ghost from_gives = { λ _ e. e ≡ NoMemory };

    fn from(_: AllocError) -> Self {
        PieceFault::NoMemory
    }
}

fn is_break(b: u8) -> bool
    ensures { result ≡ is_break b }
{
    matches!(b, b' ' | b'\'' | b'(' | b')' | b',' | b';')
}

fn first_break(bytes: &[u8]) -> Option<usize>
    ensures { result ≡ position is_break bytes.now }
{
    bytes.iter().position(|b| is_break(*b))
}

fn word_len(bytes: &[u8]) -> usize
    ensures len { result ≡ position_or_len is_break bytes.now }
    ensures within { result ≤ length bytes.now }
{
    match first_break(bytes) {
        Some(at) => at,
        None => bytes.len(),
    }
}

fn front_of(bytes: &[u8]) -> Front
    ensures front { result ≡ front_of bytes.now }
    ensures fits { FrontFits result (length bytes.now) }
{
    match bytes {
        [] | [b' ', ..] => Front::Gap,
        [b'(', ..] => Front::Piece(PieceKind::Open, 1),
        [b')', ..] => Front::Piece(PieceKind::Close, 1),
        [b',', ..] => Front::Piece(PieceKind::Comma, 1),
        [b';', ..] => Front::Piece(PieceKind::Semicolon, 1),
        [b'\'', rest @ ..] => match quoted_len(rest) {
            Some(len) => Front::Piece(PieceKind::Quoted, 1 + len),
            None => Front::Unclosed,
        },
        [_, rest @ ..] => Front::Piece(PieceKind::Word, 1 + word_len(rest)),
    }
}

/// The pieces of a text in order. Blanks part them and are none. Source: MQSC reference, "Rules for
/// using MQSC commands".
///
/// # Errors
///
/// `OpenQuote` with the first quote that isn't closed; `NoMemory`.
pub fn pieces(alloc: Global, text: &[u8]) -> Result<Items<Piece>, PieceFault>
    ensures exact { Gives result (pieces_of text.now) }
    ensures slices { IfOk result (λ ps. AreSlices 0 ps (length text.now)) }
{
    let mut pieces = Items::new(alloc);
    let mut at = 0;
    'reading: while at < text.len() {
        let (_, rest) = text.split_at(at);
        match front_of(rest) {
            Front::Gap => at += 1,
            Front::Unclosed => return Err(PieceFault::OpenQuote(at)),
            Front::Piece(kind, len) => {
                pieces.push(Piece {
                    kind,
                    start: at,
                    end: at + len,
                })?;
                at += len;
            }
        }
    }
    Ok(pieces)
}
