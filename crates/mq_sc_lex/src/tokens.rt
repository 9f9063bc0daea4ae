//! The tokens of a joined line.

ghost use Rattle.std.specs.Prelude.{◌≡◌, ◌<◌, ◌≤◌, ◌++◌, ◌∷◌, [], length, slice_get, IfOk, OnOk};
ghost use Rattle.mq_sc_lex.specs.Tokens.{bytes_of, slice_of, span_of, line_at, meaning_of, meaning_added, numbered, commands_of_marks, GivesPieces};
ghost use Rattle.mq_text.specs.Pieces.{pieces_of, AreSlices};
ghost use Rattle.mq_sc_lex.specs.Commands.{Adds};

use crate::fault::LexFault;
use crate::joining::Mark;
use crate::token::{Line, Span, Token, TokenKind};
use mq_text::below::Items;
use mq_text::{Piece, PieceFault, PieceKind, pieces, unquoted, upper};
use std::alloc::{AllocError, Global};
use std::mem;

/// What a piece of a line means to its command.
#[derive(Drop)]
pub enum Meaning {
    /// It is a token.
    Token(TokenKind),
    /// It only parts words.
    Gap,
    /// It ends the command.
    End,
}

/// The commands that are whole, and the tokens of the next one.
#[derive(Drop)]
pub struct Commanding {
    pub lines: Items<Line>,
    pub current: Items<Token>,
}

fn bytes_of(alloc: Global, marks: &[Mark]) -> Result<Vec<u8>, AllocError>
    ensures { IfOk result (λ v. v.items ≡ bytes_of marks.now) }
{
    marks.iter().map(|mark| mark.byte).collect(alloc)
}

fn span_of(marks: &[Mark], piece: &Piece) -> Span
    requires some { piece.now.start < piece.now.end }
    requires within { piece.now.end ≤ length marks.now }
    ensures { result ≡ span_of marks.now piece.now }
{
    let first = &marks[piece.start];
    let last = &marks[piece.end - 1];
    Span {
        line: first.line,
        start: first.start,
        end: last.end,
    }
}

fn line_at(marks: &[Mark], at: usize) -> usize
    ensures { result ≡ line_at (slice_get marks.now at) }
{
    match marks.get(at) {
        Some(mark) => mark.line,
        None => 0,
    }
}

fn meaning_of(alloc: Global, kind: PieceKind, text: &[u8]) -> Result<Meaning, AllocError>
    ensures { IfOk result (λ m. m ≡ meaning_of kind text.now) }
{
    match kind {
        PieceKind::Word => Ok(Meaning::Token(TokenKind::Word(upper(alloc, text)?))),
        PieceKind::Quoted => Ok(Meaning::Token(TokenKind::Quoted(unquoted(alloc, text)?))),
        PieceKind::Open => Ok(Meaning::Token(TokenKind::Open)),
        PieceKind::Close => Ok(Meaning::Token(TokenKind::Close)),
        PieceKind::Comma => Ok(Meaning::Gap),
        PieceKind::Semicolon => Ok(Meaning::End),
    }
}

fn slice_of<'a>(bytes: &'a [u8], piece: &Piece) -> &'a [u8]
    requires some { piece.now.start < piece.now.end }
    requires within { piece.now.end ≤ length bytes.now }
    ensures { result.now ≡ slice_of bytes.now piece.now }
{
    let (front, _) = bytes.split_at(piece.end);
    let (_, slice) = front.split_at(piece.start);
    slice
}

fn pieces_of(alloc: Global, marks: &[Mark], bytes: &[u8]) -> Result<Items<Piece>, LexFault>
    requires { bytes.now ≡ bytes_of marks.now }
    ensures pieces { GivesPieces marks.now result (pieces_of bytes.now) }
    ensures slices { IfOk result (λ ps. AreSlices 0 ps (length bytes.now)) }
{
    match pieces(alloc, bytes) {
        Ok(pieces) => Ok(pieces),
        Err(PieceFault::OpenQuote(at)) => Err(LexFault::OpenQuote(line_at(marks, at))),
        Err(PieceFault::NoMemory) => Err(LexFault::NoMemory),
    }
}

/// Adds a command that has tokens.
fn add_command(lines: &mut Items<Line>, tokens: Items<Token>) -> Result<(), AllocError>
    ensures { OnOk result (lines.new ≡ lines.old ++ numbered (tokens ∷ [])) }
{
    let number = match tokens.as_slice() {
        [] => return Ok(()),
        [first, ..] => first.span.line,
    };
    lines.push(Line { number, tokens })
}

impl Commanding {
    fn add_meaning(&mut self, alloc: Global, meaning: Meaning, span: Span) -> Result<(), AllocError>
        ensures { OnOk result (self.new ≡ meaning_added meaning span self.old) }
    {
        match meaning {
            Meaning::Token(kind) => self.current.push(Token { span, kind }),
            Meaning::Gap => Ok(()),
            Meaning::End => {
                let tokens = mem::replace(&mut self.current, Items::new(alloc));
                add_command(&mut self.lines, tokens)
            }
        }
    }

    /// Adds the commands of a line.
    #[tactic(auto, unfolding(crate::specs::Tokens::commands_of_marks))]
    pub fn add_line(&mut self, alloc: Global, marks: &[Mark]) -> Result<(), LexFault>
        requires { self.old.current ≡ [] }
        ensures lines { Adds self.old.lines self.new.lines result (commands_of_marks marks.now) }
        ensures current { OnOk result (self.new.current ≡ []) }
    {
        let bytes = bytes_of(alloc, marks)?;
        let pieces = pieces_of(alloc, marks, &bytes)?;
        for piece in pieces.as_slice() {
            let meaning = meaning_of(alloc, piece.kind, slice_of(&bytes, piece))?;
            self.add_meaning(alloc, meaning, span_of(marks, piece))?;
        }
        let tokens = mem::replace(&mut self.current, Items::new(alloc));
        add_command(&mut self.lines, tokens)?;
        Ok(())
    }
}
