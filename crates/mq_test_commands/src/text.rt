//! mq_text: lines, pieces, quoting and numbers.

use mq_text::{
    NumberFault, Piece, PieceFault, PieceKind, behind, next_line, number, pieces, signed, unquoted,
    upper,
};
use std::test::*;

/// A line with a piece of each kind.
const LINE: &[u8] = b"ab('It''s',c);";

/// Its pieces.
const PIECES: [(PieceKind, &[u8]); 7] = [
    (PieceKind::Word, b"ab"),
    (PieceKind::Open, b"("),
    (PieceKind::Quoted, b"'It''s'"),
    (PieceKind::Comma, b","),
    (PieceKind::Word, b"c"),
    (PieceKind::Close, b")"),
    (PieceKind::Semicolon, b";"),
];

/// Whether a piece of the line is this one.
fn is_piece(piece: &Piece, kind: &PieceKind, bytes: &[u8]) -> bool {
    piece.kind == *kind && LINE.get(piece.start..piece.end) == Some(bytes)
}

/// Whether these are the pieces above.
fn are_pieces(pieces: &[Piece]) -> bool {
    let mut met = pieces.len() == PIECES.len();
    for (piece, (kind, bytes)) in pieces.iter().zip(PIECES.iter()) {
        met = met && is_piece(piece, kind, bytes);
    }
    met
}

#[test]
fn a_line_is_cut_into_pieces(rt: HostRuntime) -> Result<(), Fail> {
    let found = pieces(rt.alloc(), LINE)?;
    assert!(rt; are_pieces(found.as_slice()));
    Ok(())
}

#[test]
fn an_open_quote_has_no_pieces(rt: HostRuntime) {
    assert!(rt; matches!(pieces(rt.alloc(), b"a 'b"), Err(PieceFault::OpenQuote(2))));
}

#[test]
fn a_piece_is_unquoted_and_folded(rt: HostRuntime) -> Result<(), Fail> {
    let inside = unquoted(rt.alloc(), b"'It''s'")?;
    assert!(rt; inside.as_slice() == b"It's".as_slice());
    let folded = upper(rt.alloc(), b"q1.z")?;
    assert!(rt; folded.as_slice() == b"Q1.Z".as_slice());
    Ok(())
}

/// Texts, with their first lines and what stands behind them.
const LINES: [(&[u8], Option<(&[u8], &[u8])>); 3] = [
    (b"a\n\nb", Some((b"a", b"\nb"))),
    (b"b", Some((b"b", b""))),
    (b"", None),
];

#[test]
fn lines_end_with_a_line_feed(rt: HostRuntime) {
    for (row, (text, wanted)) in LINES.iter().enumerate() {
        assert!(rt; next_line(text) == *wanted, "row {row}");
    }
    assert!(rt; behind(b"OBEY DL", b"OBEY ") == Some(b"DL".as_slice()));
}

/// Texts, and the numbers of 0 to 9 that they are.
const NUMBERS: [(&[u8], Result<u64, NumberFault>); 6] = [
    (b"0009", Ok(9)),
    (b"10", Err(NumberFault::OutOfRange)),
    (b"99999999999999999999999999", Err(NumberFault::OutOfRange)),
    (b"-1", Err(NumberFault::OutOfRange)),
    (b"", Err(NumberFault::NoNumber)),
    (b"1a", Err(NumberFault::NoNumber)),
];

/// Texts, and the signed numbers that they are.
const SIGNED: [(&[u8], Result<i32, NumberFault>); 3] = [
    (b"-2147483648", Ok(-2147483648)),
    (b"2147483648", Err(NumberFault::OutOfRange)),
    (b"-", Err(NumberFault::NoNumber)),
];

#[test]
fn numbers_have_ranges(rt: HostRuntime) {
    for (row, (text, wanted)) in NUMBERS.iter().enumerate() {
        assert!(rt; number(text, 0, 9) == *wanted, "row {row}");
    }
    for (row, (text, wanted)) in SIGNED.iter().enumerate() {
        assert!(rt; signed(text) == *wanted, "signed, row {row}");
    }
}
