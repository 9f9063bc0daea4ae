//! mq_sc_lex: texts of commands as lines of tokens.

use crate::fixture::is_fault;
use mq_sc_lex::{LexFault, Lines, Span, Token, TokenKind, commands};
use std::alloc::{AllocError, Global};
use std::test::*;

fn push_token(text: &mut String, token: &Token) -> Result<(), AllocError> {
    match &token.kind {
        TokenKind::Word(word) => text.push_str(str::from_utf8(word.as_slice()).unwrap_or("?")),
        TokenKind::Quoted(word) => {
            text.push('"')?;
            text.push_str(str::from_utf8(word.as_slice()).unwrap_or("?"))?;
            text.push('"')
        }
        TokenKind::Open => text.push('('),
        TokenKind::Close => text.push(')'),
    }
}

/// Writes each command on a line of its own: its number, and its tokens with blanks between.
fn show(text: &mut String, lines: &Lines) -> Result<(), AllocError> {
    for line in lines.as_slice() {
        let number = line.number;
        write!(text, "{number}")?;
        for token in line.tokens.as_slice() {
            text.push(' ')?;
            push_token(text, token)?;
        }
        text.push('\n')?;
    }
    Ok(())
}

/// Whether these are the commands of a text.
fn are_commands(alloc: Global, source: &str, wanted: &str) -> bool {
    let mut text = String::new(alloc);
    match commands(alloc, source.as_bytes()) {
        Ok(lines) => show(&mut text, &lines).is_ok() && text.as_str() == wanted,
        Err(_) => false,
    }
}

/// Texts, and their commands.
const CASES: [(&str, &str); 9] = [
    (
        "def ql(q1) descr('It''s') maxdepth(10)\nalter qlocal(Q1) +\n  put(disabled)\n",
        "1 DEF QL ( Q1 ) DESCR ( \"It's\" ) MAXDEPTH ( 10 )\n2 ALTER QLOCAL ( Q1 ) PUT ( DISABLED )\n",
    ),
    (
        "* a comment\n\ndis ql( Q1 ),put ;; stop chl(c)",
        "3 DIS QL ( Q1 ) PUT\n3 STOP CHL ( C )\n",
    ),
    ("ab+\n  cd\n", "1 ABCD\n"),
    ("ab-\n  cd\n", "1 AB CD\n"),
    ("'ab-\n  cd'\n", "1 \"ab  cd\"\n"),
    ("'a +\n* between\n  b;c'", "1 \"a b;c\"\n"),
    ("a + \n\nb", "1 A\n3 B\n"),
    ("a 'b'c", "1 A \"b\" C\n"),
    ("", ""),
];

#[test]
fn texts_have_commands(rt: HostRuntime) {
    for (text, wanted) in &CASES {
        assert!(rt; are_commands(rt.alloc(), text, wanted), "{text}");
    }
}

/// Texts that are no commands, and why.
const FAULTS: [(&str, LexFault); 6] = [
    ("DEFINE QLOCAL('A", LexFault::OpenQuote(1)),
    ("A\nB +\n'C +\nD", LexFault::OpenQuote(3)),
    ("A 'B\nC'\nD +", LexFault::OpenQuote(1)),
    ("DEFINE QLOCAL(A) +", LexFault::OpenContinuation),
    ("A -\n", LexFault::OpenContinuation),
    ("A +\n* only a comment\n", LexFault::OpenContinuation),
];

#[test]
fn the_first_fault_is_told(rt: HostRuntime) {
    for (text, fault) in &FAULTS {
        assert!(rt; is_fault(rt.alloc(), text.as_bytes(), *fault), "{text}");
    }
}

fn push_spans(spans: &mut Vec<Span>, lines: &Lines) -> Result<(), AllocError> {
    for line in lines.as_slice() {
        for token in line.tokens.as_slice() {
            spans.push(token.span)?;
        }
    }
    Ok(())
}

/// The lines, beginnings and ends of the tokens below.
const SPANS: [Span; 2] = [
    Span {
        line: 1,
        start: 0,
        end: 2,
    },
    Span {
        line: 2,
        start: 7,
        end: 14,
    },
];

/// Whether the tokens of a text stand there.
fn are_spans(alloc: Global, text: &[u8], wanted: &[Span]) -> bool {
    let mut spans = Vec::new(alloc);
    match commands(alloc, text) {
        Ok(lines) => push_spans(&mut spans, &lines).is_ok() && spans.as_slice() == wanted,
        Err(_) => false,
    }
}

#[test]
fn spans_are_places_in_the_text(rt: HostRuntime) {
    assert!(rt; are_spans(rt.alloc(), b"ab +\n  'c+\n d'", &SPANS));
}
