//! Physical lines joined where they go on, each byte with its place.

ghost use Rattle.std.specs.Prelude.{◌≡◌, ◌+◌, ◌<◌, ◌≤◌, ◌++◌, ◌^◌, length, take, drop, OnOk, IfOk};
ghost use Rattle.std.specs.List.{prefix_len};
ghost use Rattle.mq_sc_lex.specs.Joining.{is_blank, is_comment, ending_of, body_of, passed, marks_from, part_of, line_added, finished, IsTrimmed, joined_of};

use mq_text::below::Items;
use mq_text::next_line;
use std::alloc::{AllocError, Global};
use std::mem;

/// A byte of a text, with its place.
#[derive(Clone, Copy)]
pub struct Mark {
    pub byte: u8,
    /// The physical line on which it stands, counted from 1.
    pub line: usize,
    /// Its place in the text, counted from 0.
    pub start: usize,
    /// The place behind it.
    pub end: usize,
}

/// How a physical line ends.
#[derive(Clone, Copy, PartialEq, Eq)]
pub enum Ending {
    /// Its command ends with it.
    Whole,
    /// It goes on at the first nonblank of the next line.
    Plus,
    /// It goes on at the first byte of the next line.
    Minus,
}

/// The lines that the physical lines make, and whether the last one was to go on.
#[derive(Drop)]
pub struct Joined {
    pub lines: Items<Items<Mark>>,
    /// The last of them ends with a sign, and no line follows.
    pub unfinished: bool,
}

fn is_comment(bytes: &[u8]) -> bool
    ensures { result ≡ is_comment bytes.now }
{
    match bytes {
        [b'*', ..] => true,
        _ => false,
    }
}

/// How long a line is without the blanks at its end.
fn trimmed_len(bytes: &[u8]) -> usize
    ensures { IsTrimmed bytes.now result }
{
    let mut len = bytes.len();
    'trimming: while len > 0 && bytes[len - 1] == b' ' {
        len -= 1;
    }
    len
}

/// How a line ends, and the line without its sign.
fn split_end(bytes: &[u8]) -> (Ending, &[u8])
    ensures ending { result.0 ≡ ending_of bytes.now }
    ensures body { result.1.now ≡ body_of bytes.now }
    ensures within { length result.1.now ≤ length bytes.now }
{
    let len = trimmed_len(bytes);
    if len == 0 {
        return (Ending::Whole, bytes);
    }
    let (body, _) = bytes.split_at(len - 1);
    match bytes[len - 1] {
        b'+' => (Ending::Plus, body),
        b'-' => (Ending::Minus, body),
        _ => (Ending::Whole, bytes),
    }
}

fn blanks_len(bytes: &[u8]) -> usize
    ensures len { result ≡ prefix_len is_blank bytes.now }
    ensures within { result ≤ length bytes.now }
{
    for (at, byte) in bytes.iter().enumerate() {
        if *byte != b' ' {
            return at;
        }
    }
    bytes.len()
}

fn passed(before: Ending, body: &[u8]) -> usize
    ensures len { result ≡ passed before body.now }
    ensures within { result ≤ length body.now }
{
    match before {
        Ending::Plus => blanks_len(body),
        Ending::Whole | Ending::Minus => 0,
    }
}

/// Adds the bytes with their places, which begin at `at`.
fn add_marks(
    marks: &mut Items<Mark>,
    line: usize,
    at: usize,
    bytes: &[u8],
) -> Result<(), AllocError>
    requires { at + length bytes.now < 2 ^ 64 }
    ensures { OnOk result (marks.new ≡ marks.old ++ marks_from line at bytes.now) }
{
    for (index, byte) in bytes.iter().enumerate() {
        marks.push(Mark {
            byte: *byte,
            line,
            start: at + index,
            end: at + index + 1,
        })?;
    }
    Ok(())
}

/// Adds what a physical line adds, and says how the line ends.
fn add_part(
    front: &mut Items<Mark>,
    before: Ending,
    line: usize,
    at: usize,
    bytes: &[u8],
) -> Result<Ending, AllocError>
    requires { at + length bytes.now < 2 ^ 64 }
    ensures part { OnOk result (front.new ≡ front.old ++ part_of before line at bytes.now) }
    ensures ending { IfOk result (λ e. e ≡ ending_of bytes.now) }
{
    let (ending, body) = split_end(bytes);
    let skipped = passed(before, body);
    let (_, rest) = body.split_at(skipped);
    add_marks(front, line, at + skipped, rest)?;
    Ok(ending)
}

/// The lines that are whole, the parts of the next one, and how the last physical line ended.
#[derive(Drop)]
pub struct Joining {
    lines: Items<Items<Mark>>,
    front: Items<Mark>,
    before: Ending,
}

impl Joining {
    /// Adds a physical line with its number and its place in the text.
    fn add_line(
        &mut self,
        alloc: Global,
        number: usize,
        at: usize,
        bytes: &[u8],
    ) -> Result<(), AllocError>
        requires { at + length bytes.now < 2 ^ 64 }
        ensures { OnOk result (self.new ≡ line_added number at bytes.now self.old) }
    {
        if is_comment(bytes) {
            return Ok(());
        }
        let ending = add_part(&mut self.front, self.before, number, at, bytes)?;
        self.before = ending;
        if ending == Ending::Whole {
            let line = mem::replace(&mut self.front, Items::new(alloc));
            self.lines.push(line)?;
        }
        Ok(())
    }

    fn finish(self) -> Result<Joined, AllocError>
        ensures { IfOk result (λ j. j ≡ finished self) }
    {
        let Joining {
            mut lines,
            front,
            before,
        } = self;
        if before == Ending::Whole {
            return Ok(Joined {
                lines,
                unfinished: false,
            });
        }
        lines.push(front)?;
        Ok(Joined {
            lines,
            unfinished: true,
        })
    }
}

/// The lines that the physical lines of a text make, comments left out. Source: MQSC reference, "Rules
/// for using MQSC commands".
///
/// # Errors
///
/// No memory.
pub fn join_lines(alloc: Global, text: &[u8]) -> Result<Joined, AllocError>
    ensures { IfOk result (λ j. j ≡ joined_of text.now) }
{
    let mut joining = Joining {
        lines: Items::new(alloc),
        front: Items::new(alloc),
        before: Ending::Whole,
    };
    let mut number = 1;
    let mut rest = text;
    'reading: while let Some((bytes, after)) = next_line(rest) {
        joining.add_line(alloc, number, text.len() - rest.len(), bytes)?;
        number += 1;
        rest = after;
    }
    joining.finish()
}
