//! The commands of a text.

ghost use Rattle.std.specs.Prelude.{◌≡◌, length};
ghost use Rattle.mq_sc_lex.specs.Tokens.{commands_of_marks};
ghost use Rattle.mq_sc_lex.specs.Commands.{commands_of_lines, commands_of, Gives};

use crate::fault::LexFault;
use crate::joining::{Mark, join_lines};
use crate::token::Line;
use crate::tokens::Commanding;
use mq_text::below::Items;
use std::alloc::Global;

/// The commands of a text in order.
pub type Lines = Items<Line>;

/// The commands of one joined line, parted by semicolons.
///
/// # Errors
///
/// `OpenQuote` with the line of the first quote that isn't closed; `NoMemory`.
pub fn line_commands(alloc: Global, marks: &[Mark]) -> Result<Lines, LexFault>
    ensures { Gives result (commands_of_marks marks.now) }
{
    let mut commanding = Commanding {
        lines: Items::new(alloc),
        current: Items::new(alloc),
    };
    commanding.add_line(alloc, marks)?;
    Ok(commanding.lines)
}

fn commands_of_lines(alloc: Global, lines: &[Items<Mark>]) -> Result<Lines, LexFault>
    ensures { Gives result (commands_of_lines lines.now) }
{
    let mut commanding = Commanding {
        lines: Items::new(alloc),
        current: Items::new(alloc),
    };
    for marks in lines {
        commanding.add_line(alloc, marks.as_slice())?;
    }
    Ok(commanding.lines)
}

/// The commands of a text.
///
/// A line that begins with `*` is a comment. A line whose last nonblank is `+` goes on at the first
/// nonblank of the next line, one whose last nonblank is `-` at its first byte; comments may stand
/// between. The end of any other line ends a command, as a `;` outside quotes does. Blanks and commas
/// part words, and blanks round brackets are free. Source: MQSC reference, "Rules for using MQSC
/// commands".
///
/// # Errors
///
/// `OpenQuote` with the line of the first quote that isn't closed on its command; `OpenContinuation`
/// where the last line goes on; `NoMemory`.
#[tactic(auto, unfolding(crate::specs::Commands::commands_of))]
pub fn commands(alloc: Global, text: &[u8]) -> Result<Lines, LexFault>
    ensures { Gives result (commands_of text.now) }
{
    let joined = join_lines(alloc, text)?;
    let lines = commands_of_lines(alloc, joined.lines.as_slice())?;
    if joined.unfinished {
        return Err(LexFault::OpenContinuation);
    }
    Ok(lines)
}
