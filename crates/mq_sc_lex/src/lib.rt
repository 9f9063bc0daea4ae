//! Commands as lines of tokens: comments, lines that go on, quotes, and the folding of words.
#![tactic(auto)]

mod commanding;
mod fault;
mod joining;
mod token;
mod tokens;

pub use commanding::{Lines, commands, line_commands};
pub use fault::LexFault;
pub use joining::{Joined, Mark, join_lines};
pub use token::{Line, Span, Token, TokenKind};
