//! What a person is told of a text that isn't run: the line, why, the word at fault, what may stand there, and the line
//! itself.
#![tactic(auto)]

mod commands;
mod finding;
mod hint;
mod place;
mod spot;
mod telling;
mod usage;

pub use hint::Hint;
pub use telling::fault_text;
