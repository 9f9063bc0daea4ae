//! Commands from lines of tokens.
#![tactic(auto)]

mod asking;
mod checks;
mod command;
mod fault;
mod naming;
mod parsing;
mod splitting;

pub use checks::has_word;
pub use command::{Command, Op};
pub use fault::ScFault;
pub use parsing::parse;
pub use splitting::{Item, items_of};
