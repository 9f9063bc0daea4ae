//! The lines of scripts: the call that each makes, and what a script remembers of the answers.
#![tactic(auto)]

mod calls;
mod copies;
mod letters;
mod memory;
mod targets;
mod texts;

pub use calls::{deadline_of, line_call, script_appl, wait_of};
pub use copies::copy_command;
pub use memory::{Memory, connected};
pub use texts::appl_name;
