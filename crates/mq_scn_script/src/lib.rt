//! Lines of a scenario's scripts.
#![tactic(auto)]

mod bodies;
mod commands;
mod lines;
mod options;
mod verbs;

pub use bodies::body_len;
pub use commands::{command_in, fault_of_line, fault_of_text};
pub use lines::script_line;
pub use options::{get_options, put_options};
pub use verbs::ScriptVerb;
