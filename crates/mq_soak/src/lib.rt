//! A large run from a number: its scenario, and the one line that tells of it.
#![tactic(auto)]

mod laws;
mod line;
mod lists;
mod making;
mod script;
mod sections;
mod steps;

pub use laws::{soaks_are_scenarios, soaks_have_texts};
pub use line::soak_line;
pub use making::scenario;
