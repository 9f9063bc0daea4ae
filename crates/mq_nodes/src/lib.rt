//! Nodes as the steps of a scenario see them: what each call tells of the entries that it makes.
#![tactic(auto)]

mod nodes;

pub use nodes::{Advanced, Monitored, Nodes, Stop};
