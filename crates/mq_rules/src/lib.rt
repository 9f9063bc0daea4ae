//! Rules of the dead-letter handler (IBM MQ, "Processing messages on a dead-letter queue"): what a
//! table of them says, and which rule a dead letter meets.
#![tactic(auto)]

mod choice;
mod pattern;
mod rule;

pub use choice::decide;
pub use rule::{Action, Condition, Forward, NumberField, Rule, Table, Target, TextField, Wait};
