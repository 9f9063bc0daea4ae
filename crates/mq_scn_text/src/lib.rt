//! Scenarios from their text: whole texts, line by line, with the first line that can't stand and why.
#![tactic(auto)]

pub mod below;
mod fault;
mod reading;
mod scripts;
mod sections;

pub use fault::{Cause, ScenarioFault, mqsc_word, rules_word};
pub use mq_scn_heading::Stage;
pub use reading::{Inside, Reading, line_read, nothing_read, read_scenario};
pub use scripts::Script;
pub use sections::Opened;
