//! Texts of rules tables of the dead-letter handler (IBM MQ, "The dead-letter queue handler rules
//! table"), in this project's subset.
#![tactic(auto)]

mod control;
mod draft;
mod fault;
mod keyword;
mod pairs;
mod reading;
mod values;

pub use fault::RulesFault;
pub use reading::table;
