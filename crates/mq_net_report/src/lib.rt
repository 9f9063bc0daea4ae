//! The report of a run: its scripts line by line, its steps, and how queues, channels and the ledger stand at the end.
#![tactic(auto)]

pub mod below;
mod lines;
mod marks;
mod report;
mod starts;
mod steps;

pub use report::report_text;
pub use steps::{
    count_actions, count_lines, first_refusal, idle_word, put_answers, put_commands, put_lines,
    put_watched,
};
