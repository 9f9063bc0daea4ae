//! How a run that was done whole ends: its verdict by its story, and its report.
#![tactic(auto)]

mod ending;
mod verdict;

pub use ending::{Ending, ending_of};
pub use verdict::{BadLog, Verdict, verdict_of};
