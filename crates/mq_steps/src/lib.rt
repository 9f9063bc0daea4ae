//! The steps of a scenario over nodes: each step's loop does its entries and no others, for whatever nodes do them.
#![tactic(auto)]

mod asks;
mod lines;
mod phases;
mod pumping;
mod steps;
mod turns;

pub use asks::{clocks, obey, obey_all};
pub use lines::run;
pub use pumping::{Pumped, pump};
pub use steps::run_steps;
pub use turns::{handle, serve};
