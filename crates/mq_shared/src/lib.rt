//! Nodes behind locks: the scripts and the channels' ends of a phase run in threads.
#![tactic(auto)]

pub mod below;
mod courses;
mod held;
mod jobs;
mod locked;
mod phasing;
mod sharing;
mod trying;

pub use phasing::phase;
