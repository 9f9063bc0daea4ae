//! Whether a cable is idle, asked of its two ends and of what lies on it, without a turn.
#![tactic(auto)]

pub mod below;
mod cables;
mod full;
mod receiving;
mod sending;

pub use cables::cable_idle;
