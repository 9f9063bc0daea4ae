//! Turns of a channel's receiver end, each as one event of a node.
#![tactic(auto)]

mod asking;
pub mod below;
mod binding;
mod closing;
mod lifting;
mod lines;
mod owing;
mod placing;
mod quiet;
mod receiving;
mod taking;
mod turning;
mod working;

pub use turning::receiver_turn;
