//! Turns of dead-letter handlers, as events of a node.
#![tactic(auto)]

mod choosing;
mod finding;
mod treating;
mod tries;
mod turning;

pub use turning::{handler_idle, handler_turn};
