//! What an operator does to one queue manager, and its trigger turns: clock, cut, stop, commands on
//! objects.
#![tactic(auto)]

mod clock;
mod commands;
mod deltas;
mod stopping;
mod triggers;
mod uses;

pub use clock::{advance_clock, cut};
pub use commands::command;
pub use deltas::take_delta;
pub use stopping::stop;
pub use triggers::{next_due, trigger_turn};
