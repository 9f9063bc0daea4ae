//! Turns of trigger monitors, as events of a node; and how a monitor connects and opens its initiation queue.
#![tactic(auto)]

mod beginning;
pub mod below;
mod getting;
mod looking;
mod watching;

pub use getting::{Monitored, monitor_turn};
pub use watching::{connect, is_watching, open};
