//! Cables split into their two ends, which threads hold, and joined again.
#![tactic(auto)]

mod ends;
mod joining;
mod opening;
mod parting;

pub use ends::HeldEnd;
pub use joining::join_cables;
pub use opening::{Passes, Pipes, are_short, close_cables, open_cables};
pub use parting::{EndRow, part_cables, room_for_ends};
