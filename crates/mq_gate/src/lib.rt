//! The gate that a script's worker passes before each try of a call in a phase; and for tests, disks whose calls are
//! counted and whose syncs wait for another manager's, so that two managers are seen to force at the same time.
#![tactic(auto)]

mod gate;
mod meeting;
mod tally;

pub use gate::{Gate, OpenGate, Point};
pub use meeting::{Meet, MeetShelf, Meeting};
pub use tally::Tally;
