//! The sender end of a channel, as a machine: what its next turn does, and the state after it.
//!
//! Nothing here takes memory, reads a queue or writes a log: the caller does what a turn says, and tells what came of it.
#![tactic(auto)]

mod after;
mod frames;
mod machine;
mod state;
mod table;
mod turns;

pub use state::{Kept, Limits, Sender, SenderState, StopCause};
pub use turns::{SenderDoes, SenderOut};
