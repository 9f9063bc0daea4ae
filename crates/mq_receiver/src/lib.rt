//! The receiver end of a channel, as a machine: what its next turn does, and the state after it.
//!
//! Nothing here takes memory, places a message or writes a log: the caller does what a turn says, and tells what came
//! of it. The messages of a unit are kept by the caller.
#![tactic(auto)]

mod after;
mod machine;
mod state;
mod table;
mod turns;

pub use state::{Owed, Receiver, ReceiverState};
pub use turns::{ReceiverDoes, ReceiverOut};
