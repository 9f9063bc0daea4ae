//! What a channel's sender end does of its own accord, each time as one event of a node.
#![tactic(auto)]

mod answering;
mod asking;
mod beginning;
mod holding;
mod preparing;
mod pushing;
mod settling;
mod turning;
mod working;

pub use answering::answering_turn;
pub use beginning::{First, begin_turn};
pub use preparing::prepare_turn;
pub use pushing::message_turn;
pub use settling::settling_turn;
pub use turning::sender_turn;
