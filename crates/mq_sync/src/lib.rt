//! What the two ends of a channel harden, and how a unit in doubt is settled.
#![tactic(auto)]

mod data;
mod numbers;
mod unit;

pub use data::{ChannelData, Doubt, End, InDoubt, ReceiverData, SenderData, Stock, copy_doubt};
pub use numbers::next_number;
pub use unit::{Settle, Unit, settle_of};
