//! Commands on the ends of channels: START, STOP, RESET and RESOLVE CHANNEL, each as one event of a node.
#![tactic(auto)]

mod asking;
mod closing;
mod operating;
mod places;
mod receivers;
mod senders;
mod working;

pub use operating::operate;
