//! What is a node's own beside its manager: the ends of its channels, its handlers, its monitors and its scripts.
#![tactic(auto)]

mod ends;
mod handlers;
mod own;
mod parts;

pub use ends::{ChannelEnd, EndKind, ReceiverEnd, SenderEnd};
pub use handlers::{Handler, Tried};
pub use own::{Own, forget_all};
pub use parts::{Monitor, Script};
