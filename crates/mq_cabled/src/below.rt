//! What of the crates below those above take through this one.

pub use mq_own::{ChannelEnd, EndKind, Own, ReceiverEnd, SenderEnd};
