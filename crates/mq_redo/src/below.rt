//! What of the crates below those above take through this one.

pub use mq_core::below::Live;
pub use mq_core::{ChannelEnds, Core, Mode, Parts, ReadLog};
