//! What of the crates below those above take through this one.

pub use mq_sides::below::Effects;
pub use mq_sides::{KeptReceiver, KeptSender};
