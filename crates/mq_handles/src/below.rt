//! What of the crates below those above take through this one.

pub use mq_calls::Seizure;
pub use mq_calls::below::{Defs, LocalQueue, Process, TriggerType, Usage};
