//! When a trigger is due (IBM MQ administration, "Triggering channels and applications").
#![tactic(auto)]

pub mod below;
mod condition;
mod message;

pub use condition::{Tried, is_depth, is_triggered};
pub use message::trigger_message;
