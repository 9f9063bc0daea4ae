//! What of the crates below those above take through this one.

pub use mq_steps::run_steps;
pub use mq_world_begin::below::NetFault;
