//! One queue manager over its forced log, whose facts hold between its calls.
#![tactic(auto)]

pub mod below;
mod laws;
mod limit;
mod manager;
mod notes;

pub use laws::a_call_keeps_what_the_log_tells;
pub use manager::Manager;
