//! What a manager's first start read of its log, as the log tells it once more.
#![tactic(auto)]

mod opening;

pub use opening::{opening_length, opening_of};
