//! MQGET of one queue manager.
#![tactic(auto)]

pub mod below;
mod finding;
mod getting;
mod holding;
mod leaving;
mod reading;
mod refusals;
mod survey;
mod takes;

pub use finding::{Hit, Plan};
pub use getting::{drop_expired, mqget};
pub use leaving::{Leaving, make_record_room};
pub use refusals::Aim;
