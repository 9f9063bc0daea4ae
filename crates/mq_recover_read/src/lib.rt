//! The records that the bodies of a log are.
#![tactic(auto)]

mod reading;
mod texts;

pub use reading::log_record;
pub use texts::change_of;
