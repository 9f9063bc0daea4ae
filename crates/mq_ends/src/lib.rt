//! The ends of units of work: MQCMIT, MQBACK, MQDISC.
#![tactic(auto)]

mod ending;
mod units;

pub use ending::{mqback, mqcmit, mqdisc};
