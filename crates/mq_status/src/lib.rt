//! DISPLAY CHSTATUS: a line for each end of a channel.
#![tactic(auto)]

mod lines;
mod writing;

pub use lines::{receiver_line, sender_line};
