//! A restart of a queue manager, with what the history of its node keeps of it: how it ended, or the image of a log that was changed
//! from outside.
#![tactic(auto)]

pub mod below;
mod coming;
mod falling;
mod images;
mod raising;
mod reading;
mod restarting;

pub use restarting::{Back, restart};
