//! How a queue manager comes up from its log: its first start, and why a restart is what its history says.
#![tactic(auto)]

mod aside;
mod beginning;
pub mod below;
mod images;
mod laws;
mod parts;
mod reading;
mod starting;

pub use aside::make_room;
pub use beginning::{Unbegun, begin};
pub use images::bodies_are_bytes;
pub use laws::a_log_stands_behind_each_stop;
pub use reading::{LogRead, Returned, Unraised, Unreturned};
pub use starting::{a_restart_comes_up_as_its_history_says, a_restart_keeps_to_its_history};
