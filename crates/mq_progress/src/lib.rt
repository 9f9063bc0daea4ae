//! How far a script is: the lines that are done, what it remembers, and the deadline of a get that waits.
#![tactic(auto)]

pub mod below;
mod laws;
mod progress;

pub use laws::{progress_is_the_historys, the_next_line_is_the_historys};
pub use progress::Progress;
