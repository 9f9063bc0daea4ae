//! How a manager stands at the end of a run: its definitions' local queues with their rows, and the ends of its channels, as plain data.
#![tactic(auto)]

mod ends;
mod queues;
mod rows;

pub use ends::{receiver_standing, sender_standing};
pub use queues::manager_standing;
pub use rows::put_rows;
