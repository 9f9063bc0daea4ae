//! The local queues of a manager, found by name, and the places of messages on them.
#![tactic(auto)]

mod deadlines;
mod due;
mod held;
mod homes;
mod laws;
mod local;
mod named;
mod queues;
mod rooms;
mod slots;

pub use deadlines::is_past;
pub use due::DueAt;
pub use laws::calls_are_changes;
pub use local::LocalRows;
pub use queues::Queues;
pub use rooms::RowRoom;
