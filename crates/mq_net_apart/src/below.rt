//! What of the crates below those above take through this one.

pub use mq_net_conflict::conflict;
pub use mq_net_rows::{home_of, note_home};
