//! What of the crates below those above take through this one.

pub use mq_events::{Entries, Node, NodeParts, Opening, last_entry};
