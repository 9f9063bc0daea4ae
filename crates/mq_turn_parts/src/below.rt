//! What of the crates below those above take through this one.

pub use mq_events::below::{Found, Manager, are_distinct, bind, standing};
pub use mq_events::{Node, NodeParts, Outcome, Told};
