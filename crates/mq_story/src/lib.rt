//! The story of a network: all entries of its managers' histories in one order.
#![tactic(auto)]

mod merging;

pub use merging::{Spot, entry_at, story_of};
