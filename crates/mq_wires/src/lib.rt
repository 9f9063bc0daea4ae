//! What an end of a channel sees on its wire, takes from it, and offers on it; and the stamp of what it does.
#![tactic(auto)]

mod offering;
mod seeing;
mod stamping;

pub use offering::offer;
pub use seeing::{Sight, see, take};
pub use stamping::next_stamp;
