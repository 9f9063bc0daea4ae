//! The managers of a scenario at rest: how they begin over a shelf, and what is read of them.
#![tactic(auto)]

mod beginning;
pub mod below;
mod fresh;
mod opened;
mod rested;
mod rewinding;

pub use fresh::{Fresh, begin};
pub use opened::with_one;
pub use rested::Rested;
pub use rewinding::rewind;
