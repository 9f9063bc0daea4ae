//! The rows of all queues as a log tells them, found by their idents.
#![tactic(auto)]

mod copies;
mod distinct;
mod rack;
mod racks;
mod rows;
mod shelves;
mod slots;
mod spots;

pub use distinct::{are_distinct, is_met, meet};
pub use shelves::Shelves;
