//! Rows of one manager, queue by queue, as a ledger keeps them: placed last in a lane, and taken by their idents.
#![tactic(auto)]

mod copies;
mod homes;
mod index;
mod lanes;
mod places;
mod roll;
mod shelves;
mod slots;
mod store;

pub use homes::{home_of, note_home};
pub use index::ShelfIndex;
pub use shelves::Shelves;
