//! A row that a rule of the dead-letter handler moves, and what refuses a message at the end of its route.
#![tactic(auto)]

pub mod below;
mod landing;
mod moving;
mod rules;

pub use landing::{refused_at, refused_by};
pub use rules::{Moving, move_row};
