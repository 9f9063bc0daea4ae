//! The objects and the local queues of a manager that comes up from an image.
#![tactic(auto)]

pub mod below;
mod building;
mod objects;
mod rows;
mod shelves;
mod sides;

pub use building::{Built, build};
