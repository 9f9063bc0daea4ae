//! Whether the logs of a scenario's managers belong together.
#![tactic(auto)]

pub mod below;
mod cables;
mod hardened;
mod idents;
mod rows;
mod twice;

pub use idents::compare;
pub use rows::is_held_there;
