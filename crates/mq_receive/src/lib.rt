//! A receiver's commit of a batch: where each message lands.
#![tactic(auto)]

mod arriving;
pub mod below;
mod committing;
mod doubts;
mod filling;
mod idents;
mod placing;
mod planning;
mod receiving;
mod rooms;

pub use arriving::land;
pub use filling::put_received;
pub use idents::{Found, standing};
pub use planning::plan;
pub use receiving::receive;
