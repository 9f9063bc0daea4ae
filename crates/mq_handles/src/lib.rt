//! The live connections of a manager and their handles, found by their numbers, which rise; and who uses a queue, found
//! by its name.
#![tactic(auto)]

pub mod below;
mod live;
mod numbers;
mod seat;
mod users;

pub use live::Live;
pub use numbers::place_of_handle;
pub use seat::Seat;
