//! What every call of one queue manager stands on: its parts, what ties them, what is read of them,
//! placing, forced writes, and the plain manager that they stand for.
#![tactic(auto)]

pub mod below;
mod checks;
mod forcing;
mod manager;
mod opening;
mod parts;
mod pending;
mod placing;

pub use checks::{is_input, is_sync_full, is_unfit_output};
pub use forcing::{make_put_room, put_bytes, return_room};
pub use manager::Core;
pub use parts::{Arrival, ChannelEnds, Mode, Parts, ReadLog, StoppedWrite};
