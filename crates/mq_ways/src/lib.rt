//! The two directions of a cable in one thread, and what the histories of its two ends say of them.
#![tactic(auto)]

mod cable;
mod laws;
mod opening;

pub use cable::Cable;
pub use laws::{
    a_cable_stays_where_its_ends_are_quiet, a_spoiled_frame_is_none, an_item_that_waits_is_seen,
    new_cables_are_as_their_ends_say, nothing_lies_on_a_new_direction,
    what_lies_there_is_what_the_faults_make,
};
pub use opening::{cables_of, copy_faults};
