//! A queue whose rows are found by their idents, their ids and their places with no walk over the others.
#![tactic(auto)]

mod chain;
mod counts;
mod homes;
mod index;
mod keys;
mod laws;
mod pack;
mod queue;
mod rows;
mod store;
mod walk;

pub use laws::{
    a_row_comes_last_in_its_lane, a_row_is_found_among_those_with_its_id,
    a_row_is_found_lane_by_lane, changed_rows_stay_in_their_lanes, rows_stay_in_their_lanes,
};
pub use queue::IndexedQueue;
