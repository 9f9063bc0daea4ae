//! The scan of a get: the expired rows that it meets, and the row that it finds.
#![tactic(auto)]

mod scanning;

pub use scanning::{Met, row_under, scan, start_of};
