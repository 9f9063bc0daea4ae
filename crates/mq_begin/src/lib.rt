//! The managers of a scenario begin over a shelf, each from the log on its own disk.
#![tactic(auto)]

mod beginning;
pub mod below;
mod faults;
mod one;

pub use beginning::{begin_managers, disks_of, first_moment};
pub use faults::{Begun, NetFault, NoNet};
