//! What of the crates below those above take through this one.

pub use mq_scn_heading::cable_faults;
