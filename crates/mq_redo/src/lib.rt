//! What a write that was stopped did to what lasts, told by the restart that finds its record.
#![tactic(auto)]

mod arrivals;
pub mod below;
mod telling;
mod writes;

pub use writes::tell_redone;
