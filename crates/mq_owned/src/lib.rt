//! What a scenario gives each node as its own: the ends of its channels, and copies of its rules tables, monitors and scripts.
#![tactic(auto)]

mod ends;
mod lines;
mod owned;
mod tables;

pub use ends::ends_of;
pub use lines::copy_part;
pub use owned::own_of;
pub use tables::copy_table;
