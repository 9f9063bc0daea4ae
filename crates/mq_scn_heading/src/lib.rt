//! The lines with which the parts of a scenario begin, and its steps: what each says, or its first fault.
#![tactic(auto)]

pub mod below;
mod cables;
mod distinct;
mod heading;
mod lookup;
mod parts;
mod phases;
mod steps;

pub use cables::cable_faults;
pub use heading::{PartLine, part_read};
pub use lookup::own_name;
pub use parts::{PartWord, Stage, part_word_of};
pub use steps::step_line;
