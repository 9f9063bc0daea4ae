//! What is meant: what a log says. What each record does to an image, whether it applies, and the image of
//! the bodies of a log.
#![tactic(auto)]

pub mod below;
mod laws;

pub use laws::bodies_are_read_one_after_another;
