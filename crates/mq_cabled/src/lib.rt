//! The ends of a node's channels, found and changed by their cables.
#![tactic(auto)]

pub mod below;
mod ends;

pub use ends::{as_sender, cable_of, end_in, lift_receiver, place_in, sender_of, set_end};
