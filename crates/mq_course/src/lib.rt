//! The course of a network by the histories of its managers: what a vector of nodes has to say to be nodes of the steps.
#![tactic(auto)]

mod laws;

pub use laws::{
    histories_have_what_was_done, what_all_note_is_noted, what_one_does_more_is_the_networks,
};
