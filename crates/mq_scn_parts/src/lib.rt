//! What the lines are with which the parts of a scenario begin, and its steps, as relations between a line's text and what
//! it says, and why a text is none; and that the readers read just these.
#![tactic(auto)]

mod laws;

pub use laws::{
    a_part_begins_where_it_is_written, a_part_fault_is_told, a_step_fault_is_told,
    a_step_is_read_where_it_is_written, a_text_begins_a_part_or_has_a_fault,
    a_text_is_a_step_or_has_a_fault,
};
