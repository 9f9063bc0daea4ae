//! What a text of a scenario is, part by part, and why a text is none: the laws that the reader reads just these.
#![tactic(auto)]

mod laws;

pub use laws::{
    a_text_is_a_scenario_or_has_a_fault, one_scenario_of_a_text, scenarios_are_those_of_the_text,
    scenarios_of_texts_keep_to_their_limits, the_first_fault_is_told,
};
