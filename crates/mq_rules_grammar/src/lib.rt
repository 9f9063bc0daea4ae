//! What a rules table is, as relations between its text and what it says, and why a text is none; and that the reader
//! reads just these.
#![tactic(auto)]

mod laws;

pub use laws::{
    a_table_fault_is_told, a_text_is_a_table_or_has_a_fault, tables_are_those_of_the_text,
};
