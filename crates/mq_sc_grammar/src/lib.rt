//! What a text of MQSC commands is, as a relation between the text and the lines of tokens that it has, and why
//! a text is none; what a line is, as a relation between its tokens and a command, and why a line is none; and
//! that the readers read just these.
#![tactic(auto)]

mod laws;

pub use laws::{
    a_command_is_read_where_it_is_written, a_fault_is_told_where_it_stands,
    a_line_is_a_command_or_has_a_fault, a_line_is_one_command, a_text_fault_is_told,
    a_text_has_commands_or_a_fault, commands_are_those_of_the_text, one_list_of_commands,
};
