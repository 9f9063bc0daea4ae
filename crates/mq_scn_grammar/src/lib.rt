//! What the lines of a scenario's scripts are, as relations between a line's text and what it says, and why a text is
//! none; and that the readers read just these.
#![tactic(auto)]

mod laws;

pub use laws::{
    a_first_word_is_read_where_it_stands, a_quote_is_open_where_there_are_no_words,
    a_script_fault_is_told, a_script_line_is_read_where_it_is_written,
    a_text_is_a_script_line_or_has_a_fault, a_value_stands_in_brackets,
    an_option_has_the_value_that_its_word_gives, bodies_are_read_where_they_stand,
    fields_are_read_where_they_stand, labels_are_read_where_they_stand,
    names_are_read_where_they_stand, names_or_blanks_are_read_where_they_stand,
    numbers_are_read_where_they_stand, one_command_is_read_where_it_stands,
    options_are_those_of_the_words, options_of_gets_are_read, options_of_opens_are_read,
    options_of_puts_are_read, signed_numbers_are_read_where_they_stand,
    texts_are_read_where_they_stand, words_are_those_of_the_text,
};
