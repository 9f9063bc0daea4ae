//! Lines of a scenario: their words, what the words say, and what can be wrong in a line.
#![tactic(auto)]

mod fault;
mod numbers;
mod operands;
mod options;
mod texts;
mod words;

pub use fault::{Limit, LineFault, MqscFault, both};
pub use numbers::{ranged, signed_number};
pub use operands::{
    before_last, bracketed, channel_in, in_quotes, label_in, name_in, name_or_blank_in,
};
pub use options::{
    GET_OPTIONS, LineOption, OPEN_OPTIONS, PUT_OPTIONS, are_options, says, value_of,
};
pub use texts::{field_in, text_in};
pub use words::{first_word, is_open, words_of};
