//! The words of commands: verbs, objects and keywords, which goes with which, and the values of keywords.
#![tactic(auto)]

mod attributes;
pub mod below;
mod giving;
mod keys;
mod shown;
mod value;
mod values;
mod verbs;

pub use attributes::{Kind, key_of};
pub use giving::{Given, given_of};
pub use keys::Key;
pub use shown::{
    joint_tables_have_all, keyword_of, known_keywords_are_shown_or_kept, shown_attributes_are_known,
};
pub use value::Value;
pub use values::{are_blanks, choice_value, number_value, type_value};
pub use verbs::{Noun, Verb, object_of, verb_of, words_are_found};
