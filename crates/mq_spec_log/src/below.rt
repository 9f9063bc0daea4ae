//! What of the crates below those above take through this one.

pub use mq_record::below::LogRecord;
pub use mq_record::{BodyFault, Operation, WrittenRecord, read_record};
pub use mq_sc_apply::defined_object;
pub use mq_sc_parse::{Command, Item, ScFault, has_word, items_of, parse};
