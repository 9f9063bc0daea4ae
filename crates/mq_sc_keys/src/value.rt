//! What stands behind a keyword.

use mq_objects::below::Items;

/// What stands in brackets behind a keyword.
#[derive(Drop)]
pub enum Value {
    /// No brackets stand there.
    Absent,
    /// One word or one quoted text.
    Text(Items<u8>),
    /// Not one value in a pair of brackets.
    Malformed,
}
