//! Records of the log as bytes and back. What a record has in front is an array of its own, and lists
//! and messages are written into room that was taken before.
#![tactic(auto)]

pub mod below;
mod buffer;
mod fault;
mod fronts;
mod growing;
mod kinds;
mod laws;
mod lists;
mod messages;
mod parts;
mod record;

pub use buffer::Buffer;
pub use fault::BodyFault;
pub use fronts::{
    bound_bytes, closed_bytes, ident_array, moved_front, objects_front, prepared_front,
    received_front, resolved_bytes, seq_set_bytes, session_bytes, started_bytes, unit_front,
};
pub use kinds::read_record;
pub use laws::{
    a_body_is_one_record, no_record_begins_another, records_have_their_sizes,
    what_is_written_is_read_back,
};
pub use record::{Operation, WrittenRecord};
