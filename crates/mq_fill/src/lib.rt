//! What a manager makes of a put: the descriptor that it fills in, the deadline, the refusals that its definitions give; and
//! of a message that it can't put, a dead letter.
#![tactic(auto)]

mod defaults;
mod descriptor;
mod letters;
mod refusals;
mod replies;
mod routes;

pub use defaults::{default_persistent, default_priority, first_on};
pub use descriptor::{Draft, deadline_of, make_draft};
pub use letters::{dead_message, names_of};
pub use refusals::{is_inhibited, max_depth, max_length};
pub use replies::{Replies, is_blank, replies_to};
pub use routes::{dest_at, queue_at};
