//! What of the crates below those above take through this one.

pub use mq_message::below::{Items, QName, trimmed};
pub use mq_message::{Bytes, Ident, Md, Message, made_msg_id};
