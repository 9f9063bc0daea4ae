//! What of the crates below those above take through this one.

pub use mq_heads::below::{Bytes, Ident, Md, Message, made_msg_id};
pub use mq_heads::{Tm, tm_to_bytes};
