//! What of the crates below those above take through this one.

pub use mq_message::{Bytes, Dest, Holder, Ident, Md, Message, Place, Want};
