//! One direction of a cable that threads share: its rule, its passes, and the wire of a channel's end over two of them.
#![tactic(auto)]

mod pipe;
mod rule;
mod ruled;

pub use pipe::{clash, close, open};
pub use rule::{Clash, PassView, Pipe, PipeRule, Pops, Pushes, Roles};
pub use ruled::Ruled;
