//! What of the crates below those above take through this one.

pub use mq_acts::{Advanced, advance, ask, begin, serve};
pub use mq_takes::below::{Turn, timeout};
pub use mq_takes::receiver_turn;
pub use mq_turns::sender_turn;
