//! What of the crates below those above take through this one.

pub use mq_receive::below::{Core, Hardened, Parts, batch_row, bind, stock, unbind};
pub use mq_receive::{Found, standing};
pub use mq_restarts::Back;
pub use mq_restarts::below::{Unreturned, are_distinct};
