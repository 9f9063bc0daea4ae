//! What of the crates below those above take through this one.

pub use mq_core::{Core, Parts};
pub use mq_moves::below::{
    Hardened, batch_row, bind, discard, expire, harden_bound, harden_closed, harden_last_received,
    harden_last_sent, harden_resolved, harden_session, hold_batch, kept, leave, mqget, next_row,
    prepare, release_batch, seize, set_bound, stock, unbind,
};
pub use mq_moves::move_row;
