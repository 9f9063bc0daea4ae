//! What of the crates below those above take through this one.

pub use mq_agents::below::{dead_message, dest_at, mqget, names_of, queue_at};
pub use mq_agents::{
    Hardened, Unwritten, agent_of, aside_for, batch_row, bind, discard, expire, go_down,
    harden_bound, harden_closed, harden_last_received, harden_last_sent, harden_resolved,
    harden_session, hold_batch, kept, leave, moment, next_row, prepare, release_batch, seize,
    set_bound, stock, stop_of, unbind,
};
