//! What channel ends and the dead-letter handler ask of a manager.
#![tactic(auto)]

mod batches;
pub mod below;
mod discarding;
mod expiring;
mod hardening;
mod preparing;
mod reading;
mod releasing;
mod seizing;
mod settling;
mod walking;

pub use batches::hold_batch;
pub use discarding::discard;
pub use expiring::expire;
pub use hardening::{
    Unwritten, agent_of, agent_stop, aside_for, go_down, harden_bound, harden_closed,
    harden_last_received, harden_last_sent, harden_session, stop_of,
};
pub use preparing::prepare;
pub use reading::{Hardened, batch_row, defs, is_up, kept, moment, next_row, stock};
pub use releasing::release_batch;
pub use seizing::{bind, leave, seize, set_bound, unbind};
pub use settling::harden_resolved;
