//! What of the crates below those above take through this one.

pub use mq_heads::{Dlh, dlh_to_bytes};
pub use mq_sc_apply::Planned;
pub use mq_sc_apply::below::Appl;
