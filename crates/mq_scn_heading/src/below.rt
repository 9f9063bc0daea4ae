//! What of the crates below those above take through this one.

pub use mq_scn_script::{body_len, script_line};
