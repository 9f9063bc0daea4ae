//! What of the crates below those above take through this one.

pub use mq_standing::{manager_standing, receiver_standing, sender_standing};
