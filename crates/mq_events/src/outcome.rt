//! What a call of a manager came to, as a history keeps it.
use mq_calls::{Choice, Delta};
use mq_history::{Acted, Reply};

/// What a call of a manager came to, as an entry keeps it.
#[derive(Drop)]
pub struct Outcome {
    /// What came from outside.
    pub choice: Choice,
    /// What was answered.
    pub reply: Reply,
    /// What was done to rows and channel data, in order.
    pub delta: Delta,
}

/// What a manager tells of a call, beside its answer.
#[derive(Drop)]
pub struct Told {
    /// What came from outside.
    pub choice: Choice,
    /// What was done to rows and channel data, in order.
    pub delta: Delta,
}

/// What a command came to, and its answer.
#[derive(Drop)]
pub struct Obeyed {
    /// As an entry keeps it.
    pub outcome: Outcome,
    /// What is answered.
    pub acted: Acted,
}
