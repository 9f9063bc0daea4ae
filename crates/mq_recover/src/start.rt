//! Starts of a manager.

/// A first start of a run, or a later one.
#[derive(Clone, Copy)]
pub enum Start {
    /// Of a log from before the run: its numbers are below 2^60, so that the run never comes to the end of 64 bits.
    First,
    /// Of a log that the run itself goes on with: what it counts up is below 2^61.
    Later,
}
