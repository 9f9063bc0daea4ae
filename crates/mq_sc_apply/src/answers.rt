//! What a command comes to before it is done.
use mq_calls::Shown;
use mq_calls::below::ObjectChange;

/// A change that a command makes, and what else it means for the manager.
#[derive(Drop)]
pub struct Planned {
    /// The change itself.
    pub change: ObjectChange,
    /// The name, or the manager's DEFXMITQ, leads elsewhere from now on: handles over it become stale.
    pub reroutes: bool,
    /// TRIGGER was given to a local queue, which no longer counts as NOTRIGGER.
    pub switches_on: bool,
}

/// What a command does.
#[derive(Drop)]
pub enum Plan {
    /// DEFINE, ALTER and DELETE: a change.
    Change(Planned),
    /// DISPLAY: the lines.
    Show(Shown),
}
