//! Completion codes: how a call ended.

ghost use Rattle.std.specs.Prelude.{◌≡◌};

/// How a call ended (IBM MQ reference, "API completion and reason codes").
#[derive(Clone, Copy)]
pub enum Completion {
    /// All was done.
    Ok,
    /// It was done, and the reason says what to mind.
    Warning,
    /// Nothing was done.
    Failed,
}

impl Completion {
    ghost use Rattle.mq_codes.specs.Completions.{completion_number};

    /// The manual's number of the completion code: 0, 1 or 2.
    pub fn number(&self) -> u32
        ensures { result ≡ completion_number self.now }
    {
        match self {
            Completion::Ok => 0,
            Completion::Warning => 1,
            Completion::Failed => 2,
        }
    }
}
