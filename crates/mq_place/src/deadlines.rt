//! Deadlines of messages.
ghost use Rattle.std.specs.Prelude.{◌≡◌};
ghost use Rattle.mq_calls.specs.Reads.{is_past};

/// Whether a deadline is there and has come. Both are moments in milliseconds.
pub fn is_past(moment: u64, deadline: Option<u64>) -> bool
    ensures { result ≡ is_past moment deadline }
{
    match deadline {
        None => false,
        Some(deadline) => deadline <= moment,
    }
}
