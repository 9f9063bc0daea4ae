//! What the length of a frame says of it.

/// What the length of a frame says of it: its kind, and of a message how long the body is.
#[derive(Clone, Copy)]
pub enum FrameShape {
    Bind,
    Status,
    /// With the length of the message's body in bytes, at most 4,194,304.
    Msg(u32),
    End,
    Ack,
    Err,
}
