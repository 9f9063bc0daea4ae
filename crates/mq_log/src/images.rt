//! Which image of a log a restart found: the one before a stopped forced write, the one after it, or another.
ghost use Rattle.std.specs.Prelude.{◌≡◌, ◌⊎◌, ◌+◌, ◌≤◌, ◌↔◌, ◌++◌, length, take, option_copied, IsTrue};
ghost use Rattle.mq_log.specs.Bodies.{frame, Fits};
ghost use Rattle.mq_log.specs.State.{body_behind};
ghost use Rattle.mq_log.specs.Images.{IsMoreBy, IsImage};

use crate::scan::{OPEN, body_length};

/// Which image of its bytes a log found when it was restarted.
#[derive(Clone, Copy)]
pub enum Found {
    /// The bodies from before, without the one whose forced write was stopped.
    Before,
    /// The bodies from before, and behind them the one whose forced write was stopped.
    After,
    /// Other bodies than these. The bytes were changed from outside.
    Other,
}

// The body behind the last gate.
fn staged_body(bytes: &[u8], end: usize) -> Option<&[u8]>
    requires { (length bytes.now ≡ end + 1) ⊎ (end + 6 ≤ length bytes.now) }
    ensures { option_copied result ≡ body_behind end bytes.now }
{
    if bytes.len() == end + 1 {
        return None;
    }
    let (_, behind) = bytes.split_at(end + 5);
    let (body, _) = behind.split_at(behind.len() - 1);
    Some(body)
}

// Whether this is one framed body.
fn is_framed(framed: &[u8], body: &[u8]) -> bool
    ensures { IsTrue result ↔ ((framed.now ≡ frame body.now) × Fits body.now) }
{
    if framed.len() < 5 {
        return false;
    }
    if framed[0] != OPEN {
        return false;
    }
    let (_, behind) = framed.split_at(5);
    if body_length(framed, 0) != behind.len() {
        return false;
    }
    behind == body
}

// Whether one more framed body stands behind the front.
fn is_more_by(read: &[u8], front: &[u8], body: &[u8]) -> bool
    ensures { IsTrue result ↔ IsMoreBy front.now body.now read.now }
{
    if read.len() < front.len() {
        return false;
    }
    let (before, framed) = read.split_at(front.len());
    if before != front {
        return false;
    }
    is_framed(framed, body)
}

/// Compares framed bodies that were read with those of a log's bytes: all in front of the last gate, at `end`, and the
/// body staged behind it.
pub fn compare(bytes: &[u8], end: usize, read: &[u8]) -> Found
    requires { (length bytes.now ≡ end + 1) ⊎ (end + 6 ≤ length bytes.now) }
    ensures { IsImage (take end bytes.now) (body_behind end bytes.now) result read.now }
{
    let (front, _) = bytes.split_at(end);
    if read == front {
        return Found::Before;
    }
    match staged_body(bytes, end) {
        None => Found::Other,
        Some(body) => {
            if is_more_by(read, front, body) {
                Found::After
            } else {
                Found::Other
            }
        }
    }
}
