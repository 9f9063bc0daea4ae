//! The search for the last gate among the bytes that were read.
ghost use Rattle.std.specs.Prelude.{◌≡◌, ◌+◌, ◌≤◌, ◌<◌, ◌^◌, length, take, drop};
ghost use Rattle.mq_log.specs.Bodies.{number_of, number_bytes};
ghost use Rattle.mq_log.specs.Open.{Front, Finds};

/// The byte of an open gate.
pub const OPEN: u8 = 0xa5;

/// What stands at the place of a gate.
#[derive(Clone, Copy)]
pub enum Gate {
    /// The first gate that isn't open.
    Closed(usize),
    /// An open gate whose length, body or next gate don't fit the disk.
    Bad(usize),
    /// An open gate behind which more bytes are to be read.
    More(usize),
}

/// The length of the body behind a gate.
pub fn body_length(bytes: &[u8], gate: usize) -> usize
    requires { gate + 5 ≤ length bytes.now }
    ensures value { result ≡ number_of (take 4 (drop (gate + 1) bytes.now)) }
    ensures same { number_bytes result ≡ take 4 (drop (gate + 1) bytes.now) }
    ensures small { result < 2 ^ 32 }
{
    u32::from_be_bytes([
        bytes[gate + 1],
        bytes[gate + 2],
        bytes[gate + 3],
        bytes[gate + 4],
    ]) as usize
}

/// Goes from a gate on to the first gate that isn't open, as far as the bytes go. The disk has `size` bytes.
pub fn scan(bytes: &[u8], from: usize, size: u64) -> Gate
    requires gate { from < length bytes.now }
    requires front { Front from bytes.now }
    requires size { length bytes.now ≤ size }
    ensures { Finds size bytes.now result }
{
    let mut at = from;
    while bytes[at] == OPEN {
        let behind = bytes.len() - at - 1;
        let left = size - at as u64 - 1;
        if left < 4 {
            return Gate::Bad(at);
        }
        if behind < 4 {
            return Gate::More(at);
        }
        let body = body_length(bytes, at);
        if left - 4 <= body as u64 {
            return Gate::Bad(at);
        }
        if behind - 4 <= body {
            return Gate::More(at);
        }
        at += 5 + body;
    }
    Gate::Closed(at)
}
