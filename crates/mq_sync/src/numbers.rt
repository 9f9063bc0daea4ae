//! Sequence numbers of a channel. Source: MQSC reference, DEFINE CHANNEL, SEQWRAP.

ghost use Rattle.std.specs.Prelude.{◌≡◌, ◌≤◌};
ghost use Rattle.mq_sync.specs.Numbers.{number_after};

/// The sequence number after `last`. Numbers run from 1 to `wrap` (SEQWRAP), then from 1 again; the number after one
/// that is `wrap` or more is 1. No memory is taken.
/// Source: MQSC reference, DEFINE CHANNEL, SEQWRAP.
pub fn next_number(last: u32, wrap: u32) -> u32
    ensures { result ≡ number_after wrap last }
{
    if last >= wrap { 1 } else { last + 1 }
}
