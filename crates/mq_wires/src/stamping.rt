//! The stamp of what an end does in a turn.
ghost use Rattle.std.specs.Prelude.{◌≡◌, ◌+◌, ◌<◌, ◌≤◌, ◌^◌, max};

/// The stamp of an entry, by its node's last one and by the item that it pops, if it pops one.
pub fn next_stamp(last: u64, item: u64) -> u64
    requires last { last < 2 ^ 60 }
    requires item { item ≤ 2 ^ 60 }
    ensures { result ≡ max last item + 1 }
{
    if last < item { item + 1 } else { last + 1 }
}
