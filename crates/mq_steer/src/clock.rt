//! The manager's moment, and a cut of one of its device calls.
ghost use Rattle.std.specs.Prelude.{◌≡◌, ◌+◌, min};
ghost use Rattle.mq_spec_manager.specs.Stops.{advance_clock, cut, last_moment};
ghost use Rattle.mq_steer.specs.Quiet.{quietly};

use mq_core::Core;
use mq_disk::Disk;

/// The last moment, in milliseconds since 1970: the last millisecond of the year 9999 in GMT.
const LAST_MOMENT: u64 = 253_402_300_799_999;

fn later(moment: u64, by: u64) -> u64
    ensures { result ≡ min (moment + by) last_moment }
{
    moment.saturating_add(by).min(LAST_MOMENT)
}

/// The manager's moment is later by so many milliseconds, but never past the last one that there is. It takes no memory.
pub fn advance_clock<D: Disk>(core: &mut Core<D>, by: u64)
    ensures { core.new ≡ quietly (advance_clock by) core.old }
{
    core.begin_call();
    core.parts.moment = later(core.parts.moment, by);
}

/// The k-th device call from now on is to be stopped; with 0 none is. It takes no memory.
pub fn cut<D: Disk>(core: &mut Core<D>, k: u32)
    ensures { core.new ≡ quietly (cut k) core.old }
{
    core.begin_call();
    core.parts.log.arm(k);
}
