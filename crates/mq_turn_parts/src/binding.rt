//! A receiver that isn't bound any more.
ghost use Rattle.std.specs.Prelude.{◌≡◌, Ok, false};
ghost use Rattle.mq_calls.specs.Words.{MeetsOrWants};
ghost use Rattle.mq_core.specs.Values.{WritesLog, manager_of};
ghost use Rattle.mq_spec_manager.specs.Agents.{IsUp, set_bound};

use mq_base::ChName;
use mq_core::Core;
use mq_disk::Disk;
use mq_events::below::Manager;

fn unbind_in<D: Disk>(core: &mut Core<D>, channel: &ChName)
    requires up { IsUp core.old.plain }
    ensures meets { MeetsOrWants (manager_of core.old) (set_bound channel.now false core.old.plain) (Ok tt) (manager_of core.new) }
    ensures told { WritesLog core.old (set_bound channel.now false core.old.plain) (Ok tt) core.new }
{
    mq_events::below::unbind(core, channel);
}

/// A receiver isn't bound from now on. It takes no memory.
pub fn unbind<D: Disk>(manager: &mut Manager<D>, channel: &ChName)
    requires up { IsUp manager.old.plain }
    ensures { MeetsOrWants (manager_of manager.old) (set_bound channel.now false manager.old.plain) (Ok tt) (manager_of manager.new) }
{
    unbind_in(&mut manager.core, channel);
}
