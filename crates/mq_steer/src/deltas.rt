//! What the last call of a manager changed.
ghost use Rattle.std.specs.Prelude.{◌≡◌, []};

use mq_calls::Delta;
use mq_core::Core;
use mq_core::below::Effects;
use mq_disk::Disk;

/// What the last call changed, and none is left. It takes no memory.
pub fn take_delta<D: Disk>(core: &mut Core<D>) -> Delta
    ensures delta { result ≡ core.old.delta }
    ensures left { core.new ≡ record core.old { delta = [] } }
{
    let effects = std::mem::replace(&mut core.effects, Effects::new(core.parts.alloc));
    effects.into_delta()
}
