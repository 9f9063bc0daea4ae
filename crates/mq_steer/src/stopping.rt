//! A stop.
ghost use Rattle.std.specs.Prelude.{◌≡◌, true, ◌∷◌, []};
ghost use Rattle.mq_calls.specs.Words.{is_up};
ghost use Rattle.mq_spec_manager.specs.Stops.{stop};
ghost use Rattle.mq_objects.specs.Slots.{present};
ghost use Rattle.mq_place.specs.States.{change_state, state_in};
ghost use Rattle.mq_core.specs.Ties.{pending_at};
ghost use Rattle.mq_steer.specs.Quiet.{Comes};
ghost use Rattle.mq_steer.specs.Rests.{AreHeld, batches_released, unawaited, objects_unawaited, rested, parts_rested};

use mq_base::QName;
use mq_calls::Batch;
use mq_core::below::{IndexedQueue, KeptBatch};
use mq_core::{Core, Mode, Parts};
use mq_disk::Disk;
use mq_objects::Object;
use mq_place::Queues;

/// The rows of a batch are free again.
fn release_one(queues: &mut Queues<IndexedQueue>, batch: &Batch)
    ensures { queues.new ≡ record queues.old { states = batches_released (batch.now ∷ []) queues.old.states } }
{
    queues.release_each(&batch.queue, batch.idents.as_slice());
}

/// The rows of batches are free again.
fn release_batches(queues: &mut Queues<IndexedQueue>, batches: &[KeptBatch])
    ensures { queues.new ≡ record queues.old { states = batches_released batches.now queues.old.states } }
{
    for batch in batches {
        release_one(queues, batch.batch());
    }
}

fn pending(queues: &Queues<IndexedQueue>, name: &QName) -> u64
    ensures { result ≡ pending_at (state_in name.now queues.now.states) }
{
    match queues.local(name) {
        None => 0,
        Some(local) => local.pending(),
    }
}

/// No put waits any more for a queue.
#[tactic(auto, using(crate::proofs::RestLaws::none_left, crate::proofs::RestLaws::none_less, crate::proofs::RestLaws::one_less))]
fn unawait(queues: &mut Queues<IndexedQueue>, name: &QName)
    ensures { queues.new ≡ record queues.old { states = change_state name.now unawaited queues.old.states } }
{
    for waiting in 0..pending(queues, name) {
        queues.unpend(name);
    }
}

fn unawait_slot(queues: &mut Queues<IndexedQueue>, slot: &Option<Object>)
    ensures { queues.new ≡ record queues.old { states = objects_unawaited (present (slot.now ∷ [])) queues.old.states } }
{
    if let Some(Object::Local(queue)) = slot {
        unawait(queues, &queue.name);
    }
}

fn unawait_slots(queues: &mut Queues<IndexedQueue>, slots: &[Option<Object>])
    ensures { queues.new ≡ record queues.old { states = objects_unawaited (present slots.now) queues.old.states } }
{
    for slot in slots {
        unawait_slot(queues, slot);
    }
}

/// Rows that units and batches hold are free again, nonpersistent rows go, no trigger is due.
fn rest_queues(queues: &mut Queues<IndexedQueue>, batches: &[KeptBatch])
    ensures { queues.new ≡ record queues.old { states = rested batches.now queues.old.states } }
{
    queues.free_units();
    release_batches(queues, batches);
    queues.drop_volatile();
    queues.forget();
}

/// The parts come to rest.
fn rest<D: Disk>(parts: &mut Parts<D>)
    ensures { parts.new ≡ parts_rested parts.old }
{
    unawait_slots(&mut parts.queues, parts.defs.slots());
    rest_queues(&mut parts.queues, parts.ends.batches.as_slice());
    parts.live.forget_all(parts.alloc);
    parts.ends.seizures.clear();
    parts.ends.batches.clear();
    parts.ends.bound.clear();
    let reserved = parts.log.reserved();
    parts.log.give_back(reserved);
    parts.mode = Mode::Down {
        write: None,
        starts: 0,
        read: None,
    };
}

/// A manager that is up comes to rest.
fn stop_up<D: Disk>(core: &mut Core<D>)
    requires up { is_up core.old.plain.running ≡ true }
    requires held { AreHeld core.old.plain }
    ensures { Comes (stop core.old.plain) true core.old core.new }
{
    core.begin_call();
    rest(&mut core.parts);
}

/// Breaks every connection: units are backed out, batches that are not prepared are released; nonpersistent rows, triggers
/// due and cursors go. False exactly where the manager is down already. It takes no memory.
#[tactic(auto, using(crate::proofs::RestLaws::stop_is_down))]
pub fn stop<D: Disk>(core: &mut Core<D>) -> bool
    requires held { is_up core.old.plain.running ≡ true → AreHeld core.old.plain }
    ensures { Comes (stop core.old.plain) result core.old core.new }
{
    if !core.is_up() {
        core.begin_call();
        return false;
    }
    stop_up(core);
    true
}
