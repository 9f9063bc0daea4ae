//! The local queues of a manager.
ghost use Rattle.std.specs.Prelude.{◌≡◌, ◌++◌, ◌∷◌, [], IfOk, OnOk, map};
ghost use Rattle.mq_objects.specs.Names.{locals_in};
ghost use Rattle.mq_objects.specs.Slots.{present};
ghost use Rattle.mq_standing.specs.Stands.{manager_standing, queue_standing, queues_standing};

use crate::rows::put_stored;
use mq_base::{Items, NoMemory};
use mq_core::Core;
use mq_disk::Disk;
use mq_net_stands::{ManagerStanding, QueueStanding};
use mq_objects::{LocalQueue, Object};
use std::alloc::Global;

fn queue_standing<D: Disk>(
    alloc: Global,
    core: &Core<D>,
    local: &LocalQueue,
) -> Result<QueueStanding, NoMemory>
    ensures { IfOk result (λ q. q ≡ queue_standing core.now.plain local.now) }
{
    let depth = core.parts.depth(&local.name);
    let mut rows = Items::new(alloc);
    put_stored(&mut rows, alloc, &core.parts.queues, &local.name)?;
    Ok(QueueStanding {
        name: local.name,
        depth,
        rows,
    })
}

fn put_queue<D: Disk>(
    out: &mut Items<QueueStanding>,
    alloc: Global,
    core: &Core<D>,
    local: &LocalQueue,
) -> Result<(), NoMemory>
    ensures { OnOk result (out.new ≡ out.old ++ queue_standing core.now.plain local.now ∷ []) }
{
    let queue = queue_standing(alloc, core, local)?;
    out.push(queue)?;
    Ok(())
}

/// An object, if it is a local queue.
fn put_object<D: Disk>(
    out: &mut Items<QueueStanding>,
    alloc: Global,
    core: &Core<D>,
    object: &Object,
) -> Result<(), NoMemory>
    ensures { OnOk result (out.new ≡ out.old ++ map (queue_standing core.now.plain) (locals_in (object.now ∷ []))) }
{
    match object {
        Object::Local(local) => put_queue(out, alloc, core, local),
        Object::Alias(_) | Object::Remote(_) | Object::Channel(_) | Object::Process(_) => Ok(()),
    }
}

fn put_queues<D: Disk>(
    out: &mut Items<QueueStanding>,
    alloc: Global,
    core: &Core<D>,
    slots: &[Option<Object>],
) -> Result<(), NoMemory>
    ensures { OnOk result (out.new ≡ out.old ++ map (queue_standing core.now.plain) (locals_in (present slots.now))) }
{
    for slot in slots {
        let Some(object) = slot else {
            continue;
        };
        put_object(out, alloc, core, object)?;
    }
    Ok(())
}

/// The local queues in order of definition; none are told of a manager that is down.
fn queues_standing<D: Disk>(alloc: Global, core: &Core<D>) -> Result<Items<QueueStanding>, NoMemory>
    ensures { IfOk result (λ queues. queues ≡ queues_standing core.now.plain) }
{
    let mut queues = Items::new(alloc);
    if core.is_up() {
        put_queues(&mut queues, alloc, core, core.parts.defs.slots())?;
    }
    Ok(queues)
}

/// How a manager stands: its name, whether it is up, and where it is, its local queues in order of definition, each with its
/// depth and its rows in order of place.
///
/// # Errors
///
/// No memory.
pub fn manager_standing<D: Disk>(alloc: Global, core: &Core<D>) -> Result<ManagerStanding, NoMemory>
    ensures { IfOk result (λ manager. manager ≡ manager_standing core.now.plain) }
{
    let queues = queues_standing(alloc, core)?;
    Ok(ManagerStanding {
        name: core.parts.name,
        is_up: core.is_up(),
        queues,
    })
}
