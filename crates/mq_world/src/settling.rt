//! An event of one node, with the trigger turns behind it.
ghost use Rattle.std.specs.Prelude.{◌≡◌, IfOk};
ghost use Rattle.mq_world.specs.Words as words;

use mq_base::NoMemory;
use mq_disk::Disk;
use mq_nodes::Stop;
use mq_shared::below::serve;
use mq_watch::below::Node;

/// How a call of the node at a place ends, whose trigger turns were served or found no memory.
pub fn ended<T: Drop>(
    manager: u16,
    value: T,
    served: Result<(), NoMemory>,
    spent: bool,
) -> Result<T, Stop>
    ensures { result ≡ words.ended manager value served spent }
{
    match served {
        Err(NoMemory) => Err(Stop::NoMemory),
        Ok(()) => {
            if spent {
                Err(Stop::Spent(manager))
            } else {
                Ok(value)
            }
        }
    }
}

/// The trigger turns that are due at a node behind an event of its, and then this answer.
///
/// # Errors
///
/// No memory: a trigger stays due. Or the node has made its last event.
pub fn settle<D: Disk, T: Drop>(node: &mut Node<D>, manager: u16, value: T) -> Result<T, Stop>
    ensures told { words.Settles manager node.old result node.new }
    ensures value { IfOk result (λ x. x ≡ value) }
{
    let served = serve(node);
    let spent = node.is_spent();
    ended(manager, value, served, spent)
}
