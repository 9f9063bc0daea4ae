//! Trigger turns, one after the other.
ghost use Rattle.std.specs.Prelude.{OnOk};
ghost use Rattle.mq_acts.specs.Restarts.{StaysOwn};
ghost use Rattle.mq_acts.specs.Serving.{IsDone, Serves};

use mq_base::NoMemory;
use mq_disk::Disk;
use mq_events::Node;

/// The trigger turns that are due, one after the other.
#[tactic(auto, using(crate::proofs::ServeLaws::serves_none, crate::proofs::ServeLaws::serves_more, crate::proofs::ServeLaws::serves_still, crate::proofs::ServeLaws::turn_counts))]
fn serve_all<D: Disk>(node: &mut Node<D>) -> Result<(), NoMemory>
    ensures turns { Serves node.old node.new }
    ensures done { OnOk result (IsDone node.new) }
{
    'serving: while !node.is_spent() {
        if !node.serve_next()? {
            return Ok(());
        }
    }
    Ok(())
}

/// The trigger turns that are due, one after the other, until none is due or the node has made all its events.
///
/// # Errors
///
/// No memory; the turns before stand, and the trigger stays due.
pub fn serve<D: Disk>(node: &mut Node<D>) -> Result<(), NoMemory>
    ensures turns { Serves node.old node.new }
    ensures done { OnOk result (IsDone node.new) }
    ensures own { StaysOwn node.old.history.entries node.new.history.entries }
{
    let served = serve_all(node);
    node.facts();
    served
}
