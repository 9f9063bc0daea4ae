//! The end of a step, at each node.
ghost use Rattle.std.specs.Prelude.{◌≡◌, ◌<◌, ℕ, Some, map, slice_get};
ghost use Rattle.mq_watch.specs.from_events.States as states;
ghost use Rattle.mq_world.specs.Words as words;

use mq_base::Items;
use mq_disk::Disk;
use mq_watch::below::Node;

/// Each node marks the end of a step, in room that is there.
pub fn mark_all<D: Disk>(nodes: &mut Items<Node<D>>, idle: bool)
    requires room { (m : ℕ) (n : states.NodeState) → slice_get nodes.old m ≡ Some n → 0 < n.marks }
    ensures { nodes.new ≡ map (words.marked idle) nodes.old }
{
    for at in 0..nodes.len() {
        nodes.at_mut(at).mark(idle);
    }
}
