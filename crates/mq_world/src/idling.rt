//! Whether nothing can change in a network: asked of each cable's two ends and of what lies on it, without a turn.
ghost use Rattle.std.specs.Prelude.{◌≡◌, ◌<◌, Some, true, length, slice_get};
ghost use Rattle.mq_history.specs.declared.scenario.CableLine as lines;
ghost use Rattle.mq_world.specs.Words as words;

use crate::parts::NetParts;
use mq_base::Items;
use mq_disk::Disk;
use mq_history::CableLine;
use mq_idle::cable_idle;
use mq_watch::below::Node;
use mq_ways::Cable;

/// The node of a manager.
pub(crate) fn node_of<D: Disk>(nodes: &Items<Node<D>>, manager: u16) -> &Node<D>
    requires there { manager < length nodes.now }
    ensures { slice_get nodes.now manager ≡ Some result.now }
{
    match nodes.get(usize::from(manager)) {
        Some(node) => node,
        None => unreachable!(),
    }
}

/// The line of a cable.
pub(crate) fn line_at(lines: &Items<CableLine>, cable: u16) -> &CableLine
    requires there { cable < length lines.now }
    ensures { slice_get lines.now cable ≡ Some result.now }
{
    match lines.get(usize::from(cable)) {
        Some(line) => line,
        None => unreachable!(),
    }
}

/// A cable, with what lies on it.
fn cable_at(cables: &Items<Cable>, cable: u16) -> &Cable
    requires there { cable < length cables.now }
    ensures { slice_get cables.now cable ≡ Some result.now }
{
    match cables.get(usize::from(cable)) {
        Some(cable) => cable,
        None => unreachable!(),
    }
}

impl<D: Disk> NetParts<D> {
    /// How many cables there are.
    pub fn cables(&self) -> u16
        requires kept { words.IsNetwork self.now }
        ensures { result ≡ length self.now.scenario.cables }
    {
        self.cables.len() as u16
    }

    /// Whether nothing can change at a cable.
    fn idles_at(&self, cable: u16) -> bool
        requires kept { words.IsNetwork self.now }
        requires there { cable < length self.now.scenario.cables }
        ensures { (l : lines.CableLine) → slice_get self.now.scenario.cables cable ≡ Some l → result ≡ words.cable_idle (words.course_in self.now).net cable l }
    {
        let line = line_at(&self.lines, cable);
        let sender = node_of(&self.nodes, line.sender);
        let receiver = node_of(&self.nodes, line.receiver);
        cable_idle(cable, line, sender, receiver, cable_at(&self.cables, cable))
    }

    /// Whether nothing can change. That is so where no turn and no timeout would change a thing. It takes no memory.
    pub fn is_idle(&self) -> bool
        requires kept { words.IsNetwork self.now }
        ensures value { result ≡ words.is_idle (words.course_in self.now).net }
        ensures law { words.AllStill (words.course_in self.now).net → words.is_idle (words.course_in self.now).net ≡ true }
    {
        for cable in 0..self.cables() {
            if !self.idles_at(cable) {
                return false;
            }
        }
        true
    }
}
