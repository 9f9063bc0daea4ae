//! A sender's timeout: at its node, and in the network.
ghost use Rattle.std.specs.Prelude.{◌≡◌, ◌<◌, length};
ghost use Rattle.mq_world.specs.Words as words;

use crate::idling::line_at;
use crate::parts::NetParts;
use crate::settling::ended;
use mq_disk::Disk;
use mq_nodes::Stop;
use mq_shared::below::{Turn, timeout};
use mq_watch::below::Node;

/// A timeout comes to the sender's end of a cable at its node, if it waits for an answer: whether it did. No trigger is due behind
/// it. It takes no memory.
#[tactic(auto, using(crate::proofs::TimingLaws::still_timed, crate::proofs::TimingLaws::timed_then))]
fn timeout_on<D: Disk>(node: &mut Node<D>, manager: u16, cable: u16) -> Result<bool, Stop>
    requires served { words.IsServed node.old }
    requires may { words.MayAct node.old }
    ensures { words.TimeoutOn cable manager node.old result node.new }
{
    match timeout(node, cable) {
        Turn::Still => Ok(false),
        Turn::Changed => {
            let spent = node.is_spent();
            ended(manager, true, Ok(()), spent)
        }
    }
}

impl<D: Disk> NetParts<D> {
    /// A timeout comes to the sender of a cable, if it waits for an answer: whether it did. What lies on the cable stays. It takes no
    /// memory.
    pub fn timeout(&mut self, cable: u16) -> Result<bool, Stop>
        requires kept { words.IsNetwork self.old }
        requires ready { words.Ready (words.course_in self.old).net }
        requires there { cable < length self.old.scenario.cables }
        ensures kept { words.IsNetwork self.new }
        ensures told { words.TurnIn words.TimesOut cable result (words.course_in self.old) (words.course_in self.new) }
        ensures room { words.NeverWants result }
        ensures own { D.tells → words.StaysOwnIn self.old self.new }
        ensures long { length self.new.nodes ≡ length self.old.nodes }
    {
        let manager = line_at(&self.lines, cable).sender;
        timeout_on(self.nodes.at_mut(usize::from(manager)), manager, cable)
    }
}
