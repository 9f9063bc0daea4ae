//! A script's next line at its node, with the trigger turns behind it.
ghost use Rattle.std.specs.Prelude.{◌<◌, ◌^◌, IfSome, slice_get};
ghost use Rattle.mq_world.specs.Words as words;

use crate::settling::settle;
use mq_base::NoMemory;
use mq_disk::Disk;
use mq_history::ScriptPart;
use mq_nodes::{Advanced, Stop};
use mq_progress::Progress;
use mq_watch::below::Node;

/// Does a script's next line at the node of a manager, unless its get is to wait, or no line is left.
#[tactic(auto, using(crate::proofs::NodeLaws::line_then))]
pub fn advance_on<D: Disk>(
    node: &mut Node<D>,
    manager: u16,
    script: u16,
    part: &ScriptPart,
    progress: &mut Progress,
) -> Result<Advanced, Stop>
    requires served { words.IsServed node.old }
    requires may { words.MayAct node.old }
    requires text { IfSome (slice_get part.now.lines progress.old.done) words.IsTextLine }
    requires keeps { IfSome (slice_get part.now.lines progress.old.done) (words.Keeps progress.old.until) }
    requires more { progress.old.done < 2 ^ 32 }
    ensures told { words.LineOn script part.now manager progress.old node.old result progress.new node.new }
    ensures own { D.tells → words.StaysOwn node.old.history.entries node.new.history.entries }
{
    match mq_shared::below::advance(node, script, part, progress) {
        Err(NoMemory) => Err(Stop::NoMemory),
        Ok(mq_shared::below::Advanced::Ended) => Ok(Advanced::Ended),
        Ok(mq_shared::below::Advanced::Waiting(until)) => Ok(Advanced::Waiting(until)),
        Ok(mq_shared::below::Advanced::Done) => settle(node, manager, Advanced::Done),
    }
}
