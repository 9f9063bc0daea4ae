//! An event of a node with the trigger turns behind it.
ghost use Rattle.mq_events.specs.States.{IsServed};
ghost use Rattle.mq_events.specs.Events.{MayAct};
ghost use Rattle.mq_acts.specs.Asks.{IsDoneCall};
ghost use Rattle.mq_acts.specs.Restarts.{StaysOwn};
ghost use Rattle.mq_acts.specs.Serving.{Played};

use crate::asking::ask;
use crate::serving::serve;
use mq_base::NoMemory;
use mq_disk::Disk;
use mq_events::Node;
use mq_history::{Actor, Call};

/// An event of this actor and this call, and the trigger turns that are due behind it, until none is due or the node has made all its
/// events. False where it is a get that may wait still; nothing has changed then.
///
/// # Errors
///
/// No memory: nothing has changed, or the event stands with some of the turns, and a trigger stays due.
#[tactic(auto, using(crate::proofs::ServeLaws::played_all, crate::proofs::ServeLaws::played_some, crate::proofs::ServeLaws::played_none, crate::proofs::OwnLaws::own_both))]
pub fn play<D: Disk>(node: &mut Node<D>, actor: Actor, asked: Call) -> Result<bool, NoMemory>
    requires served { IsServed node.old }
    requires may { MayAct node.old }
    requires does { IsDoneCall asked }
    ensures played { Played actor asked node.old result node.new }
    ensures own { D.tells → StaysOwn node.old.history.entries node.new.history.entries }
{
    match ask(node, actor, asked) {
        Err(NoMemory) => Err(NoMemory),
        Ok(false) => Ok(false),
        Ok(true) => match serve(node) {
            Err(NoMemory) => Err(NoMemory),
            Ok(()) => Ok(true),
        },
    }
}
