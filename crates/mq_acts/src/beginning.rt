//! What is a node's own, as its manager starts.
ghost use Rattle.std.specs.Prelude.{◌≡◌, map};
ghost use Rattle.mq_spec_node.specs.Words.{begun_anew, end_begun};

use crate::showing::receiver_kept;
use mq_base::Items;
use mq_disk::Disk;
use mq_events::below::Manager;
use mq_own::{ChannelEnd, EndKind, Own, forget_all};
use mq_receiver::Receiver;

/// A sender is inactive; a receiver has what is hardened, and has kept nothing.
fn begin_end<D: Disk>(end: &mut ChannelEnd, manager: &Manager<D>)
    ensures { end.new ≡ end_begun manager.now.plain end.old }
{
    match &mut end.kind {
        EndKind::Sends(end) => end.machine.halt(),
        EndKind::Receives(end) => {
            end.machine = Receiver::of(receiver_kept(manager, &end.channel));
            end.kept.clear();
        }
    }
}

fn begin_ends<D: Disk>(ends: &mut Items<ChannelEnd>, manager: &Manager<D>)
    ensures { ends.new ≡ map (end_begun manager.now.plain) ends.old }
{
    for at in 0..ends.len() {
        begin_end(ends.at_mut(at), manager);
    }
}

/// The ends begin with what is hardened at the manager, and no row was tried. It takes no memory.
pub fn begin<D: Disk>(own: &mut Own, manager: &Manager<D>)
    ensures { own.new ≡ (begun_anew manager.now.plain own.old).own }
{
    begin_ends(&mut own.ends, manager);
    forget_all(&mut own.handlers);
}
