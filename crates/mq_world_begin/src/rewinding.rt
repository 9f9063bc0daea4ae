//! What is a node's own, as the scenario gives it before its manager ever began.
ghost use Rattle.std.specs.Prelude.{◌≡◌, map};
ghost use Rattle.mq_world_begin.specs.Rested.{as_given, end_given};

use mq_base::Items;
use mq_own::{ChannelEnd, EndKind, Own};
use mq_receiver::Receiver;
use mq_sender::Sender;

/// An end that was never started, of which nothing is hardened.
fn rewind_end(end: &mut ChannelEnd)
    ensures { end.new ≡ end_given end.old }
{
    match &mut end.kind {
        EndKind::Sends(end) => end.machine = Sender::new(),
        EndKind::Receives(end) => {
            end.machine = Receiver::of(None);
            end.kept.clear();
        }
    }
}

fn rewind_ends(ends: &mut Items<ChannelEnd>)
    ensures { ends.new ≡ map end_given ends.old }
{
    for at in 0..ends.len() {
        rewind_end(ends.at_mut(at));
    }
}

/// The ends of a node's channels become as the scenario gives them: never started, with nothing hardened. It takes no memory.
pub fn rewind(own: &mut Own)
    ensures { own.new ≡ as_given own.old }
{
    rewind_ends(&mut own.ends);
}
