//! An ident leaves the lists of all units in doubt.
ghost use Rattle.std.specs.Prelude.{◌≡◌};
ghost use Rattle.mq_calls.specs.Words.{off_list, off_lists};

use mq_base::Items;
use mq_core::below::KeptSender;
use mq_message::Ident;

fn strike(side: &mut KeptSender, ident: &Ident)
    ensures { side.new ≡ off_list ident.now side.old }
{
    side.strike(ident);
}

/// An ident goes off the list of each unit in doubt. It takes no memory.
pub(crate) fn strike_all(sides: &mut Items<KeptSender>, ident: &Ident)
    ensures { sides.new ≡ off_lists ident.now sides.old }
{
    for at in 0..sides.len() {
        strike(sides.at_mut(at), ident);
    }
}
