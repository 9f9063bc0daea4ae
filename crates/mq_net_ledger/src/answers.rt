//! What replies and deltas say.
ghost use Rattle.std.specs.Prelude.{◌≡◌};
ghost use Rattle.mq_spec_network.specs.Ledger.{first_placed, first_got, sent_ident, got_unless_left, got_ident, is_ended, is_obeyed, is_taken, received_on};
ghost use Rattle.mq_net_ledger.specs.Answers.{is_stopped, is_done, kept_of};

use mq_base::ChName;
use mq_calls::{Answer, Did, Got, Return, Why};
use mq_codes::Reason;
use mq_history::{Acted, Chance, Reply};
use mq_message::Ident;

/// The first ident that a delta tells as placed.
pub fn first_placed(delta: &[Did]) -> Option<Ident>
    ensures { result ≡ first_placed delta.now }
{
    for did in delta {
        if let Did::Placed { ident, .. } = did {
            return Some(*ident);
        }
    }
    None
}

/// The first ident that a delta tells as got.
fn first_got(delta: &[Did]) -> Option<Ident>
    ensures { result ≡ first_got delta.now }
{
    for did in delta {
        if let Did::Removed {
            ident,
            why: Why::Got,
            ..
        } = did
        {
            return Some(*ident);
        }
    }
    None
}

/// The channel on which a delta tells a receiver's commit.
pub fn received_on(delta: &[Did]) -> Option<ChName>
    ensures { result ≡ received_on delta.now }
{
    for did in delta {
        if let Did::Received { channel, .. } = did {
            return Some(*channel);
        }
    }
    None
}

/// The ident that a put was answered with; of one whose write was stopped, the first that is placed.
pub fn sent_ident(reply: &Reply, delta: &[Did]) -> Option<Ident>
    ensures { result ≡ sent_ident reply.now delta.now }
{
    match reply {
        Reply::Put(Answer::Ok(sent)) => Some(sent.ident),
        Reply::Put(Answer::Warning(_, sent)) => Some(sent.ident),
        Reply::Stopped(_) => first_placed(delta),
        _ => None,
    }
}

/// A message that did not fit is left.
fn got_unless_left(reason: Reason, got: &Got) -> Option<Ident>
    ensures { result ≡ got_unless_left reason got.now }
{
    match reason {
        Reason::TruncatedMessageFailed => None,
        _ => Some(got.ident),
    }
}

/// The ident that a get took or browsed; of one whose write was stopped, the first that is got.
pub fn got_ident(reply: &Reply, delta: &[Did]) -> Option<Ident>
    ensures { result ≡ got_ident reply.now delta.now }
{
    match reply {
        Reply::Got(Answer::Ok(got)) => Some(got.ident),
        Reply::Got(Answer::Warning(reason, got)) => got_unless_left(*reason, got),
        Reply::Stopped(_) => first_got(delta),
        _ => None,
    }
}

/// Whether a unit or a connection ended.
pub fn is_ended(reply: &Reply) -> bool
    ensures { result ≡ is_ended reply.now }
{
    match reply {
        Reply::Ended(Answer::Ok(())) => true,
        Reply::Stopped(_) => true,
        _ => false,
    }
}

/// Whether a command was accepted.
pub fn is_obeyed(reply: &Reply) -> bool
    ensures { result ≡ is_obeyed reply.now }
{
    match reply {
        Reply::Acted(Acted::Shown(_)) => true,
        Reply::Stopped(_) => true,
        _ => false,
    }
}

/// Whether the forced write of the call was stopped.
pub fn is_stopped(reply: &Reply) -> bool
    ensures { result ≡ is_stopped reply.now }
{
    match reply {
        Reply::Stopped(_) => true,
        _ => false,
    }
}

/// Whether what was asked beside MQI calls was done.
pub fn is_done(reply: &Reply) -> bool
    ensures { result ≡ is_done reply.now }
{
    match reply {
        Reply::Acted(Acted::Done) => true,
        _ => false,
    }
}

/// Of a restart that came up, whether it found the call whose write was stopped.
pub fn kept_of(chance: &Chance) -> Option<bool>
    ensures { result ≡ kept_of chance.now }
{
    match chance {
        Chance::Restart(Return::Comes { kept, .. }) => Some(*kept),
        _ => None,
    }
}

/// Whether a row that goes so is taken from the ledger.
pub fn is_taken(why: Why) -> bool
    ensures { result ≡ is_taken why }
{
    match why {
        Why::Got => false,
        Why::Expired => true,
        Why::Discarded => true,
        Why::Sent => false,
        Why::CameBack => false,
    }
}
