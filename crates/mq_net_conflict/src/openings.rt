//! What the receivers had hardened at the first starts.
ghost use Rattle.std.specs.Prelude.{◌≡◌, option_copied, slice_get};
ghost use Rattle.mq_calls.specs.Reads.{receiver_in};
ghost use Rattle.mq_spec_network.specs.Standing.{cable_named, last_unit, opening_managers};
ghost use Rattle.mq_spec_network.specs.Conflict.{first_told};
ghost use Rattle.mq_net_conflict.specs.Openings.{opened_receiver, told_data};
ghost use Rattle.mq_net_conflict.specs.Told.{as_told};

use crate::told::ReceiverTold;
use mq_base::ChName;
use mq_calls::ReceiverSide;
use mq_history::{CableLine, History, Scenario};
use mq_sync::{ReceiverData, Unit};

/// The cable of a channel.
fn cable_named<'a>(cables: &'a [CableLine], channel: &ChName) -> Option<&'a CableLine>
    ensures { option_copied result ≡ cable_named channel.now cables.now }
{
    for cable in cables {
        if *channel == cable.channel {
            return Some(cable);
        }
    }
    None
}

/// What a receiver has hardened.
fn receiver_in<'a>(sides: &'a [ReceiverSide], channel: &ChName) -> Option<&'a ReceiverData>
    ensures { option_copied result ≡ receiver_in channel.now sides.now }
{
    for side in sides {
        if *channel == side.channel {
            return Some(&side.hardened);
        }
    }
    None
}

/// What a receiver at a manager had hardened.
pub fn opened_receiver<'a>(
    histories: &'a [History],
    manager: u16,
    channel: &ChName,
) -> Option<&'a ReceiverData>
    ensures { option_copied result ≡ opened_receiver channel.now (slice_get histories.now manager) }
{
    match histories.get(manager as usize) {
        None => None,
        Some(history) => receiver_in(history.opening.receivers.as_slice(), channel),
    }
}

/// The last unit that a channel's receiver had committed.
#[tactic(auto, using(crate::proofs::OpeningLaws::unit_opened))]
pub fn last_unit(scenario: &Scenario, histories: &[History], channel: &ChName) -> Unit
    ensures { result ≡ last_unit (opening_managers scenario.now histories.now) channel.now (cable_named channel.now scenario.now.cables) }
{
    match cable_named(scenario.cables.as_slice(), channel) {
        None => Unit { session: 0, n: 0 },
        Some(cable) => match opened_receiver(histories, cable.receiver, channel) {
            None => Unit { session: 0, n: 0 },
            Some(hardened) => hardened.unit,
        },
    }
}

/// The session of a receiver, and whether it is closed.
fn told_data(hardened: Option<&ReceiverData>) -> ReceiverTold
    ensures { as_told result ≡ told_data (option_copied hardened.entry) }
{
    match hardened {
        None => ReceiverTold {
            session: 0,
            closed: false,
        },
        Some(hardened) => ReceiverTold {
            session: hardened.session,
            closed: hardened.closed,
        },
    }
}

/// The session that a channel's receiver had.
#[tactic(auto, using(crate::proofs::OpeningLaws::told_opened))]
pub fn first_told(scenario: &Scenario, histories: &[History], channel: &ChName) -> ReceiverTold
    ensures { as_told result ≡ first_told scenario.now channel.now (opening_managers scenario.now histories.now) }
{
    match cable_named(scenario.cables.as_slice(), channel) {
        None => told_data(None),
        Some(cable) => told_data(opened_receiver(histories, cable.receiver, channel)),
    }
}
