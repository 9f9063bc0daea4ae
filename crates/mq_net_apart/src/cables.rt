//! Cables whose ends don't belong together.
ghost use Rattle.std.specs.Prelude.{◌≡◌, ◌≤◌, ◌||◌, option_copied, length};
ghost use Rattle.mq_spec_network.specs.Given.{name_at};
ghost use Rattle.mq_spec_network.specs.Standing.{opening_managers};
ghost use Rattle.mq_spec_network.specs.Apart.{is_other, is_above, doubt_case, cable_cases, cable_apart, cables_apart};
ghost use Rattle.mq_sync.specs.Settlement.{sender_or, receiver_or};

use crate::hardened::{
    doubt_of, opened_sender, receiver_partner, receiver_session, receiver_unit, sender_partner,
    sender_session,
};
use mq_base::QName;
use mq_history::{Apart, CableLine, History, Scenario};
use mq_net_conflict::opened_receiver;
use mq_sync::{InDoubt, ReceiverData, SenderData, Unit};

/// The name of a manager by its place, blank where there is none.
fn name_at(scenario: &Scenario, place: u16) -> QName
    ensures { result ≡ name_at scenario.now place }
{
    match scenario.managers.get(place as usize) {
        None => QName::blank(),
        Some(line) => line.name,
    }
}

/// Whether a partner that is kept is not the other end.
#[tactic(auto, using(crate::proofs::CableLaws::other_none, crate::proofs::CableLaws::other_some))]
fn is_other(partner: &QName, name: &QName) -> bool
    ensures { result ≡ is_other partner.now name.now }
{
    if partner.text().len() == 0 {
        false
    } else {
        *partner != *name
    }
}

/// Whether one of two partners that are kept is not the other end.
fn differ(own: &QName, receiver: &QName, theirs: &QName, sender: &QName) -> bool
    ensures { result ≡ (is_other own.now receiver.now || is_other theirs.now sender.now) }
{
    is_other(own, receiver) || is_other(theirs, sender)
}

fn is_above(a: Unit, b: Unit) -> bool
    ensures { result ≡ is_above a b }
{
    b.session < a.session || (b.session == a.session && b.n < a.n)
}

/// The receiver's last unit is above the unit in doubt.
fn doubt_case(cable: u16, in_doubt: Option<&InDoubt>, last: Unit) -> Option<Apart>
    ensures { result ≡ doubt_case cable (option_copied in_doubt.entry) last }
{
    match in_doubt {
        None => None,
        Some(doubt) => {
            if is_above(last, doubt.unit) {
                Some(Apart::Unit(cable, doubt.unit, last))
            } else {
                None
            }
        }
    }
}

/// What of two ends doesn't belong together.
#[tactic(auto, using(crate::proofs::CableLaws::or_none))]
fn cable_cases(
    cable: u16,
    sender_name: &QName,
    receiver_name: &QName,
    sender: Option<&SenderData>,
    receiver: Option<&ReceiverData>,
) -> Option<Apart>
    ensures { result ≡ cable_cases cable sender_name.now receiver_name.now (sender_or (option_copied sender.entry)) (receiver_or (option_copied receiver.entry)) }
{
    let own_partner = sender_partner(sender);
    let their_partner = receiver_partner(receiver);
    if differ(&own_partner, receiver_name, &their_partner, sender_name) {
        return Some(Apart::Partner(cable));
    }
    let own = sender_session(sender);
    let theirs = receiver_session(receiver);
    if own < theirs {
        return Some(Apart::Session(cable, own, theirs));
    }
    doubt_case(cable, doubt_of(sender), receiver_unit(receiver))
}

#[tactic(auto, using(crate::proofs::CableLaws::sender_opened, crate::proofs::CableLaws::receiver_opened))]
fn cable_apart(
    scenario: &Scenario,
    histories: &[History],
    at: u16,
    cable: &CableLine,
) -> Option<Apart>
    ensures { result ≡ cable_apart scenario.now (opening_managers scenario.now histories.now) at cable.now }
{
    let sender = opened_sender(histories, cable.sender as usize, &cable.channel);
    let receiver = opened_receiver(histories, cable.receiver, &cable.channel);
    cable_cases(
        at,
        &name_at(scenario, cable.sender),
        &name_at(scenario, cable.receiver),
        sender,
        receiver,
    )
}

/// The first cable whose ends don't belong together.
pub fn cables_apart(
    scenario: &Scenario,
    histories: &[History],
    cables: &[CableLine],
) -> Option<Apart>
    requires { length cables.now ≤ 65536 }
    ensures { result ≡ cables_apart scenario.now (opening_managers scenario.now histories.now) 0 cables.now }
{
    for (at, cable) in cables.iter().enumerate() {
        if let Some(found) = cable_apart(scenario, histories, at as u16, cable) {
            return Some(found);
        }
    }
    None
}
