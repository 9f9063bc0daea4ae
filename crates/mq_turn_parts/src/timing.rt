//! A sender's timeout.
ghost use Rattle.std.specs.Prelude.{◌≡◌, ◌<◌, ◌+◌, MatchOption};
ghost use Rattle.mq_sender.specs.States.{timed_out};
ghost use Rattle.mq_events.specs.Counts.{IsNode, waiting_total};
ghost use Rattle.mq_events.specs.States.{IsKept, IsServed};
ghost use Rattle.mq_events.specs.Events.{MayAct};
ghost use Rattle.mq_turn_parts.specs.Turns.{IsDue, IsUndue, TimesOut};
ghost use Rattle.mq_turn_parts.specs.declared.telling.Turn.TheVariants as turns;

use crate::parting::{leave_in, nothing_done};
use crate::telling::{Passed, Turn, close_turn};
use mq_cabled::sender_of;
use mq_calls::Messages;
use mq_disk::Disk;
use mq_events::{Node, NodeParts};
use mq_frame::Seen;
use mq_history::{Actor, Call};
use mq_own::{ChannelEnd, EndKind, SenderEnd};

/// The end after a timeout.
fn timed_out(end: &SenderEnd) -> SenderEnd
    ensures { result ≡ record end.now { machine = timed_out end.now.machine } }
{
    let mut machine = end.machine;
    machine.timeout();
    SenderEnd {
        cable: end.cable,
        channel: end.channel,
        partner: end.partner,
        machine,
    }
}

/// The sender end of a cable, where it waits for an answer at a manager that is up.
#[tactic(auto, using(crate::proofs::DueLaws::undue_down, crate::proofs::DueLaws::undue_absent, crate::proofs::DueLaws::undue_still, crate::proofs::DueLaws::due_end))]
fn waiting_end<D: Disk>(parts: &NodeParts<D>, cable: u16) -> Option<SenderEnd>
    ensures { MatchOption result (IsUndue cable parts.now) (λ e. IsDue cable e parts.now) }
{
    if !parts.manager.is_up() {
        return None;
    }
    match sender_of(&parts.own, cable) {
        None => None,
        Some(end) => {
            if end.machine.awaits() {
                Some(end)
            } else {
                None
            }
        }
    }
}

/// A sender that waits for an answer has a timeout, in room that is there. It takes no memory.
#[tactic(auto, using(crate::proofs::DueLaws::may_low))]
fn time_out<D: Disk>(parts: &mut NodeParts<D>, end: SenderEnd)
    requires room { 0 < parts.old.room }
    requires kept { IsKept parts.old }
    requires served { IsServed parts.old }
    requires may { MayAct parts.old }
    requires due { IsDue end.cable end parts.old }
    ensures kept { IsKept parts.new }
    ensures did { TimesOut end.cable parts.old turns.Changed parts.new }
    ensures spare { parts.new.spare ≡ parts.old.spare }
    ensures waits { waiting_total parts.new.own + 1 ≡ waiting_total parts.old.own }
    ensures served { IsServed parts.new }
{
    let stamp = parts.stamp + 1;
    let after = timed_out(&end);
    let told = nothing_done(parts.alloc);
    leave_in(parts, &end.channel, &told, after.machine.is_running());
    let passed = Passed {
        stamp,
        pushed: None,
        extras: 0,
        popped: Seen::Nothing,
    };
    let received = Messages::new(parts.alloc);
    let kind = EndKind::Sends(after);
    close_turn(
        parts,
        Actor::Sender(end.cable),
        Call::Timeout,
        told,
        ChannelEnd { kind },
        passed,
        received,
    );
}

/// So, in the room of the entry that was set aside for it. It takes no memory.
fn time_out_aside<D: Disk>(parts: &mut NodeParts<D>, end: SenderEnd)
    requires node { IsNode parts.old }
    requires served { IsServed parts.old }
    requires may { MayAct parts.old }
    requires due { IsDue end.cable end parts.old }
    ensures node { IsNode parts.new }
    ensures did { TimesOut end.cable parts.old turns.Changed parts.new }
    ensures served { IsServed parts.new }
{
    parts.draw();
    time_out(parts, end);
}

/// A timeout of the sender end of a cable. It takes no memory.
#[tactic(auto, using(crate::proofs::DueLaws::still_undue, crate::proofs::DueLaws::own_due, crate::proofs::DueLaws::at_cable))]
fn timeout_at<D: Disk>(parts: &mut NodeParts<D>, cable: u16) -> Turn
    requires node { IsNode parts.old }
    requires served { IsServed parts.old }
    requires may { MayAct parts.old }
    ensures node { IsNode parts.new }
    ensures did { TimesOut cable parts.old result parts.new }
    ensures served { IsServed parts.new }
{
    match waiting_end(parts, cable) {
        None => Turn::Still,
        Some(end) => {
            time_out_aside(parts, end);
            Turn::Changed
        }
    }
}

/// A timeout of the sender end of a cable. Still exactly where the manager is down, the cable has no sender end here, or that waits
/// for no answer; nothing has changed then. It takes no memory: the turn that led to waiting set its entry aside. No trigger is due
/// behind it.
/// Source: distributed queuing, short retry count (this project's choice of when a timeout may come: at any moment).
pub fn timeout<D: Disk>(node: &mut Node<D>, cable: u16) -> Turn
    requires served { IsServed node.old }
    requires may { MayAct node.old }
    ensures did { TimesOut cable node.old result node.new }
    ensures served { IsServed node.new }
{
    timeout_at(&mut node.parts, cable)
}
