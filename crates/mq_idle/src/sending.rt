//! What a sender's end would do where nothing waits for it, without doing it.
ghost use Rattle.std.specs.Prelude.{◌≡◌, Some, is_some};
ghost use Rattle.mq_idle.specs.Idle.{begins_unit, pushes, sender_looks_idle, sender_settles};
ghost use Rattle.mq_events.specs.States.{node_in};
ghost use Rattle.mq_spec_manager.specs.Agents.{batch_row, stock};
ghost use Rattle.mq_spec_network.specs.Turns.{rests};
ghost use Rattle.mq_spec_node.specs.Words.{sender_end};

use mq_base::ChName;
use mq_cabled::sender_of;
use mq_disk::Disk;
use mq_events::Node;
use mq_events::below::{Core, batch_row, stock};
use mq_own::SenderEnd;
use mq_sender::SenderState;
use mq_sync::Stock;

/// A running sender with nothing on its queue, or one that doesn't run.
fn rests_in(state: &SenderState, stock: &Stock) -> bool
    ensures { result ≡ rests state.now stock.now }
{
    match state {
        SenderState::Inactive | SenderState::Stopped(_) => true,
        SenderState::Running => !stock.enabled || stock.free == 0,
        SenderState::Starting
        | SenderState::Hailing
        | SenderState::Binding
        | SenderState::Sending { .. }
        | SenderState::Ready
        | SenderState::Waiting => false,
    }
}

/// A running sender begins a unit, of one message at least.
fn begins_unit(batch_size: u32, stock: &Stock) -> bool
    ensures { result ≡ begins_unit batch_size stock.now }
{
    stock.enabled && !stock.expired && stock.free > 0 && batch_size > 0
}

/// The batch has the row of that number, from 1.
fn has_row<D: Disk>(core: &Core<D>, channel: &ChName, index: u32) -> bool
    ensures { result ≡ is_some (batch_row channel.now index core.now.plain) }
{
    batch_row(core, channel, index).is_some()
}

/// Its next turn pushes a frame, where nothing waits.
fn pushes<D: Disk>(core: &Core<D>, end: &SenderEnd, queue: &Stock) -> bool
    requires queue { queue.now ≡ stock end.now.channel core.now.plain }
    ensures { result ≡ pushes end.now core.now.plain }
{
    match end.machine.state {
        SenderState::Hailing | SenderState::Ready => true,
        SenderState::Running => begins_unit(end.machine.limits.batch_size, queue),
        SenderState::Sending { sent, .. } => {
            sent < end.machine.count && has_row(core, &end.channel, sent + 1)
        }
        SenderState::Inactive
        | SenderState::Stopped(_)
        | SenderState::Starting
        | SenderState::Binding
        | SenderState::Waiting => false,
    }
}

/// An end with nothing to read rests, or it is blocked.
fn end_settles<D: Disk>(core: &Core<D>, end: &SenderEnd, far: bool, refused: bool) -> bool
    ensures { result ≡ sender_settles far refused (Some end.now) core.now.plain }
{
    let queue = stock(core, &end.channel);
    rests_in(&end.machine.state, &queue) || (!far && refused && pushes(core, end, &queue))
}

fn settles<D: Disk>(node: &Node<D>, cable: u16, far: bool, refused: bool) -> bool
    ensures { result ≡ sender_settles far refused (sender_end cable node.now.own) node.now.manager.plain }
{
    match sender_of(&node.parts.own, cable) {
        None => true,
        Some(end) => end_settles(&node.parts.manager.core, &end, far, refused),
    }
}

/// Whether the sender's end of a cable is idle: `far` says that its receiver's manager is up, `empty` that nothing lies there
/// for it, `refused` that its direction is full.
pub(crate) fn sender_looks_idle<D: Disk>(
    node: &Node<D>,
    cable: u16,
    far: bool,
    empty: bool,
    refused: bool,
) -> bool
    ensures { result ≡ sender_looks_idle cable far empty refused (node_in node.now) }
{
    !node.is_up() || (empty && settles(node, cable, far, refused))
}
