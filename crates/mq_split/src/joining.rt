//! The cables of a network after a phase: their ends are out of their locks, and what is left on their directions lies there again.
ghost use Rattle.std.specs.Prelude.{◌≡◌, ◌≢◌, ◌<◌, ◌++◌, [], false, true, IfSome, None, Some, length, slice_get};
ghost use Rattle.mq_split.specs.Facing.{AreJoined};
ghost use Rattle.mq_split.specs.Ends.{EachIs};
ghost use Rattle.mq_split.specs.Joining.{ArePair, JoinsAgain};
ghost use Rattle.mq_split.specs.Opening.{EachCable, IsBare, IsShort};
ghost use Rattle.mq_split.specs.Parting.{AllFree, AreEnds, IsAmong, IsBegunOver, IsJoinedAt, IsTaken, Leaving, Passed, done_in, ends_named, named_at};

use crate::ends::HeldEnd;
use crate::opening::Pipes;
use mq_base::Items;
use mq_history::CableLine;
use mq_ruled::{Pipe, close};
use mq_ways::Cable;
use std::sync::Wait;

/// The cable of two ends that are out of their locks. `cable` has its memory, and nothing lies on it.
fn join_again<R: Wait>(
    rt: &R,
    out: &Pipe,
    back: &Pipe,
    near: HeldEnd<'_, R>,
    far: HeldEnd<'_, R>,
    cable: &mut Cable,
)
    ghost p: { Passed }
    requires pair { ArePair p near far }
    requires queues { (slice_get p.begun.outs near.cable ≡ Some out.now.table.shared.table_id) × (slice_get p.begun.backs near.cable ≡ Some back.now.table.shared.table_id) }
    requires empty { IsBare cable.old }
    ensures joined { JoinsAgain p near.entry cable.new }
    ensures short { near.entry.wire.fetched ≡ None → far.entry.wire.fetched ≡ None → IsShort cable.new }
{
    let HeldEnd {
        cable: _,
        sends: _,
        offers: near_offers,
        wire: near_wire,
    } = near;
    let HeldEnd {
        cable: _,
        sends: _,
        offers: far_offers,
        wire: far_wire,
    } = far;
    let (out_pusher, back_popper, back_fetched) = near_wire.into_parts();
    let (back_pusher, out_popper, out_fetched) = far_wire.into_parts();
    close(
        rt,
        out,
        out_pusher,
        out_popper,
        out_fetched,
        &mut cable.wire.write,
    );
    close(
        rt,
        back,
        back_pusher,
        back_popper,
        back_fetched,
        &mut cable.wire.read,
    );
    cable.out = near_offers;
    cable.back = far_offers;
}

/// The last end at a manager goes out.
fn take_end<'a, R: Wait>(ends: &mut Items<Items<HeldEnd<'a, R>>>, manager: u16) -> HeldEnd<'a, R>
    requires there { manager < length ends.old }
    requires some { slice_get ends.old manager ≢ Some [] }
    ensures { IsTaken manager result ends.old ends.new }
{
    match ends.at_mut(usize::from(manager)).pop() {
        Some(end) => end,
        None => unreachable!(),
    }
}

/// The two ends of the cable at a place are taken, and it is joined again.
fn join_at<'a, R: Wait>(
    rt: &R,
    pipes: &[Pipes],
    lines: &[CableLine],
    ends: &mut Items<Items<HeldEnd<'a, R>>>,
    cables: &mut Items<Cable>,
    at: usize,
)
    ghost p: { Leaving }
    requires there { (at < length lines.now) × (at < length pipes.now) × (at < length cables.old) }
    requires begun { IsBegunOver p.passed.begun pipes.now lines.now }
    requires managers { EachIs (IsAmong (length ends.old)) lines.now }
    requires ends { IfSome (slice_get lines.now at) (λ l. AreEnds p.passed.begun p.passed.since (λ m. p.names m ++ named_at l.receiver m at false ++ named_at l.sender m at true) ends.old) }
    requires bare { IfSome (slice_get cables.old at) IsBare }
    ensures joined { IfSome (slice_get lines.now at) (λ l. IsJoinedAt p.passed at l cables.old cables.new) }
    ensures ends { AreEnds p.passed.begun p.passed.since p.names ends.new }
    ensures free { AllFree ends.old → AllFree ends.new × IfSome (slice_get cables.new at) IsShort }
    ensures all { length ends.new ≡ length ends.old }
{
    let line = &lines[at];
    let queues = &pipes[at];
    let near = take_end(ends, line.sender);
    let far = take_end(ends, line.receiver);
    join_again(rt, &queues.out, &queues.back, near, far, cables.at_mut(at));
}

/// All cables are joined again, from the first to the last: the ends at each manager stand as they stood when the cables were taken
/// apart. Where no end holds an item that it did not take, at most 64 items lie on each direction then. It takes no memory.
pub fn join_cables<'a, R: Wait>(
    rt: &R,
    pipes: &[Pipes],
    lines: &[CableLine],
    ends: &mut Items<Items<HeldEnd<'a, R>>>,
    cables: &mut Items<Cable>,
)
    ghost p: { Passed }
    requires begun { IsBegunOver p.begun pipes.now lines.now }
    requires all { (length pipes.now ≡ length lines.now) × (length cables.old ≡ length lines.now) }
    requires managers { EachIs (IsAmong (length ends.old)) lines.now }
    requires ends { AreEnds p.begun p.since (ends_named lines.now) ends.old }
    requires bare { EachCable IsBare cables.old }
    ensures joined { AreJoined lines.now (done_in p) cables.new }
    ensures short { AllFree ends.old → EachCable IsShort cables.new }
    ensures all { length cables.new ≡ length cables.old }
{
    for at in 0..lines.len() {
        join_at(rt, pipes, lines, ends, cables, at);
    }
}
