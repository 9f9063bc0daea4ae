//! The cables of a network are taken apart for a phase: each manager gets its ends.
ghost use Rattle.std.specs.Prelude.{◌≡◌, ◌<◌, ◌≤◌, ◌+◌, ◌*◌, ◌^◌, ◌++◌, ◌∷◌, ℕ, [], false, true, IfOk, IfSome, None, Some, length, slice_get, vec_len};
ghost use Rattle.crossbeam_queue.specs.Passes.{IsPassOf, ruled_capacity, view};
ghost use Rattle.mq_split.specs.Facing.{AreJoined, IsJoined};
ghost use Rattle.mq_split.specs.Ends.{AreFree, EachIs, EndsApart, Parted};
ghost use Rattle.mq_split.specs.Opening.{AreOpen, EachCable, IsBare, IsOpen, whole, wholes};
ghost use Rattle.mq_split.specs.Parting.{AreEndsAt, AreRows, EndRowState, IsAdded, IsAmong, IsBegunOver, Placing, back_queue, ends_named, named_at, none_since, out_queue};

use crate::ends::HeldEnd;
use crate::opening::{Passes, Pipes};
use crossbeam_queue::Pass;
use mq_base::{Items, NoMemory};
use mq_cable::{Item, Offers};
use mq_history::CableLine;
use mq_ruled::{PassView, Pipe, Ruled};
use mq_ways::Cable;
use std::alloc::Global;
use std::marker::Model;
use std::mem;
use std::sync::Wait;

/// The ends of cables at a manager, with room for more.
#[derive(Drop)]
pub struct EndRow<'a, R: Wait> {
    ends: Vec<HeldEnd<'a, R>>,
}

impl<'a, R: Wait> Model for EndRow<'a, R> {
    ghost use Rattle.std.specs.Prelude.{◌-◌};
    ghost use Rattle.std.specs.Vec.{vec_len, vec_capacity};
    ghost use Rattle.mq_split.specs.Parting.{EndRowState};

    ghost Value = { EndRowState };

    ghost view = { λ s. record { ends = s.ends.items; room = vec_capacity s.ends - vec_len s.ends } };
}

impl<'a, R: Wait> EndRow<'a, R> {
    /// No end, with room for so many.
    ///
    /// # Errors
    ///
    /// No memory.
    pub fn new(alloc: Global, room: usize) -> Result<EndRow<'a, R>, NoMemory>
        ensures { IfOk result (λ row. (row.ends ≡ []) × (room ≤ row.room)) }
    {
        let mut ends = Vec::new(alloc);
        if ends.reserve(room).is_err() {
            return Err(NoMemory);
        }
        Ok(EndRow { ends })
    }

    /// One end more, in room that is there.
    pub fn add(&mut self, end: HeldEnd<'a, R>)
        requires room { 0 < self.old.room }
        ensures ends { self.new.ends ≡ self.old.ends ++ end.entry ∷ [] }
        ensures room { self.new.room + 1 ≡ self.old.room }
    {
        self.ends.push_reserved(end);
    }

    /// The ends, in order.
    pub fn into_items(self) -> Items<HeldEnd<'a, R>>
        ensures { result ≡ self.entry.ends }
    {
        Items::from_vec(self.ends)
    }
}

/// Room for the ends of so many cables, at each of so many managers.
///
/// # Errors
///
/// No memory.
pub fn room_for_ends<'a, R: Wait>(
    alloc: Global,
    managers: usize,
    cables: usize,
) -> Result<Items<EndRow<'a, R>>, NoMemory>
    ensures all { IfOk result (λ rows. length rows ≡ managers) }
    ensures each { IfOk result (λ rows. EachIs (λ (r : EndRowState). (r.ends ≡ []) × (2 * cables ≤ r.room)) rows) }
{
    let Some(room) = cables.checked_mul(2) else {
        return Err(NoMemory);
    };
    let mut rows = Items::new(alloc);
    for _ in 0..managers {
        let row = EndRow::new(alloc, room)?;
        match rows.push(row) {
            Ok(()) => {}
            Err(_) => return Err(NoMemory),
        }
    }
    Ok(rows)
}

/// An end over two directions that are open.
fn end_over<'a, R: Wait>(
    rt: &'a R,
    out: &'a Pipe,
    from: &'a Pipe,
    pusher: Pass<Item, PassView>,
    popper: Pass<Item, PassView>,
    cable: u16,
    sends: bool,
    offers: Offers,
) -> HeldEnd<'a, R>
    requires out { IsPassOf out.now pusher × (ruled_capacity out.now ≡ 64) × ((view pusher).pushes ≡ true) }
    requires from { IsPassOf from.now popper × ((view popper).pops ≡ true) }
    ensures is { (result.cable ≡ cable) × (result.sends ≡ sends) × (result.offers ≡ offers) }
    ensures queues { (result.wire.out ≡ pusher.table_id) × (result.wire.from ≡ popper.table_id) }
    ensures items { (result.wire.sent ≡ (view pusher).sent) × (result.wire.taken ≡ (view popper).received) × (result.wire.fetched ≡ None) }
{
    HeldEnd {
        cable,
        sends,
        offers,
        wire: Ruled::new(rt, out, from, pusher, popper),
    }
}

/// What was offered on the two directions of a cable goes out; nothing was offered on those that stand there then.
fn take_offers(alloc: Global, cable: &mut Cable) -> (Offers, Offers)
    ensures out { (result.0 ≡ cable.old.out.offers) × (cable.new.out.items ≡ cable.old.out.items) }
    ensures back { (result.1 ≡ cable.old.back.offers) × (cable.new.back.items ≡ cable.old.back.items) }
{
    let out = mem::replace(&mut cable.out, Offers::new(alloc, Items::new(alloc)));
    let back = mem::replace(&mut cable.back, Offers::new(alloc, Items::new(alloc)));
    (out, back)
}

/// An end goes to its manager.
fn add_end<'a, R: Wait>(ends: &mut Items<EndRow<'a, R>>, manager: u16, end: HeldEnd<'a, R>)
    requires there { manager < length ends.old }
    requires room { IfSome (slice_get ends.old manager) (λ row. 0 < row.room) }
    ensures added { IsAdded manager end.entry ends.old ends.new }
{
    ends.at_mut(usize::from(manager)).add(end);
}

/// The two ends of a cable go to their managers.
fn part_cable<'a, R: Wait>(
    rt: &'a R,
    alloc: Global,
    pipes: &'a Pipes,
    passes: Passes,
    number: u16,
    line: &CableLine,
    cable: &mut Cable,
    ends: &mut Items<EndRow<'a, R>>,
)
    ghost p: { Placing }
    requires open { IsOpen pipes.now passes }
    requires bare { IsBare cable.old }
    requires line { slice_get p.begun.lines number ≡ Some line.now }
    requires queues { (slice_get p.begun.outs number ≡ Some (out_queue pipes.now)) × (slice_get p.begun.backs number ≡ Some (back_queue pipes.now)) }
    requires joined { IsJoined number line.now p.begun.done (whole passes cable.old) }
    requires managers { IsAmong (length ends.old) line.now }
    requires rows { AreRows p.begun p.names (p.room + 2) ends.old }
    ensures rows { AreRows p.begun (λ m. p.names m ++ named_at line.now.receiver m number false ++ named_at line.now.sender m number true) p.room ends.new }
    ensures all { length ends.new ≡ length ends.old }
    ensures bare { IsBare cable.new }
{
    let Passes {
        out_push,
        out_pop,
        back_push,
        back_pop,
    } = passes;
    let (out, back) = take_offers(alloc, cable);
    let far = end_over(
        rt,
        &pipes.back,
        &pipes.out,
        back_push,
        out_pop,
        number,
        false,
        back,
    );
    let near = end_over(
        rt,
        &pipes.out,
        &pipes.back,
        out_push,
        back_pop,
        number,
        true,
        out,
    );
    add_end(ends, line.receiver, far);
    add_end(ends, line.sender, near);
}

/// The ends of all cables go to their managers, from the last cable to the first. It takes no memory.
pub fn part_cables<'a, R: Wait>(
    rt: &'a R,
    alloc: Global,
    pipes: &'a [Pipes],
    mut passes: Vec<Passes>,
    lines: &[CableLine],
    cables: &mut Items<Cable>,
    ends: &mut Items<EndRow<'a, R>>,
)
    ghost b: { Parted }
    requires open { AreOpen pipes.now passes.items }
    requires bare { EachCable IsBare cables.old }
    requires begun { IsBegunOver b pipes.now lines.now }
    requires all { (length lines.now ≡ vec_len passes) × (length cables.old ≡ vec_len passes) × (vec_len passes < 2 ^ 16) }
    requires joined { AreJoined lines.now b.done (wholes passes.items cables.old) }
    requires managers { EachIs (IsAmong (length ends.old)) lines.now }
    requires room { EachIs (λ (r : EndRowState). (r.ends ≡ []) × (2 * vec_len passes ≤ r.room)) ends.old }
    ensures ends { (m : ℕ) (r : EndRowState) → slice_get ends.new m ≡ Some r → AreEndsAt b none_since (ends_named lines.now) m r.ends }
    ensures apart { EachIs (λ (r : EndRowState). EndsApart r.ends) ends.new }
    ensures free { EachIs (λ (r : EndRowState). AreFree r.ends) ends.new }
    ensures all { (length ends.new ≡ length ends.old) × (length cables.new ≡ length cables.old) }
    ensures bare { EachCable IsBare cables.new }
{
    while let Some(open) = passes.pop() {
        let at = passes.len();
        part_cable(
            rt,
            alloc,
            &pipes[at],
            open,
            at as u16,
            &lines[at],
            cables.at_mut(at),
            ends,
        );
    }
}
