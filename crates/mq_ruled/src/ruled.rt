//! The wire of a channel's end over two directions that threads share.
ghost use Rattle.std.specs.Prelude.{◌≡◌, ◌++◌, [], true, None};
ghost use Rattle.std.specs.Option.{ForSome};
ghost use Rattle.crossbeam_queue.specs.Passes.{view as pass_view, IsPassOf, ruled_capacity};
ghost use Rattle.mq_cable.specs.Lists.{list_of};
ghost use Rattle.mq_ruled.specs.Rule.{IsLowItem};

use crate::rule::{PassView, Pipe, Pops, Pushes};
use crossbeam_queue::Pass;
use mq_cable::{Full, Item, Wire};
use std::marker::Model;
use std::sync::Wait;

/// Both directions of an end over queues that threads share: the pass that pushes, the pass that pops, the item
/// fetched, and the counts of its Full answers and of its false ones. It waits only within a call, for another thread
/// that is in the middle of its own.
#[derive(Drop)]
pub struct Ruled<'a, R: Wait> {
    out: &'a Pipe,
    from: &'a Pipe,
    pusher: Pass<Item, PassView>,
    popper: Pass<Item, PassView>,
    fetched: Option<Item>,
    fulls: u64,
    empties: u64,
    rt: &'a R,
}

impl<'a, R: Wait> Model for Ruled<'a, R> {
    ghost use Rattle.std.specs.Prelude.{◌≡◌, ◌++◌, true};
    ghost use Rattle.std.specs.Option.{ForSome};
    ghost use Rattle.crossbeam_queue.specs.Passes.{view as pass_view, IsPassOf, ruled_capacity};
    ghost use Rattle.mq_cable.specs.Lists.{list_of};
    ghost use Rattle.mq_ruled.specs.Ends.{PipeEnds, without};
    ghost use Rattle.mq_ruled.specs.Rule.{IsLowItem};

    ghost Value = { PipeEnds };

    ghost view = { λ s. record {
      out = s.pusher.table_id;
      from = s.popper.table_id;
      sent = (pass_view s.pusher).sent;
      taken = without s.fetched (pass_view s.popper).received;
      fetched = s.fetched;
      fulls = s.fulls;
      empties = s.empties;
    } };

    ghost invariant = { λ s. IsPassOf s.out.now s.pusher × (ruled_capacity s.out.now ≡ 64) × IsPassOf s.from.now s.popper
        × ((pass_view s.pusher).pushes ≡ true) × ((pass_view s.popper).pops ≡ true)
        × ((pass_view s.popper).received ≡ without s.fetched (pass_view s.popper).received ++ list_of s.fetched)
        × ForSome s.fetched IsLowItem };
}

impl<'a, R: Wait> Ruled<'a, R> {
    /// An end that pushes on one direction and pops from the other.
    pub fn new(
        rt: &'a R,
        out: &'a Pipe,
        from: &'a Pipe,
        pusher: Pass<Item, PassView>,
        popper: Pass<Item, PassView>,
    ) -> Ruled<'a, R>
        requires out { IsPassOf out.now pusher × (ruled_capacity out.now ≡ 64) × ((pass_view pusher).pushes ≡ true) }
        requires from { IsPassOf from.now popper × ((pass_view popper).pops ≡ true) }
        ensures queues { (result.out ≡ pusher.table_id) × (result.from ≡ popper.table_id) }
        ensures items { (result.sent ≡ (pass_view pusher).sent) × (result.taken ≡ (pass_view popper).received) × (result.fetched ≡ None) }
        ensures counts { (result.fulls ≡ 0) × (result.empties ≡ 0) }
    {
        Ruled {
            out,
            from,
            pusher,
            popper,
            fetched: None,
            fulls: 0,
            empties: 0,
            rt,
        }
    }

    /// The pass that pushes, the pass that pops, and the item that was fetched and not taken.
    pub fn into_parts(self) -> (Pass<Item, PassView>, Pass<Item, PassView>, Option<Item>)
        ensures pusher { (result.0.table_id ≡ self.entry.out) × (result.0.me.1 ≡ []) × ((pass_view result.0).pushes ≡ true) × ((pass_view result.0).sent ≡ self.entry.sent) }
        ensures popper { (result.1.table_id ≡ self.entry.from) × (result.1.me.1 ≡ []) × ((pass_view result.1).pops ≡ true) × ((pass_view result.1).received ≡ self.entry.taken ++ list_of self.entry.fetched) }
        ensures fetched { (result.2 ≡ self.entry.fetched) × ForSome result.2 IsLowItem }
    {
        let Ruled {
            out: _,
            from: _,
            pusher,
            popper,
            fetched,
            fulls: _,
            empties: _,
            rt: _,
        } = self;
        (pusher, popper, fetched)
    }
}

impl<'a, R: Wait> Wire for Ruled<'a, R> {
    ghost use Rattle.mq_ruled.specs.Ends.{PipeWrote, PipeTook, PipeFull, PipeEmpty};
    ghost use Rattle.mq_ruled.specs.Laws.{wrote_none, took_none, wrote_more, took_more, full_later};

    ghost front_of = { λ w. w.fetched };

    ghost writes = { λ a xs b. PipeWrote a xs b };

    ghost reads = { λ a xs b. PipeTook a xs b };

    ghost was_full = { λ a b. PipeFull a b };

    ghost was_empty = { λ a b. PipeEmpty a b };

    ghost low = { λ w. Unit {0} };

    ghost fulls = { λ w. w.fulls };

    ghost empties = { λ w. w.empties };

    ghost writes_none = { λ a. wrote_none a };

    ghost reads_none = { λ a. took_none a };

    ghost writes_more = { λ a b c xs ys p q. wrote_more a b c xs ys p q };

    ghost reads_more = { λ a b c xs ys p q. took_more a b c xs ys p q };

    ghost full_later = { λ a b c xs p q. full_later a b c xs p q };

    ghost full_rose = { λ a b p. p.rose };

    ghost empty_rose = { λ a b p. p.rose };

    ghost fulls_stay = { λ a b xs p. p.count };

    ghost empties_stay = { λ a b xs p. p.count };

    fn push(&mut self, item: Item) -> Result<(), Full> {
        match self
            .out
            .push_as::<Pushes, R>(self.rt, &mut self.pusher, item)
        {
            Ok(()) => Ok(()),
            Err(item) => {
                self.fulls = self.fulls.saturating_add(1);
                Err(Full { item })
            }
        }
    }

    fn fetch(&mut self) -> bool {
        if self.fetched.is_some() {
            return true;
        }
        match self.from.pop_as::<Pops, R>(self.rt, &mut self.popper) {
            Some(item) => {
                self.fetched = Some(item);
                true
            }
            None => {
                self.empties = self.empties.saturating_add(1);
                false
            }
        }
    }

    fn front(&self) -> Option<&Item> {
        self.fetched.as_ref()
    }

    fn pop(&mut self) -> Option<Item> {
        self.fetched.take()
    }
}
