//! How a direction is opened for threads, and closed after them.
ghost use Rattle.std.specs.Prelude.{◌≡◌, ◌≤◌, ◌++◌, [], true, ◌<◌, ◌+◌, ◌∷◌, length, IfOk, OnErr, List};
ghost use Rattle.std.specs.Option.{ForSome};
ghost use Rattle.crossbeam_queue.specs.Passes.{view, IsPassOf, ruled_capacity};
ghost use Rattle.mq_cable.specs.declared.item.Item.{Item};
ghost use Rattle.mq_cable.specs.Lists.{list_of, AllLow};
ghost use Rattle.mq_ruled.specs.Rule.{knows, IsLowItem};

use crate::rule::{Clash, PassView, Pipe, Pops, Pushes, Roles};
use crossbeam_queue::Pass;
use mq_base::NoMemory;
use mq_cable::{Item, Items};
use std::alloc::Global;
use std::sync::Wait;

/// How many items may lie on a direction (this project's choice).
const ROOM: usize = 64;

/// A direction that threads share, with the items left from before, the pass that pushes and the pass that pops.
///
/// # Errors
///
/// No memory; the items stay.
pub fn open<R: Wait>(
    rt: &R,
    alloc: Global,
    items: &mut Items,
) -> Result<(Pipe, Pass<Item, PassView>, Pass<Item, PassView>), NoMemory>
    requires room { length items.old ≤ 64 }
    requires low { AllLow items.old }
    ensures queue { IfOk result (λ opened. IsPassOf opened.0 opened.1 × IsPassOf opened.0 opened.2 × (ruled_capacity opened.0 ≡ 64)) }
    ensures pusher { IfOk result (λ opened. ((view opened.1).pushes ≡ true) × ((view opened.1).sent ≡ items.old)) }
    ensures popper { IfOk result (λ opened. ((view opened.2).pops ≡ true) × ((view opened.2).received ≡ [])) }
    ensures moved { IfOk result (λ opened. items.new ≡ []) }
    ensures err { OnErr result (items.new ≡ items.old) }
{
    let Ok((pipe, mut pusher)) = Pipe::ruled(alloc, ROOM) else {
        return Err(NoMemory);
    };
    fill(rt, &pipe, &mut pusher, items);
    let popper = pipe.another::<Roles>(&mut pusher);
    Ok((pipe, pusher, popper))
}

/// Moves the items into the queue.
fn fill<R: Wait>(rt: &R, pipe: &Pipe, pass: &mut Pass<Item, PassView>, items: &mut Items)
    requires pass { IsPassOf pipe.now pass.old × (ruled_capacity pipe.now ≡ 64) × (view pass.old ≡ knows true true [] []) }
    requires room { length items.old ≤ 64 }
    requires low { AllLow items.old }
    ensures pass { IsPassOf pipe.now pass.new × (view pass.new ≡ knows true true items.old []) }
    ensures moved { items.new ≡ [] }
{
    while let Some(item) = items.pop() {
        put(rt, pipe, pass, item);
    }
}

/// Puts one item into a queue that nobody else uses yet.
fn put<R: Wait>(rt: &R, pipe: &Pipe, pass: &mut Pass<Item, PassView>, item: Item)
    requires pass { IsPassOf pipe.now pass.old × (ruled_capacity pipe.now ≡ 64) }
    requires view { (view pass.old ≡ knows true true (view pass.old).sent []) × (length (view pass.old).sent < 64) }
    requires low { IsLowItem item }
    ensures pass { IsPassOf pipe.now pass.new × (view pass.new ≡ knows true true ((view pass.old).sent ++ item ∷ []) []) }
{
    match pipe.push_as::<Pushes, R>(rt, pass, item) {
        Ok(()) => {}
        Err(_) => unreachable!(),
    }
}

/// Takes the passes in. What is left, the item that was fetched and not taken first, goes to `items`.
pub fn close<R: Wait>(
    rt: &R,
    pipe: &Pipe,
    mut pusher: Pass<Item, PassView>,
    popper: Pass<Item, PassView>,
    fetched: Option<Item>,
    items: &mut Items,
)
    requires queue { IsPassOf pipe.now pusher × IsPassOf pipe.now popper }
    requires roles { ((view pusher).pushes ≡ true) × ((view popper).pops ≡ true) }
    requires low { ForSome fetched IsLowItem }
    requires empty { items.old ≡ [] }
    ensures left { (taken : List Item) → (view popper).received ≡ taken ++ list_of fetched → (view pusher).sent ≡ taken ++ items.new }
    ensures low { AllLow items.new }
    ensures room { length items.new ≤ 64 + length (list_of fetched) }
{
    if let Some(item) = fetched {
        store(items, item);
    }
    pipe.absorb::<Roles>(&mut pusher, popper);
    pipe.learn_as::<Pops>(&mut pusher);
    drain(rt, pipe, &mut pusher, items);
}

/// Puts an item last where there is room.
fn store(items: &mut Items, item: Item)
    requires { length items.old < 65 }
    ensures { items.new ≡ items.old ++ item ∷ [] }
{
    match items.push(item) {
        Ok(()) => {}
        Err(_) => unreachable!(),
    }
}

/// Pops what is left.
fn drain<R: Wait>(rt: &R, pipe: &Pipe, pass: &mut Pass<Item, PassView>, items: &mut Items)
    requires pass { IsPassOf pipe.now pass.old × ((view pass.old).pushes ≡ true) × ((view pass.old).pops ≡ true) }
    requires room { length items.old ≤ 1 }
    requires known { (tail : List Item) × ((view pass.old).sent ≡ (view pass.old).received ++ tail) × (length tail ≤ 64) }
    ensures left { (rest : List Item) × (items.new ≡ items.old ++ rest) × ((view pass.old).sent ≡ (view pass.old).received ++ rest) × AllLow rest × (length rest ≤ 64) }
{
    for _ in rt.forever() {
        match pipe.pop_as::<Pops, R>(rt, pass) {
            Some(item) => store(items, item),
            None => break,
        }
    }
}

/// No two passes of one direction push. Where a caller holds two, that place is not reached.
pub fn clash(pipe: &Pipe, mut one: Pass<Item, PassView>, other: Pass<Item, PassView>)
    requires queue { IsPassOf pipe.now one × IsPassOf pipe.now other }
    requires push { ((view one).pushes ≡ true) × ((view other).pushes ≡ true) }
    ensures { ⊥ }
{
    pipe.absorb::<Clash>(&mut one, other);
    pipe.learn_as::<Pops>(&mut one);
}
