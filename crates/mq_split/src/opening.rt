//! The two directions of cables, opened for a phase, and closed again where there is no memory for it.
ghost use Rattle.std.specs.Prelude.{◌≡◌, ◌<◌, ◌≤◌, [], length, IfOk, IfSome, IsTrue, OnErr, OnOk, slice_get, slice_set, vec_len};
ghost use Rattle.crossbeam_queue.specs.Passes.{view};
ghost use Rattle.mq_cable.specs.Lists.{AllLow};
ghost use Rattle.mq_split.specs.Opening.{AreOpen, EachCable, FirstBare, IsBare, IsBaredAt, IsLow, IsOpen, IsShort, bare, whole, wholes};

use crossbeam_queue::Pass;
use mq_base::{Items, NoMemory};
use mq_cable::{Item, Near};
use mq_ruled::{PassView, Pipe, close, open};
use mq_ways::Cable;
use std::alloc::Global;
use std::sync::Wait;

/// How many items a direction has at most that is opened (this project's choice).
const MOST: usize = 64;

/// The queues of a cable's two directions.
#[derive(Drop)]
pub struct Pipes {
    /// From the sender to the receiver.
    pub out: Pipe,
    /// The other.
    pub back: Pipe,
}

/// The passes of a cable's two directions.
#[derive(Drop)]
pub struct Passes {
    /// The sender's end pushes by it.
    pub out_push: Pass<Item, PassView>,
    /// The receiver's end pops by it.
    pub out_pop: Pass<Item, PassView>,
    /// The receiver's end pushes by it.
    pub back_push: Pass<Item, PassView>,
    /// The sender's end pops by it.
    pub back_pop: Pass<Item, PassView>,
}

/// Opens both directions of a wire.
fn open_wire<R: Wait>(rt: &R, alloc: Global, wire: &mut Near) -> Result<(Pipes, Passes), NoMemory>
    requires room { (length wire.old.write ≤ 64) × (length wire.old.read ≤ 64) }
    requires low { AllLow wire.old.write × AllLow wire.old.read }
    ensures open { IfOk result (λ opened. IsOpen opened.0 opened.1) }
    ensures held { IfOk result (λ opened. ((view opened.1.out_push).sent ≡ wire.old.write) × ((view opened.1.back_push).sent ≡ wire.old.read)) }
    ensures bare { OnOk result ((wire.new.write ≡ []) × (wire.new.read ≡ [])) }
    ensures err { OnErr result ((wire.new.write ≡ wire.old.write) × (wire.new.read ≡ wire.old.read)) }
{
    let Ok((out, out_push, out_pop)) = open(rt, alloc, &mut wire.write) else {
        return Err(NoMemory);
    };
    let Ok((back, back_push, back_pop)) = open(rt, alloc, &mut wire.read) else {
        close(rt, &out, out_push, out_pop, None, &mut wire.write);
        return Err(NoMemory);
    };
    Ok((
        Pipes { out, back },
        Passes {
            out_push,
            out_pop,
            back_push,
            back_pop,
        },
    ))
}

/// Closes both directions of a wire from which nothing was popped.
fn close_wire<R: Wait>(rt: &R, pipes: &Pipes, passes: Passes, wire: &mut Near)
    requires open { IsOpen pipes.now passes }
    requires bare { (wire.old.write ≡ []) × (wire.old.read ≡ []) }
    ensures out { wire.new.write ≡ (view passes.out_push).sent }
    ensures back { wire.new.read ≡ (view passes.back_push).sent }
{
    let Passes {
        out_push,
        out_pop,
        back_push,
        back_pop,
    } = passes;
    close(rt, &pipes.out, out_push, out_pop, None, &mut wire.write);
    close(rt, &pipes.back, back_push, back_pop, None, &mut wire.read);
}

/// Opens both directions of a cable.
fn open_cable<R: Wait>(
    rt: &R,
    alloc: Global,
    cable: &mut Cable,
) -> Result<(Pipes, Passes), NoMemory>
    requires short { IsShort cable.old }
    requires low { IsLow cable.old }
    ensures open { IfOk result (λ opened. IsOpen opened.0 opened.1 × (whole opened.1 (bare cable.old) ≡ cable.old)) }
    ensures bare { OnOk result (cable.new ≡ bare cable.old) }
    ensures err { OnErr result (cable.new ≡ cable.old) }
{
    open_wire(rt, alloc, &mut cable.wire)
}

/// Closes both directions of a cable from which nothing was popped.
fn close_cable<R: Wait>(rt: &R, pipes: &Pipes, passes: Passes, cable: &mut Cable)
    requires open { IsOpen pipes.now passes }
    requires bare { IsBare cable.old }
    ensures { cable.new ≡ whole passes cable.old }
{
    close_wire(rt, pipes, passes, &mut cable.wire);
}

/// Opens both directions of the cable at a place.
fn open_at<R: Wait>(
    rt: &R,
    alloc: Global,
    cables: &mut Items<Cable>,
    at: usize,
) -> Result<(Pipes, Passes), NoMemory>
    requires there { at < length cables.old }
    requires fit { IfSome (slice_get cables.old at) (λ cable. IsShort cable × IsLow cable) }
    ensures open { IfOk result (λ opened. IsOpen opened.0 opened.1 × IfSome (slice_get cables.old at) (λ cable. IsBaredAt opened.1 at cable cables.old cables.new)) }
    ensures err { OnErr result (cables.new ≡ cables.old) }
{
    open_cable(rt, alloc, cables.at_mut(at))
}

/// Closes both directions of the cable at a place, from which nothing was popped.
fn close_at<R: Wait>(rt: &R, pipes: &Pipes, passes: Passes, cables: &mut Items<Cable>, at: usize)
    requires open { IsOpen pipes.now passes }
    requires there { at < length cables.old }
    requires bare { IfSome (slice_get cables.old at) IsBare }
    ensures { IfSome (slice_get cables.old at) (λ cable. cables.new ≡ slice_set cables.old at (whole passes cable)) }
{
    close_cable(rt, pipes, passes, cables.at_mut(at));
}

/// Whether at most 64 items lie on each direction of a cable.
fn is_short(cable: &Cable) -> bool
    ensures { IsTrue result → IsShort cable.now }
{
    cable.wire.write.len() <= MOST && cable.wire.read.len() <= MOST
}

/// Whether at most 64 items lie on each direction. Where an earlier phase left 65 there, none can be opened.
pub fn are_short(cables: &Items<Cable>) -> bool
    ensures { IsTrue result → EachCable IsShort cables.now }
{
    for cable in cables.as_slice() {
        if !is_short(cable) {
            return false;
        }
    }
    true
}

/// Opens both directions of each cable: what lies there goes into their queues.
///
/// # Errors
///
/// No memory; the cables stay.
pub fn open_cables<R: Wait>(
    rt: &R,
    alloc: Global,
    cables: &mut Items<Cable>,
) -> Result<(Vec<Pipes>, Vec<Passes>), NoMemory>
    requires short { EachCable IsShort cables.old }
    requires low { EachCable IsLow cables.old }
    ensures open { IfOk result (λ opened. AreOpen opened.0.items opened.1.items) }
    ensures whole { IfOk result (λ opened. wholes opened.1.items cables.new ≡ cables.old) }
    ensures all { IfOk result (λ opened. (vec_len opened.0 ≡ length cables.old) × (vec_len opened.1 ≡ length cables.old)) }
    ensures bare { OnOk result (EachCable IsBare cables.new) }
    ensures count { length cables.new ≡ length cables.old }
    ensures err { OnErr result (cables.new ≡ cables.old) }
{
    let count = cables.len();
    let mut pipes = Vec::new(alloc);
    let mut passes = Vec::new(alloc);
    if pipes.reserve(count).is_err() || passes.reserve(count).is_err() {
        return Err(NoMemory);
    }
    for at in 0..count {
        match open_at(rt, alloc, cables, at) {
            Ok((queues, ends)) => {
                pipes.push_reserved(queues);
                passes.push_reserved(ends);
            }
            Err(NoMemory) => {
                close_cables(rt, pipes.as_slice(), passes, cables);
                return Err(NoMemory);
            }
        }
    }
    Ok((pipes, passes))
}

/// Closes both directions of the first cables, from which nothing was popped: what lay there lies there again.
pub fn close_cables<R: Wait>(
    rt: &R,
    pipes: &[Pipes],
    mut passes: Vec<Passes>,
    cables: &mut Items<Cable>,
)
    requires open { AreOpen pipes.now passes.items }
    requires few { vec_len passes ≤ length cables.old }
    requires bare { FirstBare (vec_len passes) cables.old }
    ensures { cables.new ≡ wholes passes.items cables.old }
{
    while let Some(ends) = passes.pop() {
        let at = passes.len();
        close_at(rt, &pipes[at], ends, cables, at);
    }
}
