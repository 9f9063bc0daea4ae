//! A phase: each node goes under a lock with the ends of its cables and its scripts, workers run them in threads, and all comes back.
ghost use Rattle.std.specs.Prelude.{◌≡◌, ◌≤◌, ◌*◌, ◌<◌, ◌^◌, [], false, true, Err, IfOk, length, vec_capacity, vec_len};
ghost use Rattle.mq_nodes.specs.declared.nodes.Stop.TheVariants as stops;
ghost use Rattle.mq_split.specs.Facing.{AreJoined};
ghost use Rattle.mq_split.specs.Ends.{EachIs};
ghost use Rattle.mq_split.specs.Opening.{AreOpen, EachCable, IsBare, IsShort, wholes};
ghost use Rattle.mq_split.specs.Parting.{AllFree, AreEnds, EndRowState, IsAmong, IsBegunOver, Passed, backs_of, done_in, ends_named, outs_of};
ghost use Rattle.mq_shared.specs.Phasing.{MayPhase, PhaseEnds, PhaseOwn, PhaseRan, ShortBehind};
ghost use Rattle.mq_shared.specs.Sharing.{begun_with};
ghost use Rattle.mq_shared.specs.Taking.{AreDone, Asked, RowsWait};

use crate::courses::{ScriptRow, keep_deadlines, room_for_scripts};
use crate::jobs::{Job, run_all};
use crate::locked::{Locked, PhaseName};
use crate::sharing::{lock_all, take_all};
use mq_acts::below::Node;
use mq_base::{Items, NoMemory};
use mq_disk::Disk;
use mq_gate::Gate;
use mq_history::{CableLine, Scenario};
use mq_nodes::Stop;
use mq_progress::Progress;
use mq_split::{
    EndRow, HeldEnd, Passes, Pipes, are_short, close_cables, join_cables, open_cables, part_cables,
    room_for_ends,
};
use mq_ways::Cable;
use std::alloc::Global;
use std::marker::Brand;
use std::mem;
use std::sync::{Mutex, Wait};
use std::thread::Threads;

/// All the memory of a phase: the rows of ends and of scripts at each manager, the locks, the workers, and the lists for what comes out
/// of the locks.
struct PhaseRoom<'x, P: PhaseName, D: Disk, R: Wait> {
    ends: Items<EndRow<'x, R>>,
    rows: Items<ScriptRow<'x>>,
    locks: Vec<Mutex<Locked<'x, P, D, R>>>,
    jobs: Vec<Job>,
    nodes: Vec<Node<D>>,
    back: Vec<Items<HeldEnd<'x, R>>>,
}

/// The memory of a phase over so many managers, cables and scripts.
///
/// # Errors
///
/// No memory.
fn room_for<'x, P: PhaseName, D: Disk, R: Wait>(
    alloc: Global,
    managers: usize,
    cables: usize,
    scripts: usize,
) -> Result<PhaseRoom<'x, P, D, R>, NoMemory>
    ensures ends { IfOk result (λ r. (length r.ends ≡ managers) × EachIs (λ (e : EndRowState). (e.ends ≡ []) × (2 * cables ≤ e.room)) r.ends) }
    ensures rows { IfOk result (λ r. (length r.rows ≡ managers) × RowsWait scripts r.rows) }
    ensures locks { IfOk result (λ r. (vec_len r.locks ≡ 0) × (managers ≤ vec_capacity r.locks)) }
    ensures nodes { IfOk result (λ r. (r.nodes.items ≡ []) × (managers ≤ vec_capacity r.nodes)) }
    ensures back { IfOk result (λ r. (r.back.items ≡ []) × (managers ≤ vec_capacity r.back)) }
{
    let ends = room_for_ends(alloc, managers, cables)?;
    let rows = room_for_scripts(alloc, managers, scripts)?;
    let Ok(nodes) = Vec::with_capacity(alloc, managers) else {
        return Err(NoMemory);
    };
    let Ok(back) = Vec::with_capacity(alloc, managers) else {
        return Err(NoMemory);
    };
    let jobs = Vec::new(alloc);
    let Ok(locks) = Vec::with_capacity(alloc, managers) else {
        return Err(NoMemory);
    };
    Ok(PhaseRoom {
        ends,
        rows,
        locks,
        jobs,
        nodes,
        back,
    })
}

/// How a phase ends: where memory was wanting, or a node has made all its events.
fn phase_ends<D: Disk>(nodes: &Items<Node<D>>, wants: bool) -> Result<(), Stop>
    requires done { (wants ≡ false) → AreDone nodes.now }
    requires few { length nodes.now < 2 ^ 16 }
    ensures ends { PhaseEnds result nodes.now }
    ensures lacks { (wants ≡ true) → result ≡ Err stops.NoMemory }
{
    if wants {
        return Err(Stop::NoMemory);
    }
    for at in 0..nodes.len() {
        if nodes.as_slice()[at].is_spent() {
            return Err(Stop::Spent(at as u16));
        }
    }
    Ok(())
}

/// The cables are joined again by the ends that came out of the locks, as the nodes tell that came out with them.
fn join_back<'x, D: Disk, R: Wait>(
    rt: &R,
    pipes: &[Pipes],
    lines: &[CableLine],
    nodes: &Items<Node<D>>,
    mut rows: Items<Items<HeldEnd<'x, R>>>,
    cables: &mut Items<Cable>,
)
    ghost p: { Passed }
    requires begun { IsBegunOver p.begun pipes.now lines.now }
    requires all { (length pipes.now ≡ length lines.now) × (length cables.old ≡ length lines.now) }
    requires managers { EachIs (IsAmong (length rows)) lines.now }
    requires ends { AreEnds p.begun p.since (ends_named lines.now) rows }
    requires bare { EachCable IsBare cables.old }
    ensures joined { AreJoined lines.now (done_in p) cables.new }
    ensures short { AllFree rows.entry → EachCable IsShort cables.new }
    ensures all { length cables.new ≡ length cables.old }
{
    let _ = nodes;
    join_cables(rt, pipes, lines, &mut rows, cables);
}

/// Runs a phase over open directions, in memory that was taken.
fn run_in<'x, P: PhaseName + Send + Sync, D: Disk + Send, R: Threads + Wait + Sync, G: Gate + Sync>(
    rt: &'x R,
    alloc: Global,
    gate: &G,
    scenario: &'x Scenario,
    scripts: &[u16],
    pipes: &'x [Pipes],
    passes: Vec<Passes>,
    nodes: &mut Items<Node<D>>,
    courses: &mut Items<Progress>,
    cables: &mut Items<Cable>,
    room: PhaseRoom<'x, P, D, R>,
) -> Result<(), Stop>
    ghost q: { Asked }
    requires asked { q ≡ record { scenario = scenario.now; scripts = scripts.now } }
    requires begun { P.begun ≡ begun_with scenario.now scripts.now nodes.old (outs_of pipes.now) (backs_of pipes.now) }
    requires may { MayPhase scenario.now scripts.now nodes.old courses.old (wholes passes.items cables.old) }
    requires open { AreOpen pipes.now passes.items }
    requires all { (length pipes.now ≡ length cables.old) × (vec_len passes ≡ length cables.old) }
    requires bare { EachCable IsBare cables.old }
    requires ends { (length room.ends ≡ length nodes.old) × EachIs (λ (e : EndRowState). (e.ends ≡ []) × (2 * length cables.old ≤ e.room)) room.ends }
    requires rows { (length room.rows ≡ length nodes.old) × RowsWait (length courses.old) room.rows }
    requires locks { (vec_len room.locks ≡ 0) × (length nodes.old ≤ vec_capacity room.locks) }
    requires nodes { (room.nodes.items ≡ []) × (length nodes.old ≤ vec_capacity room.nodes) }
    requires back { (room.back.items ≡ []) × (length nodes.old ≤ vec_capacity room.back) }
    ensures ran { PhaseRan scenario.now scripts.now nodes.old result nodes.new courses.new cables.new }
    ensures own { D.tells → PhaseOwn nodes.old nodes.new }
    ensures short { ShortBehind result cables.new }
{
    let PhaseRoom {
        mut ends,
        rows,
        locks,
        mut jobs,
        nodes: mut out,
        mut back,
    } = room;
    let lines = scenario.cables.as_slice();
    part_cables(rt, alloc, pipes, passes, lines, cables, &mut ends);
    let taken = mem::replace(nodes, Items::new(alloc));
    let locks = lock_all(
        alloc, scenario, scripts, taken, ends, rows, courses, &mut jobs, locks,
    );
    run_all(rt, gate, locks.as_slice(), jobs.as_mut_slice());
    let wants = take_all(rt, locks, &mut out, &mut back, courses);
    *nodes = Items::from_vec(out);
    join_back(rt, pipes, lines, nodes, Items::from_vec(back), cables);
    phase_ends(nodes, wants)
}

/// Runs a phase over open directions; where there is no memory for it, they are closed.
fn run<'x, P: PhaseName + Send + Sync, D: Disk + Send, R: Threads + Wait + Sync, G: Gate + Sync>(
    rt: &'x R,
    alloc: Global,
    gate: &G,
    scenario: &'x Scenario,
    scripts: &[u16],
    pipes: &'x [Pipes],
    passes: Vec<Passes>,
    nodes: &mut Items<Node<D>>,
    courses: &mut Items<Progress>,
    cables: &mut Items<Cable>,
) -> Result<(), Stop>
    requires begun { P.begun ≡ begun_with scenario.now scripts.now nodes.old (outs_of pipes.now) (backs_of pipes.now) }
    requires may { MayPhase scenario.now scripts.now nodes.old courses.old (wholes passes.items cables.old) }
    requires open { AreOpen pipes.now passes.items }
    requires all { (length pipes.now ≡ length cables.old) × (vec_len passes ≡ length cables.old) }
    requires bare { EachCable IsBare cables.old }
    ensures ran { PhaseRan scenario.now scripts.now nodes.old result nodes.new courses.new cables.new }
    ensures own { D.tells → PhaseOwn nodes.old nodes.new }
    ensures short { ShortBehind result cables.new }
{
    match room_for::<P, D, R>(alloc, nodes.len(), cables.len(), courses.len()) {
        Err(NoMemory) => {
            close_cables(rt, pipes, passes, cables);
            keep_deadlines(scenario, scripts, nodes, courses);
            Err(Stop::NoMemory)
        }
        Ok(room) => run_in(
            rt, alloc, gate, scenario, scripts, pipes, passes, nodes, courses, cables, room,
        ),
    }
}

/// Runs scripts, places in the scenario, and the ends of all channels in threads. Nodes, courses of scripts and cables are the
/// scenario's, in its order. Behind it the next line of each of its scripts counts as tried at the moment with which the phase began: where it is
/// a get, its deadline is kept from then; no other get waits. Where a direction of a cable holds more than 64 items it does nothing else; where
/// none did, and memory was not wanting, none does behind it.
///
/// # Errors
///
/// No memory: events that were done stand. A node has made all its events.
pub fn phase<D: Disk + Send, R: Threads + Wait + Sync, G: Gate + Sync>(
    rt: &R,
    alloc: Global,
    gate: &G,
    scenario: &Scenario,
    scripts: &[u16],
    nodes: &mut Items<Node<D>>,
    courses: &mut Items<Progress>,
    cables: &mut Items<Cable>,
) -> Result<(), Stop>
    requires { MayPhase scenario.now scripts.now nodes.old courses.old cables.old }
    ensures ran { PhaseRan scenario.now scripts.now nodes.old result nodes.new courses.new cables.new }
    ensures own { D.tells → PhaseOwn nodes.old nodes.new }
    ensures short { EachCable IsShort cables.old → ShortBehind result cables.new }
{
    if !are_short(cables) {
        keep_deadlines(scenario, scripts, nodes, courses);
        return Ok(());
    }
    match open_cables(rt, alloc, cables) {
        Err(NoMemory) => {
            keep_deadlines(scenario, scripts, nodes, courses);
            Err(Stop::NoMemory)
        }
        Ok((pipes, passes)) => run::<Brand, D, R, G>(
            rt,
            alloc,
            gate,
            scenario,
            scripts,
            pipes.as_slice(),
            passes,
            nodes,
            courses,
            cables,
        ),
    }
}
