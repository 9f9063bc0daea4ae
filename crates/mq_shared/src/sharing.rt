//! Nodes go under their locks with their ends and scripts, and come out of them.
ghost use Rattle.std.specs.Prelude.{◌≡◌, ◌≤◌, ◌<◌, ◌+◌, ◌∷◌, ◌++◌, ℕ, [], Some, false, length, slice_get, vec_capacity, vec_len};
ghost use Rattle.mq_spec_node.specs.Terms as terms;
ghost use Rattle.mq_acts.specs.from_events.States.{IsKept};
ghost use Rattle.mq_split.specs.Ends.{AreFree, EndsApart};
ghost use Rattle.mq_shared.specs.Held.{Kept, KeptOwn, cables_begun};
ghost use Rattle.mq_split.specs.Parting.{AllFree, AreEndsAt, ends_named, none_since};
ghost use Rattle.mq_shared.specs.Sharing.{is_here};
ghost use Rattle.mq_shared.specs.Taking.{AreBack, AreDone, AreOut, Asked, Begins, CoursesAt, CoursesBelow, EndsWait, NodesWait, OthersStay, OwnOut, RowsWait};

use crate::courses::{ScriptRow, hold_scripts, put_courses};
use crate::held::HeldScript;
use crate::jobs::{Job, Work};
use crate::locked::{Locked, PhaseName, Unlocked};
use mq_acts::below::Node;
use mq_base::Items;
use mq_disk::Disk;
use mq_gate::Point;
use mq_history::{Actor, Call, Entry, Scenario};
use mq_progress::Progress;
use mq_split::{EndRow, HeldEnd};
use std::alloc::Global;
use std::sync::{Mutex, Wait};

/// The last value of a list, which has one.
fn last_of<T>(list: &mut Items<T>) -> T
    requires { 0 < length list.old }
    ensures { list.old ≡ list.new ++ result ∷ [] }
{
    match list.pop() {
        Some(value) => value,
        None => unreachable!(),
    }
}

/// Whether an entry is of a script's line.
fn is_line(entry: &Entry, script: u16) -> bool {
    match (entry.actor, &entry.call) {
        (Actor::Script(_), Call::Trigger) => false,
        (Actor::Script(number), _) => number == script,
        _ => false,
    }
}

/// How many lines of a script are done.
fn count_lines(entries: &[Entry], script: u16) -> u32 {
    let mut count = 0u32;
    for entry in entries {
        if is_line(entry, script) {
            count = count.saturating_add(1);
        }
    }
    count
}

/// A worker for each script under a lock.
fn add_scripts(jobs: &mut Vec<Job>, lock: usize, entries: &[Entry], held: &Items<HeldScript<'_>>) {
    for at in 0..held.len() {
        let Some(script) = held.get(at) else {
            return;
        };
        let next = Point {
            script: script.script,
            line: count_lines(entries, script.script),
        };
        let work = Work::Script { at, next };
        if jobs.push(Job { lock, work }).is_err() {
            return;
        }
    }
}

/// A worker for each end under a lock.
fn add_ends<R: Wait>(jobs: &mut Vec<Job>, lock: usize, held: &Items<HeldEnd<'_, R>>) {
    for at in 0..held.len() {
        let Some(end) = held.get(at) else {
            return;
        };
        let sends = if end.sends { Some(end.cable) } else { None };
        let work = Work::End { at, sends };
        if jobs.push(Job { lock, work }).is_err() {
            return;
        }
    }
}

/// A manager's node goes under its lock.
fn lock_one<'x, P: PhaseName, D: Disk, R: Wait>(
    alloc: Global,
    scenario: &'x Scenario,
    scripts: &[u16],
    manager: u16,
    node: Node<D>,
    ends: EndRow<'x, R>,
    row: ScriptRow<'x>,
    courses: &mut Items<Progress>,
    jobs: &mut Vec<Job>,
    lock: usize,
) -> Locked<'x, P, D, R>
    requires begins { Begins (record { scenario = scenario.now; scripts = scripts.now }) P.begun }
    requires there { slice_get P.begun.nodes manager ≡ Some node }
    requires ends { AreEndsAt (cables_begun P.begun) none_since (ends_named scenario.now.cables) manager ends.ends × EndsApart ends.ends × AreFree ends.ends }
    requires row { (row.scripts ≡ []) × (length scenario.now.scripts ≤ row.room) }
    requires long { length courses.old ≡ length scenario.now.scripts }
    requires courses { CoursesAt (record { scenario = scenario.now; scripts = scripts.now }) P.begun manager courses.old }
    ensures long { length courses.new ≡ length courses.old }
    ensures others { (k : ℕ) (p : terms.ScriptPart) → slice_get scenario.now.scripts k ≡ Some p → is_here scripts.now manager k p ≡ false → slice_get courses.new k ≡ slice_get courses.old k }
{
    let held = hold_scripts(
        alloc,
        scenario,
        scripts,
        manager,
        node.moment(),
        courses,
        row,
    );
    let ends = ends.into_items();
    add_scripts(jobs, lock, node.entries(), &held);
    add_ends(jobs, lock, &ends);
    Locked::new(manager, node, ends, held)
}

/// Each node goes under its lock, the last one first. It takes no memory but for workers beyond those for which there is room.
pub fn lock_all<'x, P: PhaseName, D: Disk, R: Wait>(
    alloc: Global,
    scenario: &'x Scenario,
    scripts: &[u16],
    mut nodes: Items<Node<D>>,
    mut ends: Items<EndRow<'x, R>>,
    mut rows: Items<ScriptRow<'x>>,
    courses: &mut Items<Progress>,
    jobs: &mut Vec<Job>,
    mut locks: Vec<Mutex<Locked<'x, P, D, R>>>,
) -> Vec<Mutex<Locked<'x, P, D, R>>>
    requires begins { Begins (record { scenario = scenario.now; scripts = scripts.now }) P.begun }
    requires nodes { NodesWait P.begun nodes × (length nodes ≤ length scenario.now.managers) }
    requires ends { EndsWait P.begun (record { scenario = scenario.now; scripts = scripts.now }) ends × (length ends ≡ length nodes) }
    requires rows { RowsWait (length scenario.now.scripts) rows × (length rows ≡ length nodes) }
    requires long { length courses.old ≡ length scenario.now.scripts }
    requires courses { CoursesBelow (record { scenario = scenario.now; scripts = scripts.now }) P.begun (length nodes) courses.old }
    requires room { vec_len locks + length nodes ≤ vec_capacity locks }
    ensures all { vec_len result ≡ vec_len locks.entry + length nodes }
    ensures long { length courses.new ≡ length courses.old }
    ensures others { OthersStay (record { scenario = scenario.now; scripts = scripts.now }) courses.old courses.new }
{
    while let Some(node) = nodes.pop() {
        let manager = nodes.len() as u16;
        let place = locks.len();
        let ends = last_of(&mut ends);
        let row = last_of(&mut rows);
        let locked = lock_one::<P, D, R>(
            alloc, scenario, scripts, manager, node, ends, row, courses, jobs, place,
        );
        locks.push_reserved(Mutex::new(locked));
    }
    locks
}

/// Takes a node out of its lock. Each lock has its own node; where one had another's, this would wait for ever.
fn take_one<'x, P: PhaseName, D: Disk, R: Wait>(
    rt: &'x R,
    lock: Mutex<Locked<'x, P, D, R>>,
    place: usize,
) -> Unlocked<'x, D, R>
    ensures kept { Kept P.begun (record { manager = place; node = result.node; ends = result.ends; scripts = result.scripts; wants = result.wants }) }
    ensures own { KeptOwn D.tells P.begun (record { manager = place; node = result.node; ends = result.ends; scripts = result.scripts; wants = result.wants }) }
    ensures history { IsKept result.node }
{
    let taken = lock.into_inner().into_parts();
    if usize::from(taken.manager) != place {
        for _ in rt.forever() {}
        unreachable!()
    }
    taken.node.facts();
    taken
}

/// Whether one of two is so.
fn either(one: bool, other: bool) -> bool
    ensures { (result ≡ false) → (one ≡ false) × (other ≡ false) }
{
    one || other
}

/// Takes all nodes out of their locks, the first one first, and puts the courses of scripts back: whether an event found no memory. It
/// takes no memory.
pub fn take_all<'x, P: PhaseName, D: Disk, R: Wait>(
    rt: &'x R,
    mut locks: Vec<Mutex<Locked<'x, P, D, R>>>,
    nodes: &mut Vec<Node<D>>,
    ends: &mut Vec<Items<HeldEnd<'x, R>>>,
    courses: &mut Items<Progress>,
) -> bool
    ghost a: { Asked }
    requires begins { Begins a P.begun }
    requires none { (nodes.old.items ≡ []) × (ends.old.items ≡ []) }
    requires room { (vec_len locks ≤ vec_capacity nodes.old) × (vec_len locks ≤ vec_capacity ends.old) }
    requires long { length courses.old ≡ length a.scenario.scripts }
    ensures all { (length nodes.new.items ≡ vec_len locks.entry) × (length ends.new.items ≡ vec_len locks.entry) }
    ensures out { AreOut P.begun nodes.new.items ends.new.items }
    ensures own { D.tells → OwnOut P.begun nodes.new.items }
    ensures done { (result ≡ false) → AreDone nodes.new.items }
    ensures free { (result ≡ false) → AllFree ends.new.items }
    ensures long { length courses.new ≡ length courses.old }
    ensures others { OthersStay a courses.old courses.new }
    ensures back { AreBack a P.begun nodes.new.items courses.new }
{
    let mut wants = false;
    while let Some(lock) = locks.pop() {
        let Unlocked {
            manager: _,
            node,
            ends: held,
            scripts,
            wants: wanted,
        } = take_one(rt, lock, nodes.len());
        put_courses(scripts, courses);
        nodes.push_reserved(node);
        ends.push_reserved(held);
        wants = either(wants, wanted);
    }
    locks.destroy_empty();
    wants
}
