//! Courses of scripts: they go out of their places for a phase, and back; and the deadlines of gets that are kept behind it.
ghost use Rattle.std.specs.Prelude.{◌≡◌, ◌≤◌, ◌<◌, ◌+◌, ◌^◌, ◌++◌, ◌∷◌, ℕ, IfOk, [], Some, false, length, map, slice_get, slice_set};
ghost use Rattle.mq_history.specs.Scenarios.{IsScenario};
ghost use Rattle.mq_spec_node.specs.Terms as terms;
ghost use Rattle.mq_progress.specs.Course as progress;
ghost use Rattle.mq_split.specs.Ends.{EachIs};
ghost use Rattle.mq_shared.specs.Held.{Begun, IsScriptIn, ScriptState, entries_begun, script_name};
ghost use Rattle.mq_shared.specs.Phasing.{AreCourses, AreLeft, among, moment_or};
ghost use Rattle.mq_shared.specs.Sharing.{is_here, kept_course, kept_if, last_if, named, out_if, put_all, unbegun, until_of};
ghost use Rattle.mq_shared.specs.Taking.{Begins, CoursesAt, RowsWait};

use crate::held::HeldScript;
use mq_acts::below::Node;
use mq_base::{Items, NoMemory};
use mq_disk::Disk;
use mq_history::{Scenario, ScriptPart};
use mq_progress::Progress;
use std::alloc::Global;
use std::marker::Model;

/// Whether a script is one of these.
fn is_among(scripts: &[u16], script: u16) -> bool
    ensures { result ≡ among scripts.now script }
{
    scripts.contains(&script)
}

/// Whether a script is this manager's, and one of these.
fn goes_here(part: &ScriptPart, scripts: &[u16], script: u16, manager: u16) -> bool
    ensures { result ≡ is_here scripts.now manager script part.now }
{
    part.manager == manager && is_among(scripts, script)
}

/// Takes a course out of its place, where one stays that has done nothing. It takes no memory.
fn take_course(alloc: Global, courses: &mut Items<Progress>, at: usize) -> Progress
    requires { at < length courses.old }
    ensures there { slice_get courses.old at ≡ Some result }
    ensures others { courses.new ≡ slice_set courses.old at unbegun }
{
    std::mem::replace(courses.at_mut(at), Progress::new(alloc))
}

/// The deadline of a script's next line, where it is a get: what is kept of it, or from this moment on.
fn until_from(course: &Progress, part: &ScriptPart, moment: u64) -> Option<u64>
    ensures { result ≡ until_of course.now moment (slice_get part.now.lines course.now.done) }
{
    match course.line(part) {
        Some(line) => course.until(moment, line),
        None => None,
    }
}

/// The next line of a script counts as tried at a moment: the deadline of its get is kept, from that moment on.
fn keep_deadline(course: &mut Progress, part: &ScriptPart, moment: u64)
    ensures { course.new ≡ kept_course moment part.now course.old }
{
    let until = until_from(course, part, moment);
    course.wait(until);
}

/// Puts a course into its place; the deadline of its next line's get is kept, from the moment of its first try.
fn put_course(
    courses: &mut Items<Progress>,
    at: usize,
    part: &ScriptPart,
    moment: u64,
    mut course: Progress,
)
    requires { at < length courses.old }
    ensures { courses.new ≡ slice_set courses.old at (kept_course moment part.now course) }
{
    keep_deadline(&mut course, part, moment);
    *courses.at_mut(at) = course;
}

/// The scripts of a phase at a manager, with room for more.
#[derive(Drop)]
pub struct ScriptRow<'a> {
    scripts: Vec<HeldScript<'a>>,
}

impl<'a> Model for ScriptRow<'a> {
    ghost use Rattle.std.specs.Prelude.{◌-◌, vec_capacity, vec_len};
    ghost use Rattle.mq_shared.specs.Taking.{ScriptRowState};

    ghost Value = { ScriptRowState };

    ghost view = { λ s. record { scripts = s.scripts.items; room = vec_capacity s.scripts - vec_len s.scripts } };
}

impl<'a> ScriptRow<'a> {
    /// No script, with room for so many.
    ///
    /// # Errors
    ///
    /// No memory.
    fn new(alloc: Global, room: usize) -> Result<ScriptRow<'a>, NoMemory>
        ensures { IfOk result (λ row. (row.scripts ≡ []) × (room ≤ row.room)) }
    {
        match Vec::with_capacity(alloc, room) {
            Ok(scripts) => Ok(ScriptRow { scripts }),
            Err(_) => Err(NoMemory),
        }
    }

    /// One script more, in room that is there.
    fn add(&mut self, script: HeldScript<'a>)
        requires room { 0 < self.old.room }
        ensures scripts { self.new.scripts ≡ self.old.scripts ++ script.entry ∷ [] }
        ensures room { self.new.room + 1 ≡ self.old.room }
    {
        self.scripts.push_reserved(script);
    }

    /// The scripts, in order.
    fn into_items(self) -> Items<HeldScript<'a>>
        ensures { result ≡ self.entry.scripts }
    {
        Items::from_vec(self.scripts)
    }
}

/// Room for so many scripts, at each of so many managers.
///
/// # Errors
///
/// No memory.
pub fn room_for_scripts<'a>(
    alloc: Global,
    managers: usize,
    scripts: usize,
) -> Result<Items<ScriptRow<'a>>, NoMemory>
    ensures all { IfOk result (λ rows. length rows ≡ managers) }
    ensures each { IfOk result (λ rows. RowsWait scripts rows) }
{
    let mut rows = Items::new(alloc);
    for _ in 0..managers {
        let row = ScriptRow::new(alloc, scripts)?;
        match rows.push(row) {
            Ok(()) => {}
            Err(_) => return Err(NoMemory),
        }
    }
    Ok(rows)
}

/// The script at a place goes behind those of a manager, where it goes here.
fn hold_one<'x>(
    alloc: Global,
    scenario: &'x Scenario,
    scripts: &[u16],
    manager: u16,
    moment: u64,
    at: usize,
    courses: &mut Items<Progress>,
    row: &mut ScriptRow<'x>,
)
    requires there { at < length scenario.now.scripts }
    requires course { at < length courses.old }
    requires few { at < 2 ^ 16 }
    requires room { 0 < row.old.room }
    ensures held { (p : terms.ScriptPart) (c : progress.Course) → slice_get scenario.now.scripts at ≡ Some p → slice_get courses.old at ≡ Some c → row.new.scripts ≡ last_if (is_here scripts.now manager at p) (record { script = at; part = p; moment = moment; course = c }) row.old.scripts }
    ensures out { (p : terms.ScriptPart) → slice_get scenario.now.scripts at ≡ Some p → courses.new ≡ out_if (is_here scripts.now manager at p) at courses.old }
    ensures room { row.old.room ≤ row.new.room + 1 }
{
    let part = &scenario.scripts.as_slice()[at];
    let script = at as u16;
    if !goes_here(part, scripts, script, manager) {
        return;
    }
    let progress = take_course(alloc, courses, at);
    row.add(HeldScript {
        script,
        part,
        moment,
        progress,
    });
}

/// The scripts of a phase that are a manager's go into its row, in their order. It takes no memory.
pub fn hold_scripts<'x>(
    alloc: Global,
    scenario: &'x Scenario,
    scripts: &[u16],
    manager: u16,
    moment: u64,
    courses: &mut Items<Progress>,
    mut row: ScriptRow<'x>,
) -> Items<HeldScript<'x>>
    ghost b: { Begun }
    requires none { row.scripts ≡ [] }
    requires room { length scenario.now.scripts ≤ row.room }
    requires long { length courses.old ≡ length scenario.now.scripts }
    requires begins { Begins (record { scenario = scenario.now; scripts = scripts.now }) b }
    requires moment { moment ≡ moment_or (slice_get b.nodes manager) }
    requires courses { CoursesAt (record { scenario = scenario.now; scripts = scripts.now }) b manager courses.old }
    ensures named { map script_name result ≡ named scenario.now scripts.now manager }
    ensures each { EachIs (IsScriptIn b manager (entries_begun b manager)) result }
    ensures long { length courses.new ≡ length courses.old }
    ensures others { (k : ℕ) (p : terms.ScriptPart) → slice_get scenario.now.scripts k ≡ Some p → is_here scripts.now manager k p ≡ false → slice_get courses.new k ≡ slice_get courses.old k }
{
    for at in 0..scenario.scripts.len() {
        hold_one(
            alloc, scenario, scripts, manager, moment, at, courses, &mut row,
        );
    }
    row.into_items()
}

/// Courses of scripts go back into their places; their gets keep the deadlines of their first tries. It takes no memory.
pub fn put_courses(mut held: Items<HeldScript<'_>>, courses: &mut Items<Progress>)
    requires { (i : ℕ) (s : ScriptState) → slice_get held i ≡ Some s → s.script < length courses.old }
    ensures { courses.new ≡ put_all held.entry courses.old }
{
    while let Some(script) = held.pop() {
        let HeldScript {
            script: at,
            part,
            moment,
            progress,
        } = script;
        put_course(courses, usize::from(at), part, moment, progress);
    }
}

/// The moment of a manager, in milliseconds since 1970; 0 where there is none.
fn moment_at<D: Disk>(nodes: &Items<Node<D>>, manager: u16) -> u64
    ensures { result ≡ moment_or (slice_get nodes.now manager) }
{
    match nodes.get(usize::from(manager)) {
        None => 0,
        Some(node) => node.moment(),
    }
}

/// The next line of the script at a place counts as tried at its manager's moment, where it is one of these.
fn keep_one<D: Disk>(
    scenario: &Scenario,
    scripts: &[u16],
    nodes: &Items<Node<D>>,
    at: usize,
    courses: &mut Items<Progress>,
)
    requires there { at < length scenario.now.scripts }
    requires course { at < length courses.old }
    requires few { at < 2 ^ 16 }
    ensures { (p : terms.ScriptPart) (c : progress.Course) → slice_get scenario.now.scripts at ≡ Some p → slice_get courses.old at ≡ Some c → courses.new ≡ kept_if (among scripts.now at) at (kept_course (moment_or (slice_get nodes.now p.manager)) p c) courses.old }
{
    if !is_among(scripts, at as u16) {
        return;
    }
    let part = &scenario.scripts.as_slice()[at];
    let moment = moment_at(nodes, part.manager);
    keep_deadline(courses.at_mut(at), part, moment);
}

/// Where nothing of a phase is done, the next line of each of its scripts counts as tried all the same, at the moment of its manager: the
/// deadline of its get is kept. It takes no memory.
pub fn keep_deadlines<D: Disk>(
    scenario: &Scenario,
    scripts: &[u16],
    nodes: &Items<Node<D>>,
    courses: &mut Items<Progress>,
)
    requires scenario { IsScenario scenario.now }
    requires long { length courses.old ≡ length scenario.now.scripts }
    requires courses { AreCourses scenario.now nodes.now courses.old }
    ensures long { length courses.new ≡ length courses.old }
    ensures left { AreLeft scenario.now scripts.now nodes.now nodes.now courses.new }
{
    for at in 0..scenario.scripts.len() {
        keep_one(scenario, scripts, nodes, at, courses);
    }
}
