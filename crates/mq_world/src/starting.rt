//! A network starts: each manager at rest becomes a node of which nothing has happened.
ghost use Rattle.std.specs.Prelude.{◌≡◌, ◌-◌, ◌+◌, ◌<◌, ◌≤◌, ◌++◌, ◌∷◌, [], ℕ, All, IfOk, Some, length, map, slice_get, vec_len, vec_capacity};
ghost use Rattle.mq_history.specs.declared.scenario.RulesPart as rules_parts;
ghost use Rattle.mq_world.specs.Words as words;
ghost use Rattle.mq_watch.specs.from_events.States as states;

use crate::cabling::{Cabling, cabling_of};
use mq_base::{Items, NoMemory};
use mq_disk::Disk;
use mq_history::{CableLine, History, Mark, MonitorLine, RulesPart, Scenario};
use mq_idle::below::Manager;
use mq_own::Own;
use mq_progress::Progress;
use mq_shared::below::begin;
use mq_watch::below::{Entries, Node, NodeParts, Opening};
use mq_ways::Cable;
use mq_world_begin::{rewind, with_one};
use std::alloc::Global;
use std::snapshot::Snapshot;

/// The last value of a list, which has one.
fn taken<T>(list: &mut Vec<T>) -> T
    requires some { 0 < vec_len list.old }
    ensures items { list.old.items ≡ list.new.items ++ result ∷ [] }
    ensures len { vec_len list.new + 1 ≡ vec_len list.old }
{
    match list.pop() {
        Some(value) => value,
        None => unreachable!(),
    }
}

/// A node of which nothing has happened, of a manager that has just begun: its channels' ends begin with what is hardened. It takes
/// no memory.
fn begun_node<D: Disk>(
    alloc: Global,
    log_max: u32,
    manager: Manager<D>,
    mut own: Own,
    history: History,
    marks: Vec<Mark>,
) -> Node<D>
    requires entries { history.entries ≡ [] }
    requires marks { history.marks ≡ [] }
    requires none { marks.items ≡ [] }
    requires opens { words.node_of manager.plain (words.own_begun manager own) ≡ words.opening_node (words.around log_max (words.as_given own) history) history }
    ensures same { result ≡ words.begun_state log_max manager (words.as_given own) (words.own_begun manager own) history result.room result.marks result.spare }
    ensures room { result.marks ≡ vec_capacity marks - vec_len marks }
{
    let History {
        number,
        name,
        opening,
        length,
        moment,
        entries: _,
        marks: _,
    } = history;
    rewind(&mut own);
    let first = Snapshot::of(&own);
    begin(&mut own, &manager);
    let entries = Entries::new(alloc);
    Node::new(NodeParts {
        alloc,
        manager,
        own,
        first,
        opening: Opening {
            number,
            name,
            log_max,
            image: opening,
            length,
            moment,
        },
        entries,
        marks,
        stamp: 0,
        few: false,
    })
}

/// The room of all marks, at each node.
fn rooms_of(alloc: Global, count: usize, steps: usize) -> Result<Vec<Vec<Mark>>, NoMemory>
    ensures all { IfOk result (λ rooms. vec_len rooms ≡ count) }
    ensures each { IfOk result (λ rooms. All (words.IsRoom steps) rooms.items) }
{
    let mut rooms = Vec::new(alloc);
    for at in 0..count {
        let Ok(room) = Vec::with_capacity(alloc, steps) else {
            return Err(NoMemory);
        };
        if rooms.push(room).is_err() {
            return Err(NoMemory);
        }
    }
    Ok(rooms)
}

/// Scripts that have done nothing.
fn scripts_of(alloc: Global, count: usize) -> Result<Items<Progress>, NoMemory>
    ensures all { IfOk result (λ scripts. length scripts ≡ count) }
    ensures each { IfOk result (λ scripts. All (λ c. c ≡ words.begun_script) scripts) }
{
    let mut scripts = Items::new(alloc);
    for at in 0..count {
        if scripts.push(Progress::new(alloc)).is_err() {
            return Err(NoMemory);
        }
    }
    Ok(scripts)
}

/// The manager of each rules table.
fn handlers_of(alloc: Global, rules: &[RulesPart]) -> Result<Items<u16>, NoMemory>
    ensures { IfOk result (λ handlers. handlers ≡ map (λ (r : rules_parts.RulesPart). r.manager) rules.now) }
{
    let mut handlers = Items::new(alloc);
    for part in rules {
        if handlers.push(part.manager).is_err() {
            return Err(NoMemory);
        }
    }
    Ok(handlers)
}

/// The lines of monitors.
fn monitors_of(alloc: Global, lines: &[MonitorLine]) -> Result<Items<MonitorLine>, NoMemory>
    ensures { IfOk result (λ copy. copy ≡ lines.now) }
{
    match Items::from_slice(alloc, lines) {
        Ok(copy) => Ok(copy),
        Err(_) => Err(NoMemory),
    }
}

/// What a network has beside the managers.
pub struct StartRoom<D: Disk> {
    pub nodes: Vec<Node<D>>,
    pub rooms: Vec<Vec<Mark>>,
    pub scripts: Items<Progress>,
    pub lines: Items<CableLine>,
    pub cables: Items<Cable>,
    pub handlers: Items<u16>,
    pub monitors: Items<MonitorLine>,
}

/// All that a network of so many managers needs of memory, but for its end.
pub fn start_room<D: Disk>(
    alloc: Global,
    scenario: &Scenario,
    count: usize,
) -> Result<StartRoom<D>, NoMemory>
    ensures nodes { IfOk result (λ r. (r.nodes.items ≡ []) × (vec_len r.nodes + count ≤ vec_capacity r.nodes)) }
    ensures rooms { IfOk result (λ r. (vec_len r.rooms ≡ count) × All (words.IsRoom (length scenario.now.steps)) r.rooms.items) }
    ensures scripts { IfOk result (λ r. (length r.scripts ≡ length scenario.now.scripts) × All (λ c. c ≡ words.begun_script) r.scripts) }
    ensures lines { IfOk result (λ r. r.lines ≡ scenario.now.cables) }
    ensures cables { IfOk result (λ r. words.AreNew scenario.now.cables r.cables) }
    ensures handlers { IfOk result (λ r. r.handlers ≡ map (λ (p : rules_parts.RulesPart). p.manager) scenario.now.rules) }
    ensures monitors { IfOk result (λ r. r.monitors ≡ scenario.now.monitors) }
{
    let nodes = match Vec::with_capacity(alloc, count) {
        Ok(nodes) => nodes,
        Err(_) => return Err(NoMemory),
    };
    let rooms = rooms_of(alloc, count, scenario.steps.len())?;
    let scripts = scripts_of(alloc, scenario.scripts.len())?;
    let Cabling { lines, cables } = cabling_of(alloc, scenario.cables.as_slice())?;
    let handlers = handlers_of(alloc, scenario.rules.as_slice())?;
    let monitors = monitors_of(alloc, scenario.monitors.as_slice())?;
    Ok(StartRoom {
        nodes,
        rooms,
        scripts,
        lines,
        cables,
        handlers,
        monitors,
    })
}

/// The nodes of managers that have just begun, in room that was taken. It takes no memory.
pub fn nodes_of<D: Disk>(
    alloc: Global,
    scenario: &Scenario,
    mut managers: Vec<Manager<D>>,
    mut owns: Vec<Own>,
    mut histories: Vec<History>,
    mut rooms: Vec<Vec<Mark>>,
    mut nodes: Vec<Node<D>>,
) -> Vec<Node<D>>
    requires rested { words.IsRested (record { scenario = scenario.now; managers = managers.items; owns = owns.items; histories = histories.items }) }
    requires fresh { words.IsFresh (record { scenario = scenario.now; managers = managers.items; owns = owns.items; histories = histories.items }) }
    requires rooms { All (words.IsRoom (length scenario.now.steps)) rooms.items }
    requires as_many { vec_len rooms ≡ vec_len managers }
    requires none { nodes.items ≡ [] }
    requires room { vec_len nodes + vec_len managers ≤ vec_capacity nodes }
    ensures all { length result.items ≡ length scenario.now.managers }
    ensures each { (m : ℕ) (n : states.NodeState) → slice_get result.items m ≡ Some n → words.StartsAt scenario.now histories.items m n }
{
    managers.reverse();
    owns.reverse();
    histories.reverse();
    for line in scenario.managers.as_slice() {
        let manager = taken(&mut managers);
        let own = taken(&mut owns);
        let history = taken(&mut histories);
        let room = taken(&mut rooms);
        let node = begun_node(alloc, line.log_max, manager, own, history, room);
        nodes = with_one(nodes, node);
    }
    nodes
}
