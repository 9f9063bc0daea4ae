//! A scenario's run over a shelf: its managers begin, its steps are done, its report is written.
ghost use Rattle.std.specs.Prelude.{◌≡◌, ℕ, List, [], Some, None, IfSome, OnOk, option_map, map};
ghost use Rattle.mq_history.specs.declared.history.History.{History};
ghost use Rattle.mq_run.specs.Words as words;
ghost use Rattle.mq_run.specs.declared.status.Status.TheVariants.{WriteFault};
ghost use Rattle.mq_disk.specs.declared.shelf.Side.TheVariants as sides;

use crate::reporting::{Form, report_run};
use crate::standing::standing_at_rest;
use crate::status::{Status, net_status, stop_status};
use mq_base::Sink;
use mq_disk::{Disk, Shelf};
use mq_gate::Gate;
use mq_history::Scenario;
use mq_nodes::Stop;
use mq_world::below::run_steps;
use mq_world::{Network, Rested, begin};
use std::alloc::Global;
use std::sync::Wait;
use std::thread::Threads;

/// How a call of the program ended, and what it leaves.
#[derive(Drop)]
pub struct Ended<D: Disk> {
    pub status: Status,
    /// The scenario's managers, at rest; none exactly where the status came before all of them had begun.
    pub network: Option<Rested<D>>,
    /// Where there is no network, the disks that were taken, in the managers' order.
    pub disks: Vec<D>,
    /// What is told of bytes that aren't run: the line, why, and the line itself, each with a line feed; none where there is
    /// nothing to tell, or no memory for it.
    pub told: Option<String>,
}

/// A call that ended before any manager began.
pub fn ended_early<D: Disk>(alloc: Global, status: Status, told: Option<String>) -> Ended<D>
    ensures status { result.status ≡ status }
    ensures network { result.network ≡ None }
    ensures disks { result.disks.items ≡ [] }
{
    Ended {
        status,
        network: None,
        disks: Vec::new(alloc),
        told,
    }
}

fn ended_with<D: Disk>(alloc: Global, status: Status, network: Rested<D>) -> Ended<D>
    ensures status { result.status ≡ status }
    ensures network { result.network ≡ Some network }
    ensures disks { result.disks.items ≡ [] }
{
    Ended {
        status,
        network: Some(network),
        disks: Vec::new(alloc),
        told: None,
    }
}

/// What a run came to, as far as it was done.
#[derive(Drop)]
struct Done<D: Disk> {
    ran: Result<(), Stop>,
    rested: Rested<D>,
}

/// Does the steps of a scenario over its network; in a PHASE its scripts and the ends of channels go in threads.
fn go_on<D: Disk + Send, R: Threads + Wait + Sync, G: Gate + Sync>(
    rt: &R,
    scenario: &Scenario,
    network: &mut Network<D>,
    gate: &G,
) -> Result<(), Stop>
    requires ready { words.Ready (words.course_in network.old).net }
    requires rests { words.Rests (words.course_in network.old) }
    requires unmarked { words.Unmarked (words.course_in network.old) }
    requires same { (words.course_in network.old).net.scenario ≡ scenario.now }
    requires scenario { words.IsScenario scenario.now }
    requires texts { words.AllFit words.IsTextCommand scenario.now }
    ensures ran { words.Ran result (words.course_in network.old) (words.course_in network.new) }
    ensures lawful { (hs : List History) → words.Has scenario.now hs (words.course_in network.old) (words.course_in network.new) → words.AreSteps scenario.now hs }
    ensures all { OnOk result ((hs : List History) → words.Has scenario.now hs (words.course_in network.old) (words.course_in network.new) → words.IsDone scenario.now hs) }
    ensures carried { (hs : List History) → words.Has scenario.now hs (words.course_in network.old) (words.course_in network.new) → words.AreCarriedSoFar scenario.now hs }
{
    run_steps(
        network,
        scenario,
        &|network: &mut Network<D>, scripts: &[u16]| -> Result<(), Stop>
            requires ready { words.Ready (words.course_in network.old).net }
            requires rests { words.Rests (words.course_in network.old) }
            requires same { (words.course_in network.old).net.scenario ≡ scenario.now }
            requires phased { words.ArePhased scenario.now scripts.now }
            ensures { words.PhaseTold scripts.now result (words.course_in network.old) (words.course_in network.new) }
        { network.phase(rt, gate, scenario, scripts) },
    )
}

/// Does the steps of a scenario over its managers, and restarts last those that are down.
#[tactic(auto, using(crate::proofs::JoinLaws::ran_none, crate::proofs::RunLaws::steps_ran, crate::proofs::RunLaws::steps_end))]
fn do_steps<D: Disk + Send, R: Threads + Wait + Sync, G: Gate + Sync>(
    rt: &R,
    alloc: Global,
    scenario: &Scenario,
    rested: Rested<D>,
    gate: &G,
) -> Done<D>
    requires scenario { words.IsScenario scenario.now }
    requires same { rested.scenario ≡ scenario.now }
    requires stands { words.IsRested rested }
    requires fresh { words.IsFresh rested }
    requires texts { words.AllFit words.IsTextCommand scenario.now }
    ensures on { words.RanOn scenario.now rested.histories (words.left_of result.rested) }
    ensures stands { words.IsRested result.rested }
    ensures ends { words.StepsEnd result.ran (words.left_of result.rested) }
    ensures own { D.tells → words.AreOwn result.rested.histories }
    ensures risen { words.IsRisen result.rested }
{
    let mut network = match Network::start(alloc, scenario, rested) {
        Ok(network) => network,
        Err(rested) => {
            return Done {
                ran: Err(Stop::NoMemory),
                rested,
            };
        }
    };
    let ran = go_on(rt, scenario, &mut network, gate);
    let rested = network.rest();
    let _ = rested.histories();
    Done { ran, rested }
}

/// Writes the report of a run that was done whole, or its line.
#[tactic(auto, using(crate::proofs::RunLaws::few, crate::proofs::RunLaws::few_cables, crate::proofs::RunLaws::rising, crate::proofs::RunLaws::stood, crate::proofs::RunLaws::did_at, crate::proofs::RunLaws::ends_at))]
fn report<K: Sink, D: Disk>(
    alloc: Global,
    form: Form,
    scenario: &Scenario,
    rested: &Rested<D>,
    sink: &mut K,
) -> Status
    requires scenario { words.IsScenario scenario.now }
    requires same { rested.now.scenario ≡ scenario.now }
    requires stands { words.IsRested rested.now }
    requires opened { words.AreOpened rested.now.histories }
    requires did { words.DidAll (words.left_of rested.now) }
    ensures ends { words.LeftEnds form (K.held sink.old) (K.held sink.new) result (words.left_of rested.now) }
    ensures write_fault { (n : ℕ) → result ≡ WriteFault n → words.Rose (K.faults sink.old) (K.faults sink.new) }
{
    let standing = match standing_at_rest(alloc, scenario, rested) {
        Ok(standing) => standing,
        Err(_) => return Status::NoMemory,
    };
    report_run(alloc, form, scenario, rested.histories(), &standing, sink)
}

/// Does the steps of a scenario whose managers' logs belong together, and writes its report, or its line.
#[tactic(auto, using(crate::proofs::RunLaws::opened_on, crate::proofs::RunLaws::did_all, crate::proofs::RunLaws::whole_did, crate::proofs::RunLaws::stays))]
fn run_whole<K: Sink, D: Disk + Send, R: Threads + Wait + Sync, G: Gate + Sync>(
    rt: &R,
    alloc: Global,
    form: Form,
    scenario: &Scenario,
    rested: Rested<D>,
    sink: &mut K,
    gate: &G,
) -> Ended<D>
    requires scenario { words.IsScenario scenario.now }
    requires same { rested.scenario ≡ scenario.now }
    requires stands { words.IsRested rested }
    requires fresh { words.IsFresh rested }
    requires timed { words.AreTimed rested.histories }
    requires texts { words.AllFit words.IsTextCommand scenario.now }
    requires together { words.apart scenario.now rested.histories ≡ None }
    ensures ends { words.WholeEnds form (K.held sink.old) (K.held sink.new) scenario.now rested.histories result.status (option_map words.left_of result.network) }
    ensures own { IfSome (option_map words.left_of result.network) (words.RestartsAreOwn D.tells) }
    ensures risen { IfSome result.network words.IsRisen }
    ensures none { result.disks.items ≡ [] }
    ensures write_fault { (n : ℕ) → result.status ≡ WriteFault n → words.Rose (K.faults sink.old) (K.faults sink.new) }
{
    let done = do_steps(rt, alloc, scenario, rested, gate);
    let Done { ran, rested } = done;
    match ran {
        Ok(()) => {
            let status = report(alloc, form, scenario, &rested, sink);
            ended_with(alloc, status, rested)
        }
        Err(stop) => ended_with(alloc, stop_status(stop), rested),
    }
}

/// Runs a scenario over a shelf: its managers begin, their logs are checked to belong together, its steps are done,
/// those that are down are restarted, and the report is written, or the line of a large run. The scripts of a PHASE run in threads,
/// and pass the gate before each try of a line.
#[tactic(auto, using(crate::proofs::JoinLaws::fresh, crate::proofs::RunLaws::begun_timed, crate::proofs::RunLaws::run_whole, crate::proofs::RunLaws::run_apart, crate::proofs::RunLaws::run_none, crate::proofs::RunLaws::net_no_write))]
pub fn run_scenario<K: Sink, H: Shelf, R: Threads + Wait + Sync, G: Gate + Sync>(
    rt: &R,
    alloc: Global,
    form: Form,
    scenario: &Scenario,
    shelf: &mut H,
    start: u64,
    sink: &mut K,
    gate: &G,
) -> Ended<H::D>
where
    H::D: Send,
    requires scenario { words.IsScenario scenario.now }
    requires texts { words.AllFit words.IsTextCommand scenario.now }
    ensures ends { words.RunEnds form H.D.tells (λ n b. H.holds shelf.old n sides.A b) start scenario.now (H.faults shelf.old) (H.faults shelf.new) (K.held sink.old) (K.held sink.new) result.status (option_map words.left_of result.network) (map H.D.faults result.disks.items) }
    // Each disk of the network failed at least as often as its manager's history tells.
    ensures risen { IfSome result.network words.IsRisen }
    ensures write_fault { (n : ℕ) → result.status ≡ WriteFault n → words.Rose (K.faults sink.old) (K.faults sink.new) }
{
    let fresh = match begin(alloc, scenario, shelf, start) {
        Ok(fresh) => fresh,
        Err(none) => {
            return Ended {
                status: net_status(none.fault),
                network: None,
                disks: none.disks,
                told: None,
            };
        }
    };
    let apart = fresh.apart();
    let rested = fresh.into_rested();
    match apart {
        Some(found) => ended_with(alloc, Status::Apart(found), rested),
        None => run_whole(rt, alloc, form, scenario, rested, sink, gate),
    }
}
