//! The top call: reads the scenario, runs or checks it, writes what comes of it.

ghost use Rattle.std.specs.Prelude.{◌≡◌, ◌≤◌, ◌↔◌, ℕ, Option, map, None, Some, IfOk, IfErr, IfSome, Ok, option_map};
ghost use Rattle.std.specs.String.{string_bytes};
ghost use Rattle.mq_disk.specs.declared.shelf.Side.TheVariants as sides;
ghost use Rattle.mq_top.specs.Words as terms;

use mq_base::{ReadStop, Sink, Source, read_all, write_all};
use mq_disk::Shelf;
use mq_gate::Gate;
use mq_hints::fault_text;
use mq_history::Scenario;
use mq_run::below::scenario;
use mq_run::{BadCause, Ended, Form, Status, ended_early, run_scenario};
use mq_scn_text::{ScenarioFault, read_scenario};
use mq_text::number;
use std::alloc::Global;
use std::sync::Wait;
use std::thread::Threads;

/// What a scenario is read for.
#[derive(Clone, Copy)]
pub enum Purpose {
    /// It is run.
    Run,
    /// No more than to tell that it is one.
    Check,
}

/// What the words ask for.
#[derive(Clone, Copy)]
pub enum Task {
    /// A scenario is read.
    Read(Purpose),
    /// The scenario of this number, 1 to 1000, is run.
    Soak(u32),
}

/// What is left to do when the bytes were read.
#[derive(Drop)]
pub enum Work {
    Run(Scenario),
    Check,
}

/// What a word asks for.
fn word_task(word: &str) -> Option<Task>
    ensures task { result ≡ terms.word_task word.now }
    ensures fits { IfSome result terms.FitsTask }
{
    if word == "run" {
        return Some(Task::Read(Purpose::Run));
    }
    if word == "check" {
        return Some(Task::Read(Purpose::Check));
    }
    None
}

/// The number of a large run: 1 to 1000 in decimal digits, without a zero in front.
fn soak_number(text: &[u8]) -> Option<u32>
    ensures number { result ≡ terms.soak_number text.now }
    ensures few { IfSome result (λ n. n ≤ 1000) }
{
    if let [b'0', ..] = text {
        return None;
    }
    match number(text, 1, 1000) {
        Ok(n) => Some(n as u32),
        Err(_) => None,
    }
}

/// What a word and a number ask for.
fn number_task(word: &str, text: &str) -> Option<Task>
    ensures task { result ≡ terms.number_task word.now text.now }
    ensures fits { IfSome result terms.FitsTask }
{
    if word != "soak" {
        return None;
    }
    match soak_number(text.as_bytes()) {
        Some(n) => Some(Task::Soak(n)),
        None => None,
    }
}

/// What the words ask for: they are one word, or a word and a number.
fn task_of(words: &[String]) -> Option<Task>
    ensures task { result ≡ terms.task_of (map string_bytes words.now) }
    ensures fits { IfSome result terms.FitsTask }
{
    match words {
        [word] => word_task(word.as_str()),
        [word, text] => number_task(word.as_str(), text.as_str()),
        _ => None,
    }
}

/// Writes a text.
fn write_text<K: Sink>(text: &[u8], sink: &mut K) -> Status
    ensures writes { terms.Writes (K.held sink.old) (K.held sink.new) text.now result }
    ensures write_fault { (n : ℕ) → result ≡ terms.WriteFault n → terms.Rose (K.faults sink.old) (K.faults sink.new) }
{
    match write_all(sink, text) {
        Ok(()) => Status::Ok,
        Err(fault) => Status::WriteFault(fault.written),
    }
}

/// Reads the source to its end.
fn read_bytes<S: Source>(alloc: Global, source: &mut S) -> Result<Vec<u8>, Status>
    ensures found { IfOk result (λ text. terms.WasRead (S.left source.old) text.items) }
    ensures refused { IfErr result (terms.RefusesBytes (S.left source.old) (S.faults source.old) (S.faults source.new)) }
{
    match read_all(alloc, source, 1_048_576) {
        Ok(text) => Ok(text),
        Err(ReadStop::ReadFault) => Err(Status::ReadFault),
        Err(ReadStop::TooLong) => Err(Status::TooLong),
        Err(ReadStop::NoMemory) => Err(Status::NoMemory),
    }
}

/// The scenario of a text.
fn scenario_in(alloc: Global, text: &[u8]) -> Result<Scenario, Status>
    ensures found { IfOk result (λ s. terms.scenario_of text.now ≡ Ok s) }
    ensures refused { IfErr result (terms.RefusesText text.now) }
{
    match read_scenario(alloc, text) {
        Ok(scenario) => Ok(scenario),
        Err(ScenarioFault::BadLine(line, cause)) => {
            Err(Status::BadScenario(line, BadCause::Line(cause)))
        }
        Err(ScenarioFault::Limit(line, limit)) => {
            Err(Status::BadScenario(line, BadCause::Limit(limit)))
        }
        Err(ScenarioFault::NoMemory) => Err(Status::NoMemory),
    }
}

/// What a text leaves to do.
#[tactic(auto, using(crate::proofs::Ending::fits))]
fn work_in(alloc: Global, purpose: Purpose, text: &[u8]) -> Result<Work, Status>
    ensures found { IfOk result (terms.IsWork purpose text.now) }
    ensures fits { IfOk result terms.FitsWork }
    ensures refused { IfErr result (terms.RefusesText text.now) }
{
    let scenario = match scenario_in(alloc, text) {
        Ok(scenario) => scenario,
        Err(status) => return Err(status),
    };
    match purpose {
        Purpose::Check => Ok(Work::Check),
        Purpose::Run => Ok(Work::Run(scenario)),
    }
}

/// What is told of a text that isn't run; none where memory ran out.
fn told(alloc: Global, text: &[u8], status: &Status) -> Option<String> {
    let told = match status {
        Status::BadScenario(line, BadCause::Line(cause)) => {
            fault_text(alloc, text, ScenarioFault::BadLine(*line, *cause))
        }
        Status::BadScenario(line, BadCause::Limit(limit)) => {
            fault_text(alloc, text, ScenarioFault::Limit(*line, *limit))
        }
        _ => return None,
    };
    told.ok()
}

/// Does what is left to do.
fn do_work<K: Sink, H: Shelf, R: Threads + Wait + Sync, G: Gate + Sync>(
    rt: &R,
    alloc: Global,
    left: Work,
    shelf: &mut H,
    start: u64,
    sink: &mut K,
    gate: &G,
) -> Ended<H::D>
where
    H::D: Send,
    requires { terms.FitsWork left }
    ensures ends { terms.WorkEnds left H.D.tells (λ n b. H.holds shelf.old n sides.A b) start (H.faults shelf.old) (H.faults shelf.new) (K.held sink.old) (K.held sink.new) result.status (option_map terms.left_of result.network) (map H.D.faults result.disks.items) }
    ensures risen { IfSome result.network terms.IsRisen }
    ensures write_fault { (n : ℕ) → result.status ≡ terms.WriteFault n → terms.Rose (K.faults sink.old) (K.faults sink.new) }
{
    match left {
        Work::Run(scenario) => run_scenario(
            rt,
            alloc,
            Form::Report,
            &scenario,
            shelf,
            start,
            sink,
            gate,
        ),
        Work::Check => ended_early(alloc, write_text(b"CHECK OK\n", sink), None),
    }
}

/// Makes the scenario of a number and runs it, with its one line to the sink.
#[tactic(auto, using(crate::proofs::Soaking::no_memory, crate::proofs::Soaking::ran))]
fn run_soak<K: Sink, H: Shelf, R: Threads + Wait + Sync, G: Gate + Sync>(
    rt: &R,
    alloc: Global,
    n: u32,
    shelf: &mut H,
    start: u64,
    sink: &mut K,
    gate: &G,
) -> Ended<H::D>
where
    H::D: Send,
    requires few { n ≤ 1000 }
    ensures ends { terms.SoakEnds n H.D.tells (λ n b. H.holds shelf.old n sides.A b) start (H.faults shelf.old) (H.faults shelf.new) (K.held sink.old) (K.held sink.new) result.status (option_map terms.left_of result.network) (map H.D.faults result.disks.items) }
    ensures risen { IfSome result.network terms.IsRisen }
    ensures write_fault { (n : ℕ) → result.status ≡ terms.WriteFault n → terms.Rose (K.faults sink.old) (K.faults sink.new) }
{
    match scenario(alloc, n) {
        Ok(scenario) => run_scenario(
            rt,
            alloc,
            Form::Line(n),
            &scenario,
            shelf,
            start,
            sink,
            gate,
        ),
        Err(_) => ended_early(alloc, Status::NoMemory, None),
    }
}

/// Reads a scenario, and does with it what is asked.
#[tactic(auto, using(crate::proofs::Ending::done_ends, crate::proofs::Ending::early_ends))]
fn obey_text<S: Source, K: Sink, H: Shelf, R: Threads + Wait + Sync, G: Gate + Sync>(
    rt: &R,
    alloc: Global,
    purpose: Purpose,
    source: &mut S,
    sink: &mut K,
    shelf: &mut H,
    start: u64,
    gate: &G,
) -> Ended<H::D>
where
    H::D: Send,
    ensures ends { terms.Ends (Some (terms.Read purpose)) (S.left source.old) H.D.tells (λ n b. H.holds shelf.old n sides.A b) start (H.faults shelf.old) (H.faults shelf.new) (K.held sink.old) (K.held sink.new) result.status (option_map terms.left_of result.network) (map H.D.faults result.disks.items) }
    ensures risen { IfSome result.network terms.IsRisen }
    ensures bad_scenario { (line : ℕ) (cause : terms.BadCause) → result.status ≡ terms.BadScenario line cause → terms.ReadNoScenario (S.left source.old) line cause }
    ensures read_fault { result.status ≡ terms.ReadFault → terms.Rose (S.faults source.old) (S.faults source.new) }
    ensures write_fault { (n : ℕ) → result.status ≡ terms.WriteFault n → terms.Rose (K.faults sink.old) (K.faults sink.new) }
    ensures too_long { result.status ≡ terms.TooLong → terms.IsLonger (S.left source.old) 1048576 }
{
    let text = match read_bytes(alloc, source) {
        Ok(text) => text,
        Err(status) => return ended_early(alloc, status, None),
    };
    match work_in(alloc, purpose, text.as_slice()) {
        Ok(left) => do_work(rt, alloc, left, shelf, start, sink, gate),
        Err(status) => {
            let told = told(alloc, text.as_slice(), &status);
            ended_early(alloc, status, told)
        }
    }
}

/// Does what is asked.
#[tactic(auto, using(crate::proofs::Soaking::no_bad_scenario, crate::proofs::Soaking::no_read_fault, crate::proofs::Soaking::not_too_long))]
fn do_task<S: Source, K: Sink, H: Shelf, R: Threads + Wait + Sync, G: Gate + Sync>(
    rt: &R,
    alloc: Global,
    task: Task,
    source: &mut S,
    sink: &mut K,
    shelf: &mut H,
    start: u64,
    gate: &G,
) -> Ended<H::D>
where
    H::D: Send,
    requires fits { terms.FitsTask task }
    ensures ends { terms.Ends (Some task) (S.left source.old) H.D.tells (λ n b. H.holds shelf.old n sides.A b) start (H.faults shelf.old) (H.faults shelf.new) (K.held sink.old) (K.held sink.new) result.status (option_map terms.left_of result.network) (map H.D.faults result.disks.items) }
    ensures risen { IfSome result.network terms.IsRisen }
    ensures bad_scenario { (line : ℕ) (cause : terms.BadCause) → result.status ≡ terms.BadScenario line cause → terms.ReadNoScenario (S.left source.old) line cause }
    ensures read_fault { result.status ≡ terms.ReadFault → terms.Rose (S.faults source.old) (S.faults source.new) }
    ensures write_fault { (n : ℕ) → result.status ≡ terms.WriteFault n → terms.Rose (K.faults sink.old) (K.faults sink.new) }
    ensures too_long { result.status ≡ terms.TooLong → terms.IsLonger (S.left source.old) 1048576 }
    ensures unread { terms.IsUnread (Some task) (S.left source.old) (S.left source.new) (S.faults source.old) (S.faults source.new) }
{
    match task {
        Task::Read(purpose) => obey_text(rt, alloc, purpose, source, sink, shelf, start, gate),
        Task::Soak(n) => run_soak(rt, alloc, n, shelf, start, sink, gate),
    }
}

/// Does what the words say.
fn obey_words<S: Source, K: Sink, H: Shelf, R: Threads + Wait + Sync, G: Gate + Sync>(
    rt: &R,
    alloc: Global,
    words: &[String],
    source: &mut S,
    sink: &mut K,
    shelf: &mut H,
    start: u64,
    gate: &G,
) -> Ended<H::D>
where
    H::D: Send,
    ensures ends { terms.Ends (terms.task_of (map string_bytes words.now)) (S.left source.old) H.D.tells (λ n b. H.holds shelf.old n sides.A b) start (H.faults shelf.old) (H.faults shelf.new) (K.held sink.old) (K.held sink.new) result.status (option_map terms.left_of result.network) (map H.D.faults result.disks.items) }
    ensures risen { IfSome result.network terms.IsRisen }
    ensures bad_scenario { (line : ℕ) (cause : terms.BadCause) → result.status ≡ terms.BadScenario line cause → terms.ReadNoScenario (S.left source.old) line cause }
    ensures read_fault { result.status ≡ terms.ReadFault → terms.Rose (S.faults source.old) (S.faults source.new) }
    ensures write_fault { (n : ℕ) → result.status ≡ terms.WriteFault n → terms.Rose (K.faults sink.old) (K.faults sink.new) }
    ensures too_long { result.status ≡ terms.TooLong → terms.IsLonger (S.left source.old) 1048576 }
    ensures unread { terms.IsUnread (terms.task_of (map string_bytes words.now)) (S.left source.old) (S.left source.new) (S.faults source.old) (S.faults source.new) }
{
    let Some(task) = task_of(words) else {
        return ended_early(alloc, Status::BadWords, None);
    };
    do_task(rt, alloc, task, source, sink, shelf, start, gate)
}

/// Runs the program: by the word `run`, the scenario that the source gives, over the shelf's disks, with its report to the sink; by
/// the word `check` the scenario is read alone, and CHECK OK written; by the word `soak` and a number from 1 to 1000 the scenario of
/// that number is run, which reads nothing and writes one line. `start` is the moment of its beginning in milliseconds since
/// 1970; a moment above 253,300,000,000,000 is taken as that number. The scripts of a PHASE run in threads of the runtime, and pass
/// the gate before each try of a line.
#[tactic(auto, using(crate::proofs::Ending::own_of, crate::proofs::Ending::rows_of, crate::proofs::Ending::once_of, crate::proofs::Ending::got_once_of, crate::proofs::Ending::order_of, crate::proofs::Resting::told_of_pumps, crate::proofs::Resting::rest_of_pumps, crate::proofs::Ending::bad_words, crate::proofs::Ending::completes))]
pub fn mqnet<S: Source, K: Sink, H: Shelf, R: Threads + Wait + Sync, G: Gate + Sync>(
    rt: &R,
    alloc: Global,
    words: &[String],
    source: &mut S,
    sink: &mut K,
    shelf: &mut H,
    start: u64,
    gate: &G,
) -> Ended<H::D>
where
    H::D: Send,
    // By words and status: each history opens with what its disk told, and replays; all make a lawful story of the scenario of the
    // bytes read, or of the number, with every step whole where the run was not broken off; the bytes written are the report of
    // scenario, story, standing and ledger, or the number's line, or its front, or none; the verdict is what the story says.
    ensures ends { terms.Ends (terms.task_of (map string_bytes words.now)) (S.left source.old) H.D.tells (λ n b. H.holds shelf.old n sides.A b) start (H.faults shelf.old) (H.faults shelf.new) (K.held sink.old) (K.held sink.new) result.status (option_map terms.left_of result.network) (map H.D.faults result.disks.items) }
    // Over disks that tell their bytes no restart read a log that was changed from outside.
    ensures own { IfSome (option_map terms.left_of result.network) (terms.RestartsAreOwn H.D.tells) }
    // After each prefix of the story without a conflict, where the logs belong together, and where the disks tell their bytes or at
    // least no restart read a log that was changed from outside: the standing rows of each queue are the ledger's, list for list,
    ensures rows { IfSome (option_map terms.left_of result.network) (terms.IsPromised H.D.tells terms.RowsAreLedgers) }
    // each ident stands at most once in the network,
    ensures once { IfSome (option_map terms.left_of result.network) (terms.IsPromised H.D.tells terms.StandOnce) }
    // and is in at most one committed get,
    ensures got_once { IfSome (option_map terms.left_of result.network) (terms.IsPromised H.D.tells terms.GotOnce) }
    // and each receiver's commit keeps the order of its queue.
    ensures order { IfSome (option_map terms.left_of result.network) (terms.IsPromised H.D.tells terms.OrderKept) }
    // Each PUMP that was done whole ended idle exactly where nothing can change behind it; it took no more turns and timeouts than it was given, and
    // just as many where it did not end idle.
    ensures pumps { IfSome (option_map terms.left_of result.network) terms.PumpsTell }
    // Where the logs belong together and no restart read a log that was changed from outside: each PUMP that was done whole ended idle, if it had as
    // many turns as 16 per row on the transmission queue of a running sender, 16 per channel and 3 per item on a cable (and what `IsEnough` asks).
    ensures rest { IfSome (option_map terms.left_of result.network) (terms.IsPromised H.D.tells terms.PumpsRest) }
    ensures bad_words { result.status ≡ terms.BadWords ↔ (terms.task_of (map string_bytes words.now) ≡ None) }
    ensures bad_scenario { (line : ℕ) (cause : terms.BadCause) → result.status ≡ terms.BadScenario line cause → terms.ReadNoScenario (S.left source.old) line cause }
    ensures read_fault { result.status ≡ terms.ReadFault → terms.Rose (S.faults source.old) (S.faults source.new) }
    ensures write_fault { (n : ℕ) → result.status ≡ terms.WriteFault n → terms.Rose (K.faults sink.old) (K.faults sink.new) }
    ensures too_long { result.status ≡ terms.TooLong → terms.IsLonger (S.left source.old) 1048576 }
    // Nothing is read by the word `soak`.
    ensures unread { terms.IsUnread (terms.task_of (map string_bytes words.now)) (S.left source.old) (S.left source.new) (S.faults source.old) (S.faults source.new) }
    // Each disk of the network failed at least as often as entries of its manager's history tell: none tells so but where the count rose.
    ensures risen { IfSome result.network terms.IsRisen }
    // A disk is told to have failed only where the shelf's count rose or a disk's: one that is handed back, or else one of the network.
    ensures disk_fault { result.status ≡ terms.DiskFault → terms.DiskRose (H.faults shelf.old) (H.faults shelf.new) (option_map terms.counts_in result.network) (map H.D.faults result.disks.items) }
    // Where neither source nor sink fails, a text that is no scenario is told so, and of another the status is one of a run, or of a check
    // 0; or it is want of memory. By `soak` the status is one of a run where the sink doesn't fail.
    ensures complete { terms.Completes (terms.task_of (map string_bytes words.now)) (S.left source.old) (S.faults source.old) (S.faults source.new) (K.faults sink.old) (K.faults sink.new) result.status }
{
    obey_words(rt, alloc, words, source, sink, shelf, start, gate)
}
