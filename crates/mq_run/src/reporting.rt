//! The end of a run: its report is written, or the one line of a large run.
ghost use Rattle.std.specs.Prelude.{◌≡◌, ◌<◌, ℕ, length, IfOk};
ghost use Rattle.mq_run.specs.Words as words;
ghost use Rattle.mq_run.specs.declared.status.Status.TheVariants.{WriteFault};

use crate::status::{Status, verdict_status};
use mq_base::{NoMemory, Sink, write_all};
use mq_ending::{Ending, ending_of, verdict_of};
use mq_history::{History, Scenario};
use mq_net_stands::Standing;
use mq_soak::soak_line;
use mq_story::story_of;
use std::alloc::Global;

/// What is written of a run.
#[derive(Clone, Copy)]
pub enum Form {
    /// Its report.
    Report,
    /// The line of the large run of this number.
    Line(u32),
}

/// The end of the large run of a number: what its story says, and its line.
fn line_ending(
    alloc: Global,
    n: u32,
    scenario: &Scenario,
    histories: &[History],
    standing: &Standing,
) -> Result<Ending, NoMemory>
    requires few { length histories.now < 256 }
    requires rising { words.AreRising histories.now }
    ensures { IfOk result (words.EndsBy (words.Line n) scenario.now histories.now standing.now) }
{
    let story = story_of(alloc, histories)?;
    let verdict = verdict_of(scenario, histories, story.as_slice());
    let status = verdict.number();
    let report = soak_line(alloc, n, histories, standing, status)?;
    Ok(Ending { verdict, report })
}

/// The end of a run, with what is written of it.
#[tactic(auto, using(crate::proofs::EndLaws::by_report))]
fn ending_by(
    alloc: Global,
    form: Form,
    scenario: &Scenario,
    histories: &[History],
    standing: &Standing,
) -> Result<Ending, NoMemory>
    requires few { length histories.now < 256 }
    requires rising { words.AreRising histories.now }
    requires opened { words.AreOpened histories.now }
    ensures { IfOk result (words.EndsBy form scenario.now histories.now standing.now) }
{
    match form {
        Form::Report => {
            let ending = ending_of(alloc, scenario, histories, standing)?;
            Ok(ending)
        }
        Form::Line(n) => line_ending(alloc, n, scenario, histories, standing),
    }
}

/// Writes the report of a run that was done whole, or its line, from the histories of its managers and how these stand.
#[tactic(auto, using(crate::proofs::EndLaws::wrote, crate::proofs::EndLaws::wrote_some, crate::proofs::EndLaws::wrote_none))]
pub fn report_run<K: Sink>(
    alloc: Global,
    form: Form,
    scenario: &Scenario,
    histories: &[History],
    standing: &Standing,
    sink: &mut K,
) -> Status
    requires few { length histories.now < 256 }
    requires rising { words.AreRising histories.now }
    requires opened { words.AreOpened histories.now }
    requires stands { standing.now ≡ words.standing_left (words.left scenario.now histories.now) }
    requires did { words.DidAll (words.left scenario.now histories.now) }
    ensures ends { words.LeftEnds form (K.held sink.old) (K.held sink.new) result (words.left scenario.now histories.now) }
    ensures write_fault { (n : ℕ) → result ≡ WriteFault n → words.Rose (K.faults sink.old) (K.faults sink.new) }
{
    let ending = match ending_by(alloc, form, scenario, histories, standing) {
        Ok(ending) => ending,
        Err(_) => return Status::NoMemory,
    };
    match write_all(sink, ending.report.as_slice()) {
        Ok(()) => verdict_status(&ending.verdict),
        Err(fault) => Status::WriteFault(fault.written),
    }
}
