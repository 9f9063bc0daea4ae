//! The end of a run that was done whole: its verdict, and its report.
ghost use Rattle.std.specs.Prelude.{◌<◌, IfOk, length};
ghost use Rattle.mq_story.specs.Spots.{AreRising};
ghost use Rattle.mq_net_ledger.specs.Opened.{AreOpened};
ghost use Rattle.mq_ending.specs.Ends.{IsEnding};

use crate::verdict::{Verdict, verdict_of};
use mq_base::NoMemory;
use mq_history::{History, Scenario};
use mq_net_ledger::ledger_of;
use mq_net_report::below::{Standing, Text};
use mq_net_report::report_text;
use mq_story::story_of;
use std::alloc::Global;

/// How a run ended.
#[derive(Drop)]
pub struct Ending {
    /// What its story says.
    pub verdict: Verdict,
    /// Its report.
    pub report: Text,
}

/// The end of a run by the histories of its managers, which stand so at its end: what their one story says, and the report of
/// scenario, histories, standing and the story's ledger.
///
/// # Errors
///
/// No memory.
pub fn ending_of(
    alloc: Global,
    scenario: &Scenario,
    histories: &[History],
    standing: &Standing,
) -> Result<Ending, NoMemory>
    requires few { length histories.now < 256 }
    requires rising { AreRising histories.now }
    requires opened { AreOpened histories.now }
    ensures { IfOk result (IsEnding scenario.now histories.now standing.now) }
{
    let story = story_of(alloc, histories)?;
    let spots = story.as_slice();
    let verdict = verdict_of(scenario, histories, spots);
    let places = ledger_of(alloc, scenario, histories, spots)?;
    let status = verdict.number();
    let report = report_text(
        alloc,
        scenario,
        histories,
        standing,
        places.as_slice(),
        status,
    )?;
    Ok(Ending { verdict, report })
}
