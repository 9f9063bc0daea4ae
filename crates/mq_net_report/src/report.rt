//! The report as a whole.
ghost use Rattle.std.specs.Prelude.{◌≡◌, ◌++◌, OnOk, IfOk, codes};
ghost use Rattle.std.specs.Fmt.{decimal};
ghost use Rattle.mq_net_report.specs.Report.{done_text, stands_text, report};

use crate::lines::{put_scripts, put_steps};
use mq_base::NoMemory;
use mq_history::{History, ManagerPlaces, Scenario};
use mq_net_stands::{Standing, Text, put_cables, put_ledger, put_managers, put_number, put_word};
use std::alloc::Global;

fn put_done(
    alloc: Global,
    out: &mut Text,
    scenario: &Scenario,
    histories: &[History],
) -> Result<(), NoMemory>
    ensures { OnOk result (out.new ≡ out.old ++ done_text scenario.now histories.now) }
{
    put_word(out, "MQNET 1\n")?;
    put_scripts(alloc, out, scenario, histories, scenario.scripts.as_slice())?;
    put_word(out, "STEPS\n")?;
    put_steps(alloc, out, scenario, histories, scenario.steps.as_slice())
}

fn put_status(alloc: Global, out: &mut Text, status: u8) -> Result<(), NoMemory>
    ensures { OnOk result (out.new ≡ out.old ++ (codes "STATUS " ++ decimal status ++ codes "\n")) }
{
    put_word(out, "STATUS ")?;
    put_number(alloc, out, status as u64)?;
    put_word(out, "\n")
}

fn put_stands(
    alloc: Global,
    out: &mut Text,
    standing: &Standing,
    places: &[ManagerPlaces],
    status: u8,
) -> Result<(), NoMemory>
    ensures { OnOk result (out.new ≡ out.old ++ stands_text standing.now places.now status) }
{
    put_word(out, "QUEUES\n")?;
    put_managers(alloc, out, standing.managers.as_slice())?;
    put_word(out, "CHANNELS\n")?;
    put_cables(alloc, out, standing.cables.as_slice())?;
    put_word(out, "LEDGER\n")?;
    put_ledger(alloc, out, standing.managers.as_slice(), places)?;
    put_status(alloc, out, status)
}

/// The report of a run: what its histories did, step by step, how all stands, the ledger's places and the status. In time
/// of its length but for SERVE steps, which look at their manager's entries for each trigger message; the text is held
/// once.
///
/// # Errors
///
/// No memory.
pub fn report_text(
    alloc: Global,
    scenario: &Scenario,
    histories: &[History],
    standing: &Standing,
    places: &[ManagerPlaces],
    status: u8,
) -> Result<Text, NoMemory>
    ensures { IfOk result (λ text. text ≡ report scenario.now histories.now standing.now places.now status) }
{
    let mut out = Text::new(alloc);
    put_done(alloc, &mut out, scenario, histories)?;
    put_stands(alloc, &mut out, standing, places, status)?;
    Ok(out)
}
