//! The lines of steps.
ghost use Rattle.std.specs.Prelude.{◌≡◌, ◌++◌, ◌+◌, OnOk, IfOk, IfSome, codes, option_copied, slice_get};
ghost use Rattle.std.specs.List.{flat_map};
ghost use Rattle.mq_net_stands.specs.Replies.{number4};
ghost use Rattle.mq_net_report.specs.Steps.{name_at, script_label, asked_text, obey_text, run_text, label_text, turns_in, pump_text, handle_text, watch_text, serve_text, starts_in, before_step, in_step, step_text, steps_text, script_text, scripts_text};

use crate::marks::{before_step, entries_of, history_at, in_step, is_idle};
use crate::starts::starts_in;
use crate::steps::{
    count_actions, count_lines, count_turns, first_refusal, idle_word, put_answers, put_commands,
    put_lines, put_watched,
};
use mq_base::NoMemory;
use mq_history::{History, MonitorLine, RulesPart, Scenario, ScriptPart, Section, Step};
use mq_net_stands::{Text, put, put_number, put_number4, put_word};
use std::alloc::Global;

/// The name of a manager by its place.
#[tactic(auto, using(crate::proofs::PartLaws::append_nil))]
fn put_name(out: &mut Text, scenario: &Scenario, manager: u64) -> Result<(), NoMemory>
    ensures { OnOk result (out.new ≡ out.old ++ name_at scenario.now manager) }
{
    match scenario.managers.get(manager as usize) {
        None => Ok(()),
        Some(line) => put(out, line.name.text()),
    }
}

/// The answer of what a step asked of one manager.
fn put_asked(
    out: &mut Text,
    word: &str,
    step: usize,
    manager: u64,
    scenario: &Scenario,
    histories: &[History],
) -> Result<(), NoMemory>
    ensures { OnOk result (out.new ≡ out.old ++ asked_text word.now step manager scenario.now histories.now) }
{
    put_word(out, word)?;
    put_name(out, scenario, manager)?;
    put_word(out, " ")?;
    put_answers(out, in_step(history_at(histories, manager as usize), step))
}

fn put_obey(
    out: &mut Text,
    step: usize,
    histories: &[History],
    section: Option<&Section>,
) -> Result<(), NoMemory>
    ensures { OnOk result (out.new ≡ out.old ++ obey_text step histories.now (option_copied section.entry)) }
{
    let Some(section) = section else {
        return put_word(out, "\n");
    };
    put(out, section.label.text())?;
    put_word(out, "\n")?;
    put_commands(
        out,
        in_step(history_at(histories, section.manager as usize), step),
    )
}

fn put_run(
    alloc: Global,
    out: &mut Text,
    step: usize,
    script: u64,
    histories: &[History],
    part: Option<&ScriptPart>,
) -> Result<(), NoMemory>
    ensures { OnOk result (out.new ≡ out.old ++ run_text step script histories.now (option_copied part.entry)) }
{
    let Some(part) = part else {
        return put_word(out, "\n");
    };
    let lines = count_lines(
        script,
        in_step(history_at(histories, part.manager as usize), step),
    );
    put(out, part.label.text())?;
    put_word(out, " ")?;
    put_number(alloc, out, lines as u64)?;
    put_word(out, "\n")
}

fn put_label(out: &mut Text, scenario: &Scenario, script: u16) -> Result<(), NoMemory>
    ensures { OnOk result (out.new ≡ out.old ++ (codes " " ++ script_label (slice_get scenario.now.scripts script))) }
{
    put_word(out, " ")?;
    match scenario.scripts.get(script as usize) {
        None => Ok(()),
        Some(part) => put(out, part.label.text()),
    }
}

fn put_labels(out: &mut Text, scenario: &Scenario, scripts: &[u16]) -> Result<(), NoMemory>
    ensures { OnOk result (out.new ≡ out.old ++ flat_map (label_text scenario.now) scripts.now) }
{
    for script in scripts {
        put_label(out, scenario, *script)?;
    }
    Ok(())
}

/// Turns of channel ends and timeouts in a step, at all managers.
#[tactic(auto, using(crate::proofs::StepLaws::turns_step))]
fn turns_in(step: usize, histories: &[History]) -> Result<u64, NoMemory>
    ensures { IfOk result (λ n. n ≡ turns_in step histories.now) }
{
    let mut turns = 0;
    'counting: for history in histories {
        let more = count_turns(in_step(Some(history), step)) as u64;
        let Some(sum) = add(turns, more) else {
            return Err(NoMemory);
        };
        turns = sum;
    }
    Ok(turns)
}

fn add(a: u64, b: u64) -> Option<u64>
    ensures { IfSome result (λ n. n ≡ a + b) }
{
    a.checked_add(b)
}

fn put_pump(
    alloc: Global,
    out: &mut Text,
    step: usize,
    n: u64,
    histories: &[History],
) -> Result<(), NoMemory>
    ensures { OnOk result (out.new ≡ out.old ++ pump_text step n histories.now) }
{
    let turns = turns_in(step, histories)?;
    put_number(alloc, out, n)?;
    put_word(out, " TURNS ")?;
    put_number(alloc, out, turns)?;
    put_word(out, idle_word(is_idle(histories, step)))
}

fn put_handle(
    alloc: Global,
    out: &mut Text,
    step: usize,
    handler: u64,
    n: u64,
    histories: &[History],
    rules: Option<&RulesPart>,
) -> Result<(), NoMemory>
    ensures { OnOk result (out.new ≡ out.old ++ handle_text step handler n histories.now (option_copied rules.entry)) }
{
    let Some(rules) = rules else {
        return put_word(out, "\n");
    };
    let actions = count_actions(
        handler,
        in_step(history_at(histories, rules.manager as usize), step),
    );
    put(out, rules.label.text())?;
    put_word(out, " ")?;
    put_number(alloc, out, n)?;
    put_word(out, " ACTIONS ")?;
    put_number(alloc, out, actions as u64)?;
    put_word(out, idle_word(is_idle(histories, step)))
}

fn put_watch(
    alloc: Global,
    out: &mut Text,
    step: usize,
    monitor: u64,
    histories: &[History],
    line: Option<&MonitorLine>,
) -> Result<(), NoMemory>
    ensures { OnOk result (out.new ≡ out.old ++ watch_text step monitor histories.now (option_copied line.entry)) }
{
    let Some(line) = line else {
        return put_word(out, "\n");
    };
    let refusal = first_refusal(
        monitor,
        in_step(history_at(histories, line.manager as usize), step),
    );
    put(out, line.label.text())?;
    put_watched(alloc, out, refusal)
}

fn put_serve(
    alloc: Global,
    out: &mut Text,
    step: usize,
    scenario: &Scenario,
    monitor: u64,
    n: u64,
    histories: &[History],
    line: Option<&MonitorLine>,
) -> Result<(), NoMemory>
    ensures { OnOk result (out.new ≡ out.old ++ serve_text step scenario.now monitor n histories.now (option_copied line.entry)) }
{
    let Some(line) = line else {
        return put_word(out, "\n");
    };
    let history = history_at(histories, line.manager as usize);
    let starts = starts_in(
        scenario,
        monitor,
        line.manager as u64,
        before_step(history, step),
        in_step(history, step),
    )?;
    put(out, line.label.text())?;
    put_word(out, " ")?;
    put_number(alloc, out, n)?;
    put_word(out, " STARTED ")?;
    put_number(alloc, out, starts)?;
    put_word(out, "\n")
}

/// What a step did, by its place from 0.
fn put_step(
    alloc: Global,
    out: &mut Text,
    scenario: &Scenario,
    histories: &[History],
    at: usize,
    step: &Step,
) -> Result<(), NoMemory>
    ensures { OnOk result (out.new ≡ out.old ++ step_text scenario.now histories.now at step.now) }
{
    match step {
        Step::Obey(k) => {
            put_word(out, "OBEY ")?;
            put_obey(out, at, histories, scenario.sections.get(*k as usize))
        }
        Step::Do(m, _) => put_asked(out, "DO ", at, *m as u64, scenario, histories),
        Step::Run(k, _) => {
            put_word(out, "RUN ")?;
            put_run(
                alloc,
                out,
                at,
                *k as u64,
                histories,
                scenario.scripts.get(*k as usize),
            )
        }
        Step::Phase(scripts) => {
            put_word(out, "PHASE")?;
            put_labels(out, scenario, scripts.as_slice())?;
            put_word(out, "\n")
        }
        Step::Pump(n) => {
            put_word(out, "PUMP ")?;
            put_pump(alloc, out, at, *n as u64, histories)
        }
        Step::Handle(k, n) => {
            put_word(out, "HANDLE ")?;
            let rules = scenario.rules.get(*k as usize);
            put_handle(alloc, out, at, *k as u64, *n as u64, histories, rules)
        }
        Step::Watch(k) => {
            put_word(out, "WATCH ")?;
            put_watch(
                alloc,
                out,
                at,
                *k as u64,
                histories,
                scenario.monitors.get(*k as usize),
            )
        }
        Step::Serve(k, n) => {
            put_word(out, "SERVE ")?;
            let line = scenario.monitors.get(*k as usize);
            put_serve(
                alloc, out, at, scenario, *k as u64, *n as u64, histories, line,
            )
        }
        Step::Crash(m) => put_asked(out, "CRASH ", at, *m as u64, scenario, histories),
        Step::Restart(m) => put_asked(out, "RESTART ", at, *m as u64, scenario, histories),
        Step::Cut(m, _) => put_asked(out, "CUT ", at, *m as u64, scenario, histories),
        Step::Clock(ms) => {
            put_word(out, "CLOCK ")?;
            put_number(alloc, out, *ms)?;
            put_word(out, "\n")
        }
    }
}

fn put_numbered_step(
    alloc: Global,
    out: &mut Text,
    scenario: &Scenario,
    histories: &[History],
    at: usize,
    step: &Step,
) -> Result<(), NoMemory>
    ensures { OnOk result (out.new ≡ out.old ++ (number4 (at + 1) ++ codes " " ++ step_text scenario.now histories.now at step.now)) }
{
    let Some(number) = add(at as u64, 1) else {
        return Err(NoMemory);
    };
    put_number4(alloc, out, number)?;
    put_word(out, " ")?;
    put_step(alloc, out, scenario, histories, at, step)
}

/// All steps.
pub fn put_steps(
    alloc: Global,
    out: &mut Text,
    scenario: &Scenario,
    histories: &[History],
    steps: &[Step],
) -> Result<(), NoMemory>
    ensures { OnOk result (out.new ≡ out.old ++ steps_text scenario.now histories.now 0 steps.now) }
{
    'steps: for (at, step) in steps.iter().enumerate() {
        put_numbered_step(alloc, out, scenario, histories, at, step)?;
    }
    Ok(())
}

fn put_script(
    alloc: Global,
    out: &mut Text,
    scenario: &Scenario,
    histories: &[History],
    script: usize,
    part: &ScriptPart,
) -> Result<(), NoMemory>
    ensures { OnOk result (out.new ≡ out.old ++ script_text scenario.now histories.now script part.now) }
{
    put_word(out, "SCRIPT ")?;
    put(out, part.label.text())?;
    put_word(out, " ")?;
    put_name(out, scenario, part.manager as u64)?;
    put_word(out, "\n")?;
    put_lines(
        alloc,
        out,
        script as u64,
        entries_of(history_at(histories, part.manager as usize)),
    )
}

/// All scripts.
pub fn put_scripts(
    alloc: Global,
    out: &mut Text,
    scenario: &Scenario,
    histories: &[History],
    scripts: &[ScriptPart],
) -> Result<(), NoMemory>
    ensures { OnOk result (out.new ≡ out.old ++ scripts_text scenario.now histories.now 0 scripts.now) }
{
    'scripts: for (at, part) in scripts.iter().enumerate() {
        put_script(alloc, out, scenario, histories, at, part)?;
    }
    Ok(())
}
