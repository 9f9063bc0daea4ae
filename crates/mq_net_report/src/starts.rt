//! The scripts that a monitor began.
ghost use Rattle.std.specs.Prelude.{◌≡◌, ◌==◌, ◌&&◌, ◌++◌, ◌+◌, if◌then◌else◌, IfOk, IfSome};
ghost use Rattle.std.specs.Str.{bytes_eq};
ghost use Rattle.mq_heads.specs.Headers.{tm_read};
ghost use Rattle.mq_net_report.specs.Steps.{got_body, script_at, is_fresh, begins, is_start, starts_in};

use crate::steps::{count_lines, is_watch};
use mq_base::{NoMemory, trimmed};
use mq_calls::Answer;
use mq_heads::tm_of;
use mq_history::{Entry, Reply, Scenario, ScriptPart};

/// Whether a script is of a manager, and has a label.
fn is_named(part: &ScriptPart, manager: u64, label: &[u8]) -> bool
    ensures { result ≡ (part.now.manager == manager && bytes_eq label.now part.now.label) }
{
    part.manager as u64 == manager && label == part.label.text()
}

/// The place of the script of a manager that has a label.
fn script_at(scripts: &[ScriptPart], manager: u64, label: &[u8]) -> Option<usize>
    ensures { result ≡ script_at manager label.now 0 scripts.now }
{
    for (at, part) in scripts.iter().enumerate() {
        if is_named(part, manager, label) {
            return Some(at);
        }
    }
    None
}

/// Whether two numbers are both 0.
fn are_none(a: usize, b: usize) -> bool
    ensures { result ≡ (a + b == 0) }
{
    a == 0 && b == 0
}

/// Whether a script has done no line, in these entries and those since.
#[tactic(auto, using(crate::proofs::PartLaws::count_append))]
fn is_fresh(script: Option<usize>, before: &[Entry], since: &[Entry]) -> bool
    ensures { result ≡ is_fresh (before.now ++ since.now) script }
{
    match script {
        None => false,
        Some(script) => are_none(
            count_lines(script as u64, before),
            count_lines(script as u64, since),
        ),
    }
}

/// Whether a message is a trigger message that names a script of a manager that has done no line yet.
fn begins(scenario: &Scenario, manager: u64, before: &[Entry], since: &[Entry], body: &[u8]) -> bool
    ensures { result ≡ begins scenario.now manager (before.now ++ since.now) (tm_read body.now) }
{
    match tm_of(body) {
        Err(_) => false,
        Ok(message) => {
            let script = script_at(
                scenario.scripts.as_slice(),
                manager,
                trimmed(&message.appl_id),
            );
            is_fresh(script, before, since)
        }
    }
}

fn got_body(reply: &Reply) -> &[u8]
    ensures { result.now ≡ got_body reply.now }
{
    match reply {
        Reply::Got(Answer::Ok(got)) => got.body.as_slice(),
        _ => &[],
    }
}

/// Whether an entry is a monitor's get that began a script.
fn is_start(
    scenario: &Scenario,
    monitor: u64,
    manager: u64,
    before: &[Entry],
    since: &[Entry],
    entry: &Entry,
) -> bool
    ensures { result ≡ is_start scenario.now monitor manager (before.now ++ since.now) entry.now }
{
    is_watch(monitor, entry) && begins(scenario, manager, before, since, got_body(&entry.reply))
}

fn count_if(test: bool, n: u64) -> Option<u64>
    ensures { IfSome result (λ sum. sum ≡ n + (if test then 1 else 0)) }
{
    if test { n.checked_add(1) } else { Some(n) }
}

/// How many scripts a monitor began in these entries of its manager, after those before.
#[tactic(auto, using(crate::proofs::StepLaws::starts_step))]
pub fn starts_in(
    scenario: &Scenario,
    monitor: u64,
    manager: u64,
    before: &[Entry],
    entries: &[Entry],
) -> Result<u64, NoMemory>
    ensures { IfOk result (λ n. n ≡ starts_in scenario.now monitor manager before.now entries.now) }
{
    let mut starts = 0;
    'starting: for (at, entry) in entries.iter().enumerate() {
        let (since, _) = entries.split_at(at);
        let begun = is_start(scenario, monitor, manager, before, since, entry);
        let Some(sum) = count_if(begun, starts) else {
            return Err(NoMemory);
        };
        starts = sum;
    }
    Ok(starts)
}
