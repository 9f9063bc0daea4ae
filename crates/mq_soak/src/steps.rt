//! The steps.
ghost use Rattle.std.specs.Prelude.{◌≡◌, ◌≤◌, ◌++◌, ◌∷◌, ◌+◌, [], Some, IfOk, OnOk};
ghost use Rattle.mq_history.specs.declared.scenario.Step.TheVariants as steps;
ghost use Rattle.mq_soak.specs.Words as words;

use crate::lists::{name, three, two};
use mq_base::{ChName, Items, NoMemory};
use mq_history::Step;
use mq_sc_parse::{Command, Op};
use std::alloc::Global;

fn start(channel: ChName) -> Command
    ensures { result ≡ words.start channel }
{
    Command::Operate(Op::Start(channel))
}

/// The steps before the first round.
fn begin(alloc: Global) -> Result<Items<Step>, NoMemory>
    ensures { IfOk result (λ ss. ss ≡ words.begin) }
{
    let mut out = three(alloc, Step::Obey(0), Step::Obey(1), Step::Obey(2))?;
    out.push(Step::Do(0, start(name(b"M1.M2"))))?;
    out.push(Step::Do(1, start(name(b"M2.M3"))))?;
    Ok(out)
}

/// How many lines of the script a round does.
fn lines_in(round: u32) -> u32
    ensures { result ≡ words.lines_in round }
{
    if round == 1 { 22 } else { 21 }
}

fn push_two(out: &mut Items<Step>, first: Step, second: Step) -> Result<(), NoMemory>
    ensures { OnOk result (out.new ≡ out.old ++ first ∷ second ∷ []) }
{
    out.push(first)?;
    out.push(second)?;
    Ok(())
}

/// A stop of the manager between, and what brings it back.
fn push_stop(out: &mut Items<Step>) -> Result<(), NoMemory>
    ensures { OnOk result (out.new ≡ out.old ++ words.stop) }
{
    push_two(out, Step::Crash(1), Step::Restart(1))?;
    push_two(out, Step::Do(1, start(name(b"M2.M3"))), Step::Pump(1000))?;
    Ok(())
}

/// That behind each tenth round.
fn push_stop_after(out: &mut Items<Step>, round: u32) -> Result<(), NoMemory>
    ensures { OnOk result (out.new ≡ out.old ++ words.stop_after round) }
{
    if round % 10 != 0 {
        return Ok(());
    }
    push_stop(out)?;
    Ok(())
}

/// A round at the end.
fn push_round(out: &mut Items<Step>, round: u32) -> Result<(), NoMemory>
    ensures { OnOk result (out.new ≡ out.old ++ words.round round) }
{
    push_two(out, Step::Run(0, Some(lines_in(round))), Step::Pump(1000))?;
    push_stop_after(out, round)?;
    Ok(())
}

/// The steps of so many rounds.
pub fn steps(alloc: Global, n: u32) -> Result<Items<Step>, NoMemory>
    requires { n ≤ 1000 }
    ensures { IfOk result (λ ss. ss ≡ words.steps_to n) }
{
    let mut out = begin(alloc)?;
    for done in 0..n {
        push_round(&mut out, done + 1)?;
    }
    Ok(out)
}
