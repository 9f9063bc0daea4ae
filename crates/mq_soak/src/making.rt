//! The scenario.
ghost use Rattle.std.specs.Prelude.{◌≡◌, ◌≤◌, IfOk};
ghost use Rattle.mq_soak.specs.Words as words;

use crate::lists::{name, one, three, two};
use crate::script::script;
use crate::sections::sections;
use crate::steps::steps;
use mq_base::{ChName, Items, NoMemory, QName};
use mq_history::{CableLine, ManagerLine, Scenario};
use std::alloc::Global;

fn manager(name: QName) -> ManagerLine
    ensures { result ≡ words.manager name }
{
    ManagerLine {
        name,
        log_max: 268_435_456,
    }
}

fn cable(alloc: Global, channel: ChName, sender: u16, receiver: u16) -> CableLine
    ensures { result ≡ words.cable channel sender receiver }
{
    CableLine {
        channel,
        sender,
        receiver,
        out: Items::new(alloc),
        back: Items::new(alloc),
    }
}

fn managers(alloc: Global) -> Result<Items<ManagerLine>, NoMemory>
    ensures { IfOk result (λ ms. ms ≡ words.managers) }
{
    three(
        alloc,
        manager(name(b"M1")),
        manager(name(b"M2")),
        manager(name(b"M3")),
    )
}

fn cables(alloc: Global) -> Result<Items<CableLine>, NoMemory>
    ensures { IfOk result (λ cs. cs ≡ words.cables) }
{
    let first = cable(alloc, name(b"M1.M2"), 0, 1);
    let second = cable(alloc, name(b"M2.M3"), 1, 2);
    two(alloc, first, second)
}

/// The scenario of a number from 1 to 1000: three managers in a row, `20 * n` puts to a queue of the last in units of twenty, after
/// each of which the channels turn till nothing can change, and after each tenth a stop and a restart of the manager between. Of each
/// put's number is drawn at which priority and whether it lasts.
///
/// # Errors
///
/// No memory.
pub fn scenario(alloc: Global, n: u32) -> Result<Scenario, NoMemory>
    requires { n ≤ 1000 }
    ensures { IfOk result (λ s. s ≡ words.soak n) }
{
    let managers = managers(alloc)?;
    let cables = cables(alloc)?;
    let sections = sections(alloc)?;
    let script = script(alloc, n)?;
    let scripts = one(alloc, script)?;
    let steps = steps(alloc, n)?;
    Ok(Scenario {
        moment: Some(0),
        managers,
        cables,
        sections,
        rules: Items::new(alloc),
        scripts,
        monitors: Items::new(alloc),
        steps,
    })
}
