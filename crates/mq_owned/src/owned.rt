//! What a scenario gives a node as its own.
ghost use Rattle.std.specs.Prelude.{◌≡◌, ◌≤◌, [], All, None, IfOk, length};
ghost use Rattle.mq_history.specs.Scenarios.{IsCable};
ghost use Rattle.mq_spec_node.specs.Words.{begun_anew};
ghost use Rattle.mq_spec_network.specs.Given.{handlers_from, monitors_from, own_at, scripts_from};

use crate::ends::ends_of;
use crate::lines::copy_part;
use crate::tables::copy_table;
use mq_base::{Items, NoMemory};
use mq_core::Core;
use mq_disk::Disk;
use mq_history::{MonitorLine, RulesPart, Scenario, ScriptPart};
use mq_own::{Handler, Monitor, Own, Script};
use std::alloc::Global;

fn handler_of(alloc: Global, number: u16, part: &RulesPart) -> Result<Handler, NoMemory>
    ensures { IfOk result (λ h. h ≡ record { number = number; table = part.now.table; tried = [] }) }
{
    let table = copy_table(alloc, &part.table)?;
    Ok(Handler {
        number,
        table,
        tried: Vec::new(alloc),
    })
}

/// The handlers of a manager, by their tables' places in the scenario.
fn handlers_of(alloc: Global, manager: u16, parts: &[RulesPart]) -> Result<Items<Handler>, NoMemory>
    requires few { length parts.now ≤ 64 }
    ensures { IfOk result (λ hs. hs ≡ handlers_from manager 0 parts.now) }
{
    let mut handlers = Items::new(alloc);
    for (number, part) in parts.iter().enumerate() {
        if part.manager == manager {
            handlers.push(handler_of(alloc, number as u16, part)?)?;
        }
    }
    Ok(handlers)
}

/// Its monitors.
fn monitors_of(
    alloc: Global,
    manager: u16,
    lines: &[MonitorLine],
) -> Result<Items<Monitor>, NoMemory>
    requires few { length lines.now ≤ 64 }
    ensures { IfOk result (λ ms. ms ≡ monitors_from manager 0 lines.now) }
{
    let mut monitors = Items::new(alloc);
    for (number, line) in lines.iter().enumerate() {
        if line.manager == manager {
            monitors.push(Monitor {
                number: number as u16,
                line: *line,
                connection: None,
                handle: None,
            })?;
        }
    }
    Ok(monitors)
}

fn script_of(alloc: Global, number: u16, part: &ScriptPart) -> Result<Script, NoMemory>
    ensures { IfOk result (λ s. s ≡ record { number = number; part = part.now }) }
{
    let part = copy_part(alloc, part)?;
    Ok(Script { number, part })
}

/// Its scripts.
fn scripts_of(alloc: Global, manager: u16, parts: &[ScriptPart]) -> Result<Items<Script>, NoMemory>
    requires few { length parts.now ≤ 64 }
    ensures { IfOk result (λ ss. ss ≡ scripts_from manager 0 parts.now) }
{
    let mut scripts = Items::new(alloc);
    for (number, part) in parts.iter().enumerate() {
        if part.manager == manager {
            scripts.push(script_of(alloc, number as u16, part)?)?;
        }
    }
    Ok(scripts)
}

/// All that a scenario gives the node of a manager, a place in the scenario, as its own, as the manager begins: receivers have what
/// it has hardened.
///
/// # Errors
///
/// No memory.
#[tactic(auto, using(crate::proofs::OwnLaws::own_is))]
pub fn own_of<D: Disk>(
    alloc: Global,
    scenario: &Scenario,
    manager: u16,
    core: &Core<D>,
) -> Result<Own, NoMemory>
    requires rules { length scenario.now.rules ≤ 64 }
    requires scripts { length scenario.now.scripts ≤ 64 }
    requires monitors { length scenario.now.monitors ≤ 64 }
    requires few { length scenario.now.cables ≤ 32 }
    requires cables { All (IsCable scenario.now) scenario.now.cables }
    ensures { IfOk result (λ own. own ≡ (begun_anew core.now.plain (own_at scenario.now manager)).own) }
{
    let ends = ends_of(alloc, scenario, manager, core)?;
    let handlers = handlers_of(alloc, manager, scenario.rules.as_slice())?;
    let monitors = monitors_of(alloc, manager, scenario.monitors.as_slice())?;
    let scripts = scripts_of(alloc, manager, scenario.scripts.as_slice())?;
    Ok(Own {
        ends,
        handlers,
        monitors,
        scripts,
    })
}
