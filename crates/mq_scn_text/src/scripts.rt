//! Scripts whose end wasn't read yet.

ghost use Rattle.std.specs.Prelude.{◌≡◌, IfOk};
ghost use Rattle.mq_scn_lines.specs.Faults.{Reads};
ghost use Rattle.mq_scn_text.specs.Scripts.{new_script, put_len, connects, connected_after, room, in_order, script_read, script_added};

use mq_base::{Items, Label};
use mq_history::{ScriptLine, ScriptPart};
use mq_scn_heading::below::{body_len, script_line};
use mq_scn_lines::{Limit, LineFault, both};
use std::alloc::{AllocError, Global};

/// A script whose end wasn't read yet.
#[derive(Drop)]
pub struct Script {
    /// Whether an MQCONN has no MQDISC behind it yet.
    pub connected: bool,
    pub part: ScriptPart,
}

/// A script without lines.
pub fn new_script(alloc: Global, label: Label, manager: u16) -> Script
    ensures { result ≡ new_script label manager }
{
    Script {
        connected: false,
        part: ScriptPart {
            label,
            manager,
            lines: Items::new(alloc),
        },
    }
}

/// The length of the body that a line puts, in bytes.
pub fn put_len(line: &ScriptLine) -> u64
    ensures { result ≡ put_len line.now }
{
    match line {
        ScriptLine::Mqput { body, .. } => body_len(body),
        ScriptLine::Mqput1 { body, .. } => body_len(body),
        ScriptLine::Reply { body, .. } => body_len(body),
        ScriptLine::Mqconn(_)
        | ScriptLine::Mqdisc
        | ScriptLine::Mqcmit
        | ScriptLine::Mqback
        | ScriptLine::Mqopen { .. }
        | ScriptLine::Mqclose(_)
        | ScriptLine::Mqget { .. }
        | ScriptLine::Mqsc(_)
        | ScriptLine::Crash
        | ScriptLine::Restart
        | ScriptLine::Cut(_) => 0,
    }
}

fn connects(line: &ScriptLine) -> bool
    ensures { result ≡ connects line.now }
{
    match line {
        ScriptLine::Mqconn(_) => true,
        ScriptLine::Mqdisc
        | ScriptLine::Mqcmit
        | ScriptLine::Mqback
        | ScriptLine::Mqopen { .. }
        | ScriptLine::Mqclose(_)
        | ScriptLine::Mqput { .. }
        | ScriptLine::Mqput1 { .. }
        | ScriptLine::Reply { .. }
        | ScriptLine::Mqget { .. }
        | ScriptLine::Mqsc(_)
        | ScriptLine::Crash
        | ScriptLine::Restart
        | ScriptLine::Cut(_) => false,
    }
}

/// Whether an MQCONN has no MQDISC behind it yet, behind a line.
fn connected_after(connected: bool, line: &ScriptLine) -> bool
    ensures { result ≡ connected_after connected line.now }
{
    match line {
        ScriptLine::Mqconn(_) => true,
        ScriptLine::Mqdisc => false,
        ScriptLine::Mqcmit
        | ScriptLine::Mqback
        | ScriptLine::Mqopen { .. }
        | ScriptLine::Mqclose(_)
        | ScriptLine::Mqput { .. }
        | ScriptLine::Mqput1 { .. }
        | ScriptLine::Reply { .. }
        | ScriptLine::Mqget { .. }
        | ScriptLine::Mqsc(_)
        | ScriptLine::Crash
        | ScriptLine::Restart
        | ScriptLine::Cut(_) => connected,
    }
}

/// Whether a script that has so many lines has room for one more.
fn room(count: usize) -> Result<(), LineFault>
    ensures { result ≡ room count }
{
    if count < 25_000 {
        Ok(())
    } else {
        Err(LineFault::Limit(Limit::ScriptLines))
    }
}

/// An MQCONN stands only where the one before it has an MQDISC behind it.
fn in_order(connected: bool, line: ScriptLine) -> Result<ScriptLine, LineFault>
    ensures { result ≡ in_order connected line }
{
    if connected && connects(&line) {
        Err(LineFault::Order)
    } else {
        Ok(line)
    }
}

/// What the next line of a script says, where so many bytes are left of the limit of all bodies.
#[tactic(auto, unfolding(crate::specs::Scripts::script_read))]
pub fn script_read(
    alloc: Global,
    script: &Script,
    line: &[u8],
    left: u64,
) -> Result<ScriptLine, LineFault>
    ensures { Reads result (script_read left line.now script.now) }
{
    let read = script_line(alloc, line, left);
    match both(room(script.part.lines.len()), read) {
        Err(fault) => Err(fault),
        Ok(((), line)) => in_order(script.connected, line),
    }
}

/// The script with one more line.
pub fn script_added(script: Script, line: ScriptLine) -> Result<Script, AllocError>
    ensures { IfOk result (λ s. s ≡ script_added line script) }
{
    let mut script = script;
    script.connected = connected_after(script.connected, &line);
    script.part.lines.push(line)?;
    Ok(script)
}
