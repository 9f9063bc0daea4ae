//! Copies of scripts.
ghost use Rattle.std.specs.Prelude.{◌≡◌, IfOk};
ghost use Rattle.mq_history.specs.declared.scripts.ScriptLine.TheVariants as lines;

use mq_base::{Items, Label, NoMemory, QName};
use mq_history::{Body, PutOptions, ScriptLine, ScriptPart};
use mq_lines::copy_command;
use mq_sc_parse::Command;
use std::alloc::Global;

fn copy_body(alloc: Global, body: &Body) -> Result<Body, NoMemory>
    ensures { IfOk result (λ copy. copy ≡ body.now) }
{
    match body {
        Body::Text(bytes) => Ok(Body::Text(Items::from_slice(alloc, bytes.as_slice())?)),
        Body::Fill(times, byte) => Ok(Body::Fill(*times, *byte)),
    }
}

fn copy_put(
    alloc: Global,
    handle: Label,
    body: &Body,
    options: PutOptions,
) -> Result<ScriptLine, NoMemory>
    ensures { IfOk result (λ copy. copy ≡ lines.Mqput handle body.now options) }
{
    let body = copy_body(alloc, body)?;
    Ok(ScriptLine::Mqput {
        handle,
        body,
        options,
    })
}

fn copy_put1(
    alloc: Global,
    name: QName,
    qmgr: QName,
    body: &Body,
    options: PutOptions,
) -> Result<ScriptLine, NoMemory>
    ensures { IfOk result (λ copy. copy ≡ lines.Mqput1 name qmgr body.now options) }
{
    let body = copy_body(alloc, body)?;
    Ok(ScriptLine::Mqput1 {
        name,
        qmgr,
        body,
        options,
    })
}

fn copy_reply(alloc: Global, body: &Body, options: PutOptions) -> Result<ScriptLine, NoMemory>
    ensures { IfOk result (λ copy. copy ≡ lines.Reply body.now options) }
{
    let body = copy_body(alloc, body)?;
    Ok(ScriptLine::Reply { body, options })
}

fn copy_mqsc(alloc: Global, command: &Command) -> Result<ScriptLine, NoMemory>
    ensures { IfOk result (λ copy. copy ≡ lines.Mqsc command.now) }
{
    Ok(ScriptLine::Mqsc(copy_command(alloc, command)?))
}

fn copy_line(alloc: Global, line: &ScriptLine) -> Result<ScriptLine, NoMemory>
    ensures { IfOk result (λ copy. copy ≡ line.now) }
{
    match line {
        ScriptLine::Mqconn(name) => Ok(ScriptLine::Mqconn(*name)),
        ScriptLine::Mqdisc => Ok(ScriptLine::Mqdisc),
        ScriptLine::Mqcmit => Ok(ScriptLine::Mqcmit),
        ScriptLine::Mqback => Ok(ScriptLine::Mqback),
        ScriptLine::Mqopen {
            handle,
            name,
            qmgr,
            how,
        } => Ok(ScriptLine::Mqopen {
            handle: *handle,
            name: *name,
            qmgr: *qmgr,
            how: *how,
        }),
        ScriptLine::Mqclose(handle) => Ok(ScriptLine::Mqclose(*handle)),
        ScriptLine::Mqput {
            handle,
            body,
            options,
        } => copy_put(alloc, *handle, body, *options),
        ScriptLine::Mqput1 {
            name,
            qmgr,
            body,
            options,
        } => copy_put1(alloc, *name, *qmgr, body, *options),
        ScriptLine::Reply { body, options } => copy_reply(alloc, body, *options),
        ScriptLine::Mqget { handle, options } => Ok(ScriptLine::Mqget {
            handle: *handle,
            options: *options,
        }),
        ScriptLine::Mqsc(command) => copy_mqsc(alloc, command),
        ScriptLine::Crash => Ok(ScriptLine::Crash),
        ScriptLine::Restart => Ok(ScriptLine::Restart),
        ScriptLine::Cut(calls) => Ok(ScriptLine::Cut(*calls)),
    }
}

fn copy_lines(alloc: Global, lines: &Items<ScriptLine>) -> Result<Items<ScriptLine>, NoMemory>
    ensures { IfOk result (λ copy. copy ≡ lines.now) }
{
    let mut copies = Items::new(alloc);
    for line in lines.as_slice() {
        copies.push(copy_line(alloc, line)?)?;
    }
    Ok(copies)
}

/// A copy of a script.
///
/// # Errors
///
/// No memory.
pub fn copy_part(alloc: Global, part: &ScriptPart) -> Result<ScriptPart, NoMemory>
    ensures { IfOk result (λ copy. copy ≡ part.now) }
{
    let lines = copy_lines(alloc, &part.lines)?;
    Ok(ScriptPart {
        label: part.label,
        manager: part.manager,
        lines,
    })
}
