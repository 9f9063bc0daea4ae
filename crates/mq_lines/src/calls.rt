//! The call that a line of a script makes.
ghost use Rattle.std.specs.Prelude.{◌≡◌, IfOk, min, ◌+◌};
ghost use Rattle.mq_spec_node.specs.Scripts.{script_appl, get_of, id_or, put_md, body_bytes, reply_target, reply_correl, hobj, hconn_or, line_call, deadline, wait_of};
ghost use Rattle.mq_spec_node.specs.from_spec_manager.Words.{last_moment};
ghost use Rattle.mq_spec_node.specs.from_history.CallVariants as calls;

use crate::copies::copy_command;
use crate::letters::{body_bytes, id_or, put_md, reply_correl};
use crate::memory::Memory;
use crate::targets::reply_target;
use crate::texts::appl_name;
use mq_base::{Label, NoMemory, QName};
use mq_calls::{Appl, Get};
use mq_spec_node::below::{Act, Body, Call, GetOptions, PutOptions, ScriptLine};
use std::alloc::Global;

/// The last moment, in milliseconds since 1970: the last millisecond of the year 9999 in GMT.
const LAST_MOMENT: u64 = 253_402_300_799_999;

fn later(moment: u64, by: u64) -> u64
    ensures { result ≡ min (moment + by) last_moment }
{
    moment.saturating_add(by).min(LAST_MOMENT)
}

/// The moment up to which a get may wait that is first tried at this moment; none where it doesn't wait.
pub fn deadline_of(moment: u64, wait: Option<u64>) -> Option<u64>
    ensures { result ≡ deadline moment wait }
{
    match wait {
        None => None,
        Some(wait) => Some(later(moment, wait)),
    }
}

/// How long the get of a line may wait, in milliseconds; none where it doesn't wait.
pub fn wait_of(line: &ScriptLine) -> Option<u64>
    ensures { result ≡ wait_of line.now }
{
    match line {
        ScriptLine::Mqget { options, .. } => options.wait,
        _ => None,
    }
}

/// A script, or a monitor, connects by its label.
pub fn script_appl(label: &Label) -> Appl
    ensures { result ≡ script_appl label.now }
{
    Appl {
        name: appl_name(label),
        user: [b' '; 12],
    }
}

fn get_of(options: &GetOptions) -> Get
    ensures { result ≡ get_of options.now }
{
    Get {
        sync: options.sync,
        take: options.take,
        want: options.want,
        room: options.room,
        truncate: options.truncate,
    }
}

/// A put to an open queue.
fn put_call(
    alloc: Global,
    memory: &Memory,
    handle: &Label,
    body: &Body,
    options: &PutOptions,
) -> Result<Call, NoMemory>
    ensures { IfOk result (λ call. call ≡ calls.Mqput (hconn_or memory.now.memory.connection) (hobj handle.now memory.now.memory) (put_md options.now (id_or options.now.correl_id)) (body_bytes body.now) options.now.sync) }
{
    let body = body_bytes(alloc, body)?;
    Ok(Call::Mqput {
        hc: memory.hconn(),
        ho: memory.hobj(handle),
        md: put_md(options, id_or(&options.correl_id)),
        body,
        sync: options.sync,
    })
}

/// A put to a queue by its name, with this CorrelId.
fn put1_call(
    alloc: Global,
    memory: &Memory,
    name: QName,
    qmgr: QName,
    body: &Body,
    options: &PutOptions,
    correl: [u8; 24],
) -> Result<Call, NoMemory>
    ensures { IfOk result (λ call. call ≡ calls.Mqput1 (hconn_or memory.now.memory.connection) name qmgr (put_md options.now correl) (body_bytes body.now) options.now.sync) }
{
    let body = body_bytes(alloc, body)?;
    Ok(Call::Mqput1 {
        hc: memory.hconn(),
        name,
        qmgr,
        md: put_md(options, correl),
        body,
        sync: options.sync,
    })
}

/// A put to the reply queue of the message that the script got last.
fn reply_call(
    alloc: Global,
    memory: &Memory,
    body: &Body,
    options: &PutOptions,
) -> Result<Call, NoMemory>
    ensures { IfOk result (λ call. call ≡ calls.Mqput1 (hconn_or memory.now.memory.connection) (reply_target memory.now.memory.last).name (reply_target memory.now.memory.last).qmgr (put_md options.now (reply_correl options.now.correl_id memory.now.memory.last)) (body_bytes body.now) options.now.sync) }
{
    let target = reply_target(memory.last());
    let correl = reply_correl(&options.correl_id, memory.last());
    put1_call(
        alloc,
        memory,
        target.name,
        target.qmgr,
        body,
        options,
        correl,
    )
}

/// The call that a line makes; of a get, until this moment.
///
/// # Errors
///
/// No memory for the body or the command that the call has.
pub fn line_call(
    alloc: Global,
    label: &Label,
    memory: &Memory,
    until: Option<u64>,
    line: &ScriptLine,
) -> Result<Call, NoMemory>
    ensures { IfOk result (λ call. call ≡ line_call label.now memory.now.memory until line.now) }
{
    match line {
        ScriptLine::Mqconn(name) => Ok(Call::Mqconn {
            qmgr: *name,
            appl: script_appl(label),
        }),
        ScriptLine::Mqdisc => Ok(Call::Mqdisc { hc: memory.hconn() }),
        ScriptLine::Mqcmit => Ok(Call::Mqcmit { hc: memory.hconn() }),
        ScriptLine::Mqback => Ok(Call::Mqback { hc: memory.hconn() }),
        ScriptLine::Mqopen {
            name,
            qmgr,
            how,
            ..
        } => Ok(Call::Mqopen {
            hc: memory.hconn(),
            name: *name,
            qmgr: *qmgr,
            how: *how,
        }),
        ScriptLine::Mqclose(handle) => Ok(Call::Mqclose {
            hc: memory.hconn(),
            ho: memory.hobj(handle),
        }),
        ScriptLine::Mqput {
            handle,
            body,
            options,
        } => put_call(alloc, memory, handle, body, options),
        ScriptLine::Mqput1 {
            name,
            qmgr,
            body,
            options,
        } => put1_call(
            alloc,
            memory,
            *name,
            *qmgr,
            body,
            options,
            id_or(&options.correl_id),
        ),
        ScriptLine::Reply { body, options } => reply_call(alloc, memory, body, options),
        ScriptLine::Mqget { handle, options } => Ok(Call::Mqget {
            hc: memory.hconn(),
            ho: memory.hobj(handle),
            get: get_of(options),
            until,
        }),
        ScriptLine::Mqsc(command) => Ok(Call::Act(Act::Obey(copy_command(alloc, command)?))),
        ScriptLine::Crash => Ok(Call::Act(Act::Crash)),
        ScriptLine::Restart => Ok(Call::Act(Act::Restart)),
        ScriptLine::Cut(k) => Ok(Call::Act(Act::Cut(*k))),
    }
}
