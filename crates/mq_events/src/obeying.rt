//! Commands on objects.
ghost use Rattle.std.specs.Prelude.{◌≡◌, [], IfOk, IsOk, Ok};
ghost use Rattle.mq_manager.specs.from_law_image.Values.{IsCommandText};
ghost use Rattle.mq_events.specs.Outcomes.{reply_of, acted_of, AnswersAs, ObeysAs};
ghost use Rattle.mq_spec_node.specs.Answers.{sc_stopped};

use crate::calling::told;
use crate::outcome::{Obeyed, Outcome, Told};
use mq_base::{Items, NoMemory};
use mq_calls::{Halt, ScRefusal, Shown};
use mq_disk::{Disk, Stop};
use mq_history::{Acted, Reply};
use mq_manager::Manager;
use std::alloc::Global;

/// A copy of the lines that are shown; it takes no memory where there are none.
fn copy_lines(alloc: Global, lines: &Items<Items<u8>>) -> Result<Items<Items<u8>>, NoMemory>
    ensures copy { IfOk result (λ copies. copies ≡ lines.now) }
    ensures none { lines.now ≡ [] → IsOk result }
{
    let mut copies = Items::new(alloc);
    for line in lines.as_slice() {
        copies.push(Items::from_slice(alloc, line.as_slice())?)?;
    }
    Ok(copies)
}

fn copy_shown(alloc: Global, shown: &Shown) -> Result<Acted, NoMemory>
    ensures { AnswersAs (Ok shown.now) result }
{
    match copy_lines(alloc, &shown.lines) {
        Ok(lines) => Ok(Acted::Shown(Shown { lines })),
        Err(NoMemory) => Err(NoMemory),
    }
}

fn sc_stopped(by: Stop) -> ScRefusal
    ensures { result ≡ sc_stopped by }
{
    match by {
        Stop::Disk => ScRefusal::Disk,
        Stop::Cut => ScRefusal::Cut,
    }
}

/// What is answered for a command that ended so.
fn acted_of(alloc: Global, ended: &Result<Shown, Halt<ScRefusal>>) -> Result<Acted, NoMemory>
    ensures { AnswersAs ended.now result }
{
    match ended {
        Ok(shown) => copy_shown(alloc, shown),
        Err(Halt::Refused(reason)) => Ok(Acted::Sc(*reason)),
        Err(Halt::NoMemory) => Err(NoMemory),
        Err(Halt::Stopped(by)) => Ok(Acted::Sc(sc_stopped(*by))),
    }
}

fn reply_of(ended: Result<Shown, Halt<ScRefusal>>) -> Reply
    ensures { result ≡ reply_of ended }
{
    match ended {
        Ok(shown) => Reply::Acted(Acted::Shown(shown)),
        Err(Halt::Refused(reason)) => Reply::Acted(Acted::Sc(reason)),
        Err(Halt::NoMemory) => Reply::Acted(Acted::Sc(ScRefusal::NoMemory)),
        Err(Halt::Stopped(by)) => Reply::Stopped(by),
    }
}

/// A command on objects, whose values are such as a text of commands gives.
///
/// # Errors
///
/// No memory; nothing has changed.
pub fn obey<D: Disk>(
    manager: &mut Manager<D>,
    alloc: Global,
    asked: &mq_objects::Command,
) -> Result<Obeyed, NoMemory>
    requires text { IsCommandText asked.now }
    ensures { ObeysAs asked.now manager.old result manager.new }
{
    let ended = manager.command(asked);
    let acted = match acted_of(alloc, &ended) {
        Ok(acted) => acted,
        Err(NoMemory) => return Err(NoMemory),
    };
    let Told { choice, delta } = told(manager, &ended);
    Ok(Obeyed {
        outcome: Outcome {
            choice,
            reply: reply_of(ended),
            delta,
        },
        acted,
    })
}
