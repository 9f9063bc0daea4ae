//! Commands on objects: what each does, and that it is done.
ghost use Rattle.std.specs.Prelude.{◌≡◌, OnOk, OnErr};
ghost use Rattle.mq_sc_apply.specs.Commands.{Gives, to_change, to_show, plan, reply, after};

use crate::answers::{Plan, Planned};
use crate::display::display;
use crate::in_use::InUse;
use crate::plans::{alter, alter_manager, define, delete};
use mq_calls::below::{Command, Defs, Items, QName};
use mq_calls::{ScRefusal, Shown};
use std::alloc::Global;

fn to_change(answer: Result<Planned, ScRefusal>) -> Result<Plan, ScRefusal>
    ensures { result ≡ to_change answer }
{
    match answer {
        Ok(planned) => Ok(Plan::Change(planned)),
        Err(refusal) => Err(refusal),
    }
}

fn to_show(answer: Result<Shown, ScRefusal>) -> Result<Plan, ScRefusal>
    ensures { result ≡ to_show answer }
{
    match answer {
        Ok(shown) => Ok(Plan::Show(shown)),
        Err(refusal) => Err(refusal),
    }
}

/// What a command does at the manager `own`: the change that it makes or the lines that it shows, with
/// all memory taken but that of a new object's place (`Defs::reserve`). Nothing has changed yet.
///
/// # Errors
/// The first that applies of `Exists`, `Missing`, `BadValue` with the first such keyword, `InUse`,
/// `NotEmpty` (IBM MQ: MQSC reference); `NoMemory`.
pub fn plan<U: InUse>(
    alloc: Global,
    defs: &Defs,
    own: &QName,
    command: &Command,
    uses: &U,
) -> Result<Plan, ScRefusal>
    ensures { Gives result (plan command.now own.now defs.now.definitions (U.facts uses.now)) }
{
    match command {
        Command::Define(command) => to_change(define(alloc, defs, command, uses)),
        Command::Alter(command) => to_change(alter(alloc, defs, command, uses)),
        Command::AlterManager(command) => to_change(alter_manager(alloc, defs, command, uses)),
        Command::Delete(command) => to_change(delete(defs, command, uses)),
        Command::Display(command) => to_show(display(alloc, defs, own, command, uses)),
    }
}

/// Does a command on objects at the manager `own`. The lines are none but for DISPLAY.
///
/// # Errors
/// As `plan`. After a refusal the definitions are as before.
pub fn apply<U: InUse>(
    alloc: Global,
    defs: &mut Defs,
    own: &QName,
    command: &Command,
    uses: &U,
) -> Result<Shown, ScRefusal>
    ensures reply { Gives result (reply (plan command.now own.now defs.old.definitions (U.facts uses.now))) }
    ensures after { OnOk result (defs.new.definitions ≡ after (plan command.now own.now defs.old.definitions (U.facts uses.now)) defs.old.definitions) }
    ensures refused { OnErr result (defs.new.definitions ≡ defs.old.definitions) }
{
    match plan(alloc, defs, own, command, uses) {
        Err(refusal) => Err(refusal),
        Ok(Plan::Show(shown)) => Ok(shown),
        Ok(Plan::Change(planned)) => {
            if defs.reserve().is_err() {
                return Err(ScRefusal::NoMemory);
            }
            defs.change(planned.change);
            Ok(Shown {
                lines: Items::new(alloc),
            })
        }
    }
}
