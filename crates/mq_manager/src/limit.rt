//! The limit of MAXMSGL of the manager.
ghost use Rattle.std.specs.Prelude.{◌≡◌, true, false};
ghost use Rattle.std.specs.List.{list_all};
ghost use Rattle.mq_calls.specs.Words.{MeetsOrWants};
ghost use Rattle.mq_spec_manager.specs.Commands.{command};
ghost use Rattle.mq_law_manager.specs.Facts.{AreOnce};
ghost use Rattle.mq_receive.specs.from_core.Values.{WritesLog, begun_call, manager_of};
ghost use Rattle.mq_manager.specs.Limits.{setting_fits, fits};

use mq_calls::{Halt, ScRefusal, Shown};
use mq_disk::Disk;
use mq_objects::{Command, Setting};
use mq_receive::below::Core;

/// The longest body of a message that a record keeps, in bytes.
const LONGEST_BODY: u32 = 4_194_304;

fn setting_fits(setting: &Setting) -> bool
    ensures { result ≡ setting_fits setting.now }
{
    if let Setting::MaxMessageLength(length) = setting {
        *length <= LONGEST_BODY
    } else {
        true
    }
}

fn all_fit(settings: &[Setting]) -> bool
    ensures { result ≡ list_all setting_fits settings.now }
{
    settings.iter().all(|setting| setting_fits(setting))
}

/// Whether a command leaves MAXMSGL of the manager within what a record keeps. The reader of commands gives no other.
fn fits(asked: &Command) -> bool
    ensures { result ≡ fits asked.now }
{
    match asked {
        Command::Define(_) => true,
        Command::Alter(_) => true,
        Command::AlterManager(command) => all_fit(command.settings.as_slice()),
        Command::Delete(_) => true,
        Command::Display(_) => true,
    }
}

/// A command on objects; one that doesn't fit finds no memory, as one whose record would be too long.
#[tactic(auto, using(crate::proofs::CommandLaws::meets_want, crate::proofs::CommandLaws::told_want))]
pub fn command_that_fits<D: Disk>(
    core: &mut Core<D>,
    asked: &Command,
) -> Result<Shown, Halt<ScRefusal>>
    requires once { AreOnce core.old.plain.definitions.objects }
    ensures meets { MeetsOrWants (manager_of core.old) (command asked.now core.old.plain) result (manager_of core.new) }
    ensures told { WritesLog core.old (command asked.now core.old.plain) result core.new }
    ensures unfit { fits asked.now ≡ false → core.new ≡ begun_call core.old }
{
    if !fits(asked) {
        core.begin_call();
        return Err(Halt::NoMemory);
    }
    mq_steer::command(core, asked)
}
