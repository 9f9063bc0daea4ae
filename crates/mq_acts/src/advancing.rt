//! The next line of a script.
ghost use Rattle.std.specs.Prelude.{◌≡◌, ◌<◌, ◌^◌, Some, IfSome, IsSome, slice_get};
ghost use Rattle.std.specs.Option.{option_map};
ghost use Rattle.mq_acts.specs.declared.advancing.Advanced.TheVariants as advances;
ghost use Rattle.mq_events.specs.States.{IsServed, last_entry};
ghost use Rattle.mq_events.specs.Events.{MayAct};
ghost use Rattle.mq_progress.specs.Course.{Finished, until_in};
ghost use Rattle.mq_acts.specs.Advances.{Advances, IsTextLine, Keeps};
ghost use Rattle.mq_acts.specs.Restarts.{StaysOwn};

use crate::asking::ask;
use mq_base::NoMemory;
use mq_disk::Disk;
use mq_events::{Node, last_entry};
use mq_history::{Actor, Entry, ScriptLine, ScriptPart};
use mq_progress::Progress;

/// What a script did.
#[derive(Clone, Copy)]
pub enum Advanced {
    /// Its next line.
    Done,
    /// Nothing: its get waits until this moment, in milliseconds since 1970.
    Waiting(u64),
    /// Nothing: no line is left.
    Ended,
}

/// The get of the line waits, as long as it was to wait.
fn wait(progress: &mut Progress, moment: u64, line: &ScriptLine) -> Advanced
    requires waits { IsSome (until_in progress.old moment line.now) }
    ensures until { Some result ≡ option_map advances.Waiting (until_in progress.old moment line.now) }
    ensures course { progress.new ≡ record progress.old { until = until_in progress.old moment line.now } }
{
    let until = progress.until(moment, line);
    progress.wait(until);
    match until {
        Some(until) => Advanced::Waiting(until),
        None => unreachable!(),
    }
}

/// The line is done, and was answered as the last entry tells.
fn finish(entries: &[Entry], progress: &mut Progress, line: &ScriptLine)
    requires some { IsSome (last_entry entries.now) }
    requires room { 0 < progress.old.room }
    requires more { progress.old.done < 2 ^ 32 }
    ensures { IfSome (last_entry entries.now) (λ e. Finished line.now e.reply progress.old progress.new) }
{
    match last_entry(entries) {
        Some(entry) => progress.finish(line, &entry.reply),
        None => unreachable!(),
    }
}

/// Does a line of a script, unless it is a get that is to wait.
///
/// # Errors
///
/// No memory; nothing has changed.
#[tactic(auto, using(crate::proofs::LineLaws::line_comes, crate::proofs::LineLaws::line_waits, crate::proofs::LineLaws::line_wants, crate::proofs::LineLaws::line_does, crate::proofs::LineLaws::waits_some, mq_events::proofs::LastLaws::adds_last))]
fn do_line<D: Disk>(
    node: &mut Node<D>,
    number: u16,
    part: &ScriptPart,
    progress: &mut Progress,
    line: &ScriptLine,
) -> Result<Advanced, NoMemory>
    requires served { IsServed node.old }
    requires may { MayAct node.old }
    requires is { slice_get part.now.lines progress.old.done ≡ Some line.now }
    requires text { IsTextLine line.now }
    requires keeps { Keeps progress.old.until line.now }
    requires room { 0 < progress.old.room }
    requires more { progress.old.done < 2 ^ 32 }
    ensures advances { Advances number part.now progress.old node.old result progress.new node.new }
    ensures own { D.tells → StaysOwn node.old.history.entries node.new.history.entries }
{
    let moment = node.moment();
    let call = match progress.call(part, moment, line) {
        Ok(call) => call,
        Err(NoMemory) => return Err(NoMemory),
    };
    match ask(node, Actor::Script(number), call) {
        Err(NoMemory) => Err(NoMemory),
        Ok(false) => Ok(wait(progress, moment, line)),
        Ok(true) => {
            finish(node.entries(), progress, line);
            Ok(Advanced::Done)
        }
    }
}

/// Does the next line of a script, unless its get is to wait, or no line is left. A get that is to wait keeps its deadline until it
/// is done.
///
/// # Errors
///
/// No memory; nothing has changed.
#[tactic(auto, using(crate::proofs::LineLaws::roomed_advances, crate::proofs::LineLaws::none_left, crate::proofs::LineLaws::no_room, crate::proofs::OwnLaws::own_same))]
pub fn advance<D: Disk>(
    node: &mut Node<D>,
    number: u16,
    part: &ScriptPart,
    progress: &mut Progress,
) -> Result<Advanced, NoMemory>
    requires served { IsServed node.old }
    requires may { MayAct node.old }
    requires text { IfSome (slice_get part.now.lines progress.old.done) IsTextLine }
    requires keeps { IfSome (slice_get part.now.lines progress.old.done) (Keeps progress.old.until) }
    requires more { progress.old.done < 2 ^ 32 }
    ensures advances { Advances number part.now progress.old node.old result progress.new node.new }
    ensures own { D.tells → StaysOwn node.old.history.entries node.new.history.entries }
{
    match progress.line(part) {
        None => Ok(Advanced::Ended),
        Some(line) => {
            progress.make_room()?;
            do_line(node, number, part, progress, line)
        }
    }
}
