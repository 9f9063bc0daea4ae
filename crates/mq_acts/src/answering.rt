//! A command that a node answers without its manager doing anything, as an event: DISPLAY CHSTATUS.
ghost use Rattle.std.specs.Prelude.{◌≡◌, ◌<◌, ◌^◌, IfOk};
ghost use Rattle.mq_history.specs.declared.acts.Act.TheVariants as acts;
ghost use Rattle.mq_history.specs.declared.calls.Call.TheVariants as calls;
ghost use Rattle.mq_sc_parse.specs.declared.command.Command.TheVariants as commands;
ghost use Rattle.mq_acts.specs.Shows.{shown_as};
ghost use Rattle.mq_events.specs.States.{IsServed, finished, quietly};
ghost use Rattle.mq_events.specs.Events.{ActsAs, MayAct};
ghost use Rattle.mq_events.specs.Counts.{IsNode};

use crate::showing::show_status;
use mq_base::{ChName, Items, NoMemory};
use mq_calls::Choice;
use mq_disk::Disk;
use mq_events::{Node, NodeParts, Outcome};
use mq_history::{Act, Acted, Actor, Call, Reply};
use mq_sc_parse::Command;

/// The entry of a command that is answered so and nothing else, in room that is there.
fn tell_answer<D: Disk>(parts: &mut NodeParts<D>, actor: Actor, asked: Command, acted: Acted)
    requires room { 0 < parts.old.room }
    requires stamp { parts.old.stamp < 2 ^ 60 }
    ensures { parts.new ≡ finished actor (calls.Act (acts.Obey asked)) (quietly acted) parts.old }
{
    let delta = Items::new(parts.alloc);
    parts.finish(
        actor,
        Call::Act(Act::Obey(asked)),
        Outcome {
            choice: Choice::Runs,
            reply: Reply::Acted(acted),
            delta,
        },
    );
}

/// What DISPLAY CHSTATUS answers.
fn shown<D: Disk>(parts: &NodeParts<D>, name: &ChName, any_end: bool) -> Result<Acted, NoMemory>
    ensures { IfOk result (λ acted. acted ≡ shown_as name.now any_end parts.now.manager.plain parts.now.own.ends) }
{
    match show_status(
        parts.alloc,
        &parts.manager,
        parts.own.ends.as_slice(),
        name.text(),
        any_end,
    ) {
        Ok(acted) => Ok(acted),
        Err(_) => Err(NoMemory),
    }
}

/// DISPLAY CHSTATUS, as an event.
#[tactic(auto, using(crate::proofs::AnswerLaws::roomed_node, crate::proofs::AnswerLaws::room_stays, crate::proofs::AnswerLaws::shown_node, crate::proofs::AnswerLaws::shown_did))]
fn show_in<D: Disk>(
    parts: &mut NodeParts<D>,
    actor: Actor,
    name: ChName,
    any_end: bool,
) -> Result<Acted, NoMemory>
    requires node { IsNode parts.old }
    requires served { IsServed parts.old }
    requires may { MayAct parts.old }
    ensures node { IsNode parts.new }
    ensures did { ActsAs actor (calls.Act (acts.Obey (commands.ShowStatus name any_end))) parts.old result parts.new }
{
    if parts.reserve(1).is_err() {
        return Err(NoMemory);
    }
    let acted = match shown(parts, &name, any_end) {
        Ok(acted) => acted,
        Err(NoMemory) => return Err(NoMemory),
    };
    let copy = match shown(parts, &name, any_end) {
        Ok(copy) => copy,
        Err(NoMemory) => return Err(NoMemory),
    };
    tell_answer(parts, actor, Command::ShowStatus { name, any_end }, copy);
    Ok(acted)
}

/// DISPLAY CHSTATUS, as an event.
///
/// # Errors
///
/// No memory; nothing has changed.
pub fn show<D: Disk>(
    node: &mut Node<D>,
    actor: Actor,
    name: ChName,
    any_end: bool,
) -> Result<Acted, NoMemory>
    requires served { IsServed node.old }
    requires may { MayAct node.old }
    ensures { ActsAs actor (calls.Act (acts.Obey (commands.ShowStatus name any_end))) node.old result node.new }
{
    show_in(&mut node.parts, actor, name, any_end)
}
