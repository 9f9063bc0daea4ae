//! Which script a trigger message begins.
ghost use Rattle.std.specs.Prelude.{◌≡◌, ◌==◌, find, option_map};
ghost use Rattle.std.specs.List.{list_any};
ghost use Rattle.std.specs.Str.{bytes_eq};
ghost use Rattle.mq_spec_node.specs.Words.{begins, got_body, is_script, is_trigger, lines_done, script_named, unless_begun};
ghost use Rattle.mq_watch.specs.Turns.{is_line};

use mq_base::trimmed;
use mq_calls::Answer;
use mq_heads::tm_of;
use mq_history::{Actor, Call, Entry, Reply};
use mq_own::Script;

/// The body that a get answered; empty where it answered none.
fn got_body(reply: &Reply) -> &[u8]
    ensures { result.now ≡ got_body reply.now }
{
    match reply {
        Reply::Got(Answer::Ok(got)) => got.body.as_slice(),
        _ => &[],
    }
}

fn first_named(label: &[u8], scripts: &[Script]) -> Option<u16>
    ensures { result ≡ option_map (λ s. s.number) (find (λ s. bytes_eq label.now s.part.label) scripts.now) }
{
    match scripts
        .iter()
        .find(|script| label == script.part.label.text())
    {
        None => None,
        Some(script) => Some(script.number),
    }
}

/// The first script with this label.
fn script_named(label: &[u8], scripts: &[Script]) -> Option<u16>
    ensures { result ≡ script_named label.now scripts.now }
{
    first_named(label, scripts)
}

fn is_script(number: u16, actor: &Actor) -> bool
    ensures { result ≡ is_script number actor.now }
{
    match actor {
        Actor::Script(script) => *script == number,
        _ => false,
    }
}

fn is_trigger(call: &Call) -> bool
    ensures { result ≡ is_trigger call.now }
{
    match call {
        Call::Trigger => true,
        _ => false,
    }
}

/// Whether an entry is a line of a script.
fn is_line(number: u16, entry: &Entry) -> bool
    ensures { result ≡ is_line number entry.now }
{
    is_script(number, &entry.actor) && !is_trigger(&entry.call)
}

/// Whether a line of a script was done.
fn has_begun(number: u16, entries: &[Entry]) -> bool
    ensures { result ≡ list_any (is_line number) entries.now }
{
    entries.iter().any(|entry| is_line(number, entry))
}

/// Whether no line of a script was done.
fn is_unbegun(number: u16, entries: &[Entry]) -> bool
    ensures { result ≡ (lines_done number entries.now == 0) }
{
    !has_begun(number, entries)
}

fn unless_begun(entries: &[Entry], script: Option<u16>) -> Option<u16>
    ensures { result ≡ unless_begun entries.now script }
{
    match script {
        None => None,
        Some(number) => {
            if is_unbegun(number, entries) {
                Some(number)
            } else {
                None
            }
        }
    }
}

/// The script of these that a monitor's get begins, after what its manager did so far: the one whose label is ApplId of the trigger
/// message, where no line of it was done. It walks over the entries.
#[tactic(auto, using(crate::proofs::BeginLaws::no_message, crate::proofs::BeginLaws::message_begins))]
pub fn begins(scripts: &[Script], entries: &[Entry], reply: &Reply) -> Option<u16>
    ensures { result ≡ begins scripts.now entries.now reply.now }
{
    match tm_of(got_body(reply)) {
        Err(_) => None,
        Ok(head) => unless_begun(entries, script_named(trimmed(&head.appl_id), scripts)),
    }
}
