//! Messages as the ledger makes them: copies, with another route or without the header of a dead letter (IBM MQ reference, MQDLH).
ghost use Rattle.std.specs.Prelude.{◌≡◌, ◌≤◌, length, drop, IfOk};
ghost use Rattle.mq_spec_manager.specs.Moves.{bare_message, bare_if};

use mq_base::NoMemory;
use mq_heads::{Dlh, dlh_of};
use mq_message::{Bytes, Dest, Message};
use std::alloc::Global;

/// A copy of a message with this route.
pub fn copy_with_route(
    alloc: Global,
    message: &Message,
    route: &Option<Dest>,
) -> Result<Message, NoMemory>
    ensures { IfOk result (λ m. m ≡ record message.now { route = route.now }) }
{
    let body = Bytes::from_slice(alloc, message.body.as_slice())?;
    Ok(Message {
        ident: message.ident,
        md: message.md,
        route: *route,
        deadline: message.deadline,
        body,
    })
}

/// A copy of a message without the header of a dead letter, which gives back three fields.
fn bare_by(alloc: Global, message: &Message, head: &Dlh) -> Result<Message, NoMemory>
    requires { 172 ≤ length message.now.body }
    ensures { IfOk result (λ m. m ≡ record message.now { md = record message.now.md { format = head.now.format; encoding = head.now.encoding; coded_char_set_id = head.now.coded_char_set_id }; body = drop 172 message.now.body }) }
{
    let (_head, rest) = message.body.as_slice().split_at(172);
    let body = Bytes::from_slice(alloc, rest)?;
    let format = head.format;
    let mut md = message.md;
    md.format = format;
    md.encoding = head.encoding;
    md.coded_char_set_id = head.coded_char_set_id;
    Ok(Message {
        ident: message.ident,
        md,
        route: message.route,
        deadline: message.deadline,
        body,
    })
}

/// A copy of a message without the header of a dead letter. A body that has none is told as want of memory: no entry of a
/// story moves one so.
fn bare_message(alloc: Global, message: &Message) -> Result<Message, NoMemory>
    ensures { IfOk result (λ m. m ≡ bare_message message.now) }
{
    match dlh_of(message.body.as_slice()) {
        Err(_) => Err(NoMemory),
        Ok(head) => bare_by(alloc, message, &head),
    }
}

/// A copy of a message, with its header or without.
pub fn bare_if(alloc: Global, bare: bool, message: &Message) -> Result<Message, NoMemory>
    ensures { IfOk result (λ m. m ≡ bare_if bare message.now) }
{
    if bare {
        bare_message(alloc, message)
    } else {
        Ok(message.try_clone(alloc)?)
    }
}
