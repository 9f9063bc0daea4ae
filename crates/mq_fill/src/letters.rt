//! A message as a dead letter: behind a header with the reason and the names that it came with (IBM MQ reference, "MQDLH").
ghost use Rattle.std.specs.Prelude.{◌≡◌, ◌≤◌, ◌++◌, pos, length, IfOk};
ghost use Rattle.mq_codes.specs.Numbers.{number};
ghost use Rattle.mq_base.specs.Name.{padded};
ghost use Rattle.mq_spec_manager.specs.from_heads.Headers.{dlh_bytes};
ghost use Rattle.mq_spec_manager.specs.Landing.{names_of, dead_md, dead_head, dead_message};
ghost use Rattle.mq_spec_manager.specs.Words.{last_moment};

use mq_base::{ChName, NoMemory, QName, field_of};
use mq_clock::put_stamp;
use mq_codes::Reason;
use mq_message::{Bytes, Dest, Md, Message};
use mq_spec_manager::below::{Dlh, dlh_to_bytes};
use std::alloc::Global;

/// The names that came with a message; blank where none did.
pub fn names_of(route: &Option<Dest>) -> Dest
    ensures { result ≡ names_of route.now }
{
    match route {
        None => Dest {
            queue: QName::blank(),
            qmgr: QName::blank(),
        },
        Some(dest) => *dest,
    }
}

/// The manual's number of a reason.
#[tactic(auto, using(crate::proofs::LetterLaws::number_small))]
fn reason_code(reason: &Reason) -> i32
    ensures { result ≡ pos (number reason.now) }
{
    reason.number() as i32
}

/// The name of the channel, as the program that wrote the header.
fn appl_name(channel: &ChName) -> [u8; 28]
    ensures { result ≡ padded 28 channel.now }
{
    field_of::<28>(channel.text())
}

/// The header of a dead letter.
fn dead_head(channel: &ChName, reason: &Reason, message: &Message, moment: u64) -> Dlh
    requires { moment ≤ last_moment }
    ensures { result ≡ dead_head channel.now reason.now message.now moment }
{
    let names = names_of(&message.route);
    let (put_date, put_time) = put_stamp(moment);
    let format = message.md.format;
    let put_appl_name = appl_name(channel);
    Dlh {
        reason: reason_code(reason),
        dest_q_name: *names.queue.bytes(),
        dest_q_mgr_name: *names.qmgr.bytes(),
        encoding: message.md.encoding,
        coded_char_set_id: message.md.coded_char_set_id,
        format,
        put_appl_type: 0,
        put_appl_name,
        put_date,
        put_time,
    }
}

/// The descriptor of a dead letter.
fn dead_md(md: &Md) -> Md
    ensures { result ≡ dead_md md.now }
{
    let format = *b"MQDEAD  ";
    let mut dead = *md;
    dead.format = format;
    dead.encoding = 273;
    dead.coded_char_set_id = 1208;
    dead
}

/// A header, and a body behind it.
fn behind_head(alloc: Global, head: &Dlh, body: &[u8]) -> Result<Bytes, NoMemory>
    ensures { IfOk result (λ b. b ≡ dlh_bytes head.now ++ body.now) }
{
    let mut bytes = match Bytes::from_slice(alloc, &dlh_to_bytes(head)) {
        Ok(bytes) => bytes,
        Err(_) => return Err(NoMemory),
    };
    match bytes.extend_from_slice(body) {
        Ok(()) => Ok(bytes),
        Err(_) => Err(NoMemory),
    }
}

/// A message as a dead letter of a channel: its body behind a header of 172 bytes, without a route. The moment is in milliseconds
/// since 1970; it is the put date and time of the header.
///
/// # Errors
///
/// No memory, of a body that is 172 bytes longer.
pub fn dead_message(
    alloc: Global,
    channel: &ChName,
    reason: &Reason,
    message: &Message,
    moment: u64,
) -> Result<Message, NoMemory>
    requires { moment ≤ last_moment }
    ensures { IfOk result (λ m. m ≡ dead_message channel.now reason.now message.now moment) }
{
    let head = dead_head(channel, reason, message, moment);
    match behind_head(alloc, &head, message.body.as_slice()) {
        Ok(body) => Ok(Message {
            ident: message.ident,
            md: dead_md(&message.md),
            route: None,
            deadline: message.deadline,
            body,
        }),
        Err(NoMemory) => Err(NoMemory),
    }
}
