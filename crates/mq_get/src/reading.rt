//! What an application reads of a message: on a transmission queue a message behind its header.
ghost use Rattle.std.specs.Prelude.{◌≡◌, ◌++◌, length, take, IfOk};
ghost use Rattle.mq_heads.specs.Headers.{xqh_bytes};
ghost use Rattle.mq_spec_manager.specs.Heads.{xqh_of};
ghost use Rattle.mq_spec_manager.specs.Words.{read_body, read_md, length_of, got, is_too_long, is_left};

use mq_base::NoMemory;
use mq_calls::{Get, Got};
use mq_heads::{Xqh, xqh_to_bytes};
use mq_message::{Bytes, Dest, Md, Message};
use std::alloc::Global;

/// Format of a message behind the header of a transmission queue.
const TRANSMITTED: [u8; 8] = *b"MQXMIT  ";

/// Whether it is longer than the caller's room.
pub(crate) fn is_too_long(get: &Get, message: &Message) -> bool
    ensures { result ≡ is_too_long get.now message.now }
{
    get.room < read_length(message)
}

/// Too long, and not to be cut.
pub(crate) fn is_left(get: &Get, message: &Message) -> bool
    ensures { result ≡ is_left get.now message.now }
{
    is_too_long(get, message) && !get.truncate
}

fn read_md(message: &Message) -> Md
    ensures { result ≡ read_md message.now.route message.now.md }
{
    match message.route {
        None => message.md,
        Some(_) => Md {
            format: TRANSMITTED,
            encoding: 273,
            coded_char_set_id: 1208,
            ..message.md
        },
    }
}

fn header_of(dest: &Dest, md: &Md) -> Xqh
    ensures { result ≡ xqh_of dest.now md.now }
{
    Xqh {
        remote_q_name: *dest.queue.bytes(),
        remote_q_mgr_name: *dest.qmgr.bytes(),
        msg_desc: *md,
    }
}

/// The length of a message's header, in bytes.
fn header_length(dest: &Dest, md: &Md) -> u64
    ensures value { result ≡ length (xqh_bytes (xqh_of dest.now md.now)) }
    ensures whole { result ≡ 428 }
{
    let header = xqh_to_bytes(&header_of(dest, md));
    header.len() as u64
}

/// How long it is, in bytes.
pub(crate) fn read_length(message: &Message) -> u64
    ensures { result ≡ length_of message.now }
{
    let length = message.body.as_slice().len() as u64;
    match &message.route {
        None => length,
        Some(dest) => header_length(dest, &message.md) + length,
    }
}

/// The first bytes, at most so many.
fn first_bytes(bytes: &[u8], most: u64) -> &[u8]
    ensures { result.now ≡ take most bytes.now }
{
    if most < bytes.len() as u64 {
        let (first, _) = bytes.split_at(most as usize);
        return first;
    }
    bytes
}

/// The first bytes of a message behind its header.
fn read_behind(alloc: Global, dest: &Dest, message: &Message, room: u64) -> Result<Bytes, NoMemory>
    ensures { IfOk result (λ b. b ≡ take room (xqh_bytes (xqh_of dest.now message.now.md) ++ message.now.body)) }
{
    let header = xqh_to_bytes(&header_of(dest, &message.md));
    let mut bytes = match Bytes::from_slice(alloc, first_bytes(&header, room)) {
        Ok(bytes) => bytes,
        Err(_) => return Err(NoMemory),
    };
    if room <= 428 {
        return Ok(bytes);
    }
    match bytes.extend_from_slice(first_bytes(message.body.as_slice(), room - 428)) {
        Ok(()) => Ok(bytes),
        Err(_) => Err(NoMemory),
    }
}

/// The first bytes of a message, at most so many.
fn read_body(alloc: Global, message: &Message, room: u64) -> Result<Bytes, NoMemory>
    ensures { IfOk result (λ b. b ≡ take room (read_body message.now.route message.now)) }
{
    match &message.route {
        None => match Bytes::from_slice(alloc, first_bytes(message.body.as_slice(), room)) {
            Ok(bytes) => Ok(bytes),
            Err(_) => Err(NoMemory),
        },
        Some(dest) => read_behind(alloc, dest, message, room),
    }
}

/// A message as it is read into so much room.
pub(crate) fn got(alloc: Global, message: &Message, room: u64) -> Result<Got, NoMemory>
    ensures { IfOk result (λ g. g ≡ got room message.now) }
{
    match read_body(alloc, message, room) {
        Ok(body) => Ok(Got {
            ident: message.ident,
            md: read_md(message),
            body,
            length: read_length(message),
        }),
        Err(NoMemory) => Err(NoMemory),
    }
}
