//! What records have in front of their lists and messages, or all of them, as arrays. None takes memory.

ghost use Rattle.std.specs.Prelude.{◌≡◌, ◌<◌, List, length};
ghost use Rattle.mq_message.specs.declared.message.Ident.{Ident};
ghost use Rattle.mq_message.specs.declared.message.Message.{Message};
ghost use Rattle.mq_frame.specs.Frames.{ident_bytes, flag, IsIdent};
ghost use Rattle.mq_calls.specs.declared.records.Add.{Add};
ghost use Rattle.mq_calls.specs.declared.records.LogRecord.TheVariants as records;
ghost use Rattle.mq_record.specs.Records.{record_bytes, operation_number, end_number, objects_front, unit_front, prepared_front, received_front, moved_front, AreCounted, IsAdd, IsKept, IsRecord};

use crate::record::Operation;
use mq_base::{ChName, QName};
use mq_calls::below::{End, Unit};
use mq_message::Ident;
use mq_message::fields::{put_array, put_u8, put_u32, put_u64};

fn flag(set: bool) -> u8
    ensures { result ≡ flag set }
{
    if set { 1 } else { 0 }
}

fn operation_number(operation: Operation) -> u8
    ensures { result ≡ operation_number operation }
{
    match operation {
        Operation::Set => 1,
        Operation::Delete => 2,
    }
}

fn end_number(end: End) -> u8
    ensures { result ≡ end_number end }
{
    match end {
        End::Sender => 1,
        End::Receiver => 2,
    }
}

/// The record of a start.
pub fn started_bytes(manager: u8, name: &QName, incarnation: u64) -> [u8; 58]
    ensures bytes { result ≡ record_bytes (records.Started manager name.now incarnation) }
    ensures record { IsRecord (records.Started manager name.now incarnation) }
{
    let mut bytes = [0; 58];
    put_u8(&mut bytes, 0, 1);
    put_u8(&mut bytes, 1, manager);
    put_array(&mut bytes, 2, name.bytes());
    put_u64(&mut bytes, 50, incarnation);
    bytes
}

/// What stands in front of the text of a change of objects, `length` bytes long.
pub fn objects_front(operation: Operation, length: u32) -> [u8; 6]
    ensures { result ≡ objects_front operation length }
{
    let mut bytes = [0; 6];
    put_u8(&mut bytes, 0, 2);
    put_u8(&mut bytes, 1, operation_number(operation));
    put_u32(&mut bytes, 2, length);
    bytes
}

/// What stands in front of a unit's adds, and then removes.
pub fn unit_front(adds: u32, removes: u32) -> [u8; 9]
    ensures { result ≡ unit_front adds removes }
{
    let mut bytes = [0; 9];
    put_u8(&mut bytes, 0, 3);
    put_u32(&mut bytes, 1, adds);
    put_u32(&mut bytes, 5, removes);
    bytes
}

/// The record of a session that a sender begins.
pub fn session_bytes(channel: &ChName, partner: &QName, session: u64) -> [u8; 77]
    ensures bytes { result ≡ record_bytes (records.Session channel.now partner.now session) }
    ensures record { 0 < length channel.now → IsRecord (records.Session channel.now partner.now session) }
{
    let mut bytes = [0; 77];
    put_u8(&mut bytes, 0, 4);
    put_array(&mut bytes, 1, channel.bytes());
    put_array(&mut bytes, 21, partner.bytes());
    put_u64(&mut bytes, 69, session);
    bytes
}

/// What stands in front of the idents of a prepared unit.
pub fn prepared_front(
    channel: &ChName,
    unit: Unit,
    last: u32,
    queue: &QName,
    count: u32,
) -> [u8; 93]
    ensures bytes { result ≡ prepared_front channel.now unit last queue.now count }
    ensures record { 0 < length channel.now → (idents : List Ident) → AreCounted IsIdent idents → IsRecord (records.Prepared channel.now unit last queue.now idents) }
{
    let mut bytes = [0; 93];
    put_u8(&mut bytes, 0, 5);
    put_array(&mut bytes, 1, channel.bytes());
    put_u64(&mut bytes, 21, unit.session);
    put_u64(&mut bytes, 29, unit.n);
    put_u32(&mut bytes, 37, last);
    put_array(&mut bytes, 41, queue.bytes());
    put_u32(&mut bytes, 89, count);
    bytes
}

/// The record of a unit in doubt that is settled.
pub fn resolved_bytes(channel: &ChName, unit: Unit, commit: bool, operator: bool) -> [u8; 39]
    ensures bytes { result ≡ record_bytes (records.Resolved channel.now unit commit operator) }
    ensures record { 0 < length channel.now → IsRecord (records.Resolved channel.now unit commit operator) }
{
    let mut bytes = [0; 39];
    put_u8(&mut bytes, 0, 6);
    put_array(&mut bytes, 1, channel.bytes());
    put_u64(&mut bytes, 21, unit.session);
    put_u64(&mut bytes, 29, unit.n);
    put_u8(&mut bytes, 37, flag(commit));
    put_u8(&mut bytes, 38, flag(operator));
    bytes
}

/// The record of a session that a receiver is bound to.
pub fn bound_bytes(channel: &ChName, partner: &QName, session: u64, last: u32) -> [u8; 81]
    ensures bytes { result ≡ record_bytes (records.Bound channel.now partner.now session last) }
    ensures record { 0 < length channel.now → IsRecord (records.Bound channel.now partner.now session last) }
{
    let mut bytes = [0; 81];
    put_u8(&mut bytes, 0, 7);
    put_array(&mut bytes, 1, channel.bytes());
    put_array(&mut bytes, 21, partner.bytes());
    put_u64(&mut bytes, 69, session);
    put_u32(&mut bytes, 77, last);
    bytes
}

/// The record of a session that an operator closed at the receiver.
pub fn closed_bytes(channel: &ChName, session: u64) -> [u8; 29]
    ensures bytes { result ≡ record_bytes (records.Closed channel.now session) }
    ensures record { 0 < length channel.now → IsRecord (records.Closed channel.now session) }
{
    let mut bytes = [0; 29];
    put_u8(&mut bytes, 0, 8);
    put_array(&mut bytes, 1, channel.bytes());
    put_u64(&mut bytes, 21, session);
    bytes
}

/// What stands in front of the adds of a unit that a receiver commits.
pub fn received_front(channel: &ChName, unit: Unit, last: u32, adds: u32) -> [u8; 45]
    ensures bytes { result ≡ received_front channel.now unit last adds }
    ensures record { 0 < length channel.now → (all : List Add) → AreCounted IsAdd all → IsRecord (records.Received channel.now unit last all) }
{
    let mut bytes = [0; 45];
    put_u8(&mut bytes, 0, 9);
    put_array(&mut bytes, 1, channel.bytes());
    put_u64(&mut bytes, 21, unit.session);
    put_u64(&mut bytes, 29, unit.n);
    put_u32(&mut bytes, 37, last);
    put_u32(&mut bytes, 41, adds);
    bytes
}

/// The record of a sequence number that an operator set.
pub fn seq_set_bytes(channel: &ChName, end: End, last: u32) -> [u8; 26]
    ensures bytes { result ≡ record_bytes (records.SeqSet channel.now end last) }
    ensures record { 0 < length channel.now → IsRecord (records.SeqSet channel.now end last) }
{
    let mut bytes = [0; 26];
    put_u8(&mut bytes, 0, 10);
    put_array(&mut bytes, 1, channel.bytes());
    put_u8(&mut bytes, 21, end_number(end));
    put_u32(&mut bytes, 22, last);
    bytes
}

/// What stands in front of a message that moves from one queue to another.
pub fn moved_front(from: &QName, ident: &Ident, to: &QName) -> [u8; 114]
    ensures bytes { result ≡ moved_front from.now ident.now to.now }
    ensures record { (m : Message) → IsKept m → IsRecord (records.Moved from.now ident.now to.now m) }
{
    let mut bytes = [0; 114];
    put_u8(&mut bytes, 0, 11);
    put_array(&mut bytes, 1, from.bytes());
    put_array(&mut bytes, 49, &ident_array(ident));
    put_array(&mut bytes, 66, to.bytes());
    bytes
}

/// An ident's bytes.
pub fn ident_array(ident: &Ident) -> [u8; 17]
    ensures bytes { result ≡ ident_bytes ident.now }
    ensures ident { IsIdent ident.now }
{
    let (manager, incarnation, number) = (ident.manager, ident.incarnation, ident.number);
    let mut bytes = [0; 17];
    put_u8(&mut bytes, 0, manager);
    put_u64(&mut bytes, 1, incarnation);
    put_u64(&mut bytes, 9, number);
    bytes
}
