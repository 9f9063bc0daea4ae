//! Logs of the manager 1, M1, most with one queue, Q1: bodies behind open gates (docs/FORMATS.md).

use mq_base::NoMemory;
use std::alloc::Global;

/// What stands behind a queue's name in the text that defines it.
const ATTRIBUTES: &[u8] =
    b"') DEFPRTY(0) DEFPSIST(NO) GET(ENABLED) INITQ('') MAXDEPTH(5000) MAXMSGL(4194304) MSGDLVSQ(PRIORITY) PROCESS('') PUT(ENABLED) TRIGDATA('') TRIGDPTH(1) NOTRIGGER TRIGMPRI(0) TRIGTYPE(FIRST) USAGE(NORMAL)";

fn put_name(log: &mut Vec<u8>, text: &[u8], width: usize) -> Result<(), NoMemory> {
    log.extend_from_slice(text)?;
    for _ in text.len()..width {
        log.push(b' ')?;
    }
    Ok(())
}

fn put_ident(log: &mut Vec<u8>, number: u64) -> Result<(), NoMemory> {
    log.push(1)?;
    log.extend_from_slice(&1u64.to_be_bytes())?;
    log.extend_from_slice(&number.to_be_bytes())?;
    Ok(())
}

/// An open gate, and the length of the body behind it.
fn put_gate(log: &mut Vec<u8>, size: u32) -> Result<(), NoMemory> {
    log.push(0xa5)?;
    log.extend_from_slice(&size.to_be_bytes())?;
    Ok(())
}

fn put_started(log: &mut Vec<u8>) -> Result<(), NoMemory> {
    put_gate(log, 58)?;
    log.extend_from_slice(&[1, 1])?;
    put_name(log, b"M1", 48)?;
    log.extend_from_slice(&1u64.to_be_bytes())?;
    Ok(())
}

/// A change of objects: 1 sets, 2 deletes. Its text is what stands in front of a name, the name and what stands behind it.
fn put_objects(
    log: &mut Vec<u8>,
    operation: u8,
    front: &[u8],
    name: &[u8],
    back: &[u8],
) -> Result<(), NoMemory> {
    let size = front
        .len()
        .saturating_add(name.len())
        .saturating_add(back.len());
    let size = u32::try_from(size).unwrap_or(0);
    put_gate(log, size.saturating_add(6))?;
    log.extend_from_slice(&[2, operation])?;
    log.extend_from_slice(&size.to_be_bytes())?;
    log.extend_from_slice(front)?;
    log.extend_from_slice(name)?;
    log.extend_from_slice(back)?;
    Ok(())
}

fn put_define(log: &mut Vec<u8>, name: &[u8]) -> Result<(), NoMemory> {
    put_objects(log, 1, b"DEFINE QLOCAL('", name, ATTRIBUTES)
}

fn put_delete(log: &mut Vec<u8>, name: &[u8]) -> Result<(), NoMemory> {
    put_objects(log, 2, b"DELETE QLOCAL('", name, b"')")
}

/// A unit that adds one persistent message without a body.
fn put_add(log: &mut Vec<u8>, number: u64, priority: u8) -> Result<(), NoMemory> {
    put_gate(log, 411)?;
    log.extend_from_slice(&[3, 0, 0, 0, 1, 0, 0, 0, 0])?;
    put_name(log, b"Q1", 48)?;
    put_ident(log, number)?;
    log.extend_from_slice(b"MD  \0\0\0\x01")?;
    log.extend_from_slice(&[0; 35])?;
    log.extend_from_slice(&[priority, 0, 0, 0, 1])?;
    log.extend_from_slice(&[b'x'; 276])?;
    log.extend_from_slice(&[0xff; 8])?;
    log.extend_from_slice(&[0; 5])?;
    Ok(())
}

/// A unit that takes one message.
fn put_remove(log: &mut Vec<u8>, number: u64) -> Result<(), NoMemory> {
    put_gate(log, 74)?;
    log.extend_from_slice(&[3, 0, 0, 0, 0, 0, 0, 0, 1])?;
    put_name(log, b"Q1", 48)?;
    put_ident(log, number)?;
    Ok(())
}

fn digit(number: u64) -> u8 {
    b'0' + (number % 10) as u8
}

/// A letter and the last six digits of a number.
fn numbered(letter: u8, number: u64) -> [u8; 7] {
    [
        letter,
        digit(number / 100_000),
        digit(number / 10_000),
        digit(number / 1_000),
        digit(number / 100),
        digit(number / 10),
        digit(number),
    ]
}

/// The channel of a number.
fn put_channel(log: &mut Vec<u8>, number: u64) -> Result<(), NoMemory> {
    put_name(log, &numbered(b'C', number), 20)
}

/// A channel's sender begins a session with M2.
fn put_session(log: &mut Vec<u8>, channel: u64, session: u64) -> Result<(), NoMemory> {
    put_gate(log, 77)?;
    log.push(4)?;
    put_channel(log, channel)?;
    put_name(log, b"M2", 48)?;
    log.extend_from_slice(&session.to_be_bytes())?;
    Ok(())
}

/// A channel's sender prepares the first unit of its first session: so many messages.
fn put_prepared(log: &mut Vec<u8>, channel: u64, first: u64, count: u32) -> Result<(), NoMemory> {
    put_gate(log, count.saturating_mul(17).saturating_add(93))?;
    log.push(5)?;
    put_channel(log, channel)?;
    log.extend_from_slice(&1u64.to_be_bytes())?;
    log.extend_from_slice(&1u64.to_be_bytes())?;
    log.extend_from_slice(&1u32.to_be_bytes())?;
    put_name(log, b"Q1", 48)?;
    log.extend_from_slice(&count.to_be_bytes())?;
    for number in first..first.saturating_add(count as u64) {
        put_ident(log, number)?;
    }
    Ok(())
}

/// A start, the queue, and a unit in doubt that lists so many messages. Then each of these is added, which takes it off the
/// list, and the sender begins a session, which keeps the unit.
pub fn doubt_log(alloc: Global, listed: u32) -> Result<Vec<u8>, NoMemory> {
    let mut log = Vec::new(alloc);
    put_started(&mut log)?;
    put_define(&mut log, b"Q1")?;
    put_session(&mut log, 0, 1)?;
    put_prepared(&mut log, 0, 0, listed)?;
    for number in 0..listed as u64 {
        put_add(&mut log, number, (number % 10) as u8)?;
        put_session(&mut log, 0, number.saturating_add(2))?;
    }
    Ok(log)
}

/// A start, and so many channels, each with a session and a unit in doubt of one message.
pub fn channels_log(alloc: Global, channels: u64) -> Result<Vec<u8>, NoMemory> {
    let mut log = Vec::new(alloc);
    put_started(&mut log)?;
    for channel in 0..channels {
        put_session(&mut log, channel, 1)?;
        put_prepared(&mut log, channel, channel, 1)?;
    }
    Ok(log)
}

/// A start, the queue, so many messages that come and go at once, and so many that stay, of all priorities.
pub fn log_of(alloc: Global, pairs: u64, standing: u64) -> Result<Vec<u8>, NoMemory> {
    let mut log = Vec::new(alloc);
    put_started(&mut log)?;
    put_define(&mut log, b"Q1")?;
    for number in 0..pairs {
        put_add(&mut log, number, (number % 10) as u8)?;
        put_remove(&mut log, number)?;
    }
    for number in pairs..pairs.saturating_add(standing) {
        put_add(&mut log, number, (number % 10) as u8)?;
    }
    Ok(log)
}

/// A start, and so many queues that are defined, of which so many are deleted, the oldest first.
pub fn queues_log(alloc: Global, defined: u64, deleted: u64) -> Result<Vec<u8>, NoMemory> {
    let mut log = Vec::new(alloc);
    put_started(&mut log)?;
    for queue in 0..defined {
        put_define(&mut log, &numbered(b'Q', queue))?;
    }
    for queue in 0..deleted {
        put_delete(&mut log, &numbered(b'Q', queue))?;
    }
    Ok(log)
}
