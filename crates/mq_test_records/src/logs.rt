//! Logs of the manager 1, M1, whose bodies are laid out as the format's table says.

use std::alloc::{AllocError, Global};

/// The text that defines a queue with a digit in its name, by priority, in front of the digit and behind it.
const DEFINE: &[u8] = b"DEFINE QLOCAL('Q";

const ATTRIBUTES: &[u8] =
    b"') DEFPRTY(0) DEFPSIST(NO) GET(ENABLED) INITQ('') MAXDEPTH(5000) MAXMSGL(4194304) MSGDLVSQ(PRIORITY) PROCESS('') PUT(ENABLED) TRIGDATA('') TRIGDPTH(1) NOTRIGGER TRIGMPRI(0) TRIGTYPE(FIRST) USAGE(NORMAL)";

/// A piece of a body.
#[derive(Clone, Copy)]
enum Field<'a> {
    Byte(u8),
    Short(u32),
    Long(u64),
    Bytes(&'a [u8]),
    /// A text with blanks behind, up to that width.
    Name(&'a [u8], usize),
    /// A byte so often.
    Filled(u8, usize),
    /// The manager 1, an incarnation and a number.
    Ident(u64, u64),
}

fn fill(bytes: &mut Vec<u8>, byte: u8, count: usize) -> Result<(), AllocError> {
    for _ in 0..count {
        bytes.push(byte)?;
    }
    Ok(())
}

fn name(bytes: &mut Vec<u8>, text: &[u8], width: usize) -> Result<(), AllocError> {
    bytes.extend_from_slice(text)?;
    fill(bytes, b' ', width.saturating_sub(text.len()))
}

fn ident(bytes: &mut Vec<u8>, incarnation: u64, number: u64) -> Result<(), AllocError> {
    bytes.push(1)?;
    bytes.extend_from_slice(&incarnation.to_be_bytes())?;
    bytes.extend_from_slice(&number.to_be_bytes())
}

fn put(bytes: &mut Vec<u8>, field: &Field<'_>) -> Result<(), AllocError> {
    match field {
        Field::Byte(byte) => fill(bytes, *byte, 1),
        Field::Short(number) => bytes.extend_from_slice(&number.to_be_bytes()),
        Field::Long(number) => bytes.extend_from_slice(&number.to_be_bytes()),
        Field::Bytes(piece) => bytes.extend_from_slice(piece),
        Field::Name(text, width) => name(bytes, text, *width),
        Field::Filled(byte, count) => fill(bytes, *byte, *count),
        Field::Ident(incarnation, number) => ident(bytes, *incarnation, *number),
    }
}

fn put_all(bytes: &mut Vec<u8>, fields: &[Field<'_>]) -> Result<(), AllocError> {
    for field in fields {
        put(bytes, field)?;
    }
    Ok(())
}

/// What stands between the ident and the priority of a message, and behind it: persistent, no body, no route.
const BEFORE: [Field<'static>; 2] = [Field::Bytes(b"MD  \0\0\0\x01"), Field::Filled(0, 35)];

const BEHIND: [Field<'static>; 4] = [
    Field::Bytes(&[0, 0, 0, 1]),
    Field::Filled(b'x', 276),
    Field::Filled(0xff, 8),
    Field::Filled(0, 5),
];

fn message(
    bytes: &mut Vec<u8>,
    incarnation: u64,
    number: u64,
    priority: u8,
) -> Result<(), AllocError> {
    ident(bytes, incarnation, number)?;
    put_all(bytes, &BEFORE)?;
    bytes.push(priority)?;
    put_all(bytes, &BEHIND)
}

/// A body of the log.
#[derive(Clone, Copy)]
pub enum Body {
    /// Started, of M1 with this number, and its incarnation.
    Started(u8, u64),
    /// Started, of a manager 1 with this name, and its incarnation.
    StartedAs(&'static [u8], u64),
    /// Objects: the queue with that digit in its name is set.
    Defined(u8),
    /// Unit: one message comes to the queue of that name; its incarnation, number and priority.
    Added(&'static [u8], u64, u64, u8),
    /// Unit: the message 1.1 with this number leaves Q1.
    Removed(u64),
    /// Moved: one message from Q1 to Q2; its incarnation and number.
    Moved(u64, u64),
    /// Bound, of the channel M2.M1 in this session.
    Bound(u64),
    /// Closed, of that channel in this session.
    Closed(u64),
    /// Received: the unit 1.n of that channel, with one message to Q1; n, its incarnation and number.
    Received(u64, u64, u64),
    /// Session, of the channel M1.M2.
    Session(u64),
    /// Prepared: the unit 1.1 of the channel M1.M2 with one message from Q1, and 7 as its last number.
    Prepared(u64, u64),
    /// Resolved, of that unit: whether it is committed.
    Resolved(bool),
    /// Any bytes.
    Other(&'static [u8]),
}

fn put_started(
    bytes: &mut Vec<u8>,
    manager: u8,
    called: &[u8],
    incarnation: u64,
) -> Result<(), AllocError> {
    let fields = [
        Field::Byte(1),
        Field::Byte(manager),
        Field::Name(called, 48),
        Field::Long(incarnation),
    ];
    put_all(bytes, &fields)
}

fn put_defined(bytes: &mut Vec<u8>, digit: u8) -> Result<(), AllocError> {
    let length = 1 + DEFINE.len() as u32 + ATTRIBUTES.len() as u32;
    let fields = [
        Field::Byte(2),
        Field::Byte(1),
        Field::Short(length),
        Field::Bytes(DEFINE),
        Field::Byte(digit),
        Field::Bytes(ATTRIBUTES),
    ];
    put_all(bytes, &fields)
}

fn put_added(
    bytes: &mut Vec<u8>,
    queue: &[u8],
    incarnation: u64,
    number: u64,
    priority: u8,
) -> Result<(), AllocError> {
    let fields = [
        Field::Bytes(&[3, 0, 0, 0, 1, 0, 0, 0, 0]),
        Field::Name(queue, 48),
    ];
    put_all(bytes, &fields)?;
    message(bytes, incarnation, number, priority)
}

fn put_removed(bytes: &mut Vec<u8>, number: u64) -> Result<(), AllocError> {
    let fields = [
        Field::Bytes(&[3, 0, 0, 0, 0, 0, 0, 0, 1]),
        Field::Name(b"Q1", 48),
        Field::Ident(1, number),
    ];
    put_all(bytes, &fields)
}

fn put_moved(bytes: &mut Vec<u8>, incarnation: u64, number: u64) -> Result<(), AllocError> {
    let fields = [
        Field::Byte(11),
        Field::Name(b"Q1", 48),
        Field::Ident(incarnation, number),
        Field::Name(b"Q2", 48),
    ];
    put_all(bytes, &fields)?;
    message(bytes, incarnation, number, 0)
}

fn put_bound(bytes: &mut Vec<u8>, session: u64) -> Result<(), AllocError> {
    let fields = [
        Field::Byte(7),
        Field::Name(b"M2.M1", 20),
        Field::Name(b"M2", 48),
        Field::Long(session),
        Field::Short(7),
    ];
    put_all(bytes, &fields)
}

fn put_closed(bytes: &mut Vec<u8>, session: u64) -> Result<(), AllocError> {
    let fields = [
        Field::Byte(8),
        Field::Name(b"M2.M1", 20),
        Field::Long(session),
    ];
    put_all(bytes, &fields)
}

fn put_received(
    bytes: &mut Vec<u8>,
    n: u64,
    incarnation: u64,
    number: u64,
) -> Result<(), AllocError> {
    let fields = [
        Field::Byte(9),
        Field::Name(b"M2.M1", 20),
        Field::Long(1),
        Field::Long(n),
        Field::Short(7),
        Field::Short(1),
        Field::Name(b"Q1", 48),
    ];
    put_all(bytes, &fields)?;
    message(bytes, incarnation, number, 0)
}

fn put_session(bytes: &mut Vec<u8>, session: u64) -> Result<(), AllocError> {
    let fields = [
        Field::Byte(4),
        Field::Name(b"M1.M2", 20),
        Field::Name(b"M2", 48),
        Field::Long(session),
    ];
    put_all(bytes, &fields)
}

fn put_prepared(bytes: &mut Vec<u8>, incarnation: u64, number: u64) -> Result<(), AllocError> {
    let fields = [
        Field::Byte(5),
        Field::Name(b"M1.M2", 20),
        Field::Long(1),
        Field::Long(1),
        Field::Short(7),
        Field::Name(b"Q1", 48),
        Field::Short(1),
        Field::Ident(incarnation, number),
    ];
    put_all(bytes, &fields)
}

fn put_resolved(bytes: &mut Vec<u8>, commit: bool) -> Result<(), AllocError> {
    let fields = [
        Field::Byte(6),
        Field::Name(b"M1.M2", 20),
        Field::Long(1),
        Field::Long(1),
        Field::Byte(commit as u8),
        Field::Byte(0),
    ];
    put_all(bytes, &fields)
}

fn put_body(bytes: &mut Vec<u8>, body: &Body) -> Result<(), AllocError> {
    match *body {
        Body::Started(manager, incarnation) => put_started(bytes, manager, b"M1", incarnation),
        Body::StartedAs(called, incarnation) => put_started(bytes, 1, called, incarnation),
        Body::Defined(digit) => put_defined(bytes, digit),
        Body::Added(queue, incarnation, number, priority) => {
            put_added(bytes, queue, incarnation, number, priority)
        }
        Body::Removed(number) => put_removed(bytes, number),
        Body::Moved(incarnation, number) => put_moved(bytes, incarnation, number),
        Body::Bound(session) => put_bound(bytes, session),
        Body::Closed(session) => put_closed(bytes, session),
        Body::Received(n, incarnation, number) => put_received(bytes, n, incarnation, number),
        Body::Session(session) => put_session(bytes, session),
        Body::Prepared(incarnation, number) => put_prepared(bytes, incarnation, number),
        Body::Resolved(commit) => put_resolved(bytes, commit),
        Body::Other(other) => bytes.extend_from_slice(other),
    }
}

/// Bodies, each behind its open gate and its length.
#[derive(Drop)]
pub struct Log {
    /// The bytes of all bodies.
    pub framed: Vec<u8>,
    /// Whether there was memory for all of them.
    pub whole: bool,
}

fn frame(framed: &mut Vec<u8>, body: &[u8]) -> Result<(), AllocError> {
    let size = (body.len() % 65_536) as u32;
    framed.push(0xa5)?;
    framed.extend_from_slice(&size.to_be_bytes())?;
    framed.extend_from_slice(body)
}

/// The bytes of a body; with fewer, and false, where memory lacks.
fn bytes_of(alloc: Global, body: &Body) -> (Vec<u8>, bool) {
    let mut bytes = Vec::new(alloc);
    let whole = put_body(&mut bytes, body).is_ok();
    (bytes, whole)
}

impl Log {
    /// A log without a body.
    pub fn new(alloc: Global) -> Log {
        Log {
            framed: Vec::new(alloc),
            whole: true,
        }
    }

    /// Puts a body of these bytes behind the others.
    pub fn put_bytes(&mut self, body: &[u8]) {
        if frame(&mut self.framed, body).is_err() {
            self.whole = false;
        }
    }

    /// Puts a body behind the others.
    pub fn put(&mut self, alloc: Global, body: &Body) {
        let (bytes, whole) = bytes_of(alloc, body);
        self.whole = self.whole && whole;
        self.put_bytes(bytes.as_slice());
    }

    /// Puts bodies behind the others.
    pub fn put_all(&mut self, alloc: Global, bodies: &[Body]) {
        for body in bodies {
            self.put(alloc, body);
        }
    }

    /// The place of the next gate.
    pub fn end(&self) -> u64 {
        self.framed.len() as u64
    }
}

/// A log of these bodies.
pub fn log_of(alloc: Global, bodies: &[Body]) -> Log {
    let mut log = Log::new(alloc);
    log.put_all(alloc, bodies);
    log
}
